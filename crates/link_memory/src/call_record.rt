//! The record of the calls of wires in memory, in memory that is reserved once.

ghost use Rattle.std.specs.Prelude.{◌≡◌, ◌≤◌, ◌+◌, ◌∷◌, ◌++◌, [], length, List, OnOk, OnErr, IfOk, not, nat_lt, ◌&&◌, ℕ, vec_len, vec_capacity};
ghost use Rattle.link_trait.specs.Wires.{given_by, given_of};
ghost use Rattle.link_memory.specs.KeptCalls.{IsCallRecordSound, KeepsCallInRecord, call_of, calls_with_octets};
ghost use Rattle.er_base.specs.Printing.{Begins};
ghost use Rattle.link_memory.specs.declared.act.Act.{Act};

use crate::act::{behind, front};
use er_base::NoMemory;
use link_trait::{Happening, ReadAnswer, WriteAnswer};
use std::alloc::Global;

// A call with its answer. What a read gave are octets of the script: those that the acts from one place to another bring
// to the connection, behind those taken before.
#[derive(Clone, Copy)]
pub enum Note {
    Listen {
        is_ok: bool,
    },
    Dial {
        conn: Option<u64>,
    },
    Turn {
        until: Option<u64>,
        happening: Happening,
    },
    Read {
        conn: u64,
        size: usize,
        waiting: u128,
        answer: ReadAnswer,
        from: usize,
        to: usize,
        taken: u128,
    },
    Write {
        conn: u64,
        answer: WriteAnswer,
    },
    Close {
        conn: u64,
    },
}

// A call, and how many octets its address or piece has.
#[derive(Clone, Copy)]
pub struct KeptCall {
    pub note: Note,
    pub octets: usize,
}

// The calls, the octets of their addresses and pieces one behind the other, the places that are taken, and how many
// places and octets there are.
#[derive(Drop)]
pub struct CallRecord {
    pub kept: Vec<KeptCall>,
    pub octets: Vec<u8>,
    pub places: usize,
    pub call_places: usize,
    pub octet_places: usize,
}

impl CallRecord {
    // An empty record.
    #[tactic(auto, unfolding(crate::specs::KeptCalls::octet_count_of_calls))]
    pub fn with_capacity(alloc: Global, calls: usize, octets: usize) -> Result<CallRecord, NoMemory>
        ensures sound { IfOk result (λ r. IsCallRecordSound r 0) }
        ensures kept { IfOk result (λ r. r.kept.items ≡ []) }
        ensures octets { IfOk result (λ r. r.octets.items ≡ []) }
        ensures places { IfOk result (λ r. r.places ≡ 0) }
        ensures calls { IfOk result (λ r. r.call_places ≡ calls) }
        ensures octet_places { IfOk result (λ r. r.octet_places ≡ octets) }
    {
        Ok(CallRecord {
            kept: Vec::with_capacity(alloc, calls)?,
            octets: Vec::with_capacity(alloc, octets)?,
            places: 0,
            call_places: calls,
            octet_places: octets,
        })
    }

    // Whether so many places and octets more fit.
    pub fn fits(&self, places: usize, octets: usize) -> bool
        requires { (are_open : ℕ) × IsCallRecordSound self.now are_open }
        ensures { result ≡ (not (nat_lt self.now.call_places (self.now.places + places)) && not (nat_lt self.now.octet_places (vec_len self.now.octets + octets))) }
    {
        places <= self.call_places - self.places && octets <= self.octet_places - self.octets.len()
    }

    // Keeps a call, with the octets of its address or piece. It takes so many places.
    pub fn keep(&mut self, note: Note, octets: &[u8], places: usize)
        requires calls { vec_len self.old.kept + 1 ≤ vec_capacity self.old.kept }
        requires places { self.old.places + places ≤ self.old.call_places }
        requires octets { vec_len self.old.octets + length octets.now ≤ vec_capacity self.old.octets }
        ensures { KeepsCallInRecord self.old self.new note octets.now places }
    {
        self.kept
            .push(KeptCall {
                note,
                octets: octets.len(),
            })
            .unwrap();
        self.octets.extend_from_slice(octets).unwrap();
        self.places += places;
    }
}

// Appends the octets that were given to a connection, by calls whose addresses and pieces these octets are.
#[tactic(auto, using(crate::proofs::Giving::given_end), unfolding(crate::specs::KeptCalls::calls_with_octets))]
pub fn put_given(
    kept: &[KeptCall],
    octets: &[u8],
    conn: u64,
    out: &mut Vec<u8>,
) -> Result<(), NoMemory>
    ensures ok { (acts : List Act) → OnOk result (out.new.items ≡ out.old.items ++ given_of conn (calls_with_octets acts kept.now octets.now)) }
    ensures err { OnErr result (Begins out.old.items out.new.items) }
{
    let mut left = octets;
    for call in kept {
        let own = front(left, call.octets);
        out.extend_from_slice(given_by(call, own, conn))?;
        left = behind(left, call.octets);
    }
    Ok(())
}

// The octets that a call gave to a connection, of those of its piece.
fn given_by<'a>(call: &KeptCall, octets: &'a [u8], conn: u64) -> &'a [u8]
    ensures { (acts : List Act) → result.now ≡ given_by conn (call_of acts octets.now call.now.note) }
{
    match call.note {
        Note::Write {
            conn: at,
            answer: WriteAnswer::Some(count),
        } if at == conn => front(octets, count),
        _ => &[],
    }
}

//! An outside of five objects, which are lent to it.

ghost use Rattle.std.specs.Prelude.{◌≡◌, []};
ghost use Rattle.outside.specs.Doings.{Told};

use crate::absent::{Absent, NoClock, NoFiles, NoWires, NoWords};
use crate::history::History;
use crate::note::Note;
use crate::outside::Outside;
use link_trait::{
    Cabinet, Clock, Conn, Failed, FetchFault, Happening, ReadAnswer, Sink, Wires, WriteAnswer,
};
use rand_core::Rng;
use std::alloc::Global;

/// A cabinet of files, a sink, wires, a clock and random words, and the history of what is done to them.
#[derive(Drop)]
pub struct Parts<'f, 'k, 'w, 'c, 'r, F: Cabinet, K: Sink, W: Wires, C: Clock, R: Rng> {
    /// The files.
    pub cabinet: &'f mut F,
    /// Where is printed.
    pub sink: &'k mut K,
    /// The wires.
    pub wires: &'w mut W,
    /// The clock.
    pub clock: &'c mut C,
    /// The random words.
    pub randoms: &'r mut R,
    /// What was done to them.
    pub history: History,
}

impl<'f, 'k, 'w, 'c, 'r, F: Cabinet, K: Sink, W: Wires, C: Clock, R: Rng> Parts<
    'f,
    'k,
    'w,
    'c,
    'r,
    F,
    K,
    W,
    C,
    R,
> {
    /// An outside of these objects, to which nothing was done yet.
    pub fn new(
        cabinet: &'f mut F,
        sink: &'k mut K,
        wires: &'w mut W,
        clock: &'c mut C,
        randoms: &'r mut R,
    ) -> Parts<'f, 'k, 'w, 'c, 'r, F, K, W, C, R>
        ensures cabinet { result.cabinet ≡ cabinet.entry }
        ensures sink { result.sink ≡ sink.entry }
        ensures wires { result.wires ≡ wires.entry }
        ensures clock { result.clock ≡ clock.entry }
        ensures randoms { result.randoms ≡ randoms.entry }
        ensures history { result.history.acts ≡ [] }
    {
        Parts {
            cabinet,
            sink,
            wires,
            clock,
            randoms,
            history: History::new(),
        }
    }
}

impl<'f, 'k, 'w, 'c, 'r, F: Cabinet, K: Sink, W: Wires, C: Clock, R: Rng> Outside
    for Parts<'f, 'k, 'w, 'c, 'r, F, K, W, C, R> {
    ghost told = { λ p. record {
      acts = p.history.acts;
      cabinet = F.state p.cabinet.now;
      sink = K.state p.sink.now;
      wires = W.state p.wires.now;
      clock = C.state p.clock.now;
      words = R.stream p.randoms.now;
      names = record {
        cabinet = p.cabinet.ghost_name;
        sink = p.sink.ghost_name;
        wires = p.wires.ghost_name;
        clock = p.clock.ghost_name;
        randoms = p.randoms.ghost_name;
      };
    } };

    fn fetch(&mut self, alloc: Global, name: &str) -> Result<Vec<u8>, FetchFault> {
        let answer = self.cabinet.fetch(alloc, name);
        self.history.note(&Note::Fetched(name, &answer));
        answer
    }

    fn write(&mut self, piece: &[u8]) -> Result<(), Failed> {
        let answer = self.sink.write(piece);
        self.history.note(&Note::Wrote(piece, &answer));
        answer
    }

    fn listen(&mut self, address: &str) -> Result<(), Failed> {
        let answer = self.wires.listen(address);
        self.history.note(&Note::Listened(address, &answer));
        answer
    }

    fn dial(&mut self, address: &str) -> Result<Conn, Failed> {
        let answer = self.wires.dial(address);
        self.history.note(&Note::Dialled(address, &answer));
        answer
    }

    fn turn(&mut self, until: Option<u64>) -> Happening {
        let happening = self.wires.turn(until);
        self.history.note(&Note::Turned(until, happening));
        happening
    }

    fn read(&mut self, conn: Conn, into: &mut [u8]) -> ReadAnswer {
        let answer = self.wires.read(conn, into);
        self.history.note(&Note::Read(conn, into, answer));
        answer
    }

    fn send(&mut self, conn: Conn, piece: &[u8]) -> WriteAnswer {
        let answer = self.wires.write(conn, piece);
        self.history.note(&Note::Sent(conn, piece, answer));
        answer
    }

    fn close(&mut self, conn: Conn) {
        self.wires.close(conn);
        self.history.note(&Note::Closed(conn));
    }

    fn moment(&mut self) -> u64 {
        let moment = self.clock.now();
        self.history.note(&Note::Asked(moment));
        moment
    }

    fn word(&mut self) -> u64 {
        let word = self.randoms.next_u64();
        self.history.note(&Note::Drew(word));
        word
    }
}

/// An outside of a cabinet and a sink alone, to which nothing was done yet.
pub fn off_line<'f, 'k, 'a, F: Cabinet, K: Sink>(
    cabinet: &'f mut F,
    sink: &'k mut K,
    absent: &'a mut Absent,
) -> Parts<'f, 'k, 'a, 'a, 'a, F, K, NoWires, NoClock, NoWords>
    ensures cabinet { result.cabinet ≡ cabinet.entry }
    ensures sink { result.sink ≡ sink.entry }
    ensures history { result.history.acts ≡ [] }
{
    Parts::new(
        cabinet,
        sink,
        &mut absent.wires,
        &mut absent.clock,
        &mut absent.randoms,
    )
}

/// An outside of a sink, wires, a clock and random words, without files, to which nothing was done yet.
pub fn without_files<'k, 'w, 'c, 'r, 'a, K: Sink, W: Wires, C: Clock, R: Rng>(
    sink: &'k mut K,
    wires: &'w mut W,
    clock: &'c mut C,
    randoms: &'r mut R,
    absent: &'a mut Absent,
) -> Parts<'a, 'k, 'w, 'c, 'r, NoFiles, K, W, C, R>
    ensures sink { result.sink ≡ sink.entry }
    ensures wires { result.wires ≡ wires.entry }
    ensures clock { result.clock ≡ clock.entry }
    ensures randoms { result.randoms ≡ randoms.entry }
    ensures history { result.history.acts ≡ [] }
{
    Parts::new(&mut absent.files, sink, wires, clock, randoms)
}

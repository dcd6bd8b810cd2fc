//! A session is read from, and what follows that.

ghost use Rattle.std.specs.Prelude.{◌≡◌, ◌≢◌, ◌≤◌, ℕ, length, take, true, false};
ghost use Rattle.link_trait.specs.Wires.{reading_of};
ghost use Rattle.loop_model.specs.Visits.{came};
ghost use Rattle.loop_session.specs.Keeping.{kept_ends};
ghost use Rattle.loop_session.specs.Parts.{rules_of_session, OnlyPrints, Chooses};
ghost use Rattle.loop_io.specs.Visiting.{read_by, VisitsOn, Keep};

use crate::workspace::Workspace;
use crate::writing::rest;
use er_users::SafeUser;
use journal::Journal;
use link_trait::{Conn, ReadAnswer};
use loop_session::{LoopFault, Scratch, Session, When};
use safety_automaton::KeyFinder;

// The first octets of a slice.
fn front(octets: &[u8], count: usize) -> &[u8]
    requires { count ≤ length octets.now }
    ensures { result.now ≡ take count octets.now }
{
    &octets[..count]
}

// Whether a read gave nothing yet.
fn gave_nothing(answer: ReadAnswer) -> bool
    ensures yes { result ≡ true → answer ≡ ReadAnswer.NotNow }
    ensures no { result ≡ false → answer ≢ ReadAnswer.NotNow }
{
    matches!(answer, ReadAnswer::NotNow)
}

// What comes of a read, by its answer: octets are given to the end, an end of the line and a fault are events.
fn take_in<U: SafeUser, K: KeyFinder, O: Journal>(
    session: &mut Session<U>,
    answer: ReadAnswer,
    octets: &[u8],
    keys: &K,
    when: &When,
    scratch: &mut Scratch,
    outside: &mut O,
) -> Result<(), LoopFault>
    requires octets { length octets.now ≤ 4096 }
    requires fits { (n : ℕ) → answer ≡ ReadAnswer.Some n → (1 ≤ n) × (n ≤ length octets.now) }
    ensures chooses { Chooses (O.told outside.old) (O.told outside.new) session.new
        (came kept_ends (reading_of answer octets.now) (rules_of_session (K.entries keys.now) when.now.setup) when.now.moment session.old) result }
    ensures number { session.new.number ≡ session.old.number }
    ensures only { OnlyPrints (O.told outside.old) (O.told outside.new) }
{
    match answer {
        ReadAnswer::Some(count) => session.pour(front(octets, count), keys, when, scratch, outside),
        ReadAnswer::End => session.ended(when, scratch, outside),
        ReadAnswer::Failed => session.fault(when, scratch, outside),
        ReadAnswer::NotNow => Ok(()),
    }
}

/// One read, and what follows it. Whether the session stays.
pub(crate) fn read<U: SafeUser, K: KeyFinder, O: Journal>(
    session: &mut Session<U>,
    keys: &K,
    when: &When,
    workspace: &mut Workspace,
    outside: &mut O,
) -> Result<bool, LoopFault>
    ensures does { VisitsOn (O.told outside.old) (O.told outside.new) session.new (read_by (K.entries keys.now) when.now session.old) result }
    ensures number { session.new.number ≡ session.old.number }
    ensures keep { Keep (O.told outside.old) (O.told outside.new) }
{
    let answer = outside.read(Conn(session.number()), &mut workspace.read);
    take_in(
        session,
        answer,
        &workspace.read,
        keys,
        when,
        &mut workspace.scratch,
        outside,
    )?;
    if gave_nothing(answer) {
        return Ok(true);
    }
    rest(session, when, &mut workspace.scratch, outside)
}

//! The output of a session is written, and what follows that.

ghost use Rattle.std.specs.Prelude.{◌≡◌, ◌||◌, List};
ghost use Rattle.safety_automaton.specs.Keys as keys;
ghost use Rattle.loop_model.specs.Sessions.{owes_nothing};
ghost use Rattle.loop_session.specs.Keeping.{kept_ends};
ghost use Rattle.loop_io.specs.Visiting.{writing_by, rest_by, DoesOn, VisitsOn, Keep};
ghost use Rattle.loop_io.specs.Writing.{HasSessionWritten, Settles};

use er_users::SafeUser;
use journal::Journal;
use link_trait::{Conn, WriteAnswer};
use loop_session::{LoopFault, Scratch, Session, When};
use outside::Outside;

// How a writing went.
enum Flow {
    // Nothing waits any more.
    Going,
    // There is no room.
    PutOff,
    // A write failed.
    Failing,
}

// The output is written until nothing waits, or there is no room, or a write fails.
#[tactic(auto, using(crate::proofs::Writings::wrote_none, crate::proofs::Writings::wrote_all))]
fn write_all<U: SafeUser, O: Outside>(session: &mut Session<U>, outside: &mut O) -> Flow
    ensures wrote { HasSessionWritten (O.told outside.old) (O.told outside.new) session.old session.new result }
    ensures number { session.new.number ≡ session.old.number }
    ensures keep { Keep (O.told outside.old) (O.told outside.new) }
{
    while !session.output().is_empty() {
        match outside.send(Conn(session.number()), session.output()) {
            WriteAnswer::Some(count) => session.wrote(count),
            WriteAnswer::NotNow => return Flow::PutOff,
            WriteAnswer::Failed => return Flow::Failing,
        }
    }
    Flow::Going
}

// The output is written, where the session didn't break off. A write that fails is the event `fault`, but for a session that is released.
fn write_out<U: SafeUser, O: Journal>(
    session: &mut Session<U>,
    when: &When,
    scratch: &mut Scratch,
    outside: &mut O,
) -> Result<(), LoopFault>
    ensures does { (entries : List keys.KmacEntry) → DoesOn (O.told outside.old) (O.told outside.new) session.new (writing_by entries when.now session.old) result }
    ensures number { session.new.number ≡ session.old.number }
    ensures keep { Keep (O.told outside.old) (O.told outside.new) }
{
    if session.is_broken() {
        return Ok(());
    }
    match write_all(session, outside) {
        Flow::Going => Ok(()),
        Flow::PutOff => Ok(()),
        Flow::Failing => {
            if session.is_released() {
                session.break_off();
                return Ok(());
            }
            session.fault(when, scratch, outside)
        }
    }
}

// Whether a session stays: it is closed as soon as it broke off, or once it is released and owes nothing.
fn settle<U: SafeUser, O: Outside>(session: &Session<U>, outside: &mut O) -> bool
    ensures settles { Settles (O.told outside.old) (O.told outside.new) session.now result }
    ensures keep { Keep (O.told outside.old) (O.told outside.new) }
{
    if is_done(session) {
        outside.close(Conn(session.number()));
        return false;
    }
    true
}

// Whether the connection of a session is to be closed at once.
fn is_done<U: SafeUser>(session: &Session<U>) -> bool
    ensures { result ≡ (session.now.broken || owes_nothing kept_ends session.now) }
{
    if session.is_broken() {
        return true;
    }
    session.owes_nothing()
}

/// What follows the events of a happening: the output is written, and the session is closed where it is to be. Whether it stays.
pub(crate) fn rest<U: SafeUser, O: Journal>(
    session: &mut Session<U>,
    when: &When,
    scratch: &mut Scratch,
    outside: &mut O,
) -> Result<bool, LoopFault>
    ensures does { (entries : List keys.KmacEntry) → VisitsOn (O.told outside.old) (O.told outside.new) session.new (rest_by entries when.now session.old) result }
    ensures number { session.new.number ≡ session.old.number }
    ensures keep { Keep (O.told outside.old) (O.told outside.new) }
{
    write_out(session, when, scratch, outside)?;
    Ok(settle(session, outside))
}

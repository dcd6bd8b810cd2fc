//! Visits of one session.

ghost use Rattle.std.specs.Prelude.{◌≡◌, List};
ghost use Rattle.loop_model.specs.Sessions.{Begins};
ghost use Rattle.safety_automaton.specs.Keys as keys;
ghost use Rattle.loop_model.specs.Visits.{is_due};
ghost use Rattle.loop_io.specs.Visiting.{visit_by, event_by, VisitsOn, Keep};
ghost use Rattle.loop_io.specs.Writing.{ClosesDueSession};

use crate::reading::read;
use crate::workspace::Workspace;
use crate::writing::rest;
use er_base::Moment;
use er_users::SafeUser;
use journal::Journal;
use link_trait::Conn;
use loop_session::{Called, LoopFault, Scratch, Session, When};
use outside::Outside;
use safety_automaton::KeyFinder;

/// Why a session is visited.
#[derive(Clone, Copy, Debug, PartialEq, Eq)]
pub enum Visit {
    /// It is ticked, where its deadline has come.
    Tick,
    /// It is read from, where it isn't released.
    Read,
    /// What waits is written.
    Write,
    /// It is closed, where its closing moment has come.
    Expire,
}

// A moment has come.
fn is_due(moment: Moment, at: Option<u64>) -> bool
    ensures { result ≡ is_due moment at }
{
    let Some(at) = at else {
        return false;
    };
    at <= moment.get()
}

// A session is ticked, where the deadline of its end has come.
fn tick<U: SafeUser, O: Journal>(
    session: &mut Session<U>,
    when: &When,
    scratch: &mut Scratch,
    outside: &mut O,
) -> Result<bool, LoopFault>
    ensures does { (entries : List keys.KmacEntry) → VisitsOn (O.told outside.old) (O.told outside.new) session.new (visit_by entries when.now Visit.Tick session.old) result }
    ensures number { session.new.number ≡ session.old.number }
    ensures keep { Keep (O.told outside.old) (O.told outside.new) }
{
    if is_due(when.moment, session.deadline()) {
        session.tick(when, scratch, outside)?;
        return rest(session, when, scratch, outside);
    }
    Ok(true)
}

// A session is closed, where its closing moment has come. Whether it stays.
fn expire<U: SafeUser, O: Outside>(session: &Session<U>, when: &When, outside: &mut O) -> bool
    ensures expires { ClosesDueSession (O.told outside.old) (O.told outside.new) when.now.moment session.now result }
    ensures keep { Keep (O.told outside.old) (O.told outside.new) }
{
    if is_due(when.moment, session.closing()) {
        outside.close(Conn(session.number()));
        return false;
    }
    true
}

/// A session is visited, with all that follows. Whether it stays: else its connection was closed.
pub fn visit_session<U: SafeUser, K: KeyFinder, O: Journal>(
    session: &mut Session<U>,
    visit: Visit,
    keys: &K,
    when: &When,
    workspace: &mut Workspace,
    outside: &mut O,
) -> Result<bool, LoopFault>
    ensures does { VisitsOn (O.told outside.old) (O.told outside.new) session.new (visit_by (K.entries keys.now) when.now visit session.old) result }
    ensures number { session.new.number ≡ session.old.number }
    ensures keep { Keep (O.told outside.old) (O.told outside.new) }
{
    match visit {
        Visit::Tick => tick(session, when, &mut workspace.scratch, outside),
        Visit::Read => {
            if session.is_released() {
                return Ok(true);
            }
            session.note_made();
            read(session, keys, when, workspace, outside)
        }
        Visit::Write => {
            session.note_made();
            rest(session, when, &mut workspace.scratch, outside)
        }
        Visit::Expire => Ok(expire(session, when, outside)),
    }
}

/// The end of an engine that calls begins in its session, with all that follows. Whether it stays: else its connection was closed.
pub fn begin_call<U: SafeUser, K: KeyFinder, O: Journal>(
    session: &mut Session<U>,
    call: &Called,
    keys: &K,
    when: &When,
    scratch: &mut Scratch,
    outside: &mut O,
) -> Result<bool, LoopFault>
    ensures does { VisitsOn (O.told outside.old) (O.told outside.new) session.new (event_by (K.entries keys.now) when.now session.old (Begins call.now.engine call.now.rbc call.now.rb)) result }
    ensures number { session.new.number ≡ session.old.number }
    ensures keep { Keep (O.told outside.old) (O.told outside.new) }
{
    session.call(call, when, scratch, outside)?;
    rest(session, when, scratch, outside)
}

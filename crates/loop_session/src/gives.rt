//! An event given to the end of a session: its lines and what they count, the octets that the end gives, and what the user hears.

ghost use Rattle.std.specs.Prelude.{◌≡◌, ℕ, List, [], not, OnOk, IfOk, option_map};
ghost use Rattle.er_end.specs.Given.{outcomes_in};
ghost use Rattle.er_end.specs.KeptEnds.{KEnd};
ghost use Rattle.er_end.specs.Shown.{refusal_view};
ghost use Rattle.loop_model.specs.Sessions.{Rules, journal_event_of_given, outcomes_of_given_event, octets_in, heard_by_user, refused_in};
ghost use Rattle.journal.specs.Tallies.{IsTallyOf, IsTallyOfEntry};
ghost use Rattle.loop_session.specs.Giving.{event_given_to_session, HasFewOctets, used_in, IsSameWith, journal_entry_of_event, Tells, too_many, joined_to, Gave, HeardSo};
ghost use Rattle.loop_session.specs.Keeping.{kept_ends};

use crate::hearing::hear;
use crate::join::join_waiting;
use crate::ranges::see_effects;
use crate::scratch::Scratch;
use crate::session::Session;
use crate::session_event::SessionEvent;
use bytes::BytesMut;
use er_base::{Moment, NoMemory};
use er_end::{Effects, End, SendRefused};
use er_users::SafeUser;
use journal::EventTally;
use safety_automaton::{KeyFinder, PairKey};
use trace_lines::tell_effects;

/// What came of an event.
#[derive(Clone, Copy)]
pub struct Came {
    /// How many octets the end used.
    pub used: usize,
    /// Why a message wasn't sent, where it wasn't.
    pub refused: Option<SendRefused>,
    /// Whether the octets that the end gave joined those that wait.
    pub fits: bool,
    // What its lines count.
    counts: EventTally,
    // How many frames the station had ignored before it.
    ignored_before: u64,
}

/// How many frames the station of an end ignored so far, of any kind.
pub fn ignored_by(end: &End) -> u64 {
    let counts = end.counts();
    counts
        .bad_fcs
        .saturating_add(counts.short)
        .saturating_add(counts.long)
        .saturating_add(counts.aborted)
        .saturating_add(counts.stray)
}

impl Came {
    /// What its lines count, with the frames that the station ignored in it: the end stands behind it.
    pub fn tally(&self, end: &End) -> EventTally
        ensures { (lines : List ℕ) → IsTallyOf lines self.now.counts → IsTallyOf lines result }
    {
        self.counts
            .ignoring(ignored_by(end).saturating_sub(self.ignored_before))
    }
}

/// The lines of an event are printed, and the octets that the end gave join those that wait. The station had ignored so many frames before it.
#[tactic(auto, using(crate::proofs::Givings::octets_told, crate::proofs::Givings::refused_told, crate::proofs::Grammars::tells_so))]
pub fn conclude(
    event: &SessionEvent<'_>,
    effects: &Effects<'_>,
    ignored_before: u64,
    moment: Moment,
    conn: u64,
    line: &mut Vec<u8>,
    output: &mut BytesMut,
) -> Result<Came, NoMemory>
    requires { HasFewOctets (event_given_to_session event.now) }
    ensures tells { (k : KEnd) → effects.now.used ≡ used_in k (event_given_to_session event.now)
        → OnOk result (Tells (journal_entry_of_event moment conn (journal_event_of_given kept_ends k (event_given_to_session event.now)) (outcomes_in effects.now)) line.new.items) }
    ensures counts { (k : KEnd) → IfOk result (λ came.
        IsTallyOfEntry (journal_entry_of_event moment conn (journal_event_of_given kept_ends k (event_given_to_session event.now)) (outcomes_in effects.now)) came.counts) }
    ensures joins { IfOk result (λ came. (came.fits ≡ not (too_many output.old.items (octets_in (outcomes_in effects.now))))
        × (output.new.items ≡ joined_to output.old.items (octets_in (outcomes_in effects.now)))) }
    ensures refused { IfOk result (λ came. option_map refusal_view came.refused ≡ refused_in (outcomes_in effects.now)) }
    ensures used { IfOk result (λ came. came.used ≡ effects.now.used) }
{
    see_effects(effects);
    line.clear();
    event.print(effects.used, moment, conn, line)?;
    tell_effects(conn, effects, line)?;
    let fits = join_waiting(output, effects.deeds.out)?;
    Ok(Came {
        used: effects.used,
        refused: effects.refused,
        fits,
        counts: event.tally(conn, effects),
        ignored_before,
    })
}

impl<U: SafeUser> Session<U> {
    // An event at which no key is looked up is given to the end, and the user doesn't hear of it.
    pub(crate) fn give(
        &mut self,
        event: &SessionEvent<'_>,
        moment: Moment,
        line: &mut Vec<u8>,
    ) -> Result<Came, NoMemory>
        requires { HasFewOctets (event_given_to_session event.now) }
        ensures gave { (r : Rules) → IsSameWith [] r (event_given_to_session event.now)
            → IfOk result (λ came. Gave r moment self.old (event_given_to_session event.now) self.new line.new.items came) }
        ensures counts { IfOk result (λ came. IsTallyOf line.new.items came.counts) }
        ensures mind { self.new.mind ≡ self.old.mind }
        ensures number { self.new.number ≡ self.old.number }
    {
        self.broken |= event.breaks();
        let ignored_before = ignored_by(&self.end);
        let effects = self.end.apply(&None::<PairKey>, moment, &event.at_end());
        conclude(
            event,
            &effects,
            ignored_before,
            moment,
            self.number,
            line,
            &mut self.output,
        )
    }

    // An event is given to the end, and the user hears of it, where there is one.
    pub(crate) fn give_heard<K: KeyFinder>(
        &mut self,
        event: &SessionEvent<'_>,
        keys: &K,
        moment: Moment,
        scratch: &mut Scratch,
    ) -> Result<Came, NoMemory>
        requires { HasFewOctets (event_given_to_session event.now) }
        ensures gave { (r : Rules) → IsSameWith (K.entries keys.now) r (event_given_to_session event.now)
            → IfOk result (λ came. Gave r moment self.old (event_given_to_session event.now) self.new scratch.new.line.items came) }
        ensures counts { IfOk result (λ came. IsTallyOf scratch.new.line.items came.counts) }
        ensures heard { (r : Rules) → IsSameWith (K.entries keys.now) r (event_given_to_session event.now)
            → HeardSo self.old.mind (heard_by_user (outcomes_of_given_event kept_ends r moment self.old.end (event_given_to_session event.now))) self.new.mind scratch.new.replies }
        ensures used { IfOk result (λ came. came.used ≡ used_in self.old.end (event_given_to_session event.now)) }
        ensures number { self.new.number ≡ self.old.number }
    {
        self.broken |= event.breaks();
        let ignored_before = ignored_by(&self.end);
        let effects = self.end.apply(keys, moment, &event.at_end());
        hear(&mut self.user, &effects, &mut scratch.replies);
        conclude(
            event,
            &effects,
            ignored_before,
            moment,
            self.number,
            &mut scratch.line,
            &mut self.output,
        )
    }
}

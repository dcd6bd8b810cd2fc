//! The end and its calls.

ghost use Rattle.std.specs.Prelude.{◌≡◌, ◌≤◌, ◌<◌, ◌∷◌, length, option_map, Some, None, IfOk, IfSome, IsNone, MatchResult, MatchOption};
ghost use Rattle.std.specs.Borrow.{sem};
ghost use Rattle.er_base.specs.declared.cause.Cause.TheVariants.{LineEnded, LineFailed, LineStalled};
ghost use Rattle.hdlc_frames.specs.Shown.{verdict_of_octets_found};
ghost use Rattle.safety_automaton.specs.Keys.{key_at};
ghost use Rattle.safety_automaton.specs.Safety.{Safety, session_in};
ghost use Rattle.safety_automaton.specs.Reports.{kept_side_without_texts};
ghost use Rattle.x224_class2.specs.Kept.{kept_made};
ghost use Rattle.er_end_model.specs.Ends.{Call, Answer};
ghost use Rattle.er_end.specs.Inboxes.{first_in, newest_of};
ghost use Rattle.er_end.specs.KeptLayers.{kept};
ghost use Rattle.er_end.specs.KeptEnds.{kept_opened, kept_core_made, kept_end_made, after_start, used_of, after_octets, refusal_of_send, after_send, after_take, after_release, after_tick, after_break, kept_end_behind_event, tells, waiting_in, peer_of, deadline_of};
ghost use Rattle.er_end.specs.Given.{model_event_of, used_by, outcomes_in, TellsEndOutcomes};
ghost use Rattle.er_end.specs.Shown.{Shows, refusal_view};
ghost use Rattle.er_end.specs.Resting.{LeavesEndAs};

use crate::deeds::{Deeds, SendRefused, Taken};
use crate::event::{Effects, Event, Taking};
use crate::inbox::Inbox;
use crate::layers::Layers;
use crate::line::Line;
use crate::safety_side::SafetySide;
use crate::sapdu_room::SapduRoom;
use er_base::{Cause, EtcsNumber, Moment, NoMemory, Release};
use er_settings::Settings;
use hdlc_frames::Deframer;
use hdlc_station_model::Counts;
use safety_automaton::{KeyFinder, Safe};
use session_keys::{Kmac, SessionKeys};
use std::alloc::Global;
use std::marker::Model;
use t70_header::Joiner;
use x224_class2::Transport;

/// One end of a link. After a release it refuses each send, answers empty deeds to all other events, and still gives the messages that
/// wait to be taken.
///
/// A moment below the last counts as the last.
#[derive(Drop)]
pub struct End {
    // where the SaPDUs and blocks of an event are written
    room: SapduRoom,
    layers: Layers,
    deframer: Deframer,
}

impl Model for End {
    ghost use Rattle.er_end.specs.KeptEnds.{KEnd};

    ghost Value = { KEnd };

    ghost view = { λ e. record { deframer = e.deframer; core = e.layers } };
}

impl End {
    /// An end that calls: an engine of this ETCS number, the radio block centre that it calls, their KMAC and the engine's random
    /// number. The time for the set-up runs from now on.
    #[tactic(auto, unfolding(crate::specs::KeptEnds::kept_opened))]
    pub fn call(
        alloc: Global,
        settings: &Settings,
        me: EtcsNumber,
        peer: EtcsNumber,
        kmac: Kmac,
        rb: u64,
        now: Moment,
    ) -> Result<End, NoMemory>
        ensures { IfOk result (λ end. end ≡ kept_opened (Call settings.now me peer kmac rb now)) }
    {
        let safe = Safe::initiator(me, peer, kmac, rb);
        End::new(alloc, true, settings, safe, now)
    }

    /// An end that answers: a radio block centre of this ETCS number, and its random number. The time for the set-up runs from now on.
    #[tactic(auto, unfolding(crate::specs::KeptEnds::kept_opened))]
    pub fn answer(
        alloc: Global,
        settings: &Settings,
        me: EtcsNumber,
        ra: u64,
        now: Moment,
    ) -> Result<End, NoMemory>
        ensures { IfOk result (λ end. end ≡ kept_opened (Answer settings.now me ra now)) }
    {
        let safe = Safe::responder(me, ra);
        End::new(alloc, false, settings, safe, now)
    }

    fn new(
        alloc: Global,
        calls: bool,
        settings: &Settings,
        safe: Safe,
        now: Moment,
    ) -> Result<End, NoMemory>
        ensures { IfOk result (λ end. end ≡ record (kept_end_made calls settings.now safe.safety now) { core = record (kept_core_made calls settings.now safe.safety now) { safe = safe } }) }
    {
        let room = SapduRoom::new(alloc)?;
        let line = Line::new(alloc, calls, settings)?;
        let transport = made_transport(alloc, calls, settings)?;
        let inbox = Inbox::with_slots(alloc)?;
        let layers = Layers {
            limit: now.get() + settings.setup,
            moment: now,
            connected: None,
            leaves: None,
            released: None,
            line,
            transport,
            joiner: Joiner::new(),
            side: SafetySide { safe, inbox },
        };
        Ok(End {
            room,
            layers,
            deframer: Deframer::new(),
        })
    }

    /// An end that calls begins: its station sends the set-up frame.
    #[tactic(auto, unfolding(crate::specs::KeptEnds::after_start))]
    pub fn start(&mut self, now: Moment) -> Deeds<'_>
        ensures* after { sem 𝓛 (LeavesEndAs self.entry (after_start now self.old)) }
        ensures shows { Shows result (after_start now self.old).core }
    {
        self.layers.start_station(now, &mut self.room);
        let this: &Self = self;
        this.deeds()
    }

    /// Octets come from the line. They are used up to the first that closes a frame, all where none does: how many were used. A released
    /// end uses all.
    pub fn octets<K: KeyFinder>(
        &mut self,
        keys: &K,
        now: Moment,
        piece: &[u8],
    ) -> (usize, Deeds<'_>)
        ensures* after { sem 𝓛 (LeavesEndAs self.entry (after_octets (key_at (K.entries keys.now)) now piece.now self.old)) }
        ensures used { result.0 ≡ used_of self.old piece.now }
        ensures within { result.0 ≤ length piece.now }
        ensures moves { 0 < length piece.now → 0 < result.0 }
        ensures shows { Shows result.1 (after_octets (key_at (K.entries keys.now)) now piece.now self.old).core }
    {
        let used = self.hear(keys, now, piece);
        let this: &Self = self;
        (used, this.deeds())
    }

    #[tactic(auto, unfolding(crate::specs::KeptEnds::after_octets, crate::specs::KeptEnds::used_of))]
    fn hear<K: KeyFinder>(&mut self, keys: &K, now: Moment, piece: &[u8]) -> usize
        ensures after { self.new ≡ after_octets (key_at (K.entries keys.now)) now piece.now self.old }
        ensures used { result ≡ used_of self.old piece.now }
        ensures within { result ≤ length piece.now }
        ensures moves { 0 < length piece.now → 0 < result }
    {
        if self.layers.is_released() {
            self.layers.begin_at(now);
            return piece.len();
        }
        let (used, found) = self.deframer.feed(piece);
        match found {
            Some(found) => self.layers.receive(keys, now, &found, &mut self.room),
            None => self.layers.begin_at(now),
        }
        used
    }

    /// The user sends a message, 1 to 1,023 octets. A refused send leaves all as it was.
    #[tactic(auto, unfolding(crate::specs::KeptEnds::refusal_of_send, crate::specs::KeptEnds::after_send))]
    pub fn send(&mut self, now: Moment, user: &[u8]) -> Result<Deeds<'_>, SendRefused>
        ensures* after { sem 𝓛 (LeavesEndAs self.entry (after_send now user.now self.old)) }
        ensures answer { MatchResult result
            (λ deeds. (refusal_of_send user.now self.old ≡ None) × Shows deeds (after_send now user.now self.old).core)
            (λ refused. refusal_of_send user.now self.old ≡ Some (refusal_view refused)) }
    {
        if let Some(refused) = self.layers.refusal(user) {
            return Err(refused);
        }
        self.layers.send_message(now, user, &mut self.room);
        let this: &Self = self;
        Ok(this.deeds())
    }

    /// The user takes the oldest message that waits. None exactly where none does.
    #[tactic(auto, unfolding(crate::specs::KeptEnds::after_take))]
    pub fn take(&mut self, now: Moment) -> Option<Taken<'_>>
        ensures* after { sem 𝓛 (LeavesEndAs self.entry (after_take now self.old)) }
        ensures taken { MatchOption result
            (length (waiting_in self.old) ≡ 0)
            (λ taken. (taken.text.now ≡ first_in (waiting_in self.old)) × (0 < length (waiting_in self.old)) × (taken.out.now ≡ (after_take now self.old).core.line.out)) }
    {
        let none = self.layers.side.inbox.len() == 0;
        self.layers.take_message(now, &mut self.room);
        if none {
            return None;
        }
        let this: &Self = self;
        Some(Taken {
            text: this.layers.side.inbox.taken(),
            out: this.layers.line.out(),
        })
    }

    /// The user releases with this sub-reason.
    #[tactic(auto, unfolding(crate::specs::KeptEnds::after_release))]
    pub fn release(&mut self, now: Moment, sub: u8) -> Deeds<'_>
        ensures* after { sem 𝓛 (LeavesEndAs self.entry (after_release now sub self.old)) }
        ensures shows { Shows result (after_release now sub self.old).core }
    {
        self.layers.release_by_user(now, sub, &mut self.room);
        let this: &Self = self;
        this.deeds()
    }

    /// The moment has come: T1 may expire, then the time for the set-up.
    #[tactic(auto, unfolding(crate::specs::KeptEnds::after_tick))]
    pub fn tick(&mut self, now: Moment) -> Deeds<'_>
        ensures* after { sem 𝓛 (LeavesEndAs self.entry (after_tick now self.old)) }
        ensures shows { Shows result (after_tick now self.old).core }
    {
        self.layers.tick(now, &mut self.room);
        let this: &Self = self;
        this.deeds()
    }

    /// The line ended.
    #[tactic(auto, unfolding(crate::specs::KeptEnds::after_break))]
    pub fn ended(&mut self) -> Deeds<'_>
        ensures* after { sem 𝓛 (LeavesEndAs self.entry (after_break LineEnded self.old)) }
        ensures shows { Shows result (after_break LineEnded self.old).core }
    {
        self.layers.break_off(Cause::LineEnded);
        let this: &Self = self;
        this.deeds()
    }

    /// The line failed.
    #[tactic(auto, unfolding(crate::specs::KeptEnds::after_break))]
    pub fn fault(&mut self) -> Deeds<'_>
        ensures* after { sem 𝓛 (LeavesEndAs self.entry (after_break LineFailed self.old)) }
        ensures shows { Shows result (after_break LineFailed self.old).core }
    {
        self.layers.break_off(Cause::LineFailed);
        let this: &Self = self;
        this.deeds()
    }

    /// The line stalled.
    #[tactic(auto, unfolding(crate::specs::KeptEnds::after_break))]
    pub fn stalled(&mut self) -> Deeds<'_>
        ensures* after { sem 𝓛 (LeavesEndAs self.entry (after_break LineStalled self.old)) }
        ensures shows { Shows result (after_break LineStalled self.old).core }
    {
        self.layers.break_off(Cause::LineStalled);
        let this: &Self = self;
        this.deeds()
    }

    /// Gives an end any event: does what the call of that event does, and answers all that came of it.
    pub fn apply<K: KeyFinder>(&mut self, keys: &K, now: Moment, event: &Event<'_>) -> Effects<'_>
        ensures* after { sem 𝓛 (LeavesEndAs self.entry (kept_end_behind_event now (model_event_of (key_at (K.entries keys.now)) event.now) self.old)) }
        ensures told { outcomes_in result ≡ tells now (model_event_of (key_at (K.entries keys.now)) event.now) self.old }
        ensures used { result.used ≡ used_by self.old event.now }
    {
        let done = self.give(keys, now, event);
        let this: &Self = self;
        match done {
            Done::Used(used) => Effects {
                used,
                refused: None,
                taken: Taking::NotAsked,
                deeds: this.deeds(),
            },
            Done::Refused(refused) => Effects {
                used: 0,
                refused: Some(refused),
                taken: Taking::NotAsked,
                deeds: Deeds {
                    connected: None,
                    accepted: None,
                    released: None,
                    out: &[],
                },
            },
            Done::Nothing => Effects {
                used: 0,
                refused: None,
                taken: Taking::Nothing,
                deeds: this.deeds(),
            },
            Done::Took => Effects {
                used: 0,
                refused: None,
                taken: Taking::Message(this.layers.side.inbox.taken()),
                deeds: this.deeds(),
            },
        }
    }

    // An event, without what is lent of it.
    #[tactic(auto, unfolding(crate::specs::KeptEnds::refusal_of_send, crate::specs::KeptEnds::after_start, crate::specs::KeptEnds::after_send, crate::specs::KeptEnds::after_take, crate::specs::KeptEnds::after_release, crate::specs::KeptEnds::after_tick, crate::specs::KeptEnds::after_break))]
    fn give<K: KeyFinder>(&mut self, keys: &K, now: Moment, event: &Event<'_>) -> Done
        ensures after { self.new ≡ kept_end_behind_event now (model_event_of (key_at (K.entries keys.now)) event.now) self.old }
        ensures told { TellsEndOutcomes result event.now (tells now (model_event_of (key_at (K.entries keys.now)) event.now) self.old) self.old self.new }
    {
        match *event {
            Event::Start => self.layers.start_station(now, &mut self.room),
            Event::Octets(piece) => return Done::Used(self.hear(keys, now, piece)),
            Event::Send(user) => {
                if let Some(refused) = self.layers.refusal(user) {
                    return Done::Refused(refused);
                }
                self.layers.send_message(now, user, &mut self.room);
            }
            Event::Take => {
                let none = self.layers.side.inbox.len() == 0;
                self.layers.take_message(now, &mut self.room);
                return if none { Done::Nothing } else { Done::Took };
            }
            Event::Release(sub) => self.layers.release_by_user(now, sub, &mut self.room),
            Event::Tick => self.layers.tick(now, &mut self.room),
            Event::Ended => self.layers.break_off(Cause::LineEnded),
            Event::Fault => self.layers.break_off(Cause::LineFailed),
            Event::Stalled => self.layers.break_off(Cause::LineStalled),
        }
        Done::Used(0)
    }

    // What the event came to.
    fn deeds(&self) -> Deeds<'_>
        ensures { Shows result self.now.core }
    {
        Deeds {
            connected: self.layers.connected,
            accepted: self.layers.side.inbox.newest(),
            released: self.layers.leaves,
            out: self.layers.line.out(),
        }
    }

    /// The octets that the last event sent, to the line.
    pub fn out(&self) -> &[u8]
        ensures value { result.now ≡ self.now.core.line.out }
        ensures most { length result.now ≤ 134160 }
    {
        self.layers.line.out()
    }

    /// How many messages wait for their last segment to be handed down, at most 16: while 16 do, a send is refused as full.
    pub fn unsent(&self) -> usize
        ensures value { result ≡ kept.waiting self.now.core.upper }
        ensures most { result ≤ 16 }
    {
        self.layers.transport.waiting()
    }

    /// The message that the last event accepted. It waits until it is taken.
    pub fn accepted(&self) -> Option<&[u8]>
        ensures { option_map (λ m. m.now) result ≡ newest_of self.now.core.upper.inbox }
    {
        self.layers.side.inbox.newest()
    }

    /// The message that the last event, a take, took; no octets where it took none.
    pub fn taken(&self) -> &[u8]
        ensures { result.now ≡ self.now.core.upper.inbox.last }
    {
        self.layers.side.inbox.taken()
    }

    /// The moment at which the end wants a tick: the first of those at which T1 expires and, until the safe connection stands, at which
    /// the time for the set-up is spent. None where there is neither, and after a release.
    #[tactic(auto, unfolding(crate::specs::KeptEnds::deadline_of))]
    pub fn deadline(&self) -> Option<u64>
        ensures { result ≡ deadline_of self.now }
    {
        self.layers.deadline()
    }

    /// Why the end was released, once it was.
    pub fn released(&self) -> Option<Release>
        ensures { result ≡ self.now.core.released }
    {
        self.layers.released
    }

    /// The peer with whom the safe connection stands: none before both sides have authenticated each other (SUBSET-037), and none once the end is released.
    pub fn peer(&self) -> Option<EtcsNumber>
        ensures { result ≡ peer_of self.now }
    {
        if self.layers.released.is_some() {
            return None;
        }
        self.layers.side.safe.peer()
    }

    /// How many accepted messages wait to be taken, at most 15.
    pub fn waiting(&self) -> usize
        ensures value { result ≡ length (waiting_in self.now) }
        ensures most { result ≤ 15 }
    {
        self.layers.side.inbox.len()
    }

    /// The session keys, as soon as they are known, also after a release.
    pub fn session(&self) -> Option<&SessionKeys>
        ensures { option_map (λ k. k.now) result ≡ session_in self.now.core.safe.safety.phase }
    {
        self.layers.side.safe.session()
    }

    /// The text, unpadded, that the last event sealed for sending. A refused send is none.
    pub fn sealed(&self) -> Option<&[u8]>
        ensures { option_map (λ t. t.now) result ≡ self.now.core.safe.sealed }
    {
        self.layers.side.safe.sealed()
    }

    /// The text, unpadded, whose MAC verified in the last event.
    pub fn verified(&self) -> Option<&[u8]>
        ensures { option_map (λ t. t.now) result ≡ self.now.core.safe.verified }
    {
        self.layers.side.safe.verified()
    }

    /// The frames that the station ignored so far, by their kind.
    pub fn counts(&self) -> Counts
        ensures { result ≡ self.now.core.line.station.counts }
    {
        self.layers.line.counts()
    }
}

// How an event was done: so many octets were used, a send was refused, a take found nothing, or took a message.
enum Done {
    Used(usize),
    Refused(SendRefused),
    Nothing,
    Took,
}

// A function of its own, so that the stack that its making takes is given back before the end is put together.
#[inline(never)]
fn made_transport(alloc: Global, calls: bool, settings: &Settings) -> Result<Transport, NoMemory>
    ensures { IfOk result (λ kept_side_without_texts. kept_side_without_texts ≡ kept_made calls settings.now) }
{
    let _ = &settings.credit;
    if calls {
        Transport::caller(alloc, settings)
    } else {
        Transport::callee(alloc, settings)
    }
}

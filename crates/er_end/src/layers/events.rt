//! The events.

ghost use Rattle.std.specs.Prelude.{◌≡◌, ◌<◌, length, None};
ghost use Rattle.er_base.specs.Causes.{release_of};
ghost use Rattle.er_base.specs.declared.cause.Cause.TheVariants.{SetUpTimeSpent};
ghost use Rattle.hdlc_frames.specs.Shown.{verdict_of_octets_found};
ghost use Rattle.safety_automaton.specs.Keys.{key_at};
ghost use Rattle.er_end_model.specs.Steps.{new_event_at, step_start, step_frame, refusal_of, on_send, step_take, step_release, step_tick, on_expiry, send_dr, di_of, normal_disconnect, step_break, deadline};
ghost use Rattle.er_end.specs.Inboxes.{first_in};
ghost use Rattle.er_end.specs.KeptLayers.{kept};
ghost use Rattle.er_end.specs.Shown.{ShowsSendRefusal};

use crate::deeds::SendRefused;
use crate::layers::{Layers, NORMAL_DISCONNECT};
use crate::sapdu_room::SapduRoom;
use er_base::{Cause, Moment, Release};
use hdlc_frames::Found;
use safety_automaton::KeyFinder;
use sapdu::is_message;

impl Layers {
    /// The end is to begin: a calling station sends its set-up frame.
    pub(crate) fn start_station(&mut self, now: Moment, room: &mut SapduRoom)
        ensures { self.new ≡ step_start kept now self.old }
    {
        self.begin_at(now);
        if self.is_released() {
            return;
        }
        self.line.start(self.moment);
        self.conclude(room);
    }

    /// What a deframer found comes.
    pub(crate) fn receive<K: KeyFinder>(
        &mut self,
        keys: &K,
        now: Moment,
        found: &Found,
        room: &mut SapduRoom,
    )
        ensures { self.new ≡ step_frame kept (key_at (K.entries keys.now)) now (verdict_of_octets_found found.now) self.old }
    {
        self.begin_at(now);
        if self.is_released() {
            return;
        }
        let deed = self.line.receive(self.moment, found);
        self.link_comes(keys, &deed, room);
        self.conclude(room);
    }

    /// Why a send is refused, where it is.
    pub(crate) fn refusal(&self, user: &[u8]) -> Option<SendRefused>
        ensures { ShowsSendRefusal result (refusal_of kept user.now self.now) }
    {
        if let Some(why) = self.released {
            return Some(SendRefused::Released(why));
        }
        if !self.is_connected() {
            return Some(SendRefused::NotConnected);
        }
        if !is_message(user) {
            return Some(SendRefused::Length(user.len()));
        }
        let waiting = self.transport.waiting();
        if waiting >= 16 {
            return Some(SendRefused::Full(waiting));
        }
        None
    }

    /// A message is sealed and handed down.
    pub(crate) fn send_message(&mut self, now: Moment, user: &[u8], room: &mut SapduRoom)
        ensures { self.new ≡ on_send kept user.now (new_event_at kept now self.old) }
    {
        self.begin_at(now);
        room.seal(&mut self.side.safe, user);
        self.hand_message(room.held());
        self.conclude(room);
    }

    /// The user takes the oldest message.
    #[tactic(auto, using(crate::proofs::Offers::concludes_keep))]
    pub(crate) fn take_message(&mut self, now: Moment, room: &mut SapduRoom)
        ensures core { self.new ≡ step_take kept now self.old }
        ensures text { 0 < length self.old.upper.inbox.waits → self.new.upper.inbox.last ≡ first_in self.old.upper.inbox.waits }
    {
        self.begin_at(now);
        if self.side.inbox.len() == 0 {
            return;
        }
        self.side.inbox.take();
        self.take_from_transport();
        self.conclude(room);
    }

    /// The user releases.
    pub(crate) fn release_by_user(&mut self, now: Moment, sub: u8, room: &mut SapduRoom)
        ensures { self.new ≡ step_release kept now sub self.old }
    {
        self.begin_at(now);
        if self.is_released() {
            return;
        }
        let di = room.release(&mut self.side.safe, sub);
        let why = Cause::User { sub }.release();
        self.release_by_dr(why, NORMAL_DISCONNECT, di, room);
    }

    // The time for the set-up is spent: the DR has a DI of the end's own.
    fn release_late(&mut self, room: &mut SapduRoom)
        ensures { self.new ≡ send_dr kept (release_of SetUpTimeSpent) normal_disconnect (di_of (release_of SetUpTimeSpent) self.old.safe.safety) self.old }
    {
        let why = Cause::SetUpTimeSpent.release();
        let di = room.di(&self.side.safe, why);
        self.release_by_dr(why, NORMAL_DISCONNECT, di, room);
    }

    // The station gave up, or the time for the set-up may be spent.
    fn let_expire(&mut self, given_up: Option<Release>, room: &mut SapduRoom)
        ensures { self.new ≡ on_expiry kept given_up self.old }
    {
        match given_up {
            Some(why) => self.set_released(why),
            None => {
                if self.is_spent() {
                    self.release_late(room);
                }
            }
        }
    }

    /// The moment has come: T1 may expire, then the time for the set-up may be spent.
    pub(crate) fn tick(&mut self, now: Moment, room: &mut SapduRoom)
        ensures { self.new ≡ step_tick kept now self.old }
    {
        self.begin_at(now);
        if self.is_released() {
            return;
        }
        let given_up = self.line.tick(self.moment);
        self.let_expire(given_up, room);
        self.conclude(room);
    }

    /// The line ended, failed or stalled.
    pub(crate) fn break_off(&mut self, cause: Cause)
        ensures { self.new ≡ step_break kept cause self.old }
    {
        self.begin();
        if self.is_released() {
            return;
        }
        self.set_released(cause.release());
    }

    /// The moment at which the end wants a tick.
    pub(crate) fn deadline(&self) -> Option<u64>
        ensures { result ≡ deadline kept self.now }
    {
        if self.is_released() {
            return None;
        }
        let limit = if self.is_connected() {
            None
        } else {
            Some(self.limit)
        };
        match (self.line.deadline(), limit) {
            (None, limit) => limit,
            (Some(expiry), None) => Some(expiry),
            (Some(expiry), Some(limit)) => Some(expiry.min(limit)),
        }
    }
}

//! The layers of an end, but for the deframer, whose frames are lent while these work.

ghost use Rattle.std.specs.Prelude.{◌≡◌, ◌≤◌, [], Some, length, is_some, if◌then◌else◌};
ghost use Rattle.x224_class2.specs.Tpdus.{Dc};
ghost use Rattle.er_end_model.specs.Steps.{new_event, new_event_at, with_release, hand_tpdu_if_may, close_link, send_owed_answer, send_dr, answer_dr, on_safety_release, hand_text, skip_message, has_next_tpdu, hand_next_tpdu, hand_waiting_tpdus, conclude_event, is_connected, is_spent};
ghost use Rattle.er_end.specs.KeptLayers.{kept};
ghost use Rattle.er_end.specs.Coming.{given_of_own_tpdu};

mod events;
mod rising;

use crate::line::Line;
use crate::own_tpdu::OwnTpdu;
use crate::safety_side::SafetySide;
use crate::sapdu_room::SapduRoom;
use crate::short_sapdu::ShortSapdu;
use er_base::{Moment, Release};
use safety_automaton::SafeState;
use std::marker::Model;
use t70_header::Joiner;
use x224_class2::Transport;

/// How many TPDUs are handed down in one event at most: one more than the greatest window lets go, and one more.
const MOST_OFFERS: u8 = 33;

/// The reason of a DR for a release that isn't the transport's own (ITU-T X.224, 13.5.3).
const NORMAL_DISCONNECT: u8 = 128;

/// The station, the blocks, the transport, the safety side with the messages that wait for the user, and what came of this event.
///
/// What an event makes the safety side say, and the blocks that go down, are written in a room that the caller lends.
#[derive(Drop)]
pub struct Layers {
    pub(crate) limit: u64,
    pub(crate) moment: Moment,
    pub(crate) connected: Option<u32>,
    pub(crate) leaves: Option<Release>,
    pub(crate) released: Option<Release>,
    pub(crate) line: Line,
    pub(crate) transport: Transport,
    pub(crate) joiner: Joiner,
    pub(crate) side: SafetySide,
}

impl Model for Layers {
    ghost use Rattle.er_end.specs.KeptLayers.{KCore};

    ghost Value = { KCore };

    ghost view = { λ l. record {
      line = l.line;
      joined = l.joiner;
      upper = record { transport = l.transport; inbox = l.side.inbox };
      safe = l.side.safe;
      limit = l.limit;
      moment = l.moment;
      connected = l.connected;
      leaves = l.leaves;
      released = l.released;
    } };
}

impl Layers {
    /// An event begins at a moment: nothing came of it yet.
    pub(crate) fn begin_at(&mut self, now: Moment)
        ensures { self.new ≡ new_event_at kept now self.old }
    {
        self.begin();
        self.moment = self.moment.later(now);
    }

    // An event begins at no moment of its own.
    fn begin(&mut self)
        ensures { self.new ≡ new_event kept self.old }
    {
        self.line.begin();
        self.side.inbox.begin();
        self.side.safe.forget();
        self.connected = None;
        self.leaves = None;
    }

    /// Whether the end is released.
    pub(crate) fn is_released(&self) -> bool
        ensures { result ≡ is_some self.now.released }
    {
        self.released.is_some()
    }

    // ---- releases

    // The end is released.
    fn set_released(&mut self, why: Release)
        ensures { self.new ≡ with_release why self.old }
    {
        self.leaves = Some(why);
        self.released = Some(why);
    }

    // A TPDU of the end's own goes down, where the station may send.
    fn hand_own(&mut self, tpdu: &OwnTpdu, room: &mut SapduRoom)
        ensures { self.new ≡ hand_tpdu_if_may kept (given_of_own_tpdu tpdu.now) self.old }
    {
        if self.line.may_send() {
            room.write_block(tpdu);
            self.line.hand(self.moment, room.held());
        }
    }

    // The link is ended: DISC, where it is or comes up.
    fn close_link(&mut self)
        ensures { self.new ≡ close_link kept self.old }
    {
        self.line.close();
    }

    // The answer that the station still owes.
    fn send_owed_answer(&mut self)
        ensures { self.new ≡ send_owed_answer kept self.old }
    {
        self.line.finish();
    }

    /// This end releases: a DR with this reason and user data, then the link is ended.
    pub(crate) fn release_by_dr(
        &mut self,
        why: Release,
        reason: u8,
        user: ShortSapdu,
        room: &mut SapduRoom,
    )
        ensures { self.new ≡ send_dr kept why reason user self.old }
    {
        self.hand_own(&OwnTpdu::Dr { reason, user }, room);
        self.close_link();
        self.set_released(why);
    }

    // The peer sent a DR: a DC answers it, and the link is the peer's to end.
    fn answer_dr(&mut self, why: Release, room: &mut SapduRoom)
        ensures { self.new ≡ answer_dr kept why self.old }
    {
        self.hand_own(&OwnTpdu::Dc, room);
        self.send_owed_answer();
        self.set_released(why);
    }

    // The safety side was released: by this end, which its DI tells, or by the peer.
    fn release_by_safety(&mut self, why: Release, di: ShortSapdu, room: &mut SapduRoom)
        ensures { self.new ≡ on_safety_release kept why di self.old }
    {
        if why.by_peer {
            self.close_link();
            self.set_released(why);
        } else {
            self.release_by_dr(why, NORMAL_DISCONNECT, di, room);
        }
    }

    // ---- what the safety side says

    // A text is handed to the transport as a message, where there is one.
    fn hand_message(&mut self, text: &[u8])
        requires { length text.now ≤ 1032 }
        ensures { self.new ≡ hand_text kept text.now self.old }
    {
        if !text.is_empty() && self.transport.is_open() && self.transport.waiting() < 16 {
            let _handed = self.transport.hand(text);
        }
    }

    // The message that came counts as taken.
    fn take_from_transport(&mut self)
        ensures { self.new ≡ skip_message kept self.old }
    {
        if self.transport.untaken() > 0 {
            self.transport.taken();
        }
    }

    // ---- what goes down behind each event

    // The next TPDU goes down, while no payload waits; whether it did.
    fn hand_next(&mut self, room: &mut SapduRoom) -> bool
        ensures core { self.new ≡ if has_next_tpdu kept self.old then hand_next_tpdu kept self.old else self.old }
        ensures more { result ≡ has_next_tpdu kept self.old }
    {
        if !self.line.is_free() {
            return false;
        }
        if !room.next_block(&mut self.transport) {
            return false;
        }
        self.line.hand(self.moment, room.held());
        true
    }

    // The TPDUs that are due go down, while no payload waits.
    #[tactic(auto, using(crate::proofs::Offers::stops, crate::proofs::Offers::none_left, crate::proofs::Offers::one_more))]
    fn hand_waiting(&mut self, room: &mut SapduRoom)
        ensures { self.new ≡ hand_waiting_tpdus kept 33 self.old }
    {
        let mut left = MOST_OFFERS;
        while left > 0 {
            if !self.hand_next(room) {
                return;
            }
            left -= 1;
        }
    }

    // What goes down behind an event that didn't release the end.
    fn conclude(&mut self, room: &mut SapduRoom)
        ensures { self.new ≡ conclude_event kept self.old }
    {
        if self.is_released() {
            return;
        }
        self.hand_waiting(room);
        self.send_owed_answer();
    }

    // ---- tests

    // Whether the safe connection stands.
    fn is_connected(&self) -> bool
        ensures { result ≡ is_connected self.now.safe.safety.phase }
    {
        self.side.safe.state() == SafeState::Connected
    }

    // Whether the time for the set-up is spent.
    fn is_spent(&self) -> bool
        ensures { result ≡ is_spent self.now }
    {
        !self.is_connected() && self.limit <= self.moment.get()
    }
}

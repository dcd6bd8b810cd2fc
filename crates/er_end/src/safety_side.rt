//! The safety side of an end.

ghost use Rattle.std.specs.Prelude.{◌≡◌};
ghost use Rattle.safety_automaton.specs.Keys.{key_at};
ghost use Rattle.er_end_model.specs.Steps.{on_text};
ghost use Rattle.er_end.specs.KeptLayers.{KCore, kept};
ghost use Rattle.er_end.specs.Coming.{carrier_of, comes_to, CanCome, IsCalledBy};

use crate::came::{Brought, Came};
use crate::inbox::Inbox;
use crate::sapdu_room::SapduRoom;
use er_base::Moment;
use safety_automaton::{KeyFinder, Safe, SafeDeed};

/// The safety side, and the messages of the peer's user that it accepted and that wait for the own one.
#[derive(Drop)]
pub struct SafetySide {
    pub safe: Safe,
    pub inbox: Inbox,
}

impl SafetySide {
    /// A text comes to the safety side at a moment, brought by this TPDU: what it came to.
    pub fn text_comes<K: KeyFinder>(
        &mut self,
        keys: &K,
        now: Moment,
        by: Brought,
        text: &[u8],
        room: &mut SapduRoom,
    ) -> Came
        ensures came { (x : KCore) → x.safe ≡ self.old.safe → x.upper.inbox ≡ self.old.inbox → x.moment ≡ now
            → comes_to result (record x { safe = self.new.safe; upper = record (x.upper) { inbox = self.new.inbox } })
            ≡ on_text kept (key_at (K.entries keys.now)) (carrier_of by) text.now x }
        ensures called { (x : KCore) → IsCalledBy by x → CanCome result x }
    {
        let (deed, answer) = room.receive(&mut self.safe, keys, now, text);
        match deed {
            SafeDeed::Answered => Came::Answers { by, answer },
            SafeDeed::Connected { peer } => Came::Connects { by, answer, peer },
            // a message of the peer's user comes in DTs alone
            SafeDeed::Accepted(user) => match by {
                Brought::InDt => {
                    self.inbox.keep(user);
                    Came::Nothing
                }
                Brought::InCr | Brought::InCc => Came::Nothing,
            },
            SafeDeed::Released(why) => Came::SafetyReleased { why, di: answer },
            SafeDeed::Ignored => Came::Nothing,
        }
    }
}

//! A user that counts.

ghost use Rattle.std.specs.Prelude.{◌≡◌, [], None};
ghost use Rattle.er_users.specs.Users.{Tally as a_kind, mind_of};

use crate::replies::Replies;
use crate::user::SafeUser;
use er_end::SendRefused;
use itoa::Buffer;
use std::marker::Model;

/// A user that answers each message by the decimal count of messages heard, this one included. The count stays at
/// 2^64 - 1.
#[derive(Drop)]
pub struct Tally {
    count: u64,
}

impl Model for Tally {
    ghost use Rattle.std.specs.Prelude.{[], None};
    ghost use Rattle.er_users.specs.Users.{Mind, Tally as a_kind};

    ghost Value = { Mind };

    ghost view = { λ t. record { kind = a_kind; count = t.count; texts = []; told = None } };
}

impl Tally {
    /// One that heard no message. It takes no memory.
    pub fn new() -> Tally
        ensures { result ≡ mind_of a_kind [] }
    {
        Tally { count: 0 }
    }
}

impl SafeUser for Tally {
    ghost mind = { λ mind. record mind { kind = a_kind; told = None } };

    #[tactic(auto, unfolding(crate::specs::Users::said))]
    fn connected(&mut self, _peer: u32, _out: &mut Replies) {}

    #[tactic(auto, using(crate::proofs::Texts::says_decimal), unfolding(crate::specs::Users::said))]
    fn message(&mut self, _text: &[u8], out: &mut Replies) {
        self.count = self.count.saturating_add(1);
        let mut digits = Buffer::new();
        out.say(digits.format(self.count).as_bytes());
    }

    #[tactic(auto, unfolding(crate::specs::Users::said))]
    fn refused(&mut self, _text: &[u8], _why: &SendRefused) {}

    #[tactic(auto, unfolding(crate::specs::Users::said))]
    fn released(&mut self, _reason: u8, _sub: u8, _by_peer: bool) {}
}

//! A user that says each message back.

ghost use Rattle.std.specs.Prelude.{◌≡◌, []};
ghost use Rattle.er_users.specs.Users.{Echo as a_kind, mind_of};

use crate::replies::Replies;
use crate::user::SafeUser;
use er_end::SendRefused;
use std::marker::Model;

/// A user that says each message back.
#[derive(Drop)]
pub struct Echo;

impl Model for Echo {
    ghost use Rattle.std.specs.Prelude.{[]};
    ghost use Rattle.er_users.specs.Users.{Mind, Echo as a_kind, mind_of};

    ghost Value = { Mind };

    ghost view = { λ _. mind_of a_kind [] };
}

impl Echo {
    /// It takes no memory.
    pub fn new() -> Echo
        ensures { result ≡ mind_of a_kind [] }
    {
        Echo
    }
}

impl SafeUser for Echo {
    ghost mind = { λ _. mind_of a_kind [] };

    #[tactic(auto, unfolding(crate::specs::Users::said))]
    fn connected(&mut self, _peer: u32, _out: &mut Replies) {}

    #[tactic(auto, unfolding(crate::specs::Users::said))]
    fn message(&mut self, text: &[u8], out: &mut Replies) {
        out.say(text);
    }

    #[tactic(auto, unfolding(crate::specs::Users::said))]
    fn refused(&mut self, _text: &[u8], _why: &SendRefused) {}

    #[tactic(auto, unfolding(crate::specs::Users::said))]
    fn released(&mut self, _reason: u8, _sub: u8, _by_peer: bool) {}
}

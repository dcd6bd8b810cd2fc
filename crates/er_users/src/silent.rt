//! A user that says nothing.

ghost use Rattle.std.specs.Prelude.{◌≡◌, []};
ghost use Rattle.er_users.specs.Users.{Silent as a_kind, mind_of};

use crate::replies::Replies;
use crate::user::SafeUser;
use er_end::SendRefused;
use std::marker::Model;

/// A user that says nothing.
#[derive(Drop)]
pub struct Silent;

impl Model for Silent {
    ghost use Rattle.std.specs.Prelude.{[]};
    ghost use Rattle.er_users.specs.Users.{Mind, Silent as a_kind, mind_of};

    ghost Value = { Mind };

    ghost view = { λ _. mind_of a_kind [] };
}

impl Silent {
    /// It takes no memory.
    pub fn new() -> Silent
        ensures { result ≡ mind_of a_kind [] }
    {
        Silent
    }
}

impl SafeUser for Silent {
    ghost mind = { λ _. mind_of a_kind [] };

    #[tactic(auto, unfolding(crate::specs::Users::said))]
    fn connected(&mut self, _peer: u32, _out: &mut Replies) {}

    #[tactic(auto, unfolding(crate::specs::Users::said))]
    fn message(&mut self, _text: &[u8], _out: &mut Replies) {}

    #[tactic(auto, unfolding(crate::specs::Users::said))]
    fn refused(&mut self, _text: &[u8], _why: &SendRefused) {}

    #[tactic(auto, unfolding(crate::specs::Users::said))]
    fn released(&mut self, _reason: u8, _sub: u8, _by_peer: bool) {}
}

//! Which end of the safe connection a side is.

ghost use Rattle.std.specs.Prelude.{◌≡◌};
ghost use Rattle.safety_automaton.specs.Safety.{flag_of, other_role};

/// Which end of the safe connection this is.
#[derive(Clone, Copy, Debug, PartialEq, Eq)]
pub enum Role {
    /// The engine: it begins the set-up, and its direction flag is 0.
    Initiator,
    /// The radio block centre: its direction flag is 1.
    Responder,
}

impl Role {
    /// The direction flag DF of what a side of this role sends: true, which is 1, from the responder.
    pub fn flag(self) -> bool
        ensures { result ≡ flag_of self }
    {
        match self {
            Role::Initiator => false,
            Role::Responder => true,
        }
    }

    /// The role of the peer.
    pub fn other(self) -> Role
        ensures { result ≡ other_role self }
    {
        match self {
            Role::Initiator => Role::Responder,
            Role::Responder => Role::Initiator,
        }
    }
}

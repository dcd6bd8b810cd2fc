//! A user that says a list of texts.

ghost use Rattle.std.specs.Prelude.{◌≡◌, ◌≤◌, ◌++◌, map, take, length, All, vec_len, None};
ghost use Rattle.er_users.specs.Saying.{IsText, SpokenByUser, nothing};
ghost use Rattle.er_users.specs.Users.{Lister as a_kind, mind_of};

use crate::replies::Replies;
use crate::user::SafeUser;
use er_end::SendRefused;
use std::marker::Model;

/// A user that says its texts when it is connected, and leaves with sub-reason 0 at the message that makes the count of
/// messages equal to the count of texts. The count stays at 2^64 - 1.
#[derive(Drop)]
pub struct Lister {
    texts: Vec<Vec<u8>>,
    count: u64,
}

impl Model for Lister {
    ghost use Rattle.std.specs.Prelude.{◌≤◌, map, All, vec_len, None};
    ghost use Rattle.er_users.specs.Saying.{IsText};
    ghost use Rattle.er_users.specs.Users.{Mind, Lister as a_kind};

    ghost Value = { Mind };

    ghost view = { λ l. record { kind = a_kind; count = l.count; texts = map (λ text. text.items) l.texts.items; told = None } };

    ghost invariant = { λ l. (vec_len l.texts ≤ 8) × All IsText (map (λ text. text.items) l.texts.items) };
}

impl Lister {
    /// A user of these texts: 1 to 8, each of 1 to 1,023 octets. It takes no memory.
    pub fn new(texts: Vec<Vec<u8>>) -> Lister
        requires some { 1 ≤ vec_len texts }
        requires most { vec_len texts ≤ 8 }
        requires texts { All IsText (map (λ text. text.items) texts.items) }
        ensures { result ≡ mind_of a_kind (map (λ text. text.items) texts.items) }
    {
        Lister { texts, count: 0 }
    }
}

// Says all texts.
fn say_all(texts: &[Vec<u8>], out: &mut Replies)
    requires most { length texts.now ≤ 8 }
    requires texts { All IsText (map (λ text. text.items) texts.now) }
    requires nothing { out.old ≡ nothing }
    ensures { out.new ≡ record nothing { texts = map (λ text. text.items) texts.now } }
{
    for text in texts {
        out.say(text.as_slice());
    }
}

impl SafeUser for Lister {
    ghost mind = { λ mind. record mind { kind = a_kind; told = None } };

    #[tactic(auto, unfolding(crate::specs::Users::said))]
    fn connected(&mut self, _peer: u32, out: &mut Replies) {
        say_all(self.texts.as_slice(), out);
    }

    #[tactic(auto, unfolding(crate::specs::Users::said))]
    fn message(&mut self, _text: &[u8], out: &mut Replies) {
        self.count = self.count.saturating_add(1);
        if usize::try_from(self.count) == Ok(self.texts.len()) {
            out.leave(0);
        }
    }

    #[tactic(auto, unfolding(crate::specs::Users::said))]
    fn refused(&mut self, _text: &[u8], _why: &SendRefused) {}

    #[tactic(auto, unfolding(crate::specs::Users::said))]
    fn released(&mut self, _reason: u8, _sub: u8, _by_peer: bool) {}
}

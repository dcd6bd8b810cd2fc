//! A boxed user is the user in it.

use crate::replies::Replies;
use crate::user::SafeUser;
use er_end::SendRefused;

impl SafeUser for Box<dyn SafeUser> {
    ghost mind = { λ b. (SafeUser-box b).mind b.value };

    fn connected(&mut self, peer: u32, out: &mut Replies) {
        (**self).connected(peer, out);
    }

    fn message(&mut self, text: &[u8], out: &mut Replies) {
        (**self).message(text, out);
    }

    fn refused(&mut self, text: &[u8], why: &SendRefused) {
        (**self).refused(text, why);
    }

    fn released(&mut self, reason: u8, sub: u8, by_peer: bool) {
        (**self).released(reason, sub, by_peer);
    }
}

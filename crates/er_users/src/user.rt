//! Who hears of a safe connection.

ghost use Rattle.std.specs.Prelude.{◌≡◌};
ghost use Rattle.er_users.specs.Saying.{IsText, nothing};
ghost use Rattle.er_users.specs.Users.{Mind, Hears, Connected, Message, Refused, Released};
ghost use Rattle.er_end.specs.Shown.{refusal_view};

use crate::replies::Replies;
use er_end::SendRefused;

/// The user of a safe connection.
///
/// It hears, in this order: that it is connected, at most once; each message, and of each text of its own that was refused that it was, right
/// behind the send; that it was released, once and last. What it says joins `out`, which holds nothing before. No call takes memory from the
/// stack that calls it.
///
/// What it heard so far is an optional meaning. A user that tells it tells of each call, with its arguments; one that tells nothing
/// never begins to tell.
pub trait SafeUser: Drop {
    // What the user is, as plain data, with what it tells that it heard.
    ghost mind: { Self → Mind };

    /// The connection to the peer of this ETCS number was made.
    fn connected(&mut self, peer: u32, out: &mut Replies)
        requires { out.old ≡ nothing }
        ensures { Hears (mind self.old) (Connected peer) (mind self.new) out.new };

    /// A message of 1 to 1,023 octets came.
    fn message(&mut self, text: &[u8], out: &mut Replies)
        requires text { IsText text.now }
        requires nothing { out.old ≡ nothing }
        ensures { Hears (mind self.old) (Message text.now) (mind self.new) out.new };

    /// This text, which the user said, was refused, and why. To this it says nothing.
    fn refused(&mut self, text: &[u8], why: &SendRefused)
        ensures { Hears (mind self.old) (Refused text.now (refusal_view why.now)) (mind self.new) nothing };

    /// The connection was released, with this reason and sub-reason, by the peer or by the own side.
    fn released(&mut self, reason: u8, sub: u8, by_peer: bool)
        ensures { Hears (mind self.old) (Released reason sub by_peer) (mind self.new) nothing };
}

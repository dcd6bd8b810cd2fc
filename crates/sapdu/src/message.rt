//! The user's message in a DT SaPDU.

ghost use Rattle.std.specs.Prelude.{◌≡◌};
ghost use Rattle.sapdu.specs.Messages.{is_message};

/// The most octets of a message of the user.
pub const MOST_USER_OCTETS: usize = 1023;

/// The most octets of an SaPDU: those of the DT with the longest message.
pub const MOST_OCTETS: usize = 1032;

/// Whether a DT can carry these user octets: 1 to 1,023 of them.
pub fn is_message(user: &[u8]) -> bool
    ensures { result ≡ is_message user.now }
{
    !user.is_empty() && user.len() <= MOST_USER_OCTETS
}

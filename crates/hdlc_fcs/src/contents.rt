//! The content of a frame: its bounds, its check sequence written and read.

ghost use Rattle.std.specs.Prelude.{◌≡◌, ◌↔◌, ◌++◌, ◌∷◌, IsTrue};
ghost use Rattle.hdlc_fcs.specs.Contents.{content_of, IsIntact};

use crate::{Running, fcs};

/// The least number of octets that a frame's content may have (this profile).
pub const SHORTEST: usize = 4;

/// The greatest number of octets that a frame's content may have (this profile).
pub const LONGEST: usize = 1032;

/// Whether the last two octets of the content are the check sequence of those before them, low octet first
/// (ISO/IEC 13239). It is false of content of fewer than two octets.
pub fn is_intact(content: &[u8]) -> bool
    ensures { IsTrue result ↔ IsIntact content.now }
{
    match content.split_last_chunk::<2>() {
        Some((checked, check)) => fcs(checked) == u16::from_le_bytes(*check),
        None => false,
    }
}

/// The check sequence of an address and a body, the low octet first: behind both it makes a frame's content
/// (ISO/IEC 13239).
pub fn check_octets(address: u8, body: &[u8]) -> [u8; 2]
    ensures { address ∷ body.now ++ result ≡ content_of address body.now }
{
    check_octets_of_fields(address, body, &[])
}

/// The same of an address, and of a control field and an information field that stand apart and are the body together.
pub fn check_octets_of_fields(address: u8, control: &[u8], information: &[u8]) -> [u8; 2]
    ensures { address ∷ (control.now ++ information.now) ++ result ≡ content_of address (control.now ++ information.now) }
{
    let mut check = Running::new();
    check.add(&[address]);
    check.add(control);
    check.add(information);
    check.value().to_le_bytes()
}

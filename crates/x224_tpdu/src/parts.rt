//! The parts of a TPDU, cut from its octets.

ghost use Rattle.std.specs.Prelude.{◌≡◌, Some, MatchResult};
ghost use Rattle.x224_tpdu.specs.Faults.{first_fault};
ghost use Rattle.x224_tpdu.specs.Parts.{layout_in, IsLayout};

use crate::fault::TpFault;

/// The octets of a TPDU, cut behind the header that their length indicator counts.
#[derive(Clone, Copy)]
pub struct Parts<'a> {
    /// The number of all octets.
    pub found: usize,
    /// The length indicator.
    pub li: u8,
    /// The first octet of the header.
    pub code: u8,
    /// The header behind the length indicator and the code.
    pub fields: &'a [u8],
    /// What stands behind the header.
    pub user: &'a [u8],
}

/// Cuts octets that have a header of the length that they name.
pub fn parts_of<'a>(octets: &'a [u8]) -> Result<Parts<'a>, TpFault>
    ensures { MatchResult result
        (λ parts. IsLayout octets.now (layout_in parts))
        (λ fault. first_fault octets.now ≡ Some fault) }
{
    let &[li, ref rest @ ..] = octets else {
        return Err(TpFault::Empty);
    };
    let found = octets.len();
    let length = usize::from(li);
    if li == 0 || li == 0xFF || rest.len() < length {
        return Err(TpFault::Length { li, found });
    }
    let (header, user) = rest.split_at(length);
    Ok(Parts {
        found,
        li,
        code: header[0],
        fields: &header[1..],
        user,
    })
}

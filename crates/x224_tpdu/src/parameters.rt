//! Parameters: code, length, value (X.224, 13.2.3).

ghost use Rattle.std.specs.Prelude.{◌≡◌, ℕ, ◌<◌, [], ◌∷◌, length, Some, None, MatchOption, MatchResult};
ghost use Rattle.x224_tpdu.specs.Parameters.{parameters_in, may_stand, size_octet};
ghost use Rattle.x224_tpdu.specs.Spellings.{NamesSize};
ghost use Rattle.x224_tpdu.specs.Faults.{part_fault, size_fault};
ghost use Rattle.x224_tpdu.specs.Parts.{HasWholeParameters, BeginsWithParameter};

use crate::fault::TpFault;
use crate::kind::Kind;

/// The code of the parameter TPDU size.
pub const SIZE: u8 = 0xC0;

/// Tests that a parameter part is made of whole parameters that may stand in a TPDU of this kind, and
/// answers the octet of the first TPDU size among them.
pub fn check_parameters(kind: Kind, part: &[u8]) -> Result<Option<u8>, TpFault>
    ensures { MatchResult result
        (λ octet. HasWholeParameters kind part.now × (octet ≡ size_octet (parameters_in part.now).0))
        (λ fault. part_fault kind part.now ≡ Some fault) }
{
    let mut rest = part;
    let mut sized = false;
    let mut size = None;
    while let Some((code, value, after)) = first_parameter(rest) {
        if !is_allowed(kind, sized, code, value) {
            return Err(TpFault::Parameter(code));
        }
        if code == SIZE && !sized {
            sized = true;
            size = value.first().copied();
        }
        rest = after;
    }
    match rest {
        [] => Ok(size),
        &[code, ..] => Err(TpFault::Parameter(code)),
    }
}

/// The TPDU size in octets that the octet of its parameter names; 128 where there is no parameter.
pub fn size_named(octet: Option<u8>) -> Result<u16, TpFault>
    ensures { MatchResult result
        (λ size. (size_fault octet ≡ None) × NamesSize octet size)
        (λ fault. size_fault octet ≡ Some fault) }
{
    match octet {
        None | Some(0x07) => Ok(128),
        Some(0x08) => Ok(256),
        Some(0x09) => Ok(512),
        Some(0x0A) => Ok(1_024),
        Some(0x0B) => Ok(2_048),
        Some(0x0C) => Ok(4_096),
        Some(0x0D) => Ok(8_192),
        Some(octet) => Err(TpFault::Value { code: SIZE, octet }),
    }
}

// The parameter with which the octets begin, as its code and its value, and the octets behind it.
#[tactic(auto, using(crate::proofs::Cutting::parameters_cut))]
fn first_parameter<'a>(part: &'a [u8]) -> Option<(u8, &'a [u8], &'a [u8])>
    ensures { MatchOption result
        (parameters_in part.now ≡ ([], part.now))
        (λ found. BeginsWithParameter part.now found.0 found.1.now found.2.now) }
{
    let &[code, size, ref rest @ ..] = part else {
        return None;
    };
    let size = usize::from(size);
    if rest.len() < size {
        return None;
    }
    let (value, after) = rest.split_at(size);
    Some((code, value, after))
}

fn is_allowed(kind: Kind, sized: bool, code: u8, value: &[u8]) -> bool
    ensures { result ≡ may_stand kind sized (record { code = code; value = value.now }) }
{
    match (kind, code) {
        (Kind::Cr | Kind::Cc, SIZE) => value.len() == 1 && !sized,
        (Kind::Cr | Kind::Er, _) | (Kind::Cc, 0xC1 | 0xC2) | (Kind::Dr, 0xE0) => true,
        _ => false,
    }
}

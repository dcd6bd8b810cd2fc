//! The texts that the MACs of a side seal (UNISIG SUBSET-037, computation of the MAC). The MAC isn't part of its text.

ghost use Rattle.std.specs.Prelude.{◌≡◌};
ghost use Rattle.sapdu.specs.Messages.{IsMessage};
ghost use Rattle.safety_automaton.specs.Safety.{au2_text, au3_text, ar_text, message_text};

use er_base::EtcsNumber;
use sapdu::{SaPdu, SealedText};

/// The one safety feature that there is.
pub const FEATURE: u8 = 1;

/// The text of an AU2 from the responder `sender` to the initiator `receiver`.
#[tactic(auto, unfolding(crate::specs::Safety::au2_text))]
pub fn au2_text(
    flag: bool,
    receiver: EtcsNumber,
    sender: EtcsNumber,
    ra: u64,
    rb: u64,
) -> SealedText
    ensures { result ≡ au2_text flag receiver sender 1 ra rb }
{
    let au2 = SaPdu::Au2 {
        id: sender.get(),
        feature: FEATURE,
        ra,
        mac: 0,
    };
    SealedText::new(&au2, flag, receiver.get(), ra, rb)
}

/// The text of an AU3 to the responder `receiver`.
#[tactic(auto, unfolding(crate::specs::Safety::au3_text))]
pub fn au3_text(flag: bool, receiver: EtcsNumber, ra: u64, rb: u64) -> SealedText
    ensures { result ≡ au3_text flag receiver ra rb }
{
    SealedText::new(&SaPdu::Au3 { mac: 0 }, flag, receiver.get(), ra, rb)
}

/// The text of an AR to the initiator `receiver`.
#[tactic(auto, unfolding(crate::specs::Safety::ar_text))]
pub fn ar_text(flag: bool, receiver: EtcsNumber) -> SealedText
    ensures { result ≡ ar_text flag receiver }
{
    SealedText::new(&SaPdu::Ar { mac: 0 }, flag, receiver.get(), 0, 0)
}

/// The text of a DT with these user octets to the side `receiver`.
#[tactic(auto, unfolding(crate::specs::Safety::message_text))]
pub fn message_text(flag: bool, receiver: EtcsNumber, user: &[u8]) -> SealedText
    requires { IsMessage user.now }
    ensures { result ≡ message_text flag receiver user.now }
{
    SealedText::new(&SaPdu::Dt { user, mac: 0 }, flag, receiver.get(), 0, 0)
}

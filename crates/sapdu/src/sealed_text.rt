//! The text that a MAC is made over.

ghost use Rattle.std.specs.Prelude.{◌≡◌, ◌+◌, ◌-◌, ◌<◌, ◌≤◌, ◌^◌, [], ◌∷◌, ◌++◌, length, drop};
ghost use Rattle.er_base.specs.Octets.{two, three, eight};
ghost use Rattle.sapdu.specs.SpellingLaws.{HasUserOctets, HasNumber};
ghost use Rattle.sapdu.specs.Sealed.{sealed_text};
ghost use Rattle.sapdu.specs.Messages.{IsMessage};
ghost use Rattle.sapdu.specs.Representation.{IsLengthAndOctets};
ghost use Rattle.sapdu.specs.Reading.{view};

use crate::pdu::SaPdu;
use arrayvec::ArrayVec;
use er_base::{EtcsNumber, eight_of, three_of, two_of};
use std::marker::Model;

/// The most octets of a sealed text: those of the longest message.
pub const MOST_TEXT_OCTETS: usize = 1029;

/// The text that the MAC of an SaPDU seals (SUBSET-037, computation of the MAC), not padded: a length, the receiver's
/// number, and a part of the SaPDU. It has 5 to 1,029 octets, and takes no memory.
#[derive(Drop)]
pub struct SealedText {
    octets: ArrayVec<u8, MOST_TEXT_OCTETS>,
}

impl Model for SealedText {
    ghost use Rattle.std.specs.Prelude.{ℕ, List, ◌<◌, length};

    ghost Value = { List ℕ };

    ghost view = { λ t. t.octets.items };

    // a MAC wants a text that isn't empty
    ghost invariant = { λ t. 0 < length t.octets.items };
}

impl SealedText {
    /// The text of an SaPDU with this direction flag, true from the responder, to the receiver `da`, in a set-up with the
    /// random numbers `ra` of the responder and `rb` of the initiator.
    pub fn new(pdu: &SaPdu, flag: bool, da: u32, ra: u64, rb: u64) -> SealedText
        requires user { HasUserOctets (view pdu.now) }
        requires number { HasNumber (view pdu.now) }
        requires receiver { da < 2 ^ 24 }
        ensures { result ≡ sealed_text (view pdu.now) flag da ra rb }
    {
        let header = pdu.kind().header(flag);
        let receiver = EtcsNumber::new(da);
        match *pdu {
            SaPdu::Au1 { .. } | SaPdu::Di { .. } => SealedText::of_none(receiver),
            SaPdu::Au2 {
                id,
                feature,
                ra,
                ..
            } => SealedText::of_au2(receiver, header, EtcsNumber::new(id), feature, ra, rb),
            SaPdu::Au3 { .. } => SealedText::of_au3(receiver, header, ra, rb),
            SaPdu::Ar { .. } => SealedText::of_ar(receiver, header),
            SaPdu::Dt { user, .. } => SealedText::of_dt(receiver, header, user),
        }
    }

    /// The octets, never none, and at most 1,029.
    pub fn octets(&self) -> &[u8]
        ensures octets { result.now ≡ self.now }
        ensures some { 0 < length result.now }
        ensures most { length result.now ≤ 1029 }
    {
        self.octets.as_slice()
    }

    // The text of an SaPDU of which no part is sealed.
    fn of_none(receiver: EtcsNumber) -> SealedText
        ensures { IsLengthAndOctets (three receiver) result }
    {
        let mut text = SealedText::addressed(receiver);
        text.put_length();
        text
    }

    // The text of an AU2.
    fn of_au2(
        receiver: EtcsNumber,
        header: u8,
        id: EtcsNumber,
        feature: u8,
        ra: u64,
        rb: u64,
    ) -> SealedText
        ensures { IsLengthAndOctets (three receiver ++ header ∷ three id ++ feature ∷ eight ra ++ eight rb) result }
    {
        let mut text = SealedText::addressed(receiver);
        text.put(&[header]);
        text.put(&three_of(id.get()));
        text.put(&[feature]);
        text.put(&eight_of(ra));
        text.put(&eight_of(rb));
        text.put_length();
        text
    }

    // The text of an AU3.
    fn of_au3(receiver: EtcsNumber, header: u8, ra: u64, rb: u64) -> SealedText
        ensures { IsLengthAndOctets (three receiver ++ header ∷ eight ra ++ eight rb) result }
    {
        let mut text = SealedText::addressed(receiver);
        text.put(&[header]);
        text.put(&eight_of(ra));
        text.put(&eight_of(rb));
        text.put_length();
        text
    }

    // The text of an AR.
    fn of_ar(receiver: EtcsNumber, header: u8) -> SealedText
        ensures { IsLengthAndOctets (three receiver ++ header ∷ []) result }
    {
        let mut text = SealedText::addressed(receiver);
        text.put(&[header]);
        text.put_length();
        text
    }

    // The text of a DT.
    fn of_dt(receiver: EtcsNumber, header: u8, user: &[u8]) -> SealedText
        requires { IsMessage user.now }
        ensures { IsLengthAndOctets (three receiver ++ header ∷ user.now) result }
    {
        let mut text = SealedText::addressed(receiver);
        text.put(&[header]);
        text.put(user);
        text.put_length();
        text
    }

    // Two octets for the length of what follows them, and the receiver's number.
    fn addressed(receiver: EtcsNumber) -> SealedText
        ensures { result ≡ 0 ∷ 0 ∷ three receiver }
    {
        let mut octets = ArrayVec::new();
        octets.try_extend_from_slice(&[0, 0]).unwrap();
        octets
            .try_extend_from_slice(&three_of(receiver.get()))
            .unwrap();
        SealedText { octets }
    }

    // Appends octets for which there is room.
    fn put(&mut self, octets: &[u8])
        requires { length self.old + length octets.now ≤ 1029 }
        ensures { self.new ≡ self.old ++ octets.now }
    {
        self.octets.try_extend_from_slice(octets).unwrap();
    }

    // Writes the length of what follows the first two octets over them.
    fn put_length(&mut self)
        requires { 2 ≤ length self.old }
        ensures { self.new ≡ two (length self.old - 2) ++ drop 2 self.old }
    {
        let length = self.octets.len() - 2;
        let [high, low] = two_of(length as u16);
        self.octets[0] = high;
        self.octets[1] = low;
    }
}

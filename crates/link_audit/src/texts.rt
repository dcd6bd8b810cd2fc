//! The texts that TPDUs carry.

ghost use Rattle.std.specs.Prelude.{◌≡◌, ◌<◌, ◌≤◌, [], length};
ghost use Rattle.x224_tpdu.specs.Function.{reading};
ghost use Rattle.link_audit.specs.Turns.{no_texts, text_turned, text_turn, text_turn_at_data};

use crate::frame_outcome::TextOutcome;
use arrayvec::ArrayVec;
use std::marker::Model;
use tap_model::EndCause;
use x224_tpdu::{Tpdu, read};

/// The most octets of a text.
pub const MOST_OCTETS: usize = 1_032;

/// The number of the next DT, the octets of a message that was begun, and the newest text.
#[derive(Drop)]
pub struct Texts {
    dts: u8,
    begun: ArrayVec<u8, MOST_OCTETS>,
    text: ArrayVec<u8, MOST_OCTETS>,
}

impl Model for Texts {
    ghost use Rattle.std.specs.Prelude.{◌<◌};
    ghost use Rattle.link_audit.specs.Turns.{KTexts};

    ghost Value = { KTexts };

    ghost view = { λ t. record { dts = t.dts; begun = t.begun.items; text = t.text.items } };

    ghost invariant = { λ t. t.dts < 128 };
}

impl Texts {
    /// No DT came yet.
    pub fn new() -> Texts
        ensures { result ≡ no_texts }
    {
        Texts {
            dts: 0,
            begun: ArrayVec::new(),
            text: ArrayVec::new(),
        }
    }

    /// Lends the newest text.
    pub fn text(&self) -> &[u8]
        ensures { result.now ≡ self.now.text }
    {
        self.text.as_slice()
    }

    /// A TPDU comes.
    pub fn take(&mut self, tpdu: &[u8]) -> TextOutcome
        ensures turn { text_turned result self.new ≡ text_turn self.old.dts self.old.begun (reading tpdu.now) }
        ensures below { self.new.dts < 128 }
    {
        // the number of the next DT is below 128, whichever TPDU comes
        let _dts = self.dts;
        x224_tpdu::laws::reading();
        match read(tpdu) {
            Ok(Tpdu::Cr { user, .. }) => {
                self.keep(user);
                TextOutcome::Text
            }
            Ok(Tpdu::Cc { user, .. }) => {
                self.keep(user);
                TextOutcome::Text
            }
            Ok(Tpdu::Dr { user, .. }) => {
                self.keep(user);
                TextOutcome::LastText
            }
            Ok(
                Tpdu::Dt {
                    last,
                    number,
                    user,
                    ..
                },
            ) => self.data(last, number, user),
            Ok(Tpdu::Ak { .. }) => TextOutcome::NoText,
            Ok(Tpdu::Dc { .. }) => TextOutcome::Ended(EndCause::Tpdu),
            Ok(Tpdu::Er { .. }) => TextOutcome::Ended(EndCause::Tpdu),
            Err(_) => TextOutcome::Ended(EndCause::Tpdu),
        }
    }

    // These octets are the newest text.
    fn keep(&mut self, text: &[u8])
        requires { length text.now ≤ 1032 }
        ensures { self.new ≡ record self.old { text = text.now } }
    {
        self.text.clear();
        self.text.try_extend_from_slice(text).unwrap();
    }

    // The message that was begun is whole.
    fn complete(&mut self)
        ensures { self.new ≡ record self.old { begun = []; text = self.old.begun } }
    {
        self.text.clear();
        self.text
            .try_extend_from_slice(self.begun.as_slice())
            .unwrap();
        self.begun.clear();
    }

    // A DT comes: one of another number, or one whose message is too long, ends all.
    fn data(&mut self, last: bool, number: u8, user: &[u8]) -> TextOutcome
        ensures turn { text_turned result self.new ≡ text_turn_at_data self.old.dts self.old.begun last number user.now }
        ensures below { self.new.dts < 128 }
    {
        if number != self.dts {
            return TextOutcome::Ended(EndCause::Number);
        }
        if user.len() > MOST_OCTETS - self.begun.len() {
            return TextOutcome::Ended(EndCause::Long);
        }
        self.dts = (self.dts + 1) % 128;
        self.begun.try_extend_from_slice(user).unwrap();
        if !last {
            return TextOutcome::NoText;
        }
        self.complete();
        TextOutcome::Text
    }
}

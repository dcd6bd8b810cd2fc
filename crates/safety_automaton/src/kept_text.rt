//! The room for a text that a side keeps until its next call.

ghost use Rattle.std.specs.Prelude.{◌≡◌, None, Some, option_map};

use sapdu::{MOST_TEXT_OCTETS, SealedText};
use std::marker::Model;

/// The text that the last call sealed or verified, where it did. Of its room only the octets of a text are written, so a text that is put
/// away, and a short one that is kept, cost no more than they have; the number of its octets stands before them.
#[derive(Drop)]
pub struct KeptText {
    len: usize,
    octets: [u8; MOST_TEXT_OCTETS],
}

impl Model for KeptText {
    ghost use Rattle.std.specs.Prelude.{ℕ, List, Option, ◌≤◌, take};
    ghost use Rattle.safety_automaton.specs.Kept.{text_in_room};

    ghost Value = { Option (List ℕ) };

    // a text has an octet at least
    ghost view = { λ t. text_in_room (take t.len t.octets) };

    ghost invariant = { λ t. t.len ≤ 1029 };
}

impl KeptText {
    /// No text.
    pub fn none() -> KeptText
        ensures { result ≡ None }
    {
        KeptText {
            len: 0,
            octets: [0; MOST_TEXT_OCTETS],
        }
    }

    /// The text is put away.
    pub fn clear(&mut self)
        ensures { self.new ≡ None }
    {
        self.len = 0;
    }

    /// This text is kept in the place of the last one.
    pub fn keep(&mut self, text: &SealedText)
        ensures { self.new ≡ Some text.now }
    {
        let text = text.octets();
        self.len = text.len();
        self.octets[..text.len()].copy_from_slice(text);
    }

    /// The same of a text, where there is one.
    pub fn keep_if(&mut self, text: Option<&SealedText>)
        ensures { self.new ≡ option_map (λ t. t.now) text.entry }
    {
        match text {
            Some(text) => self.keep(text),
            None => self.clear(),
        }
    }

    /// Lends the text, not padded.
    pub fn octets(&self) -> Option<&[u8]>
        ensures { option_map (λ t. t.now) result ≡ self.now }
    {
        if self.len == 0 {
            None
        } else {
            Some(&self.octets[..self.len])
        }
    }
}

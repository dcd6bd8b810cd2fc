//! The two ends of a link.

ghost use Rattle.std.specs.Prelude.{◌≡◌};
ghost use Rattle.er_base.specs.Sides.{other, side_word, side_of};

/// An end of a link.
#[derive(Clone, Copy, Debug, PartialEq, Eq)]
pub enum Side {
    /// The engine (train): initiator, caller, calling station.
    E,
    /// The radio block centre: responder, callee, called station.
    R,
}

impl Side {
    /// The end at the other side of the link.
    pub fn other(self) -> Side
        ensures { result ≡ other self }
    {
        match self {
            Side::E => Side::R,
            Side::R => Side::E,
        }
    }

    /// The word of this end in this profile's texts: `e` or `r`.
    pub fn word(self) -> &'static [u8]
        ensures { result.now ≡ side_word self }
    {
        match self {
            Side::E => b"e",
            Side::R => b"r",
        }
    }

    /// The end that a word of this profile's texts names; None exactly where it names none.
    pub fn named(word: &[u8]) -> Option<Side>
        ensures { result ≡ side_of word.now }
    {
        if word == Side::E.word() {
            return Some(Side::E);
        }
        if word == Side::R.word() {
            return Some(Side::R);
        }
        None
    }
}

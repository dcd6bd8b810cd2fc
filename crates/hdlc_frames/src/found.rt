//! What a deframer finds between two flags.

/// A frame whose check sequence fits.
#[derive(Clone, Copy, Debug, PartialEq, Eq)]
pub struct Frame<'a> {
    /// The first octet of the content.
    pub address: u8,
    /// The octets between the address and the check sequence, 1 to 1,029.
    pub body: &'a [u8],
}

/// What the octets between two flags are: the first of Aborted, TooLong, TooShort, BadFcs and Frame that
/// fits.
#[derive(Clone, Copy, Debug, PartialEq, Eq)]
pub enum Found<'a> {
    /// A frame whose check sequence fits.
    Frame(Frame<'a>),
    /// The last two octets of the content aren't the check sequence of the others.
    BadFcs,
    /// The content has under 4 octets.
    TooShort,
    /// The content has above 1,032 octets.
    TooLong,
    /// The flag came behind an escape.
    Aborted,
}

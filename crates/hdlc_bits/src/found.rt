//! What a deframer finds between a flag and the next flag or abort.

/// What the bits between a flag and the next flag or abort are, without the zeros that were inserted: the first
/// of Aborted, TooLong, Ragged, TooShort, BadFcs and Frame that fits (the order is this profile's).
#[derive(Clone, Copy, Debug, PartialEq, Eq)]
pub enum BitFound<'a> {
    /// A frame whose check sequence fits.
    Frame {
        /// The first octet of the content.
        address: u8,
        /// The octets between the address and the check sequence, 1 to 1,029.
        body: &'a [u8],
    },
    /// More than six ones ended them.
    Aborted,
    /// There are above 8,256 bits.
    TooLong,
    /// Their number, this one, is no multiple of 8.
    Ragged(usize),
    /// There are under 32 bits.
    TooShort,
    /// The last two octets aren't the check sequence of the others.
    BadFcs,
}

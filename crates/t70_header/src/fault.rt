/// Why a block can't be joined.
#[derive(Clone, Copy, Debug, PartialEq, Eq)]
pub enum BlockFault {
    /// The block doesn't begin with 01 00 or 01 80. `found` is its number of octets, and `first` and
    /// `second` are its first two, 0 where the block doesn't have them.
    Header { found: usize, first: u8, second: u8 },
    /// With this block the joined TPDU would have this many octets, more than 1,024.
    Long(usize),
}

/// Why octets spell no SaPDU: the first of these, in this order, that holds.
///
/// No octet at all is `Short` too, before the header is looked at.
#[derive(Clone, Copy, Debug, PartialEq, Eq)]
pub enum SaFault {
    /// Fewer octets than the SaPDU of this header has.
    Short {
        /// The least number of octets, 1 where there is no header.
        need: usize,
        /// The number of octets that there are.
        found: usize,
    },
    /// The header octet is that of no SaPDU.
    Kind(u8),
    /// More octets than the SaPDU of this header has.
    Long {
        /// The greatest number of octets.
        max: usize,
        /// The number of octets that there are.
        found: usize,
    },
}

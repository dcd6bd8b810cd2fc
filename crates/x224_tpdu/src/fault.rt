/// What is wrong with the octets of a TPDU. Octets can have several faults; [`crate::read`] names the
/// first one in the order of its page.
#[derive(Clone, Copy, Debug, PartialEq, Eq)]
pub enum TpFault {
    /// There is no octet.
    Empty,
    /// The length indicator is 0 or FF, names more octets than there are, or isn't one that this
    /// kind of TPDU can have. `found` is the number of all octets.
    Length { li: u8, found: usize },
    /// The second octet is no code of a TPDU.
    Code(u8),
    /// The parameter of this code is cut off, isn't allowed in this kind of TPDU, or is a TPDU size
    /// of another length than one octet or behind another TPDU size.
    Parameter(u8),
    /// A field has a value that it can't have: `code` C0 is the TPDU size of CR and CC, 60 the number
    /// YR-TU-NR of AK.
    Value { code: u8, octet: u8 },
    /// CR or CC ask for another class than 2, or for other options than none.
    Class(u8),
    /// There are more octets of user data than `max`, or none in DT.
    UserData { max: usize, found: usize },
}

/// Why a text of this profile, a drill file or a trace, is refused.
///
/// Within a line the faults have the order `Word`, `Count`, `Level`, `Late`, and then `Number`, `Hex`, `Value` for each
/// argument from the left.
#[derive(Clone, Copy, Debug, PartialEq, Eq)]
pub enum Why {
    /// The first line that isn't skipped is no header, or there is none.
    Header,
    /// The first word of the line is none that begins a line.
    Word,
    /// The line has more or fewer words than its first word wants.
    Count,
    /// The line isn't one of the level that the header names.
    Level,
    /// The line stands behind lines that it may not follow.
    Late,
    /// An argument is no decimal number or names no side.
    Number,
    /// An argument isn't hexadecimal, or has another length than its kind has.
    Hex,
    /// An argument is out of its range.
    Value,
    /// The text has more octets than a text may have.
    Long,
}

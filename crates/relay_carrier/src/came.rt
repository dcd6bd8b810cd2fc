/// What octets of a side came to.
#[derive(Clone, Copy, Debug, PartialEq, Eq)]
pub enum CutOutcome {
    /// They are held.
    Held,
    /// They, with those that were held, are of no unit.
    Outside,
    /// They ended a unit.
    Unit,
}

/// Where a side stands.
#[derive(Clone, Copy, Debug, PartialEq, Eq)]
pub enum Stage {
    /// It sent no flag yet.
    Unbegun,
    /// Octets are held.
    Holding,
    /// More was held than a unit has.
    Overlong,
}

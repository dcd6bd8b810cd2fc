/// When a line is printed, and of which connection it tells.
#[derive(Clone, Copy)]
pub(crate) struct Stamp {
    /// The moment in milliseconds.
    pub(crate) moment: u64,
    /// The number of the connection, from 1.
    pub(crate) number: u64,
}

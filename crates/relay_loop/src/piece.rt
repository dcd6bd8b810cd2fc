/// What is given at once for what came.
#[derive(Drop)]
pub(crate) struct Piece {
    /// Its octets.
    pub(crate) octets: Vec<u8>,
    /// The moment in milliseconds at which it is due.
    pub(crate) due: u64,
}

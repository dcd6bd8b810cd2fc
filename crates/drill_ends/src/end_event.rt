/// What is given to an end.
#[derive(Clone, Copy)]
pub enum EndEvent<'a> {
    /// An end that calls is to begin.
    Start,
    /// Octets from the peer.
    Receive(&'a [u8]),
    /// The user sends.
    Send(&'a [u8]),
    /// The user takes a message.
    Take,
    /// The user releases, with this sub-reason.
    Release(u8),
    /// The moment has come.
    Tick,
}

/// What a reception comes to, for the layer above. Octets are lent.
#[derive(Clone, Copy, Debug, PartialEq, Eq)]
pub enum TransportDeed<'a> {
    /// Nothing that the layer above must do.
    Nothing,
    /// The peer calls with this user data; the callee is to accept.
    Called(&'a [u8]),
    /// The peer accepted with this user data; the connection is made.
    Confirmed(&'a [u8]),
    /// A whole message, 1 to 1,032 octets. It waits to be taken.
    Message(&'a [u8]),
    /// The peer disconnected with this user data.
    Disconnected(&'a [u8]),
    /// A TPDU was refused: the sub-reason of the release for reason 2, and the reason of the DR.
    Refused { sub: u8, dr_reason: u8 },
}

/// A message wasn't handed, since this many wait.
#[derive(Clone, Copy, Debug, PartialEq, Eq)]
pub struct Full {
    /// The number of messages that wait for their last segment to be given.
    pub waiting: usize,
}

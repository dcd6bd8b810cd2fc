/// What a side of a safe connection waits for (UNISIG SUBSET-037, peer entity authentication).
#[derive(Clone, Copy, Debug, PartialEq, Eq)]
pub enum SafeState {
    /// An initiator before its start.
    Ready,
    /// A responder before an AU1.
    WaitAu1,
    /// An initiator whose AU1 was sent.
    WaitAu2,
    /// A responder whose AU2 was sent.
    WaitAu3,
    /// An initiator whose AU3 was sent.
    WaitAr,
    /// Both sides have authenticated each other; messages may be sent.
    Connected,
    /// The connection has ended.
    Released,
}

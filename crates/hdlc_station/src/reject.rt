//! How a station asks for frames that were lost.

/// How a station asks for frames that were lost.
#[derive(Clone, Copy, Debug, PartialEq, Eq)]
pub enum Reject {
    /// By REJ: the peer goes back, and sends all frames from the one on that is missing.
    GoBack,
    /// By SREJ: the peer sends the missing frames alone, and those behind them are held.
    Selective,
}

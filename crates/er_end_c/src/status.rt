//! What calls answer: above 0 an answer of the protocol, below 0 a fault of the call.

/// All went well.
pub const OK: i32 = 0;
/// The end is released; nothing was sent.
pub const RELEASED: i32 = 1;
/// The safe connection doesn't stand yet; nothing was sent.
pub const NOT_CONNECTED: i32 = 2;
/// A message has 1 to 1,023 octets; nothing was sent.
pub const LENGTH: i32 = 3;
/// Sixteen messages wait; nothing was sent.
pub const FULL: i32 = 4;
/// No message waits, no tick is wanted, the end isn't released, or it isn't connected.
pub const NONE: i32 = 5;
/// The handle holds no end.
pub const CLOSED: i32 = -1;
/// The handle holds an end already.
pub const OPEN: i32 = -2;
/// The moment is above 10^15.
pub const MOMENT: i32 = -3;
/// An ETCS number is not below 2^24.
pub const NUMBER: i32 = -4;
/// A setting is out of its range.
pub const SETTING: i32 = -5;
/// The keys are refused.
pub const KEYS: i32 = -6;
/// Memory ran out.
pub const MEMORY: i32 = -7;
/// A start that is misused: the end was started before, or it answers.
pub const START: i32 = -8;

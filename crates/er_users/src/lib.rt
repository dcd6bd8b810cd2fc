//! Users of safe connections: who hears of a connection and its messages, and says texts in answer.
//!
//! This profile's own. What a user is, is plain data: its mind. One relation says, by the kind of the mind, what it says to
//! what it hears, and which mind it has then. Four kinds are here. A kind of a caller's own may say anything.
#![tactic(auto)]

mod boxed;
mod echo;
mod lister;
mod replies;
mod silent;
mod tally;
mod user;

pub use echo::Echo;
pub use lister::Lister;
pub use replies::{MOST_TEXT_OCTETS, MOST_TEXTS, Replies};
pub use silent::Silent;
pub use tally::Tally;
pub use user::SafeUser;

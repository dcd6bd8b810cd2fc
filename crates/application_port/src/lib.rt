//! The loop's side of its application: where the application's stream stands, and the octets that wait for it (this profile).
//!
//! It reads and writes nothing itself: octets that came are given to it, and what waits is lent to whoever writes.
#![tactic(auto)]

mod port;

pub use port::{MOST_WAITING, Port};

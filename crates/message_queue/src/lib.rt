//! Messages that wait, in slots that are reserved once. It knows no protocol.
#![tactic(auto)]

mod queue;
mod ring;
mod slot;

pub use queue::MessageQueue;

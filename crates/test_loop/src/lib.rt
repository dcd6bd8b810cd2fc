//! Days at a radio block centre, as tests: the readiness loop, its wires, users, ends and replay together (this profile).
//!
//! What each of them does is proved in its own crate. Here whole runs over wires in memory are played, with trains whose octets come
//! of real ends that call, and what no clause says is looked at: what a user hears and when it is let go, that a train's lines don't
//! depend on the trains beside it, and that a run's own text is replayed as it stands. In other runs a call to the wires fails by itself:
//! a listen, a turn, a read or a write, counted upwards until a run has no failure. Beside them what is no failure of a call but ends or
//! holds back a connection: a peer that closes in mid-frame, T1, one connection too many, no user that is left, a user that leaves, a
//! wire without room. The crate has no item but its tests.
#![tactic(auto)]

#[cfg(test)]
mod call_tests;
#[cfg(test)]
mod day_tests;
#[cfg(test)]
mod failing_day_tests;
#[cfg(test)]
mod lines;
#[cfg(test)]
mod peer_tests;
#[cfg(test)]
mod reply_tests;
#[cfg(test)]
mod script;
#[cfg(test)]
mod serving;
#[cfg(test)]
mod smallest_tests;
#[cfg(test)]
mod train;
#[cfg(test)]
mod user_tests;

//! Days of a loop with an application, as tests: the loop, its wires, its application and trains together (this profile).
//!
//! What the loop does is proved in its own crate. Here whole runs over wires in memory are played, with trains whose octets come of real ends that call, and
//! what is written to the application is compared with what it is to be told: before and behind what it says, where it is slow, where it goes and another one
//! comes, and where all is released. The crate has no item but its tests.
#![tactic(auto)]

#[cfg(test)]
mod attended;
#[cfg(test)]
mod call_tests;
#[cfg(test)]
mod day_tests;
#[cfg(test)]
mod running;
#[cfg(test)]
mod script;
#[cfg(test)]
mod slow_tests;
#[cfg(test)]
mod train;

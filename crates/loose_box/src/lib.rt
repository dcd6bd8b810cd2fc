//! A box taken apart, so that its pointer can be kept where no box can: in memory of a program in C.
#![tactic(auto)]

mod loose;

pub use loose::Loose;

//! What two sides of a safe connection say to each other, whatever lies between them: definitions and laws, no code.
#![tactic(auto)]

pub mod laws;

//! What one end of a link promises to whoever embeds it (this profile, over UNISIG SUBSET-037): of each of its calls, and of any calls one after the other.
//!
//! What a call does stands in the contracts of `er_end::End`, as one function of what the end keeps; the statements stand in `specs/`, in the words of what
//! calls answer, and `laws` proves them. Nothing here runs.
#![tactic(auto)]

pub mod laws;

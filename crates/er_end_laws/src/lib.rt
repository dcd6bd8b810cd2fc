//! What one end of a link sends as its last (this profile, over ITU-T X.224, UNISIG SUBSET-037 and ISO/IEC 13239): by what releases it, and only then,
//! in words that are not those of its steps.
//!
//! What an end does stands in `er_end_model/specs`, the statements in `specs/`; `laws` proves them. Nothing here runs.
#![tactic(auto)]

pub mod laws;

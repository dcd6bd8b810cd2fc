//! A station in asynchronous balanced mode (ISO/IEC 13239) of either kind, with go-back or with selective reject: what holds of one call
//! of it, and of a list of calls, in words that are not those of its rows.
//!
//! What a station does stands in `hdlc_station_model/specs`, the statements in `specs/`, one file a subject; `laws` proves them. Nothing
//! here runs.
#![tactic(auto)]

pub mod laws;

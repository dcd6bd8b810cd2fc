//! The readiness loop: one loop over the sessions of many connections (this profile).
//!
//! [`serve`] listens, and answers each connection with a session of its own. [`dial`] opens one connection and calls. Before each turn come
//! the ticks and the closings that are due, then the turn, then what happened is handled whole. One loop owns all sessions: there is no
//! lock and no thread. The definitions stand in `loop_model`.
#![tactic(auto)]

mod book;
mod dialling;
mod line_plan;
mod live_loop;
mod loop_plan;
mod opening;
mod serving;
mod wake_times;

pub use book::MOST_LIVE;
pub use dialling::dial;
pub use line_plan::{LinePlan, LoopStop, Served};
pub use loop_session::LoopFault;
pub use serving::serve;

//! The ends of the links of a drill, by their level, and what each tells of an event.
#![tactic(auto)]

mod drill_end;
mod end_event;
mod finder;
pub mod laws;
mod payload;
mod refusal;
mod safe_end;
mod send_counts;
mod stack_end;
mod stack_telling;
mod station_end;
mod station_plan;
mod telling;
mod telling_station;
mod told;

pub use drill_end::DrillEnd;
pub use end_event::EndEvent;
pub use finder::OneKey;
pub use refusal::Refusal;
pub use send_counts::sent_at;
pub use station_end::StationEnd;
pub use station_plan::StationPlan;
pub use told::Told;

//! The loop of `serve` and `call` whose sessions have one application beside as their user (this profile).
//!
//! [`serve_application`] listens and answers, [`call_application`] opens one connection and calls. In the wires the application is connection 0. What is done
//! where something comes is defined in `application_model`: behind each event the messages that wait are taken, where the application is there and has room.
#![tactic(auto)]

mod agenda;
mod desk;
mod due;
mod flow;
mod key_answers;
pub mod laws;
mod link;
mod links;
mod live_service;
mod opening;
mod plan;
mod requests;
mod service;
mod service_keys;
mod settling;
mod speaker;

pub use loop_session::LoopFault;
pub use plan::{ServiceEnd, ServicePlan};
pub use service::{call_application, serve_application};

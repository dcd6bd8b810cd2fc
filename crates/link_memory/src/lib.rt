//! The objects of the outside that live in memory: a cabinet, a sink, a clock and wires.
//!
//! This profile's own. Each tells all that it holds, and answers as it was told to: it fails at the calls that are listed
//! to fail, the clock answers its list of moments, and the wires do a script of acts and record each call. So a whole run
//! can be proved and tested over them. Their memory is reserved once, or want of it is answered.
#![tactic(auto)]

mod act;
mod call_record;
mod memory_cabinet;
mod memory_clock;
mod memory_line;
mod memory_sink;
mod memory_wires;
mod planned_calls;

pub use act::Act;
pub use memory_cabinet::MemoryCabinet;
pub use memory_clock::MemoryClock;
pub use memory_sink::MemorySink;
pub use memory_wires::MemoryWires;

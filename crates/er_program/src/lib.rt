//! The program's top call: what its words ask for, done over the outside objects that it is handed.
//!
//! Words name a command and its files; the outside is a cabinet of files and a sink of octets. Nothing is done here but
//! the order of things: the layers below read, run and print.
#![tactic(auto)]

mod audit;
mod bits;
mod bulk;
mod check;
mod command;
mod drill;
mod endings;
mod file_cabinet;
mod file_command;
mod halt;
mod keyed;
mod message_count;
mod migrate;
mod off_line;
mod relay;
mod replay;
mod stdout_sink;
mod top;
mod work;

pub use command::{Command, command_from, etcs_number, turns_number};
pub use er_serving::{LineCommand, MachineClock};
pub use er_statuses::Status;
pub use er_statuses::acting::out_of_memory;
pub use file_cabinet::{FileCabinet, FileFault, MOST_FILE_OCTETS};
pub use file_command::{FileCommand, KeyedCommand, PlainCommand};
pub use link_trait::{Cabinet, Clock, Failed, FetchFault, Sink, Wires};
pub use message_count::MessageCount;
pub use relay::{RelayCommand, relay_from, relay_run};
pub use stdout_sink::StdoutSink;
pub use top::{run, run_off_line};
pub use work::Work;

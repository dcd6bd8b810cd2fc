//! The lines between the loop and an application, a program beside that is the user of each session (this profile): those to the application are
//! printed, and the octets that come from it are read into its lines, however they are cut.
//!
//! Nothing is read or written here, and what a line does to a connection is no matter of the grammar.
#![tactic(auto)]

mod application_line;
mod arguments;
mod first_piece;
pub mod laws;
mod line_reader;
mod notice;
mod printer;
mod request;
mod request_name;
mod requests;
mod whys;

pub use application_line::ApplicationLine;
pub use line_reader::{LineReader, TakenLine};
pub use notice::{Notice, Refusal};
pub use printer::print_notice;
pub use request::Request;

//! What every layer of the stack uses: octets and room for them, a cursor over octets, the words, decimal numbers and
//! hexadecimal octets of this profile's texts, the two sides of a link, moments and ETCS numbers, the causes of a release and their
//! reasons, and want of memory.
//!
//! It knows no protocol. Numbers of several octets have the most significant octet first, as ITU-T X.224 and SUBSET-037
//! write them.
#![tactic(auto)]

mod arguments;
mod cause;
mod cursor;
mod digits;
mod etcs_number;
mod hexadecimal;
pub mod laws;
mod line_fault;
mod line_writer;
mod lines;
mod moment;
mod no_memory;
mod number_octets;
mod numbers;
mod octets;
mod release;
mod room;
mod side;
mod text_fault;
mod why;
mod words;

pub use arguments::{read_exact, read_number, read_number16, read_side, read_text};
pub use cause::Cause;
pub use cursor::Cursor;
pub use etcs_number::{EtcsNumber, MOST_ETCS_NUMBER};
pub use hexadecimal::{HexFault, hex_word, octets_of};
pub use line_fault::LineFault;
pub use line_writer::{PrintedWord, put_line};
pub use lines::{LineWords, next_row};
pub use moment::{MOST_MOMENT, Moment};
pub use no_memory::NoMemory;
pub use number_octets::{eight_of, number_of, three_of, two_of};
pub use numbers::{decimal, decimal_word};
pub use octets::Octets;
pub use release::Release;
pub use room::Room;
pub use side::Side;
pub use text_fault::TextFault;
pub use why::Why;
pub use words::next_word;

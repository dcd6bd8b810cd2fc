//! What the program tells people, on the standard error: why a file or words are refused, and what a server does.
//!
//! This profile's own. Nothing that is told is a key, a message or a random number. Nothing is claimed of its words: what is
//! claimed of a run stands on the standard output, and what a line of counts has is counted elsewhere.
#![tactic(auto)]

mod drill_words;
mod file_kind;
mod held;
mod hints;
mod key_faults;
mod last_line;
mod line_words;
mod refusals;
mod script_words;
mod sentence;
mod shown;
mod table;
mod tap_words;
mod trace_words;
mod wanted;
mod watch;

pub use file_kind::FileKind;
pub use held::{KeysHeld, keys_held};
pub use hints::key_hints;
pub use key_faults::keys_refused;
pub use last_line::LastLine;
pub use refusals::{file_refused, overfull, recording_differs};
pub use shown::{put_octets, put_text};
pub use watch::{Watch, counts_line, side};

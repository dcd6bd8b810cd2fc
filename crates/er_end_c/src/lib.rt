//! One end of a link for programs in C: a static library over er_end, as `euroradio.h` declares it.
//!
//! A program in C holds a handle, [`CEnd`], in its own memory; what it owns, an end and its keys, lies in a box whose pointer the handle keeps.
//! Each call takes the box out, does one thing and puts it back, so that no reference is made of a pointer. The library has no state.
#![tactic(auto)]

mod events;
mod face;
mod fault;
mod handle;
mod held;
mod key_fault;
mod keys;
pub mod laws;
mod makers;
mod reads;
mod slot;
mod status;

pub use events::{
    euroradio_ended, euroradio_fault, euroradio_octets, euroradio_release, euroradio_send,
    euroradio_stalled, euroradio_start, euroradio_take, euroradio_tick,
};
pub use face::{CCounts, CDeeds, CKey, CKeyFault, CSettings};
pub use handle::CEnd;
pub use keys::{euroradio_key_file, euroradio_kmac};
pub use makers::{euroradio_answer, euroradio_answer_keys, euroradio_call, euroradio_end_free};
pub use reads::{
    euroradio_accepted, euroradio_connected, euroradio_counted, euroradio_deadline, euroradio_out,
    euroradio_reason, euroradio_released, euroradio_taken, euroradio_unsent, euroradio_version,
    euroradio_waiting,
};

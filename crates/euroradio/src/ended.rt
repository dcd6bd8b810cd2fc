//! How a run ended.

use er_program::{FileFault, Status};
use mio_wires::WireFault;

/// How a run ended: its status, and why a file or the wires failed, where they did.
#[derive(Clone, Copy)]
pub(crate) struct Ended {
    pub(crate) status: Status,
    pub(crate) file: Option<FileFault>,
    pub(crate) wires: Option<WireFault>,
    // Whether it was the socket of an application that couldn't be listened at.
    pub(crate) has_no_socket: bool,
}

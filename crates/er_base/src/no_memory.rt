//! Want of memory as an error.

ghost use Rattle.std.specs.Prelude.{◌≡◌, ◌↔◌, IsSome};
ghost use Rattle.std.specs.IoError.{error_kind};

use std::alloc::{AllocError, AllocFailed};
use std::io;
use std::io::ErrorKind;

/// Want of memory: the one answer that no clause ties to a cause.
///
/// A value of it is a witness: only the conversions here make one, of the refusal of an allocation or of the system's
/// own error of that kind. Code above passes on what it got, by `?`.
#[derive(Clone, Copy, Debug, PartialEq, Eq)]
pub struct NoMemory(());

impl NoMemory {
    /// The want of memory that an error of the system tells; None exactly where the error is of another kind.
    pub fn of_system(error: &io::Error) -> Option<NoMemory>
        ensures { IsSome result ↔ (error_kind error.now ≡ ErrorKind.OutOfMemory) }
    {
        match error.kind() {
            ErrorKind::OutOfMemory => Some(NoMemory(())),
            _ => None,
        }
    }
}

impl From<AllocError> for NoMemory {
    fn from(_fault: AllocError) -> NoMemory {
        NoMemory(())
    }
}

impl<T: Drop> From<AllocFailed<T>> for NoMemory {
    fn from(_fault: AllocFailed<T>) -> NoMemory {
        NoMemory(())
    }
}

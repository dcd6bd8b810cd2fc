//! Want of memory that the reader or the printer of TOML met. They tell it by errors of their own, without the
//! allocator's; here alone it becomes `NoMemory`, by way of the system's error of that kind.

ghost use Rattle.std.specs.Prelude.{◌≡◌, ◌≢◌, ◌↔◌, IsSome};
ghost use Rattle.toml.specs.Errors.{IsMemory};
ghost use Rattle.toml.specs.declared.ser.error.Error.TheVariants.{DateInvalid};

use er_base::NoMemory;
use std::io;
use std::io::ErrorKind;

// Want of memory, as the system tells it.
fn want() -> Option<NoMemory>
    ensures { IsSome result }
{
    NoMemory::of_system(&io::Error::from(ErrorKind::OutOfMemory))
}

/// The want of memory that an error of reading tells; None exactly where it tells another fault.
pub fn want_of_reading(error: &toml::de::Error) -> Option<NoMemory>
    ensures { IsSome result ↔ IsMemory error.now }
{
    if error.is_memory() {
        return want();
    }
    None
}

/// The want of memory that an error of printing tells, which isn't that of a date.
pub fn want_of_printing(error: &toml::ser::Error) -> NoMemory
    requires { error.now ≢ DateInvalid }
{
    want().unwrap()
}

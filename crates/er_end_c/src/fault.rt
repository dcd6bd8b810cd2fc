//! Why no end is made.

ghost use Rattle.std.specs.Prelude.{◌≡◌};
ghost use Rattle.er_end_c.specs.Makings.{fault_status};

use crate::status;

/// Why no end is made.
#[derive(Clone, Copy, Debug, PartialEq, Eq)]
pub enum Fault {
    /// The handle holds an end already.
    Open,
    /// The moment is above 10^15.
    Moment,
    /// An ETCS number is not below 2^24.
    Number,
    /// A setting is out of its range.
    Setting,
    /// The keys are refused.
    Keys,
    /// Memory ran out.
    Memory,
}

impl Fault {
    /// Its status.
    pub fn status(self) -> i32
        ensures { result ≡ fault_status self }
    {
        match self {
            Fault::Open => status::OPEN,
            Fault::Moment => status::MOMENT,
            Fault::Number => status::NUMBER,
            Fault::Setting => status::SETTING,
            Fault::Keys => status::KEYS,
            Fault::Memory => status::MEMORY,
        }
    }
}

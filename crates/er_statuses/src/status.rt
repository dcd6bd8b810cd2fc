/// With what the program ends: 0 where all was done, else the number of the cause.
#[derive(Clone, Copy, Debug, PartialEq, Eq)]
pub struct Status(pub u8);

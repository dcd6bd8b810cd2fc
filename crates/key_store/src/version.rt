/// The version of a key file's form.
#[derive(Clone, Copy, Debug, PartialEq, Eq)]
pub enum Version {
    /// Without moments: an entry holds always.
    One,
    /// With a first and a last moment.
    Two,
}

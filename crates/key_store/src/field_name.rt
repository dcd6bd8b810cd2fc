//! The names of an entry's fields in a key file.

ghost use Rattle.std.specs.Prelude.{◌≡◌};
ghost use Rattle.key_store.specs.Fields.{field_word};

/// A field of a key file.
#[derive(Clone, Copy, Debug, PartialEq, Eq)]
pub enum FieldName {
    /// The version of the file's form.
    Version,
    /// The list of entries.
    Key,
    /// The ETCS number of an entry's engine.
    Engine,
    /// The ETCS number of its radio block centre.
    Rbc,
    /// Its KMAC.
    Kmac,
    /// Its first moment.
    From,
    /// Its last moment.
    To,
}

impl FieldName {
    /// The field's word in a key file.
    pub fn word(self) -> &'static str
        ensures { result.now ≡ field_word self }
    {
        match self {
            FieldName::Version => "version",
            FieldName::Key => "key",
            FieldName::Engine => "engine",
            FieldName::Rbc => "rbc",
            FieldName::Kmac => "kmac",
            FieldName::From => "from",
            FieldName::To => "to",
        }
    }
}

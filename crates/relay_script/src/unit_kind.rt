//! The kinds of units that a script can name.

ghost use Rattle.std.specs.Prelude.{◌≡◌, ◌<◌};
ghost use Rattle.relay_script.specs.Kinds.{unit_kind_word, kind_named, kind_place};

/// The kinds of units that a line can name. A unit may be of several.
#[derive(Clone, Copy, Debug, PartialEq, Eq)]
pub enum UnitKind {
    /// `any`: each unit.
    Any,
    /// `bad`: no frame.
    Bad,
    /// `i`: an I frame.
    Info,
    /// `rr`: receive ready.
    Rr,
    /// `rnr`: receive not ready.
    Rnr,
    /// `rej`: reject.
    Rej,
    /// `srej`: selective reject.
    Srej,
    /// `sabm`: set asynchronous balanced mode.
    Sabm,
    /// `ua`: unnumbered acknowledgement.
    Ua,
    /// `disc`: disconnect.
    Disc,
    /// `dm`: disconnected mode.
    Dm,
    /// `frmr`: frame reject.
    Frmr,
    /// `other`: a frame of any other control at modulo 8.
    Other,
    /// `cr`: an I frame with a connection request.
    Cr,
    /// `cc`: an I frame with a connection confirm.
    Cc,
    /// `dr`: an I frame with a disconnect request.
    Dr,
    /// `dc`: an I frame with a disconnect confirm.
    Dc,
    /// `dt`: an I frame with data.
    Dt,
    /// `ak`: an I frame with a data acknowledgement.
    Ak,
    /// `er`: an I frame with a TPDU error.
    Er,
}

/// How many kinds there are.
pub const KIND_COUNT: usize = 20;

const ALL_KINDS: [UnitKind; KIND_COUNT] = [
    UnitKind::Any,
    UnitKind::Bad,
    UnitKind::Info,
    UnitKind::Rr,
    UnitKind::Rnr,
    UnitKind::Rej,
    UnitKind::Srej,
    UnitKind::Sabm,
    UnitKind::Ua,
    UnitKind::Disc,
    UnitKind::Dm,
    UnitKind::Frmr,
    UnitKind::Other,
    UnitKind::Cr,
    UnitKind::Cc,
    UnitKind::Dr,
    UnitKind::Dc,
    UnitKind::Dt,
    UnitKind::Ak,
    UnitKind::Er,
];

impl UnitKind {
    /// The word of the kind.
    pub fn word(self) -> &'static [u8]
        ensures { result.now ≡ unit_kind_word self }
    {
        match self {
            UnitKind::Any => b"any",
            UnitKind::Bad => b"bad",
            UnitKind::Info => b"i",
            UnitKind::Rr => b"rr",
            UnitKind::Rnr => b"rnr",
            UnitKind::Rej => b"rej",
            UnitKind::Srej => b"srej",
            UnitKind::Sabm => b"sabm",
            UnitKind::Ua => b"ua",
            UnitKind::Disc => b"disc",
            UnitKind::Dm => b"dm",
            UnitKind::Frmr => b"frmr",
            UnitKind::Other => b"other",
            UnitKind::Cr => b"cr",
            UnitKind::Cc => b"cc",
            UnitKind::Dr => b"dr",
            UnitKind::Dc => b"dc",
            UnitKind::Dt => b"dt",
            UnitKind::Ak => b"ak",
            UnitKind::Er => b"er",
        }
    }

    /// The kind that a word names, or None where it names none.
    pub fn named(word: &[u8]) -> Option<UnitKind>
        ensures { result ≡ kind_named word.now }
    {
        ALL_KINDS.iter().copied().find(|kind| word == kind.word())
    }

    /// The place of the kind among all kinds, from 0.
    pub fn place(self) -> usize
        ensures place { result ≡ kind_place self }
        ensures within { result < 20 }
    {
        match self {
            UnitKind::Any => 0,
            UnitKind::Bad => 1,
            UnitKind::Info => 2,
            UnitKind::Rr => 3,
            UnitKind::Rnr => 4,
            UnitKind::Rej => 5,
            UnitKind::Srej => 6,
            UnitKind::Sabm => 7,
            UnitKind::Ua => 8,
            UnitKind::Disc => 9,
            UnitKind::Dm => 10,
            UnitKind::Frmr => 11,
            UnitKind::Other => 12,
            UnitKind::Cr => 13,
            UnitKind::Cc => 14,
            UnitKind::Dr => 15,
            UnitKind::Dc => 16,
            UnitKind::Dt => 17,
            UnitKind::Ak => 18,
            UnitKind::Er => 19,
        }
    }
}

/// Why a connection ended: a reason and a sub-reason, and whether the peer's SaPDU DI carried them.
#[derive(Clone, Copy, Debug, PartialEq, Eq)]
pub struct Release {
    /// The reason, as in a DI of SUBSET-037.
    pub reason: u8,
    /// The sub-reason, as in a DI of SUBSET-037.
    pub sub: u8,
    /// True where the peer released, false where this end did.
    pub by_peer: bool,
}

impl Release {
    ghost use Rattle.std.specs.Prelude.{◌≡◌};
    ghost use Rattle.er_base.specs.Causes.{by_peer_di};
    ghost use Rattle.er_base.specs.ReasonWords.{reason_words};

    /// The release that the peer's DI with this reason and sub-reason makes.
    pub fn by_peer_di(reason: u8, sub: u8) -> Release
        ensures { result ≡ by_peer_di reason sub }
    {
        Release {
            reason,
            sub,
            by_peer: true,
        }
    }

    /// What the reason and sub-reason mean, in words for people, whoever released. A peer's DI may have any two octets: those
    /// that no end of this profile sends are told as such.
    pub fn words(self) -> &'static str
        ensures { result.now ≡ reason_words self.reason self.sub }
    {
        match (self.reason, self.sub) {
            (0, _) => "released by the user",
            (1, 1) => "the set-up of the link was not answered",
            (1, 2) => "no progress on the link: T1 expired too often in a row",
            (1, 3) => "a frame that the link may not get",
            (1, 4) => "the link was disconnected: DISC, DM or FRMR",
            (1, 5) => "the line ended",
            (1, 6) => "the line failed",
            (1, 7) => "the line stalled: too much waited to be sent",
            (2, 1) => "a DR without the DI of its sender",
            (2, 2) => "a TPDU that is faulty or may not come now",
            (2, 3) => "a message above 1,032 octets",
            (2, 4) => "a faulty network block",
            (3, 1) => "no key of this engine holds at the radio block centre",
            (3, 2) => "the MAC of AU2 is wrong: the keys of both ends differ",
            (3, 3) => "the MAC of AU3 is wrong",
            (3, 4) => "the MAC of AR is wrong",
            (3, 5) => "another radio block centre answered than was called",
            (3, 6) => "the safety feature is unknown",
            (4, 1) => "the MAC of a DT is wrong",
            (4, 2) => "a SaPDU with the direction flag of its receiver",
            (5, 1) => "a SaPDU that is not expected now",
            (5, 2) => "octets that are no SaPDU",
            (6, 1) => "the time for the set-up was spent",
            _ => "a reason that this profile does not have",
        }
    }
}

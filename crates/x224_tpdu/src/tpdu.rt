/// A TPDU. Each has the destination reference `dst`, and CR, CC and DR the source reference `src`
/// too. User octets are lent.
#[derive(Clone, Copy, Debug, PartialEq, Eq)]
pub enum Tpdu<'a> {
    /// Connection request: the credit, 0 to 15, the proposed size of a TPDU in octets, a power of two
    /// from 128 to 8,192, and up to 32 octets of user data.
    Cr {
        credit: u8,
        dst: u16,
        src: u16,
        size: u16,
        user: &'a [u8],
    },
    /// Connection confirm, with the fields of a request.
    Cc {
        credit: u8,
        dst: u16,
        src: u16,
        size: u16,
        user: &'a [u8],
    },
    /// Disconnect request: the reason, and up to 64 octets of user data.
    Dr {
        dst: u16,
        src: u16,
        reason: u8,
        user: &'a [u8],
    },
    /// Disconnect confirm.
    Dc {
        dst: u16,
        src: u16,
    },
    /// Data: whether it is the last one of a message (EOT), its number, 0 to 127, and 1 to 1,019 user
    /// octets.
    Dt {
        dst: u16,
        last: bool,
        number: u8,
        user: &'a [u8],
    },
    /// Acknowledgement: the credit, 0 to 15, and the number of the DT that is expected next, 0 to 127.
    Ak {
        credit: u8,
        dst: u16,
        number: u8,
    },
    /// Error: the cause of a rejection.
    Er {
        dst: u16,
        cause: u8,
    },
}

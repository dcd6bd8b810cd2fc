/// What the line does to the frames of an end that wait.
#[derive(Clone, Copy)]
pub enum LineChange<'a> {
    /// The first frame is removed.
    Lose,
    /// A copy of the first frame is put right behind it.
    Repeat,
    /// An octet of the first frame is changed by exclusive or.
    Alter {
        /// The octet's place, from 0.
        place: u64,
        /// What the octet is joined with by exclusive or.
        mask: u8,
    },
    /// These octets become the first frame.
    Put(&'a [u8]),
}

/// What is done at an end of a link.
#[derive(Clone, Copy)]
pub enum Action<'a> {
    /// Its user sends octets.
    Send(&'a [u8]),
    /// Its first waiting frame is given to the other end.
    Pass,
    /// The line changes what waits of it.
    Change(LineChange<'a>),
    /// Its user takes a message.
    Take,
    /// Its user releases, with this sub-reason.
    Release(u8),
}

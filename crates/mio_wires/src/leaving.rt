//! A connection that leaves.

// Its slot, and the moment at which it has to be gone.
#[derive(Clone, Copy)]
pub struct Leaving {
    pub slot: usize,
    pub until: u64,
}

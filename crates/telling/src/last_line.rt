//! A sink that keeps the last line of a run that failed.

use arrayvec::ArrayVec;
use link_trait::{Failed, Sink};

// The most octets of a last line that are kept; only names of files are longer.
const MOST_KEPT: usize = 256;

/// Another sink, and beside it the newest piece that it took which begins with `!`. It gives and answers what that sink does.
#[derive(Drop)]
pub struct LastLine<K: Sink + Drop> {
    sink: K,
    line: ArrayVec<u8, MOST_KEPT>,
}

impl<K: Sink + Drop> LastLine<K> {
    /// No such piece came yet.
    pub fn new(sink: K) -> LastLine<K> {
        LastLine {
            sink,
            line: ArrayVec::new(),
        }
    }

    /// The newest piece that begins with `!`, its first 256 octets; empty where none came.
    pub fn line(&self) -> &[u8] {
        self.line.as_slice()
    }
}

impl<K: Sink + Drop> Sink for LastLine<K> {
    ghost state = { λ s. K.state s.sink };

    fn write(&mut self, piece: &[u8]) -> Result<(), Failed> {
        if piece.first() == Some(&b'!') {
            self.line.clear();
            let kept = piece.get(..piece.len().min(MOST_KEPT)).unwrap_or(&[]);
            let _room = self.line.try_extend_from_slice(kept);
        }
        self.sink.write(piece)
    }
}

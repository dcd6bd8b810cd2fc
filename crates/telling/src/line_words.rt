//! The words of one line.

use arrayvec::ArrayVec;
use er_base::next_word;

// The most words of a line that are looked at: no line has more than nine.
const MOST_WORDS: usize = 12;

/// The first twelve words of a line.
#[derive(Drop)]
pub(crate) struct LineWords<'a> {
    words: ArrayVec<&'a [u8], MOST_WORDS>,
}

impl<'a> LineWords<'a> {
    /// Of a line with or without its LF.
    pub(crate) fn of(line: &'a [u8]) -> LineWords<'a> {
        let mut words = ArrayVec::new();
        let mut rest = without_line_feed(line);
        for _ in 0..MOST_WORDS {
            let Some((word, behind)) = next_word(rest) else {
                break;
            };
            let _room = words.try_push(word);
            rest = behind;
        }
        LineWords { words }
    }

    /// The word at this place, from 0; empty where there is none.
    pub(crate) fn at(&self, place: usize) -> &'a [u8] {
        match self.words.get(place) {
            Some(word) => *word,
            None => b"",
        }
    }

    /// All of them.
    pub(crate) fn all(&self) -> &[&'a [u8]] {
        self.words.as_slice()
    }
}

/// The word of a line at this place, as far as the first twelve.
pub(crate) fn word_at(line: &[u8], place: usize) -> &[u8] {
    LineWords::of(line).at(place)
}

fn without_line_feed(line: &[u8]) -> &[u8] {
    match line {
        [before @ .., b'\n'] => before,
        _ => line,
    }
}

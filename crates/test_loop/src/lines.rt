//! What a run printed of one connection.

use er_base::{NoMemory, next_word};
use std::alloc::Global;

// The mark of a line, the number of its connection, and what it says. None for the header.
fn parts(line: &[u8]) -> Option<(&[u8], &[u8], &[u8])> {
    let (mark, behind) = next_word(line)?;
    let numbered = if mark == b">".as_slice() {
        next_word(behind)?.1
    } else if mark == b"<".as_slice() {
        behind
    } else {
        return None;
    };
    let (number, said) = next_word(numbered)?;
    Some((mark, number, said))
}

/// The lines of one connection, without its number, and without the moments of its events.
pub(crate) fn lines_of(alloc: Global, text: &[u8], conn: &[u8]) -> Result<Vec<u8>, NoMemory> {
    let mut lines = Vec::new(alloc);
    for line in text.split(|octet| *octet == b'\n') {
        if let Some((mark, number, said)) = parts(line) {
            if number == conn {
                lines.extend_from_slice(mark)?;
                lines.extend_from_slice(said)?;
                lines.push(b'\n')?;
            }
        }
    }
    Ok(lines)
}

/// How many lines begin so.
pub(crate) fn count_of(lines: &[u8], beginning: &[u8]) -> usize {
    let mut count: usize = 0;
    for line in lines.split(|octet| *octet == b'\n') {
        if line.starts_with(beginning) {
            count = count.saturating_add(1);
        }
    }
    count
}

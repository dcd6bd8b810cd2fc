//! Words of files and names, as they are shown: control characters are escaped, and long ones are cut.

use er_base::NoMemory;
use std::fmt::Write;
use std::str;

// The most characters of a word or a name that are shown.
const MOST_SHOWN: usize = 200;

/// Appends a text: letters, digits and what ASCII prints as they are, every other character by its number. Behind 200
/// characters stands `..`.
pub fn put_text(line: &mut String, text: &str) -> Result<(), NoMemory> {
    for (count, character) in text.chars().enumerate() {
        if count >= MOST_SHOWN {
            line.push_str("..")?;
            return Ok(());
        }
        if character.is_ascii_graphic() || character == ' ' || character.is_alphanumeric() {
            line.push(character)?;
        } else {
            let number = u32::from(character);
            write!(line, "\\u{{{number:x}}}")?;
        }
    }
    Ok(())
}

/// Appends octets as text where they are text of UTF-8, and else what ASCII prints as it is and every other octet as `\xNN`.
pub fn put_octets(line: &mut String, octets: &[u8]) -> Result<(), NoMemory> {
    if let Ok(text) = str::from_utf8(octets) {
        return put_text(line, text);
    }
    for (count, octet) in octets.iter().copied().enumerate() {
        if count >= MOST_SHOWN {
            line.push_str("..")?;
            return Ok(());
        }
        if octet.is_ascii_graphic() || octet == b' ' {
            line.push(char::from(octet))?;
        } else {
            write!(line, "\\x{octet:02x}")?;
        }
    }
    Ok(())
}

// The most digits of a hexadecimal word that are shown whole, and how many are shown of a longer one: it may be a key.
const MOST_DIGITS: usize = 8;

const FIRST_DIGITS: usize = 4;

/// Appends a word of a file in quotation marks; of a long hexadecimal one the beginning, and how many digits it has.
pub(crate) fn put_quoted(line: &mut String, word: &[u8]) -> Result<(), NoMemory> {
    line.push('\'')?;
    if word.len() > MOST_DIGITS && word.iter().all(|octet| octet.is_ascii_hexdigit()) {
        put_octets(line, word.get(..FIRST_DIGITS).unwrap_or(b""))?;
        let count = word.len();
        write!(line, "..' of {count} digits")?;
        return Ok(());
    }
    put_octets(line, word)?;
    line.push('\'')?;
    Ok(())
}

//! The header of a drill file.

ghost use Rattle.std.specs.Prelude.{◌≡◌, map};
ghost use Rattle.er_scenario.specs.Files.{level_of};

use crate::level::Level;

/// The level that the words of a header name, or None where they are no header.
pub fn header_level(words: &[&[u8]]) -> Option<Level>
    ensures { result ≡ level_of (map (λ w. w.now) words.now) }
{
    let [drill, version, level] = words else {
        return None;
    };
    if *drill == b"drill".as_slice() && *version == b"1".as_slice() {
        Level::named(level)
    } else {
        None
    }
}

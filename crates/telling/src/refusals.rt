//! Why a file is refused, from the last line that is printed and the line of the file.

use crate::drill_words::{drill_words, levels, setting_values};
use crate::file_kind::FileKind;
use crate::line_words::{LineWords, word_at};
use crate::script_words::script_words;
use crate::sentence::{NOTHING, Piece, Sentence, put_sentence};
use crate::shown::put_text;
use crate::table::texts_of;
use crate::tap_words::tap_words;
use crate::trace_words::{EVENTS, OUTCOMES, REFUSALS, event_words, outcome_words, refusal_words};
use crate::wanted::{Behind, Wanted};
use er_base::{NoMemory, decimal};
use std::alloc::Global;
use std::fmt::Write;

// What UTF-8 texts of some editors begin with.
const BYTE_ORDER_MARK: &[u8] = b"\xef\xbb\xbf";

/// Why a file of this kind is refused: its name, the line, the word where there is one, and what is wanted. `last` is the
/// last line that was printed, `! line LINE WHY`, and `text` the file, where it can be read again.
pub fn file_refused(
    alloc: Global,
    kind: FileKind,
    name: &str,
    last: &[u8],
    text: Option<&[u8]>,
) -> Result<String, NoMemory> {
    let mut line = String::new(alloc);
    put_text(&mut line, name)?;
    let told = LineWords::of(last);
    let number = decimal(told.at(2)).unwrap_or(0);
    if number == 0 {
        line.push_str(": it has more than 16777216 octets")?;
        return Ok(line);
    }
    write!(line, ": line {number}: ")?;
    let octets = line_at(text.unwrap_or(b""), number);
    let words = LineWords::of(octets);
    put_sentence(&mut line, &sentence(kind, told.at(3), &words))?;
    for hint in hints(octets, &words) {
        line.push_str(hint)?;
    }
    Ok(line)
}

/// Why a drill or a bulk run is broken off where too many frames wait: `last` is `! overfull N S 4096`.
pub fn overfull(alloc: Global, name: &str, last: &[u8]) -> Result<String, NoMemory> {
    let mut line = String::new(alloc);
    put_text(&mut line, name)?;
    let sentence = [
        Piece::Text(": a frame would be the 4097th that waits on link "),
        Piece::Plain(word_at(last, 2)),
        Piece::Text(" of what "),
        Piece::Plain(word_at(last, 3)),
        Piece::Text(" sent"),
    ];
    put_sentence(&mut line, &sentence)?;
    Ok(line)
}

/// In what a recording isn't what its replay prints: `last` is `! line LINE WHY`.
pub fn recording_differs(alloc: Global, name: &str, last: &[u8]) -> Result<String, NoMemory> {
    let mut line = String::new(alloc);
    put_text(&mut line, name)?;
    let sentence = [
        Piece::Text(": line "),
        Piece::Plain(word_at(last, 2)),
        Piece::Text(": "),
        Piece::Text(difference(word_at(last, 3))),
        NOTHING,
    ];
    put_sentence(&mut line, &sentence)?;
    Ok(line)
}

// What is wrong at the line of a recording.
fn difference(why: &[u8]) -> &'static str {
    match why {
        b"differs" => "a replay prints another line there, or none",
        b"cut" => "no LF ends it, and it wasn't read: the recording is cut",
        _ => "it isn't there, and a replay prints one",
    }
}

// The line of a file with this number, from 1.
fn line_at(text: &[u8], number: u64) -> &[u8] {
    let place = usize::try_from(number).unwrap_or(0).saturating_sub(1);
    text.split(|octet| *octet == b'\n')
        .nth(place)
        .unwrap_or(b"")
}

// What an editor may have done to the line.
fn hints(octets: &[u8], words: &LineWords<'_>) -> [&'static str; 4] {
    [
        if octets.starts_with(BYTE_ORDER_MARK) {
            "; the line begins with a byte order mark"
        } else {
            ""
        },
        if octets.last() == Some(&b'\r') {
            "; the line ends with CR LF, where LF alone is wanted"
        } else {
            ""
        },
        if octets.contains(&b'\t') {
            "; the line has a tab, and words are parted by spaces"
        } else {
            ""
        },
        if words.all().iter().any(|word| word.starts_with(b"#")) {
            "; a comment has a line of its own"
        } else {
            ""
        },
    ]
}

fn sentence<'a>(kind: FileKind, why: &[u8], words: &LineWords<'a>) -> Sentence<'a> {
    match why {
        b"header" => [
            Piece::Text("no header: "),
            Piece::Text(kind.header()),
            NOTHING,
            NOTHING,
            NOTHING,
        ],
        b"word" => unknown_word(kind, words),
        b"count" => count(kind, words),
        b"level" => [
            Piece::Quoted(words.at(0)),
            Piece::Text(" is a line of "),
            Piece::Text(levels(words.at(0))),
            Piece::Text(", and this drill has another level"),
            NOTHING,
        ],
        b"late" => [
            Piece::Text("a 'set' stands before all other lines but the header"),
            NOTHING,
            NOTHING,
            NOTHING,
            NOTHING,
        ],
        b"number" | b"hex" | b"value" => argument(kind, words),
        _ => not_done(kind, why, words),
    }
}

// A word that isn't known in its place.
fn unknown_word<'a>(kind: FileKind, words: &LineWords<'a>) -> Sentence<'a> {
    let (place, thing, known) = if kind != FileKind::Trace {
        (0, " begins no line; lines begin with ", kind.beginnings())
    } else if words.at(0) == b">".as_slice() {
        (3, " is no event; events are ", EVENTS)
    } else if words.at(0) != b"<".as_slice() {
        (0, " begins no line; lines begin with ", kind.beginnings())
    } else if words.at(2) == b"refused".as_slice() {
        (3, " is no refusal; refusals are ", REFUSALS)
    } else if words.at(2) == b"released".as_slice() {
        (5, " doesn't say who released: ", "local or peer")
    } else {
        (2, " is no outcome; outcomes are ", OUTCOMES)
    };
    [
        Piece::Quoted(words.at(place)),
        Piece::Text(thing),
        Piece::Text(known),
        NOTHING,
        NOTHING,
    ]
}

// The place of the word that says what a line says, and what is to stand behind it, spelled and word by word.
#[derive(Clone, Copy)]
struct Shape {
    place: usize,
    spelled: &'static str,
    wanted: &'static [Wanted],
}

fn shape_at(place: usize, found: Option<Behind>) -> Option<Shape> {
    let (spelled, wanted) = found?;
    Some(Shape {
        place,
        spelled,
        wanted,
    })
}

fn shape_of(kind: FileKind, words: &LineWords<'_>) -> Option<Shape> {
    match kind {
        FileKind::Drill => shape_at(0, drill_words(words.at(0))),
        FileKind::Tap => shape_at(0, tap_words(words.at(0))),
        FileKind::Trace => shape_in_trace(words),
        FileKind::Script => shape_at(0, script_words(words.at(0))),
        FileKind::Bits => None,
    }
}

fn shape_in_trace(words: &LineWords<'_>) -> Option<Shape> {
    if words.at(0) == b">".as_slice() {
        return shape_at(3, event_words(words.at(3)));
    }
    if words.at(2) == b"refused".as_slice() {
        return shape_at(3, refusal_words(words.at(3)));
    }
    shape_at(2, outcome_words(words.at(2)))
}

// More or fewer words than are wanted.
fn count<'a>(kind: FileKind, words: &LineWords<'a>) -> Sentence<'a> {
    let Some(shape) = shape_of(kind, words) else {
        return [
            Piece::Text(
                "words are missing: an event is '> MOMENT CONNECTION EVENT ..', an outcome '< CONNECTION OUTCOME ..'",
            ),
            NOTHING,
            NOTHING,
            NOTHING,
            NOTHING,
        ];
    };
    let spelled = if shape.spelled.is_empty() {
        "no word"
    } else {
        shape.spelled
    };
    let found = words
        .all()
        .len()
        .saturating_sub(shape.place.saturating_add(1));
    [
        Piece::Quoted(words.at(shape.place)),
        Piece::Text(" wants behind it "),
        Piece::Text(spelled),
        Piece::Text(", and so many words stand there: "),
        Piece::Count(found),
    ]
}

// An argument that isn't what its place wants.
fn argument<'a>(kind: FileKind, words: &LineWords<'a>) -> Sentence<'a> {
    if words.at(0) == b"set".as_slice() {
        return setting(words);
    }
    let misfit = match misfit_in_front(kind, words) {
        Some(misfit) => Some(misfit),
        None => misfit_behind(kind, words),
    };
    match misfit {
        Some((word, wanted)) => [
            Piece::Quoted(word),
            Piece::Text(" stands where "),
            Piece::Text(wanted.words()),
            Piece::Text(", is wanted"),
            NOTHING,
        ],
        None => [
            Piece::Text("a word isn't what its place wants"),
            NOTHING,
            NOTHING,
            NOTHING,
            NOTHING,
        ],
    }
}

// Of a line of a trace, the moment and the connection where they don't fit.
fn misfit_in_front<'a>(kind: FileKind, words: &LineWords<'a>) -> Option<(&'a [u8], Wanted)> {
    if kind != FileKind::Trace {
        return None;
    }
    if words.at(0) != b">".as_slice() {
        return misfit(words.at(1), Wanted::Number);
    }
    match misfit(words.at(1), Wanted::Moment) {
        Some(misfit) => Some(misfit),
        None => misfit(words.at(2), Wanted::Number),
    }
}

fn misfit(word: &[u8], wanted: Wanted) -> Option<(&[u8], Wanted)> {
    if wanted.fits(word) {
        None
    } else {
        Some((word, wanted))
    }
}

// The first word behind that which says what the line says that isn't what its place wants.
fn misfit_behind<'a>(kind: FileKind, words: &LineWords<'a>) -> Option<(&'a [u8], Wanted)> {
    let shape = shape_of(kind, words)?;
    for (index, wanted) in shape.wanted.iter().enumerate() {
        let word = words.at(shape.place.saturating_add(1).saturating_add(index));
        if !wanted.fits(word) {
            return Some((word, *wanted));
        }
    }
    None
}

fn setting<'a>(words: &LineWords<'a>) -> Sentence<'a> {
    match setting_values(words.at(1)) {
        Some(values) => [
            Piece::Quoted(words.at(2)),
            Piece::Text(" is no value here of the setting "),
            Piece::Plain(words.at(1)),
            Piece::Text(", which is "),
            Piece::Text(values),
        ],
        None => [
            Piece::Quoted(words.at(1)),
            Piece::Text(
                " is no setting; settings are show, modulo, window, credit, size, t1, n2, setup",
            ),
            NOTHING,
            NOTHING,
            NOTHING,
        ],
    }
}

// Why a line of a trace isn't done though it is in the grammar: what stands before the number of its connection, and behind it.
const OF_TRACES: &str = "\
noconn|connection | hasn't begun: its first event is a call or an answer
nokey|no key of the pair of connection | holds at that moment
many|256 ends are live, and one more would be connection |
twice|connection | has begun before
back|the moment is before that of an event above it, at connection |";

// The same of a line of another file, around the number of its link.
const OF_OTHERS: &str = "\
nolink|no line above it opens link |
twice|a line above it opens link | too
back|a tick above it is at a later moment than |";

// A line that is in the grammar, and isn't done.
fn not_done<'a>(kind: FileKind, why: &[u8], words: &LineWords<'a>) -> Sentence<'a> {
    let (table, place) = match kind {
        FileKind::Trace => (OF_TRACES, 2),
        _ => (OF_OTHERS, 1),
    };
    let (before, behind) = match texts_of(table, why) {
        Some(texts) => texts,
        None => ("it is refused: ", ""),
    };
    [
        Piece::Text(before),
        Piece::Plain(words.at(place)),
        Piece::Text(behind),
        NOTHING,
        NOTHING,
    ]
}

//! The audit of all links.

ghost use Rattle.std.specs.Prelude.{◌≡◌, ◌<◌, ◌++◌, ◌∷◌, [], length, Some, OnOk};
ghost use Rattle.er_base.specs.LineTexts.{line_text};
ghost use Rattle.er_tap.specs.Ranges.{CanBeRead};
ghost use Rattle.safety_automaton.specs.Keys.{key_at};
ghost use Rattle.tap_model.specs.Verdicts.{judged, judged_from};
ghost use Rattle.tap_model.specs.Texts.{item_words};
ghost use Rattle.tap_model.specs.AllLinks.{IsOfAllLinks};
ghost use Rattle.tap_model.specs.EndTexts.{text_of_audit, ends_of_link, ends_of_all};
ghost use Rattle.link_audit.specs.AuditLines.{lines_of_side, lines_of_link};
ghost use Rattle.link_audit.specs.Audits.{DoesAudit};
ghost use Rattle.link_audit.specs.Openings.{tap_opening_of_kept, opening_at, links_opened, ends_opened};
ghost use Rattle.link_audit.specs.Counts.{told_words};
ghost use Rattle.link_audit.specs.Writes.{WritesLines, lines_of_told, side_with_end};

use crate::items::Items;
use crate::judging::judge;
use crate::known::{Known, known_of};
use crate::marked_lines::{MarkedLines, Marks};
use crate::opening::Opening;
use crate::openings::{Openings, openings_in};
use crate::printing::{put_end, put_item, put_text};
use crate::read_pdu::ReadPdu;
use crate::told::Told;
use er_base::Side;
use er_tap::Tap;
use outside::Outside;
use safety_automaton::KeyFinder;
use std::alloc::Global;
use tap_model::AuditFault;

/// The most links.
const MOST_LINKS: u8 = 64;

// The texts that the parts of an audit make.
#[derive(Drop)]
struct Made {
    // The line that is written.
    line: Vec<u8>,
    // The lines of the ends so far.
    ends: Vec<u8>,
}

// Writes a line.
fn write_line<O: Outside>(line: &[u8], outside: &mut O) -> Result<(), AuditFault>
    requires { 0 < length line.now }
    ensures writes { WritesLines (O.told outside.old) (O.told outside.new) (line.now ∷ []) result }
{
    match outside.write(line) {
        Ok(()) => Ok(()),
        Err(_failed) => Err(AuditFault::Sink),
    }
}

// Writes the line of an item.
fn write_item<O: Outside>(
    known: &Known,
    link: u8,
    side: Side,
    place: u8,
    item: &[u8],
    made: &mut Made,
    outside: &mut O,
) -> Result<(), AuditFault>
    ensures writes { WritesLines (O.told outside.old) (O.told outside.new) (line_text (item_words link side (judged known.now side place item.now)) ∷ []) result }
    ensures ends { made.new.ends.items ≡ made.old.ends.items }
{
    let read = ReadPdu::of(item);
    let verdict = judge(known, side, place, &read);
    made.line.clear();
    put_item(link, side, &read, verdict, &mut made.line)?;
    write_line(made.line.as_slice(), outside)
}

// Writes the lines of a side.
fn write_items<O: Outside>(
    known: &Known,
    link: u8,
    side: Side,
    items: &mut Items<'_>,
    made: &mut Made,
    outside: &mut O,
) -> Result<(), AuditFault>
    ensures writes { WritesLines (O.told outside.old) (O.told outside.new) (lines_of_side link side (judged_from known.now side 0 items.old.left)) result }
    ensures told { items.new.told ≡ items.old.told }
    ensures ends { made.new.ends.items ≡ made.old.ends.items }
{
    let mut place = 0;
    while let Some(item) = items.first() {
        write_item(known, link, side, place, item, made, outside)?;
        items.advance();
        if place < 2 {
            place += 1;
        }
    }
    Ok(())
}

// Tells a side's end, and writes its line where ends are asked for.
fn tell_end<O: Outside>(
    ends: bool,
    link: u8,
    side: Side,
    end: &Told,
    made: &mut Made,
    outside: &mut O,
) -> Result<(), AuditFault>
    ensures writes { WritesLines (O.told outside.old) (O.told outside.new) (lines_of_told ends link side end.now) result }
    ensures told { OnOk result (made.new.ends.items ≡ made.old.ends.items ++ line_text (told_words link side end.now)) }
{
    made.line.clear();
    put_end(link, side, end, &mut made.line)?;
    put_text(made.line.as_slice(), &mut made.ends)?;
    if !ends {
        return Ok(());
    }
    write_line(made.line.as_slice(), outside)
}

// Writes the lines of a side, and tells its end.
fn write_side<O: Outside>(
    ends: bool,
    known: &Known,
    link: u8,
    side: Side,
    mut items: Items<'_>,
    made: &mut Made,
    outside: &mut O,
) -> Result<(), AuditFault>
    ensures writes { WritesLines (O.told outside.old) (O.told outside.new) (side_with_end ends link side known.now items.entry) result }
    ensures told { OnOk result (made.new.ends.items ≡ made.old.ends.items ++ line_text (told_words link side items.entry.told)) }
{
    write_items(known, link, side, &mut items, made, outside)?;
    let end = items.end();
    tell_end(ends, link, side, &end, made, outside)
}

// Writes the lines of a link, those of the engine's side first, and tells its ends.
fn audit_link<K: KeyFinder, O: Outside>(
    ends: bool,
    keys: &K,
    lines: &MarkedLines<'_>,
    link: u8,
    opening: &Opening,
    made: &mut Made,
    outside: &mut O,
) -> Result<(), AuditFault>
    ensures writes { WritesLines (O.told outside.old) (O.told outside.new)
        (lines_of_link ends (key_at (K.entries keys.now)) lines.now link (Some (tap_opening_of_kept opening.now))) result }
    ensures told { OnOk result (made.new.ends.items ≡ made.old.ends.items ++ ends_of_link lines.now link (Some (tap_opening_of_kept opening.now))) }
{
    let of_e = Items::new(lines, link, Side::E);
    let of_r = Items::new(lines, link, Side::R);
    let known = known_of(keys, opening, &of_e, &of_r);
    write_side(ends, &known, link, Side::E, of_e, made, outside)?;
    write_side(ends, &known, link, Side::R, of_r, made, outside)
}

// Writes the lines of a link and tells its ends, where it was opened.
fn audit_number<K: KeyFinder, O: Outside>(
    ends: bool,
    keys: &K,
    lines: &MarkedLines<'_>,
    openings: &Openings,
    link: u8,
    made: &mut Made,
    outside: &mut O,
) -> Result<(), AuditFault>
    ensures writes { WritesLines (O.told outside.old) (O.told outside.new)
        (lines_of_link ends (key_at (K.entries keys.now)) lines.now link (opening_at openings.now link)) result }
    ensures told { OnOk result (made.new.ends.items ≡ made.old.ends.items ++ ends_of_link lines.now link (opening_at openings.now link)) }
{
    match openings.of(link) {
        Some(opening) => audit_link(ends, keys, lines, link, &opening, made, outside),
        None => Ok(()),
    }
}

// Writes the lines of all links that were opened, and tells their ends.
fn audit_links<K: KeyFinder, O: Outside>(
    ends: bool,
    keys: &K,
    lines: &MarkedLines<'_>,
    openings: &Openings,
    made: &mut Made,
    outside: &mut O,
) -> Result<(), AuditFault>
    ensures writes { WritesLines (O.told outside.old) (O.told outside.new) (links_opened ends (key_at (K.entries keys.now)) lines.now openings.now 1 64) result }
    ensures told { OnOk result (made.new.ends.items ≡ made.old.ends.items ++ ends_opened lines.now openings.now 1 64) }
{
    let mut link = 1;
    while link <= MOST_LINKS {
        audit_number(ends, keys, lines, openings, link, made, outside)?;
        link += 1;
    }
    Ok(())
}

/// Prints the verdict on each item that is heard of the tapped links: links rising, the engine's side first, a line for each item, one write for
/// each line. Where ends are asked for, a line behind the items of each side tells how many frames it sent, how many of them counted, how many items
/// there are, how many frames are left, and why no more was heard.
///
/// The lines of all ends are appended to `told` too, whether they are asked for or not: a stream is gone through once for its items and its end.
///
/// KMACs are looked up among the keys, each at the moment of its link. The first line that names a link which no line before it opened, or
/// opens one twice, is refused before anything is written.
pub fn audit<K: KeyFinder, O: Outside>(
    alloc: Global,
    keys: &K,
    tap: &Tap,
    ends: bool,
    told: &mut Vec<u8>,
    outside: &mut O,
) -> Result<(), AuditFault>
    requires { CanBeRead tap.now }
    ensures audits { DoesAudit ends (key_at (K.entries keys.now)) tap.now.lines (O.told outside.old) (O.told outside.new) result }
    // The text of those lines is of all links that the tap opens, numbers rising, and of no other; each side's end stands behind its items.
    ensures links { IsOfAllLinks ends (key_at (K.entries keys.now)) tap.now.lines (text_of_audit ends (key_at (K.entries keys.now)) tap.now.lines) }
    // What is given back of ends, whether they are asked for or not: their lines alone.
    ensures told { OnOk result (told.new.items ≡ told.old.items ++ ends_of_all tap.now.lines) }
{
    tap_model::laws::audit_has_all_links();
    let lines = tap.lines.as_slice();
    let openings = openings_in(lines)?;
    let marks = Marks::of(alloc, lines)?;
    let mut made = Made {
        line: Vec::new(alloc),
        ends: Vec::new(alloc),
    };
    audit_links(ends, keys, &marks.all(), &openings, &mut made, outside)?;
    put_text(made.ends.as_slice(), told)?;
    Ok(())
}

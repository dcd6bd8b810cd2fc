//! The lines of a drill. Each is appended in one go: after want of memory `out` is as it was.

ghost use Rattle.std.specs.Prelude.{◌≡◌, ◌++◌, if◌then◌else◌, [], codes, IfOk, OnOk, OnErr};
ghost use Rattle.std.specs.Fmt.{decimal};
ghost use Rattle.er_end_model.specs.Outcomes.{RefusedReleased, RefusedNotConnected, RefusedLength, RefusedFull};
ghost use Rattle.drill_ends.specs.Refusals.{shown_refusal};
ghost use Rattle.er_world.specs.Changes.{change_line};
ghost use Rattle.drill_model.specs.Texts.{head, up_line, forged_word, by_word, release_words, connected_line, accepted_line, taken_line, none_line, released_line, refused_line, frame_line, empty_line, short_line, passes_line};

use crate::place::Place;
use crate::waiting::Change;
use drill_ends::Refusal;
use er_base::{NoMemory, Release, decimal_word, hex_word};
use std::alloc::Global;

/// The end of a line on what verified.
fn forged_octets(forged: bool) -> &'static [u8]
    ensures { result.now ≡ forged_word forged }
{
    if forged { b" forged\n" } else { b"\n" }
}

/// The end of a line on a release.
fn by_octets(by_peer: bool) -> &'static [u8]
    ensures { result.now ≡ by_word by_peer }
{
    if by_peer { b" peer\n" } else { b" local\n" }
}

/// Appends a word and a number.
pub fn put_count(word: &[u8], number: u64, line: &mut Vec<u8>) -> Result<(), NoMemory>
    ensures { OnOk result (line.new.items ≡ line.old.items ++ (word.now ++ decimal number)) }
{
    line.extend_from_slice(word)?;
    decimal_word(number, line)?;
    Ok(())
}

/// Appends a reason and a sub-reason.
#[tactic(auto, unfolding(drill_model::specs::Texts::release_words))]
fn put_release(release: &Release, line: &mut Vec<u8>) -> Result<(), NoMemory>
    ensures { OnOk result (line.new.items ≡ line.old.items ++ release_words release.now) }
{
    decimal_word(release.reason as u64, line)?;
    line.extend_from_slice(b" ")?;
    decimal_word(release.sub as u64, line)?;
    Ok(())
}

/// A new line that begins with the link's number and the end.
#[tactic(auto, unfolding(drill_model::specs::Texts::head))]
fn line_at(alloc: Global, place: Place) -> Result<Vec<u8>, NoMemory>
    ensures { IfOk result (λ line. line.items ≡ head place.number place.side) }
{
    let mut line = Vec::new(alloc);
    decimal_word(place.number as u64, &mut line)?;
    line.extend_from_slice(b" ")?;
    line.extend_from_slice(place.side.word())?;
    Ok(line)
}

/// Prints that the link came up at an end.
#[tactic(auto, unfolding(drill_model::specs::Texts::up_line))]
pub fn print_up(alloc: Global, place: Place, out: &mut Vec<u8>) -> Result<(), NoMemory>
    ensures ok { OnOk result (out.new.items ≡ out.old.items ++ up_line place.number place.side) }
    ensures err { OnErr result (out.new.items ≡ out.old.items) }
{
    let mut line = line_at(alloc, place)?;
    line.extend_from_slice(b" up\n")?;
    out.extend_from_slice(line.as_slice())?;
    Ok(())
}

/// Prints that an end is connected with the peer of an ETCS number.
#[tactic(auto, unfolding(drill_model::specs::Texts::connected_line))]
pub fn print_connected(
    alloc: Global,
    place: Place,
    peer: u32,
    forged: bool,
    out: &mut Vec<u8>,
) -> Result<(), NoMemory>
    ensures ok { OnOk result (out.new.items ≡ out.old.items ++ connected_line place.number place.side peer forged) }
    ensures err { OnErr result (out.new.items ≡ out.old.items) }
{
    let mut line = line_at(alloc, place)?;
    line.extend_from_slice(b" connected ")?;
    decimal_word(peer as u64, &mut line)?;
    line.extend_from_slice(forged_octets(forged))?;
    out.extend_from_slice(line.as_slice())?;
    Ok(())
}

/// Prints that a message was accepted.
#[tactic(auto, unfolding(drill_model::specs::Texts::accepted_line))]
pub fn print_accepted(
    alloc: Global,
    place: Place,
    user: &[u8],
    forged: bool,
    out: &mut Vec<u8>,
) -> Result<(), NoMemory>
    ensures ok { OnOk result (out.new.items ≡ out.old.items ++ accepted_line place.number place.side user.now forged) }
    ensures err { OnErr result (out.new.items ≡ out.old.items) }
{
    let mut line = line_at(alloc, place)?;
    line.extend_from_slice(b" accepted ")?;
    hex_word(user, &mut line)?;
    line.extend_from_slice(forged_octets(forged))?;
    out.extend_from_slice(line.as_slice())?;
    Ok(())
}

/// Prints that the user took a message.
#[tactic(auto, unfolding(drill_model::specs::Texts::taken_line))]
pub fn print_taken(
    alloc: Global,
    place: Place,
    message: &[u8],
    out: &mut Vec<u8>,
) -> Result<(), NoMemory>
    ensures ok { OnOk result (out.new.items ≡ out.old.items ++ taken_line place.number place.side message.now) }
    ensures err { OnErr result (out.new.items ≡ out.old.items) }
{
    let mut line = line_at(alloc, place)?;
    line.extend_from_slice(b" taken ")?;
    hex_word(message, &mut line)?;
    line.extend_from_slice(b"\n")?;
    out.extend_from_slice(line.as_slice())?;
    Ok(())
}

/// Prints that no message was there to take.
#[tactic(auto, unfolding(drill_model::specs::Texts::none_line))]
pub fn print_none(alloc: Global, place: Place, out: &mut Vec<u8>) -> Result<(), NoMemory>
    ensures ok { OnOk result (out.new.items ≡ out.old.items ++ none_line place.number place.side) }
    ensures err { OnErr result (out.new.items ≡ out.old.items) }
{
    let mut line = line_at(alloc, place)?;
    line.extend_from_slice(b" none\n")?;
    out.extend_from_slice(line.as_slice())?;
    Ok(())
}

/// Prints that an end was released, by itself or by its peer.
#[tactic(auto, unfolding(drill_model::specs::Texts::released_line))]
pub fn print_released(
    alloc: Global,
    place: Place,
    release: &Release,
    out: &mut Vec<u8>,
) -> Result<(), NoMemory>
    ensures ok { OnOk result (out.new.items ≡ out.old.items ++ released_line place.number place.side release.now) }
    ensures err { OnErr result (out.new.items ≡ out.old.items) }
{
    let mut line = line_at(alloc, place)?;
    line.extend_from_slice(b" released ")?;
    put_release(release, &mut line)?;
    line.extend_from_slice(by_octets(release.by_peer))?;
    out.extend_from_slice(line.as_slice())?;
    Ok(())
}

/// Prints that a send was refused, since the end is released.
#[tactic(auto, unfolding(drill_model::specs::Texts::refused_line))]
fn print_refused_released(
    alloc: Global,
    place: Place,
    release: &Release,
    out: &mut Vec<u8>,
) -> Result<(), NoMemory>
    ensures ok { OnOk result (out.new.items ≡ out.old.items ++ refused_line place.number place.side (RefusedReleased release.now)) }
    ensures err { OnErr result (out.new.items ≡ out.old.items) }
{
    let mut line = line_at(alloc, place)?;
    line.extend_from_slice(b" refused released ")?;
    put_release(release, &mut line)?;
    line.extend_from_slice(b"\n")?;
    out.extend_from_slice(line.as_slice())?;
    Ok(())
}

/// The end of the line of a send that was refused, since the end isn't connected.
fn refused_early_octets() -> &'static [u8]
    ensures { result.now ≡ codes " refused notconnected\n" }
{
    b" refused notconnected\n"
}

/// Prints that a send was refused, since the end isn't connected.
#[tactic(auto, unfolding(drill_model::specs::Texts::refused_line))]
fn print_refused_early(alloc: Global, place: Place, out: &mut Vec<u8>) -> Result<(), NoMemory>
    ensures ok { OnOk result (out.new.items ≡ out.old.items ++ refused_line place.number place.side RefusedNotConnected) }
    ensures err { OnErr result (out.new.items ≡ out.old.items) }
{
    let mut line = line_at(alloc, place)?;
    line.extend_from_slice(refused_early_octets())?;
    out.extend_from_slice(line.as_slice())?;
    Ok(())
}

/// Prints that a send was refused, since it has so many user octets.
#[tactic(auto, unfolding(drill_model::specs::Texts::refused_line))]
fn print_refused_length(
    alloc: Global,
    place: Place,
    found: usize,
    out: &mut Vec<u8>,
) -> Result<(), NoMemory>
    ensures ok { OnOk result (out.new.items ≡ out.old.items ++ refused_line place.number place.side (RefusedLength found)) }
    ensures err { OnErr result (out.new.items ≡ out.old.items) }
{
    let mut line = line_at(alloc, place)?;
    line.extend_from_slice(b" refused length ")?;
    decimal_word(found as u64, &mut line)?;
    line.extend_from_slice(b"\n")?;
    out.extend_from_slice(line.as_slice())?;
    Ok(())
}

/// Prints that a send was refused, since so many payloads wait to be sent.
#[tactic(auto, unfolding(drill_model::specs::Texts::refused_line))]
fn print_refused_full(
    alloc: Global,
    place: Place,
    waiting: usize,
    out: &mut Vec<u8>,
) -> Result<(), NoMemory>
    ensures ok { OnOk result (out.new.items ≡ out.old.items ++ refused_line place.number place.side (RefusedFull waiting)) }
    ensures err { OnErr result (out.new.items ≡ out.old.items) }
{
    let mut line = line_at(alloc, place)?;
    line.extend_from_slice(b" refused full ")?;
    decimal_word(waiting as u64, &mut line)?;
    line.extend_from_slice(b"\n")?;
    out.extend_from_slice(line.as_slice())?;
    Ok(())
}

/// Prints that a send was refused.
pub fn print_refused(
    alloc: Global,
    place: Place,
    refused: &Refusal,
    out: &mut Vec<u8>,
) -> Result<(), NoMemory>
    ensures ok { OnOk result (out.new.items ≡ out.old.items ++ refused_line place.number place.side (shown_refusal refused.now)) }
    ensures err { OnErr result (out.new.items ≡ out.old.items) }
{
    match refused {
        Refusal::Released(release) => print_refused_released(alloc, place, release, out),
        Refusal::NotConnected => print_refused_early(alloc, place, out),
        Refusal::Length(found) => print_refused_length(alloc, place, *found, out),
        Refusal::Full(waiting) => print_refused_full(alloc, place, *waiting, out),
    }
}

/// Prints a frame that an end sends, where frames are shown.
#[tactic(auto, unfolding(drill_model::specs::Texts::frame_line))]
pub fn print_frame(
    alloc: Global,
    place: Place,
    octets: &[u8],
    out: &mut Vec<u8>,
) -> Result<(), NoMemory>
    ensures ok { OnOk result (out.new.items ≡ out.old.items ++ (if place.show then frame_line place.number place.side octets.now else [])) }
    ensures err { OnErr result (out.new.items ≡ out.old.items) }
{
    if !place.show {
        return Ok(());
    }
    let mut line = line_at(alloc, place)?;
    line.extend_from_slice(b" frame ")?;
    hex_word(octets, &mut line)?;
    line.extend_from_slice(b"\n")?;
    out.extend_from_slice(line.as_slice())?;
    Ok(())
}

/// Prints that no frame of this end waits.
#[tactic(auto, unfolding(drill_model::specs::Texts::empty_line))]
pub fn print_empty(alloc: Global, place: Place, out: &mut Vec<u8>) -> Result<(), NoMemory>
    ensures ok { OnOk result (out.new.items ≡ out.old.items ++ empty_line place.number place.side) }
    ensures err { OnErr result (out.new.items ≡ out.old.items) }
{
    let mut line = line_at(alloc, place)?;
    line.extend_from_slice(b" empty\n")?;
    out.extend_from_slice(line.as_slice())?;
    Ok(())
}

/// Prints that the first waiting frame of this end has so many octets, too few for the step.
#[tactic(auto, unfolding(drill_model::specs::Texts::short_line))]
pub fn print_short(
    alloc: Global,
    place: Place,
    found: usize,
    out: &mut Vec<u8>,
) -> Result<(), NoMemory>
    ensures ok { OnOk result (out.new.items ≡ out.old.items ++ short_line place.number place.side found) }
    ensures err { OnErr result (out.new.items ≡ out.old.items) }
{
    let mut line = line_at(alloc, place)?;
    line.extend_from_slice(b" short ")?;
    decimal_word(found as u64, &mut line)?;
    line.extend_from_slice(b"\n")?;
    out.extend_from_slice(line.as_slice())?;
    Ok(())
}

/// Prints how many frames a drain of a link passed.
#[tactic(auto, unfolding(drill_model::specs::Texts::passes_line))]
pub fn print_passes(
    alloc: Global,
    number: u8,
    passes: u32,
    out: &mut Vec<u8>,
) -> Result<(), NoMemory>
    ensures ok { OnOk result (out.new.items ≡ out.old.items ++ passes_line number passes) }
    ensures err { OnErr result (out.new.items ≡ out.old.items) }
{
    let mut line = Vec::new(alloc);
    decimal_word(number as u64, &mut line)?;
    line.extend_from_slice(b" passes ")?;
    decimal_word(passes as u64, &mut line)?;
    line.extend_from_slice(b"\n")?;
    out.extend_from_slice(line.as_slice())?;
    Ok(())
}

/// Prints what came of a change of the frames that wait, where it has a line.
pub fn print_change(
    alloc: Global,
    place: Place,
    change: Change,
    out: &mut Vec<u8>,
) -> Result<(), NoMemory>
    ensures { OnOk result (out.new.items ≡ out.old.items ++ change_line place change) }
{
    match change {
        Change::Empty => print_empty(alloc, place, out),
        Change::Short(found) => print_short(alloc, place, found, out),
        Change::Lost => Ok(()),
        Change::Repeated => Ok(()),
        Change::Altered => Ok(()),
        Change::Inserted => Ok(()),
        Change::Unchanged => Ok(()),
    }
}

//! `bits FILE`: a recorded synchronous line, read as frames with zero insertion.

ghost use Rattle.std.specs.Prelude.{◌≡◌, ◌≤◌, ◌*◌, ◌++◌, false, length, nat_lt, OnOk, option_map};
ghost use Rattle.er_base.specs.LineTexts.{line_text};
ghost use Rattle.hdlc_bits.specs.Shown.{verdict_of_bits_found};
ghost use Rattle.outside.specs.Scripts.{Does, says_last};
ghost use Rattle.er_statuses.specs.ScriptEnds.{end_of_run};
ghost use Rattle.er_program.specs.BitScripts.{SaysVerdict, SaysFound};
ghost use Rattle.er_program.specs.BitTexts.{verdict_words, counts_line, most_line_octets};
ghost use Rattle.er_program.specs.BitWriting.{found_count};
ghost use Rattle.er_program.specs.FileScripts.{reads_bits, reads_line};

use er_base::{NoMemory, PrintedWord, Why, put_line};
use er_statuses::acting::{last, out_of_form, say, unfetched};
use er_statuses::{Status, Stop};
use hdlc_bits::laws::{frames_grow, nothing_is_read, reading_goes_on};
use hdlc_bits::{BitDeframer, BitFound};
use link_trait::FetchFault;
use outside::Outside;
use std::alloc::Global;

/// The greatest number of octets that a recorded line may have (this profile).
const MOST_LINE_OCTETS: usize = 16_777_216;

// Appends the line of a verdict.
fn put_verdict(found: &BitFound<'_>, out: &mut Vec<u8>) -> Result<(), NoMemory>
    ensures { OnOk result (out.new.items ≡ out.old.items ++ line_text (verdict_words (verdict_of_bits_found found.now))) }
{
    match found {
        BitFound::Frame { address, body } => put_line(
            &PrintedWord::Plain(b"frame"),
            &[
                PrintedWord::Hexadecimal(&[*address]),
                PrintedWord::Hexadecimal(body),
            ],
            out,
        ),
        BitFound::Ragged(bits) => put_line(
            &PrintedWord::Plain(b"ragged"),
            &[PrintedWord::Decimal(*bits as u64)],
            out,
        ),
        BitFound::BadFcs => put_line(&PrintedWord::Plain(b"badfcs"), &[], out),
        BitFound::TooShort => put_line(&PrintedWord::Plain(b"short"), &[], out),
        BitFound::TooLong => put_line(&PrintedWord::Plain(b"long"), &[], out),
        BitFound::Aborted => put_line(&PrintedWord::Plain(b"aborted"), &[], out),
    }
}

// How many frames that is.
fn frames_in(found: &BitFound<'_>) -> u64
    ensures { result ≡ found_count (Some (verdict_of_bits_found found.now)) }
{
    matches!(found, BitFound::Frame { .. }) as u64
}

// Writes the line of what was found, and answers how many frames that is.
fn tell_found<O: Outside>(alloc: Global, found: &BitFound<'_>, outside: &mut O) -> Result<u64, Stop>
    ensures says { SaysVerdict (verdict_of_bits_found found.now) (O.told outside.old) (O.told outside.new) result }
{
    let mut line = Vec::new(alloc);
    put_verdict(found, &mut line)?;
    match say(line.as_slice(), outside) {
        Ok(()) => Ok(frames_in(found)),
        Err(_) => Err(Stop::Sink),
    }
}

// The same of what one call found, which may be nothing.
fn tell<O: Outside>(
    alloc: Global,
    found: &Option<BitFound<'_>>,
    outside: &mut O,
) -> Result<u64, Stop>
    ensures says { SaysFound (option_map verdict_of_bits_found found.now) (O.told outside.old) (O.told outside.new) result }
{
    match found {
        Some(found) => tell_found(alloc, found, outside),
        None => Ok(0),
    }
}

// The last line: how many bits there are, and how many frames.
#[tactic(auto, using(outside::specs::ScriptSteps::does_spent))]
fn counted<O: Outside>(
    alloc: Global,
    bits: u64,
    frames: u64,
    outside: &mut O,
) -> Result<Status, Stop>
    ensures does { Does (says_last 0 (counts_line bits frames)) (O.told outside.old) (O.told outside.new) (end_of_run result) }
{
    let mut line = Vec::new(alloc);
    put_line(
        &PrintedWord::Plain(b"bits"),
        &[
            PrintedWord::Decimal(bits),
            PrintedWord::Plain(b"frames"),
            PrintedWord::Decimal(frames),
        ],
        &mut line,
    )?;
    last(0, line.as_slice(), outside)
}

// Reads a line, and writes the line of each verdict as soon as it comes.
fn read_line<O: Outside>(alloc: Global, octets: &[u8], outside: &mut O) -> Result<Status, Stop>
    requires short { length octets.now ≤ 16777216 }
    ensures does { Does (reads_bits false octets.now) (O.told outside.old) (O.told outside.new) (end_of_run result) }
{
    reading_goes_on();
    nothing_is_read();
    frames_grow();
    let bits = 8 * octets.len() as u64;
    let mut deframer = BitDeframer::new();
    let mut frames = 0;
    let mut at = 0;
    while at < bits {
        let (used, found) = deframer.feed(octets, at, bits);
        at += used;
        match tell(alloc, &found, outside) {
            Ok(more) => frames += more,
            Err(stop) => return Err(stop),
        }
    }
    counted(alloc, bits, frames, outside)
}

// The octets of the file.
fn bits_file<O: Outside>(alloc: Global, octets: &[u8], outside: &mut O) -> Result<Status, Stop>
    ensures does { Does (reads_bits (nat_lt most_line_octets (length octets.now)) octets.now) (O.told outside.old) (O.told outside.new) (end_of_run result) }
{
    if octets.len() > MOST_LINE_OCTETS {
        return out_of_form(alloc, 0, Why::Long, outside);
    }
    read_line(alloc, octets, outside)
}

/// `bits NAME`: fetches the file, and prints what it is read as.
pub fn bits<O: Outside>(alloc: Global, name: &str, outside: &mut O) -> Result<Status, Stop>
    ensures does { Does (reads_line name.now) (O.told outside.old) (O.told outside.new) (end_of_run result) }
{
    match outside.fetch(alloc, name) {
        Ok(octets) => bits_file(alloc, octets.as_slice(), outside),
        Err(FetchFault::Failed) => unfetched(alloc, name, outside),
        Err(FetchFault::NoMemory(want)) => Err(Stop::NoMemory(want)),
    }
}

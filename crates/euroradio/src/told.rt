//! What is written to the standard error, for people. Nothing there is a key, a text or a random number, and no clause speaks of it.

use crate::ended::Ended;
use application_command::application_from;
use counted::JournalCounts;
use er_base::{NoMemory, Release};
use er_program::{
    Command, FileCommand, FileFault, LineCommand, MOST_FILE_OCTETS, PlainCommand, StdoutSink, Work,
    command_from, relay_from,
};
use link_trait::Sink;
use std::alloc::Global;
use std::fmt::Write;
use std::fs;
use std::io::Read;
use std::os::unix::fs::PermissionsExt;
use telling::{
    FileKind, KeysHeld, counts_line, file_refused, key_hints, keys_refused, overfull, put_octets,
    put_text, recording_differs, side,
};

/// The commands.
pub(crate) const USAGE: &str = "usage: euroradio COMMAND, one of
  drill SCENARIO                        runs the steps of a scenario
  replay KEYS TRACE                     replays a trace or a recording
  check KEYS TRACE                      tells whether a recording is what its replay prints
  audit KEYS TAP                        tells of each SaPDU of tapped links what it is, and whether it is good
  audit KEYS TAP ends                   tells of each side too how far it was heard, and why no further
  bits FILE                             reads a recorded synchronous line
  bulk SEED COUNT                       sends COUNT messages, 0 to 10000, over a line that loses and repeats
  migrate KEYS                          prints a key file as one of version 2
  serve KEYS ADDRESS RBC TURNS          serves trains at an IP address and port, as 127.0.0.1:4711
  call KEYS ADDRESS ENGINE RBC TURNS    calls as a train
  serve KEYS ADDRESS RBC TURNS APPLICATION
  call KEYS ADDRESS ENGINE RBC TURNS APPLICATION
                                        the same, and a program that comes to the socket APPLICATION is the user of each session
  relay SCRIPT LISTEN DIAL TURNS        passes octets between two devices, but for what a script says
  --help, --version                     print this text, and which program this is
ADDRESS, LISTEN and DIAL are an IP address and a port each. ENGINE and RBC are ETCS numbers, 0 to 16777215. TURNS is 0 to 1000000000, or - for no bound. APPLICATION is a file name.
";

/// The standard output is closed.
pub(crate) fn closed(rt: HostRuntime) {
    let _ = eprintln!(rt; "euroradio: a standard stream is closed, and nothing was done");
}

// A line, where there was memory for it.
fn tell(rt: HostRuntime, line: Result<String, NoMemory>) {
    if let Ok(line) = line {
        let _ = eprintln!(rt; "euroradio: {line}");
    }
}

/// Why a run ended as it did, where it didn't end well. `last` is the last line that it printed.
pub(crate) fn ended(rt: HostRuntime, words: &[String], ended: &Ended, last: &[u8]) {
    match ended.status.0 {
        1 => {
            tell(rt, misused(rt.alloc(), words));
            let _ = eprint!(rt; "{USAGE}");
        }
        2 => tell(rt, unfetched(rt.alloc(), last, ended.file)),
        3 => {
            if let Some((kind, name)) = file_of(words) {
                let text = octets_again(rt, name);
                tell(
                    rt,
                    file_refused(rt.alloc(), kind, name, last, slice_of(&text)),
                );
            }
        }
        4 => {
            if let Some(name) = keys_of(words) {
                let text = octets_again(rt, name);
                tell(rt, keys_refused(rt.alloc(), name, last, slice_of(&text)));
            }
        }
        5 => {
            let _ = eprintln!(rt; "euroradio: a write to the standard output failed");
        }
        6 => tell(rt, wires_failed(rt.alloc(), words, ended)),
        7 => {
            let _ = eprintln!(rt; "euroradio: memory ran out");
        }
        8 => {
            let name = match file_of(words) {
                Some((_, name)) => name,
                None => "bulk",
            };
            tell(rt, overfull(rt.alloc(), name, last));
        }
        9 => {
            if let Some((_, name)) = file_of(words) {
                tell(rt, recording_differs(rt.alloc(), name, last));
            }
        }
        _ => {}
    }
}

/// How far each stream of a tap was heard, and why no further, behind an audit that printed what was heard alone: the lines that the word `ends`
/// has it print, as the audit gave them back.
pub(crate) fn ends_of_streams(rt: HostRuntime, words: &[String], ended: &Ended, ends: &[u8]) {
    let Command::File(FileCommand::Keyed(command)) = command_from(words) else {
        return;
    };
    if !matches!(command.work, Work::Audit { ends: false }) {
        return;
    }
    if ended.status.0 != 0 {
        return;
    }
    if ends.is_empty() {
        return;
    }
    let mut sink = StdoutSink::new(rt.stderr());
    let _ = sink.write(ends);
}

// The file that a command reads besides keys.
fn file_of(words: &[String]) -> Option<(FileKind, &str)> {
    if let Some(relay) = relay_from(words) {
        return Some((FileKind::Script, relay.script));
    }
    match command_from(words) {
        Command::File(FileCommand::Plain(command)) => plain_file_of(&command),
        Command::File(FileCommand::Keyed(command)) => Some((kind_of(command.work), command.name)),
        Command::Line(_) => None,
    }
}

fn plain_file_of<'a>(command: &PlainCommand<'a>) -> Option<(FileKind, &'a str)> {
    match *command {
        PlainCommand::Drill { name } => Some((FileKind::Drill, name)),
        PlainCommand::Bits { name } => Some((FileKind::Bits, name)),
        PlainCommand::Misused | PlainCommand::Migrate { .. } | PlainCommand::Bulk { .. } => None,
    }
}

// What kind of file that is.
fn kind_of(work: Work) -> FileKind {
    match work {
        Work::Replay | Work::Check => FileKind::Trace,
        Work::Audit { .. } => FileKind::Tap,
    }
}

// The command over wires that these words ask for, whether with an application or not.
fn line_of(words: &[String]) -> Option<LineCommand<'_>> {
    if let Some(command) = application_from(words) {
        return Some(command.line);
    }
    match command_from(words) {
        Command::Line(command) => Some(command),
        Command::File(_) => None,
    }
}

// The key file of the command that these words ask for.
fn keys_of(words: &[String]) -> Option<&str> {
    if let Some(command) = line_of(words) {
        return Some(command.key_file());
    }
    match command_from(words) {
        Command::File(FileCommand::Plain(command)) => plain_keys_of(&command),
        Command::File(FileCommand::Keyed(command)) => Some(command.keys),
        Command::Line(_) => None,
    }
}

fn plain_keys_of<'a>(command: &PlainCommand<'a>) -> Option<&'a str> {
    match *command {
        PlainCommand::Migrate { keys } => Some(keys),
        PlainCommand::Misused
        | PlainCommand::Drill { .. }
        | PlainCommand::Bits { .. }
        | PlainCommand::Bulk { .. } => None,
    }
}

fn slice_of(octets: &Option<Vec<u8>>) -> Option<&[u8]> {
    match octets {
        Some(octets) => Some(octets.as_slice()),
        None => None,
    }
}

// The octets of a file, read once more. Of what isn't a file of a disk, as a pipe, they are gone.
fn octets_again(rt: HostRuntime, name: &str) -> Option<Vec<u8>> {
    if !fs::metadata(&rt, name).ok()?.is_file() {
        return None;
    }
    let mut octets = Vec::new(rt.alloc());
    let file = fs::open(&rt, name).ok()?;
    let mut piece = file.take(MOST_FILE_OCTETS as u64);
    piece.read_to_end(&mut octets).ok()?;
    Some(octets)
}

// What others than its owner may do with a file that has keys.
const READ_BY_OTHERS: u32 = 0o004;

/// What in the key file of a command may not be what was meant; of a command that runs over wires also that others than its owner may
/// read the file.
pub(crate) fn hints(rt: HostRuntime, words: &[String]) {
    let Some(name) = keys_of(words) else {
        return;
    };
    if let Some(octets) = octets_again(rt, name) {
        if let Ok(lines) = key_hints(rt.alloc(), name, octets.as_slice()) {
            for line in lines.iter() {
                let _ = eprintln!(rt; "euroradio: warning: {line}");
            }
        }
    }
    if line_of(words).is_some() && is_read_by_others(rt, name) {
        let mut line = String::new(rt.alloc());
        if put_text(&mut line, name).is_ok() {
            let _ = eprintln!(rt; "euroradio: warning: {line}: others than its owner may read it");
        }
    }
}

fn is_read_by_others(rt: HostRuntime, name: &str) -> bool {
    match fs::metadata(&rt, name) {
        Ok(about) => about.permissions().mode() & READ_BY_OTHERS != 0,
        Err(_) => false,
    }
}

// Words that fit no command.
fn misused(alloc: Global, words: &[String]) -> Result<String, NoMemory> {
    let mut line = String::new(alloc);
    let Some((first, arguments)) = words.split_first() else {
        line.push_str("a command is missing")?;
        return Ok(line);
    };
    let Some((wanted, least, most)) = wanted_by(first.as_str()) else {
        line.push('\'')?;
        put_text(&mut line, first.as_str())?;
        line.push_str("' is no command")?;
        return Ok(line);
    };
    put_text(&mut line, first.as_str())?;
    let found = arguments.len();
    if found < least || found > most {
        write!(line, " wants {wanted}, and {found} words stand behind it")?;
        return Ok(line);
    }
    write!(
        line,
        " wants {wanted}, and a number is out of its range or no number:"
    )?;
    for word in arguments.iter() {
        line.push_str(" '")?;
        put_text(&mut line, word.as_str())?;
        line.push('\'')?;
    }
    Ok(line)
}

// What a command wants, and how many words that are at the least and at the most.
fn wanted_by(command: &str) -> Option<(&'static str, usize, usize)> {
    match command {
        "drill" => Some(("SCENARIO", 1, 1)),
        "bits" => Some(("FILE", 1, 1)),
        "migrate" => Some(("KEYS", 1, 1)),
        "replay" => Some(("KEYS TRACE", 2, 2)),
        "check" => Some(("KEYS TRACE", 2, 2)),
        "audit" => Some(("KEYS TAP, and ends or nothing", 2, 2)),
        "bulk" => Some(("SEED COUNT", 2, 2)),
        "serve" => Some(("KEYS ADDRESS RBC TURNS, and APPLICATION or nothing", 4, 5)),
        "call" => Some((
            "KEYS ADDRESS ENGINE RBC TURNS, and APPLICATION or nothing",
            5,
            6,
        )),
        "relay" => Some(("SCRIPT LISTEN DIAL TURNS", 4, 4)),
        _ => None,
    }
}

// Why a file can't be had: the last line tells which.
fn unfetched(alloc: Global, last: &[u8], why: Option<FileFault>) -> Result<String, NoMemory> {
    let mut line = String::new(alloc);
    let name = match last {
        [
            b'!',
            b' ',
            b'f',
            b'e',
            b't',
            b'c',
            b'h',
            b' ',
            name @ ..,
            b'\n',
        ] => name,
        [b'!', b' ', b'f', b'e', b't', b'c', b'h', b' ', name @ ..] => name,
        _ => b"",
    };
    put_octets(&mut line, name)?;
    match why {
        Some(FileFault::Long) => line.push_str(": it has more than 33554432 octets")?,
        Some(FileFault::System(error)) => write!(line, ": {error}")?,
        _ => line.push_str(": it can't be read")?,
    }
    Ok(line)
}

// Where `serve` or `call` was to listen or to dial; nothing of other commands.
fn place_of(words: &[String], of_application: bool) -> &str {
    if of_application {
        return match application_from(words) {
            Some(command) => command.application,
            None => "",
        };
    }
    match line_of(words) {
        Some(LineCommand::Serve { address, .. }) | Some(LineCommand::Call { address, .. }) => {
            address
        }
        None => "",
    }
}

// Why a listen, a dial or a turn failed.
fn wires_failed(alloc: Global, words: &[String], ended: &Ended) -> Result<String, NoMemory> {
    let mut line = String::new(alloc);
    if let Some(relay) = relay_from(words) {
        put_text(
            &mut line,
            match ended.wires {
                Some(_) => relay.listen,
                None => relay.dial,
            },
        )?;
    }
    put_text(&mut line, place_of(words, ended.has_no_socket))?;
    match ended.wires {
        Some(why) => write!(line, ": {why}")?,
        // The address to dial was looked at before anything was asked of the wires.
        None if relay_from(words).is_some() => line.push_str(": no IP address and port")?,
        None => line.push_str(": the system refused it")?,
    }
    Ok(line)
}

/// What was counted, but for a run that failed before any connection.
pub(crate) fn counted(rt: HostRuntime, ended: &Ended, counts: &JournalCounts) {
    if ended.status.0 != 0 && counts.opened == 0 && counts.turned_away == 0 {
        return;
    }
    if let Ok(line) = counts_line(rt.alloc(), counts) {
        let _ = rt.eprintln(line);
    }
}

/// Where an application may come.
pub(crate) fn awaits(rt: HostRuntime, name: &str) {
    let mut line = String::new(rt.alloc());
    if put_text(&mut line, name).is_ok() {
        let _ = eprintln!(rt; "euroradio: an application may come to {line}");
    }
}

/// How many keys a server has for its trains.
pub(crate) fn keys(rt: HostRuntime, rbc: u64, held: KeysHeld) {
    let KeysHeld {
        entries,
        of_centre,
        holding,
    } = held;
    let _ = eprintln!(rt;
        "euroradio: keys {entries}, of radio block centre {rbc} {of_centre}, of which {holding} hold now"
    );
    if holding == 0 {
        let _ = eprintln!(rt;
            "euroradio: warning: no key holds for radio block centre {rbc}: each train will be released with 3.1"
        );
    }
}

/// What became of a call.
pub(crate) fn called(rt: HostRuntime, words: &[String], counts: &JournalCounts) {
    let Some(release) = counts.newest else {
        let _ = eprintln!(rt; "euroradio: the call was not released");
        return;
    };
    let Release {
        reason,
        sub,
        by_peer,
    } = release;
    let side = side(by_peer);
    if let (3, 1, true, [_, _, _, engine, rbc, ..]) = (reason, sub, by_peer, words) {
        let _ = eprintln!(rt;
            "euroradio: the call was released, 3.1 peer: the radio block centre {rbc} has no key of engine {engine} at this moment"
        );
        return;
    }
    let text = release.words();
    let _ = eprintln!(rt; "euroradio: the call was released, {reason}.{sub} {side}: {text}");
}

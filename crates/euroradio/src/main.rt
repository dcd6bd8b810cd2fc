//! The program: it makes the real objects, lets the top call do what the words ask for, and ends with its status.
#![tactic(auto)]

mod beside;
mod ended;
mod listening_wires;
mod objects;
mod origin;
mod relaying;
mod streams;
mod system_words;
mod telling_outside;
mod told;

use crate::beside::beside;
use crate::ended::Ended;
use crate::objects::position_reports;
use crate::relaying::relay;
use crate::streams::stand_ins;
use crate::system_words::SystemWords;
use crate::telling_outside::TellingOutside;
use application_command::application_from;
use counted::JournalCounts;
use er_base::{NoMemory, decimal};
use er_program::{
    Clock, Command, FileCabinet, FileCommand, LineCommand, MachineClock, Sink, Status, StdoutSink,
    command_from, out_of_memory, relay_from, run, run_off_line,
};
use er_users::{Echo, SafeUser};
use mio_wires::MioWires;
use outside::{Absent, Parts, off_line};
use rand_chacha::ChaCha20Rng;
use recorded::Recorded;
use std::alloc::Global;
use std::process::ExitCode;
use std::{env, io};
use telling::{LastLine, Watch};

// The connections that `serve` serves in its life, one user each.
const MOST_SERVED: usize = 65_536;

// What `keep_memory` takes and lets go: a page less than the largest block that moves glibc's bound.
const LARGEST_BLOCK: usize = 33_550_336;

// How long the end of a command over wires waits for peers to close, in milliseconds.
pub(crate) const MOST_LINGER: u64 = 2_000;

// The words behind the program's name, or None where they aren't UTF-8.
fn words(rt: &HostRuntime) -> Result<Option<Vec<String>>, NoMemory> {
    match env::args(rt) {
        Ok(all) => Ok(Some(all.skip(1).collect(rt.alloc()).map_err(NoMemory::from)?)),
        Err(error) => match NoMemory::of_system(&error) {
            Some(want) => Err(want),
            None => Ok(None),
        },
    }
}

// The number of the radio block centre where the words are those of `serve`.
fn radio_block_centre(words: &[String]) -> Option<u64> {
    match words {
        [command, _, _, rbc, _] if command.as_str() == "serve" => decimal(rbc.as_bytes()),
        _ => None,
    }
}

// How a run over wires went, and what was counted of it.
#[derive(Drop)]
pub(crate) struct Ran {
    pub(crate) ended: Ended,
    pub(crate) counts: JournalCounts,
}

// A run over these sockets, whose recording goes first. None where there is no memory for the objects.
fn run_over<K: Sink>(
    rt: HostRuntime,
    words: &[String],
    randoms: &mut SystemWords<ChaCha20Rng>,
    users: Vec<Box<dyn SafeUser>>,
    sink: &mut K,
    sockets: &mut MioWires<HostRuntime>,
) -> Option<Ran> {
    let watch = Watch::new(rt.alloc(), radio_block_centre(words)).ok()?;
    let mut cabinet = FileCabinet::new(rt);
    let mut clock = MachineClock::new(rt);
    sockets.keep_time(clock.now());
    let parts = Parts::new(&mut cabinet, sink, sockets, &mut clock, randoms);
    let recorded = Recorded::new(rt.alloc(), parts).ok()?;
    let mut outside = TellingOutside::new(recorded, watch, rt);
    let status = run(rt.alloc(), words, users, &mut outside);
    let left = outside.end(status);
    let ended = Ended {
        status: left.status,
        file: cabinet.why(),
        wires: sockets.fault(),
        has_no_socket: left.has_no_socket,
    };
    Some(Ran {
        ended,
        counts: left.counts,
    })
}

// A command that runs over wires, with these random words and users. None where there is no memory for the objects.
fn on_line<K: Sink>(
    rt: HostRuntime,
    words: &[String],
    randoms: &mut SystemWords<ChaCha20Rng>,
    users: Vec<Box<dyn SafeUser>>,
    sink: &mut K,
) -> Option<Ended> {
    let mut sockets = MioWires::new(rt.alloc(), rt).ok()?;
    let ran = run_over(rt, words, randoms, users, sink, &mut sockets)?;
    sockets.finish(MOST_LINGER);
    told::counted(rt, &ran.ended, &ran.counts);
    if ran.ended.status.0 == 0 && radio_block_centre(words).is_none() {
        told::called(rt, words, &ran.counts);
    }
    Some(ran.ended)
}

// Has the C library keep the memory of connections that closed for those that come. glibc gives back to the system what is free at the end of
// its heap, above 128 KiB at first, and takes it from there again, a page fault for each page. Once a block that it had from the system by
// itself is let go, it keeps twice as much as that had. The block is never written to, so it costs no memory; without it all works as well.
pub(crate) fn keep_memory(alloc: Global) {
    if let Ok(block) = Vec::<u8>::with_capacity(alloc, LARGEST_BLOCK) {
        drop(block);
    }
}

// `serve`: the users of a radio block centre say every message back. (Users are made where they are handed to the run: a function that gave them
// to its caller could promise nothing of them.)
fn serve<K: Sink>(
    rt: HostRuntime,
    words: &[String],
    randoms: &mut SystemWords<ChaCha20Rng>,
    sink: &mut K,
) -> Result<Option<Ended>, NoMemory> {
    let alloc = rt.alloc();
    keep_memory(alloc);
    let mut users: Vec<Box<dyn SafeUser>> = Vec::with_capacity(alloc, MOST_SERVED)?;
    for _ in 0..MOST_SERVED {
        let user: Box<dyn SafeUser> = Box::new(alloc, Echo::new())?;
        users.push(user)?;
    }
    Ok(on_line(rt, words, randoms, users, sink))
}

// `call`: the user of an engine says three position reports.
fn call<K: Sink>(
    rt: HostRuntime,
    words: &[String],
    randoms: &mut SystemWords<ChaCha20Rng>,
    sink: &mut K,
) -> Result<Option<Ended>, NoMemory> {
    let alloc = rt.alloc();
    let user: Box<dyn SafeUser> = Box::new(alloc, position_reports(alloc)?)?;
    let mut users: Vec<Box<dyn SafeUser>> = Vec::with_capacity(alloc, 1)?;
    users.push(user)?;
    Ok(on_line(rt, words, randoms, users, sink))
}

// What a command without wires asks for; what an audit tells of ends is given back.
fn without_wires<K: Sink>(
    rt: HostRuntime,
    command: &FileCommand<'_>,
    ends: &mut Vec<u8>,
    sink: &mut K,
) -> Ended {
    let mut cabinet = FileCabinet::new(rt);
    let mut absent = Absent::new();
    let mut parts = off_line(&mut cabinet, sink, &mut absent);
    let status = run_off_line(rt.alloc(), command, ends, &mut parts);
    Ended {
        status,
        file: cabinet.why(),
        wires: None,
        has_no_socket: false,
    }
}

// The last line of a run whose objects can't be made, and its status.
fn unmade<K: Sink>(rt: HostRuntime, sink: &mut K) -> Status {
    let mut cabinet = FileCabinet::new(rt);
    let mut absent = Absent::new();
    out_of_memory(&mut off_line(&mut cabinet, sink, &mut absent))
}

// What the words ask for. None where the objects can't be made, or the system gives no seed.
fn answered<K: Sink>(
    rt: HostRuntime,
    words: &[String],
    ends: &mut Vec<u8>,
    sink: &mut K,
) -> Option<Ended> {
    if let Some(command) = relay_from(words) {
        let mut randoms: SystemWords<ChaCha20Rng> = SystemWords::new(&rt).ok()?;
        return relay(rt, &command, &mut randoms, sink);
    }
    if let Some(command) = application_from(words) {
        let mut randoms: SystemWords<ChaCha20Rng> = SystemWords::new(&rt).ok()?;
        return beside(rt, words, &command, &mut randoms, sink);
    }
    match command_from(words) {
        Command::File(command) => Some(without_wires(rt, &command, ends, sink)),
        Command::Line(command) => {
            let mut randoms = SystemWords::new(&rt).ok()?;
            match command {
                LineCommand::Serve { .. } => serve(rt, words, &mut randoms, sink).ok()?,
                LineCommand::Call { .. } => call(rt, words, &mut randoms, sink).ok()?,
            }
        }
    }
}

// What the words ask for, and what is told of it on the standard error.
fn status_of(rt: HostRuntime, words: &[String]) -> Status {
    told::hints(rt, words);
    let mut sink = LastLine::new(StdoutSink::new(io::writer(&rt)));
    let mut ends = Vec::new(rt.alloc());
    let ended = match answered(rt, words, &mut ends, &mut sink) {
        Some(ended) => ended,
        None => Ended {
            status: unmade(rt, &mut sink),
            file: None,
            wires: None,
            has_no_socket: false,
        },
    };
    told::ended(rt, words, &ended, sink.line());
    told::ends_of_streams(rt, words, &ended, ends.as_slice());
    ended.status
}

fn status(rt: HostRuntime) -> Status {
    match words(&rt) {
        Ok(Some(words)) => match asked(words.as_slice()) {
            Some(text) => said(rt, text),
            None => status_of(rt, words.as_slice()),
        },
        // Words that aren't UTF-8 fit no command.
        Ok(None) => status_of(rt, &[]),
        Err(_want) => unmade(rt, &mut StdoutSink::new(io::writer(&rt))),
    }
}

// What the words ask to be told of the program itself.
fn asked(words: &[String]) -> Option<&'static str> {
    let [word] = words else {
        return None;
    };
    match word.as_str() {
        "--help" | "-h" => Some(told::USAGE),
        "--version" | "-V" => Some(origin::VERSION),
        _ => None,
    }
}

// Prints a text.
fn said(rt: HostRuntime, text: &str) -> Status {
    let mut sink = StdoutSink::new(io::writer(&rt));
    if text.is_empty() || sink.write(text.as_bytes()).is_ok() {
        return Status(0);
    }
    let _ = eprintln!(rt; "euroradio: a write to the standard output failed");
    Status(5)
}

fn main(rt: HostRuntime) -> ExitCode {
    let Some(stand_ins) = stand_ins(rt) else {
        told::closed(rt);
        return ExitCode::from(5);
    };
    let status = status(rt);
    drop(stand_ins);
    ExitCode::from(status.0)
}

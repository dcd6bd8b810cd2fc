//! The commands of the program, and the words that fit them.

ghost use Rattle.std.specs.Prelude.{◌≡◌, ◌≤◌, IfSome};
ghost use Rattle.er_program.specs.Commands.{command_of, command_of_two, bulk_of, command_of_three, command_of_four, at_most, etcs_number, turns_number, serve_of, command_of_five, call_command_of, command_of_six, octets_of_words};
ghost use Rattle.er_program.specs.CommandViews.{command_view};

use crate::file_command::FileCommand::{Keyed, Plain};
use crate::file_command::{FileCommand, KeyedCommand, PlainCommand};
use crate::message_count::MessageCount;
use crate::work::Work;
use drill_bulk::MOST_MESSAGES;
use er_base::{EtcsNumber, MOST_ETCS_NUMBER, decimal};
use er_serving::LineCommand;

/// The most turns that a loop can be asked for (this profile).
const MOST_TURNS: u64 = 1_000_000_000;

/// The turns of a loop without a bound: more than can ever be done.
const NO_BOUND: u64 = u64::MAX;

/// A command, as the words of the program spell it.
#[derive(Clone, Copy)]
pub enum Command<'a> {
    /// One that needs no wires.
    File(FileCommand<'a>),
    /// One that runs the readiness loop, over wires, a clock and random words.
    Line(LineCommand<'a>),
}

fn command_of_two<'a>(command: &str, name: &'a str) -> Command<'a>
    ensures { command_view result ≡ command_of_two command.now name.now }
{
    if command == "drill" {
        Command::File(Plain(PlainCommand::Drill { name }))
    } else if command == "bits" {
        Command::File(Plain(PlainCommand::Bits { name }))
    } else if command == "migrate" {
        Command::File(Plain(PlainCommand::Migrate { keys: name }))
    } else {
        Command::File(Plain(PlainCommand::Misused))
    }
}

fn bulk_of<'a>(seed: Option<u64>, count: Option<u64>) -> Command<'a>
    ensures { command_view result ≡ bulk_of seed count }
{
    let Some(seed) = seed else {
        return Command::File(Plain(PlainCommand::Misused));
    };
    let Some(count) = count else {
        return Command::File(Plain(PlainCommand::Misused));
    };
    if count > MOST_MESSAGES as u64 {
        return Command::File(Plain(PlainCommand::Misused));
    }
    Command::File(Plain(PlainCommand::Bulk {
        seed,
        count: MessageCount::new(count as u32),
    }))
}

fn command_of_three<'a>(command: &str, first: &'a str, second: &'a str) -> Command<'a>
    ensures { command_view result ≡ command_of_three command.now first.now second.now }
{
    if command == "replay" {
        Command::File(Keyed(KeyedCommand {
            work: Work::Replay,
            keys: first,
            name: second,
        }))
    } else if command == "check" {
        Command::File(Keyed(KeyedCommand {
            work: Work::Check,
            keys: first,
            name: second,
        }))
    } else if command == "audit" {
        Command::File(Keyed(KeyedCommand {
            work: Work::Audit { ends: false },
            keys: first,
            name: second,
        }))
    } else if command == "bulk" {
        bulk_of(decimal(first.as_bytes()), decimal(second.as_bytes()))
    } else {
        Command::File(Plain(PlainCommand::Misused))
    }
}

fn command_of_four<'a>(command: &str, keys: &'a str, tap: &'a str, asked: &str) -> Command<'a>
    ensures { command_view result ≡ command_of_four command.now keys.now tap.now asked.now }
{
    if command == "audit" && asked == "ends" {
        Command::File(Keyed(KeyedCommand {
            work: Work::Audit { ends: true },
            keys,
            name: tap,
        }))
    } else {
        Command::File(Plain(PlainCommand::Misused))
    }
}

fn at_most(most: u64, number: Option<u64>) -> Option<u64>
    ensures fits { result ≡ at_most most number }
    ensures range { IfSome result (λ n. n ≤ most) }
{
    let number = number?;
    if number <= most { Some(number) } else { None }
}

/// The ETCS number that a word spells.
pub fn etcs_number(word: &str) -> Option<EtcsNumber>
    ensures { result ≡ etcs_number word.now }
{
    match at_most(MOST_ETCS_NUMBER as u64, decimal(word.as_bytes())) {
        Some(number) => Some(EtcsNumber::new(number as u32)),
        None => None,
    }
}

/// How many turns a word asks for: at most 10^9, or 2^64 - 1 where it asks for no bound.
pub fn turns_number(word: &str) -> Option<u64>
    ensures { result ≡ turns_number word.now }
{
    if word == "-" {
        return Some(NO_BOUND);
    }
    at_most(MOST_TURNS, decimal(word.as_bytes()))
}

fn serve_of<'a>(
    keys: &'a str,
    address: &'a str,
    rbc: Option<EtcsNumber>,
    turns: Option<u64>,
) -> Command<'a>
    ensures { command_view result ≡ serve_of keys.now address.now rbc turns }
{
    let Some(rbc) = rbc else {
        return Command::File(Plain(PlainCommand::Misused));
    };
    let Some(turns) = turns else {
        return Command::File(Plain(PlainCommand::Misused));
    };
    Command::Line(LineCommand::Serve {
        keys,
        address,
        rbc,
        turns,
    })
}

fn command_of_five<'a>(
    command: &str,
    keys: &'a str,
    address: &'a str,
    rbc: &str,
    turns: &str,
) -> Command<'a>
    ensures { command_view result ≡ command_of_five command.now keys.now address.now rbc.now turns.now }
{
    if command == "serve" {
        serve_of(keys, address, etcs_number(rbc), turns_number(turns))
    } else {
        Command::File(Plain(PlainCommand::Misused))
    }
}

fn call_of<'a>(
    keys: &'a str,
    address: &'a str,
    engine: Option<EtcsNumber>,
    rbc: Option<EtcsNumber>,
    turns: Option<u64>,
) -> Command<'a>
    ensures { command_view result ≡ call_command_of keys.now address.now engine rbc turns }
{
    let Some(engine) = engine else {
        return Command::File(Plain(PlainCommand::Misused));
    };
    let Some(rbc) = rbc else {
        return Command::File(Plain(PlainCommand::Misused));
    };
    let Some(turns) = turns else {
        return Command::File(Plain(PlainCommand::Misused));
    };
    Command::Line(LineCommand::Call {
        keys,
        address,
        engine,
        rbc,
        turns,
    })
}

fn command_of_six<'a>(
    command: &str,
    keys: &'a str,
    address: &'a str,
    engine: &str,
    rbc: &str,
    turns: &str,
) -> Command<'a>
    ensures { command_view result ≡ command_of_six command.now keys.now address.now engine.now rbc.now turns.now }
{
    if command == "call" {
        call_of(
            keys,
            address,
            etcs_number(engine),
            etcs_number(rbc),
            turns_number(turns),
        )
    } else {
        Command::File(Plain(PlainCommand::Misused))
    }
}

/// The command that these words fit. They leave out the program's name.
pub fn command_from(words: &[String]) -> Command<'_>
    ensures { command_view result ≡ command_of (octets_of_words words.now) }
{
    match words {
        [command, name] => command_of_two(command.as_str(), name.as_str()),
        [command, first, second] => {
            command_of_three(command.as_str(), first.as_str(), second.as_str())
        }
        [command, keys, tap, asked] => command_of_four(
            command.as_str(),
            keys.as_str(),
            tap.as_str(),
            asked.as_str(),
        ),
        [command, keys, address, rbc, turns] => command_of_five(
            command.as_str(),
            keys.as_str(),
            address.as_str(),
            rbc.as_str(),
            turns.as_str(),
        ),
        [command, keys, address, engine, rbc, turns] => command_of_six(
            command.as_str(),
            keys.as_str(),
            address.as_str(),
            engine.as_str(),
            rbc.as_str(),
            turns.as_str(),
        ),
        _ => Command::File(Plain(PlainCommand::Misused)),
    }
}

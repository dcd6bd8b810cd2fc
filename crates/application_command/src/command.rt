//! The commands with an application, and the words that fit them.

ghost use Rattle.std.specs.Prelude.{◌≡◌, option_map};
ghost use Rattle.er_program.specs.Commands.{call_command_of, command_of_five, command_of_six, octets_of_words, serve_of};
ghost use Rattle.application_command.specs.ApplicationCommands.{beside, application_command_of};
ghost use Rattle.application_command.specs.ApplicationCommandViews.{application_view};

use er_base::EtcsNumber;
use er_program::{LineCommand, etcs_number, turns_number};

/// A command with an application, as the words of the program spell it.
#[derive(Clone, Copy)]
pub struct ApplicationCommand<'a> {
    /// The command without its last word.
    pub line: LineCommand<'a>,
    /// The file name at which the application comes.
    pub application: &'a str,
}

fn serve_of<'a>(
    keys: &'a str,
    address: &'a str,
    rbc: Option<EtcsNumber>,
    turns: Option<u64>,
    application: &'a str,
) -> Option<ApplicationCommand<'a>>
    ensures { option_map application_view result ≡ beside (serve_of keys.now address.now rbc turns) application.now }
{
    let line = LineCommand::Serve {
        keys,
        address,
        rbc: rbc?,
        turns: turns?,
    };
    Some(ApplicationCommand { line, application })
}

fn command_of_six<'a>(
    command: &str,
    keys: &'a str,
    address: &'a str,
    rbc: &str,
    turns: &str,
    application: &'a str,
) -> Option<ApplicationCommand<'a>>
    ensures { option_map application_view result ≡ beside (command_of_five command.now keys.now address.now rbc.now turns.now) application.now }
{
    if command == "serve" {
        serve_of(
            keys,
            address,
            etcs_number(rbc),
            turns_number(turns),
            application,
        )
    } else {
        None
    }
}

fn call_of<'a>(
    keys: &'a str,
    address: &'a str,
    engine: Option<EtcsNumber>,
    rbc: Option<EtcsNumber>,
    turns: Option<u64>,
    application: &'a str,
) -> Option<ApplicationCommand<'a>>
    ensures { option_map application_view result ≡ beside (call_command_of keys.now address.now engine rbc turns) application.now }
{
    let line = LineCommand::Call {
        keys,
        address,
        engine: engine?,
        rbc: rbc?,
        turns: turns?,
    };
    Some(ApplicationCommand { line, application })
}

fn command_of_seven<'a>(
    command: &str,
    keys: &'a str,
    address: &'a str,
    engine: &str,
    rbc: &str,
    turns: &str,
    application: &'a str,
) -> Option<ApplicationCommand<'a>>
    ensures { option_map application_view result
        ≡ beside (command_of_six command.now keys.now address.now engine.now rbc.now turns.now) application.now }
{
    if command == "call" {
        call_of(
            keys,
            address,
            etcs_number(engine),
            etcs_number(rbc),
            turns_number(turns),
            application,
        )
    } else {
        None
    }
}

/// The command with an application, where these words fit one: `serve KEYS ADDRESS RBC TURNS APPLICATION` or
/// `call KEYS ADDRESS ENGINE RBC TURNS APPLICATION`. They leave out the program's name.
pub fn application_from(words: &[String]) -> Option<ApplicationCommand<'_>>
    ensures { option_map application_view result ≡ application_command_of (octets_of_words words.now) }
{
    match words {
        [command, keys, address, rbc, turns, application] => command_of_six(
            command.as_str(),
            keys.as_str(),
            address.as_str(),
            rbc.as_str(),
            turns.as_str(),
            application.as_str(),
        ),
        [command, keys, address, engine, rbc, turns, application] => command_of_seven(
            command.as_str(),
            keys.as_str(),
            address.as_str(),
            engine.as_str(),
            rbc.as_str(),
            turns.as_str(),
            application.as_str(),
        ),
        _ => None,
    }
}

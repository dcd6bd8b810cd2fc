//! The commands that run the readiness loop.

ghost use Rattle.std.specs.Prelude.{◌≡◌};
ghost use Rattle.er_serving.specs.LineCommands.{key_file_of};
ghost use Rattle.er_serving.specs.LineCommandViews.{line_view};

use er_base::EtcsNumber;

/// A command that runs the readiness loop, as the words of the program spell it.
#[derive(Clone, Copy)]
pub enum LineCommand<'a> {
    /// `serve KEYS ADDRESS RBC TURNS`: as a radio block centre, which listens.
    Serve {
        /// The name of the key file.
        keys: &'a str,
        /// The address to listen at.
        address: &'a str,
        /// The radio block centre.
        rbc: EtcsNumber,
        /// How many turns are done at the most.
        turns: u64,
    },
    /// `call KEYS ADDRESS ENGINE RBC TURNS`: as an engine, which calls a radio block centre.
    Call {
        /// The name of the key file.
        keys: &'a str,
        /// The address to dial.
        address: &'a str,
        /// The engine that calls.
        engine: EtcsNumber,
        /// The radio block centre that is called.
        rbc: EtcsNumber,
        /// How many turns are done at the most.
        turns: u64,
    },
}

impl<'a> LineCommand<'a> {
    /// The name of its key file.
    pub fn key_file(&self) -> &'a str
        ensures { result.now ≡ key_file_of (line_view self.now) }
    {
        match *self {
            LineCommand::Serve { keys, .. } | LineCommand::Call { keys, .. } => keys,
        }
    }
}

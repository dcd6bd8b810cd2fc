//! Where what comes of events goes, beside the recording.

ghost use Rattle.std.specs.Prelude.{◌≡◌, option_map, OnOk, IfOk, map, length, if◌then◌else◌};
ghost use Rattle.application_loop.specs.Starting.{IsNewDesk, CountsOne};
ghost use Rattle.er_end.specs.Given.{outcomes_in};
ghost use Rattle.trace_model.specs.Printed.{trace_outcome_of};
ghost use Rattle.application_model.specs.Ends.{texts_taken};
ghost use Rattle.application_model.specs.Services.{connections_made, counted_up};
ghost use Rattle.application_port.specs.Ports.{told_at_port};
ghost use Rattle.application_lines.specs.Notices.{Gone, Counts};
ghost use Rattle.application_loop.specs.Telling.{DeskTells};
ghost use Rattle.application_telling.specs.Texts.{event_of_sent, application_text};

use application_lines::Notice;
use application_port::Port;
use application_telling::tell_effects;
use er_base::NoMemory;
use er_end::{Effects, Taking};
use std::alloc::Global;

// Where what comes of events goes, beside the recording: the application, and the counts since the start.
#[derive(Drop)]
pub(crate) struct Desk {
    pub(crate) port: Port,
    // The lines of the event at hand.
    pub(crate) line: Vec<u8>,
    // How many connections were opened, how many connected, and how many messages were taken.
    pub(crate) opened: u64,
    pub(crate) connected: u64,
    pub(crate) messages: u64,
}

// A count with one more, where there is one; it stays at its top.
fn counted(count: u64, more: bool) -> u64
    ensures { result ≡ counted_up count (if more then 1 else 0) }
{
    if more {
        return count.saturating_add(1);
    }
    count
}

// Whether the safe connection came to stand.
fn connects(effects: &Effects<'_>) -> bool
    ensures { connections_made (map trace_outcome_of (outcomes_in effects.now)) ≡ (if result then 1 else 0) }
{
    effects.deeds.connected.is_some()
}

// Whether a message was taken.
fn takes_message(effects: &Effects<'_>) -> bool
    ensures { length (texts_taken (map trace_outcome_of (outcomes_in effects.now))) ≡ (if result then 1 else 0) }
{
    match effects.taken {
        Taking::Message(_) => true,
        _ => false,
    }
}

impl Desk {
    // Nobody is there, and nothing came.
    pub(crate) fn new(alloc: Global) -> Result<Desk, NoMemory>
        ensures { IfOk result (λ desk. IsNewDesk desk) }
    {
        Ok(Desk {
            port: Port::new(alloc)?,
            line: Vec::new(alloc),
            opened: 0,
            connected: 0,
            messages: 0,
        })
    }

    // A connection is opened.
    pub(crate) fn count_opened(&mut self)
        ensures { CountsOne self.old self.new }
    {
        self.opened = self.opened.saturating_add(1);
        // No other count changes, and each is one of 64 bits.
        let (_connected, _messages) = (self.connected, self.messages);
    }

    // What came of an event at the end of a connection is told and counted. `sent` is the message where the event sent one.
    pub(crate) fn tell(
        &mut self,
        connection: u64,
        sent: &Option<&[u8]>,
        effects: &Effects<'_>,
    ) -> Result<(), NoMemory>
        ensures port { OnOk result (self.new.port ≡ told_at_port
            (application_text connection (event_of_sent (option_map (λ m. m.now) sent.now)) (outcomes_in effects.now)) self.old.port) }
        ensures line { self.new.line ≡ self.old.line }
        ensures opened { self.new.opened ≡ self.old.opened }
        ensures connected { self.new.connected ≡ counted_up self.old.connected (connections_made (map trace_outcome_of (outcomes_in effects.now))) }
        ensures messages { self.new.messages ≡ counted_up self.old.messages (length (texts_taken (map trace_outcome_of (outcomes_in effects.now)))) }
    {
        self.count(effects);
        tell_effects(&mut self.port, connection, sent, effects)
    }

    fn count(&mut self, effects: &Effects<'_>)
        ensures port { self.new.port ≡ self.old.port }
        ensures line { self.new.line ≡ self.old.line }
        ensures opened { self.new.opened ≡ self.old.opened }
        ensures connected { self.new.connected ≡ counted_up self.old.connected (connections_made (map trace_outcome_of (outcomes_in effects.now))) }
        ensures messages { self.new.messages ≡ counted_up self.old.messages (length (texts_taken (map trace_outcome_of (outcomes_in effects.now)))) }
    {
        self.connected = counted(self.connected, connects(effects));
        self.messages = counted(self.messages, takes_message(effects));
    }

    // A line named a connection that isn't live.
    pub(crate) fn tell_gone(&mut self, connection: u64) -> Result<(), NoMemory>
        ensures tells { OnOk result (DeskTells (Gone connection) self.old self.new) }
    {
        self.port.tell(&Notice::Gone { connection })
    }

    // The counts were asked for, while so many connections are live.
    pub(crate) fn tell_counts(&mut self, live: usize) -> Result<(), NoMemory>
        ensures tells { OnOk result (DeskTells (Counts live self.old.opened self.old.connected self.old.messages) self.old self.new) }
    {
        self.port.tell(&Notice::Counts {
            live: live as u64,
            opened: self.opened,
            connected: self.connected,
            messages: self.messages,
        })
    }
}

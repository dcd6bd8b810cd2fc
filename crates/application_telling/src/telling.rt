//! Tells an application what came of an event.

ghost use Rattle.std.specs.Prelude.{◌≡◌, option_map, OnOk};
ghost use Rattle.er_end.specs.Given.{if_refused, taking_told, outcomes_in};
ghost use Rattle.er_end_model.specs.Steps.{if_connected, if_released};
ghost use Rattle.er_trace.specs.declared.event.Event as trace;
ghost use Rattle.application_lines.specs.Lending.{refusal_lent};
ghost use Rattle.application_port.specs.Ports.{told_at_port};
ghost use Rattle.application_telling.specs.Refusals.{refusal_shown};
ghost use Rattle.application_telling.specs.Texts.{event_of_sent, application_text};

use application_lines::{Notice, Refusal};
use application_port::Port;
use er_base::{NoMemory, Release};
use er_end::{Effects, SendRefused, Taking};

// Why a message wasn't sent.
fn refusal_of(refused: &SendRefused) -> Refusal
    ensures { refusal_lent result ≡ refusal_shown refused.now }
{
    match refused {
        SendRefused::Released(why) => Refusal::Released {
            reason: why.reason,
            sub: why.sub,
        },
        SendRefused::NotConnected => Refusal::NotConnected,
        SendRefused::Length(found) => Refusal::Length(*found),
        SendRefused::Full(waiting) => Refusal::Full(*waiting),
    }
}

// A message of the application wasn't sent.
fn tell_refused(
    port: &mut Port,
    connection: u64,
    sent: &Option<&[u8]>,
    refused: &Option<SendRefused>,
) -> Result<(), NoMemory>
    ensures { OnOk result (port.new ≡ told_at_port
        (application_text connection (event_of_sent (option_map (λ m. m.now) sent.now)) (if_refused refused.now)) port.old) }
{
    let Some(refused) = refused else {
        return Ok(());
    };
    let Some(text) = sent else {
        return Ok(());
    };
    let refusal = refusal_of(refused);
    port.tell(&Notice::Refused {
        connection,
        text,
        refusal,
    })
}

// A message was taken.
fn tell_taken(port: &mut Port, connection: u64, taken: &Taking<'_>) -> Result<(), NoMemory>
    ensures { OnOk result ((what : trace.Event) → port.new ≡ told_at_port (application_text connection what (taking_told taken.now)) port.old) }
{
    match taken {
        Taking::NotAsked => Ok(()),
        Taking::Nothing => Ok(()),
        Taking::Message(text) => port.tell(&Notice::Message { connection, text }),
    }
}

// The safe connection was made.
fn tell_connected(port: &mut Port, connection: u64, peer: Option<u32>) -> Result<(), NoMemory>
    ensures { OnOk result ((what : trace.Event) → port.new ≡ told_at_port (application_text connection what (if_connected peer)) port.old) }
{
    match peer {
        Some(peer) => port.tell(&Notice::Connected { connection, peer }),
        None => Ok(()),
    }
}

// The end was released.
fn tell_released(port: &mut Port, connection: u64, why: Option<Release>) -> Result<(), NoMemory>
    ensures { OnOk result ((what : trace.Event) → port.new ≡ told_at_port (application_text connection what (if_released why)) port.old) }
{
    match why {
        Some(release) => port.tell(&Notice::Released {
            connection,
            release,
        }),
        None => Ok(()),
    }
}

/// Tells the application what came of an event at the end of a connection, where one is there: why its message wasn't sent, the message that was
/// taken, that the connection was made, and that the end was released. `sent` is the message where the event sent one.
pub fn tell_effects(
    port: &mut Port,
    connection: u64,
    sent: &Option<&[u8]>,
    effects: &Effects<'_>,
) -> Result<(), NoMemory>
    ensures { OnOk result (port.new ≡ told_at_port
        (application_text connection (event_of_sent (option_map (λ m. m.now) sent.now)) (outcomes_in effects.now)) port.old) }
{
    tell_refused(port, connection, sent, &effects.refused)?;
    tell_taken(port, connection, &effects.taken)?;
    tell_connected(port, connection, effects.deeds.connected)?;
    tell_released(port, connection, effects.deeds.released)
}

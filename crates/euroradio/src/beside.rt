//! `serve` and `call` with an application: their objects, and their run.

use crate::ended::Ended;
use crate::telling_outside::TellingOutside;
use crate::{MOST_LINGER, Ran, keep_memory, told};
use application_command::{ApplicationCommand, application_run};
use er_program::{Clock, FileCabinet, LineCommand, MachineClock, Sink};
use mio_wires::MioWires;
use outside::Parts;
use rand::Rng;
use recorded::Recorded;
use telling::Watch;

// The number of the radio block centre of a `serve`.
fn centre_of(command: &LineCommand<'_>) -> Option<u64> {
    match command {
        LineCommand::Serve { rbc, .. } => Some(rbc.get() as u64),
        LineCommand::Call { .. } => None,
    }
}

// The run over these sockets, whose recording goes first. None where there is no memory for the objects.
fn run_over<K: Sink, R: Rng>(
    rt: HostRuntime,
    command: &ApplicationCommand<'_>,
    randoms: &mut R,
    sink: &mut K,
    sockets: &mut MioWires<HostRuntime>,
) -> Option<Ran> {
    let watch = Watch::new(rt.alloc(), centre_of(&command.line)).ok()?;
    let mut cabinet = FileCabinet::new(rt);
    let mut clock = MachineClock::new(rt);
    sockets.keep_time(clock.now());
    let parts = Parts::new(&mut cabinet, sink, sockets, &mut clock, randoms);
    let recorded = Recorded::new(rt.alloc(), parts).ok()?;
    let mut outside = TellingOutside::new(recorded, watch, rt);
    let status = application_run(rt.alloc(), command, &mut outside);
    let left = outside.end(status);
    let ended = Ended {
        status: left.status,
        file: cabinet.why(),
        wires: sockets.fault(),
        has_no_socket: left.has_no_socket,
    };
    Some(Ran {
        ended,
        counts: left.counts,
    })
}

/// What `serve` or `call` with an application asks for. None where there is no memory for the objects.
pub(crate) fn beside<K: Sink, R: Rng>(
    rt: HostRuntime,
    words: &[String],
    command: &ApplicationCommand<'_>,
    randoms: &mut R,
    sink: &mut K,
) -> Option<Ended> {
    keep_memory(rt.alloc());
    let mut sockets = MioWires::with_application(rt.alloc(), rt).ok()?;
    let ran = run_over(rt, command, randoms, sink, &mut sockets)?;
    sockets.finish(MOST_LINGER);
    told::counted(rt, &ran.ended, &ran.counts);
    if ran.ended.status.0 == 0 && centre_of(&command.line).is_none() {
        told::called(rt, words, &ran.counts);
    }
    Some(ran.ended)
}

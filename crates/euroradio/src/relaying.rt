//! `relay`: its objects, and its run.

use crate::MOST_LINGER;
use crate::ended::Ended;
use crate::listening_wires::ListeningWires;
use er_program::{
    Cabinet, Clock, FileCabinet, MachineClock, RelayCommand, Sink, Status, Wires, relay_run,
};
use mio_wires::MioWires;
use outside::Parts;
use rand::Rng;
use std::alloc::Global;

// The run over objects that are lent.
fn run_over<F: Cabinet, K: Sink, W: Wires, C: Clock, R: Rng>(
    alloc: Global,
    command: &RelayCommand<'_>,
    cabinet: &mut F,
    sink: &mut K,
    wires: &mut W,
    clock: &mut C,
    randoms: &mut R,
) -> Status {
    let mut parts = Parts::new(cabinet, sink, wires, clock, randoms);
    relay_run(alloc, command, &mut parts)
}

/// What `relay` asks for. None where there is no memory for the objects. No random word is drawn.
pub(crate) fn relay<K: Sink, R: Rng>(
    rt: HostRuntime,
    command: &RelayCommand<'_>,
    randoms: &mut R,
    sink: &mut K,
) -> Option<Ended> {
    let mut cabinet = FileCabinet::new(rt);
    let mut clock = MachineClock::new(rt);
    let sockets = MioWires::paired(rt.alloc(), rt).ok()?;
    let mut wires = ListeningWires::new(sockets, rt);
    wires.wires.keep_time(clock.now());
    let status = run_over(
        rt.alloc(),
        command,
        &mut cabinet,
        sink,
        &mut wires,
        &mut clock,
        randoms,
    );
    let ended = Ended {
        status,
        file: cabinet.why(),
        wires: wires.wires.fault(),
        has_no_socket: false,
    };
    wires.wires.finish(MOST_LINGER);
    Some(ended)
}

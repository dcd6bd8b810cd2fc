//! Wires that tell people where they listen.

ghost use Rattle.std.specs.Prelude.{None};

use link_trait::{Conn, Failed, Happening, ReadAnswer, Wires, WriteAnswer};
use mio_wires::MioWires;

/// Wires over sockets, which write to the standard error at which address and port they listen. All else is the sockets'.
#[derive(Drop)]
pub(crate) struct ListeningWires {
    pub(crate) wires: MioWires<HostRuntime>,
    rt: HostRuntime,
}

impl ListeningWires {
    pub(crate) fn new(wires: MioWires<HostRuntime>, rt: HostRuntime) -> ListeningWires {
        ListeningWires { wires, rt }
    }
}

impl Wires for ListeningWires {
    ghost state = { λ w. record {
      calls = None;
      lines = None;
      opened = w.wires.opened;
      listening = w.wires.listening;
      faults = w.wires.faults;
      turn_faults = w.wires.turn_faults;
    } };

    fn listen(&mut self, address: &str) -> Result<(), Failed> {
        let answer = self.wires.listen(address);
        if let Some(bound) = self.wires.address() {
            let _ = eprintln!(self.rt; "euroradio: listening at {bound}");
        }
        answer
    }

    fn dial(&mut self, address: &str) -> Result<Conn, Failed> {
        self.wires.dial(address)
    }

    fn turn(&mut self, until: Option<u64>) -> Happening {
        self.wires.turn(until)
    }

    fn read(&mut self, conn: Conn, into: &mut [u8]) -> ReadAnswer {
        self.wires.read(conn, into)
    }

    fn write(&mut self, conn: Conn, piece: &[u8]) -> WriteAnswer {
        self.wires.write(conn, piece)
    }

    fn close(&mut self, conn: Conn) {
        self.wires.close(conn);
    }
}

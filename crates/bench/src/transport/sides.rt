//! Both sides of the transport that is measured.

ghost use Rattle.std.specs.Prelude.{◌≡◌, ◌<◌, ◌≤◌, true, length};
ghost use Rattle.x224_class2.specs.Transport.{is_open};

use er_base::Room;
use er_settings::Settings;
use std::alloc::Global;
use x224_class2::{Transport, TransportDeed};

/// The two sides of a connection that is made, and room for a TPDU.
#[derive(Drop)]
pub struct Sides {
    caller: Transport,
    callee: Transport,
    out: Room,
    given: u64,
    is_made: bool,
    ghost made: { is_made ≡ true → is_open caller.stage ≡ true },
    ghost room: { 1024 ≤ out.capacity },
}

impl Sides {
    /// Two sides with these settings whose connection is made; None where memory is missing.
    pub fn new(alloc: Global, settings: &Settings) -> Option<Sides> {
        let Ok(mut out) = Room::with_capacity(alloc, 1_024) else {
            return None;
        };
        let mut caller = Transport::caller(alloc, settings).ok()?;
        // A side that is let go without a call has a prover read how each of its parts is let go.
        let Ok(mut callee) = Transport::callee(alloc, settings) else {
            drop(caller);
            return None;
        };
        caller.connect(b"1");
        let _request = caller.next_tpdu(&mut out);
        let TransportDeed::Called(_) = callee.receive(out.held()) else {
            drop((caller, callee));
            return None;
        };
        callee.accept(b"2");
        out.clear();
        let _confirm = callee.next_tpdu(&mut out);
        let TransportDeed::Confirmed(_) = caller.receive(out.held()) else {
            drop((caller, callee));
            return None;
        };
        Some(Sides {
            caller,
            callee,
            out,
            given: 2,
            is_made: true,
        })
    }

    /// How many TPDUs both sides gave.
    pub fn given(&self) -> u64 {
        self.given
    }

    /// Hands a message of 1 to 1,032 octets to the caller: whether the callee took it.
    pub fn carry(&mut self, message: &[u8]) -> bool
        requires { (1 ≤ length message.now) × (length message.now ≤ 1032) }
    {
        if !self.is_made || self.caller.hand(message).is_err() {
            return false;
        }
        let mut is_taken = false;
        // A message has nine segments at most.
        for _ in 0..10 {
            if self.pass_to_callee() {
                self.callee.taken();
                is_taken = true;
            }
            self.pass_to_caller();
        }
        is_taken
    }

    // The caller's next TPDU goes to the callee: whether it ends a message.
    fn pass_to_callee(&mut self) -> bool
        ensures { result ≡ true → 0 < length self.new.callee.lasts }
    {
        self.out.clear();
        if !self.caller.next_tpdu(&mut self.out) {
            return false;
        }
        self.given = self.given.saturating_add(1);
        matches!(
            self.callee.receive(self.out.held()),
            TransportDeed::Message(_)
        )
    }

    // The callee's next TPDU goes to the caller.
    fn pass_to_caller(&mut self) {
        self.out.clear();
        if !self.callee.next_tpdu(&mut self.out) {
            return;
        }
        self.given = self.given.saturating_add(1);
        self.is_made = matches!(self.caller.receive(self.out.held()), TransportDeed::Nothing)
            && self.is_made;
    }
}

//! One end of the wire: a station, its deframer, and what is lost on the way to it.

use crate::stations::loss::Loss;
use crate::stations::measured::Measured;
use er_base::Room;
use hdlc_frames::Deframer;

/// A station, its deframer, and what is lost on the way to it.
#[derive(Drop)]
pub struct End {
    pub station: Measured,
    deframer: Deframer,
    pub loss: Loss,
    taken: u64,
}

impl End {
    /// An end with this station.
    pub fn new(station: Measured, loss: Loss) -> End {
        End {
            station,
            deframer: Deframer::new(),
            loss,
            taken: 0,
        }
    }

    /// Reads the octets that come.
    pub fn read(&mut self, now: u64, octets: &[u8], out: &mut Room) {
        let mut left = octets;
        while !left.is_empty() {
            let (used, found) = self.deframer.feed(left);
            if let Some(found) = found {
                if !self.loss.loses() {
                    let taken = self.station.hear(now, &found, out);
                    self.taken = self.taken.saturating_add(taken);
                }
            }
            left = &left[used..];
        }
    }

    /// The payloads that were taken.
    pub fn taken(&self) -> u64 {
        self.taken
    }
}

//! Which links the lines of a tap open, and whether each line stands behind those that it needs.

ghost use Rattle.std.specs.Prelude.{ℕ, ◌≡◌, ◌≤◌, None};
ghost use Rattle.er_tap.specs.Ranges.{AreInRange, IsInRange};
ghost use Rattle.link_audit.specs.Openings.{shown_of, opening_at, TakesTapLine, Checks};

use crate::opening::Opening;
use er_base::{EtcsNumber, Moment};
use er_tap::{TapLine, TapStep};
use tap_model::AuditFault;

/// The most links.
const MOST_LINKS: usize = 64;

/// How each link was opened, where it was.
#[derive(Clone, Copy)]
pub struct Openings {
    links: [Option<Opening>; MOST_LINKS],
}

impl Openings {
    // No link was opened.
    fn none() -> Openings
        ensures { (n : ℕ) → 1 ≤ n → n ≤ 64 → opening_at result n ≡ None }
    {
        Openings {
            links: [None; MOST_LINKS],
        }
    }

    /// How this link was opened, where it was.
    pub fn of(&self, link: u8) -> Option<Opening>
        ensures { shown_of result ≡ opening_at self.now link }
    {
        match self.links.get(link.saturating_sub(1) as usize) {
            Some(opening) => *opening,
            None => None,
        }
    }

    // A line that opens a link wants one that isn't opened, any other one that is.
    fn take(&mut self, line: &TapLine) -> Result<(), AuditFault>
        requires { IsInRange line.now.step }
        ensures { TakesTapLine self.old self.new line.now result }
    {
        match &line.step {
            TapStep::Link {
                link,
                engine,
                rbc,
                moment,
            } => {
                if self.of(*link).is_some() {
                    return Err(AuditFault::LinkTwice {
                        line: line.line,
                        link: *link,
                    });
                }
                self.links[*link as usize - 1] = Some(Opening {
                    engine: EtcsNumber::new(*engine),
                    rbc: EtcsNumber::new(*rbc),
                    moment: Moment::new(*moment),
                });
                Ok(())
            }
            TapStep::Octets { link, .. } => {
                if self.of(*link).is_none() {
                    return Err(AuditFault::NoLink {
                        line: line.line,
                        link: *link,
                    });
                }
                Ok(())
            }
        }
    }
}

/// How the lines open each link; or the first line that names a link that wasn't opened, or opens one twice.
pub fn openings_in(lines: &[TapLine]) -> Result<Openings, AuditFault>
    requires { AreInRange lines.now }
    ensures checks { Checks lines.now result }
{
    let mut openings = Openings::none();
    for line in lines {
        openings.take(line)?;
    }
    Ok(openings)
}

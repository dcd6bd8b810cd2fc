//! Why a send is refused.

ghost use Rattle.std.specs.Prelude.{◌≡◌};
ghost use Rattle.safety_automaton.specs.Views.{refusal_view};
ghost use Rattle.drill_model.specs.Ends.{send_refusal_from_safety};
ghost use Rattle.er_end.specs.Shown.{refusal_view as stack_view};
ghost use Rattle.drill_ends.specs.Refusals.{shown_refusal};

use er_base::Release;
use er_end::SendRefused;
use safety_automaton::SealRefused;

/// Why a send is refused.
#[derive(Clone, Copy)]
pub enum Refusal {
    /// The end is released, for this reason.
    Released(Release),
    /// The safety layer isn't connected.
    NotConnected,
    /// So many octets are none of a message or payload.
    Length(usize),
    /// So many payloads wait to be sent.
    Full(usize),
}

impl Refusal {
    /// Why a side of a safe connection refuses.
    pub fn of_side(refused: SealRefused) -> Refusal
        ensures { shown_refusal result ≡ send_refusal_from_safety (refusal_view refused) }
    {
        match refused {
            SealRefused::Released(release) => Refusal::Released(release),
            SealRefused::NotConnected => Refusal::NotConnected,
            SealRefused::Length(found) => Refusal::Length(found),
        }
    }

    /// Why a stack refuses.
    pub fn of_stack(refused: SendRefused) -> Refusal
        ensures { shown_refusal result ≡ (stack_view refused) }
    {
        match refused {
            SendRefused::Released(release) => Refusal::Released(release),
            SendRefused::NotConnected => Refusal::NotConnected,
            SendRefused::Length(found) => Refusal::Length(found),
            SendRefused::Full(waiting) => Refusal::Full(waiting),
        }
    }
}

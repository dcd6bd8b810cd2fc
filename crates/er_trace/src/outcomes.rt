//! The lines that are outcomes: the words behind that of the outcome are read, and nothing is kept of them.

ghost use Rattle.std.specs.Prelude.{◌≡◌, length, map};
ghost use Rattle.er_base.specs.Rows.{AnswersAsWordsSay};
ghost use Rattle.er_trace.specs.Readings.{are_arguments};

use crate::argument_kind::ArgumentKind;
use er_base::LineFault;
use std::alloc::Global;

/// Reads words as arguments of these kinds, from the left.
#[tactic(auto, unfolding(crate::specs::Readings::are_arguments))]
pub fn check_arguments(
    alloc: Global,
    kinds: &[ArgumentKind],
    words: &[&[u8]],
) -> Result<(), LineFault>
    requires { length words.now ≡ length kinds.now }
    ensures { AnswersAsWordsSay result (are_arguments kinds.now (map (λ w. w.now) words.now)) }
{
    for (place, kind) in kinds.iter().enumerate() {
        kind.check(alloc, words[place])?;
    }
    Ok(())
}

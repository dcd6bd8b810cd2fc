//! What holds of the ends, as facts that a caller can cite.

ghost use Rattle.drill_ends.specs.Keys.{KeyIsFound};
ghost use Rattle.drill_ends.specs.SendCounts.{SendsAreTold};

/// The one key of a link is found as the model finds it, at every moment of 64 bits.
pub fn keys()
    ensures { KeyIsFound }
{}

/// A send is Ok exactly where it isn't refused: what an end tells of an event has as many sends that were Ok as its outcomes have.
pub fn sends()
    ensures { SendsAreTold }
{
    safety_automaton::laws::steps();
}

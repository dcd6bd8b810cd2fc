//! What holds of the queue of happenings, whatever comes.

ghost use Rattle.mio_wires.specs.Queueing.{AllAreTold};

/// A happening with k others before it is told once k + 1 are asked for, unless its connection is closed meanwhile.
pub fn all_are_told()
    ensures { AllAreTold }
{}

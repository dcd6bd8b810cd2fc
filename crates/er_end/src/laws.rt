//! What the definitions of this crate imply, as facts that a caller can cite. The functions do nothing; their contracts are the laws.

ghost use Rattle.er_end.specs.Keeping.{WaitsMove, OctetsBring, ReleaseStays, BreaksRelease, ReleasedWantNone, ReleasedTellNone, Uses};
ghost use Rattle.er_end.specs.Standing.{MadeStands, StepsAlike, RunsAlike, ShowsAlike};

/// What the code keeps of an end stands for an end of the end model: it does so from its making, each call is one step of the model with
/// the same outcomes, and so is a run of calls; and what shows between two calls is what the model says.
pub fn standing()
    ensures made { MadeStands }
    ensures steps { StepsAlike }
    ensures runs { RunsAlike }
    ensures shows { ShowsAlike }
{
    hdlc_station::laws::steps_alike();
    x224_class2::laws::standing();
    safety_automaton::laws::lengths();
    hdlc_frames::laws::goes_on();
}

/// What an event leaves of what the code keeps. Behind it wait the messages that waited, without the oldest where it is a take, and with
/// the one that it accepted, and octets alone bring one. An end stays released, for its reason; one whose line ended, failed or stalled is
/// released; and a released end wants no tick, and octets that come to it tell nothing.
pub fn keeping()
    ensures waits { WaitsMove }
    ensures bring { OctetsBring }
    ensures stays { ReleaseStays }
    ensures breaks { BreaksRelease }
    ensures wants_none { ReleasedWantNone }
    ensures tells_none { ReleasedTellNone }
{}

/// An end uses at least one octet of those that come, and no more than come; a released one uses all.
pub fn used_octets()
    ensures { Uses }
{}

//! What the definitions of this crate imply, as facts that a caller can cite. The functions do nothing; their contracts are the laws.

ghost use Rattle.loop_model.specs.Told.{EventsAreHeard};
ghost use Rattle.loop_session.specs.Keeping.{kept_ends};
ghost use Rattle.loop_session.specs.Standing.{RunsAlike, ServesAlike, DialsAlike};

/// A loop over ends as the code keeps them does what the loop over ends of the end model does, from its beginning: the same events, calls,
/// turns and answers of the clock, and the same sessions, but that each end is kept so.
pub fn standing()
    ensures runs { RunsAlike }
    ensures serves { ServesAlike }
    ensures dials { DialsAlike }
{
    er_end::laws::standing();
    hdlc_frames::laws::kept_stands_for_stream();
}

/// Of ends as the code keeps them, of which the contracts of a session's calls speak: an event with all that follows it lets the user of the session
/// hear exactly what the events of the journal say, and of the release of its end once and last, where it is let go.
pub fn hearing()
    ensures { EventsAreHeard kept_ends }
{}

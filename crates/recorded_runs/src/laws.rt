//! The laws, each as a function of which its contract is the statement: they run nothing.

ghost use Rattle.std.specs.Prelude.{◌≡◌, ℕ, List, []};
ghost use Rattle.er_settings.specs.Making.{usual_settings};
ghost use Rattle.outside.specs.Doings.{Told};
ghost use Rattle.outside.specs.Ties.{IsLeft, PutsInSink};
ghost use Rattle.loop_model.specs.Journals.{trace_header};
ghost use Rattle.recorded.specs.Recordings.{IsBeginningOf};
ghost use Rattle.recorded.specs.Telling.{told_through};
ghost use Rattle.er_serving.specs.RecordedLines.{IsLineRecorded};
ghost use Rattle.recorded_runs.specs.Inside.{GoesBehindRecording, octets_of_run};

use outside::Outside;
use recorded::Recorded;

/// Where all that was done to an outside whose recording goes first is a run of `serve` or `call`, by all acts inside, in their one order: what goes to
/// a connection stands behind the lines that tell of it in the sink there, what closes one behind all its lines, and behind a write that failed nothing goes.
/// Refuses an outside that writes behind its send, and one that lets go of what waits at a close.
pub fn goes_behind_its_recording<O: Outside + Drop>(recorded: &Recorded<O>)
    ensures { (before : Told) → before.acts ≡ [] → (run : IsLineRecorded before (told_through recorded.now.history.acts (O.told recorded.now.outside)))
        → GoesBehindRecording (trace_header usual_settings) run.loop.acts (O.told recorded.now.outside).acts }
{
    recorded::laws::goes_behind_its_lines(recorded);
    recorded::laws::is_still_behind_a_fault(recorded);
    recorded::laws::tells_what_comes(recorded);
}

/// What the sink inside holds then is a beginning of what the run was to write, in its loop and behind it. Refuses an outside that writes a line twice, or one
/// before another.
pub fn holds_a_beginning_of_its_run<O: Outside + Drop>(recorded: &Recorded<O>)
    ensures { (before : Told) → before.acts ≡ [] → (run : IsLineRecorded before (told_through recorded.now.history.acts (O.told recorded.now.outside)))
        → (octets : List ℕ) → IsLeft PutsInSink (O.told recorded.now.outside).acts octets
        → IsBeginningOf octets (octets_of_run run.loop.acts run.behind.acts) }
{
    recorded::laws::holds_a_beginning(recorded);
}

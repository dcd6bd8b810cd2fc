//! What holds of the recordings of a loop, as facts that a caller can cite.

ghost use Rattle.loop_recordings.specs.Heard.{TakenAreHeard};
ghost use Rattle.loop_recordings.specs.Shorts.{OutcomesAreShort};
ghost use Rattle.loop_recordings.specs.Recordings.{RecordingsAreReplays, DialsAreReplays, CallersKeySuffices};

/// With the usual settings each outcome of each event of a trace is short, whatever the events before it and however keys are looked up:
/// the peer's number is an ETCS number, a message has 1 to 1,023 octets, and at most 2,700 octets go to the line at once.
pub fn outcomes_are_short()
    ensures { OutcomesAreShort }
{
    hdlc_frames::laws::frame_length();
    hdlc_frames::laws::control_length();
    x224_tpdu::laws::reading();
    x224_class2::laws::segments();
    safety_automaton::laws::steps();
    safety_automaton::laws::valid_sides();
    safety_automaton::laws::lengths();
}

/// Where a message is taken for a user, the user hears that message, whatever its length. (It refuses a loop that keeps messages of some lengths
/// from its users, as those above 700 octets, though its definition says so too.)
pub fn taken_are_heard()
    ensures { TakenAreHeard }
{
    outcomes_are_short();
}

/// The recording of a loop with the usual settings is its own replay: it is read as a trace, of which a replay with the loop's keys refuses
/// no event, and prints the same text.
pub fn recordings()
    ensures { RecordingsAreReplays }
{
    outcomes_are_short();
    er_trace::laws::printed_is_read();
}

/// That of a dial that opened one connection is its own replay with any keys that have for the caller's pair what the loop's own have at
/// the moment of the call; so with any keys among which the caller's is.
pub fn dials()
    ensures own { DialsAreReplays }
    ensures caller { CallersKeySuffices }
{
    outcomes_are_short();
    er_trace::laws::printed_is_read();
    er_end_model::laws::events_speak_once();
    loop_model::laws::journal();
    loop_model::laws::recordings();
    loop_model::laws::openings();
}

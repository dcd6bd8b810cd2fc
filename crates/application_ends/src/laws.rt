//! The laws of the stack's ends under a loop with an application, each as a function of which its contract is the statement: they run nothing.

ghost use Rattle.application_ends.specs.Laws.{StackKeepsMessages, StackTakesTheOldest, StackTakesAlone, StackLosesNothing, OutcomesSayTheStage, KnownStagesAreTrue, ReplaysTellTheSame, ReplaysPrintRecordings};

/// An end of the stack keeps what it accepts, in order, until it is taken. Refuses an end that lets go of what waits as it is released, a take that tells the
/// newest message, and an event that makes another end of one that is there.
pub fn keeps_messages()
    ensures { StackKeepsMessages }
{
    safety_automaton::laws::steps();
}

/// A take takes the oldest message that waits, and nothing but a take takes one. Refuses an end of which nothing is taken any more once it is released.
pub fn takes_the_oldest()
    ensures oldest { StackTakesTheOldest }
    ensures alone { StackTakesAlone }
{
    safety_automaton::laws::steps();
}

/// Each message that an end of the stack accepted is taken and told to an application, in order, or waits at the end; and at a live connection it waits for
/// nothing but an application with room. Refuses a loop that takes where no application is there.
pub fn loses_nothing()
    ensures { StackLosesNothing }
{
    safety_automaton::laws::steps();
    application_model::laws::service_is_as_claimed();
    application_model::laws::accepted_are_told();
    application_model::laws::knows_by_events();
    application_model::laws::waits_for_room_alone();
}

/// What outcomes say of an end is true of it: it is connected, to that peer, exactly where they said so, and released exactly where they told it. So is what a
/// loop knows of each live connection. Refuses an end that doesn't tell its release.
pub fn stages_are_true()
    ensures end { OutcomesSayTheStage }
    ensures known { KnownStagesAreTrue }
{
    safety_automaton::laws::steps();
    application_model::laws::knows_by_events();
}

/// What comes of an event at an end of the stack is what a replay of a recording prints of it. So at each moment a replay prints what a loop recorded, under a key
/// file that gives, at the moment of each event, the keys that held as it came: one in which old entries stay, with their windows, where the loop read anew.
/// Refuses an end that answers as of another moment than that of its event.
pub fn replays_tell_the_same()
    ensures event { ReplaysTellTheSame }
    ensures recording { ReplaysPrintRecordings }
{
    application_model::laws::each_event_by_its_end();
}

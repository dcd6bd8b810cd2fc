//! The laws of a loop with an application, each as a function of which its contract is the statement: they run nothing.

ghost use Rattle.application_model.specs.Laws.{ServiceIsAsClaimed, EachBeginningIsAsClaimed, WaitsForRoomAlone, AcceptedAreTold, EndsHaveTheirEvents, KnowsByEvents, EachTellsItsOwn, EventsHaveTheNewestKeys, ToldBeginsTheJournal, LinesAreRead, ReadBeginsTheSaid, DoneBeginsTheAsked, AllAskedIsDone, HasWordsOfRecording};

/// Whatever comes, the application is told in turn, its lines are done in turn, each connection goes by its own events, and what a connection accepted is taken
/// in order, or waits. Refuses that a message is taken for an application that isn't there, that a line is told twice, and that a send to a
/// connection that is gone is dropped silently.
pub fn service_is_as_claimed()
    ensures { ServiceIsAsClaimed }
{}

/// So at each moment, wherever its history is cut: what was told and done by then is the oldest that was owed. Refuses a loop that owes a line for a while and
/// tells a younger one first.
pub fn each_beginning_is_as_claimed()
    ensures { EachBeginningIsAsClaimed }
{}

/// A message waits for nothing but room and an application. Refuses a loop that takes nothing, or one message a turn.
pub fn waits_for_room_alone()
    ensures { WaitsForRoomAlone }
{}

/// Of ends that keep messages, and of which nothing but a take takes one: each message that an end accepted was told, in order, or waits at it. Refuses a loop
/// that takes where no application is there, and one that tells a message as it is accepted.
pub fn accepted_are_told()
    ensures { AcceptedAreTold }
{}

/// What a loop knows of a live connection is what the events at its end told, and these are the events of that connection. Refuses a loop that uses a number
/// again.
pub fn knows_by_events()
    ensures knows { KnowsByEvents }
    ensures ends { EndsHaveTheirEvents }
{}

/// What comes of each event is what the end of its connection tells behind the events that came at it before. Refuses a loop that gives an end an event twice,
/// and prints what came of the second.
pub fn each_event_by_its_end()
    ensures { EachTellsItsOwn }
{}

/// Each event comes under the keys of the newest reading of the key file that found no fault. Refuses a loop that goes on with the keys of its start, and one
/// that lets go of keys where the file can't be read.
pub fn events_have_the_newest_keys()
    ensures { EventsHaveTheNewestKeys }
{}

/// What an application was told of a connection, at each moment, begins the lines of its journal from where it attached on. Refuses that a line is told before
/// its event.
pub fn told_begins_the_journal()
    ensures { ToldBeginsTheJournal }
{}

/// The lines that an application brings are read in turn, each once, and at each moment begin what its octets say. Refuses that a line is read twice, or
/// left out where several come at once.
pub fn lines_are_read()
    ensures read { LinesAreRead }
    ensures begins { ReadBeginsTheSaid }
{
    application_lines::laws::streams_go_on();
}

/// What was done of the application's lines, at each moment, begins what they asked for, in order; and where nothing is owed it is all of that. Refuses that a
/// `send` is an event twice, or at another connection, and a release that no line asked for.
pub fn done_begins_the_asked()
    ensures begins { DoneBeginsTheAsked }
    ensures all { AllAskedIsDone }
{}

/// The lines to the application have the words of the recording.
pub fn words_are_the_recordings()
    ensures { HasWordsOfRecording }
{}

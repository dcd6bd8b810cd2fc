//! The laws of what a loop with an application did, each as a function of which its contract is the statement: they run nothing.

ghost use Rattle.application_serving.specs.Laws.{ServesByTheModel, LosesNoneSoFar, RecordsFirst, WritesWhatReplays, GivesInOrder, ReadsInOrder, DoesInOrder};

/// At each moment all is so that the model of the loop claims of a history: each connection goes by its own events, messages are taken where there is room, and
/// nothing is accepted behind a drain. Refuses a loop of which a run is right as a whole alone.
pub fn serves_by_the_model()
    ensures { ServesByTheModel }
{
    application_model::laws::each_beginning_is_as_claimed();
}

/// At each moment a message that an end of this stack accepted was taken, or waits at the end, in order. Refuses a loop that lets go of messages with an
/// application that dies.
pub fn loses_none_so_far()
    ensures { LosesNoneSoFar }
{
    application_model::laws::each_beginning_is_as_claimed();
    application_ends::laws::keeps_messages();
}

/// Nothing is given to a connection that its end didn't tell in an event that was recorded before. Refuses that octets are written before the lines of their
/// event.
pub fn records_first()
    ensures { RecordsFirst }
{}

/// What was written so far is what a replay prints of its events, under a key file that gives the keys that held as they came. Refuses a loop that records an
/// event as of other keys than those it went by.
pub fn writes_what_replays()
    ensures { WritesWhatReplays }
{
    application_ends::laws::replays_tell_the_same();
}

/// What was given to an application begins the lines that it was told, and these begin, connection by connection, the lines of the journal from where it came.
/// Refuses that what waited for an application is given to the next one, and that a line is given twice.
pub fn gives_in_order()
    ensures { GivesInOrder }
{
    application_model::laws::each_beginning_is_as_claimed();
    application_model::laws::told_begins_the_journal();
}

/// The lines that were read of an application begin what the octets say that were read of it. Refuses a loop that answers a line that nobody sent, and one that
/// reads the lines of one application with what another one began.
pub fn reads_in_order()
    ensures { ReadsInOrder }
{
    application_lines::laws::streams_go_on();
    application_model::laws::each_beginning_is_as_claimed();
    application_model::laws::lines_are_read();
}

/// What was done of the application's lines begins what they asked for. Refuses a send that is done before one that was read before it.
pub fn does_in_order()
    ensures { DoesInOrder }
{
    application_model::laws::each_beginning_is_as_claimed();
    application_model::laws::done_begins_the_asked();
}

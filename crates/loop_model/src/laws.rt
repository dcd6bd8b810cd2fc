//! What holds of the loop, whatever the outside answers, as facts that a caller can cite.

ghost use Rattle.loop_model.specs.Alone.{ConnectionsStandAlone, DialStandsAlone};
ghost use Rattle.loop_model.specs.Handled.{HappeningsAreHandled};
ghost use Rattle.loop_model.specs.Sizes.{ReadsAreSized};
ghost use Rattle.loop_model.specs.Failures.{FaultsAreInPlace};
ghost use Rattle.loop_model.specs.Points.{OctetsAreHeard, UsersReply};
ghost use Rattle.loop_model.specs.Expiries.{ClosingsAreInTime};
ghost use Rattle.loop_model.specs.Faulted.{FaultsAreTold};
ghost use Rattle.loop_model.specs.Takings.{AllAreTaken};
ghost use Rattle.loop_model.specs.Cuts.{EventsAreCut, TurnsCut, RestsAreDropped};
ghost use Rattle.loop_model.specs.Walks.{SessionsAreLed};
ghost use Rattle.loop_model.specs.Moments.{EventsAreTimed};
ghost use Rattle.loop_model.specs.Records.{RecordsBegin, ClosedExactly, HaltsRest};
ghost use Rattle.loop_model.specs.Lawful.{TurnsAreLawful, JournalsAreLawful};
ghost use Rattle.loop_model.specs.Openings.{OpeningsAreTold, DialIsOpened};
ghost use Rattle.loop_model.specs.Recordings.{RecordingsReplay};
ghost use Rattle.loop_model.specs.Visitings.{TurnsVisit};
ghost use Rattle.loop_model.specs.Shows.{EndsShow};
ghost use Rattle.loop_model.specs.Orderings.{OrderIsKept, OpeningIsKept};
ghost use Rattle.loop_model.specs.Ends.{model_ends};
ghost use Rattle.loop_model.specs.Told.{EventsAreHeard, SpeechIsHeard, UsersHear};
ghost use Rattle.loop_model.specs.Settling.{WritableIsWritten, VisitsWrite, ClosesHaveReasons};
ghost use Rattle.loop_model.specs.Stalls.{StallsAreTold};
ghost use Rattle.loop_model.specs.Unmade.{UnmadeIsClosed};
ghost use Rattle.loop_model.specs.Turnings.{EndsAreTold, OthersAreClosed, ReadableProgress, TicksAreDue, WordsAreNext};
ghost use Rattle.loop_model.specs.Writings.{AllAreGiven, BrokenAreLeft, ExpiredAreClosed, LiveAreWhole, OutputIsWritten, RestWaits, TurnsWait};
ghost use Rattle.loop_model.specs.Laws.{ConnectionsAreIsolated, JournalIsPrinted, OctetsAreAccounted, CallsAreOnOpen, FaultsHaveFailed, OneReadATurn, TurnsAreCounted, FewAreLive, SessionsRise};

/// The outcomes of each connection are those that the end model gives to its own events, whichever session answered for it; and what is
/// printed of the journal is the printed text of its events.
pub fn journal()
    ensures isolated { ConnectionsAreIsolated }
    ensures printed { JournalIsPrinted }
{}

/// A replay refuses no event of the journal, whatever the numbers of their lines, and what it prints is what the loop printed: the
/// recording of a loop replays to itself.
pub fn recordings()
    ensures { RecordingsReplay }
{}

/// The octets given to a connection are a beginning of those of its outcomes, in order.
pub fn octets()
    ensures { OctetsAreAccounted }
{}

/// The octets given to a connection that was closed in order are all those of its outcomes. At a live one the rest of them waits, which is
/// what its last write left; and where each write takes an octet at least, as wires promise, octets wait only where the last one found no
/// room. No live connection had an event `ended`, `fault` or `stalled`, or a read or a write that failed.
pub fn octets_given()
    ensures all { AllAreGiven }
    ensures rest { RestWaits }
    ensures written { OutputIsWritten }
    ensures whole { LiveAreWhole }
{}

/// The joined octets of a connection's events are a beginning of those taken from it, and all of them where it never stalled.
pub fn octets_taken()
    ensures { OctetsAreHeard }
{}

/// The sends and the release of each connection are, in order, the replies that the relation of its user's kind gives to what the user
/// hears, each behind the event that it answers, from the mind of the user that the connection took; in the end no reply is due.
pub fn replies()
    ensures { UsersReply }
{
    er_end_model::laws::released_rest();
}

/// What a user is told, for users that tell what they heard. An event that the loop gives an end, with all that follows it, lets the user of the
/// session hear exactly what the events of the journal say: that the connection was made, each message that was taken, each text of its own
/// that was refused, in their places, and the release of the end with its reason, its sub-reason and who released, where the end is released: then, and
/// only then, it is let go. So each user whose speech the events of a connection lead on tells these; and so do, for all events of their
/// connections, the users of the sessions that are live.
pub fn hearing()
    ensures events { EventsAreHeard model_ends }
    ensures speech { SpeechIsHeard }
    ensures live { UsersHear }
{
    er_end_model::laws::released_rest();
}

/// No call is made on a connection that was closed.
pub fn open_connections()
    ensures { CallsAreOnOpen }
{}

/// There are at most as many events `fault` as reads and writes that failed.
pub fn faults()
    ensures { FaultsHaveFailed }
{}

/// A connection has one event `fault`, where a read or a write of it failed and its events before hadn't released it; it has none elsewhere. It stands
/// directly behind the read or the write that failed; behind a write that failed of a released connection comes its close.
pub fn faults_told()
    ensures one { FaultsAreTold }
    ensures place { FaultsAreInPlace }
{}

/// Before a turn nothing is read. Behind it a connection is read from once, exactly where it is readable, live and not released. A read asks for 4,096 octets.
pub fn reads()
    ensures once { OneReadATurn }
    ensures sized { ReadsAreSized }
{}

/// No turn follows one that ended or failed. The loop halts as ended exactly where its last turn ended, and fails exactly where that
/// failed. It does at most the turns of the plan, and all of them where it doesn't halt. Its moment is the greatest that the clock
/// answered.
pub fn turns()
    ensures { TurnsAreCounted }
{}

/// At most 256 connections are live, and their sessions are in rising number.
pub fn sessions()
    ensures few { FewAreLive }
    ensures rise { SessionsRise }
{}

/// In each turn those connections are ticked, each once, in rising number, whose deadline is at or below the moment before the turn.
pub fn ticks()
    ensures { TicksAreDue }
{}

/// An event `ended` comes exactly where a read answered that the line ended.
pub fn endings()
    ensures { EndsAreTold }
{}

/// An event `stalled` comes exactly where the octets that wait at a connection and the new ones together are more than 262,144, directly
/// behind the event that gave the new ones; and no more wait at a live connection.
pub fn stalls()
    ensures { StallsAreTold }
{}

/// In a visit in which a line ends or a session stalls nothing is written to it, and behind a read or a write that fails nothing is.
pub fn broken()
    ensures { BrokenAreLeft }
{}

/// Each end that is opened has the next random word; a connection that is turned away since there is no memory for its session uses one up, and no other word
/// is drawn.
pub fn words()
    ensures { WordsAreNext }
{}

/// Behind a turn no session is left that broke off, and none that is released and owes nothing: nothing waits to be written, or its connection was dialled
/// and the wires never told of it.
pub fn closings()
    ensures { OthersAreClosed }
{}

/// Where no turn tells of the connection that was dialled, its live session isn't released: it was closed in the visit in which it was.
pub fn unmade()
    ensures { UnmadeIsClosed }
{}

/// Where each read gives an octet at least, and gives none only where none waits or where it fails, as wires promise: a turn in which a
/// live connection is readable that isn't released takes an octet from it where one waits, or the read fails.
pub fn progress()
    ensures { ReadableProgress }
{}

/// Each connection that is accepted has one event that opens it with the next random word, or says why it isn't opened: 256 are live, no user is left, or
/// there is no memory for its session; it is closed then. The one that is dialled begins with such an event.
pub fn openings()
    ensures accepted { OpeningsAreTold }
    ensures dialled { DialIsOpened }
{}

/// Before a turn, behind the ticks, exactly those connections are closed whose closing moment is at or below the moment; and a turn waits
/// until the least of the deadlines and closing moments that are left.
pub fn moments()
    ensures expired { ExpiredAreClosed }
    ensures until { TurnsWait }
{}

/// A live connection has a closing moment exactly where its events released it: the set-up time behind the event that did.
pub fn closing_moments()
    ensures { ClosingsAreInTime }
{}

/// A connection that is ticked, read from or written to is closed only where its line ended or failed, it stalled, or a write of it failed, or
/// where its end is released and all that waited and all that was told were given.
pub fn closing_reasons()
    ensures { ClosesHaveReasons }
{}

/// Where octets wait at a connection that is writable, it is written to at once; and what is left behind a tick, which comes before a turn, or behind
/// a writable happening waits for room.
pub fn visits_write()
    ensures first { WritableIsWritten }
    ensures rest { VisitsWrite }
{}

/// The end of a live connection is the one, of the end model, that its events so far lead to.
pub fn live_ends()
    ensures { SessionsAreLed }
{}

/// In a turn the events before it have the greatest moment that the clock answered up to the one answer before it, those behind it the
/// greatest up to the one answer behind it; the events of the opening of a dial the greatest up to the one answer before it.
pub fn clock()
    ensures { EventsAreTimed }
{}

/// The record of a loop that serves begins with one listen at the address handed in, that of a loop that dials with one dial of it, and
/// neither comes again. A loop halts as closed exactly where it dials, none of its turns ended or failed, and no session is live; nothing
/// comes behind a halt.
pub fn records()
    ensures begin { RecordsBegin }
    ensures closed { ClosedExactly }
    ensures rest { HaltsRest }
{}

/// Messages are taken as long as one waits: at the end that a connection's events so far lead to, one at least waits before a take, none
/// before what comes from the line, the clock or the loop, and none behind the last event.
pub fn takes()
    ensures { AllAreTaken }
{}

/// The journal of a loop is lawful for the record of its calls. Of each turn of a loop that has come so far: its openings, its one read, its ticks,
/// until when it waits, and the moments of its events. Of the whole: the outcomes of each connection, what was heard of it and when it ended or failed,
/// the takes, the octets that were given and those that wait, the calls on open connections, and what is live then.
pub fn lawful()
    ensures turns { TurnsAreLawful }
    ensures journals { JournalsAreLawful }
{}

/// The octets that are read are cut behind each frame that they close, and nowhere else: of the octets of an event none but the last closes
/// a frame, unless the end is released; and octets that close none, or come to a released end, are the last of their connection in their
/// turn. No octets come behind a stall.
pub fn cuts()
    ensures events { EventsAreCut }
    ensures turns { TurnsCut }
    ensures dropped { RestsAreDropped }
{}

/// What is done at the live connections in a turn: before it each is visited, in rising number, and then those are closed whose closing moment
/// has come; behind it the one that is readable or writable is, and no other.
pub fn visits()
    ensures { TurnsVisit }
{}

/// What the loop asks of an end is what the end model says: its deadline, its release, how many messages wait, and which octets one event has.
pub fn ends()
    ensures { EndsShow }
{}

/// The events that a loop prints and the calls that it makes come in one order. At each place of it the octets that were given to a connection are a
/// beginning of those of the outcomes that were printed of it before; and behind the close of a connection no event of it is printed, and no call is
/// made on it. So it is in the opening of a dial by itself.
pub fn order()
    ensures kept { OrderIsKept }
    ensures opening { OpeningIsKept }
{}

/// What a loop that serves prints of a connection and does at it is what a loop does to which that connection comes alone, at the same moments: its
/// lines, the octets that it is given, what its user hears. All that others change is which user and which random word it finds, and whether it is turned
/// away since 256 are live or there is no memory for its session. So two loops do the same of it where what of the outside is its own is the same.
pub fn alone()
    ensures serving { ConnectionsStandAlone }
    ensures dialling { DialStandsAlone }
{}

/// A loop asks for one happening a turn, in the order in which they are told, and what it does of it is done before it asks for the next: of what is told with
/// k others before it the connection is visited, or opened, in turn k + 1, unless the loop halted before.
pub fn handled()
    ensures { HappeningsAreHandled }
{}

//! What the definitions of this crate imply of events at an end, as facts that a caller can cite. The functions do nothing; their
//! contracts are the laws.

ghost use Rattle.er_end_model.specs.Laws.{EventsSpeakOnce, ReleasedRest, OffersRest, AnyCut};
ghost use Rattle.er_end_model.specs.Giving.{EventsGive};
ghost use Rattle.er_end_model.specs.Releasing.{EndReleases, RunsRelease};
ghost use Rattle.er_end_model.specs.Timing.{ExpiresAtDeadline, TimelyEnds};
ghost use Rattle.er_end_model.specs.Origins.{OctetOutcomesHaveOrigin, RunsAreHeard, StreamIsWhole};

/// An event of an end is at most one step of its safety side, and what it tells, seals and verifies is what that step says. Of octets
/// this holds of each frame that they close.
pub fn events_speak_once()
    ensures { EventsSpeakOnce }
{
    safety_automaton::laws::accepts_verified();
}

/// What an event gives to the safety side is the request of the user at a send and at a release, the request to connect where a frame brought
/// the link up, or the text that the layers below made of a frame; and each such text and each such request of the user is given.
pub fn events_give()
    ensures { EventsGive }
{}

/// Each message that an end accepts, and each peer with whom it connects, is the doing of a text whose MAC verified, and which the layers below
/// made of one of the frames that octets from the line closed: of one event, and of a run of events. Frames are cut out of all octets that came,
/// in their order.
pub fn octets_are_heard()
    ensures event { OctetOutcomesHaveOrigin }
    ensures run { RunsAreHeard }
    ensures stream { StreamIsWhole }
{
    safety_automaton::laws::steps();
    safety_automaton::laws::accepts_verified();
}

/// An end is released for a cause wherever the cause is met, and only there: each row of the table of releases, and the peer's DI. It tells each
/// release, and no other. Each release in a run of events is that of one event.
pub fn releases()
    ensures event { EndReleases }
    ensures run { RunsRelease }
{
    hdlc_station_model::laws::receives_give();
    hdlc_station_model::laws::ticks_give();
    safety_automaton::laws::steps();
    safety_automaton::laws::releases();
}

/// An end finds a timer expired at a moment exactly where its deadline has come: an end behind any events, and any end whose station saw no moment
/// behind the end's last one, as each event keeps it.
pub fn expires_at_deadline()
    ensures run { ExpiresAtDeadline }
    ensures timely { TimelyEnds }
{}

/// A released end does nothing more: no event but a take and a send tells anything, a take sends nothing, and a send is refused for the reason of
/// the release.
pub fn released_rest()
    ensures { ReleasedRest }
{}

/// What goes down behind an event goes down to the end, where the station isn't Down and its window is 31 at most: a payload waits then, or no
/// TPDU is due.
pub fn offers_rest()
    ensures { OffersRest }
{}

/// However octets are cut that come at one moment, their outcomes are the same, and they lead to the same end, what its last event told aside.
pub fn any_cut()
    ensures { AnyCut }
{
    hdlc_frames::laws::kept_stands_for_stream();
}

//! What holds of the last TPDUs and frames of an end, as facts that a caller can cite.

ghost use Rattle.er_end_laws.specs.LastTpdus.{EndsAreLive, LastTpdus};

use hdlc_station_model::laws::{receives_give, releases_are_told};

/// What an end sends last, by what releases it: a DR with the DI of the reason and then DISC for its user, the safety side and the time for the set-up; a
/// DR without user data and then DISC for a faulty block or TPDU; DC to a DR; DISC to a DI in another TPDU; nothing where the station or the line ends
/// it. DR and DC go where the station may send at once, and nowhere else; and no event that doesn't release an end gives one or says DISC. This holds of
/// each end that was opened, behind any events. Refused, for one: an end whose DR for an unexpected SaPDU, 5.1, has no DI; one that sends DISC before its DR.
pub fn last_tpdus()
    ensures table { LastTpdus }
    ensures ends { EndsAreLive }
{
    receives_give();
    releases_are_told();
    safety_automaton::laws::steps();
    safety_automaton::laws::releases();
}

//! What is claimed of two sides of a safe connection.

ghost use Rattle.safety_pair_laws.specs.Talks.{TalksAreAuthentic};
ghost use Rattle.safety_pair_laws.specs.Deliveries.{FlowsDeliver};
ghost use Rattle.safety_pair_laws.specs.Marks.{MarksGrow};

/// Facts behind others are marked as these facts by themselves would be behind the marks of the others.
pub fn marks_grow()
    ensures { MarksGrow }
{}

/// Authentic messages and peers, whatever lies between two sides: each accepted message is one whose MAC verified under the side's
/// session keys, and one that the peer sent before, unless it is forged; each connection is one of the side itself, and one with a
/// peer that has the same random numbers and session keys, unless it is forged. A text is marked as forged only where neither side had sealed
/// it, and a connection only so or where a text that was verified earlier in its set-up is marked.
pub fn talks_are_authentic()
    ensures { TalksAreAuthentic }
{
    safety_automaton::laws::steps();
    safety_automaton::laws::texts_tell();
}

/// Where two sides agree, and each SaPDU comes to the other side once, unchanged and in order: nothing is forged, no more deliveries are
/// made than messages were sent and SaPDUs of a set-up, and once nothing is under way all that was sent is accepted, in order.
pub fn flows_deliver()
    ensures { FlowsDeliver }
{
    safety_automaton::laws::steps();
    cbc_mac::laws::mac_below();
    sapdu::laws::spelled_is_read();
}

//! The rule of one side of a safe connection, as laws of the model: what a step does and why, what is accepted, what releases, and
//! what follows.

ghost use Rattle.safety_automaton.specs.Rules.{StepsOnly, StepsEach, CauseReleases, ReleasesOnly};
ghost use Rattle.safety_automaton.specs.Laws.{AcceptsVerified, VerifiedAccepts, AcceptsSpelled, SpelledAccepts, SpelledIsReceived, ReceivedIsSpelled, ConnectsOnly, ReleasedRests, MakesValid, StaysValid, StaysItself, SendsOwn, KeysAreOwn, KeysStay, KeysOnly, LengthsAre, SendsFew, TextsTell, FindsEach, FindsOnly};

/// A step is what its row says: it has an outcome only where the outcome's row is met, and wherever the row is met.
pub fn steps()
    ensures only { StepsOnly }
    ensures each { StepsEach }
{}

/// A side releases for a cause wherever the cause is met, and only there.
pub fn releases()
    ensures each { CauseReleases }
    ensures only { ReleasesOnly }
{}

/// Only a verified message is accepted: the side is connected, the direction flag is the peer's, and the MAC octets are the MAC of the
/// sealed text under the session keys. And each verified message is accepted.
pub fn accepts_verified()
    ensures only { AcceptsVerified }
    ensures each { VerifiedAccepts }
{}

/// The same in octets: a connected side accepts exactly the DT that its peer spells of 1 to 1,023 user octets, sealed under the
/// session keys.
pub fn accepts_spelled()
    ensures only { AcceptsSpelled }
    ensures each { SpelledAccepts }
{
    sapdu::laws::spelled_is_read();
    sapdu::laws::read_is_spelled();
    cbc_mac::laws::mac_below();
}

/// An SaPDU with the peer's flag is received exactly where the octets spell it.
pub fn received_is_spelled()
    ensures received { SpelledIsReceived }
    ensures spelled { ReceivedIsSpelled }
{
    sapdu::laws::spelled_is_read();
    sapdu::laws::read_is_spelled();
}

/// A side is connected only so: it was, a responder received an AU3 or an initiator an AR whose MAC is that of its text.
pub fn connects_only()
    ensures { ConnectsOnly }
{}

/// A released side ignores what it receives, refuses what it is to send, and stays released.
pub fn released_rests()
    ensures { ReleasedRests }
{}

/// The sides that there can be: numbers in range, phases by role; made so, and kept so by each step, which keeps number and role.
pub fn valid_sides()
    ensures makes { MakesValid }
    ensures stays { StaysValid }
    ensures itself { StaysItself }
{
    sapdu::laws::read_is_spelled();
}

/// What a side sends is an SaPDU with its own direction flag, whose numbers fit.
pub fn sends_own()
    ensures { SendsOwn }
{
    cbc_mac::laws::mac_below();
}

/// The session keys of an outcome are those of the side; they stay; and they come to be known with an AU2 or an AU3 that is sent.
pub fn session_keys()
    ensures own { KeysAreOwn }
    ensures stay { KeysStay }
    ensures only { KeysOnly }
{}

/// The lengths of what is sent and of what is accepted.
pub fn lengths()
    ensures each { LengthsAre }
    ensures most { SendsFew }
{
    er_base::laws::octets_of_numbers();
    sapdu::laws::read_is_spelled();
}

/// Sealed texts that are equal are of one kind, and tell the same flag, receiver and content.
pub fn texts_tell()
    ensures { TextsTell }
{
    er_base::laws::octets_of_numbers();
}

/// The look-up of keys with moments: the entry of the pair that holds is found, and only such a one.
pub fn finds()
    ensures each { FindsEach }
    ensures only { FindsOnly }
{}

//! What holds of two ends of the whole stack over two lines, as facts that a caller can cite.

ghost use Rattle.er_end_pair_laws.specs.Laws.{Delivery, DeliveryBound, DrainEmpties, FewWait, InStep, LosingLineReasons, OneFrame, Prefix};
ghost use Rattle.er_end_pair_laws.specs.Ordered.{InStepWhileOrdered};
ghost use Rattle.er_end_pair_laws.specs.Greetings.{Greets};
ghost use Rattle.er_end_pair_laws.specs.Recovery.{PassesRelease, Recovery};
ghost use Rattle.er_end_pair_laws.specs.RecoveryInTurn.{RecoveryInTurn};
ghost use Rattle.er_end_pair_laws.specs.LawsBelow.{LawsBelow, LossFreeLawsBelow};

// What the public laws of the layers below say.
fn laws_below()
    ensures { LawsBelow }
{
    er_settings::laws::allowed_are_bounded();
    hdlc_station_model::laws::receives_give();
    hdlc_station_model::laws::ticks_give();
    hdlc_station_model::laws::others_keep();
    hdlc_pair_laws::laws::calls_keep();
    t70_header::laws::wrapping();
    x224_tpdu::laws::writing();
    x224_class2::laws::segments();
    sapdu::laws::messages();
    sapdu::laws::spelled_is_read();
    sapdu::laws::lengths_of_spellings();
    safety_automaton::laws::steps();
    safety_automaton::laws::lengths();
    cbc_mac::laws::mac_below();
}

// And what a loss-free line rests on besides.
fn loss_free_laws_below()
    ensures { LossFreeLawsBelow }
{
    laws_below();
    hdlc_station_model::laws::releases_are_told();
    hdlc_pair_laws::laws::loss_free_keeps();
    sapdu::laws::lengths_of_spellings();
}

/// A line that only loses and repeats: what an end accepted is a prefix of what the other sent, whatever the keys.
pub fn prefix()
    ensures { Prefix }
{
    laws_below();
}

/// A line that only loses and repeats: the first frame that waits is one frame at the other end, and nothing besides.
pub fn one_frame()
    ensures { OneFrame }
{
    laws_below();
}

/// A line that only loses and repeats, where the radio block centre finds the engine's KMAC: each release is 0.x, 1.1, 1.2, 1.4 or
/// 6.1, by this end or by the peer.
pub fn losing_line_reasons()
    ensures { LosingLineReasons }
{
    laws_below();
}

/// A loss-free line, where the radio block centre finds the engine's KMAC: once no frame waits and every accepted message was taken,
/// both ends are connected, and each accepted all that the other sent, in order.
pub fn delivery()
    ensures { Delivery }
{
    loss_free_laws_below();
}

/// A loss-free line, where the radio block centre finds the engine's KMAC: at most fourteen deliveries and four for each segment of the
/// users' messages are ever made, so a drain of as many passes leaves no frame waiting.
pub fn delivery_bound()
    ensures bound { DeliveryBound }
    ensures drain { DrainEmpties }
{
    loss_free_laws_below();
}

/// A loss-free line, where the radio block centre finds the engine's KMAC: never more than 254 frames wait in one direction.
pub fn few_wait()
    ensures { FewWait }
{
    loss_free_laws_below();
}

/// A loss-free line, where the radio block centre finds the engine's KMAC: the two safety sides are in step. Both know the same connection as
/// soon as they know one, and none has verified a text of the set-up that the other hadn't sealed.
pub fn in_step()
    ensures { InStep }
{
    loss_free_laws_below();
}

/// A line that only loses and repeats, where the radio block centre finds the engine's KMAC: a live end that knows session keys heard the CC of the
/// other, and one that is connected heard a message of the other; and what a live end gave and said tells how far it is.
pub fn in_step_while_ordered()
    ensures { InStepWhileOrdered }
{
    laws_below();
}

/// Such a line: the first payload that the radio block centre took is the block of a CR with the AU1 of the engine, and the first that the engine
/// took that of a CC with the AU2 of the radio block centre or of a DR, with the random numbers of the opening. An end may be released.
pub fn greets()
    ensures { Greets }
{
    laws_below();
}

/// Whatever a line that keeps its order lost and repeated, while no end was released, where the radio block centre finds the engine's KMAC: all that
/// waits is given; a moment finds each T1 that runs expired, no end gives up, and the time for the set-up isn't spent; all that waits is given, and all
/// that was accepted is taken. Then both ends are live and connected, and each accepted all that the other sent, in order. While frames are given and
/// messages taken, and nothing else happens, no live end is released.
pub fn recovery()
    ensures recovered { Recovery }
    ensures live { PassesRelease }
{
    laws_below();
    hdlc_pair_laws::laws::mending_keeps();
}

/// So the deadlines of both stations may come in either order: a moment finds T1 of one end expired, of the other or not, and no end gives up; all that
/// waits is given; a moment finds T1 of the other end expired, where it still runs, and the time for the set-up isn't spent; all that waits is given, and
/// all that was accepted is taken. Then both ends are live and connected, and each accepted all that the other sent, in order.
pub fn recovery_in_turn()
    ensures { RecoveryInTurn }
{
    laws_below();
    hdlc_pair_laws::laws::mending_keeps();
}

//! What follows from the definitions alone, for whoever rests on them. The functions do nothing;
//! their contracts are the laws.

ghost use Rattle.x224_class2.specs.Laws.{CutIsJoined, JoinsInParts, SegmentsFit, SegmentsAreFew, AcknowledgesAtMost, AcknowledgesAll, TakingRises, ReceivingRises};
ghost use Rattle.x224_class2.specs.Causes.{CauseRefuses, RefusesOnly};
ghost use Rattle.x224_class2.specs.Standing.{MadeStands, ConnectStands, AcceptStands, HandStands, TakenStands, ReceptionStands, NextStands, CountsStand, NextIsWritable};

/// Messages and their segments: cutting and joining undo each other, and what acknowledges rises.
pub fn segments()
    ensures joined { CutIsJoined }
    ensures parts { JoinsInParts }
    ensures fit { SegmentsFit }
    ensures few { SegmentsAreFew }
    ensures most { AcknowledgesAtMost }
    ensures all { AcknowledgesAll }
    ensures taking { TakingRises }
    ensures receiving { ReceivingRises }
{}

/// A side refuses a TPDU for a cause wherever the cause is met before its connection is over, and only there.
pub fn refusals()
    ensures each { CauseRefuses }
    ensures only { RefusesOnly }
{}

/// What the code keeps of a side stands for a side of the transport model, and each call on it is that
/// model's step: with the same deed, the same octets and the same counts.
pub fn standing()
    ensures made { MadeStands }
    ensures connect { ConnectStands }
    ensures accept { AcceptStands }
    ensures hand { HandStands }
    ensures taken { TakenStands }
    ensures receive { ReceptionStands }
    ensures next { NextStands }
    ensures counts { CountsStand }
    ensures writable { NextIsWritable }
{
    x224_tpdu::laws::reading();
}

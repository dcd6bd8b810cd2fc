//! The laws of what a relay carries, each as a function of which its contract is the statement: they run nothing.

ghost use Rattle.relay_model.specs.Laws.{PartsAreSent, UnitsGoOn, UnitsEndInFrames, FramesEndUnits, UnitsAreShort, GivenBegins, LoadsGoOn, ClosedStays, PassedIsSent, LosingLine};

use hdlc_frames::laws::flag_parts;

/// The parts that octets are cut into, and what is held behind them, are these octets. Refuses that the flag which ends too long a run is dropped.
pub fn parts_are_sent()
    ensures { PartsAreSent }
{}

/// Units don't depend on how octets were read: the cut goes on from where the side stands.
pub fn units_go_on()
    ensures { UnitsGoOn }
{}

/// The octet that ends a unit closes one frame of all that came, and it is the frame that is found in the unit. Refuses that each flag ends a unit, and
/// that a unit behind a shared flag is read without it.
pub fn units_end_in_frames()
    ensures { UnitsEndInFrames }
{
    flag_parts();
}

/// Where octets are held, an octet that closes a frame ends a unit. Refuses that two frames are one unit.
pub fn frames_end_units()
    ensures { FramesEndUnits }
{
    flag_parts();
}

/// A unit has at most 4,096 octets. Refuses that octets are held for ever.
pub fn units_are_short()
    ensures { UnitsAreShort }
{
    flag_parts();
}

/// What is given of a beginning is never taken back. Refuses that a line names a unit by what comes behind it.
pub fn given_begins()
    ensures { GivenBegins }
{}

/// What is given goes on from where the side stands and the units that came.
pub fn loads_go_on()
    ensures { LoadsGoOn }
{}

/// Behind a close nothing is given. Refuses that octets which are held are given behind a close.
pub fn closed_stays()
    ensures { ClosedStays }
{}

/// Without a line for a side all it sent is carried. Refuses that what is held at the side's end is dropped, and that a line of the other side counts.
pub fn passed_is_sent()
    ensures { PassedIsSent }
{}

/// Lines that lose, repeat and delay make a line that only loses and repeats frames. Refuses that octets which are too many for a unit are one: where
/// they are lost, what is left of their frame is found as another.
pub fn losing_line()
    ensures { LosingLine }
{
    flag_parts();
}

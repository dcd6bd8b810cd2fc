//! The laws of what a relay did, each as a function of which its contract is the statement: they run nothing.

ghost use Rattle.relay_loop.specs.Laws.{ToldFirst, AllIsGiven, GivenIsRead, FoundAreSent};

use hdlc_frames::laws::cut_goes_on;
use relay_model::laws::{closed_stays, losing_line, passed_is_sent};

/// Nothing is given that wasn't printed before: to no socket but a side of a connection, and no octet that a line hadn't told as given to it. Refuses that
/// lines are written behind what they tell, and that who called is told on its own socket that nobody could be dialled.
pub fn told_first()
    ensures { ToldFirst }
{}

/// Without a line all that was read of a side was given by each wait, but for what is held of it while it hasn't ended. Refuses that octets wait for the next
/// visit, and that what was held is dropped at the side's end.
pub fn all_is_given()
    ensures { AllIsGiven }
{
    closed_stays();
    passed_is_sent();
}

/// Without a line for a side, what was given of it is a beginning of what was read. Refuses that an octet is given twice, and that one is left out.
pub fn given_is_read()
    ensures { GivenIsRead }
{
    passed_is_sent();
}

/// Lines that lose, repeat and delay make a line that only loses and repeats frames, wherever a run ends. Refuses that part of what is given for a unit is
/// given before the rest of what stands before it.
pub fn found_are_sent()
    ensures { FoundAreSent }
{
    losing_line();
    cut_goes_on();
}

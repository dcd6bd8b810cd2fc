//! The laws of every list of steps.

ghost use Rattle.std.specs.Prelude.{List};
ghost use Rattle.er_settings.specs.Ranges.{AllAllowed};
ghost use Rattle.er_scenario.specs.declared.step.Step.{Step};
ghost use Rattle.drill_model.specs.Steps.{AllFit};
ghost use Rattle.drill_model.specs.Worlds.{DrillPlan};
ghost use Rattle.drill_model.specs.Opened.{LinksAreOpened, SettingsStay};
ghost use Rattle.drill_model.specs.Hearing.{HeardIsBrought, PayloadsAreBrought};
ghost use Rattle.drill_model.specs.Effects.{Steps};
ghost use Rattle.drill_model.specs.Sides.{EndsAnswer};
ghost use Rattle.drill_laws.specs.LawsOfEnds.{StackLaws, StationLaws};
ghost use Rattle.drill_laws.specs.Laws.{LawfulAlways, OpensAlways, RoomAlways, InOrderAlways, LosingLineReasonsAlways, DeliversAlways, RepairsAlways, DrainsAlways};
ghost use Rattle.drill_model.specs.Claims.{OrderIsUnforged, TakesInOrder};
ghost use Rattle.drill_model.specs.Headline.{HoldsAlways};
ghost use Rattle.drill_model.specs.Printing.{PrintedAsMarked, LinesInOrder};
ghost use Rattle.drill_model.specs.PrintedCounts.{DrainsCount, OnlyDrainsAreTold, TotalsCount, LinksAreClosed};
ghost use Rattle.drill_model.specs.PrintedWords.{TextReadsBack, DrillsAreTold, DrillTextReadsBack};
ghost use Rattle.drill_laws.specs.Stacks.{StacksAccept, StacksRun, StacksTalk};

// What each call of a station of either kind does to its lists and its release.
fn station_laws()
    ensures { StationLaws }
{
    hdlc_pair_laws::laws::frames_give();
    hdlc_station_model::laws::ticks_give();
    hdlc_station_model::laws::others_keep();
    hdlc_station_model::laws::releases_are_told();
    hdlc_station_model::laws::released_are_inert();
}

// What holds of two ends of the whole stack, and what each call of a stack reports.
fn stack_laws()
    ensures { StackLaws }
{
    er_end_pair_laws::laws::prefix();
    er_end_pair_laws::laws::one_frame();
    er_end_pair_laws::laws::losing_line_reasons();
    er_end_pair_laws::laws::delivery();
    er_end_pair_laws::laws::delivery_bound();
    safety_automaton::laws::steps();
    drill_model::laws::stacks_report();
    safety_pair_laws::laws::marks_grow();
}

/// The headline: what is claimed of the world that a list of steps leads to holds of every list, at every moment of the steps that are done.
/// The laws below say the same point by point, each with no more premises than it needs.
pub fn holds()
    ensures { HoldsAlways }
{
    worlds();
    settings_stay();
    steps();
    lawful();
    heard();
    payloads();
    ends_answer();
    takes();
    in_order();
    losing_line_reasons();
    order_is_unforged();
    delivery();
    recovery();
}

/// What came at each link is lawful, whatever the steps: at levels safe and full, messages and peers are authentic; at levels link and link-sr
/// nothing of a safety layer came. Nothing came at a number that wasn't opened.
pub fn lawful()
    ensures { LawfulAlways }
{
    safety_pair_laws::laws::talks_are_authentic();
    station_laws();
    drill_model::laws::histories();
}

/// What came at each link is printed with the marks by which it is judged; and the lines of one event of an end come in the order of
/// the table of lines, where octets in which several frames close are one event a frame.
pub fn printed()
    ensures marks { PrintedAsMarked }
    ensures order { LinesInOrder }
{
    safety_pair_laws::laws::marks_grow();
    drill_model::laws::histories();
}

/// From the printed text of a drill all is told again that came and is printed, in its order and with its marks, and what its closing lines say,
/// where the numbers have 64 bits and the octets are octets.
pub fn text_reads_back()
    ensures told { DrillsAreTold }
    ensures drills { DrillTextReadsBack }
    ensures lines { TextReadsBack }
{
    counted();
    er_base::laws::printed_lines();
    er_base::laws::printed_words();
    er_base::laws::decimal_words();
    er_base::laws::hexadecimal_words();
}

/// What is printed as a count is the number of what came: the line of a drain tells the passes of that drain, and no other step has such a line;
/// the totals are counts over the links 1 to 64; and each link that was opened has one closing line, with its passes and the frames that wait.
pub fn counted()
    ensures drains { DrainsCount }
    ensures only_drains { OnlyDrainsAreTold }
    ensures totals { TotalsCount }
    ensures closings { LinksAreClosed }
{
    safety_automaton::laws::steps();
    drill_model::laws::histories();
}

/// On a link of level link, link-sr or full that keeps its order, whatever it loses and repeats, what an end accepted is a prefix of what the
/// other sent, at each moment.
pub fn in_order()
    ensures { InOrderAlways }
{
    hdlc_pair_laws::laws::prefix();
    stack_laws();
    er_settings::laws::allowed_are_bounded();
    station_laws();
    drill_model::laws::histories();
}

/// On such a link an end is released by its own user, or since the set-up was never answered, without progress, or since the peer
/// disconnected; at level full, where the keys agree, also since the time for the set-up was spent, and each by the own end or by the peer.
pub fn losing_line_reasons()
    ensures { LosingLineReasonsAlways }
{
    hdlc_pair_laws::laws::losing_line_reasons();
    stack_laws();
    er_settings::laws::allowed_are_bounded();
    station_laws();
    drill_model::laws::histories();
}

/// Delivery: on a link that is loss-free so far no more frames were passed than its bound says; once it is empty, both ends are connected and
/// each has accepted what the other sent, in order; and a drain of as many passes as the bound leaves nothing waiting. Nothing is forged
/// there.
pub fn delivery()
    ensures { DeliversAlways }
{
    safety_automaton::laws::steps();
    safety_pair_laws::laws::flows_deliver();
    hdlc_pair_laws::laws::delivery();
    hdlc_pair_laws::laws::delivery_bound();
    order_is_unforged();
    stack_laws();
    er_settings::laws::allowed_are_bounded();
    station_laws();
    drill_model::laws::histories();
}

/// A link has the opening of the first step that opens its number; a step opens a link exactly where its line is one of the level's and names
/// a number of 1 to 64 that isn't open, and then the link is as that line and the settings say; and behind
/// a step that is done at most 4,096 frames wait in each direction of any link.
pub fn worlds()
    ensures opens { OpensAlways }
    ensures opened { (plan : DrillPlan) (steps : List Step) → LinksAreOpened plan steps }
    ensures room { RoomAlways }
{
    drill_model::laws::histories();
    drill_model::laws::runs_grow();
}

/// What a link did and had is what the file says: each step brings about at it what its words say, and nothing else; each message that an
/// end sent is the text of a step that sends at that end, in their order; and without the steps that alter, insert, lose, repeat or have a user
/// release, and where no timer ran out at a tick, the link keeps its order and is loss-free.
pub fn steps()
    ensures { (plan : DrillPlan) (steps : List Step) → Steps plan steps }
{
    safety_automaton::laws::steps();
    drill_model::laws::histories();
    drill_model::laws::runs_grow();
}

/// What a side of a safe connection heard is what the line brought it: at level safe the SaPDU that was passed to it last, at level full a text that
/// its layers made of a frame which the octets closed that were passed to it last, behind all that were passed before.
pub fn heard()
    ensures { (plan : DrillPlan) (steps : List Step) → HeardIsBrought plan steps }
{
    safety_automaton::laws::steps();
    er_end_model::laws::events_give();
    drill_model::laws::histories();
}

/// What a station accepted, whatever its line did, is the information of an I frame whose check sequence is right, and which the octets closed
/// that were passed to it last; with selective reject also one that an earlier pass brought.
pub fn payloads()
    ensures { (plan : DrillPlan) (steps : List Step) → PayloadsAreBrought plan steps }
{
    drill_model::laws::histories();
}

/// Each end of a link keeps the file's settings, at every moment: its station the modulo, the window, N2 and T1, a stack also the time for its
/// set-up.
pub fn settings_stay()
    ensures { (plan : DrillPlan) (steps : List Step) → SettingsStay plan steps }
{
    drill_model::laws::histories();
}

/// What the user of an end took is a prefix of what the end accepted, whatever the steps; and each take of a link of level full tells the oldest message
/// that was accepted and not taken yet, or that there is none.
pub fn takes()
    ensures { (plan : DrillPlan) (steps : List Step) → TakesInOrder plan steps }
{
    safety_automaton::laws::steps();
    drill_model::laws::stacks_report();
    station_laws();
    drill_model::laws::histories();
}

/// What an end answers, whatever the steps: a send is refused exactly where its end is released, isn't connected, the length is out of range or
/// 16 wait, with that reason; a user's release at an end that told none is one with the reason 0 and the user's sub-reason; an end tells one
/// release at the most, and is released exactly where it told one; and behind its last frames a released end accepts, sends and tells nothing
/// more.
pub fn ends_answer()
    ensures { (plan : DrillPlan) (steps : List Step) → EndsAnswer plan steps }
{
    safety_automaton::laws::steps();
    station_laws();
    hdlc_pair_laws::laws::timers_start();
    drill_model::laws::histories();
}

/// On a link of level link, link-sr or full that keeps its order, whatever it loses and repeats, nothing is forged where the keys agree, also where
/// an end is released.
pub fn order_is_unforged()
    ensures { (plan : DrillPlan) (steps : List Step) → AllFit steps → AllAllowed plan.settings → OrderIsUnforged plan steps }
{
    er_end_pair_laws::laws::in_step_while_ordered();
    stack_laws();
    station_laws();
    drill_model::laws::histories();
}

/// On a link of level link, link-sr or full that keeps its order, whose ends agree and of which none was released: passes and takes until no frame
/// waits, a tick at which each T1 that runs is found expired, and passes and takes until the link is empty leave nothing lost; and, at levels link
/// and link-sr, how many passes a drain takes at most.
pub fn recovery()
    ensures repairs { RepairsAlways }
    ensures drains { DrainsAlways }
{
    hdlc_pair_laws::laws::recovery();
    hdlc_pair_laws::laws::passes_are_bounded();
    er_end_pair_laws::laws::recovery();
    stack_laws();
    er_settings::laws::allowed_are_bounded();
    station_laws();
    drill_model::laws::histories();
    drill_model::laws::runs_grow();
}

/// A link of level full is two ends over two lines behind steps of their own, and the stream of each end is what was passed to it.
pub fn stacks_run()
    ensures { StacksRun }
{
    stack_laws();
    er_end_model::laws::events_give();
    drill_model::laws::histories();
}

/// The facts of a link of level full are those of a talk of the safety sides of its two ends, whatever its line did.
pub fn stacks_talk()
    ensures { StacksTalk }
{
    station_laws();
    drill_model::laws::histories();
}

/// What a side of a link of level full accepted stands in its facts, whatever its line did.
pub fn stacks_accept()
    ensures { StacksAccept }
{
    drill_model::laws::histories();
}

//! How a run, its marks and its text grow by steps.

ghost use Rattle.drill_model.specs.StackReports.{OpensOrderly, CallsReport};
ghost use Rattle.drill_model.specs.Growth.{RunGrows, TextGrows, HistoryGrows, FactsGrow, HistoryOfOwn, HistoryOfOther, WorldMarksGrow, LinkMarksGrow, LinkText};

/// A step behind others goes on from their world, and its lines stand behind theirs.
pub fn runs_grow()
    ensures run { RunGrows }
    ensures text { TextGrows }
{}

/// What came at a link, of what came in a world.
pub fn histories()
    ensures grow { HistoryGrows }
    ensures facts { FactsGrow }
    ensures own { HistoryOfOwn }
    ensures other { HistoryOfOther }
{}

/// The marks of what came behind other things, and the lines of what came at one link.
pub fn marks_grow()
    ensures world { WorldMarksGrow }
    ensures link { LinkMarksGrow }
    ensures text { LinkText }
{
    safety_pair_laws::laws::marks_grow();
}

/// A stack is orderly as it is opened and behind each call: its safety side is connected only behind its transport. And what it keeps of
/// a call is what the step of its safety side tells.
pub fn stacks_report()
    ensures opens { OpensOrderly }
    ensures calls { CallsReport }
{
    safety_automaton::laws::steps();
    safety_automaton::laws::session_keys();
}

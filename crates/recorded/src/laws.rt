//! What holds of every outside whose recording goes first, at each moment, in words of its own: laws on the acts that a program did to it and on those
//! that were done inside.

ghost use Rattle.std.specs.Prelude.{◌≡◌, ℕ, Bool, false, List, ◌∷◌, ◌++◌, IsTrue, IsFalse};
ghost use Rattle.std.specs.List.{list_any};
ghost use Rattle.outside.specs.Acts.{Act, Wrote, is_sink_fault};
ghost use Rattle.outside.specs.Ties.{IsLeft, PutsInSink};
ghost use Rattle.recorded.specs.Recordings.{is_outward, is_untold, octets_written_in, octets_offered_in, inward_acts, IsBehindItsLines, IsDoneInside, IsBeginningOf, IsStill};

use crate::recorded::Recorded;
use outside::Outside;

/// What goes to a peer goes behind all that the program had written before it did that, and the sink inside has just these octets then.
pub fn goes_behind_its_lines<O: Outside + Drop>(_recorded: &Recorded<O>)
    ensures { (done rest : List Act) (act : Act) → (O.told _recorded.now.outside).acts ≡ done ++ act ∷ rest → IsTrue (is_outward act)
        → IsBehindItsLines done act _recorded.now.history.acts }
{}

/// So where a program writes the line of each thing before it does that, the line stands in what was written inside when it goes: `tells` says whether
/// octets tell of an act. It doesn't matter which write of the recording fails, or whether one does.
pub fn goes_behind_what_tells_of_it<O: Outside + Drop>(_recorded: &Recorded<O>)
    ensures { (tells : List ℕ → Act → Bool)
        → ((before behind : List Act) (act : Act) → _recorded.now.history.acts ≡ before ++ act ∷ behind → IsTrue (is_outward act) → IsTrue (tells (octets_written_in before) act))
        → (done rest : List Act) (act : Act) → (O.told _recorded.now.outside).acts ≡ done ++ act ∷ rest → IsTrue (is_outward act) → IsTrue (tells (octets_written_in done) act) }
{}

/// Behind a write that failed nothing goes, nothing is waited for and nothing is written.
pub fn is_still_behind_a_fault<O: Outside + Drop>(_recorded: &Recorded<O>)
    ensures { (done rest : List Act) (piece : List ℕ) → (O.told _recorded.now.outside).acts ≡ done ++ Wrote piece false ∷ rest → IsStill rest }
{}

/// What the program was told that it went, went.
pub fn does_what_it_tells<O: Outside + Drop>(_recorded: &Recorded<O>)
    ensures { (before behind : List Act) (act : Act) → _recorded.now.history.acts ≡ before ++ act ∷ behind → IsTrue (is_outward act) → IsFalse (is_untold act)
        → IsDoneInside before act (O.told _recorded.now.outside).acts }
{}

/// What comes in is what came in inside.
pub fn tells_what_comes<O: Outside + Drop>(_recorded: &Recorded<O>)
    ensures { inward_acts (O.told _recorded.now.outside).acts ≡ inward_acts _recorded.now.history.acts }
{}

/// What the sink inside was given is a beginning of what the program was to write.
pub fn holds_a_beginning<O: Outside + Drop>(_recorded: &Recorded<O>)
    ensures { (octets : List ℕ) → IsLeft PutsInSink (O.told _recorded.now.outside).acts octets → IsBeginningOf octets (octets_offered_in _recorded.now.history.acts) }
{}

/// Acts of which no write failed leave in a sink just what they wrote.
pub fn leaves_what_was_written()
    ensures { (acts : List Act) (octets : List ℕ) → IsFalse (list_any is_sink_fault acts) → IsLeft PutsInSink acts octets → octets ≡ octets_written_in acts }
{}

//! What follows from the definitions alone, for whoever rests on them. The functions do nothing;
//! their contracts are the laws.

ghost use Rattle.x224_tpdu.specs.Reading.{SpellsOne, SpelledHasNoFault, WrittenIsSpelled, SpelledIsWritable, WrittenIsShort};
ghost use Rattle.x224_tpdu.specs.Parameters.{CutsParameters};
ghost use Rattle.x224_tpdu.specs.ReadingLaws.{ReadingOfSpelled, ReadingOfFaulty, ReadingOfWritten, ReadingIsInRange, ReadingSpells};

/// Octets spell one TPDU at most, and those that spell one have no fault; so [`crate::read`] answers
/// a TPDU exactly where the octets spell it, and a fault exactly where they spell none. The function
/// of octets that layers above name gives the same answers, a TPDU only where the octets spell it.
/// The parameters that the rules speak of are the ones that make up the octets. What is read is within
/// its bounds, whatever numbers stand in the list.
pub fn reading()
    ensures one { SpellsOne }
    ensures no_fault { SpelledHasNoFault }
    ensures spelled { ReadingOfSpelled }
    ensures faulty { ReadingOfFaulty }
    ensures parameters { CutsParameters }
    ensures in_range { ReadingIsInRange }
    ensures spells { ReadingSpells }
{}

/// What [`crate::write_into`] appends is a spelling of the TPDU, so [`crate::read`] gives it back; and
/// every TPDU that can be read can be written, ER aside, in 1,024 octets at most.
pub fn writing()
    ensures spelled { WrittenIsSpelled }
    ensures writable { SpelledIsWritable }
    ensures short { WrittenIsShort }
    ensures read_back { ReadingOfWritten }
{}

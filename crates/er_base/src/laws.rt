//! What the definitions of this crate imply, as facts that a caller can cite.

ghost use Rattle.std.specs.Prelude.{◌^◌};
ghost use Rattle.er_base.specs.Numbers.{NamesWhatIsPrinted};
ghost use Rattle.er_base.specs.Hexadecimal.{IsReadBack, WordsSpellOctets};
ghost use Rattle.er_base.specs.Octets.{two, three, eight};
ghost use Rattle.er_base.specs.OctetLaws.{IsSpelling, JoinsOctets, PartsOctets};
ghost use Rattle.er_base.specs.Sides.{NamesItsWord};
ghost use Rattle.er_base.specs.Memory.{IsOne};
ghost use Rattle.er_base.specs.LineTexts.{LinesAreReadBack, WordsAreReadBack};

/// A word names a number below 2^64 exactly where it is what that number is printed as.
pub fn decimal_words()
    ensures { NamesWhatIsPrinted }
{}

/// Octets that are printed in hexadecimal are read back.
pub fn hexadecimal_words()
    ensures { IsReadBack }
{}

/// What a hexadecimal word spells are octets.
pub fn spelled_octets()
    ensures { WordsSpellOctets }
{}

/// Numbers and the octets that spell them: how many octets, that they are octets, and that a number and its octets tell
/// each other.
pub fn octets_of_numbers()
    ensures two { IsSpelling two 2 (2 ^ 16) }
    ensures three { IsSpelling three 3 (2 ^ 24) }
    ensures eight { IsSpelling eight 8 (2 ^ 64) }
{}

/// Octets before octets are octets, and so are the parts of octets.
pub fn octets_of_parts()
    ensures joined { JoinsOctets }
    ensures parts { PartsOctets }
{}

/// A word names an end of a link exactly where it is that end's word.
pub fn side_words()
    ensures { NamesItsWord }
{}

/// All want of memory is one value.
pub fn want_of_memory()
    ensures { IsOne }
{}

// The text grammar.

/// Lines that are printed are read as the same words.
pub fn printed_lines()
    ensures { LinesAreReadBack }
{}

/// What is printed of numbers, ends and octets are words, and are read as the same values.
pub fn printed_words()
    ensures { WordsAreReadBack }
{}

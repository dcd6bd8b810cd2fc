//! What the definitions of this crate imply, as facts that a caller can cite.

ghost use Rattle.sapdu.specs.SpellingLaws.{IsTested, IsReadBack, IsSpelledBack, SpellsOne, IsReadAsDi, SpellsOctets, SpellsItsLength, SpellsFew};
ghost use Rattle.sapdu.specs.SealedLaws.{SealsOne, TellsHeading, TellsUser, SealsOctets, SealsFew};

use er_base::laws::{octets_of_numbers, octets_of_parts};

/// What is spelled is read back as itself.
pub fn spelled_is_read()
    ensures { IsReadBack }
{
    octets_of_numbers();
}

/// What is read spells the octets that it was read from, and a list of octets spells at most one SaPDU.
pub fn read_is_spelled()
    ensures back { IsSpelledBack }
    ensures one { SpellsOne }
{
    octets_of_numbers();
    octets_of_parts();
}

/// Octets are a DI with a flag, of a reason and a sub-reason, exactly where they are read as that.
pub fn di_is_read()
    ensures { IsReadAsDi }
{}

/// A spelling is octets, as many as its kind has, and never more than 1,032.
pub fn lengths_of_spellings()
    ensures octets { SpellsOctets }
    ensures kind { SpellsItsLength }
    ensures few { SpellsFew }
{
    octets_of_numbers();
    octets_of_parts();
}

/// Two sealed texts that are equal, or equal after padding with zero octets, are those of the same kind, flag, receiver and
/// content.
pub fn sealed_texts()
    ensures { SealsOne }
{
    octets_of_numbers();
}

/// Two sealed texts that are equal have the same kind, flag and receiver, and those of two messages the same user octets,
/// whatever the bounds of their numbers are.
pub fn equal_texts()
    ensures heading { TellsHeading }
    ensures user { TellsUser }
{}

/// A sealed text is octets, at most 1,029 of them.
pub fn lengths_of_texts()
    ensures octets { SealsOctets }
    ensures few { SealsFew }
{
    octets_of_numbers();
    octets_of_parts();
}

/// User octets are a message exactly where the test says so.
pub fn messages()
    ensures { IsTested }
{}

//! What follows from the definitions of the blocks alone, for whoever rests on them. The functions do
//! nothing; their contracts are the laws.

ghost use Rattle.t70_header.specs.JoiningLaws.{AddingJoins, HoldsOnlyWhatWaits, WrappedIsJoined};

/// What [`crate::Joiner::add`] answers to blocks one after the other is what those blocks come to:
/// they are joined up to the first one without the more-bit, or the first faulty one is named.
/// Behind a whole TPDU and behind a fault nothing is held.
pub fn adding_joins()
    ensures joins { AddingJoins }
    ensures rests { HoldsOnlyWhatWaits }
{}

/// A TPDU of up to 1,024 octets that [`crate::wrap`] wrote is joined to itself by a joiner that holds
/// nothing.
pub fn wrapping()
    ensures { WrappedIsJoined }
{}

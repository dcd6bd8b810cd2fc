//! The laws of the check sequence, each as a function of which its contract is the statement: they run
//! nothing.

ghost use Rattle.hdlc_fcs.specs.Laws.{FcsIsSmall, ResidueTellsIntact, ContentReadsBack};

/// A check sequence has sixteen bits.
pub fn fcs_is_small()
    ensures { FcsIsSmall }
{}

/// The check sequence over content with its check sequence is 0F47, and that of no other content.
pub fn residue_tells_intact()
    ensures { ResidueTellsIntact }
{}

/// Content that was written is intact, and has its address and its body.
pub fn content_reads_back()
    ensures { ContentReadsBack }
{}

//! How a stream is heard frame by frame, and which links the text of an audit is of, as facts that a caller can cite. The functions do nothing; their
//! contracts are the laws.

ghost use Rattle.tap_model.specs.Ears.{HearingTurns};
ghost use Rattle.tap_model.specs.AllLinks.{AuditHasAllLinks};
ghost use Rattle.tap_model.specs.StreamEnds.{EndsAreTold, RulesEnd, ItemsAreCounted};

/// Frame by frame an ear hears what all frames of a stream say.
pub fn hearing_turns()
    ensures { HearingTurns }
{}

/// The text of an audit is that of each link that the tap opens, numbers rising, the engine's side first, and of no other link; where ends are asked
/// for, each side's line of its end stands behind its items. Of each tap that can be read.
pub fn audit_has_all_links()
    ensures { AuditHasAllLinks }
{}

/// What the end of a stream tells is what is heard of its frames: which frame ended the list of texts, by which rule, how many I frames counted up to
/// it, how many frames are left behind it, and that nothing of these is heard, whatever they are; where none ended it, that the next I frame would be.
/// And each frame that meets a rule ends the list for that cause.
pub fn ends_are_told()
    ensures told { EndsAreTold }
    ensures rules { RulesEnd }
{}

/// The items that the line of an end counts are those that have a line each in the audit.
pub fn items_are_counted()
    ensures { ItemsAreCounted }
{}

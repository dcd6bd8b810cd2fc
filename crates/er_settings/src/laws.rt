//! What the definitions of this crate imply, as facts that a caller can cite.

ghost use Rattle.er_settings.specs.Laws.{AllowedAreBounded, WordsAreNamed};

/// Settings that are in their ranges are within these bounds; a window is below its modulo.
pub fn allowed_are_bounded()
    ensures { AllowedAreBounded }
{}

/// The word of a setting names it.
pub fn words_are_named()
    ensures { WordsAreNamed }
{}

//! The laws of frames, each as a function of which its contract is the statement: they run nothing.

ghost use Rattle.hdlc_bits.specs.Laws.{
  VerdictsAreFrames,
  VerdictsFromTheFirst,
  SameBitsSameVerdicts,
  KeptGoesOn,
  ReadingGoesOn,
  NothingIsRead,
  FramesGrow,
  WrittenAreRead,
  FrameAlone,
  FrameLength,
};

use hdlc_fcs::laws::{content_reads_back, fcs_is_small};

/// The verdicts that a deframer gives over any list of pieces are what the bits used add to the frames of the line
/// before.
pub fn verdicts_are_frames()
    ensures { VerdictsAreFrames }
{}

/// From the first bit on they are the frames of the bits used.
pub fn verdicts_from_the_first()
    ensures { VerdictsFromTheFirst }
{}

/// Whatever a deframer keeps, two lists of pieces of which the same bits were used give the same verdicts and leave
/// the same.
pub fn same_bits_same_verdicts()
    ensures { SameBitsSameVerdicts }
{}

/// What is kept of a line with bits behind it is what they leave of what was kept.
pub fn kept_goes_on()
    ensures { KeptGoesOn }
{}

/// A call from a place of octets on goes on with what was read of them before it.
pub fn reading_goes_on()
    ensures { ReadingGoesOn }
{}

/// No bits have no frames.
pub fn nothing_is_read()
    ensures { NothingIsRead }
{}

/// What a line is read as begins with what its beginning is read as.
pub fn frames_grow()
    ensures { FramesGrow }
{}

/// Frames written one behind another are read as these frames.
pub fn written_are_read()
    ensures { WrittenAreRead }
{
    content_reads_back();
    fcs_is_small();
}

/// A frame that was written is read as this one frame.
pub fn frame_alone()
    ensures { FrameAlone }
{
    content_reads_back();
    fcs_is_small();
}

/// How long a written frame is at most.
pub fn frame_length()
    ensures { FrameLength }
{
    content_reads_back();
}

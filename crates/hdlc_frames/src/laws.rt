//! The laws of frames, each as a function of which its contract is the statement: they run nothing.

ghost use Rattle.hdlc_frames.specs.Laws.{KeptStandsForStream, VerdictsAreFrames, FeedingGoesOn, SameOctetsSameVerdicts, StreamGoesOn, AnyCutIsWhole, CutGoesOn, SameOctetsSameCut, FrameReadsAsItself, FrameAlone, WrittenAreRead, WrittenIsFirst, WrittenIsFed, FrameLength, FlagParts, ControlIsTable, ControlReadsBack, ControlLength};

use hdlc_fcs::laws::content_reads_back;

/// What is kept of a stream stands for it: what comes behind is read and kept alike.
pub fn kept_stands_for_stream()
    ensures { KeptStandsForStream }
{}

/// The verdicts that a deframer gives over any list of pieces are the frames of the octets that it used.
pub fn verdicts_are_frames()
    ensures { VerdictsAreFrames }
{}

/// The same behind any stream.
pub fn feeding_goes_on()
    ensures { FeedingGoesOn }
{}

/// Two lists of pieces of which the same octets were used give the same verdicts.
pub fn same_octets_same_verdicts()
    ensures { SameOctetsSameVerdicts }
{}

/// What one piece more adds behind any stream: its verdict to the frames, its used octets to what is kept.
pub fn goes_on()
    ensures { StreamGoesOn }
{}

/// However a stream is cut into pieces, each fed until it is used whole, the verdicts are its frames.
pub fn any_cut_is_whole()
    ensures { AnyCutIsWhole }
{}

/// The same behind any stream.
pub fn cut_goes_on()
    ensures { CutGoesOn }
{}

/// Whatever a deframer keeps, two cuts of the same octets give the same verdicts and leave the same.
pub fn same_octets_same_cut()
    ensures { SameOctetsSameCut }
{}

/// What was written as a frame is read as that frame, and what follows it as behind one flag.
pub fn frame_reads_as_itself()
    ensures { FrameReadsAsItself }
{
    content_reads_back();
}

/// What was written as a frame is this one frame.
pub fn frame_alone()
    ensures { FrameAlone }
{
    content_reads_back();
}

/// Frames written one behind another are read as these frames.
pub fn written_are_read()
    ensures { WrittenAreRead }
{
    content_reads_back();
}

/// The flag that ends a written frame closes the first frame, whatever follows.
pub fn written_is_first()
    ensures { WrittenIsFirst }
{
    content_reads_back();
}

/// A deframer that just read a flag, or nothing yet, uses a written frame whole and gives exactly that frame.
pub fn written_is_fed()
    ensures { WrittenIsFed }
{
    content_reads_back();
}

/// How long a written frame is at most.
pub fn frame_length()
    ensures { FrameLength }
{
    content_reads_back();
}

/// Whatever stands before a flag, what stands behind it is read and kept as if it stood alone.
pub fn flag_parts()
    ensures { FlagParts }
{}

/// What is read of a body's control is what the table of controls says, at either modulo.
pub fn control_is_table()
    ensures { ControlIsTable }
{}

/// A control that was written is read, with what stands behind it, at either modulo.
pub fn control_reads_back()
    ensures { ControlReadsBack }
{}

/// A control has one octet or two.
pub fn control_length()
    ensures { ControlLength }
{}

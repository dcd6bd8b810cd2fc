//! What the definitions of this crate imply, as facts that a caller can cite.

ghost use Rattle.application_lines.specs.StreamLaws.{LinesGoOn, IsWholeFromTheFirst, CutAnywhereIsTheSame, StandsWell, LongIsTold};
ghost use Rattle.application_lines.specs.NoticeLaws.{NoticesAreReadBack, NoticesAreShort, RequestsAreReadBack};

/// What a stream says doesn't depend on how it is cut: it is said piece by piece. Refuses a reader that judges each read by itself.
pub fn streams_go_on()
    ensures on { LinesGoOn }
    ensures whole { IsWholeFromTheFirst }
    ensures cut { CutAnywhereIsTheSame }
    ensures well { StandsWell }
{}

/// A line that is too long is told before its LF comes. Refuses a reader that holds octets for ever, or waits silently for the LF.
pub fn long_is_told()
    ensures { LongIsTold }
{}

/// What is printed of notices is read back as these. Refuses lines that leave out what they are made of, as who released.
pub fn notices_are_read_back()
    ensures { NoticesAreReadBack }
{
    er_base::laws::printed_lines();
    er_base::laws::printed_words();
    er_base::laws::decimal_words();
}

/// A line to an application has at most 4,096 octets.
pub fn notices_are_short()
    ensures { NoticesAreShort }
{}

/// What is printed of requests is read back as these. Refuses a stream of which the last line, or each second one, is lost.
pub fn requests_are_read_back()
    ensures { RequestsAreReadBack }
{
    er_base::laws::printed_words();
}

//! What a tap tells of an end, as a fact that a caller can cite. The function does nothing; its contract is the law.

ghost use Rattle.tap_model.specs.Given.{GivenIsHeard};

/// What the safety side of an end at modulo 8 was given, over its events, is a prefix of what is heard of the stream that came to it, and all of
/// it while the end isn't released. An end that calls is started before anything else.
pub fn given_is_heard()
    ensures { GivenIsHeard }
{
    hdlc_frames::laws::kept_stands_for_stream();
    tap_model::laws::hearing_turns();
}

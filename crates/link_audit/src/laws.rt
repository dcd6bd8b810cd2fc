//! What an audit's definitions imply of the ends of a link, as a fact that a caller can cite. The function runs nothing; its contract is the law.

ghost use Rattle.tap_model.specs.Given.{GivenIsHeard};

/// What the safety side of an end at modulo 8 was given, over its events, is a prefix of what is heard of the stream that came to it, and all of
/// it while the end isn't released. An end that calls is started before anything else.
pub fn given_is_heard()
    ensures { GivenIsHeard }
{
    tap_hearing::laws::given_is_heard();
}

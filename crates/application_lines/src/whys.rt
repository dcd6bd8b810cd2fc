//! The words for why a line is out of the grammar.

ghost use Rattle.std.specs.Prelude.{◌≡◌};
ghost use Rattle.application_lines.specs.Notices.{line_fault_word};

use er_base::Why;

/// The word for a fault, as for a faulty line of a file.
pub fn fault_word(why: Why) -> &'static [u8]
    ensures { result.now ≡ line_fault_word why }
{
    match why {
        Why::Header => b"header",
        Why::Word => b"word",
        Why::Count => b"count",
        Why::Level => b"level",
        Why::Late => b"late",
        Why::Number => b"number",
        Why::Hex => b"hex",
        Why::Value => b"value",
        Why::Long => b"long",
    }
}

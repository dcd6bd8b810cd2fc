//! What the definitions of this crate imply, as facts that a caller can cite.

ghost use Rattle.er_trace.specs.Laws.{PrintedIsRead};

/// What [`print_header`](crate::print_header), [`print_entry`](crate::print_entry) and
/// [`print_outcome`](crate::print_outcome) give, one behind the other, is read as those events, each at its line: where they are in
/// their ranges and all has at most 16,777,216 octets.
pub fn printed_is_read()
    ensures { PrintedIsRead }
{
    er_base::laws::printed_lines();
    er_base::laws::printed_words();
    er_base::laws::decimal_words();
    er_settings::laws::allowed_are_bounded();
}

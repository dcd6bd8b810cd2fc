//! What the definitions of this crate imply, as facts that a caller can cite.

ghost use Rattle.er_scenario.specs.Laws.{PrintedIsRead};

/// What [`print`](crate::print) gives is read as the same scenario, line numbers aside, where it has at most 16,777,216
/// octets.
pub fn printed_is_read()
    ensures { PrintedIsRead }
{
    er_base::laws::printed_lines();
    er_base::laws::printed_words();
    er_base::laws::decimal_words();
    er_base::laws::octets_of_numbers();
    er_base::laws::octets_of_parts();
    er_settings::laws::allowed_are_bounded();
}

//! What holds of what a run of `serve` or `call` printed, as facts that a caller can cite.

ghost use Rattle.er_serving.specs.Recordings.{ServedReplays, DialledReplays};

/// The recording of a run with the usual settings, of at most 16,777,216 octets, replays to itself: it is read as a trace, of which a replay
/// refuses no event and writes the same text. For `serve` so it is with the same keys; for `call`, over wires that didn't listen, with any
/// keys that have its pair's KMAC at the moment of the call.
pub fn recordings()
    ensures served { ServedReplays }
    ensures dialled { DialledReplays }
{
    loop_recordings::laws::recordings();
    loop_recordings::laws::dials();
}

//! What the definitions of this crate imply, as facts that a caller can cite.

ghost use Rattle.std.specs.Prelude.{ℕ, ◌+◌, ◌*◌, ◌≤◌, Bool};
ghost use Rattle.hdlc_frames.specs.Framing.{Verdict};
ghost use Rattle.hdlc_station.specs.Held.{FitsPlace};
ghost use Rattle.hdlc_station.specs.Stations.{HasPlace, most_answers};
ghost use Rattle.hdlc_station.specs.Alike.{KeepsStationsAlike, KeptIsModelled};

/// Each call does the same to all stations of the model of which the code keeps the same; and what is kept of a station is
/// kept of the one that `model_of` makes of it.
pub fn steps_alike()
    ensures steps { KeepsStationsAlike }
    ensures modelled { KeptIsModelled }
{}

/// What a caller of a station of either kind needs not ask its kind for: what has room in a place may come to it, and a frame is
/// answered by at least the window and at most two windows and one frame.
pub fn either_kind()
    ensures fits { (selective : Bool) (verdict : Verdict) → FitsPlace verdict → HasPlace selective verdict }
    ensures some { (selective : Bool) (window : ℕ) → window ≤ most_answers selective window }
    ensures few { (selective : Bool) (window : ℕ) → most_answers selective window ≤ 2 * window + 1 }
{}

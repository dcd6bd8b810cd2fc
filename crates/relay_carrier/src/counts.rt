//! How many units of each kind came.

ghost use Rattle.std.specs.Prelude.{◌≡◌, ◌<◌, ◌∷◌, ℕ, replicate, slice_index};
ghost use Rattle.relay_script.specs.declared.unit_kind.UnitKind.TheVariants.{Any};
ghost use Rattle.relay_script.specs.Kinds.{kind_place};
ghost use Rattle.relay_carrier.specs.Counting.{one_more_if};
ghost use Rattle.relay_carrier.specs.Kinds.{kinds_but_any, is_at_place};

use crate::unit_kinds::UnitKinds;
use relay_script::{KIND_COUNT, UnitKind};
use std::marker::Model;

/// How many units of each kind came from a side, each count up to 2^64 - 1. A contract sees the counts, in the order of the kinds.
#[derive(Drop)]
pub struct Counts {
    of_kinds: [u64; KIND_COUNT],
}

impl Model for Counts {
    ghost use Rattle.std.specs.Prelude.{ℕ, List};

    ghost Value = { List ℕ };

    ghost view = { λ c. c.of_kinds };
}

// One more, as far as it fits.
fn counted(count: u64, more: bool) -> u64
    ensures { result ≡ one_more_if more count }
{
    if more { count.saturating_add(1) } else { count }
}

// The counts where a unit more came.
fn counted_all(counts: &[u64; KIND_COUNT], kinds: &UnitKinds) -> [u64; KIND_COUNT]
    ensures { (place : ℕ) → place < 20
        → slice_index result place ≡ one_more_if (is_at_place place (Any ∷ kinds_but_any kinds.now)) (slice_index counts.now place) }
{
    let mut more = [0; KIND_COUNT];
    'places: for place in 0..KIND_COUNT {
        more[place] = counted(counts[place], kinds.has_at(place));
    }
    more
}

impl Counts {
    /// No unit came.
    pub fn new() -> Counts
        ensures { result ≡ replicate 20 0 }
    {
        Counts {
            of_kinds: [0; KIND_COUNT],
        }
    }

    /// A unit comes.
    pub fn add(&mut self, kinds: &UnitKinds)
        ensures { (place : ℕ) → place < 20
            → slice_index self.new place ≡ one_more_if (is_at_place place (Any ∷ kinds_but_any kinds.now)) (slice_index self.old place) }
    {
        self.of_kinds = counted_all(&self.of_kinds, kinds);
    }

    /// How many units of a kind came.
    pub fn of(&self, kind: UnitKind) -> u64
        ensures { result ≡ slice_index self.now (kind_place kind) }
    {
        self.of_kinds[kind.place()]
    }
}

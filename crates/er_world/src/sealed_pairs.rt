//! The texts that were sealed, each under its session keys.

ghost use Rattle.std.specs.Prelude.{◌≡◌, [], ◌∷◌, OnOk};
ghost use Rattle.std.specs.List.{list_any};
ghost use Rattle.safety_pair_laws.specs.Facts.{is_sealing};
ghost use Rattle.er_world.specs.Pairs.{Gains};
ghost use Rattle.er_world.specs.PairKeys.{sealing_of};

use des_block::TripleKey;
use er_base::NoMemory;
use std::alloc::Global;
use std::collections::BTreeSet;
use std::marker::Model;

/// The session keys, as three numbers of 64 bits, and a text that was sealed under them.
#[derive(PartialEq, Eq, PartialOrd, Ord, Drop)]
struct Pair {
    first: u64,
    second: u64,
    third: u64,
    text: Vec<u8>,
}

/// The pairs of session keys and text that the two ends of a link sealed. A look-up takes steps by the logarithm of their number.
#[derive(Drop)]
pub struct SealedPairs {
    pairs: BTreeSet<Pair>,
}

impl Model for SealedPairs {
    ghost use Rattle.std.specs.Prelude.{List};
    ghost use Rattle.safety_pair_laws.specs.Facts.{Sealing};

    ghost Value = { List Sealing };

    ghost use Rattle.er_world.specs.PairKeys.{sealings_in};

    ghost view = { λ s. sealings_in s.pairs.keys };
}

/// The pair of session keys and a text.
fn pair_of(key: TripleKey, text: Vec<u8>) -> Pair
    ensures { sealing_of result ≡ record { key = key; text = text.items } }
{
    Pair {
        first: key.first,
        second: key.second,
        third: key.third,
        text,
    }
}

impl SealedPairs {
    /// No pairs.
    pub fn new(alloc: Global) -> SealedPairs
        ensures { result ≡ [] }
    {
        SealedPairs {
            pairs: BTreeSet::new(alloc),
        }
    }

    /// Keeps a pair.
    pub fn insert(&mut self, key: TripleKey, text: Vec<u8>) -> Result<(), NoMemory>
        ensures { OnOk result (Gains (record { key = key; text = text.items } ∷ []) self.old self.new) }
    {
        self.pairs.insert(pair_of(key, text))?;
        Ok(())
    }

    /// Whether the pair is one of those that are kept.
    pub fn contains(&self, key: TripleKey, text: Vec<u8>) -> bool
        ensures { result ≡ list_any (is_sealing key text.items) self.now }
    {
        self.pairs.contains(&pair_of(key, text))
    }
}

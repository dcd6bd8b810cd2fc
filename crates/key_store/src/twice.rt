//! The first two entries that are of one pair at one moment.
//!
//! That there are none, as in each file that is taken, costs the sorting of when the entries hold. Where there are two, the later one is found by
//! halving: the same is asked of fewer and fewer entries.

ghost use Rattle.std.specs.Prelude.{◌≡◌, ◌<◌, ◌+◌, [], true, false, length, map, take, not, IfOk, OnOk};
ghost use Rattle.std.specs.List.Sorted.{IsPermutation};
ghost use Rattle.key_store.specs.KeyFiles.{place_at_once, first_twice};
ghost use Rattle.key_store.specs.Kept.{key_entry_of};
ghost use Rattle.key_store.specs.Spans.{span_of, runs_into, are_apart, are_once, AreSpansInOrder};

use crate::key_entry::KeyEntry;
use crate::ranged_entries::RangedEntries;
use er_base::NoMemory;
use std::alloc::Global;

// When an entry holds: its pair as one number, the first moment and the last one.
type Span = (u64, u64, u64);

// The place, from 1, of the first of these entries that is of one pair with another and has a moment in common with it.
#[tactic(auto, unfolding(crate::specs::KeyFiles::place_at_once))]
fn place_at_once(entries: &[KeyEntry], entry: &KeyEntry) -> Option<usize>
    ensures { result ≡ place_at_once 0 (map key_entry_of entries.now) (key_entry_of entry.now) }
{
    for (before, other) in entries.iter().enumerate() {
        if other.is_at_once(entry) {
            return Some(before + 1);
        }
    }
    None
}

// When an entry holds.
fn span_of(entry: &KeyEntry) -> Span
    ensures { result ≡ span_of (key_entry_of entry.now) }
{
    let pair = entry.engine as u64 * 4_294_967_296 + entry.rbc as u64;
    (pair, entry.first, entry.last)
}

// Whether one is of one pair with the next, and doesn't end before that begins.
fn runs_into(span: &Span, next: &Span) -> bool
    ensures { result ≡ runs_into span.now next.now }
{
    span.0 == next.0 && next.1 <= span.2
}

// Whether none runs into the next one.
#[tactic(auto, unfolding(crate::specs::Spans::apart_behind))]
fn are_apart(spans: &[Span]) -> bool
    ensures { result ≡ are_apart spans.now }
{
    let Some((first, rest)) = spans.split_first() else {
        return true;
    };
    let mut before = first;
    for next in rest {
        if runs_into(before, next) {
            return false;
        }
        before = next;
    }
    true
}

// When these entries hold, in order.
fn put_in_order(entries: &[KeyEntry], spans: &mut Vec<Span>) -> Result<(), NoMemory>
    ensures { OnOk result (AreSpansInOrder (map key_entry_of entries.now) spans.new.items) }
{
    spans.clear();
    for entry in entries {
        spans.push(span_of(entry))?;
    }
    spans.sort_unstable();
    Ok(())
}

// Whether no two of these entries are of one pair and have a moment in common.
fn are_once(entries: &RangedEntries, spans: &mut Vec<Span>) -> Result<bool, NoMemory>
    ensures { IfOk result (λ once. once ≡ are_once entries.now) }
{
    put_in_order(entries.list(), spans)?;
    Ok(are_apart(spans.as_slice()))
}

// How many of these entries stand before the first that is so with an earlier one. There is one.
fn before_twice(entries: &RangedEntries, spans: &mut Vec<Span>) -> Result<usize, NoMemory>
    requires { are_once entries.now ≡ false }
    ensures there { IfOk result (λ before. before < length entries.now) }
    ensures once { IfOk result (λ before. are_once (take before entries.now) ≡ true) }
    ensures twice { IfOk result (λ before. are_once (take (before + 1) entries.now) ≡ false) }
{
    let mut low = 0;
    let mut high = entries.count();
    while high - low > 1 {
        let middle = low + (high - low) / 2;
        if are_once(&entries.first(middle), spans)? {
            low = middle;
        } else {
            high = middle;
        }
    }
    Ok(low)
}

/// The least entry that has an earlier one of the same pair with a moment in common, behind the least such earlier one.
pub fn first_twice(
    alloc: Global,
    entries: &RangedEntries,
) -> Result<Option<(usize, usize)>, NoMemory>
    ensures { IfOk result (λ places. places ≡ first_twice [] (map key_entry_of entries.now)) }
{
    let list = entries.list();
    let mut spans = Vec::with_capacity(alloc, list.len())?;
    if are_once(entries, &mut spans)? {
        return Ok(None);
    }
    let before = before_twice(entries, &mut spans)?;
    match place_at_once(&list[..before], &list[before]) {
        Some(first) => Ok(Some((first, before + 1))),
        None => Ok(None),
    }
}

// Whether no two are so, by comparing each with all before it: it needs no memory.
#[tactic(auto, unfolding(crate::specs::KeyFiles::first_twice))]
fn are_once_by_pairs(entries: &[KeyEntry]) -> bool
    ensures { result ≡ are_once entries.now }
{
    for (before, entry) in entries.iter().enumerate() {
        if place_at_once(&entries[..before], entry).is_some() {
            return false;
        }
    }
    true
}

/// Whether no two of these entries are of one pair and have a moment in common; also where memory is short.
pub fn has_none_twice(alloc: Global, entries: &RangedEntries) -> bool
    ensures { result ≡ are_once entries.now }
{
    let mut spans = Vec::new(alloc);
    match are_once(entries, &mut spans) {
        Ok(once) => once,
        Err(_want) => are_once_by_pairs(entries.list()),
    }
}

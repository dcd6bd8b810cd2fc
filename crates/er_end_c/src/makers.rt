//! The makers of an end, and its end.

ghost use Rattle.std.specs.Prelude.{◌≡◌, ◌≤◌, ◌<◌, ◌^◌, ◌&&◌, ◌++◌, ◌∷◌, [], map, true, None, Some, MatchResult, IfOk, IfSome};
ghost use Rattle.er_settings.specs.Ranges.{AllAllowed};
ghost use Rattle.er_end_model.specs.Ends.{Call, Answer};
ghost use Rattle.key_store.specs.KeyFiles.{keys_of};
ghost use Rattle.key_store.specs.Lists.{as_entry, listed_keys};
ghost use Rattle.er_end_c.specs.Handles.{end_held_in_handle};
ghost use Rattle.er_end_c.specs.Makings.{settings_from, is_number, fault_of_handle_making, fault_status, key_of, held_made, made_with, made_of, entry_shown, Makes, KeysGive};

use crate::face::{CKey, CSettings};
use crate::fault::Fault;
use crate::handle::CEnd;
use crate::held::Held;
use crate::status;
use des_block::TripleKey;
use er_base::{EtcsNumber, MOST_ETCS_NUMBER, Moment};
use er_end::End;
use er_settings::Settings;
use key_store::{KeyEntry, KeyFileFault, KeyStore};
use session_keys::Kmac;
use std::alloc::Global;

/// Makes an end that calls.
#[unsafe(no_mangle)]
pub extern "C" fn euroradio_call(
    alloc: Global,
    end: &mut CEnd,
    settings: &CSettings,
    me: u32,
    peer: u32,
    kmac: &[u64; 3],
    rb: u64,
    now: u64,
) -> i32
    ensures makes { Makes
        (fault_of_handle_making end.old now (is_number me && is_number peer) settings.now)
        (Some (held_made (Call (settings_from settings.now) me peer (key_of kmac.now) rb now) None))
        end.old end.new result }
{
    let kmac = Kmac::new(TripleKey {
        first: kmac[0],
        second: kmac[1],
        third: kmac[2],
    });
    let (settings, now) = match admitted(end, now, are_numbers(me, peer), settings) {
        Ok(admitted) => admitted,
        Err(fault) => return fault.status(),
    };
    let (me, peer) = (EtcsNumber::new(me), EtcsNumber::new(peer));
    match calling(alloc, &settings, me, peer, kmac, rb, now) {
        Some(held) => {
            end.put_held(held);
            status::OK
        }
        None => status::MEMORY,
    }
}

/// Makes an end that answers, with the keys of a key file.
#[unsafe(no_mangle)]
pub extern "C" fn euroradio_answer(
    alloc: Global,
    end: &mut CEnd,
    settings: &CSettings,
    me: u32,
    keys: &[u8],
    ra: u64,
    now: u64,
) -> i32
    ensures makes { Makes
        (fault_of_handle_making end.old now (is_number me) settings.now)
        (made_with (Answer (settings_from settings.now) me ra now) (keys_of keys.now))
        end.old end.new result }
{
    let (settings, now) = match admitted(end, now, me <= MOST_ETCS_NUMBER, settings) {
        Ok(admitted) => admitted,
        Err(fault) => return fault.status(),
    };
    match answering(alloc, &settings, EtcsNumber::new(me), keys, ra, now) {
        Ok(held) => {
            end.put_held(held);
            status::OK
        }
        Err(fault) => fault.status(),
    }
}

/// Makes an end that answers, with the keys of an array.
#[unsafe(no_mangle)]
pub extern "C" fn euroradio_answer_keys(
    alloc: Global,
    end: &mut CEnd,
    settings: &CSettings,
    me: u32,
    keys: &[CKey],
    ra: u64,
    now: u64,
) -> i32
    ensures makes { Makes
        (fault_of_handle_making end.old now (is_number me) settings.now)
        (made_of (Answer (settings_from settings.now) me ra now) (listed_keys (map entry_shown keys.now)))
        end.old end.new result }
{
    let (settings, now) = match admitted(end, now, me <= MOST_ETCS_NUMBER, settings) {
        Ok(admitted) => admitted,
        Err(fault) => return fault.status(),
    };
    match answering_keys(alloc, &settings, EtcsNumber::new(me), keys, ra, now) {
        Ok(held) => {
            end.put_held(held);
            status::OK
        }
        Err(fault) => fault.status(),
    }
}

/// Gives an end's memory back. The header's `euroradio_free` is this, for a pointer that isn't null.
#[unsafe(no_mangle)]
pub extern "C" fn euroradio_end_free(alloc: Global, end: &mut CEnd)
    ensures held { end_held_in_handle end.new ≡ None }
{
    if let Some(held) = end.take_held(alloc) {
        drop(held);
    }
}

fn are_numbers(me: u32, peer: u32) -> bool
    ensures { result ≡ is_number me && is_number peer }
{
    me <= MOST_ETCS_NUMBER && peer <= MOST_ETCS_NUMBER
}

// The settings and the moment, where nothing stands against making an end.
fn admitted(
    end: &CEnd,
    now: u64,
    are_numbers: bool,
    settings: &CSettings,
) -> Result<(Settings, Moment), Fault>
    ensures fault { MatchResult result
        (λ made. (fault_of_handle_making end.now now are_numbers settings.now ≡ None) × (made.0 ≡ settings_from settings.now))
        (λ fault. fault_of_handle_making end.now now are_numbers settings.now ≡ Some (fault_status fault)) }
    ensures moment { IfOk result (λ made. made.1 ≡ now) }
    ensures numbers { IfOk result (λ made. are_numbers ≡ true) }
{
    if end.is_open() {
        return Err(Fault::Open);
    }
    let Some(now) = Moment::checked(now) else {
        return Err(Fault::Moment);
    };
    if !are_numbers {
        return Err(Fault::Number);
    }
    match settings.checked() {
        Some(settings) => Ok((settings, now)),
        None => Err(Fault::Setting),
    }
}

fn boxed(
    alloc: Global,
    end: End,
    keys: Option<KeyStore>,
    now: Moment,
    awaits_start: bool,
) -> Option<Box<Held>>
    ensures { IfSome result (λ held. held.value ≡ record { end = end; keys = keys; peer = None; last = now; awaits_start = awaits_start }) }
{
    Box::new(
        alloc,
        Held {
            end,
            keys,
            peer: None,
            last: now,
            awaits_start,
        },
    )
    .ok()
}

fn calling(
    alloc: Global,
    settings: &Settings,
    me: EtcsNumber,
    peer: EtcsNumber,
    kmac: Kmac,
    rb: u64,
    now: Moment,
) -> Option<Box<Held>>
    ensures { IfSome result (λ held. held.value ≡ held_made (Call settings.now me peer kmac rb now) None) }
{
    match End::call(alloc, settings, me, peer, kmac, rb, now) {
        Ok(end) => boxed(alloc, end, None, now, true),
        Err(_) => None,
    }
}

fn answering(
    alloc: Global,
    settings: &Settings,
    me: EtcsNumber,
    keys: &[u8],
    ra: u64,
    now: Moment,
) -> Result<Box<Held>, Fault>
    ensures { let made = made_with (Answer settings.now me ra now) (keys_of keys.now) in
        MatchResult result (λ held. made ≡ Some held.value) (λ fault. KeysGive made fault) }
{
    let store = match KeyStore::from_bytes(alloc, keys) {
        Ok(store) => store,
        Err(KeyFileFault::NoMemory(_)) => return Err(Fault::Memory),
        Err(_) => return Err(Fault::Keys),
    };
    match with_keys(alloc, settings, me, store, ra, now) {
        Some(held) => Ok(held),
        None => Err(Fault::Memory),
    }
}

fn answering_keys(
    alloc: Global,
    settings: &Settings,
    me: EtcsNumber,
    keys: &[CKey],
    ra: u64,
    now: Moment,
) -> Result<Box<Held>, Fault>
    ensures { let made = made_of (Answer settings.now me ra now) (listed_keys (map entry_shown keys.now)) in
        MatchResult result (λ held. made ≡ Some held.value) (λ fault. KeysGive made fault) }
{
    let Some(entries) = entries(alloc, keys) else {
        return Err(Fault::Memory);
    };
    let Some(store) = KeyStore::from_entries(entries) else {
        return Err(Fault::Keys);
    };
    match with_keys(alloc, settings, me, store, ra, now) {
        Some(held) => Ok(held),
        None => Err(Fault::Memory),
    }
}

// The entries of a key store.
fn entries(alloc: Global, keys: &[CKey]) -> Option<Vec<KeyEntry>>
    ensures { IfSome result (λ entries. map as_entry entries.items ≡ map entry_shown keys.now) }
{
    let mut entries = Vec::new(alloc);
    for key in keys {
        if !push(&mut entries, key) {
            return None;
        }
    }
    Some(entries)
}

// Whether there was room.
fn push(entries: &mut Vec<KeyEntry>, key: &CKey) -> bool
    ensures { result ≡ true → map as_entry entries.new.items ≡ map as_entry entries.old.items ++ entry_shown key.now ∷ [] }
{
    entries.push(key.entry()).is_ok()
}

fn with_keys(
    alloc: Global,
    settings: &Settings,
    me: EtcsNumber,
    store: KeyStore,
    ra: u64,
    now: Moment,
) -> Option<Box<Held>>
    ensures { IfSome result (λ held. held.value ≡ held_made (Answer settings.now me ra now) (Some store)) }
{
    match End::answer(alloc, settings, me, ra, now) {
        Ok(end) => boxed(alloc, end, Some(store), now, false),
        Err(_) => None,
    }
}

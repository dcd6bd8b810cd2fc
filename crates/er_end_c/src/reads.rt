//! The calls that read what an end is and what its last event left.

ghost use Rattle.std.specs.Prelude.{◌≡◌, ◌≤◌, length, option_map, MatchOption};
ghost use Rattle.er_base.specs.ReasonWords.{reason_words};
ghost use Rattle.er_end.specs.KeptEnds.{waiting_in, deadline_of};
ghost use Rattle.er_end.specs.Inboxes.{newest_of};
ghost use Rattle.er_end_c.specs.Handles.{end_held_in_handle};
ghost use Rattle.er_end_c.specs.Reads.{text_of_held_end, text_or_empty, copied, octets_written_over, out_of, newest_accepted_message, message_last_taken, shown_release, shown_release_status, shown_counts, peer_unless_released, connection_status, shown_peer, found_status, count_waiting_at_handle, count_unsent_at_handle, shown_deadline, deadline_status};

use crate::face::{CCounts, CDeeds};
use crate::handle::CEnd;
use crate::status;
use er_base::Release;
use std::alloc::Global;

/// Copies octets that the last event sent, from the index `from` on.
#[unsafe(no_mangle)]
pub extern "C" fn euroradio_out(
    alloc: Global,
    end: &mut CEnd,
    from: usize,
    into: &mut [u8],
) -> usize
    ensures held { end_held_in_handle end.new ≡ end_held_in_handle end.old }
    ensures copied { into.new ≡ octets_written_over (copied (text_of_held_end out_of (end_held_in_handle end.old)) from (length into.old)) into.old }
    ensures count { result ≡ length (copied (text_of_held_end out_of (end_held_in_handle end.old)) from (length into.old)) }
    ensures most { length (text_of_held_end out_of (end_held_in_handle end.old)) ≤ 134160 }
{
    let Some(held) = end.take_held(alloc) else {
        return 0;
    };
    let count = copy(held.end.out(), from, into);
    end.put_held(held);
    count
}

/// Copies the message that the last event accepted.
#[unsafe(no_mangle)]
pub extern "C" fn euroradio_accepted(alloc: Global, end: &mut CEnd, into: &mut [u8]) -> usize
    ensures held { end_held_in_handle end.new ≡ end_held_in_handle end.old }
    ensures copied { into.new ≡ octets_written_over (copied (text_of_held_end newest_accepted_message (end_held_in_handle end.old)) 0 (length into.old)) into.old }
    ensures count { result ≡ length (copied (text_of_held_end newest_accepted_message (end_held_in_handle end.old)) 0 (length into.old)) }
{
    let Some(held) = end.take_held(alloc) else {
        return 0;
    };
    let count = copy_some(&held.end.accepted(), into);
    end.put_held(held);
    count
}

/// Copies the message that the last event, a take, took.
#[unsafe(no_mangle)]
pub extern "C" fn euroradio_taken(alloc: Global, end: &mut CEnd, into: &mut [u8]) -> usize
    ensures held { end_held_in_handle end.new ≡ end_held_in_handle end.old }
    ensures copied { into.new ≡ octets_written_over (copied (text_of_held_end message_last_taken (end_held_in_handle end.old)) 0 (length into.old)) into.old }
    ensures count { result ≡ length (copied (text_of_held_end message_last_taken (end_held_in_handle end.old)) 0 (length into.old)) }
{
    let Some(held) = end.take_held(alloc) else {
        return 0;
    };
    let count = copy(held.end.taken(), 0, into);
    end.put_held(held);
    count
}

/// The moment at which a tick is wanted.
#[unsafe(no_mangle)]
pub extern "C" fn euroradio_deadline(alloc: Global, end: &mut CEnd, moment: &mut u64) -> i32
    ensures held { end_held_in_handle end.new ≡ end_held_in_handle end.old }
    ensures answer { result ≡ deadline_status (end_held_in_handle end.old) }
    ensures moment { moment.new ≡ shown_deadline moment.old (end_held_in_handle end.old) }
{
    let Some(held) = end.take_held(alloc) else {
        return status::CLOSED;
    };
    let deadline = held.end.deadline();
    end.put_held(held);
    match deadline {
        Some(at) => {
            *moment = at;
            status::OK
        }
        None => status::NONE,
    }
}

/// How many accepted messages wait to be taken.
#[unsafe(no_mangle)]
pub extern "C" fn euroradio_waiting(alloc: Global, end: &mut CEnd) -> usize
    ensures held { end_held_in_handle end.new ≡ end_held_in_handle end.old }
    ensures count { result ≡ count_waiting_at_handle (end_held_in_handle end.old) }
    ensures most { result ≤ 15 }
{
    let Some(held) = end.take_held(alloc) else {
        return 0;
    };
    let count = held.end.waiting();
    end.put_held(held);
    count
}

/// How many messages that the user sent wait for their last segment to be handed down.
#[unsafe(no_mangle)]
pub extern "C" fn euroradio_unsent(alloc: Global, end: &mut CEnd) -> usize
    ensures held { end_held_in_handle end.new ≡ end_held_in_handle end.old }
    ensures count { result ≡ count_unsent_at_handle (end_held_in_handle end.old) }
    ensures most { result ≤ 16 }
{
    let Some(held) = end.take_held(alloc) else {
        return 0;
    };
    let count = held.end.unsent();
    end.put_held(held);
    count
}

/// Whether and why the end is released.
#[unsafe(no_mangle)]
pub extern "C" fn euroradio_released(alloc: Global, end: &mut CEnd, deeds: &mut CDeeds) -> i32
    ensures held { end_held_in_handle end.new ≡ end_held_in_handle end.old }
    ensures answer { result ≡ shown_release_status (end_held_in_handle end.old) }
    ensures deeds { deeds.new ≡ shown_release (end_held_in_handle end.old) }
{
    *deeds = CDeeds::none();
    let Some(held) = end.take_held(alloc) else {
        return status::CLOSED;
    };
    let why = held.end.released();
    end.put_held(held);
    *deeds = CDeeds::of_release(why);
    if why.is_some() {
        status::OK
    } else {
        status::NONE
    }
}

/// Whether the safe connection stands, and with whom.
#[unsafe(no_mangle)]
pub extern "C" fn euroradio_connected(alloc: Global, end: &mut CEnd, peer: &mut u32) -> i32
    ensures held { end_held_in_handle end.new ≡ end_held_in_handle end.old }
    ensures answer { result ≡ connection_status (end_held_in_handle end.old) }
    ensures peer { peer.new ≡ shown_peer peer.old (end_held_in_handle end.old) }
{
    let Some(held) = end.take_held(alloc) else {
        return status::CLOSED;
    };
    let found = peer_unless_released(held.end.released(), held.peer);
    end.put_held(held);
    match found {
        Some(number) => {
            *peer = number;
            status::OK
        }
        None => status::NONE,
    }
}

fn peer_unless_released(released: Option<Release>, peer: Option<u32>) -> Option<u32>
    ensures { result ≡ peer_unless_released released peer }
{
    match released {
        Some(_) => None,
        None => peer,
    }
}

/// The frames that the station ignored so far.
#[unsafe(no_mangle)]
pub extern "C" fn euroradio_counted(alloc: Global, end: &mut CEnd, counts: &mut CCounts) -> i32
    ensures held { end_held_in_handle end.new ≡ end_held_in_handle end.old }
    ensures answer { result ≡ found_status (end_held_in_handle end.old) }
    ensures counts { counts.new ≡ shown_counts (end_held_in_handle end.old) }
{
    *counts = CCounts::none();
    let Some(held) = end.take_held(alloc) else {
        return status::CLOSED;
    };
    *counts = CCounts::of(held.end.counts());
    end.put_held(held);
    status::OK
}

/// Copies what a reason and a sub-reason of a release mean, in words for people.
#[unsafe(no_mangle)]
pub extern "C" fn euroradio_reason(reason: u8, sub: u8, into: &mut [u8]) -> usize
    ensures copied { into.new ≡ octets_written_over (copied (reason_words reason sub) 0 (length into.old)) into.old }
    ensures count { result ≡ length (copied (reason_words reason sub) 0 (length into.old)) }
{
    let release = Release {
        reason,
        sub,
        by_peer: false,
    };
    copy(release.words().as_bytes(), 0, into)
}

/// The version of the library: 100 times the major one, and the minor one.
#[unsafe(no_mangle)]
pub extern "C" fn euroradio_version() -> u32
    ensures { result ≡ 201 }
{
    201
}

// Copies what fits, from an index on: how many octets.
fn copy(text: &[u8], from: usize, into: &mut [u8]) -> usize
    ensures copied { into.new ≡ octets_written_over (copied text.now from (length into.old)) into.old }
    ensures count { result ≡ length (copied text.now from (length into.old)) }
{
    if from >= text.len() {
        return 0;
    }
    let rest = &text[from..];
    let count = rest.len().min(into.len());
    into[..count].copy_from_slice(&rest[..count]);
    count
}

fn copy_some(text: &Option<&[u8]>, into: &mut [u8]) -> usize
    ensures copied { into.new ≡ octets_written_over (copied (text_or_empty (option_map (λ m. m.now) text.now)) 0 (length into.old)) into.old }
    ensures count { result ≡ length (copied (text_or_empty (option_map (λ m. m.now) text.now)) 0 (length into.old)) }
{
    match text {
        Some(text) => copy(text, 0, into),
        None => 0,
    }
}

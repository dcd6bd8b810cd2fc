//! The calls that are events at an end.

ghost use Rattle.er_end_c.specs.Calls.{DoesHandleCall, Start, Octets, Send, Take, Release, Tick, Ended, Fault, Stalled};

use crate::face::CDeeds;
use crate::handle::CEnd;
use crate::held::refused_status;
use crate::status;
use er_base::Moment;
use std::alloc::Global;

/// An end that calls begins, once.
#[unsafe(no_mangle)]
pub extern "C" fn euroradio_start(
    alloc: Global,
    end: &mut CEnd,
    now: u64,
    deeds: &mut CDeeds,
) -> i32
    ensures does { DoesHandleCall (Start now) end.old end.new result deeds.new }
{
    *deeds = CDeeds::none();
    let Some(mut held) = end.take_held(alloc) else {
        return status::CLOSED;
    };
    let Some(now) = Moment::checked(now) else {
        end.put_held(held);
        return status::MOMENT;
    };
    if !held.awaits_start {
        end.put_held(held);
        return status::START;
    }
    *deeds = held.start(now);
    end.put_held_at(held, now, deeds);
    status::OK
}

/// Octets come from the line.
#[unsafe(no_mangle)]
pub extern "C" fn euroradio_octets(
    alloc: Global,
    end: &mut CEnd,
    now: u64,
    piece: &[u8],
    deeds: &mut CDeeds,
) -> i32
    ensures does { DoesHandleCall (Octets now piece.now) end.old end.new result deeds.new }
{
    *deeds = CDeeds::none();
    let Some(mut held) = end.take_held(alloc) else {
        return status::CLOSED;
    };
    let Some(now) = Moment::checked(now) else {
        end.put_held(held);
        return status::MOMENT;
    };
    *deeds = held.octets(now, piece);
    end.put_held_at(held, now, deeds);
    status::OK
}

/// The user sends a message.
#[unsafe(no_mangle)]
pub extern "C" fn euroradio_send(
    alloc: Global,
    end: &mut CEnd,
    now: u64,
    text: &[u8],
    deeds: &mut CDeeds,
) -> i32
    ensures does { DoesHandleCall (Send now text.now) end.old end.new result deeds.new }
{
    *deeds = CDeeds::none();
    let Some(mut held) = end.take_held(alloc) else {
        return status::CLOSED;
    };
    let Some(now) = Moment::checked(now) else {
        end.put_held(held);
        return status::MOMENT;
    };
    match held.send(now, text) {
        Ok(told) => {
            *deeds = told;
            end.put_held_at(held, now, deeds);
            status::OK
        }
        Err(refused) => {
            end.put_held_at(held, now, deeds);
            refused_status(refused)
        }
    }
}

/// The user takes the oldest message that waits.
#[tactic(auto, using(crate::proofs::Taking::take_some, crate::proofs::Taking::take_none))]
#[unsafe(no_mangle)]
pub extern "C" fn euroradio_take(alloc: Global, end: &mut CEnd, now: u64, deeds: &mut CDeeds) -> i32
    ensures does { DoesHandleCall (Take now) end.old end.new result deeds.new }
{
    *deeds = CDeeds::none();
    let Some(mut held) = end.take_held(alloc) else {
        return status::CLOSED;
    };
    let Some(now) = Moment::checked(now) else {
        end.put_held(held);
        return status::MOMENT;
    };
    match held.take(now) {
        Some(told) => {
            *deeds = told;
            end.put_held_at(held, now, deeds);
            status::OK
        }
        None => {
            end.put_held_at(held, now, deeds);
            status::NONE
        }
    }
}

/// The user releases with this sub-reason.
#[unsafe(no_mangle)]
pub extern "C" fn euroradio_release(
    alloc: Global,
    end: &mut CEnd,
    now: u64,
    sub: u8,
    deeds: &mut CDeeds,
) -> i32
    ensures does { DoesHandleCall (Release now sub) end.old end.new result deeds.new }
{
    *deeds = CDeeds::none();
    let Some(mut held) = end.take_held(alloc) else {
        return status::CLOSED;
    };
    let Some(now) = Moment::checked(now) else {
        end.put_held(held);
        return status::MOMENT;
    };
    *deeds = held.release(now, sub);
    end.put_held_at(held, now, deeds);
    status::OK
}

/// The moment has come.
#[unsafe(no_mangle)]
pub extern "C" fn euroradio_tick(alloc: Global, end: &mut CEnd, now: u64, deeds: &mut CDeeds) -> i32
    ensures does { DoesHandleCall (Tick now) end.old end.new result deeds.new }
{
    *deeds = CDeeds::none();
    let Some(mut held) = end.take_held(alloc) else {
        return status::CLOSED;
    };
    let Some(now) = Moment::checked(now) else {
        end.put_held(held);
        return status::MOMENT;
    };
    *deeds = held.tick(now);
    end.put_held_at(held, now, deeds);
    status::OK
}

/// The line ended.
#[unsafe(no_mangle)]
pub extern "C" fn euroradio_ended(alloc: Global, end: &mut CEnd, deeds: &mut CDeeds) -> i32
    ensures does { DoesHandleCall Ended end.old end.new result deeds.new }
{
    *deeds = CDeeds::none();
    let Some(mut held) = end.take_held(alloc) else {
        return status::CLOSED;
    };
    *deeds = held.ended();
    end.put_held_behind(held, deeds);
    status::OK
}

/// The line failed.
#[unsafe(no_mangle)]
pub extern "C" fn euroradio_fault(alloc: Global, end: &mut CEnd, deeds: &mut CDeeds) -> i32
    ensures does { DoesHandleCall Fault end.old end.new result deeds.new }
{
    *deeds = CDeeds::none();
    let Some(mut held) = end.take_held(alloc) else {
        return status::CLOSED;
    };
    *deeds = held.fault();
    end.put_held_behind(held, deeds);
    status::OK
}

/// The line takes no more octets.
#[unsafe(no_mangle)]
pub extern "C" fn euroradio_stalled(alloc: Global, end: &mut CEnd, deeds: &mut CDeeds) -> i32
    ensures does { DoesHandleCall Stalled end.old end.new result deeds.new }
{
    *deeds = CDeeds::none();
    let Some(mut held) = end.take_held(alloc) else {
        return status::CLOSED;
    };
    *deeds = held.stalled();
    end.put_held_behind(held, deeds);
    status::OK
}

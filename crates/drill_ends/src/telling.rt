//! What a call did is told: the frames that were written, and what a frame that came brought.

ghost use Rattle.std.specs.Prelude.{ℕ, ◌≡◌, ◌++◌, length, map, option_map, IfOk, OnOk};
ghost use Rattle.hdlc_station.specs.Stations.{lent_by};
ghost use Rattle.drill_ends.specs.declared.told.Told.TheVariants as told_is;
ghost use Rattle.drill_ends.specs.StationEnds.{told_up, told_arrived, told_released, TellsFrames};

use crate::told::Told;
use er_base::{NoMemory, Octets, Release};
use hdlc_frames::first_frame;
use hdlc_station::{LinkDeed, Station};
use std::alloc::Global;
use std::collections::VecDeque;

/// Octets of their own.
pub fn copied(alloc: Global, octets: &[u8]) -> Result<Octets, NoMemory>
    ensures { IfOk result (λ copy. copy ≡ octets.now) }
{
    Ok(Octets::new(Vec::from_slice(alloc, octets)?))
}

/// Tells the frames that a station wrote, one by one.
pub fn tell_frames(alloc: Global, written: &[u8], told: &mut VecDeque<Told>) -> Result<(), NoMemory>
    ensures { OnOk result (TellsFrames written.now told.old.items told.new.items) }
{
    hdlc_frames::laws::written_is_first();
    hdlc_frames::laws::kept_stands_for_stream();
    let mut rest = written;
    while let Some(length) = first_frame(rest) {
        let (frame, others) = rest.split_at(length);
        let frame = copied(alloc, frame)?;
        told.push_back(Told::Frame(frame))?;
        rest = others;
    }
    Ok(())
}

/// Tells that the link came up, where it did.
pub fn tell_up(up: bool, told: &mut VecDeque<Told>) -> Result<(), NoMemory>
    ensures { OnOk result (told.new.items ≡ told.old.items ++ told_up up) }
{
    if !up {
        return Ok(());
    }
    told.push_back(Told::Up)?;
    Ok(())
}

/// Tells the payload of the frame, where it was taken.
pub fn tell_arrived(
    alloc: Global,
    deed: &LinkDeed,
    told: &mut VecDeque<Told>,
) -> Result<(), NoMemory>
    ensures { OnOk result (told.new.items ≡ told.old.items ++ told_arrived (option_map (λ p. p.now) deed.now.payload)) }
{
    let Some(payload) = deed.payload else {
        return Ok(());
    };
    let payload = copied(alloc, payload)?;
    told.push_back(Told::Arrived(payload))?;
    Ok(())
}

/// Tells the payloads that were held and that a station took last, in the order of their numbers.
pub fn tell_more(
    alloc: Global,
    station: &Station,
    more: usize,
    told: &mut VecDeque<Told>,
) -> Result<(), NoMemory>
    requires last { station.now.more ≡ more }
    requires all { length (lent_by station.now.places more) ≡ more }
    ensures { OnOk result (told.new.items ≡ told.old.items ++ map told_is.Arrived (lent_by station.now.places more)) }
{
    for k in 0..more {
        let payload = copied(alloc, station.payload(k))?;
        told.push_back(Told::Arrived(payload))?;
    }
    Ok(())
}

/// Tells a release, where there was one.
pub fn tell_released(released: Option<Release>, told: &mut VecDeque<Told>) -> Result<(), NoMemory>
    ensures { OnOk result (told.new.items ≡ told.old.items ++ told_released released) }
{
    let Some(release) = released else {
        return Ok(());
    };
    told.push_back(Told::Released(release))?;
    Ok(())
}

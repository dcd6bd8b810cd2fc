//! What crosses to C and back, besides handles.

ghost use Rattle.std.specs.Prelude.{◌≡◌, option_map, IfSome};
ghost use Rattle.er_settings.specs.Ranges.{AllAllowed};
ghost use Rattle.er_end_c.specs.Deeds.{no_deeds, deed_flag, release_deeds, deeds_by_outcome_kind, text_size_or_zero, counts_shown};
ghost use Rattle.key_store.specs.Lists.{as_entry};
ghost use Rattle.er_end_c.specs.Makings.{settings_in, entry_shown};
ghost use Rattle.er_end_c.specs.KeyFaults.{field_number, no_key_fault, key_fault_shown};

use crate::key_fault;
use des_block::TripleKey;
use er_base::{MOST_MOMENT, Release};
use er_end::Deeds;
use er_settings::Settings;
use hdlc_station_model::Counts;
use key_store::{FieldName, KeyEntry, KeyFileFault};

/// What both ends agree on.
#[repr(C)]
#[derive(Clone, Copy)]
pub struct CSettings {
    /// How many I frames may be unacknowledged.
    pub window: u32,
    /// How many DT TPDUs are granted to the peer.
    pub credit: u32,
    /// The greatest number of octets of a TPDU.
    pub size: u32,
    /// T1, in milliseconds.
    pub t1: u32,
    /// How often T1 may expire in a row.
    pub n2: u32,
    /// The time for the set-up, in milliseconds.
    pub setup: u32,
    /// The modulo of the numbers of I frames.
    pub modulo: u32,
}

/// What an event came to.
#[repr(C)]
#[derive(Clone, Copy)]
pub struct CDeeds {
    /// How many octets go to the line.
    pub out: usize,
    /// How many octets of the piece were used.
    pub used: usize,
    /// How many octets the message has that was accepted or taken; 0 where none was.
    pub message: usize,
    /// 1 where the safe connection came to stand.
    pub connected: u32,
    /// The peer's ETCS number then.
    pub peer: u32,
    /// 1 where the end was released.
    pub released: u32,
    /// The reason.
    pub reason: u8,
    /// The sub-reason.
    pub sub: u8,
    /// 1 where the peer did it.
    pub by_peer: u8,
    /// 1 where the moment was below one that was passed before.
    pub back: u8,
}

/// The KMAC of an engine and a radio block centre, with its first and its last moment.
#[repr(C)]
#[derive(Clone, Copy)]
pub struct CKey {
    /// The engine's ETCS number.
    pub engine: u32,
    /// The radio block centre's ETCS number.
    pub rbc: u32,
    /// The first moment, in milliseconds.
    pub from: u64,
    /// The last one; above 10^15 it counts as 10^15.
    pub to: u64,
    /// The KMAC: three DES keys.
    pub kmac: [u64; 3],
}

/// The frames that the station ignored so far, by their kind.
#[repr(C)]
#[derive(Clone, Copy)]
pub struct CCounts {
    /// Frames whose check sequence is wrong.
    pub bad_fcs: u64,
    /// Frames whose content has under 4 octets.
    pub too_short: u64,
    /// Frames whose content has above 1,032 octets.
    pub too_long: u64,
    /// Frames that an escape before the closing flag aborted.
    pub aborted: u64,
    /// Frames that the station doesn't expect.
    pub stray: u64,
}

/// Why a key file is refused. What a kind doesn't have is 0.
#[repr(C)]
#[derive(Clone, Copy)]
pub struct CKeyFault {
    /// The kind of the fault, one of [`key_fault`](crate::key_fault); 0 where there is none.
    pub kind: u32,
    /// The field that is missing or of another type.
    pub field: u32,
    /// The entry at fault, counted from 1; 0 is the document itself.
    pub entry: usize,
    /// The earlier entry that it has a pair and a moment in common with.
    pub other: usize,
}

impl CSettings {
    /// The settings, where each is in its range.
    pub fn checked(&self) -> Option<Settings>
        ensures exact { result ≡ settings_in self.now }
        ensures allowed { IfSome result (λ settings. AllAllowed settings) }
    {
        match self.modulo {
            8 => Settings::new(
                self.window as u64,
                self.credit as u64,
                self.size as u64,
                self.t1 as u64,
                self.n2 as u64,
                self.setup as u64,
            )
            .ok(),
            128 => Settings::extended(
                self.window as u64,
                self.credit as u64,
                self.size as u64,
                self.t1 as u64,
                self.n2 as u64,
                self.setup as u64,
            )
            .ok(),
            _ => None,
        }
    }
}

impl CKey {
    /// The entry of a key store that it is.
    pub fn entry(&self) -> KeyEntry
        ensures { as_entry result ≡ entry_shown self.now }
    {
        KeyEntry {
            engine: self.engine,
            rbc: self.rbc,
            kmac: TripleKey {
                first: self.kmac[0],
                second: self.kmac[1],
                third: self.kmac[2],
            },
            first: self.from,
            last: self.to.min(MOST_MOMENT),
        }
    }
}

fn flag(holds: bool) -> u32
    ensures { result ≡ deed_flag holds }
{
    if holds { 1 } else { 0 }
}

/// A moment that went back, as deeds have it.
pub fn back_flag(holds: bool) -> u8
    ensures { result ≡ deed_flag holds }
{
    if holds { 1 } else { 0 }
}

fn size_of(text: &Option<&[u8]>) -> usize
    ensures { result ≡ text_size_or_zero (option_map (λ m. m.now) text.now) }
{
    match text {
        Some(text) => text.len(),
        None => 0,
    }
}

impl CDeeds {
    /// Nothing.
    pub fn none() -> CDeeds
        ensures { result ≡ no_deeds }
    {
        CDeeds {
            out: 0,
            used: 0,
            message: 0,
            connected: 0,
            peer: 0,
            released: 0,
            reason: 0,
            sub: 0,
            by_peer: 0,
            back: 0,
        }
    }

    /// A release, or nothing.
    pub fn of_release(why: Option<Release>) -> CDeeds
        ensures { result ≡ release_deeds why }
    {
        match why {
            Some(why) => CDeeds {
                released: 1,
                reason: why.reason,
                sub: why.sub,
                by_peer: flag(why.by_peer) as u8,
                ..CDeeds::none()
            },
            None => CDeeds::none(),
        }
    }

    /// What an event told that used so many octets.
    pub fn of_event(used: usize, deeds: &Deeds<'_>) -> CDeeds
        ensures { result ≡ deeds_by_outcome_kind used deeds.now.connected (option_map (λ m. m.now) deeds.now.accepted) deeds.now.released deeds.now.out.now }
    {
        CDeeds {
            out: deeds.out.len(),
            used,
            message: size_of(&deeds.accepted),
            connected: flag(deeds.connected.is_some()),
            peer: deeds.connected.unwrap_or(0),
            ..CDeeds::of_release(deeds.released)
        }
    }
}

impl CCounts {
    /// Nothing.
    pub fn none() -> CCounts
        ensures { result ≡ record { bad_fcs = 0; too_short = 0; too_long = 0; aborted = 0; stray = 0 } }
    {
        CCounts {
            bad_fcs: 0,
            too_short: 0,
            too_long: 0,
            aborted: 0,
            stray: 0,
        }
    }

    /// The counts of a station.
    pub fn of(counts: Counts) -> CCounts
        ensures { result ≡ counts_shown counts }
    {
        CCounts {
            bad_fcs: counts.bad_fcs,
            too_short: counts.short,
            too_long: counts.long,
            aborted: counts.aborted,
            stray: counts.stray,
        }
    }
}

fn number_of_field(name: FieldName) -> u32
    ensures { result ≡ field_number name }
{
    match name {
        FieldName::Version => key_fault::FIELD_VERSION,
        FieldName::Key => key_fault::FIELD_KEY,
        FieldName::Engine => key_fault::FIELD_ENGINE,
        FieldName::Rbc => key_fault::FIELD_RBC,
        FieldName::Kmac => key_fault::FIELD_KMAC,
        FieldName::From => key_fault::FIELD_FROM,
        FieldName::To => key_fault::FIELD_TO,
    }
}

impl CKeyFault {
    /// No fault.
    pub fn none() -> CKeyFault
        ensures { result ≡ no_key_fault }
    {
        CKeyFault {
            kind: 0,
            field: 0,
            entry: 0,
            other: 0,
        }
    }

    /// A fault of a key file; none where memory ran out.
    pub fn of(why: KeyFileFault) -> CKeyFault
        ensures { result ≡ key_fault_shown why }
    {
        match why {
            KeyFileFault::Document => CKeyFault::of_entry(key_fault::DOCUMENT, 0),
            KeyFileFault::Version(_) => CKeyFault::of_entry(key_fault::VERSION, 0),
            KeyFileFault::Field { entry, name } => CKeyFault {
                field: number_of_field(name),
                ..CKeyFault::of_entry(key_fault::FIELD, entry)
            },
            KeyFileFault::Hex { entry } => CKeyFault::of_entry(key_fault::HEX, entry),
            KeyFileFault::Number { entry } => CKeyFault::of_entry(key_fault::NUMBER, entry),
            KeyFileFault::Range { entry } => CKeyFault::of_entry(key_fault::RANGE, entry),
            KeyFileFault::Twice { first, second } => CKeyFault {
                other: first,
                ..CKeyFault::of_entry(key_fault::TWICE, second)
            },
            KeyFileFault::NoMemory(_) => CKeyFault::none(),
        }
    }

    // A fault of this kind, of one entry alone.
    fn of_entry(kind: u32, entry: usize) -> CKeyFault
        ensures { result ≡ record no_key_fault { kind = kind; entry = entry } }
    {
        CKeyFault {
            kind,
            entry,
            ..CKeyFault::none()
        }
    }
}

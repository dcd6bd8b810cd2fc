//! What is known of a link: its ETCS numbers, and its session, where there is one.

ghost use Rattle.std.specs.Prelude.{◌≡◌};
ghost use Rattle.sapdu.specs.Spelling.{read_of};
ghost use Rattle.safety_automaton.specs.Keys.{key_at};
ghost use Rattle.tap_model.specs.Verdicts.{ra_in, rb_in, random_number_in_item, first_number, session_with, known_of};

use crate::items::Items;
use crate::opening::Opening;
use er_base::EtcsNumber;
use safety_automaton::KeyFinder;
use sapdu::{SaPdu, read};
use session_keys::SessionKeys;
use std::marker::Model;

/// The random numbers of a session, and the keys that they give.
#[derive(Drop)]
pub struct Session {
    pub(crate) ra: u64,
    pub(crate) rb: u64,
    pub(crate) keys: SessionKeys,
}

impl Model for Session {
    ghost use Rattle.tap_model.specs.Verdicts as verdicts;

    ghost Value = { verdicts.SafetySession };

    ghost view = { λ s. record { ra = s.ra; rb = s.rb; keys = s.keys } };
}

/// What is known of a link.
#[derive(Drop)]
pub struct Known {
    pub(crate) engine: EtcsNumber,
    pub(crate) rbc: EtcsNumber,
    pub(crate) session: Option<Session>,
}

impl Model for Known {
    ghost use Rattle.tap_model.specs.Verdicts as verdicts;

    ghost Value = { verdicts.Known };

    ghost view = { λ k. record { engine = k.engine; rbc = k.rbc; session = k.session } };
}

// Ra of an item that reads as AU2.
fn ra_of(item: &[u8]) -> Option<u64>
    ensures { result ≡ random_number_in_item ra_in (read_of item.now) }
{
    match read(item) {
        Ok((SaPdu::Au2 { ra, .. }, _)) => Some(ra),
        _ => None,
    }
}

// Rb of an item that reads as AU1.
fn rb_of(item: &[u8]) -> Option<u64>
    ensures { result ≡ random_number_in_item rb_in (read_of item.now) }
{
    match read(item) {
        Ok((SaPdu::Au1 { rb, .. }, _)) => Some(rb),
        _ => None,
    }
}

// Ra of the first item of the radio block centre's side.
fn first_ra(items: &Items<'_>) -> Option<u64>
    ensures { result ≡ first_number ra_in items.now.left }
{
    match items.first() {
        Some(item) => ra_of(item),
        None => None,
    }
}

// Rb of the first item of the engine's side.
fn first_rb(items: &Items<'_>) -> Option<u64>
    ensures { result ≡ first_number rb_in items.now.left }
{
    match items.first() {
        Some(item) => rb_of(item),
        None => None,
    }
}

// The session of a link, where a KMAC holds at its moment and both random numbers are known.
fn session_of<K: KeyFinder>(
    keys: &K,
    opening: &Opening,
    ra: Option<u64>,
    rb: Option<u64>,
) -> Option<Session>
    ensures { result ≡ session_with (key_at (K.entries keys.now) opening.now.moment opening.now.engine opening.now.rbc) ra rb }
{
    let kmac = keys.find(opening.engine, opening.rbc, opening.moment)?;
    let ra = ra?;
    let rb = rb?;
    Some(Session {
        ra,
        rb,
        keys: kmac.session_keys(ra, rb),
    })
}

/// What is known of a link that was opened so, by the first items of both sides.
pub fn known_of<K: KeyFinder>(
    keys: &K,
    opening: &Opening,
    of_e: &Items<'_>,
    of_r: &Items<'_>,
) -> Known
    ensures { result
        ≡ known_of opening.now.engine opening.now.rbc (key_at (K.entries keys.now) opening.now.moment opening.now.engine opening.now.rbc) of_e.now.left of_r.now.left }
{
    Known {
        engine: opening.engine,
        rbc: opening.rbc,
        session: session_of(keys, opening, first_ra(of_r), first_rb(of_e)),
    }
}

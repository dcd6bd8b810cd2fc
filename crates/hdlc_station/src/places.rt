//! A ring of places.

ghost use Rattle.std.specs.Prelude.{◌≡◌, ◌+◌, ◌-◌, ◌≤◌, ◌<◌, ◌∷◌, ◌++◌, [], true, length, map, take, drop, replicate, slice_set, slice_index_or, IfOk};
ghost use Rattle.hdlc_station.specs.Places.{no_place, cleared, run_of};
ghost use Rattle.hdlc_station.specs.PlaceRings.{spot};

use crate::content::Content;
use crate::place::Place;
use er_base::NoMemory;
use std::alloc::Global;
use std::marker::Model;

/// The places of the numbers from V(R) on, as many as the window has: a ring, in which the place of V(R) goes on while no payload moves. Those
/// of the numbers that were taken stand behind the others.
#[derive(Drop)]
pub(crate) struct Places {
    places: Vec<Place>,
    head: usize,
}

impl Model for Places {
    ghost use Rattle.std.specs.Prelude.{List, ◌<◌, vec_len};
    ghost use Rattle.hdlc_station.specs.Places.{NumberPlace};
    ghost use Rattle.hdlc_station.specs.PlaceRings.{from_head};

    ghost Value = { List NumberPlace };

    ghost view = { λ r. from_head r.head r.places.items };

    ghost invariant = { λ r. r.head < vec_len r.places };
}

// The place in a ring of so many that lies i places behind the head.
fn spot(most: usize, head: usize, i: usize) -> usize
    requires head { head ≤ most }
    requires within { i ≤ most }
    ensures { result ≡ spot most head i }
{
    let behind = most - head;
    if i < behind { head + i } else { i - behind }
}

impl Places {
    /// So many places that hold nothing.
    pub(crate) fn new(alloc: Global, count: usize) -> Result<Places, NoMemory>
        requires { 1 ≤ count }
        ensures { IfOk result (λ r. r ≡ replicate count no_place) }
    {
        let mut places = Vec::with_capacity(alloc, count)?;
        for i in 0..count {
            places.push(Place::new())?;
        }
        Ok(Places { places, head: 0 })
    }

    /// How many places there are.
    pub(crate) fn len(&self) -> usize
        ensures value { result ≡ length self.now }
        ensures some { 1 ≤ result }
    {
        self.places.len()
    }

    /// Whether place i holds a payload.
    pub(crate) fn is_held(&self, i: usize) -> bool
        requires { i < length self.now }
        ensures { result ≡ (slice_index_or self.now i no_place).held }
    {
        self.places[spot(self.places.len(), self.head, i)].is_held()
    }

    /// Whether the number of place i was asked for.
    pub(crate) fn is_asked(&self, i: usize) -> bool
        requires { i < length self.now }
        ensures { result ≡ (slice_index_or self.now i no_place).asked }
    {
        self.places[spot(self.places.len(), self.head, i)].is_asked()
    }

    /// Lends the payload of place i.
    pub(crate) fn payload(&self, i: usize) -> &[u8]
        requires { i < length self.now }
        ensures { result.now ≡ (slice_index_or self.now i no_place).payload }
    {
        self.places[spot(self.places.len(), self.head, i)].payload()
    }

    /// Place i holds a payload.
    pub(crate) fn hold(&mut self, i: usize, payload: &Content<'_>)
        requires { i < length self.old }
        ensures { self.new ≡ slice_set self.old i (record (slice_index_or self.old i no_place) { payload = payload.now; held = true }) }
    {
        let at = spot(self.places.len(), self.head, i);
        self.places[at].hold(payload);
    }

    /// The number of place i was asked for.
    pub(crate) fn ask(&mut self, i: usize)
        requires { i < length self.old }
        ensures { self.new ≡ slice_set self.old i (record (slice_index_or self.old i no_place) { asked = true }) }
    {
        let at = spot(self.places.len(), self.head, i);
        self.places[at].ask();
    }

    // The first place holds nothing any more and stands behind the others.
    fn go_on(&mut self)
        ensures { self.new ≡ drop 1 self.old ++ cleared (slice_index_or self.old 0 no_place) ∷ [] }
    {
        self.places[self.head].clear();
        self.head = spot(self.places.len(), self.head, 1);
    }

    /// The first places hold nothing any more and stand behind the others.
    pub(crate) fn drop_first(&mut self, count: usize)
        requires { count ≤ length self.old }
        ensures { self.new ≡ drop count self.old ++ map cleared (take count self.old) }
    {
        for i in 0..count {
            self.go_on();
        }
    }

    /// How many places behind the first one hold a payload without a gap.
    pub(crate) fn run(&self) -> usize
        ensures value { result ≡ length (run_of (drop 1 self.now)) }
        ensures within { result < length self.now }
    {
        let most = self.places.len();
        for i in 1..most {
            if !self.is_held(i) {
                return i - 1;
            }
        }
        most - 1
    }
}

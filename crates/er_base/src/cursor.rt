//! Octets that are read from the front of a list.

ghost use Rattle.std.specs.Prelude.{◌≡◌, ◌^◌, ℕ, List, length};
ghost use Rattle.er_base.specs.Octets.{TakesNumberFromFront, one, two, three, eight};

use crate::number_octets::number_of;
use std::marker::Model;

/// Reads octets from the front of a list, the most significant octet of a number first.
#[derive(Drop)]
pub struct Cursor<'a> {
    octets: &'a [u8],
}

impl<'a> Model for Cursor<'a> {
    ghost Value = { List ℕ };

    ghost view = { λ c. c.octets.now };
}

impl<'a> Cursor<'a> {
    /// A cursor at the first of these octets.
    pub fn new(octets: &'a [u8]) -> Cursor<'a>
        ensures { result ≡ octets.now }
    {
        Cursor { octets }
    }

    /// The number of octets that remain.
    pub fn left(&self) -> usize
        ensures { result ≡ length self.now }
    {
        self.octets.len()
    }

    /// The next octet, or None exactly where none remains.
    pub fn take_u8(&mut self) -> Option<u8>
        ensures { TakesNumberFromFront one 1 (2 ^ 8) self.old result self.new }
    {
        let (front, rest) = self.octets.split_first_chunk::<1>()?;
        let number = front[0];
        self.octets = rest;
        Some(number)
    }

    /// The number of the next two octets, or None exactly where fewer remain; then the cursor stays.
    pub fn take_u16(&mut self) -> Option<u16>
        ensures { TakesNumberFromFront two 2 (2 ^ 16) self.old result self.new }
    {
        let (front, rest) = self.octets.split_first_chunk::<2>()?;
        let number = (front[0] as u16) * 256 + front[1] as u16;
        self.octets = rest;
        Some(number)
    }

    /// The number of the next three octets, or None exactly where fewer remain; then the cursor stays.
    pub fn take_u24(&mut self) -> Option<u32>
        ensures { TakesNumberFromFront three 3 (2 ^ 24) self.old result self.new }
    {
        let (front, rest) = self.octets.split_first_chunk::<3>()?;
        let number = (front[0] as u32) * 65536 + (front[1] as u32) * 256 + front[2] as u32;
        self.octets = rest;
        Some(number)
    }

    /// The number of the next eight octets, or None exactly where fewer remain; then the cursor stays.
    pub fn take_u64(&mut self) -> Option<u64>
        ensures { TakesNumberFromFront eight 8 (2 ^ 64) self.old result self.new }
    {
        let (front, rest) = self.octets.split_first_chunk::<8>()?;
        let number = number_of(front);
        self.octets = rest;
        Some(number)
    }

    /// The octets that remain.
    pub fn rest(&self) -> &'a [u8]
        ensures { result.now ≡ self.now }
    {
        self.octets
    }
}

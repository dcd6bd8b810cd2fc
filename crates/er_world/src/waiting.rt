//! The frames of an end that wait to be passed.

ghost use Rattle.std.specs.Prelude.{◌≡◌, ◌++◌, ◌∷◌, ◌==◌, [], length, slice_get, option_map, IfOk, OnOk};
ghost use Rattle.drill_model.specs.Waiting.{lose_first, repeat_first, alter_first, put_first, change_first};
ghost use Rattle.er_world.specs.Changes.{IsFirstWaitingFrame, outcomes_of_line_change, change_of};

use crate::action::LineChange;
use er_base::{NoMemory, Octets};
use std::alloc::Global;
use std::collections::VecDeque;
use std::marker::Model;

/// What came of a change of the frames that wait.
#[derive(Clone, Copy)]
pub enum Change {
    /// No frame waits.
    Empty,
    /// The first frame has so many octets, too few for the change.
    Short(usize),
    /// The first frame was removed.
    Lost,
    /// A copy was put behind it.
    Repeated,
    /// An octet of it was changed.
    Altered,
    /// Octets were put before it.
    Inserted,
    /// All is as it was.
    Unchanged,
}

/// The frames that an end sent and that wait, the first to be passed first.
#[derive(Drop)]
pub struct Waiting {
    frames: VecDeque<Octets>,
}

impl Model for Waiting {
    ghost use Rattle.std.specs.Prelude.{ℕ, List};

    ghost Value = { List (List ℕ) };

    ghost view = { λ w. w.frames.items };
}

/// Octets of their own.
fn copied(alloc: Global, octets: &[u8]) -> Result<Octets, NoMemory>
    ensures { IfOk result (λ copy. copy ≡ octets.now) }
{
    Ok(Octets::new(Vec::from_slice(alloc, octets)?))
}

impl Waiting {
    /// No frames.
    pub fn new(alloc: Global) -> Waiting
        ensures { result ≡ [] }
    {
        Waiting {
            frames: VecDeque::new(alloc),
        }
    }

    /// The number of frames.
    pub fn len(&self) -> usize
        ensures { result ≡ length self.now }
    {
        self.frames.len()
    }

    /// The octets of the first frame.
    pub fn first(&self) -> Option<&[u8]>
        ensures { option_map (λ f. f.now) result ≡ slice_get self.now 0 }
    {
        match self.frames.front() {
            Some(frame) => Some(frame.as_slice()),
            None => None,
        }
    }

    /// Takes the first frame.
    pub fn take_first(&mut self) -> Option<Octets>
        ensures { IsFirstWaitingFrame self.old result self.new }
    {
        self.frames.pop_front()
    }

    /// A frame joins those that wait.
    pub fn push(&mut self, frame: Octets) -> Result<(), NoMemory>
        ensures { OnOk result (self.new ≡ self.old ++ frame ∷ []) }
    {
        self.frames.push_back(frame)?;
        Ok(())
    }

    /// The first frame is removed.
    fn lose(&mut self) -> Change
        ensures { lose_first self.old ≡ (self.new, outcomes_of_line_change result) }
    {
        match self.frames.pop_front() {
            Some(_) => Change::Lost,
            None => Change::Empty,
        }
    }

    /// A copy of the first frame is put right behind it.
    fn repeat(&mut self, alloc: Global) -> Result<Change, NoMemory>
        ensures { IfOk result (λ change. repeat_first self.old ≡ (self.new, outcomes_of_line_change change)) }
    {
        let Some(frame) = self.frames.pop_front() else {
            return Ok(Change::Empty);
        };
        let copy = copied(alloc, frame.as_slice())?;
        self.frames.push_front(copy)?;
        self.frames.push_front(frame)?;
        Ok(Change::Repeated)
    }

    /// The octet of the first frame at a place, from 0, is changed by exclusive or.
    fn alter(&mut self, alloc: Global, place: u64, mask: u8) -> Result<Change, NoMemory>
        ensures { IfOk result (λ change. alter_first place mask self.old ≡ (self.new, outcomes_of_line_change change)) }
    {
        let Some(frame) = self.frames.pop_front() else {
            return Ok(Change::Empty);
        };
        let found = frame.as_slice().len();
        if place >= found as u64 {
            self.frames.push_front(frame)?;
            return Ok(Change::Short(found));
        }
        if mask == 0 {
            self.frames.push_front(frame)?;
            return Ok(Change::Unchanged);
        }
        let mut octets = Vec::from_slice(alloc, frame.as_slice())?;
        octets[place as usize] ^= mask;
        self.frames.push_front(Octets::new(octets))?;
        Ok(Change::Altered)
    }

    /// Octets become the first frame.
    fn put(&mut self, alloc: Global, frame: &[u8]) -> Result<Change, NoMemory>
        ensures { IfOk result (λ change. put_first frame.now self.old ≡ (self.new, outcomes_of_line_change change)) }
    {
        let frame = copied(alloc, frame)?;
        self.frames.push_front(frame)?;
        Ok(Change::Inserted)
    }

    /// The line changes what waits.
    pub fn change(&mut self, alloc: Global, how: &LineChange) -> Result<Change, NoMemory>
        ensures { IfOk result (λ change. change_first (change_of how.now) self.old ≡ (self.new, outcomes_of_line_change change)) }
    {
        match how {
            LineChange::Lose => Ok(self.lose()),
            LineChange::Repeat => self.repeat(alloc),
            LineChange::Alter { place, mask } => self.alter(alloc, *place, *mask),
            LineChange::Put(frame) => self.put(alloc, frame),
        }
    }
}

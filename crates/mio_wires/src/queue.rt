//! What happened, in the order in which it is answered.

ghost use Rattle.std.specs.Prelude.{◌≡◌, ◌==◌, ◌<◌, not, true};
ghost use Rattle.std.specs.Option.{option_to_list};
ghost use Rattle.mio_wires.specs.Queueing.{Takes, Forgets, IsAdded, behind, is_seen_at, told_at_act};
ghost use Rattle.mio_wires.specs.Standing.{HasRoomForHappening, StandsIn, count};

use er_base::NoMemory;
use std::alloc::Global;
use std::collections::VecDeque;

// What happened and wasn't answered yet: at the listener, where the application comes, or at the connection of this number.
#[derive(Clone, Copy, Debug, PartialEq, Eq)]
pub enum Seen {
    Listener,
    Door,
    Readable(u64),
    Writable(u64),
}

impl Seen {
    // Whether it happened at the connection of this number.
    fn is_at(self, number: u64) -> bool
        ensures { result ≡ is_seen_at number self }
    {
        match self {
            Seen::Listener | Seen::Door => false,
            Seen::Readable(at) | Seen::Writable(at) => at == number,
        }
    }
}

// Each happening stands here once.
#[derive(Drop)]
pub struct Queue {
    seen: VecDeque<Seen>,
    // Whether the listener may stand in it.
    is_heard: bool,
}

impl Queue {
    // An empty queue, with the memory for so many happenings.
    pub fn with_capacity(alloc: Global, happenings: usize) -> Result<Queue, NoMemory> {
        Ok(Queue {
            seen: VecDeque::with_capacity(alloc, happenings)?,
            is_heard: false,
        })
    }

    pub fn is_empty(&self) -> bool
        ensures { result ≡ (count self.now == 0) }
    {
        self.seen.is_empty()
    }

    // Whether one more happening has its place. The memory for each happening once was reserved, so it always has.
    pub fn has_room(&self) -> bool
        ensures { result ≡ true → HasRoomForHappening self.now }
    {
        self.seen.len() < self.seen.capacity()
    }

    // Adds the listener at the end, where it doesn't stand here already.
    pub fn add_listener(&mut self)
        ensures stands { HasRoomForHappening self.old → StandsIn self.new Seen.Listener }
        ensures order { HasRoomForHappening self.old → IsAdded self.old.seen.items Seen.Listener self.new.seen.items }
    {
        let may_stand = self.is_heard;
        self.is_heard = true;
        self.add(Seen::Listener, may_stand);
    }

    // Adds a happening at the end, where it doesn't stand here already: it is looked for only where it may. All that stands here stays, in its order.
    pub fn add(&mut self, seen: Seen, may_stand: bool)
        ensures stands { HasRoomForHappening self.old → StandsIn self.new seen }
        ensures order { HasRoomForHappening self.old → IsAdded self.old.seen.items seen self.new.seen.items }
        ensures stay { (what : Seen) → StandsIn self.old what → StandsIn self.new what }
    {
        if may_stand && self.stands(seen) {
            return;
        }
        let _room = self.seen.push_back(seen);
    }

    fn stands(&self, seen: Seen) -> bool
        ensures { result ≡ true → StandsIn self.now seen }
    {
        self.seen.contains(&seen)
    }

    // Takes the first happening.
    pub fn next(&mut self) -> Option<Seen>
        ensures first { option_to_list result ≡ told_at_act Takes self.old.seen.items }
        ensures rest { self.new.seen.items ≡ behind Takes self.old.seen.items }
    {
        let seen = self.seen.pop_front()?;
        if seen == Seen::Listener {
            self.is_heard = false;
        }
        Some(seen)
    }

    // Takes out the happenings of the connection of this number.
    pub fn forget(&mut self, number: u64)
        ensures room { HasRoomForHappening self.old → HasRoomForHappening self.new }
        ensures others { self.new.seen.items ≡ behind (Forgets number) self.old.seen.items }
    {
        self.seen.retain(
            |seen| -> bool
                ensures { result ≡ not (is_seen_at number seen.now) }
            { !seen.is_at(number) },
        );
    }
}

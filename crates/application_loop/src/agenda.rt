//! What is to be visited of the live connections, and when.

// Where something may be to do now, and when else: too many places and too early a moment do no harm.
#[derive(Clone, Copy)]
pub(crate) struct Agenda {
    // Before this moment nothing is to do at any connection but those at the places.
    wakes: Option<u64>,
    // The first of the places at which something may be to do now, and the one behind the last.
    first: usize,
    behind: usize,
}

// The earlier of two moments, where they are.
pub(crate) fn earlier(one: Option<u64>, other: Option<u64>) -> Option<u64> {
    match (one, other) {
        (Some(one), Some(other)) => Some(one.min(other)),
        (one, None) => one,
        (None, other) => other,
    }
}

impl Agenda {
    // Nothing is to do.
    pub(crate) fn new() -> Agenda {
        Agenda {
            wakes: None,
            first: 0,
            behind: 0,
        }
    }

    // Something may be to do at this place now, and then at this moment.
    pub(crate) fn note(&mut self, place: usize, wakes: Option<u64>) {
        self.wakes = earlier(self.wakes, wakes);
        let next = place.saturating_add(1);
        if self.first >= self.behind {
            self.first = place;
            self.behind = next;
            return;
        }
        self.first = self.first.min(place);
        self.behind = self.behind.max(next);
    }

    // The connection at this place is no more: those behind it are one place further to the front.
    pub(crate) fn removed(&mut self, place: usize) {
        if self.first < self.behind {
            self.first = self.first.min(place);
        }
    }

    // The first of the places at which something may be to do, and the one behind the last.
    pub(crate) fn places(&self) -> (usize, usize) {
        (self.first, self.behind)
    }

    // What is to do now is done.
    pub(crate) fn done(&mut self) {
        self.first = 0;
        self.behind = 0;
    }

    // Before this moment nothing is to do but at the places.
    pub(crate) fn wakes_at(&mut self, wakes: Option<u64>) {
        self.wakes = wakes;
    }

    // Before this moment nothing is to do but at the places.
    pub(crate) fn wakes(&self) -> Option<u64> {
        self.wakes
    }
}

//! Faults of heads, by the status of the answer.

// How many statuses have a counter of their own.
const STATUSES: usize = 16;

/// How often each status was answered. A status that finds no free place is counted with the other ones.
#[derive(Clone, Copy, PartialEq, Eq, Debug)]
pub(crate) struct StatusCounts {
    // a status and its count; a count of 0 is a free place
    places: [(u16, u64); STATUSES],
    others: u64,
}

impl StatusCounts {
    /// No fault.
    pub(crate) fn new() -> StatusCounts {
        StatusCounts {
            places: [(0, 0); STATUSES],
            others: 0,
        }
    }

    /// Counts a fault.
    pub(crate) fn add(&mut self, status: u16) {
        for place in &mut self.places {
            if place.1 == 0 || place.0 == status {
                *place = (status, place.1.saturating_add(1));
                return;
            }
        }
        self.others = self.others.saturating_add(1);
    }

    /// Each status that was answered with its count, and then free places.
    pub(crate) fn places(&self) -> &[(u16, u64)] {
        &self.places
    }

    /// How many faults had other statuses.
    pub(crate) fn others(&self) -> u64 {
        self.others
    }
}

//! The places of a door.

use crate::workers::{CLERKS, OPERATORS};
use std::sync::atomic::{AtomicBool, AtomicU64, Ordering};
use std::thread;
use std::time::{Clock, Duration};

// How often it is looked whether a place is free, and how long is waited in between, in milliseconds: two seconds.
const LOOKS: u32 = 100;

const PAUSE: u64 = 20;

/// How many callers may be served at once at a door, and how many are. Threads share it.
///
/// Nothing is proved of the numbers, since contracts do not see what threads share.
#[derive(Drop)]
pub struct Places {
    most: u64,
    taken: AtomicU64,
    is_full: AtomicBool,
}

/// A place that a caller has, until it is let go or given up.
pub(crate) struct Place<'a> {
    places: &'a Places,
    is_kept: bool,
    is_given_up: AtomicBool,
}

impl Places {
    /// The places of the clerks' door, none of which is taken.
    pub fn of_clerks() -> Places {
        Places::new(CLERKS)
    }

    /// Those of the operators' door, but for the ones that are kept.
    pub fn of_operators() -> Places {
        Places::new(OPERATORS)
    }

    fn new(most: u32) -> Places {
        Places {
            most: u64::from(most),
            taken: AtomicU64::new(0),
            is_full: AtomicBool::new(false),
        }
    }

    // Changes the count of places that are taken from this number, if it is that.
    fn changed(&self, from: u64, to: u64) -> bool {
        self.taken
            .compare_exchange(from, to, Ordering::SeqCst, Ordering::SeqCst)
            .is_ok()
    }

    fn place(&self, is_kept: bool) -> Place<'_> {
        Place {
            places: self,
            is_kept,
            is_given_up: AtomicBool::new(false),
        }
    }

    /// Takes a place; one that is kept where all are taken.
    pub(crate) fn take(&self) -> Place<'_> {
        let others = self.taken.fetch_add(1, Ordering::SeqCst);
        self.place(others >= self.most)
    }

    // Takes a place, if one is free.
    fn take_free(&self) -> Option<Place<'_>> {
        let others = self.taken.load(Ordering::SeqCst);
        if others < self.most && self.changed(others, others.wrapping_add(1)) {
            self.is_full.store(false, Ordering::SeqCst);
            return Some(self.place(false));
        }
        None
    }

    /// Takes a place, if one is free within two seconds. Behind a caller for whom none was, it is looked once.
    pub(crate) fn find<C: Clock>(&self, clock: &C) -> Option<Place<'_>> {
        for _ in 0..LOOKS {
            if let Some(place) = self.take_free() {
                return Some(place);
            }
            thread::sleep(clock, Duration::from_millis(PAUSE));
            if self.is_full.load(Ordering::SeqCst) {
                return self.take_free();
            }
        }
        self.is_full.store(true, Ordering::SeqCst);
        None
    }

    // Gives a place back, if all are taken.
    fn give_back(&self) -> bool {
        let taken = self.taken.load(Ordering::SeqCst);
        taken >= self.most && self.changed(taken, taken.wrapping_sub(1))
    }
}

impl Place<'_> {
    /// Whether it is one that is kept.
    pub(crate) fn is_kept(&self) -> bool {
        self.is_kept
    }

    /// Gives the place up, if all are taken.
    pub(crate) fn give_up(&self) -> bool {
        let is_given_up = self.places.give_back();
        if is_given_up {
            self.is_given_up.store(true, Ordering::SeqCst);
        }
        is_given_up
    }

    /// Whether it was given up.
    pub(crate) fn is_given_up(&self) -> bool {
        self.is_given_up.load(Ordering::SeqCst)
    }
}

impl Drop for Place<'_> {
    fn drop(self) {
        let Place {
            places,
            is_kept: _is_kept,
            is_given_up,
        } = self;
        if !is_given_up.load(Ordering::SeqCst) {
            places.taken.fetch_sub(1, Ordering::SeqCst);
        }
    }
}

//! How much of its history an open office has used.

use std::sync::atomic::{AtomicU64, Ordering};

/// How long the history of an open office is, as far as its callers were told. Threads share it.
///
/// Nothing is proved of the number, since contracts do not see what threads share.
#[derive(Drop)]
pub struct Gauge {
    entries: AtomicU64,
}

impl Gauge {
    /// The history has so many entries.
    pub fn new(entries: u64) -> Gauge {
        Gauge {
            entries: AtomicU64::new(entries),
        }
    }

    /// The history has so many entries, or more.
    pub(crate) fn reach(&self, entries: u64) {
        if entries > self.entries.load(Ordering::SeqCst) {
            self.entries.store(entries, Ordering::SeqCst);
        }
    }

    /// How many entries there are, or were a moment ago.
    pub fn entries(&self) -> u64 {
        self.entries.load(Ordering::SeqCst)
    }
}

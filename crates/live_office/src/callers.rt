//! How many callers an office serves.

use std::sync::atomic::{AtomicU64, Ordering};

/// How many callers an office serves at this moment, at both doors. Threads share it.
///
/// Nothing is proved of the number, since contracts do not see what threads share: of the answer to `status` only the
/// book's part is proved, which is that of an admissible book.
#[derive(Drop)]
pub struct Callers {
    served: AtomicU64,
}

impl Callers {
    /// No caller is served yet.
    pub fn new() -> Callers {
        Callers {
            served: AtomicU64::new(0),
        }
    }

    /// Counts one caller in, who is served from now on.
    pub fn come(&self) {
        self.served.fetch_add(1, Ordering::SeqCst);
    }

    /// Counts one caller out, who is served no more.
    pub fn go(&self) {
        self.served.fetch_sub(1, Ordering::SeqCst);
    }

    /// How many are counted in and not yet out.
    pub fn count(&self) -> u64 {
        self.served.load(Ordering::SeqCst)
    }
}

//! Places that a test may hold a thread at.
use rights_lattice::SiteId;
use std::sync::Wait;

/// Where a thread is. A session's lines are counted from 1, over those that are asked.
#[derive(Clone, Copy, PartialEq, Eq, Debug)]
pub enum Place {
    /// Before a line is asked.
    Asking { session: u64, line: u64 },
    /// Under the lock of a site.
    Inside { site: SiteId },
    /// After a line is answered.
    Answered { session: u64, line: u64 },
}

/// What a thread passes at each place. It promises nothing, and may wait: at `Inside` for nothing that needs the same
/// desk.
pub trait Gate {
    /// Passes this place.
    fn pass<R: Wait>(&self, rt: &R, place: Place);
}

/// The gate that does nothing.
#[derive(Clone, Copy, PartialEq, Eq, Debug)]
pub struct NoGate;

impl Gate for NoGate {
    fn pass<R: Wait>(&self, _rt: &R, _place: Place) {}
}

//! Delta-intervals of a site's history (Almeida et al., JPDC 2018).
//!
//! `interval` joins the deltas of the entries from one length of a history to another. `Pending` holds such an
//! interval for one peer: it grows with the history (`catch_up`), and begins again at what the peer acknowledges
//! (`acked`).
//!
//! Guaranteed: `add`, `catch_up` and `acked` keep it the join of the deltas of just the entries that it spans, as
//! `interval` is; an error leaves it as it was.
//!
//! What else an interval may do is a method of `Pending` that keeps the invariant of `specs/Pending.antt`.
//!
//! Lemmas for callers: `PendingLaws`.
#![tactic(auto)]

pub mod intervals;
pub mod pending;

pub use intervals::interval;
pub use pending::Pending;

//! The rights of a site, and what all sites released, sold and took back.
//!
//! A site may sell what it released, was given and took back, less what it gave away and sold. `left` computes that
//! from the cells; `Counted` holds it beside them for one site, event by event, so that a look-up sums nothing.
//! `totals` and `open_seats` are the sums of a view: `open_seats` is `None` where some site's rights are negative in
//! it. `share` is what any site may sell by a view, which `left` cannot tell of a site whose rights are negative.
//!
//! Guaranteed: the rights that `Counted` holds are those of its cells and are never negative; `left` requires that.
//! `laws::rights_are_a_bounded_counter` equates them with the local rights of SRDS 2015, plus what was taken back (our
//! own), and `laws::open_seats_are_the_counters` equates open seats with the counter's value.
//!
//! A new sum over a view is a function beside `totals` (`rights.rt`, `specs/Rights.antt`) or `open_seats`
//! (`position.rt`, `specs/OpenSeats.antt`). What an operation does to `Counted` is a variant of `Effect`, with its
//! case in `specs/Effects.antt`.
//!
//! Lemmas for callers: `KeptLaws`, `PositionLaws`, `Sums`, `Within`.
#![tactic(auto)]

pub mod counted;
mod effect;
pub mod laws;
pub mod position;
pub mod rights;
pub mod seat_totals;

pub use counted::Counted;
pub use position::open_seats;
pub use rights::{left, paper_value, share, totals};
pub use seat_totals::{Totals, ViewTotals};

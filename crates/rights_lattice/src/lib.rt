//! Events, sites, cells, and the state of rights as a join semilattice.
//!
//! A cell is one number of an event: seats that a site released or ceded to another (`Gave`), sold (`Used`) or took
//! back (`Back`). It belongs to the row of one site, and only increases. `Rights` maps cells to values; an absent cell
//! is 0. `Event`, `SiteId`, `Sites` and `Amount` are made by calls that return a value exactly where the input is in
//! range.
//!
//! Guaranteed: `get`, `raise`, `join` and the tests of order are the definitions of `specs/Cells.antt`. The join takes
//! the larger value of each cell, and is the least upper bound (`laws`). `merge_marks` and `merge_names` join two
//! sorted lists.
//!
//! The matrix is that of an escrow bounded counter (Balegas et al., SRDS 2015); order and join are those of
//! state-based replicated data (INRIA RR-7506). What a site takes back in refunds is our own.
//!
//! A new kind of cell is a variant of `Cell` with its owner (`cell.rt`, `specs/Cell.antt`), its place in
//! `specs/CellOrder.antt` and its sum in `specs/Sums.antt`; `delta_wire` then needs a line for it.
//!
//! Lemmas for callers: `CellLaws`, `EventLaws`, `MarkLaws`, `MergeLaws`, `MissingLaws`, `OrLaws`, `RightsLaws`,
//! `SpotLaws`, `StateLaws`, `TableLaws`, `TestLaws`.
#![tactic(auto)]

pub mod amount;
pub mod cell;
pub mod event;
pub mod laws;
mod limits;
pub mod mark;
pub mod merge;
pub mod rights;
pub mod site;

pub use amount::Amount;
pub use cell::{Cell, owner};
pub use event::Event;
pub use limits::{GREATEST_SITE, LONGEST_NAME, MOST_SITES, SITE_NUMBERS};
pub use mark::{GREATEST_VALUE, Mark};
pub use merge::{key_order, merge_marks, merge_names};
pub use rights::Rights;
pub use site::{SiteId, Sites};

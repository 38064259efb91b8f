//! Deltas, and the mark that one operation makes or the name that it announces.
//!
//! A delta is a sorted list of names and of marks (a cell with its new value), the part of a state that a message
//! carries. `announce`, `release`, `sale`, `cession` and `refund` give the item of an operation, or `CellFull` where a
//! cell would pass its maximum. `Delta` is made empty, from an item, by a join, or item by item.
//!
//! Guaranteed: each call is its definition; `laws::applying_is_joining` says that applying an operation to a state is
//! joining the delta of its item (Almeida et al., JPDC 2018). That the delta is the least such state is not proved.
//!
//! The operations are those of an escrow bounded counter (SRDS 2015); announced names are a grow-only set (RR-7506),
//! and refunds are our own.
//!
//! A new operation is a function of `mutators.rt` whose contract is `IsRaised` at its cell, or says its item. A new
//! kind of item is a variant of `Item`, with its place in `specs/Items.antt` and a case of `Rises.antt`.
//!
//! Lemmas for callers: `EndLaws`.
#![tactic(auto)]

pub mod delta;
pub mod laws;
pub mod mutators;

pub use delta::{Delta, Item};
pub use mutators::{CellFull, announce, cession, refund, release, sale};

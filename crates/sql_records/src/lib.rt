//! A site's history in a database.
//!
//! `Records` is a store (`history_keeper::Keeper`) over a database, one row an entry, one transaction a call. `init`,
//! `migrate`, `find` and `list` are functions of `Records` too. What is known of every store stands in
//! `history_keeper`, whose names are names of this crate too.
//!
//! Guaranteed, while nothing else writes the database and it returns what was written (`is_trusted`): after a call that
//! succeeded a crash leaves the list with its entries, after one that failed with all of them or none.
//! `Records::open` returns the entries of the rows, or the first fault in a fixed order. `open_after_stop` opens what
//! a crash leaves.
//!
//! A call that opens, makes, finds or lists has one relation in `specs/Opened.antt`; a call that only reads is `Reads`
//! in `specs/Opening.antt`. Another column is a row of `specs/Layout.antt`, a column in `columns`, and its reading in
//! `reading`. Lemmas for callers: `OpeningLemmas`.
#![tactic(auto)]

mod columns;
mod creation;
mod fault;
mod inserting;
pub mod laws;
mod lookup;
mod migrating;
mod opening;
mod reading;
mod records;
mod shape;
mod version;

pub use fault::{InitFault, MigrateFault, OpenFault};
pub use history_keeper::{Found, KeepFault, Keeper, ListKeeper, Listed, Meta};
pub use lookup::FindFault;
pub use opening::read_records;
pub use records::Records;

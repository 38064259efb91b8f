//! The book of one site: its history, the decisions on requests, and what peers' deltas and greater counts of sites
//! lead to.
//!
//! A caller plans, stores and applies: `plan` decides on a request, `plan_join` on a peer's delta, `plan_grow` on a
//! count of sites. None of them changes what the book shows. `enter` applies the planned entry and cannot fail.
//! `replay` makes the book of a list of entries, or the index of the first entry that cannot follow those before it.
//!
//! Guaranteed by the type: cells and names are the join of the deltas in the history, and the history is legal. `laws`
//! say what follows: own rights are not negative, no sale is given back beyond its seats, each request number has one
//! kept reply. A delta that raises a cell of the book's own row is refused, forged or not.
//!
//! The state is a bounded counter (SRDS 2015); refunds, growth and request numbers are our own.
//!
//! A new decision is a case of `specs/Decision.antt` and a branch of `book/deciding.rt`. A new kind of entry is a
//! variant of `Entry`, with its cases in `specs/History.antt` and `Legal.antt`, a function that plans it, and a
//! branch of `is_next` (`book/replaying.rt`) and of what `enter` joins (`book/joining.rt`).
//!
//! Lemmas for callers: `BookLaws`, `Deltas`, `Growths`, `Histories`, `NameLaws`, `Next`, `Refunds`, `Rows`.
#![tactic(auto)]

pub mod book;
pub mod entry;
pub mod growth;
pub mod laws;
pub mod limit;
pub mod plan;

pub use book::Book;
pub use entry::Entry;
pub use growth::Growth;
pub use limit::Limit;
pub use plan::{
    GrowFault, JoinDecision, JoinFault, JoinPlan, Plan, PlanFault, Planned, ReplayFault,
};

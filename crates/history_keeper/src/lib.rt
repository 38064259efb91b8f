//! What a history is stored in: the trait of a store, and a store in memory.
//!
//! `Keeper` is the trait: a list of entries that grows at its end, by `append` one and by `append_all` several at once.
//! From the first call that fails it is shut, and only opening it again tells what was stored. `ListKeeper` is a store
//! in memory, for tests. `Meta` says of which site a history is; `Found` and `Listed` are what is asked of one.
//!
//! Guaranteed of every store, while nothing else writes it and it returns what was written (`is_trusted`): after a call
//! that succeeded a crash leaves the list with its entries, after one that failed with all of them or none.
//!
//! A new store is an `impl Keeper` in a crate of its own: it says what it holds (`kept`), what an open reads after a
//! crash (`may_leave`), and when its promises hold (`is_trusted`). `specs/Keeping.antt` has the words for its clauses.
#![tactic(auto)]

mod keeper;
mod list_keeper;
mod lookup;
mod meta;

pub use keeper::{KeepFault, Keeper};
pub use list_keeper::ListKeeper;
pub use lookup::{Found, Listed};
pub use meta::Meta;

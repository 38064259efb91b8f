//! All sites as one list of steps, and what holds over every such list.
//!
//! A world is the sites and every message ever sent. A step is a request, a send, a delivery, a crash, a restart or a
//! growth; a delivery may name any sent message, again and in any order. `World` runs steps, one by one (`step`) or as
//! a list (`run`); `totals` sums over all accepted requests; `audit` judges and sums books that no world ran.
//!
//! Guaranteed: a step is the definition `after` of `specs/World.antt`, or an error that changes nothing.
//! `HoldsPromises` is true of every `World`: outstanding seats never exceed released seats, and more of
//! `specs/Promises.antt`. `laws` say it of every list of steps, over the definitions alone (`never_oversold` and nine
//! others). Where `audit` is `Ok`, the same bound holds of its books, whatever messages they took.
//!
//! What a site does in a step is what its book does over records: both cite `with_entry` and `site_after`.
//!
//! A new step is a variant of `Step` or `Input`, with its case of `after` in `specs/World.antt` and a function of
//! `node.rt`; a new promise is a field of `specs/Promises.antt`, proved of each step.
//!
//! Lemmas for callers: `Promised`, `Reached`.
#![tactic(auto)]

mod auditing;
mod books;
pub mod laws;
mod node;
pub mod step;
pub mod world;

pub use auditing::{AuditFault, audit, is_whole};
pub use step::{Input, Outcome, Step, WorldFault};
pub use world::World;

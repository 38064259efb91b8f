//! Two databases as the records of one site.
//!
//! `mark` marks a database as one of two copies, by a table `one_of_two` whose one row names both, and `unmark` takes the
//! mark off; each is one transaction. `is_one_of_two` asks for it before records are read, `are_of_one_pairing` whether two
//! marks say the same. `open_pair` opens two marked databases as one book, whose store is a `Pair`: it takes the longer and
//! brings the shorter up, or gives back what it did not open.
//!
//! Guaranteed of whichever of the two survives, while that one is trusted: a crash leaves the history of the book, as of one
//! database. What is opened extends what each of the two held. A database with no mark is never one of a pair.
//!
//! What the mark says is a statement of `marks.rt` and its row in `specs/Marks.antt`; what two marked databases
//! become is `specs/Pairs.antt`.
#![tactic(auto)]

mod marks;
mod opening;

pub use marks::{
    FOR_LOOKING, MarkFault, Pairing, are_of_one_pairing, is_one_of_two, mark, pairing_of, unmark,
};
pub use opening::{Pair, PairFault, PairRefusal, close_pair, open_pair};

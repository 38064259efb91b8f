//! Requests, replies, and the ledger of what was decided under each request number.
//!
//! A request is one of five verbs with its operands; a reply is a word, some with a number. `Verb` and `Reply` read
//! and write their words. `Ledger` maps each request number to its place in the history, its request and its reply,
//! and knows of each sale how many of its seats refunds gave back.
//!
//! Guaranteed: no number is there twice; `kept`, `keep` and `sale` are the definitions of `specs/Ledger.antt`, with
//! what refunds gave back of each sale. `reserve` alone may fail, and changes no entry. `keep` requires that the
//! number is new and that a refund fits its sale.
//!
//! The table of words in `specs/Words.antt` is the one that lines, messages and columns cite.
//!
//! A new verb is a variant of `Verb` and of `Request`, with its word in `specs/Words.antt` and its ranges in
//! `specs/Ranges.antt`; a new reply is a variant of `Reply` with its word. `book_core` decides it, `desk_lines` and
//! `sql_records` write it.
//!
//! Lemmas for callers: `KeptLaws`, `SumLaws`, `WordLaws`.
#![tactic(auto)]

pub mod ledger;
pub mod number;
pub mod reply;
pub mod request;
pub mod verb;

pub use ledger::Ledger;
pub use number::RequestNumber;
pub use reply::{Kept, Reply, SaleState};
pub use request::Request;
pub use verb::Verb;

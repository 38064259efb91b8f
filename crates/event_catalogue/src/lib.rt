//! The names of events that are known, in the order of first knowing.
//!
//! A caller asks whether a name is known (`has`) or which name has an index (`at`), and adds one name (`add`) or a
//! list of them (`join`), after reserving capacity for them with `reserve`, which alone may fail.
//!
//! Guaranteed: no name is there twice (`len: distinct`); `join` is the union, known names keep their index, and
//! `reserve` changes no name.
//!
//! What is asked of names is a method of `Catalogue`, with its definition in `specs/Catalogue.antt`.
//!
//! Lemmas for callers: `NameLaws`.
#![tactic(auto)]

pub mod catalogue;

pub use catalogue::Catalogue;

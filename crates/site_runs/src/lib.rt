//! Runs of sites' books: never oversold, of the books themselves.
//!
//! A run is a list of calls of up to 64 books, each with the site after it: requests, one or several at once, messages
//! taken and given, growths, crashes with what was entered stored or without, and starts from what was stored. A message
//! is lost where no call takes it, and may be taken again and in any order. Each book is one copy of its site, by the
//! shape of the definition.
//!
//! Guaranteed (`laws`): each run is a list of steps of a world that shows the same; so no run oversells, and no more is
//! given back than was sold. The same holds if sites keep two copies, of which either is lost after any step. By one book,
//! what each site may sell adds up to the open seats, where its view is possible. `books` has books of several sites as
//! one value that keeps this, whatever is done with it; `calls` has a start and a message given as calls of a run. For
//! callers: `proofs::Growing` (one call more).
//!
//! A new call is a variant of `Call` and a case of `Happens`, and of `adds` or `given_by` where it adds or gives
//! (`specs/Runs.antt`), with the step that it is (`specs/Steps.antt`) and its proof in `proofs/Moves.antt` or beside
//! it.
#![tactic(auto)]

pub mod books;
pub mod calls;
pub mod laws;
#[cfg(test)]
mod tests;

pub use books::Books;

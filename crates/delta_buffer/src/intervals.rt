//! The join of a stretch of a history.
ghost use Rattle.std.specs.Prelude.{◌≡◌, ◌<◌, ◌≤◌, length, IfOk, OnErr};
ghost use Rattle.book_core.specs.History.{interval};

use book_core::Book;
use delta_mutators::Delta;
use std::alloc::{AllocError, Global};

/// The delta-interval of a site from `from` up to but not `upto`: the join of the deltas of these entries.
pub fn interval(alloc: Global, book: &Book, from: usize, upto: usize) -> Result<Delta, AllocError>
    requires order { from ≤ upto }
    requires within { upto ≤ length book.now.history }
    ensures delta { IfOk result (λ delta. delta ≡ interval book.now.history from upto) }
    // An interval of no entries wants no memory.
    ensures memory { OnErr result (from < upto) }
{
    if from == upto {
        return Ok(Delta::empty(alloc));
    }
    if upto - from == 1 {
        let Some(entry) = book.entry(from) else {
            unreachable!()
        };
        return entry.delta().copy(alloc);
    }
    // Halves, since the join of two deltas walks over both whole.
    let middle = from + (upto - from) / 2;
    let front = interval(alloc, book, from, middle)?;
    let back = interval(alloc, book, middle, upto)?;
    front.join(alloc, &back)
}

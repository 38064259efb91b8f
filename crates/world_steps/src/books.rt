//! What several books know and did, summed up book by book.
ghost use Rattle.std.specs.Prelude.{◌≡◌, ◌+◌, ◌*◌, ℕ, IfOk, OnOk};
ghost use Rattle.rights_lattice.specs.Cells.{greatest_value};
ghost use Rattle.rights_lattice.specs.Limits.{site_numbers};
ghost use Rattle.book_core.specs.History.{state_of};
ghost use Rattle.world_steps.specs.Reaching.{AddsNames, AreAtMost, with_own};

use book_core::Book;
use local_rights::Totals;
use rights_lattice::{Cell, Event};
use std::alloc::{AllocError, Global};
use std::collections::BTreeSet;

/// The names of a set, rising.
pub(crate) fn listed(alloc: Global, names: &BTreeSet<Event>) -> Result<Vec<Event>, AllocError>
    ensures { IfOk result (λ list. list.items ≡ names.now.keys) }
{
    names.iter().copied().collect(alloc)
}

/// Adds the names that a book knows.
pub(crate) fn add_names(names: &mut BTreeSet<Event>, book: &Book) -> Result<(), AllocError>
    ensures { OnOk result
        (AddsNames names.old.keys names.new.keys (state_of book.now.history).names) }
{
    'names: for place in 0..book.event_count() {
        let Some(event) = book.event_at(place) else {
            unreachable!()
        };
        names.insert(event)?;
    }
    Ok(())
}

/// The sums with those of a book's own row added.
pub(crate) fn with_own(totals: Totals, book: &Book, event: Event) -> Totals
    requires small { AreAtMost (greatest_value * site_numbers) totals }
    ensures sums { result ≡ with_own totals book.now event }
    ensures bound { (most : ℕ) → AreAtMost most totals → AreAtMost (most + greatest_value) result }
{
    let me = book.me();
    Totals {
        released: totals.released + book.cell(event, Cell::Gave { by: me, to: me }),
        sold: totals.sold + book.cell(event, Cell::Used { by: me }),
        refunded: totals.refunded + book.cell(event, Cell::Back { by: me }),
    }
}

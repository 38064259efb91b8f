//! A greater count of sites at an open book.
ghost use Rattle.std.specs.Prelude.{◌≡◌, ◌≢◌, ℕ, List, Some, IfErr, OnOk, false};
ghost use Rattle.rights_lattice.specs.declared.cell.Cell.{Cell};
ghost use Rattle.book_core.specs.declared.entry.Entry.TheVariants.{Grown};
ghost use Rattle.book_core.specs.OwnRow.{HasOwnRights, cell_in};
ghost use Rattle.site_desk.specs.Answers.{IsGrowFault};
ghost use Rattle.site_desk.specs.Storing.{Enters, IsStoredBy};
ghost use Rattle.site_desk.specs.SiteView.{grow_decision_in, growth_in};

use crate::storing::store;
use book_core::{Book, GrowFault};
use history_keeper::Keeper;
use rights_lattice::Sites;
use std::alloc::Global;

// Keeps and enters a count of sites that is more than the count so far.
pub(crate) fn grow<K: Keeper>(
    book: &mut Book,
    keeper: &mut K,
    alloc: Global,
    sites: Sites,
) -> Result<(), GrowFault>
    requires { IsStoredBy K.Keeper
        keeper.old book.old.history }
    ensures enters { Enters K.Keeper
        book.old book.new keeper.old keeper.new
        (growth_in book.old sites) GrowFault.Store result }
    ensures growth { OnOk result (growth_in book.old sites ≡ Some (Grown sites)) }
    ensures fault { IfErr result (IsGrowFault false (grow_decision_in book.old sites)
        (K.failed keeper.old) (K.failed keeper.new)) }
    ensures refused { IfErr result
        (λ fault. fault ≢ GrowFault.Memory → fault ≢ GrowFault.Store → book.new ≡ book.old) }
    ensures cells { (event : List ℕ) (cell : Cell)
        → cell_in book.new event cell ≡ cell_in book.old event cell }
    ensures has_rights { HasOwnRights book.new }
{
    let planned = book.plan_grow(alloc, sites)?;
    match store(book, keeper, planned) {
        Ok(()) => Ok(()),
        Err(_) => Err(GrowFault::Store),
    }
}

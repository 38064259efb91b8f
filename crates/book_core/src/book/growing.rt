//! What a greater count of sites leads to.
ghost use Rattle.std.specs.Prelude.{IfOk, IfErr, ◌≡◌};
ghost use Rattle.book_core.specs.BookView.{LacksRoomFor};
ghost use Rattle.book_core.specs.Growing.{grow_decision};
ghost use Rattle.book_core.specs.OwnRow.{HasOwnRights};
ghost use Rattle.book_core.specs.Plans.{IsGrowPlan, IsGrowFault, LeavesGrowRoom};
ghost use Rattle.book_core.specs.declared.entry.Entry.TheVariants.{Grown};

use crate::book::Book;
use crate::entry::Entry;
use crate::growth::Growth;
use crate::plan::{GrowFault, Planned};
use rights_lattice::Sites;
use std::alloc::Global;

impl Book {
    /// What a count of sites leads to: a new entry, where it is more than the count so far, the history is not full and
    /// memory suffices.
    ///
    /// The book shows what it showed and loses no room in every case. Where the new entry is planned it has all the room
    /// that this takes. It makes no room but for a growth.
    pub fn plan_grow(&mut self, alloc: Global, sites: Sites) -> Result<Planned, GrowFault>
        ensures unchanged { self.new ≡ record self.old { room = self.new.room } }
        ensures plan { IfOk result (IsGrowPlan self.new sites) }
        ensures fault { IfErr result (IsGrowFault self.new sites) }
        ensures still { LeavesGrowRoom
            (grow_decision self.old.office self.old.history sites) self.old self.new }
        ensures memory { result ≡ Err GrowFault.Memory → LacksRoomFor self.old.room (Grown sites) }
        ensures has_rights { HasOwnRights self.new }
    {
        // The prover opens the book, whose type says that its history is legal.
        let _ = &self.limit;
        if sites.count() <= self.sites().count() {
            return Err(GrowFault::NotMore);
        }
        if self.is_full() {
            return Err(GrowFault::Full);
        }
        let entry = Entry::Grown {
            sites: Growth::to(alloc, sites),
        };
        if self.reserve(&entry).is_err() {
            return Err(GrowFault::Memory);
        }
        Ok(Planned { entry })
    }
}

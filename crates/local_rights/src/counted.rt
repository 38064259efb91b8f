//! A state of rights, with the rights that one site has left kept beside it.
ghost use Rattle.std.specs.Prelude.{◌≡◌, ◌+◌, ◌^◌, ◌<◌, ◌≤◌, OnOk, IsOk, None, pos, ◌==◌, if◌then◌else◌};
ghost use Rattle.std.specs.Map.{lookup};
ghost use Rattle.indexmap.specs.IndexMap.{spare};
ghost use Rattle.rights_lattice.specs.Cell.{same_event};
ghost use Rattle.rights_lattice.specs.Cells.{greatest_value, value_at, all_zero, raise};
ghost use Rattle.rights_lattice.specs.RightsView.{IsCellOf};
ghost use Rattle.local_rights.specs.declared.effect.Effect.TheVariants.{Takes};
ghost use Rattle.local_rights.specs.Counted.{left_in, HasKept, IsKeptAfter};
ghost use Rattle.local_rights.specs.Rights.{HasRights, left_of, rights_of};

use crate::effect::Effect;
use indexmap::IndexMap;
use rights_lattice::{Cell, Event, Mark, Rights, SiteId, Sites};
use std::alloc::{AllocError, Global};
use std::marker::Model;

/// A state of rights, and what one site may still sell of each event. The site's rights are never negative.
/// A look-up is in a hash map: on average it takes as long over ten thousand events as over one.
#[derive(Drop)]
pub struct Counted {
    me: SiteId,
    rights: Rights,
    /// The seats that the site may still sell, for each event with a cell that is not 0.
    left: IndexMap<Event, u64>,
    /// For how many more cells room was reserved.
    room: usize,
}

impl Model for Counted {
    ghost use Rattle.std.specs.Prelude.{◌≤◌};
    ghost use Rattle.indexmap.specs.IndexMap.{spare};
    ghost use Rattle.local_rights.specs.Counted.{CountedView, coded_counted, AreKept};

    ghost Value = { CountedView };

    ghost coded = { coded_counted };

    ghost view = { λ c. record { me = c.me; sites = c.rights.sites; cells = c.rights.cells; room = c.room } };

    ghost invariant = { λ c. AreKept c.left.entries c.rights.sites c.me c.rights.cells × (c.room ≤ c.rights.room) × (c.room ≤ spare c.left) };
}

impl Counted {
    /// The rights of so many sites, where every cell is 0, with those of site `me` kept.
    pub fn new(alloc: Global, me: SiteId, sites: Sites) -> Counted
        requires { me < sites }
        ensures me { result.me ≡ me }
        ensures sites { result.sites ≡ sites }
        ensures cells { result.cells ≡ all_zero }
        ensures room { result.room ≡ 0 }
    {
        Counted {
            me,
            rights: Rights::new(alloc, sites),
            left: IndexMap::new(alloc),
            room: 0,
        }
    }

    /// Counts so many sites, and no fewer than before. Each cell and what the site has left stay as they are.
    pub fn grow(&mut self, sites: Sites)
        requires not_fewer { self.old.sites ≤ sites }
        ensures sites { self.new.sites ≡ sites }
        ensures me { self.new.me ≡ self.old.me }
        ensures cells { self.new.cells ≡ self.old.cells }
        ensures room { self.new.room ≡ self.old.room }
    {
        self.rights.grow(sites);
    }

    /// The state of rights.
    pub fn rights(&self) -> &Rights
        ensures cells { result.now.cells ≡ self.now.cells }
        ensures sites { result.now.sites ≡ self.now.sites }
    {
        &self.rights
    }

    /// The site whose rights are kept.
    pub fn me(&self) -> SiteId
        ensures me { result ≡ self.now.me }
        ensures is_site { result < self.now.sites }
    {
        self.me
    }

    /// The value of a cell, which is 0 where the cell names a site past the count.
    pub fn get(&self, event: Event, cell: Cell) -> u64
        ensures value { result ≡ value_at self.now.cells event cell }
        ensures at_most_max { result ≤ greatest_value }
    {
        self.rights.get(event, cell)
    }

    /// The seats that the site may still sell.
    pub fn left(&self, event: Event) -> u64
        ensures left { result ≡ left_of self.now.cells event self.now.me }
        ensures rights { pos result ≡ rights_of self.now.cells event self.now.me }
        ensures has_rights { HasRights self.now.cells event self.now.me }
    {
        self.left.get(&event).copied().unwrap_or(0)
    }

    /// Makes room for `more` cells that are 0 now, and needs none where it is there. An error leaves the cells and the
    /// count of sites as they were, and no less room.
    pub fn reserve(&mut self, more: usize) -> Result<(), AllocError>
        ensures ok { OnOk result (more ≤ self.new.room) }
        ensures succeeds { more ≤ self.old.room → IsOk result }
        ensures room { self.old.room ≤ self.new.room }
        ensures me { self.new.me ≡ self.old.me }
        ensures cells { self.new.cells ≡ self.old.cells }
        ensures sites { self.new.sites ≡ self.old.sites }
    {
        self.rights.reserve(more)?;
        self.left.reserve(more)?;
        self.room = self.room.max(more);
        Ok(())
    }

    /// Raises a cell to the greater of its old value and the mark's.
    pub fn raise(&mut self, mark: Mark)
        requires room { value_at self.old.cells mark.event mark.cell ≡ 0 → 0 < self.old.room }
        requires in_range { IsCellOf self.old.sites mark.cell }
        requires not_negative { HasRights (raise self.old.cells mark) mark.event self.old.me }
        ensures cells { self.new.cells ≡ raise self.old.cells mark }
        ensures me { self.new.me ≡ self.old.me }
        ensures sites { self.new.sites ≡ self.old.sites }
        ensures room { self.old.room
            ≤ self.new.room
            + (if value_at self.old.cells mark.event mark.cell == 0 then 1 else 0) }
        ensures no_more_room { self.new.room ≤ self.old.room }
    {
        let old = self.rights.get(mark.event, mark.cell);
        let more = mark.value.saturating_sub(old);
        self.rights.raise(mark);
        let effect = Effect::of(mark.cell, self.me);
        if old > 0 && effect == Effect::Leaves {
            return;
        }
        keep(&mut self.left, mark.event, effect, more);
        if old == 0 {
            self.room -= 1;
        }
    }
}

// Keeps what is left of an event of which a cell of this effect has risen.
fn keep(kept: &mut IndexMap<Event, u64>, event: Event, effect: Effect, more: u64)
    requires room { lookup (same_event event) kept.old.entries ≡ None → 0 < spare kept.old }
    requires fits { left_in kept.old.entries event + more < 2 ^ 64 }
    requires takes { effect ≡ Takes → more ≤ left_in kept.old.entries event }
    ensures left { IsKeptAfter kept.old.entries event effect more kept.new.entries }
    ensures room { spare kept.old ≤ spare kept.new + 1 }
    ensures known { HasKept kept.old.entries event → spare kept.old ≤ spare kept.new }
{
    match kept.get_mut(&event) {
        Some(left) => *left = effect.apply(*left, more),
        None => match kept.insert(event, effect.apply(0, more)) {
            Ok(_) => {}
            Err(_) => unreachable!(),
        },
    }
}

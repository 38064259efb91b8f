//! The state of rights.
ghost use Rattle.std.specs.Prelude.{◌≡◌, ◌+◌, ◌<◌, ◌≤◌, ◌↔◌, ◌==◌, IsTrue, IsOk, OnOk, IfOk, if◌then◌else◌};
ghost use Rattle.rights_lattice.specs.Cells.{greatest_value, value_at, all_zero, raise, join, AtOrBelow, RowAtOrBelow};
ghost use Rattle.rights_lattice.specs.RightsView.{IsCellOf, IsWithin, missing};
ghost use Rattle.rights_lattice.specs.Spots.{are_at_most, are_at_most_in_row};

use crate::cell::{Cell, owner};
use crate::event::Event;
use crate::mark::Mark;
use crate::site::{SiteId, Sites};
use indexmap::IndexMap;
use std::alloc::{AllocError, Global};
use std::marker::Model;

/// The values of the cells of all events. A look-up is in a hash map: on average it takes as long
/// over ten thousand events as over one.
#[derive(Drop)]
pub struct Rights {
    sites: Sites,
    /// The cells that are not 0.
    values: IndexMap<(Event, Cell), u64>,
    /// For how many more cells room was reserved. The map may have room for others.
    room: usize,
}

impl Model for Rights {
    ghost use Rattle.std.specs.Prelude.{◌≤◌};
    ghost use Rattle.indexmap.specs.IndexMap.{spare};
    ghost use Rattle.rights_lattice.specs.RightsView.{RightsView, coded_rights};
    ghost use Rattle.rights_lattice.specs.Spots.{cells_in, AreSpots};

    ghost Value = { RightsView };

    ghost coded = { coded_rights };

    ghost view = { λ r. record { sites = r.sites; cells = cells_in r.values.entries; room = r.room } };

    ghost invariant = { λ r. AreSpots r.sites r.values.entries × (r.room ≤ spare r.values) };
}

impl Rights {
    /// The rights of so many sites, where every cell is 0, with no room reserved.
    pub fn new(alloc: Global, sites: Sites) -> Rights
        ensures sites { result.sites ≡ sites }
        ensures cells { result.cells ≡ all_zero }
        ensures room { result.room ≡ 0 }
    {
        Rights {
            sites,
            values: IndexMap::new(alloc),
            room: 0,
        }
    }

    /// The count of sites. Each cell that is not 0 is of sites below it.
    pub fn sites(&self) -> Sites
        ensures sites { result ≡ self.now.sites }
        ensures within { IsWithin self.now.sites self.now.cells }
    {
        self.sites
    }

    /// Counts so many sites, and no fewer than before. Each cell stays as it is, which is 0 where it is of a new site.
    pub fn grow(&mut self, sites: Sites)
        requires not_fewer { self.old.sites ≤ sites }
        ensures sites { self.new.sites ≡ sites }
        ensures cells { self.new.cells ≡ self.old.cells }
        ensures room { self.new.room ≡ self.old.room }
    {
        self.sites = sites;
    }

    /// The value of a cell, which is 0 where the cell names a site past the count.
    pub fn get(&self, event: Event, cell: Cell) -> u64
        ensures value { result ≡ value_at self.now.cells event cell }
        ensures at_most_max { result ≤ greatest_value }
    {
        self.values.get(&(event, cell)).copied().unwrap_or(0)
    }

    /// Makes room for `more` cells that are 0 now, and needs none where it is there. An error leaves the cells and the
    /// count of sites as they were, and no less room.
    pub fn reserve(&mut self, more: usize) -> Result<(), AllocError>
        ensures ok { OnOk result (more ≤ self.new.room) }
        ensures succeeds { more ≤ self.old.room → IsOk result }
        ensures room { self.old.room ≤ self.new.room }
        ensures cells { self.new.cells ≡ self.old.cells }
        ensures sites { self.new.sites ≡ self.old.sites }
    {
        self.values.reserve(more)?;
        self.room = self.room.max(more);
        Ok(())
    }

    /// Raises a cell to the greater of its old value and the mark's.
    pub fn raise(&mut self, mark: Mark)
        requires room { value_at self.old.cells mark.event mark.cell ≡ 0 → 0 < self.old.room }
        requires in_range { IsCellOf self.old.sites mark.cell }
        ensures cells { self.new.cells ≡ raise self.old.cells mark }
        ensures sites { self.new.sites ≡ self.old.sites }
        ensures room { self.old.room
            ≤ self.new.room
            + (if value_at self.old.cells mark.event mark.cell == 0 then 1 else 0) }
        ensures no_more_room { self.new.room ≤ self.old.room }
    {
        let spot = (mark.event, mark.cell);
        match self.values.get_mut(&spot) {
            Some(value) => *value = mark.value.max(*value),
            None => {
                match self.values.insert(spot, mark.value) {
                    Ok(_) => {}
                    Err(_) => unreachable!(),
                }
                self.room -= 1;
            }
        }
    }

    /// Raises each cell to the greater of the two states, of which the other counts no more sites.
    pub fn join(&mut self, other: &Rights)
        requires sites { other.now.sites ≤ self.old.sites }
        requires room { missing self.old.cells other.now.cells ≤ self.old.room }
        ensures cells { self.new.cells ≡ join self.old.cells other.now.cells }
        ensures sites { self.new.sites ≡ self.old.sites }
        ensures room { self.old.room ≤ self.new.room + missing self.old.cells other.now.cells }
        ensures no_more_room { self.new.room ≤ self.old.room }
    {
        for ((event, cell), value) in other.values.iter() {
            self.raise(Mark {
                event: *event,
                cell: *cell,
                value: *value,
            });
        }
    }

    /// Whether each cell is at most that of the other state.
    pub fn at_or_below(&self, other: &Rights) -> bool
        ensures { IsTrue result ↔ AtOrBelow self.now.cells other.now.cells }
    {
        are_at_most(&self.values, other)
    }

    /// Whether each cell of a site's row is at most that of the other state.
    pub fn row_at_or_below(&self, site: SiteId, other: &Rights) -> bool
        ensures { IsTrue result ↔ RowAtOrBelow site self.now.cells other.now.cells }
    {
        are_at_most_in_row(&self.values, site, other)
    }

    /// The same state again, with no room reserved.
    pub fn copy(&self, alloc: Global) -> Result<Rights, AllocError>
        ensures sites { IfOk result (λ copy. copy.sites ≡ self.now.sites) }
        ensures cells { IfOk result (λ copy. copy.cells ≡ self.now.cells) }
        ensures room { IfOk result (λ copy. copy.room ≡ 0) }
    {
        let mut copy = Rights::new(alloc, self.sites);
        copy.values = self.values.clone()?;
        Ok(copy)
    }
}

// Whether each value is at most what the other state has there.
fn are_at_most(values: &IndexMap<(Event, Cell), u64>, other: &Rights) -> bool
    ensures { result ≡ are_at_most other.now.cells values.now.entries }
{
    values.iter().all(|((event, cell), value)| *value <= other.get(*event, *cell))
}

// The same of the cells of a site's row.
fn are_at_most_in_row(values: &IndexMap<(Event, Cell), u64>, site: SiteId, other: &Rights) -> bool
    ensures { result ≡ are_at_most_in_row other.now.cells site values.now.entries }
{
    values.iter().all(|((event, cell), value)| {
        owner(*cell) != site || *value <= other.get(*event, *cell)
    })
}

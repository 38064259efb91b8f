//! The known names of events.
ghost use Rattle.std.specs.Prelude.{◌≡◌, ◌+◌, ◌≤◌, ◌||◌, ℕ, List, [], ◌∷◌, false, length, slice_get, OnOk, IsOk};
ghost use Rattle.std.specs.List.{list_any, IsDistinct};
ghost use Rattle.rights_lattice.specs.Cell.{same_event};
ghost use Rattle.event_catalogue.specs.Catalogue.{with_new};

use indexmap::IndexSet;
use rights_lattice::Event;
use std::alloc::{AllocError, Global};
use std::marker::Model;

/// The names of events that are known, each once, in the order of first knowing. Names only come to it.
/// A look-up is in a hash map: on average it takes as long in a million names as in a thousand.
#[derive(Drop)]
pub struct Catalogue {
    names: IndexSet<Event>,
}

impl Model for Catalogue {
    ghost use Rattle.indexmap.specs.IndexSet.{spare};
    ghost use Rattle.event_catalogue.specs.Catalogue.{CatalogueView, coded_catalogue};

    ghost Value = { CatalogueView };

    ghost coded = { coded_catalogue };

    ghost view = { λ c. record { names = c.names.keys; room = spare c.names } };
}

impl Catalogue {
    /// A catalogue in which no name is known.
    pub fn new(alloc: Global) -> Catalogue
        ensures names { result.names ≡ [] }
    {
        Catalogue {
            names: IndexSet::new(alloc),
        }
    }

    /// How many names are known.
    pub fn len(&self) -> usize
        ensures len { result ≡ length self.now.names }
        ensures distinct { IsDistinct same_event self.now.names }
    {
        self.names.len()
    }

    /// Whether the name is known.
    pub fn has(&self, event: Event) -> bool
        ensures known { result ≡ list_any (same_event event) self.now.names }
    {
        self.names.contains(&event)
    }

    /// The name at the place, counted from 0 in the order of first knowing.
    pub fn at(&self, k: usize) -> Option<Event>
        ensures name { result ≡ slice_get self.now.names k }
    {
        self.names.get_index(k).copied()
    }

    /// Makes room for as many more names as are given. The known names stay, also where there is no memory.
    pub fn reserve(&mut self, names: &[Event]) -> Result<(), AllocError>
        ensures ok { OnOk result (length names.now ≤ self.new.room) }
        ensures succeeds { length names.now ≤ self.old.room → IsOk result }
        ensures names { self.new.names ≡ self.old.names }
        ensures room { self.old.room ≤ self.new.room }
    {
        self.names.reserve(names.len())
    }

    /// Makes the name known, at the end where it is new.
    pub fn add(&mut self, event: Event)
        requires room { list_any (same_event event) self.old.names ≡ false → 1 ≤ self.old.room }
        ensures names { self.new.names ≡ with_new self.old.names (event ∷ []) }
        ensures room { self.old.room ≤ self.new.room + 1 }
    {
        match self.names.insert(event) {
            Ok(_) => {}
            Err(_) => unreachable!(),
        }
    }

    /// Makes all the names known, those that are new at the end in their order: the union (RR-7506).
    pub fn join(&mut self, names: &[Event])
        requires room { length names.now ≤ self.old.room }
        ensures names { self.new.names ≡ with_new self.old.names names.now }
        ensures union { (name : List ℕ) → list_any (same_event name) self.new.names
            ≡ (list_any (same_event name) self.old.names || list_any (same_event name) names.now) }
        ensures room { self.old.room ≤ self.new.room + length names.now }
    {
        for name in names {
            self.add(*name);
        }
    }
}

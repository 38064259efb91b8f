//! Deltas: states as rising lists.
ghost use Rattle.std.specs.Prelude.{◌≡◌, IfOk, OnOk, OnErr, IsTrue};
ghost use Rattle.rights_lattice.specs.Cells.{marks_of};
ghost use Rattle.rights_lattice.specs.Marks.{are_rising_marks, are_rising_names};
ghost use Rattle.rights_lattice.specs.State.{bottom, join, names_in_order};
ghost use Rattle.delta_mutators.specs.Rises.{rises, pushed, PutsNameLast, PutsMarkLast, is_after_names, is_after_marks};

use rights_lattice::{Event, Mark, key_order, merge_marks, merge_names};
use std::alloc::{AllocError, Global};
use std::marker::Model;

/// What one operation adds to a state.
#[derive(Clone, Copy, PartialEq, Eq, Debug)]
pub enum Item {
    /// The event becomes known.
    Name(Event),
    /// The cell rises to the mark's value, where it is below it.
    Cell(Mark),
}

/// A state as lists: names and marks, each strictly rising.
#[derive(Debug, Drop)]
pub struct Delta {
    names: Vec<Event>,
    marks: Vec<Mark>,
}

impl Model for Delta {
    ghost use Rattle.rights_lattice.specs.State.{State, coded_state};
    ghost use Rattle.rights_lattice.specs.Marks.{cells_of, names_of};
    ghost use Rattle.delta_mutators.specs.Lists.{AreLists};

    ghost Value = { State };

    ghost coded = { coded_state };

    ghost view = { λ d. record { cells = cells_of d.marks.items; names = names_of d.names.items } };

    ghost invariant = { λ d. AreLists d.names.items d.marks.items };
}

impl Delta {
    ghost use Rattle.delta_mutators.specs.Items.{item_state};

    /// The delta of nothing.
    pub fn empty(alloc: Global) -> Delta
        ensures { result ≡ bottom }
    {
        Delta {
            names: Vec::new(alloc),
            marks: Vec::new(alloc),
        }
    }

    /// The delta of one item.
    pub fn of(alloc: Global, item: Item) -> Result<Delta, AllocError>
        ensures { IfOk result (λ delta. delta ≡ item_state item) }
    {
        match item {
            Item::Name(event) => Ok(Delta {
                names: Vec::from_slice(alloc, &[event])?,
                marks: Vec::new(alloc),
            }),
            Item::Cell(mark) => {
                prove!(mark.value > 0);
                Ok(Delta {
                    names: Vec::new(alloc),
                    marks: Vec::from_slice(alloc, &[mark])?,
                })
            }
        }
    }

    /// The join of two deltas: the names of both, and the greater of each cell.
    pub fn join(&self, alloc: Global, other: &Delta) -> Result<Delta, AllocError>
        ensures { IfOk result (λ delta. delta ≡ join self.now other.now) }
    {
        Ok(Delta {
            names: merge_names(alloc, &self.names, &other.names)?,
            marks: merge_marks(alloc, &self.marks, &other.marks)?,
        })
    }

    /// The same delta again.
    pub fn copy(&self, alloc: Global) -> Result<Delta, AllocError>
        ensures { IfOk result (λ delta. delta ≡ self.now) }
    {
        Ok(Delta {
            names: Vec::from_slice(alloc, &self.names)?,
            marks: Vec::from_slice(alloc, &self.marks)?,
        })
    }

    /// The names, rising.
    pub fn names(&self) -> &[Event]
        ensures { result.now ≡ names_in_order self.now.names }
    {
        self.names.as_slice()
    }

    /// The marks, rising.
    pub fn marks(&self) -> &[Mark]
        ensures { result.now ≡ marks_of self.now.cells }
    {
        self.marks.as_slice()
    }

    /// Whether the item comes after all of its kind: a name above the last name, a mark above the last mark.
    pub fn rises(&self, item: &Item) -> bool
        ensures { result ≡ rises self.now item.now }
    {
        match item {
            Item::Name(event) => is_after_names(&self.names, event),
            Item::Cell(mark) => is_after_marks(&self.marks, mark),
        }
    }

    /// Puts an item at the end. An error leaves the delta as it was.
    pub fn push(&mut self, item: Item) -> Result<(), AllocError>
        requires { IsTrue (rises self.old item) }
        ensures ok { OnOk result (self.new ≡ pushed self.old item) }
        ensures joined { OnOk result (self.new ≡ join self.old (item_state item)) }
        ensures names { OnOk result (PutsNameLast self.old item self.new) }
        ensures marks { OnOk result (PutsMarkLast self.old item self.new) }
        ensures err { OnErr result (self.new ≡ self.old) }
    {
        match item {
            Item::Name(event) => Ok(self.names.push(event)?),
            Item::Cell(mark) => {
                prove!(mark.value > 0);
                Ok(self.marks.push(mark)?)
            }
        }
    }
}

// Whether the name comes after all of the names.
fn is_after_names(names: &[Event], event: &Event) -> bool
    requires { IsTrue (are_rising_names names.now) }
    ensures { result ≡ is_after_names names.now event.now }
{
    match names.last() {
        None => true,
        Some(last) => last.cmp(event).is_lt(),
    }
}

// Whether the mark is of a later cell than all of the marks.
fn is_after_marks(marks: &[Mark], mark: &Mark) -> bool
    requires { IsTrue (are_rising_marks marks.now) }
    ensures { result ≡ is_after_marks marks.now mark.now }
{
    match marks.last() {
        None => true,
        Some(last) => key_order(last, mark).is_lt(),
    }
}

//! Marks: values of cells.
use crate::cell::Cell;
use crate::event::Event;
use std::marker::Model;

/// The greatest value of a cell.
pub const GREATEST_VALUE: u64 = 1_000_000_000_000;

/// A value of a cell of an event, 1 to `GREATEST_VALUE`.
#[derive(Clone, Copy, PartialEq, Eq, PartialOrd, Ord, Hash, Debug)]
pub struct Mark {
    pub event: Event,
    pub cell: Cell,
    pub value: u64,
}

impl Model for Mark {
    ghost use Rattle.std.specs.Prelude.{◌≤◌};
    ghost use Rattle.rights_lattice.specs.Cells.{Valued, coded_valued, greatest_value};

    ghost Value = { Valued };

    ghost coded = { coded_valued };

    ghost view = { λ m. record { event = m.event; cell = m.cell; value = m.value } };

    ghost invariant = { λ m. (1 ≤ m.value) × (m.value ≤ greatest_value) };

    ghost inverse = { λ m. record { event = m.event; cell = m.cell; value = m.value } };
}

//! The cells of one event, without memory.
ghost use Rattle.std.specs.Prelude.{◌≡◌, ℕ, List, ◌*◌, ◌<◌, ◌≤◌, max, if◌then◌else◌};
ghost use Rattle.rights_lattice.specs.declared.cell.Cell.{Cell as TheCell};
ghost use Rattle.rights_lattice.specs.Cell.{same_cell};
ghost use Rattle.rights_lattice.specs.Cells.{Cells, greatest, greatest_value};
ghost use Rattle.rights_lattice.specs.Limits.{site_numbers};
ghost use Rattle.rights_lattice.specs.RightsView.{IsCellOf};
ghost use Rattle.rights_lattice.specs.Sums.{max_sites};
ghost use Rattle.local_rights.specs.OpenSeats.{is_position, view_in};
ghost use Rattle.local_rights.specs.Rights.{gained, spent, left_of, released_in, sold_in, refunded_in};
ghost use Rattle.site_desk.specs.EventCells.{offset_of, value_in_table, Shows};

use local_rights::{Totals, ViewTotals};
use rights_lattice::{Cell, Event, Mark, SITE_NUMBERS, SiteId};
use std::marker::Model;

// How many cells an event has, for every number that a site may have.
const CELLS: usize = SITE_NUMBERS * SITE_NUMBERS + 2 * SITE_NUMBERS;

/// The values of the cells of one event, for every number that a site may have. They are in place and take no memory.
#[derive(Drop)]
pub struct EventCells {
    values: [u64; CELLS],
}

impl Model for EventCells {
    ghost use Rattle.std.specs.Prelude.{ℕ, ◌≤◌, List, get_or};
    ghost use Rattle.rights_lattice.specs.Cells.{greatest_value};

    ghost Value = { List ℕ };

    ghost view = { λ c. c.values };

    ghost invariant = { λ c. (place : ℕ) → get_or c.values place 0 ≤ greatest_value };
}

impl EventCells {
    /// All cells are 0.
    pub fn new() -> EventCells
        ensures { (cell : TheCell) → value_in_table result cell ≡ 0 }
    {
        EventCells { values: [0; CELLS] }
    }

    /// Raises the cells of an event to the greatest value that the marks say.
    pub fn raise_all(&mut self, event: &Event, marks: &[Mark])
        ensures { (cell : TheCell) → IsCellOf max_sites cell → value_in_table self.new cell ≡ max
            (value_in_table self.old cell) (greatest marks.now event.now cell) }
    {
        for mark in marks {
            if mark.event == *event {
                self.raise(&mark.cell, mark.value);
            }
        }
    }

    /// The seats that the site may still sell.
    pub fn left(&self, me: SiteId) -> u64
        ensures { (X : Cells) (event : List ℕ) → Shows self.now X event → result ≡ left_of X event
            me }
    {
        let (gained, spent) = self.gained_and_spent(me);
        gained.saturating_sub(spent)
    }

    /// What a look shows of the event: the seats that all sites released, sold and took back, and, where no site spent more
    /// than it gained, those that are open.
    pub fn view(&self) -> ViewTotals
        ensures { (X : Cells) (event : List ℕ) → Shows self.now X event → result ≡ view_in X event }
    {
        let Totals {
            released,
            sold,
            refunded,
        } = self.totals();
        let open_seats = if self.is_position() {
            Some((released + refunded).saturating_sub(sold))
        } else {
            None
        };
        ViewTotals {
            released,
            sold,
            refunded,
            open_seats,
        }
    }

    // Whether no site spent more than it gained.
    fn is_position(&self) -> bool
        ensures { (X : Cells) (event : List ℕ) → Shows self.now X event → result ≡ is_position X
            event }
    {
        for number in 0..SITE_NUMBERS as u64 {
            let (gained, spent) = self.gained_and_spent(site(number));
            if spent > gained {
                return false;
            }
        }
        true
    }

    // What the site released, got from other sites and took back, and what it gave to them and sold.
    fn gained_and_spent(&self, me: SiteId) -> (u64, u64)
        ensures gained { (X : Cells) (event : List ℕ) → Shows self.now X event → result.0 ≡ gained X
            event me }
        ensures spent { (X : Cells) (event : List ℕ) → Shows self.now X event → result.1 ≡ spent X
            event me }
    {
        let mut gained = self.get(&Cell::Gave { by: me, to: me });
        gained += self.get(&Cell::Back { by: me });
        let mut spent = self.get(&Cell::Used { by: me });
        for number in 0..SITE_NUMBERS as u64 {
            let other = site(number);
            if other != me {
                gained += self.get(&Cell::Gave { by: other, to: me });
                spent += self.get(&Cell::Gave { by: me, to: other });
            }
        }
        (gained, spent)
    }

    // The seats that all sites released, sold and took back.
    fn totals(&self) -> Totals
        ensures released { (X : Cells) (event : List ℕ) → Shows self.now X event → result.released ≡
            released_in X event }
        ensures sold { (X : Cells) (event : List ℕ) → Shows self.now X event → result.sold ≡ sold_in
            X event }
        ensures refunded { (X : Cells) (event : List ℕ) → Shows self.now X event → result.refunded ≡
            refunded_in X event }
        ensures released_bound { result.released ≤ greatest_value * site_numbers }
        ensures refunded_bound { result.refunded ≤ greatest_value * site_numbers }
    {
        let mut released = 0;
        let mut sold = 0;
        let mut refunded = 0;
        for number in 0..SITE_NUMBERS as u64 {
            let by = site(number);
            released += self.get(&Cell::Gave { by, to: by });
            sold += self.get(&Cell::Used { by });
            refunded += self.get(&Cell::Back { by });
        }
        Totals {
            released,
            sold,
            refunded,
        }
    }

    fn get(&self, cell: &Cell) -> u64
        ensures of_sites { IsCellOf max_sites cell.now }
        ensures value { result ≡ value_in_table self.now cell.now }
        ensures at_most_max { result ≤ greatest_value }
    {
        self.values[offset(cell)]
    }

    fn raise(&mut self, cell: &Cell, value: u64)
        requires { value ≤ greatest_value }
        ensures { (other : TheCell) → IsCellOf max_sites other → value_in_table self.new other ≡ max
            (value_in_table self.old other) (if same_cell other cell.now then value else 0) }
    {
        let place = offset(cell);
        self.values[place] = self.values[place].max(value);
    }
}

// Where the number of a cell is: row by row what each gave, then what each sold, then what came back.
#[tactic(auto, unfolding(rights_lattice::specs::Sums::max_sites))]
fn offset(cell: &Cell) -> usize
    ensures of_sites { IsCellOf max_sites cell.now }
    ensures place { result ≡ offset_of max_sites cell.now }
    ensures within { result < CELLS }
{
    match cell {
        Cell::Gave { by, to } => by.number() as usize * SITE_NUMBERS + to.number() as usize,
        Cell::Used { by } => SITE_NUMBERS * SITE_NUMBERS + by.number() as usize,
        Cell::Back { by } => SITE_NUMBERS * SITE_NUMBERS + SITE_NUMBERS + by.number() as usize,
    }
}

// The site with this number.
fn site(number: u64) -> SiteId
    requires { number < site_numbers }
    ensures { result ≡ number }
{
    match SiteId::of(number) {
        Some(site) => site,
        None => unreachable!(),
    }
}

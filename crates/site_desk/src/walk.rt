//! One event by the first entries of a history, read once.
ghost use Rattle.std.specs.Prelude.{◌≡◌, ◌≤◌, length};
ghost use Rattle.std.specs.List.{list_any};
ghost use Rattle.rights_lattice.specs.Cell.{same_event};

use crate::event_cells::EventCells;
use book_core::Book;
use rights_lattice::Event;

/// What the first entries of a history say of one event: its cells, and whether any of them names it.
#[derive(Drop)]
pub struct Walk {
    pub event: Event,
    pub at: usize,
    pub is_named: bool,
    pub cells: EventCells,
}

impl Walk {
    ghost use Rattle.std.specs.Prelude.{List};
    ghost use Rattle.book_core.specs.declared.entry.Entry.{Entry};
    ghost use Rattle.site_desk.specs.Walk.{IsWalked};

    /// Before the first entry of any history.
    pub fn new(event: Event) -> Walk
        ensures walked { (history : List Entry) → IsWalked history result }
        ensures at { result.at ≡ 0 }
        ensures event { result.event ≡ event }
    {
        Walk {
            event,
            at: 0,
            is_named: false,
            cells: EventCells::new(),
        }
    }

    /// Goes on to the first `at` entries.
    pub fn go_on(&mut self, book: &Book, at: usize)
        requires walked { IsWalked book.now.history self.old }
        requires on { self.old.at ≤ at }
        requires within { at ≤ length book.now.history }
        ensures walked { IsWalked book.now.history self.new }
        ensures at { self.new.at ≡ at }
        ensures event { self.new.event ≡ self.old.event }
    {
        let event = self.event;
        for place in self.at..at {
            if let Some(entry) = book.entry(place) {
                let delta = entry.delta();
                self.is_named |= has(delta.names(), &event);
                self.cells.raise_all(&event, delta.marks());
            }
        }
        self.at = at;
    }
}

// Whether the event is among the names.
fn has(names: &[Event], event: &Event) -> bool
    ensures { result ≡ list_any (same_event event.now) names.now }
{
    names.iter().any(|name| event == name)
}

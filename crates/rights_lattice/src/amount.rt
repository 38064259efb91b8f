//! Numbers of seats.
ghost use Rattle.std.specs.Prelude.{◌≡◌, ◌≤◌, ◌↔◌, IsSome, IfSome};
ghost use Rattle.rights_lattice.specs.Cells.{greatest_value};

use crate::mark::GREATEST_VALUE;
use std::marker::Model;

/// A number of seats, 1 to 1,000,000,000,000.
#[derive(Clone, Copy, PartialEq, Eq, PartialOrd, Ord, Hash, Debug)]
pub struct Amount {
    seats: u64,
}

impl Model for Amount {
    ghost use Rattle.std.specs.Prelude.{ℕ, ◌≤◌};
    ghost use Rattle.rights_lattice.specs.Cells.{greatest_value};

    ghost Value = { ℕ };

    ghost view = { λ a. a.seats };

    ghost invariant = { λ a. (1 ≤ a.seats) × (a.seats ≤ greatest_value) };

    ghost inverse = { λ n. record { seats = n } };
}

impl Amount {
    /// This many seats, where they are 1 to 1,000,000,000,000.
    pub fn of(seats: u64) -> Option<Amount>
        ensures in_range { IsSome result ↔ ((1 ≤ seats) × (seats ≤ greatest_value)) }
        ensures same { IfSome result (λ amount. amount ≡ seats) }
    {
        if 1 <= seats && seats <= GREATEST_VALUE {
            Some(Amount { seats })
        } else {
            None
        }
    }

    /// The number of seats.
    pub fn seats(self) -> u64
        ensures seats { result ≡ self }
        ensures at_least_one { 1 ≤ result }
        ensures at_most_max { result ≤ greatest_value }
    {
        self.seats
    }
}

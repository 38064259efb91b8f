//! Request numbers.
ghost use Rattle.std.specs.Prelude.{◌≡◌, ◌≤◌, ◌↔◌, IsSome, IfSome};
ghost use Rattle.rights_lattice.specs.Cells.{greatest_value};

use rights_lattice::GREATEST_VALUE;
use std::marker::Model;

/// The number of a request at its site, 1 to 1,000,000,000,000.
#[derive(Clone, Copy, PartialEq, Eq, PartialOrd, Ord, Hash, Debug)]
pub struct RequestNumber {
    number: u64,
}

impl Model for RequestNumber {
    ghost use Rattle.std.specs.Prelude.{ℕ, ◌≤◌};
    ghost use Rattle.rights_lattice.specs.Cells.{greatest_value};

    ghost Value = { ℕ };

    ghost view = { λ n. n.number };

    ghost invariant = { λ n. (1 ≤ n.number) × (n.number ≤ greatest_value) };

    ghost inverse = { λ n. record { number = n } };
}

impl RequestNumber {
    /// The request number, where it is 1 to 1,000,000,000,000.
    pub fn of(number: u64) -> Option<RequestNumber>
        ensures in_range { IsSome result ↔ ((1 ≤ number) × (number ≤ greatest_value)) }
        ensures same { IfSome result (λ request. request ≡ number) }
    {
        if 1 <= number && number <= GREATEST_VALUE {
            Some(RequestNumber { number })
        } else {
            None
        }
    }

    /// The number itself.
    pub fn get(self) -> u64
        ensures number { result ≡ self }
        ensures at_least_one { 1 ≤ result }
        ensures at_most_max { result ≤ greatest_value }
    {
        self.number
    }
}

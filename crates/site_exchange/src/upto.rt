//! How far a message goes in a history.
ghost use Rattle.std.specs.Prelude.{◌≡◌, ◌≤◌, IsSome, IfSome, ◌↔◌};
ghost use Rattle.book_core.specs.Limits.{greatest_limit};

use book_core::Limit;
use std::marker::Model;

/// A length of a history that a message names, 1 to 1,000,000.
#[derive(Clone, Copy, PartialEq, Eq, PartialOrd, Ord, Hash, Debug)]
pub struct Upto {
    entries: u32,
}

impl Model for Upto {
    ghost use Rattle.std.specs.Prelude.{ℕ, ◌≤◌};
    ghost use Rattle.book_core.specs.Limits.{greatest_limit};

    ghost Value = { ℕ };

    ghost view = { λ u. u.entries };

    ghost invariant = { λ u. (1 ≤ u.entries) × (u.entries ≤ greatest_limit) };

    ghost inverse = { λ n. record { entries = n } };
}

impl Upto {
    /// This length, where it is 1 to 1,000,000.
    pub fn of(entries: u64) -> Option<Upto>
        ensures in_range { IsSome result ↔ ((1 ≤ entries) × (entries ≤ greatest_limit)) }
        ensures same { IfSome result (λ upto. upto ≡ entries) }
    {
        if 1 <= entries && entries <= Limit::GREATEST {
            Some(Upto {
                entries: entries as u32,
            })
        } else {
            None
        }
    }

    /// The number of entries.
    pub fn entries(self) -> u64
        ensures entries { result ≡ self }
        ensures at_least_one { 1 ≤ result }
        ensures at_most_max { result ≤ greatest_limit }
    {
        u64::from(self.entries)
    }
}

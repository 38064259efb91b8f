//! How long a history may become.
ghost use Rattle.std.specs.Prelude.{◌≡◌, ◌≤◌, ◌↔◌, IsSome, IfSome};
ghost use Rattle.book_core.specs.Limits.{greatest_limit, IsLimit};

use std::marker::Model;

/// The greatest length of a history, 1 to 1,000,000 entries.
#[derive(Clone, Copy, PartialEq, Eq, PartialOrd, Ord, Debug)]
pub struct Limit {
    entries: u32,
}

impl Model for Limit {
    ghost use Rattle.std.specs.Prelude.{ℕ};
    ghost use Rattle.book_core.specs.Limits.{IsLimit};

    ghost Value = { ℕ };

    ghost view = { λ l. l.entries };

    ghost invariant = { λ l. IsLimit l.entries };

    ghost inverse = { λ n. record { entries = n } };
}

impl Limit {
    /// The greatest limit, which a history has where none is given.
    pub const GREATEST: u64 = 1_000_000;

    /// This many entries, where they are 1 to 1,000,000.
    pub fn of(entries: u64) -> Option<Limit>
        ensures in_range { IsSome result ↔ IsLimit entries }
        ensures same { IfSome result (λ limit. limit ≡ entries) }
    {
        if 1 <= entries && entries <= Limit::GREATEST {
            Some(Limit {
                entries: entries as u32,
            })
        } else {
            None
        }
    }

    /// The greatest limit.
    pub fn greatest() -> Limit
        ensures { result ≡ greatest_limit }
    {
        Limit {
            entries: Limit::GREATEST as u32,
        }
    }

    /// The number of entries.
    pub fn entries(self) -> u64
        ensures entries { result ≡ self }
        ensures at_least_one { 1 ≤ result }
        ensures at_most_max { result ≤ greatest_limit }
    {
        u64::from(self.entries)
    }
}

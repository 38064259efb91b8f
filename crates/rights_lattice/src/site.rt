//! Site numbers and counts of sites.
ghost use Rattle.std.specs.Prelude.{◌≡◌, ℕ, ◌<◌, ◌≤◌, IsSome, IfSome, ◌↔◌};
ghost use Rattle.rights_lattice.specs.Limits.{greatest_site, most_sites};

use crate::limits::{GREATEST_SITE, MOST_SITES};
use std::marker::Model;

/// The number of a site, 0 to 63.
#[derive(Clone, Copy, PartialEq, Eq, PartialOrd, Ord, Hash, Debug)]
pub struct SiteId {
    number: u8,
}

impl Model for SiteId {
    ghost use Rattle.std.specs.Prelude.{ℕ, ◌≤◌};
    ghost use Rattle.rights_lattice.specs.Limits.{greatest_site};

    ghost Value = { ℕ };

    ghost view = { λ s. s.number };

    ghost invariant = { λ s. s.number ≤ greatest_site };

    ghost inverse = { λ n. record { number = n } };
}

impl SiteId {
    /// The site with this number, where it is at most 63.
    pub fn of(number: u64) -> Option<SiteId>
        ensures in_range { IsSome result ↔ (number ≤ greatest_site) }
        ensures same { IfSome result (λ site. site ≡ number) }
    {
        if number <= GREATEST_SITE {
            Some(SiteId {
                number: number as u8,
            })
        } else {
            None
        }
    }

    /// The number, 0 to 63.
    pub fn number(self) -> u64
        ensures number { result ≡ self }
        ensures in_range { result ≤ greatest_site }
    {
        u64::from(self.number)
    }
}

/// A count of sites, 1 to 64.
#[derive(Clone, Copy, PartialEq, Eq, Debug)]
pub struct Sites {
    count: u8,
}

impl Model for Sites {
    ghost use Rattle.std.specs.Prelude.{ℕ, ◌≤◌};
    ghost use Rattle.rights_lattice.specs.Limits.{most_sites};

    ghost Value = { ℕ };

    ghost view = { λ s. s.count };

    ghost invariant = { λ s. (1 ≤ s.count) × (s.count ≤ most_sites) };

    ghost inverse = { λ n. record { count = n } };
}

impl Sites {
    /// The count, where it is 1 to 64.
    pub fn of(count: u64) -> Option<Sites>
        ensures in_range { IsSome result ↔ ((1 ≤ count) × (count ≤ most_sites)) }
        ensures same { IfSome result (λ sites. sites ≡ count) }
    {
        if 1 <= count && count <= MOST_SITES {
            Some(Sites { count: count as u8 })
        } else {
            None
        }
    }

    /// The count, 1 to 64.
    pub fn count(self) -> u64
        ensures count { result ≡ self }
        ensures at_least_one { 1 ≤ result }
        ensures few { result ≤ most_sites }
    {
        u64::from(self.count)
    }

    /// The site with this number.
    pub fn site(self, number: u64) -> SiteId
        requires { number < self }
        ensures { result ≡ number }
    {
        let count = self.count();
        prove!(number < count && count <= MOST_SITES);
        SiteId {
            number: number as u8,
        }
    }
}

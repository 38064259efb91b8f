//! A session's share of the count of requests that were newly entered at a desk.
ghost use Rattle.std.specs.Prelude.{◌≡◌, List, [], ◌-◌, ◌<◌};
ghost use Rattle.site_desk.specs.Seats.{held};

use std::marker::{Brand, Model};
use std::sync::ledger::{Ledger, Share};

/// Which count it is (std's `sync::ledger`) and, for contracts alone, of which office the book is and what its history was
/// when the count began.
///
/// A desk lives in a function over a type with this bound. A caller passes `Brand`, and picks all three.
pub trait Opens: Ledger {
    ghost use Rattle.book_core.specs.declared.entry.Entry.{Entry as Entered};
    ghost use Rattle.book_core.specs.Decision.{SiteConfig};

    ghost began: { List Entered };

    ghost office: { SiteConfig };
}

impl Opens for Brand {
    ghost began = { [] };

    ghost office = { record { me = 0; sites = 0; limit = 0 } };
}

/// A session's place at the desk of `L`: how many requests were newly entered for it, and its parts of the count.
///
/// Seats with all parts have, added up, all requests that were newly entered. A seat that is let go takes its share with
/// it.
#[derive(Drop)]
pub struct Seat<L: Opens> {
    pub(crate) share: Share<L>,
    pub(crate) count: u64,
}

impl<L: Opens> Model for Seat<L> {
    ghost use Rattle.std.specs.Prelude.{◌≡◌, ◌<◌};
    ghost use Rattle.site_desk.specs.Seats.{Held};

    ghost Value = { Held };

    ghost view = { λ s. record { parts = s.share.parts; count = s.count } };

    ghost invariant = { λ s. (s.share.amount ≡ s.count) × (0 < s.share.parts) };
}

impl<L: Opens> Seat<L> {
    /// How many requests were newly entered for it.
    pub fn count(&self) -> u64
        ensures { result ≡ self.now.count }
    {
        self.count
    }

    /// Cuts off a seat with one part and no share; the first keeps the rest.
    pub fn split(self) -> (Seat<L>, Seat<L>)
        requires { 1 < self.parts }
        ensures first { result.0 ≡ held (self.parts - 1) self.count }
        ensures second { result.1 ≡ held 1 0 }
    {
        let Seat { mut share, count } = self;
        let part = share.split_off(1, 0);
        (
            Seat { share, count },
            Seat {
                share: part,
                count: 0,
            },
        )
    }
}

//! What a peer has not acknowledged of a history, joined as the history grows.
ghost use Rattle.std.specs.Prelude.{◌≡◌, ◌<◌, ◌≤◌, max, length, OnOk, OnErr};
ghost use Rattle.rights_lattice.specs.State.{bottom};
ghost use Rattle.book_core.specs.Limits.{greatest_limit};
ghost use Rattle.delta_buffer.specs.Pending.{IsPendingOf, StaysPendingWith, pending_all, pending_with};

use crate::intervals::interval;
use book_core::{Book, Entry};
use delta_mutators::Delta;
use std::alloc::{AllocError, Global};
use std::marker::Model;

/// The delta-interval that is pending for one peer: from what the peer has acknowledged of a site's history up to the
/// entries that were added (Almeida et al., JPDC 2018). Adding joins each entry once; an acknowledgement of a part joins
/// anew what is left.
#[derive(Drop)]
pub struct Pending {
    from: usize,
    upto: usize,
    delta: Delta,
}

impl Model for Pending {
    ghost use Rattle.delta_buffer.specs.Pending.{PendingView, coded_pending};

    ghost Value = { PendingView };

    ghost coded = { coded_pending };

    ghost use Rattle.std.specs.Prelude.{◌≤◌};

    ghost view = { λ p. record { from = p.from; upto = p.upto; delta = p.delta } };

    ghost invariant = { λ p. p.from ≤ p.upto };
}

impl Pending {
    /// Nothing is acknowledged, and nothing was added. It wants no memory.
    pub fn new(alloc: Global) -> Pending
        ensures { result ≡ record { from = 0; upto = 0; delta = bottom } }
    {
        Pending::behind(alloc, 0)
    }

    /// The first `n` entries are acknowledged, and nothing was added behind them. It wants no memory.
    pub fn behind(alloc: Global, n: usize) -> Pending
        ensures { result ≡ record { from = n; upto = n; delta = bottom } }
    {
        Pending {
            from: n,
            upto: n,
            delta: Delta::empty(alloc),
        }
    }

    /// The join of the deltas from what the peer has acknowledged up to what was added.
    pub fn delta(&self) -> &Delta
        ensures { result.now ≡ self.now.delta }
    {
        &self.delta
    }

    /// Joins the entry behind those that were added. An error leaves it as it was.
    pub fn add(&mut self, alloc: Global, entry: &Entry) -> Result<(), AllocError>
        requires { self.old.upto < greatest_limit }
        ensures added { OnOk result (self.new ≡ pending_with self.old entry.now) }
        ensures pending { OnOk result (StaysPendingWith entry.now self.old self.new) }
        ensures unchanged { OnErr result (self.new ≡ self.old) }
    {
        self.delta = self.delta.join(alloc, entry.delta())?;
        self.upto += 1;
        Ok(())
    }

    /// Joins all entries of the history that were not added. They are joined by halves first, so that each delta is walked
    /// over about as often as their number can be halved. An error leaves it as it was.
    pub fn catch_up(&mut self, alloc: Global, book: &Book) -> Result<(), AllocError>
        requires { IsPendingOf book.now.history self.old }
        ensures added { OnOk result (self.new ≡ pending_all book.now.history self.old) }
        ensures unchanged { OnErr result (self.new ≡ self.old) }
        ensures memory { OnErr result (self.old.upto < length book.now.history) }
    {
        let len = book.len();
        if self.upto == len {
            return Ok(());
        }
        let missing = interval(alloc, book, self.upto, len)?;
        self.delta = self.delta.join(alloc, &missing)?;
        self.upto = len;
        Ok(())
    }

    /// Takes an acknowledgement of the first `n` entries: it begins there, or where it began if that is further, and
    /// ends where it ended, or there if that is further. An error leaves it as it was.
    pub fn acked(&mut self, alloc: Global, book: &Book, n: usize) -> Result<(), AllocError>
        requires within { n ≤ length book.now.history }
        requires pending { IsPendingOf book.now.history self.old }
        ensures from { OnOk result (self.new.from ≡ max self.old.from n) }
        ensures upto { OnOk result (self.new.upto ≡ max self.old.upto n) }
        ensures pending { OnOk result (IsPendingOf book.now.history self.new) }
        ensures unchanged { OnErr result (self.new ≡ self.old) }
        // It wants memory only where a part of it is left.
        ensures memory { OnErr result ((self.old.from < n) × (n < self.old.upto)) }
    {
        if n <= self.from {
            return Ok(());
        }
        let upto = self.upto.max(n);
        self.delta = interval(alloc, book, n, upto)?;
        self.from = n;
        self.upto = upto;
        Ok(())
    }
}

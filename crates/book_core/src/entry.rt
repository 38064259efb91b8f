//! Entries of a history.
ghost use Rattle.std.specs.Prelude.{◌≡◌, IfOk};

use crate::growth::Growth;
use delta_mutators::Delta;
use request_ledger::{Reply, Request, RequestNumber};
use rights_lattice::SiteId;
use std::alloc::{AllocError, Global};

/// One entry of a site's history: a request that was decided, a delta of a peer that was joined, or more sites.
#[derive(Debug, Drop)]
pub enum Entry {
    /// A request with its reply; in a legal history the delta is empty unless the reply is `Done`.
    Asked {
        number: RequestNumber,
        request: Request,
        reply: Reply,
        delta: Delta,
    },
    /// A peer's delta, whole.
    Joined {
        peer: SiteId,
        delta: Delta,
    },
    /// The site counts more sites from here on.
    Grown {
        sites: Growth,
    },
}

impl Entry {
    ghost use Rattle.book_core.specs.History.{delta_of};

    /// What the entry adds to the state.
    pub fn delta(&self) -> &Delta
        ensures { result.now ≡ delta_of self.now }
    {
        match self {
            Entry::Asked { delta, .. } => delta,
            Entry::Joined { delta, .. } => delta,
            Entry::Grown { sites } => sites.delta(),
        }
    }

    /// The same entry again.
    pub fn copy(&self, alloc: Global) -> Result<Entry, AllocError>
        ensures { IfOk result (λ copy. copy ≡ self.now) }
    {
        match self {
            Entry::Asked {
                number,
                request,
                reply,
                delta,
            } => Ok(Entry::Asked {
                number: *number,
                request: *request,
                reply: *reply,
                delta: delta.copy(alloc)?,
            }),
            Entry::Joined { peer, delta } => Ok(Entry::Joined {
                peer: *peer,
                delta: delta.copy(alloc)?,
            }),
            Entry::Grown { sites } => Ok(Entry::Grown {
                sites: Growth::to(alloc, sites.sites()),
            }),
        }
    }
}

//! The count of sites that a site grew to.
ghost use Rattle.std.specs.Prelude.{◌≡◌};
ghost use Rattle.rights_lattice.specs.State.{bottom};

use delta_mutators::Delta;
use rights_lattice::Sites;
use std::alloc::Global;
use std::marker::Model;

/// The count of sites that a site grew to. An empty delta lies beside it, so that each entry of a history has one to
/// show.
#[derive(Debug, Drop)]
pub struct Growth {
    sites: Sites,
    delta: Delta,
}

impl Model for Growth {
    ghost use Rattle.std.specs.Prelude.{ℕ, ◌≡◌};
    ghost use Rattle.rights_lattice.specs.State.{bottom};

    ghost Value = { ℕ };

    ghost view = { λ g. g.sites };

    ghost invariant = { λ g. g.delta ≡ bottom };
}

impl Growth {
    /// A growth to so many sites.
    pub fn to(alloc: Global, sites: Sites) -> Growth
        ensures { result ≡ sites }
    {
        Growth {
            sites,
            delta: Delta::empty(alloc),
        }
    }

    /// The count of sites from here on.
    pub fn sites(&self) -> Sites
        ensures { result ≡ self.now }
    {
        self.sites
    }

    /// What the growth adds to the state, which is nothing.
    pub fn delta(&self) -> &Delta
        ensures { result.now ≡ bottom }
    {
        &self.delta
    }

    // The same, where the growth is not entered.
    pub(crate) fn into_delta(self) -> Delta
        ensures { result ≡ bottom }
    {
        let Growth { delta, .. } = self;
        delta
    }
}

//! What is asked of a site.
ghost use Rattle.std.specs.Prelude.{◌≡◌};
ghost use Rattle.request_ledger.specs.Words.{request_verb};

use crate::number::RequestNumber;
use crate::verb::Verb;
use rights_lattice::{Amount, Event, SiteId};

/// A request to one site, which decides it from what it knows itself.
#[derive(Clone, Copy, PartialEq, Eq, Debug)]
pub enum Request {
    /// Makes the name of an event known.
    Announce {
        event: Event,
    },
    /// Adds seats to what this site may sell.
    Release {
        event: Event,
        amount: Amount,
    },
    /// Sells seats out of this site's own rights.
    Sell {
        event: Event,
        amount: Amount,
    },
    /// Gives back a part of the sale that this site made under `sale`, or what is left of it where no part is given.
    Refund {
        sale: RequestNumber,
        part: Option<Amount>,
    },
    /// Hands rights of this site to the site `to`.
    Cede {
        event: Event,
        to: SiteId,
        amount: Amount,
    },
}

impl Request {
    /// What it asks.
    pub fn verb(&self) -> Verb
        ensures { result ≡ request_verb self.now }
    {
        match self {
            Request::Announce { .. } => Verb::Announce,
            Request::Release { .. } => Verb::Release,
            Request::Sell { .. } => Verb::Sell,
            Request::Refund { .. } => Verb::Refund,
            Request::Cede { .. } => Verb::Cede,
        }
    }
}

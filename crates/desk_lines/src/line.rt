//! A line of a session.

use request_ledger::{Request, RequestNumber};
use rights_lattice::Event;
use thiserror::Error;

/// What a line of a session asks.
#[derive(Clone, Copy, PartialEq, Eq, Debug)]
pub enum Line {
    /// A request under its number.
    Ask {
        number: RequestNumber,
        request: Request,
    },
    /// The seats that the site may still sell.
    Left {
        event: Event,
    },
    /// The totals by the site's view.
    Totals {
        event: Event,
    },
    /// Nothing: the session ends.
    Quit,
}

/// A line that asks nothing that is understood.
#[derive(Clone, Copy, PartialEq, Eq, Debug, Error)]
#[error("the line cannot be read")]
pub struct BadLine;

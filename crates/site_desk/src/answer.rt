//! What a site's book answers.
use book_core::Limit;
use local_rights::ViewTotals;
use request_ledger::Reply;
use rights_lattice::{Event, SiteId, Sites};
use site_exchange::Message;

/// The reply to a request, and where its entry stands in the history, counted from 0.
#[derive(Clone, Copy, PartialEq, Eq, Debug)]
pub struct Answer {
    pub reply: Reply,
    pub place: usize,
    /// Whether this call added the entry.
    pub fresh: bool,
}

/// What was done with a message, and the acknowledgement that is to be sent back.
#[derive(Debug, Drop)]
pub enum Taken {
    /// The delta is a new entry.
    Joined { ack: Message },
    /// The book had all of the delta.
    NothingNew { ack: Message },
    /// The message was an acknowledgement.
    Acked,
}

/// An event as the first `at` entries of a history show it.
#[derive(Clone, Copy, PartialEq, Eq, Debug)]
pub struct Seen {
    pub event: Event,
    /// The seats that this site may still sell.
    pub left: u64,
    pub totals: ViewTotals,
    pub at: usize,
}

/// What a site may sell of an event by a view, and what it sold and took back of it.
#[derive(Clone, Copy, PartialEq, Eq, Debug)]
pub struct SiteShare {
    pub site: SiteId,
    /// The seats that it may still sell; `None` if by the view it spent more than it gained, as after a forged delta.
    pub left: Option<u64>,
    pub sold: u64,
    pub back: u64,
}

/// Which site a book is of, and how long its history is.
#[derive(Clone, Copy, PartialEq, Eq, Debug)]
pub struct SiteStatus {
    pub me: SiteId,
    /// How many sites it counts.
    pub sites: Sites,
    /// The entries of its history, of which there are never more than `limit`.
    pub entries: usize,
    pub limit: Limit,
}

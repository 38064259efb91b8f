//! What a history has kept of requests.
use request_ledger::{Reply, Request, RequestNumber};

/// A request that was decided: its place in the history and its reply.
#[derive(Clone, Copy, Debug, PartialEq, Eq)]
pub struct Found {
    pub place: u64,
    pub reply: Reply,
}

/// A request that names an event: its place in the history, and what was asked and answered.
#[derive(Clone, Copy, Debug, PartialEq, Eq)]
pub struct Listed {
    pub place: u64,
    pub number: RequestNumber,
    pub request: Request,
    pub reply: Reply,
}

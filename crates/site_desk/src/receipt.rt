//! What a session keeps of an answer.
use request_ledger::{Reply, Request, RequestNumber};

/// A request under its number, with the reply that a desk gave and where its entry stands in the history, counted from 0.
#[derive(Clone, Copy, PartialEq, Eq, Debug)]
pub struct Receipt {
    pub number: RequestNumber,
    pub request: Request,
    pub reply: Reply,
    pub place: usize,
}

//! A site's links to its peers, before and after an exchange.

use link_queue::{Rx, RxEnd, Tx, TxEnd};
use rights_lattice::SiteId;

/// A peer, with the ends of the links to it and from it, of deltas and of acknowledgements.
#[derive(Drop)]
pub struct Peer {
    pub to: SiteId,
    pub delta_tx: Tx,
    pub ack_tx: Tx,
    pub delta_rx: Rx,
    pub ack_rx: Rx,
}

/// What an exchange leaves of a peer's links, and how many deltas and acknowledgements were refused.
#[derive(Drop)]
pub struct PeerEnd {
    pub to: SiteId,
    pub delta_tx: TxEnd,
    pub ack_tx: TxEnd,
    pub delta_rx: RxEnd,
    pub ack_rx: RxEnd,
    pub deltas_refused: u64,
    pub acks_refused: u64,
}

//! The threads that receive: two for each peer.

ghost use Rattle.std.specs.Prelude.{◌≡◌, ◌≤◌, ◌+◌, [], length, vec_len, vec_capacity, OnOk};
ghost use Rattle.std.specs.List.{AllZip};
ghost use Rattle.session_server.specs.Exchanged.{Acknowledges, AreHeldOrRefused, Received};

use crate::exchange::ExchangeFault;
use crate::replica::Replica;
use link_queue::{Rx, RxEnd, Tx, TxEnd};
use std::snapshot::Snapshot;
use std::sync::Wait;
use std::thread::{Promise, Scope, Threads};

// What comes from a peer, with the sender for what it is told of it.
#[derive(Drop)]
pub(crate) struct Incoming {
    pub(crate) delta_rx: Rx,
    pub(crate) ack_tx: Tx,
    pub(crate) ack_rx: Rx,
}

#[derive(Drop)]
pub(crate) struct IncomingEnd {
    pub(crate) delta_rx: RxEnd,
    pub(crate) ack_tx: TxEnd,
    pub(crate) ack_rx: RxEnd,
    pub(crate) deltas_refused: u64,
    pub(crate) acks_refused: u64,
}

// The links that a receiver of deltas was begun with, and its replica.
#[derive(Drop)]
struct DeltasOf<'s, S: Replica> {
    _replica: &'s S,
    rx: Snapshot<Rx>,
    tx: Snapshot<Tx>,
}

impl<'s, S: Replica> Promise<(RxEnd, TxEnd, u64)> for DeltasOf<'s, S> {
    ghost kept_by = { λ p r. (r.0.link ≡ p.rx.value.link) × (r.1.link ≡ p.tx.value.link)
        × Acknowledges S.holds S.refuses p.rx.value.messages p.tx.value.messages r.2 r.0.messages r.1.messages };
}

// The link that a receiver of acknowledgements was begun with, and its replica.
#[derive(Drop)]
struct AcksOf<'s, S: Replica> {
    _replica: &'s S,
    rx: Snapshot<Rx>,
}

impl<'s, S: Replica> Promise<(RxEnd, u64)> for AcksOf<'s, S> {
    ghost kept_by = { λ p r. (r.0.link ≡ p.rx.value.link) × AreHeldOrRefused S.holds S.refuses p.rx.value.messages r.0.messages
        × (length p.rx.value.messages + r.1 ≤ length r.0.messages) };
}

// Receives deltas until the link ends, and acknowledges those that were taken. Then it ends the link back.
fn receive_deltas<S: Replica, R: Wait>(
    rt: &R,
    replica: &S,
    mut rx: Rx,
    mut tx: Tx,
) -> (RxEnd, TxEnd, u64)
    ensures links { (result.0.link ≡ rx.link) × (result.1.link ≡ tx.link) }
    ensures acknowledged { Acknowledges
        S.holds S.refuses rx.messages tx.messages result.2 result.0.messages result.1.messages }
{
    let mut refused: u64 = 0;
    for _ in rt.forever() {
        let Ok(message) = rx.recv(rt) else {
            break;
        };
        match replica.take(rt, message) {
            Ok(Some(ack)) => {
                let _ = tx.send(rt, ack);
            }
            Ok(None) => {}
            Err(_) => refused = refused.saturating_add(1),
        }
    }
    (rx.end(), tx.end(rt), refused)
}

// Receives acknowledgements until the link ends.
fn receive_acks<S: Replica, R: Wait>(rt: &R, replica: &S, mut rx: Rx) -> (RxEnd, u64)
    ensures link { result.0.link ≡ rx.link }
    ensures met { AreHeldOrRefused S.holds S.refuses rx.messages result.0.messages }
    ensures counted { length rx.messages + result.1 ≤ length result.0.messages }
{
    let mut refused: u64 = 0;
    for _ in rt.forever() {
        let Ok(message) = rx.recv(rt) else {
            break;
        };
        if replica.take(rt, message).is_err() {
            refused = refused.saturating_add(1);
        }
    }
    (rx.end(), refused)
}

// Starts two threads for the last peer, then those of the others, and then waits for the two.
pub(crate) fn receive_from<'s, E, R: Threads + Wait + Sync, S: Replica + Sync + 's>(
    scope: &'s Scope<'s, E>,
    rt: &'s R,
    replica: &'s S,
    mut peers: Vec<Incoming>,
    ends: &mut Vec<IncomingEnd>,
) -> Result<(), ExchangeFault>
    requires empty { ends.old.items ≡ [] }
    requires room { vec_len peers ≤ vec_capacity ends.old }
    ensures received { OnOk result
        (AllZip (Received S.holds S.refuses) peers.items ends.new.items) }
    ensures room { OnOk result
        ((vec_len ends.new ≡ vec_len peers) × (vec_capacity ends.new ≡ vec_capacity ends.old)) }
{
    let Some(
        Incoming {
            delta_rx,
            ack_tx,
            ack_rx,
        },
    ) = peers.pop()
    else {
        return Ok(());
    };
    let deltas_of = DeltasOf {
        _replica: replica,
        rx: Snapshot::of(&delta_rx),
        tx: Snapshot::of(&ack_tx),
    };
    let acks_of = AcksOf {
        _replica: replica,
        rx: Snapshot::of(&ack_rx),
    };
    let Ok(deltas) = scope.spawn_with(
        deltas_of,
        move || receive_deltas(rt, replica, delta_rx, ack_tx),
    ) else {
        return Err(ExchangeFault::NotStarted);
    };
    let Ok(acks) = scope.spawn_with(acks_of, move || receive_acks(rt, replica, ack_rx)) else {
        return Err(ExchangeFault::NotStarted);
    };
    receive_from(scope, rt, replica, peers, ends)?;
    let (delta_rx, ack_tx, deltas_refused) = deltas.join(rt);
    let (ack_rx, acks_refused) = acks.join(rt);
    ends.push_reserved(IncomingEnd {
        delta_rx,
        ack_tx,
        ack_rx,
        deltas_refused,
        acks_refused,
    });
    Ok(())
}

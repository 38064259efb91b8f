//! An exchange with all peers: one thread sends, and each receiver has a thread of its own.

ghost use Rattle.std.specs.Prelude.{◌≡◌, ◌≤◌, [], map, vec_len, vec_capacity, IfOk};
ghost use Rattle.std.specs.List.{AllZip};
ghost use Rattle.session_server.specs.Exchanged.{AreExchangedAt, Exchanged, HasReceived, HasSent, Received, Sent, incoming, outgoing};

use crate::peer::{Peer, PeerEnd};
use crate::receiving::{Incoming, IncomingEnd, receive_from};
use crate::replica::{DeskReplica, Replica};
use crate::sending::{LinksOf, Outgoing, OutgoingEnd, send_all};
use history_keeper::Keeper;
use site_desk::{Desk, Opens};
use std::alloc::{AllocError, Global};
use std::snapshot::Snapshot;
use std::sync::Wait;
use std::thread;
use std::thread::{Scope, Threads};
use thiserror::Error;

/// Why an exchange was given up. The ends of links are dropped; what was taken stays.
#[derive(Clone, Copy, PartialEq, Eq, Debug, Error)]
pub enum ExchangeFault {
    #[error("out of memory")]
    Memory,
    #[error("a thread could not be started")]
    NotStarted,
}

impl From<AllocError> for ExchangeFault {
    ghost use Rattle.std.specs.Prelude.{◌≡◌};
    ghost use Rattle.session_server.specs.declared.exchange.ExchangeFault.TheVariants.{Memory};

    ghost from_gives = { λ _ fault. fault ≡ Memory };

    fn from(_fault: AllocError) -> ExchangeFault {
        ExchangeFault::Memory
    }
}

// Starts the sending thread, receives until all links have ended, and waits for it.
fn run<'s, E, R: Threads + Wait + Sync, S: Replica + Sync + 's>(
    scope: &'s Scope<'s, E>,
    rt: &'s R,
    replica: &'s S,
    outs: Vec<Outgoing>,
    out_ends: Vec<OutgoingEnd>,
    ins: Vec<Incoming>,
    in_ends: Vec<IncomingEnd>,
    rounds: u64,
) -> Result<(Vec<OutgoingEnd>, Vec<IncomingEnd>), ExchangeFault>
    requires room { (vec_len outs ≤ vec_capacity out_ends) × (vec_len ins ≤ vec_capacity in_ends) }
    requires empty { (out_ends.items ≡ []) × (in_ends.items ≡ []) }
    ensures sent { IfOk result (λ r. AllZip (Sent S.gives rounds) outs.items r.0.items) }
    ensures received { IfOk result (λ r. AllZip (Received S.holds S.refuses) ins.items r.1.items) }
    ensures len { IfOk result (λ r. (vec_len r.0 ≡ vec_len outs) × (vec_len r.1 ≡ vec_len ins)) }
{
    let links_of = LinksOf {
        _replica: replica,
        outs: Snapshot::of(&outs),
        rounds,
    };
    let send = move || -> Vec<OutgoingEnd>
        requires { (vec_len outs ≤ vec_capacity out_ends) × (out_ends.items ≡ []) }
        ensures { AllZip (Sent S.gives rounds) outs.items result.items
            × (vec_len result ≡ vec_len outs) }
    { send_all(rt, replica, outs, out_ends, rounds) };
    let Ok(sending) = scope.spawn_with(links_of, send) else {
        return Err(ExchangeFault::NotStarted);
    };
    let mut in_ends = in_ends;
    receive_from(scope, rt, replica, ins, &mut in_ends)?;
    Ok((sending.join(rt), in_ends))
}

// What goes to each peer, and what comes from it.
fn split(mut peers: Vec<Peer>, outs: &mut Vec<Outgoing>, ins: &mut Vec<Incoming>)
    requires empty { (outs.old.items ≡ []) × (ins.old.items ≡ []) }
    requires room { (vec_len peers ≤ vec_capacity outs.old)
        × (vec_len peers ≤ vec_capacity ins.old) }
    ensures outs { outs.new.items ≡ map outgoing peers.items }
    ensures ins { ins.new.items ≡ map incoming peers.items }
    ensures room { (vec_len outs.new ≡ vec_len peers) × (vec_len ins.new ≡ vec_len peers)
        × (vec_capacity outs.new ≡ vec_capacity outs.old)
        × (vec_capacity ins.new ≡ vec_capacity ins.old) }
{
    let Some(
        Peer {
            to,
            delta_tx,
            ack_tx,
            delta_rx,
            ack_rx,
        },
    ) = peers.pop()
    else {
        return;
    };
    split(peers, outs, ins);
    outs.push_reserved(Outgoing {
        to,
        tx: delta_tx,
        is_gone: false,
    });
    ins.push_reserved(Incoming {
        delta_rx,
        ack_tx,
        ack_rx,
    });
}

// What is left of each peer's links.
fn zip(mut outs: Vec<OutgoingEnd>, mut ins: Vec<IncomingEnd>, ends: &mut Vec<PeerEnd>)
    requires len { vec_len outs ≡ vec_len ins }
    requires empty { ends.old.items ≡ [] }
    requires room { vec_len outs ≤ vec_capacity ends.old }
    ensures room { (vec_len ends.new ≡ vec_len outs)
        × (vec_capacity ends.new ≡ vec_capacity ends.old) }
    ensures sent { AllZip HasSent outs.items ends.new.items }
    ensures received { AllZip HasReceived ins.items ends.new.items }
{
    let Some(OutgoingEnd { to, tx }) = outs.pop() else {
        return;
    };
    let Some(
        IncomingEnd {
            delta_rx,
            ack_tx,
            ack_rx,
            deltas_refused,
            acks_refused,
        },
    ) = ins.pop()
    else {
        unreachable!()
    };
    zip(outs, ins, ends);
    ends.push_reserved(PeerEnd {
        to,
        delta_tx: tx,
        ack_tx,
        delta_rx,
        ack_rx,
        deltas_refused,
        acks_refused,
    });
}

/// Exchanges messages with all peers: sends what is due to each for so many rounds, in one thread, and takes what comes, in
/// two threads for each peer, until the links end. Each thread that is done ends the links that it sent on.
///
/// It hands back the ends of the links that it was given, peer by peer. Each message that was sent to a peer is for it, and was due
/// to it from an open book that may be the desk's; there are no more than rounds. Of each that came an open book that may be the
/// desk's has the delta, if it brings one, or a book that may be the desk's refuses the message, or might want memory for it.
/// What was sent back to a peer acknowledges, in their order, some of those that came from it and are held so; with those that
/// were counted as refused they are no more than came.
pub fn exchange_all<T: Threads + Wait + Sync, K: Keeper + Send, L: Opens + Send + Sync>(
    rt: &T,
    alloc: Global,
    desk: &Desk<K, L>,
    peers: Vec<Peer>,
    rounds: u64,
) -> Result<Vec<PeerEnd>, ExchangeFault>
    ensures { IfOk result
        (λ r. AreExchangedAt K.Keeper L.Opens rounds peers.items r.items) }
{
    exchange(rt, alloc, &DeskReplica { alloc, desk }, peers, rounds)
}

#[tactic(auto, using(crate::proofs::Exchanges::exchanged))]
fn exchange<T: Threads + Wait + Sync, S: Replica + Sync>(
    rt: &T,
    alloc: Global,
    replica: &S,
    peers: Vec<Peer>,
    rounds: u64,
) -> Result<Vec<PeerEnd>, ExchangeFault>
    ensures { IfOk result
        (λ r. AllZip (Exchanged S.holds S.refuses S.gives rounds) peers.items r.items) }
{
    let count = peers.len();
    let mut ends = Vec::with_capacity(alloc, count)?;
    let mut outs = Vec::with_capacity(alloc, count)?;
    let mut ins = Vec::with_capacity(alloc, count)?;
    let out_ends = Vec::with_capacity(alloc, count)?;
    let in_ends = Vec::with_capacity(alloc, count)?;
    split(peers, &mut outs, &mut ins);
    let (outs, ins) = in_threads(rt, replica, outs, out_ends, ins, in_ends, rounds)?;
    zip(outs, ins, &mut ends);
    Ok(ends)
}

// The exchange itself, with room for what it leaves.
fn in_threads<R: Threads + Wait + Sync, S: Replica + Sync>(
    rt: &R,
    replica: &S,
    outs: Vec<Outgoing>,
    out_ends: Vec<OutgoingEnd>,
    ins: Vec<Incoming>,
    in_ends: Vec<IncomingEnd>,
    rounds: u64,
) -> Result<(Vec<OutgoingEnd>, Vec<IncomingEnd>), ExchangeFault>
    requires room { (vec_len outs ≤ vec_capacity out_ends) × (vec_len ins ≤ vec_capacity in_ends) }
    requires empty { (out_ends.items ≡ []) × (in_ends.items ≡ []) }
    ensures sent { IfOk result (λ r. AllZip (Sent S.gives rounds) outs.items r.0.items) }
    ensures received { IfOk result (λ r. AllZip (Received S.holds S.refuses) ins.items r.1.items) }
    ensures len { IfOk result (λ r. (vec_len r.0 ≡ vec_len outs) × (vec_len r.1 ≡ vec_len ins)) }
{
    thread::scope(
        thread::scope_env(),
        rt,
        move |scope| -> Result<(Vec<OutgoingEnd>, Vec<IncomingEnd>), ExchangeFault>
            requires { (vec_len outs ≤ vec_capacity out_ends) × (vec_len ins ≤ vec_capacity in_ends)
                × (out_ends.items ≡ []) × (in_ends.items ≡ []) }
            ensures { IfOk result (λ r. AllZip (Sent S.gives rounds) outs.items r.0.items
                × AllZip (Received S.holds S.refuses) ins.items r.1.items
                × (vec_len r.0 ≡ vec_len outs) × (vec_len r.1 ≡ vec_len ins)) }
        { run(scope, rt, replica, outs, out_ends, ins, in_ends, rounds) },
    )
}

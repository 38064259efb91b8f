//! The thread that sends to all peers.

ghost use Rattle.std.specs.Prelude.{◌≡◌, ◌≤◌, [], vec_len, vec_capacity};
ghost use Rattle.std.specs.List.{AllZip};
ghost use Rattle.session_server.specs.Exchanged.{IsEndOf, Sent, SentMore};

use crate::replica::Replica;
use link_queue::{Tx, TxEnd};
use rights_lattice::SiteId;
use std::snapshot::Snapshot;
use std::sync::Wait;
use std::thread::Promise;

// What goes to a peer. Once its receiver is gone nothing more is made for it.
#[derive(Drop)]
pub(crate) struct Outgoing {
    pub(crate) to: SiteId,
    pub(crate) tx: Tx,
    pub(crate) is_gone: bool,
}

#[derive(Drop)]
pub(crate) struct OutgoingEnd {
    pub(crate) to: SiteId,
    pub(crate) tx: TxEnd,
}

// The links that the sending thread was begun with, for how many rounds, and the replica that gives what is sent.
#[derive(Drop)]
pub(crate) struct LinksOf<'s, S: Replica> {
    pub(crate) _replica: &'s S,
    pub(crate) outs: Snapshot<Vec<Outgoing>>,
    pub(crate) rounds: u64,
}

impl<'s, S: Replica> Promise<Vec<OutgoingEnd>> for LinksOf<'s, S> {
    ghost kept_by = { λ p r. AllZip (Sent S.gives p.rounds) p.outs.value.items r.items × (vec_len r ≡ vec_len p.outs.value) };
}

// Sends for so many rounds, and ends each link.
#[tactic(auto, using(crate::proofs::Exchanges::sent_from))]
pub(crate) fn send_all<S: Replica, R: Wait>(
    rt: &R,
    replica: &S,
    outs: Vec<Outgoing>,
    ends: Vec<OutgoingEnd>,
    rounds: u64,
) -> Vec<OutgoingEnd>
    requires room { vec_len outs ≤ vec_capacity ends }
    requires empty { ends.items ≡ [] }
    ensures sent { AllZip (Sent S.gives rounds) outs.items result.items }
    ensures len { vec_len result ≡ vec_len outs }
{
    let mut outs = outs;
    let mut ends = ends;
    send_rounds(rt, replica, &mut outs, rounds);
    end_from(rt, outs, &mut ends);
    ends
}

fn send_rounds<S: Replica, R: Wait>(rt: &R, replica: &S, outs: &mut Vec<Outgoing>, rounds: u64)
    ensures sent { AllZip (SentMore S.gives rounds) outs.old.items outs.new.items }
    ensures len { vec_len outs.new ≡ vec_len outs.old }
{
    for _ in 0..rounds {
        send_round(rt, replica, outs);
    }
}

// One round: what is next for each peer is sent.
fn send_round<S: Replica, R: Wait>(rt: &R, replica: &S, outs: &mut Vec<Outgoing>)
    ensures sent { AllZip (SentMore S.gives 1) outs.old.items outs.new.items }
    ensures len { vec_len outs.new ≡ vec_len outs.old }
{
    for k in 0..outs.len() {
        send_next(rt, replica, &mut outs[k]);
    }
}

// Sends what is next for one peer, unless its receiver is gone. A message that comes back stays due.
fn send_next<S: Replica, R: Wait>(rt: &R, replica: &S, out: &mut Outgoing)
    ensures { SentMore S.gives 1 out.old out.new }
{
    if out.is_gone {
        return;
    }
    if let Some(message) = replica.next(rt, out.to) {
        out.is_gone = out.tx.send(rt, message).is_err();
    }
}

// Ends the last link after the others.
fn end_from<R: Wait>(rt: &R, mut outs: Vec<Outgoing>, ends: &mut Vec<OutgoingEnd>)
    requires empty { ends.old.items ≡ [] }
    requires room { vec_len outs ≤ vec_capacity ends.old }
    ensures ended { AllZip IsEndOf outs.items ends.new.items }
    ensures room { (vec_len ends.new ≡ vec_len outs)
        × (vec_capacity ends.new ≡ vec_capacity ends.old) }
{
    let Some(Outgoing { to, tx, is_gone: _ }) = outs.pop() else {
        return;
    };
    end_from(rt, outs, ends);
    let tx = tx.end(rt);
    ends.push_reserved(OutgoingEnd { to, tx });
}

//! What went through the links between sites, once their ends are brought together.

ghost use Rattle.std.specs.Prelude.{◌≡◌, ◌∷◌, ◌++◌, ◌≤◌, [], IfOk, OnOk, map, vec_len, vec_capacity};
ghost use Rattle.std.specs.List.{AllZip};
ghost use mathlib.Core.List.{IsPrefix};
ghost use Rattle.session_server.specs.Mesh.{AreJoined, IsMesh, each_with, linkage_left};
ghost use Rattle.session_server.specs.Settled.{WentInOrder, AreSettled, EndsJoined, IsSettledWith, both_went, through};

use crate::peer::PeerEnd;
use link_queue::{RxEnd, Settled, TxEnd, settle};
use std::alloc::{AllocError, Global};

// How many messages were put into a link and got from it, and how many of these were refused.
#[derive(Clone, Copy)]
pub(crate) struct Through {
    pub(crate) put: u64,
    pub(crate) got: u64,
    pub(crate) refused: u64,
}

// What went from one site to another.
#[derive(Clone, Copy)]
pub(crate) struct Went {
    pub(crate) deltas: Through,
    pub(crate) acks: Through,
}

// For each site, what went from it to each other. Settles the links of the last site, then those of the others.
pub(crate) fn settle_all(
    alloc: Global,
    mut ends: Vec<Vec<PeerEnd>>,
) -> Result<Vec<Vec<Went>>, AllocError>
    requires { IsMesh (map (λ row. map linkage_left row.items) ends.items) }
    ensures { IfOk result (λ told.
        AreSettled (map (λ row. row.items) ends.items) (map (λ row. row.items) told.items)) }
{
    let Some(last) = ends.pop() else {
        return Ok(Vec::new(alloc));
    };
    let mut fronts = Vec::with_capacity(alloc, ends.len())?;
    let mut pairs = Vec::with_capacity(alloc, ends.len())?;
    settle_last(ends, last, &mut fronts, &mut pairs);
    let told = settle_all(alloc, fronts)?;
    with_last(alloc, told, pairs)
}

// Settles the links of a site with those before it, whose last ends are of these links.
fn settle_last(
    mut ends: Vec<Vec<PeerEnd>>,
    mut last: Vec<PeerEnd>,
    fronts: &mut Vec<Vec<PeerEnd>>,
    pairs: &mut Vec<(Went, Went)>,
)
    requires len { vec_len ends ≡ vec_len last }
    requires joined { AllZip (λ row other. EndsJoined row.items other) ends.items last.items }
    requires empty { (fronts.old.items ≡ []) × (pairs.old.items ≡ []) }
    requires room { (vec_len ends ≤ vec_capacity fronts.old)
        × (vec_len ends ≤ vec_capacity pairs.old) }
    ensures settled { IsSettledWith (map (λ row. row.items) ends.items)
        last.items (map (λ row. row.items) fronts.new.items) pairs.new.items }
    ensures room { (vec_len fronts.new ≡ vec_len ends) × (vec_len pairs.new ≡ vec_len ends)
        × (vec_capacity fronts.new ≡ vec_capacity fronts.old)
        × (vec_capacity pairs.new ≡ vec_capacity pairs.old) }
{
    let Some(mut row) = ends.pop() else {
        return;
    };
    let Some(other) = last.pop() else {
        unreachable!()
    };
    let Some(one) = row.pop() else { unreachable!() };
    settle_last(ends, last, fronts, pairs);
    fronts.push_reserved(row);
    pairs.push_reserved(settle_pair(one, other));
}

// Brings the ends that two sites have for each other together: what went there, and back.
fn settle_pair(one: PeerEnd, other: PeerEnd) -> (Went, Went)
    requires { AreJoined (linkage_left one, linkage_left other) }
    ensures went { result ≡ both_went (one, other) }
    ensures in_order { WentInOrder (one, other) }
{
    let there = Went {
        deltas: settle_link(one.delta_tx, other.delta_rx, other.deltas_refused),
        acks: settle_link(one.ack_tx, other.ack_rx, other.acks_refused),
    };
    let back = Went {
        deltas: settle_link(other.delta_tx, one.delta_rx, one.deltas_refused),
        acks: settle_link(other.ack_tx, one.ack_rx, one.acks_refused),
    };
    (there, back)
}

fn settle_link(tx: TxEnd, rx: RxEnd, refused: u64) -> Through
    requires { tx.link ≡ rx.link }
    ensures told { result ≡ through tx rx refused }
    ensures prefix { IsPrefix rx.messages tx.messages }
{
    let Settled { put, got } = settle(tx, rx);
    Through { put, got, refused }
}

// What went between the sites before, and between the last one and each of them.
fn with_last(
    alloc: Global,
    told: Vec<Vec<Went>>,
    pairs: Vec<(Went, Went)>,
) -> Result<Vec<Vec<Went>>, AllocError>
    requires len { vec_len told ≡ vec_len pairs }
    ensures { IfOk result (λ rows. map (λ row. row.items) rows.items
        ≡ each_with (map (λ row. row.items) told.items) (map (λ pair. pair.0) pairs.items)
        ++ map (λ pair. pair.1) pairs.items ∷ []) }
{
    let mut rows = Vec::new(alloc);
    let mut last = Vec::new(alloc);
    add_pairs(told, pairs, &mut rows, &mut last)?;
    rows.push(last)?;
    Ok(rows)
}

// Adds what went to the last site behind what went to the others, and what went back.
fn add_pairs(
    mut told: Vec<Vec<Went>>,
    mut pairs: Vec<(Went, Went)>,
    rows: &mut Vec<Vec<Went>>,
    last: &mut Vec<Went>,
) -> Result<(), AllocError>
    requires len { vec_len told ≡ vec_len pairs }
    requires empty { (rows.old.items ≡ []) × (last.old.items ≡ []) }
    ensures rows { OnOk result (map (λ row. row.items) rows.new.items
        ≡ each_with (map (λ row. row.items) told.items) (map (λ pair. pair.0) pairs.items)) }
    ensures last { OnOk result (last.new.items ≡ map (λ pair. pair.1) pairs.items) }
{
    let Some(mut row) = told.pop() else {
        return Ok(());
    };
    let Some((there, back)) = pairs.pop() else {
        unreachable!()
    };
    add_pairs(told, pairs, rows, last)?;
    row.push(there)?;
    rows.push(row)?;
    last.push(back)?;
    Ok(())
}

//! One site, in the thread that it was given.

ghost use Rattle.std.specs.Prelude.{◌≡◌, ◌≢◌, ◌<◌, ◌+◌, IfErr, IfOk, vec_len, length};
ghost use Rattle.site_desk.specs.declared.finish.FinishFault.TheVariants.{SeatsOut};
ghost use Rattle.site_desk.specs.Moments.{IsLater};
ghost use Rattle.site_desk.specs.Seats.{parts_of, shares_of};
ghost use Rattle.session_server.specs.Exchanged.{AreExchangedAt};
ghost use Rattle.session_server.specs.Finished.{IsCompared};
ghost use Rattle.session_server.specs.Visited.{AreServed, HasRun, looks_of, receipts_of};

use crate::exchange::{ExchangeFault, exchange_all};
use crate::links::LinkedSite;
use crate::peer::{Peer, PeerEnd};
use crate::seating::seated;
use crate::serve::serve_all;
use crate::session::{Session, SessionEnd};
use crate::site::Site;
use crate::threads::work_beside;
use history_keeper::Keeper;
use site_desk::{Desk, FinishFault, Gate, Opens, Receipt, Seat, Seen, SiteBook};
use std::alloc::{AllocError, Global};
use std::io::{Read, Write};
use std::marker::Brand;
use std::snapshot::Snapshot;
use std::sync::Wait;
use std::sync::ledger::Blank;
use std::thread::{Promise, Threads};

// What a site leaves: its book, its sessions, whether they were given what the history holds, and its links.
pub(crate) type Left<K, R, W> = (
    SiteBook<K>,
    Vec<SessionEnd<R, W>>,
    (Result<(), FinishFault>, Vec<PeerEnd>),
);

// Runs a site at a desk of its own, whose count is made here. One part of it stays with the site.
pub(crate) fn run_site<
    T: Threads + Wait + Sync,
    K: Keeper + Drop + Send,
    R: Read + Drop + Send,
    W: Write + Drop + Send,
    G: Gate + Sync,
>(
    rt: &T,
    alloc: Global,
    linked: LinkedSite<K, R, W>,
    rounds: u64,
    gate: &G,
) -> Result<Left<K, R, W>, ExchangeFault>
    ensures { IfOk result (HasRun rounds
        linked.site.book.book linked.site.sessions.items linked.peers.items) }
{
    let LinkedSite { site, peers } = linked;
    let Some(parts) = (site.sessions.len() as u64).checked_add(1) else {
        return Err(ExchangeFault::Memory);
    };
    at_desk::<T, K, R, W, Brand, G>(rt, alloc, site, Blank::new(parts), peers, rounds, gate)
}

// Runs a site at a new desk: its sessions and its exchange at once, and then the gathering of its count.
fn at_desk<
    T: Threads + Wait + Sync,
    K: Keeper + Drop + Send,
    R: Read + Drop + Send,
    W: Write + Drop + Send,
    L: Opens + Send + Sync,
    G: Gate + Sync,
>(
    rt: &T,
    alloc: Global,
    site: Site<K, R, W>,
    blank: Blank,
    peers: Vec<Peer>,
    rounds: u64,
    gate: &G,
) -> Result<Left<K, R, W>, ExchangeFault>
    requires name { blank.name ≡ L.name }
    requires parts { blank.parts ≡ L.parts }
    requires enough { vec_len site.sessions < blank.parts }
    requires began { L.began ≡ site.book.book.history }
    requires office { L.office ≡ site.book.book.office }
    ensures { IfOk result
        (HasRun rounds site.book.book site.sessions.items peers.items) }
{
    let Site { book, sessions } = site;
    let (desk, seat) = Desk::<K, L>::new(book, blank);
    let (sessions, seat) = seated(alloc, sessions, seat)?;
    let (served, exchanged) = at_once(rt, alloc, sessions, &desk, peers, rounds, gate)?;
    let (sessions, seats) = served?;
    let peers = exchanged?;
    let (book, finished) = finished(alloc, desk, seats, seat, &sessions)?;
    Ok((book, sessions, (finished, peers)))
}

// Compares the history with what the sessions were given.
fn finished<K: Keeper + Drop, R: Read + Drop, W: Write + Drop, L: Opens>(
    alloc: Global,
    desk: Desk<K, L>,
    mut seats: Vec<Seat<L>>,
    seat: Seat<L>,
    sessions: &Vec<SessionEnd<R, W>>,
) -> Result<(SiteBook<K>, Result<(), FinishFault>), AllocError>
    ensures compared { IfOk result (λ r. IsCompared (length L.began)
        (shares_of seats.items + seat.count) r.0.book
        (receipts_of sessions.now.items) (looks_of sessions.now.items) r.1) }
    ensures whole { parts_of seats.items + seat.parts ≡ L.parts
        → IfOk result (λ r. IfErr r.1 (λ fault. fault ≢ SeatsOut)) }
    ensures later { IfOk result (λ r. IsLater L.office L.began r.0.book) }
{
    let (receipts, seen) = told(alloc, sessions)?;
    seats.push(seat)?;
    Ok(compared(desk, seats, receipts.as_slice(), seen.as_slice()))
}

fn compared<K: Keeper + Drop, L: Opens>(
    desk: Desk<K, L>,
    seats: Vec<Seat<L>>,
    receipts: &[Receipt],
    looks: &[Seen],
) -> (SiteBook<K>, Result<(), FinishFault>)
    ensures compared { IsCompared
        (length L.began) (shares_of seats.items) result.0.book receipts.now looks.now result.1 }
    ensures whole { parts_of seats.items ≡ L.parts → IfErr result.1 (λ fault. fault ≢ SeatsOut) }
    ensures later { IsLater L.office L.began result.0.book }
{
    match desk.finish(seats, receipts, looks) {
        Ok(book) => (book, Ok(())),
        Err((book, fault)) => (book, Err(fault)),
    }
}

// The sessions that are served in a thread.
#[derive(Drop)]
struct Begun<R: Read + Drop, W: Write + Drop, L: Opens> {
    sessions: Snapshot<Vec<Session<R, W, L>>>,
}

impl<R: Read + Drop, W: Write + Drop, L: Opens> Promise<
    Result<(Vec<SessionEnd<R, W>>, Vec<Seat<L>>), AllocError>,
> for Begun<R, W, L> {
    ghost kept_by = { λ p r. IfOk r
        (λ s. AreServed (length L.began) p.sessions.value.items s.0.items s.1.items) };
}

// The sessions in a thread beside the exchange.
fn at_once<
    T: Threads + Wait + Sync,
    K: Keeper + Drop + Send,
    R: Read + Drop + Send,
    W: Write + Drop + Send,
    L: Opens + Send + Sync,
    G: Gate + Sync,
>(
    rt: &T,
    alloc: Global,
    sessions: Vec<Session<R, W, L>>,
    desk: &Desk<K, L>,
    peers: Vec<Peer>,
    rounds: u64,
    gate: &G,
) -> Result<
    (
        Result<(Vec<SessionEnd<R, W>>, Vec<Seat<L>>), AllocError>,
        Result<Vec<PeerEnd>, ExchangeFault>,
    ),
    ExchangeFault,
>
    ensures served { IfOk result (λ r. IfOk r.0
        (λ s. AreServed (length L.began) sessions.items s.0.items s.1.items)) }
    ensures peers { IfOk result (λ r. IfOk r.1
        (λ ends. AreExchangedAt K.Keeper L.Opens rounds peers.items ends.items)) }
{
    let begun = Begun {
        sessions: Snapshot::of(&sessions),
    };
    work_beside(
        rt,
        sessions,
        begun,
        &|sessions| serve_all(rt, alloc, sessions, desk, gate),
        || exchange_all(rt, alloc, desk, peers, rounds),
    )
}

// The receipts and looks of all sessions.
fn told<R: Read + Drop, W: Write + Drop>(
    alloc: Global,
    sessions: &Vec<SessionEnd<R, W>>,
) -> Result<(Vec<Receipt>, Vec<Seen>), AllocError>
    ensures receipts { IfOk result (λ r. r.0.items ≡ receipts_of sessions.now.items) }
    ensures looks { IfOk result (λ r. r.1.items ≡ looks_of sessions.now.items) }
{
    let mut receipts = Vec::new(alloc);
    let mut seen = Vec::new(alloc);
    for session in sessions {
        receipts.extend_from_slice(session.receipts.as_slice())?;
        seen.extend_from_slice(session.seen.as_slice())?;
    }
    Ok((receipts, seen))
}

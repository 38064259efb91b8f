//! All sites of a process at once.

ghost use Rattle.std.specs.Prelude.{◌≡◌, ◌<◌, ◌≤◌, [], IfOk, map, vec_len, vec_capacity};
ghost use Rattle.std.specs.List.{AllZip};
ghost use Rattle.session_server.specs.Settled.{AreLinksLeft};
ghost use Rattle.session_server.specs.Visited.{HasRun, IsSiteLeft, visit_ended};

use crate::exchange::ExchangeFault;
use crate::link_ends::{link_ends, numbers};
use crate::links::{LinkedSite, link_all};
use crate::one_site::{Left, run_site};
use crate::peer::PeerEnd;
use crate::site::{LinkEnd, Site, SiteEnd};
use crate::threads::work_all;
use history_keeper::Keeper;
use site_desk::Gate;
use std::alloc::Global;
use std::io::{Read, Write};
use std::snapshot::Snapshot;
use std::sync::Wait;
use std::thread::{Promise, Threads};

// The site that a thread is begun with, and for how many rounds.
#[derive(Drop)]
struct SiteOf<K: Keeper + Drop, R: Read + Drop, W: Write + Drop> {
    linked: Snapshot<LinkedSite<K, R, W>>,
    rounds: u64,
}

impl<K: Keeper + Drop, R: Read + Drop, W: Write + Drop> Promise<
    Result<Left<K, R, W>, ExchangeFault>,
> for SiteOf<K, R, W> {
    ghost kept_by = { λ p r. IfOk r (HasRun p.rounds p.linked.value.site.book.book
        p.linked.value.site.sessions.items p.linked.value.peers.items) };
}

/// Runs all sites at once, each in a thread of its own, with a thread for each of its sessions and with links to all
/// others, through which it sends what is due for so many rounds. It ends when each of them is done.
///
/// The links are made with this capacity (no contract shows it). The ends of sites come in the order in which they were
/// handed in, each with the ends of its sessions and a book of its site and its limit, which counts the same sites and
/// whose history goes on from the one that was handed in. What was found of its book is of all receipts and looks that
/// its sessions were given. Seats are out only where an end is without its writer; unless they are, no more requests
/// were newly entered than receipts were given of entries behind the history that was handed in.
///
/// The links come by the site that sends and then by the site that receives, one of deltas before one of
/// acknowledgements. Each tells what its two ends tell: what was got is a prefix of what was put, and of that the
/// receiving site refused no more than came. Into none was more put than there were rounds. A site acknowledged no more
/// of the deltas of another than it got and did not refuse.
///
/// The capacity is at least 1. `Memory`, or `NotStarted` where a thread of a site or of its exchange could not be started,
/// drops the books; what becomes of their keepers then no contract says (it is tested that the files keep what was entered).
pub fn run_all<
    T: Threads + Wait + Sync,
    K: Keeper + Drop + Send,
    R: Read + Drop + Send,
    W: Write + Drop + Send,
    G: Gate + Sync,
>(
    rt: &T,
    alloc: Global,
    sites: Vec<Site<K, R, W>>,
    rounds: u64,
    capacity: usize,
    gate: &G,
) -> Result<(Vec<SiteEnd<K, R, W>>, Vec<LinkEnd>), ExchangeFault>
    requires { 0 < capacity }
    ensures visits { IfOk result (λ r. map (λ e. map visit_ended e.sessions.items) r.0.items
        ≡ map (λ s. s.sessions.items) sites.items) }
    ensures left { IfOk result (λ r. AllZip (λ site end.
        IsSiteLeft site.book.book end.book.book end.sessions.items end.finished)
        sites.items r.0.items) }
    ensures links { IfOk result
        (λ r. AreLinksLeft rounds (map (λ s. s.book.book.office.me) sites.items) r.1.items) }
{
    let ids = numbers(alloc, &sites)?;
    let linked = link_all(alloc, sites, capacity)?;
    let mut jobs = Vec::with_capacity(alloc, linked.len())?;
    begun(linked, rounds, &mut jobs);
    let run = |one: LinkedSite<K, R, W>| -> Result<Left<K, R, W>, ExchangeFault>
        ensures { IfOk result
            (HasRun rounds one.site.book.book one.site.sessions.items one.peers.items) }
    { run_site(rt, alloc, one, rounds, gate) };
    let done = work_all(rt, alloc, jobs, &run)?;
    let mut ends = Vec::with_capacity(alloc, done.len())?;
    let mut peers = Vec::with_capacity(alloc, done.len())?;
    gathered(done, &mut ends, &mut peers);
    let links = link_ends(alloc, ids.as_slice(), peers)?;
    Ok((ends, links))
}

// Each site, with what its thread is to promise.
fn begun<K: Keeper + Drop, R: Read + Drop, W: Write + Drop>(
    mut linked: Vec<LinkedSite<K, R, W>>,
    rounds: u64,
    jobs: &mut Vec<(LinkedSite<K, R, W>, SiteOf<K, R, W>)>,
)
    requires empty { jobs.old.items ≡ [] }
    requires room { vec_len linked ≤ vec_capacity jobs.old }
    ensures begun { AllZip (λ one job. (job.0 ≡ one)
        × (job.1.linked.value ≡ one) × (job.1.rounds ≡ rounds)) linked.items jobs.new.items }
    ensures room { (vec_len jobs.new ≡ vec_len linked)
        × (vec_capacity jobs.new ≡ vec_capacity jobs.old) }
{
    let Some(one) = linked.pop() else {
        return;
    };
    begun(linked, rounds, jobs);
    let of = SiteOf {
        linked: Snapshot::of(&one),
        rounds,
    };
    jobs.push_reserved((one, of));
}

// The ends of the sites, and those of their links.
fn gathered<K: Keeper + Drop, R: Read + Drop, W: Write + Drop>(
    mut done: Vec<Left<K, R, W>>,
    ends: &mut Vec<SiteEnd<K, R, W>>,
    peers: &mut Vec<Vec<PeerEnd>>,
)
    requires empty { (ends.old.items ≡ []) × (peers.old.items ≡ []) }
    requires room { (vec_len done ≤ vec_capacity ends.old)
        × (vec_len done ≤ vec_capacity peers.old) }
    ensures ends { AllZip (λ left end. (end.book ≡ left.0)
        × (end.sessions ≡ left.1) × (end.finished ≡ left.2.0)) done.items ends.new.items }
    ensures peers { AllZip (λ left with. with ≡ left.2.1) done.items peers.new.items }
    ensures room { (vec_len ends.new ≡ vec_len done) × (vec_len peers.new ≡ vec_len done)
        × (vec_capacity ends.new ≡ vec_capacity ends.old)
        × (vec_capacity peers.new ≡ vec_capacity peers.old) }
{
    let Some((book, sessions, (finished, with))) = done.pop() else {
        return;
    };
    gathered(done, ends, peers);
    ends.push_reserved(SiteEnd {
        book,
        sessions,
        finished,
    });
    peers.push_reserved(with);
}

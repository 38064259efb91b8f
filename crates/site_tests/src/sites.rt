//! Sites of one process at once, over keepers in memory: what they wrote, have and sent, as text.
//!
//! Each test ends by itself, and finds the same whatever the schedule.
ghost use Rattle.std.specs.Prelude.{◌≡◌, ◌<◌};

use crate::books::{due, talked};
use crate::said::{SiteNumbers, book_of, put};
use history_keeper::ListKeeper;
use plain_words::numbered;
use session_server::{LinkEnd, Site, SiteEnd, Visit, run_all};
use site_desk::{Gate, NoGate, Place, SiteBook};
use std::alloc::Global;
use std::process::Abort;
use std::sync::Wait;
use std::sync::atomic::{AtomicU64, Ordering};
use std::thread::{Threads, yield_now};
use world_steps::audit;

type Lines = &'static [u8];

type Ends = Vec<SiteEnd<ListKeeper, Lines, Vec<u8>>>;

// What is asked of a site before, and the lines of a session that comes to it, if one does.
#[derive(Clone, Copy)]
struct Opening {
    limit: u64,
    asked: Lines,
    session: Option<Lines>,
}

fn site_of(
    rt: &(impl Abort + Wait),
    alloc: Global,
    me: u64,
    among: u64,
    one: Opening,
) -> Site<ListKeeper, Lines, Vec<u8>> {
    let book = book_of(
        rt,
        alloc,
        SiteNumbers {
            me,
            among,
            limit: one.limit,
        },
    );
    let book = talked(rt, alloc, book, one.asked, &mut Vec::new(alloc));
    let mut sessions = Vec::new(alloc);
    if let Some(reader) = one.session {
        let visit = Visit {
            id: me,
            reader,
            writer: Vec::new(alloc),
        };
        sessions.push(visit).expect(rt, "memory");
    }
    Site { book, sessions }
}

fn sites_of(
    rt: &(impl Abort + Wait),
    alloc: Global,
    all: &[Opening],
) -> Vec<Site<ListKeeper, Lines, Vec<u8>>> {
    let mut sites = Vec::new(alloc);
    for (me, one) in all.iter().enumerate() {
        let site = site_of(rt, alloc, me as u64, all.len() as u64, *one);
        sites.push(site).expect(rt, "memory");
    }
    sites
}

// Writes how a site ended, what its sessions wrote, what it has left of the event behind it, and what is due to site 1 then.
fn put_site(
    rt: &(impl Abort + Wait),
    alloc: Global,
    end: SiteEnd<ListKeeper, Lines, Vec<u8>>,
    out: &mut Vec<u8>,
) -> SiteBook<ListKeeper> {
    let SiteEnd {
        book,
        sessions,
        finished,
    } = end;
    put(
        rt,
        out,
        if finished == Ok(()) {
            b"site: "
        } else {
            b"strangers: "
        },
    );
    for session in &sessions {
        if let Some(written) = &session.writer {
            put(rt, out, written.as_slice());
        }
    }
    put(
        rt,
        out,
        numbered(b"entries ", book.book().len() as u64).as_slice(),
    );
    put(rt, out, b", ");
    let book = talked(rt, alloc, book, b"left gala\n", out);
    due(rt, alloc, book, 1, out)
}

fn put_link(rt: &impl Abort, link: LinkEnd, out: &mut Vec<u8>) {
    put(rt, out, if link.acks { b"acks" } else { b"deltas" });
    for (word, number) in [
        (b" by ".as_slice(), link.by.number()),
        (b" to ", link.to.number()),
        (b" put ", link.put),
        (b" got ", link.got),
        (b" refused ", link.refused),
    ] {
        put(rt, out, numbered(word, number).as_slice());
    }
    put(rt, out, b"\n");
}

fn put_sums(
    rt: &impl Abort,
    alloc: Global,
    zero: &SiteBook<ListKeeper>,
    one: &SiteBook<ListKeeper>,
    out: &mut Vec<u8>,
) {
    match audit(alloc, &[zero.book(), one.book()]) {
        Ok(sums) => {
            for (event, totals) in sums {
                put(rt, out, event.bytes());
                put(rt, out, numbered(b" released ", totals.released).as_slice());
                put(rt, out, numbered(b" sold ", totals.sold).as_slice());
                put(rt, out, numbered(b" refunded ", totals.refunded).as_slice());
                put(rt, out, b"\n");
            }
        }
        Err(_) => put(rt, out, b"no audit\n"),
    }
}

// What the sites come to.
fn put_ends(
    rt: &(impl Abort + Wait),
    alloc: Global,
    ends: Ends,
    links: Vec<LinkEnd>,
    out: &mut Vec<u8>,
) {
    let mut books = Vec::new(alloc);
    for end in ends {
        let book = put_site(rt, alloc, end, out);
        books.push(book).expect(rt, "memory");
    }
    if let [zero, one] = books.as_slice() {
        put_sums(rt, alloc, zero, one, out);
    }
    for link in links {
        put_link(rt, link, out);
    }
}

fn ran<R: Threads + Wait + Abort + Sync, G: Gate + Sync>(
    rt: &R,
    alloc: Global,
    all: &[Opening],
    rounds: u64,
    capacity: usize,
    gate: &G,
) -> Vec<u8>
    requires { 0 < capacity }
{
    let mut out = Vec::new(alloc);
    let sites = sites_of(rt, alloc, all);
    match run_all(rt, alloc, sites, rounds, capacity, gate) {
        Ok((ends, links)) => put_ends(rt, alloc, ends, links, &mut out),
        Err(_) => put(rt, &mut out, b"no threads\n"),
    }
    out
}

const CEDING: Opening = Opening {
    limit: 10,
    asked: b"announce 1 gala\nrelease 2 gala 100\ncede 3 gala 40 1\n",
    session: None,
};

const QUIET: Opening = Opening {
    limit: 10,
    asked: b"",
    session: None,
};

const CEDED: &[u8] = b"site: entries 3, left 60\nnothing\nsite: entries 1, left 40\nno-site\n\
    gala released 100 sold 0 refunded 0\n\
    deltas by 0 to 1 put 1 got 1 refused 0\n";

// A thread that never sends or never receives, or a site that takes no acknowledgement, fails here.
#[test]
fn a_cession_goes_over_a_link(rt: HostRuntime) {
    let text = ran(&rt, rt.alloc(), &[CEDING, QUIET], 1, 4, &NoGate);
    // Whether site 1 tells site 0 of it in its one round is a matter of the schedule.
    assert!(rt; text.starts_with(CEDED));
    assert!(rt; text.ends_with(b"acks by 1 to 0 put 1 got 1 refused 0\n"));
}

const FULL: Opening = Opening {
    limit: 1,
    asked: b"announce 1 expo\n",
    session: None,
};

const REFUSED: &[u8] = b"site: entries 4, left 60\n\
    delta 0 1 4\nname expo\nname gala\ngave gala 0 0 100\ngave gala 0 1 40\nend\n\
    site: entries 1, unknown\nno-site\n\
    expo released 0 sold 0 refunded 0\ngala released 100 sold 0 refunded 0\n";

// What is refused is counted and not acknowledged.
#[test]
fn a_full_site_refuses_a_delta(rt: HostRuntime) {
    let text = ran(&rt, rt.alloc(), &[CEDING, FULL], 1, 4, &NoGate);
    let links = text
        .strip_prefix(REFUSED)
        .expect(&rt, "the sites and their sums");
    let wanted = b"deltas by 0 to 1 put 1 got 1 refused 1\nacks by 0 to 1 put 1 got 1 refused 0\n\
        deltas by 1 to 0 put 1 got 1 refused 0\nacks by 1 to 0 put 0 got 0 refused 0\n";
    assert!(rt; links == wanted.as_slice());
}

// What a full site refused is due again. A site that sends in its first round alone fails here.
#[test]
fn a_full_site_refuses_a_delta_in_each_round(rt: HostRuntime) {
    let text = ran(&rt, rt.alloc(), &[CEDING, FULL], 2, 4, &NoGate);
    let links = text
        .strip_prefix(REFUSED)
        .expect(&rt, "the sites and their sums");
    // Whether site 1 is acknowledged before its second round is a matter of the schedule.
    assert!(rt; links.starts_with(b"deltas by 0 to 1 put 2 got 2 refused 2\n"));
    assert!(rt; links.ends_with(b"acks by 1 to 0 put 0 got 0 refused 0\n"));
}

// A thread that sends one peer's message to another fails here.
#[test]
fn each_peer_is_sent_its_own_message(rt: HostRuntime) {
    let giving = Opening {
        asked: b"announce 1 gala\nrelease 2 gala 100\ncede 3 gala 40 1\ncede 4 gala 20 2\n",
        ..CEDING
    };
    let all = [giving, QUIET, QUIET, QUIET, QUIET];
    let text = ran(&rt, rt.alloc(), &all, 1, 4, &NoGate);
    // Whether site 2 is acknowledged by site 1 is a matter of the schedule.
    let front = b"site: entries 4, left 40\nnothing\nsite: entries 1, left 40\nno-site\n\
        site: entries 1, left 20\n";
    assert!(rt; text.starts_with(front));
}

// Holds session 1 before its line until session 0 is inside site 0, and session 0 there until session 1 is answered.
#[derive(Drop)]
struct Crossing {
    inside: AtomicU64,
    answered: AtomicU64,
    missed: AtomicU64,
}

impl Crossing {
    // Waits until the flag is raised, and notes where the turns run out.
    fn wait_for(&self, flag: &AtomicU64) {
        for _ in 0..1_000_000u64 {
            if flag.load(Ordering::SeqCst) == 1 {
                return;
            }
            yield_now();
        }
        self.missed.store(1, Ordering::SeqCst);
    }

    // Lets session 1 go on, and waits for its answer.
    fn hold(&self) {
        self.inside.store(1, Ordering::SeqCst);
        self.wait_for(&self.answered);
    }

    // Session 1 waits before its line, and tells once it is answered.
    fn pass_outside(&self, place: Place) {
        match place {
            Place::Asking {
                session: 1,
                line: 1,
            } => self.wait_for(&self.inside),
            Place::Answered {
                session: 1,
                line: 1,
            } => self.answered.store(1, Ordering::SeqCst),
            _ => {}
        }
    }
}

impl Gate for Crossing {
    fn pass<R: Wait>(&self, _rt: &R, place: Place) {
        match place {
            Place::Inside { site } if site.number() == 0 => self.hold(),
            _ => self.pass_outside(place),
        }
    }
}

// One lock for all sites, or one thread, fails here: each site's session waits for the other's.
#[test]
fn two_sites_sell_at_once(rt: HostRuntime) {
    let gate = Crossing {
        inside: AtomicU64::new(0),
        answered: AtomicU64::new(0),
        missed: AtomicU64::new(0),
    };
    let there = Opening {
        session: Some(b"announce 1 gala\n"),
        ..QUIET
    };
    let here = Opening {
        session: Some(b"announce 1 expo\n"),
        ..QUIET
    };
    let text = ran(&rt, rt.alloc(), &[there, here], 0, 1, &gate);
    let front =
        b"site: done\nentries 1, left 0\ndelta 0 1 1\nname gala\nend\nsite: done\nentries 1, unknown\nno-site\n\
        expo released 0 sold 0 refunded 0\ngala released 0 sold 0 refunded 0\n";
    assert!(rt; text.starts_with(front));
    assert!(rt; gate.missed.load(Ordering::SeqCst) == 0);
}

//! Sessions in threads at one desk, whose gates hold them: what they wrote and were given, as text.
//!
//! Each test ends by itself, and finds the same whatever the schedule.
ghost use Rattle.std.specs.Prelude.{◌≡◌, ◌<◌};

use crate::books::talked;
use crate::ends::finish;
use crate::said::{SiteNumbers, book_of, put};
use history_keeper::ListKeeper;
use plain_words::numbered;
use session_server::{Ended, Session, SessionEnd, TalkFault, serve_all};
use site_desk::{Desk, Gate, NoGate, Opens, Place, Receipt, Seat, Seen, SiteBook};
use std::alloc::Global;
use std::io::{ErrorKind, Read};
use std::marker::Brand;
use std::process::Abort;
use std::sync::Wait;
use std::sync::atomic::{AtomicU64, Ordering};
use std::sync::ledger::Blank;
use std::thread::Threads;
use std::{io, thread};

// Waits until a flag is raised, and tells whether it was before the turns ran out.
fn is_raised(flag: &AtomicU64) -> bool {
    for _ in 0..1_000_000u64 {
        if flag.load(Ordering::SeqCst) == 1 {
            return true;
        }
        thread::yield_now();
    }
    false
}

// Holds session 0 at its first line until session 1 has answered its second; or each at its first until the other came to
// its own.
#[derive(Drop)]
struct Holds {
    is_meeting: bool,
    zero: AtomicU64,
    one: AtomicU64,
    missed: AtomicU64,
}

impl Holds {
    fn new(is_meeting: bool) -> Holds {
        Holds {
            is_meeting,
            zero: AtomicU64::new(0),
            one: AtomicU64::new(0),
            missed: AtomicU64::new(0),
        }
    }

    fn wait_for(&self, flag: &AtomicU64) {
        if !is_raised(flag) {
            self.missed.store(1, Ordering::SeqCst);
        }
    }
}

impl Gate for Holds {
    fn pass<R: Wait>(&self, _rt: &R, place: Place) {
        match place {
            Place::Asking {
                session: 0,
                line: 1,
            } => {
                self.zero.store(1, Ordering::SeqCst);
                self.wait_for(&self.one);
            }
            Place::Asking {
                session: 1,
                line: 1,
            } if self.is_meeting => {
                self.one.store(1, Ordering::SeqCst);
                self.wait_for(&self.zero);
            }
            Place::Answered {
                session: 1,
                line: 2,
            } => self.one.store(1, Ordering::SeqCst),
            _ => {}
        }
    }
}

// Gives these bytes, and then nothing more or, where it is cut, an error.
#[derive(Clone, Copy)]
struct Lines {
    bytes: &'static [u8],
    is_cut: bool,
}

impl Read for Lines {
    fn read(&mut self, buf: &mut [u8]) -> io::Result<usize> {
        if self.is_cut && self.bytes.is_empty() {
            return Err(ErrorKind::Other.into());
        }
        self.bytes.read(buf)
    }
}

fn whole(bytes: &'static [u8]) -> Lines {
    Lines {
        bytes,
        is_cut: false,
    }
}

fn session<L: Opens>(
    alloc: Global,
    id: u64,
    reader: Lines,
    seat: Seat<L>,
) -> Session<Lines, Vec<u8>, L> {
    Session {
        id,
        reader,
        writer: Vec::new(alloc),
        seat,
    }
}

// Sessions of these lines in order, with a seat for each.
fn sessions_of<L: Opens>(
    alloc: Global,
    seat: Seat<L>,
    count: u64,
    all: &[Lines],
) -> Option<Vec<Session<Lines, Vec<u8>, L>>>
    requires some { 0 < count }
    requires parts { seat.parts ≡ count }
{
    let mut sessions = Vec::new(alloc);
    let mut rest = seat;
    let mut id: u64 = 0;
    for _ in 1..count {
        let (kept, seat) = rest.split();
        rest = kept;
        sessions
            .push(session(alloc, id, *all.get(id as usize)?, seat))
            .ok()?;
        id = id.wrapping_add(1);
    }
    sessions
        .push(session(alloc, id, *all.get(id as usize)?, rest))
        .ok()?;
    Some(sessions)
}

fn end_text(ended: Result<Ended, TalkFault>) -> &'static [u8] {
    match ended {
        Ok(Ended::Quit) => b" quit: ",
        Ok(Ended::EndOfInput) => b" end: ",
        Err(TalkFault::Read) => b" read: ",
        Err(TalkFault::LineTooLong) => b" line-too-long: ",
        Err(_) => b" another fault: ",
    }
}

// Writes how a session ended, what it wrote, and the places of what it was given.
fn put_end(rt: &impl Abort, end: &SessionEnd<Lines, Vec<u8>>, out: &mut Vec<u8>) {
    put(rt, out, numbered(b"session ", end.id).as_slice());
    put(rt, out, end_text(end.ended));
    match &end.writer {
        Some(written) => put(rt, out, written.as_slice()),
        None => put(rt, out, b"no thread\n"),
    }
    for receipt in &end.receipts {
        put(
            rt,
            out,
            numbered(b"entry ", receipt.place as u64).as_slice(),
        );
    }
    for look in &end.seen {
        put(rt, out, numbered(b" at ", look.at as u64).as_slice());
    }
    put(rt, out, b"\n");
}

// All receipts and looks of these sessions, where there is memory for them.
fn given(alloc: Global, ends: &[SessionEnd<Lines, Vec<u8>>]) -> Option<(Vec<Receipt>, Vec<Seen>)> {
    let mut receipts = Vec::new(alloc);
    let mut looks = Vec::new(alloc);
    for end in ends {
        receipts.extend_from_slice(end.receipts.as_slice()).ok()?;
        looks.extend_from_slice(end.seen.as_slice()).ok()?;
    }
    Some((receipts, looks))
}

// How many requests were newly entered for each of these seats, where there is memory for it.
fn shares_of<L: Opens>(alloc: Global, seats: &[Seat<L>]) -> Option<Vec<u64>> {
    let mut shares = Vec::new(alloc);
    for seat in seats {
        shares.push(seat.count()).ok()?;
    }
    Some(shares)
}

// What is left of sessions at a desk: their ends, the shares of their seats, and how many entries there are.
#[derive(Drop)]
struct Behind {
    ends: Vec<SessionEnd<Lines, Vec<u8>>>,
    shares: Vec<u64>,
    len: usize,
}

// These sessions at this desk. None is for a stranger, and for want of memory: it stops nowhere, so that its proof is short.
fn serve_at<R: Threads + Wait + Sync, L: Opens + Send + Sync, G: Gate + Sync>(
    rt: &R,
    alloc: Global,
    desk: Desk<ListKeeper, L>,
    sessions: Vec<Session<Lines, Vec<u8>, L>>,
    gate: &G,
) -> Option<Behind> {
    let (ends, seats) = serve_all(rt, alloc, sessions, &desk, gate).ok()?;
    let shares = shares_of(alloc, seats.as_slice())?;
    let (receipts, looks) = given(alloc, ends.as_slice())?;
    let end = finish(desk, seats, receipts.as_slice(), looks.as_slice());
    if end.fault.is_some() {
        return None;
    }
    Some(Behind {
        ends,
        shares,
        len: end.len,
    })
}

// So many sessions at a desk over this book.
fn serve_each<R: Threads + Wait + Sync, L: Opens + Send + Sync, G: Gate + Sync>(
    rt: &R,
    alloc: Global,
    book: SiteBook<ListKeeper>,
    blank: Blank,
    count: u64,
    all: &[Lines],
    gate: &G,
) -> Option<Behind>
    requires name { blank.name ≡ L.name }
    requires parts { blank.parts ≡ L.parts }
    requires some { 0 < count }
    requires each { blank.parts ≡ count }
    requires began { L.began ≡ book.book.history }
    requires office { L.office ≡ book.book.office }
{
    let (desk, seat) = Desk::<ListKeeper, L>::new(book, blank);
    let sessions = sessions_of(alloc, seat, count, all)?;
    serve_at(rt, alloc, desk, sessions, gate)
}

fn put_behind(rt: &impl Abort, behind: &Behind, out: &mut Vec<u8>) {
    for end in &behind.ends {
        put_end(rt, end, out);
    }
    put(rt, out, b"shares ");
    for share in &behind.shares {
        put(rt, out, numbered(b"", *share).as_slice());
        put(rt, out, b" ");
    }
    put(rt, out, numbered(b"entries ", behind.len as u64).as_slice());
}

// Sessions of these lines at a desk that is made here, over a book with 100 seats.
fn served<R: Threads + Wait + Abort + Sync, G: Gate + Sync>(
    rt: &R,
    alloc: Global,
    all: &[Lines],
    gate: &G,
) -> Vec<u8> {
    let mut out = Vec::new(alloc);
    let zero = SiteNumbers {
        me: 0,
        among: 2,
        limit: 1000,
    };
    let asked = b"announce 1 gala\nrelease 2 gala 100\n";
    let book = talked(rt, alloc, book_of(rt, alloc, zero), asked, &mut out);
    out.clear();
    let count = all.len() as u64;
    assert!(rt; 0 < count);
    let served = serve_each::<R, Brand, G>(rt, alloc, book, Blank::new(count), count, all, gate);
    let behind = served.expect(rt, "no stranger, and memory");
    put_behind(rt, &behind, &mut out);
    out
}

// Session 0 sells 3 seats, session 1 sells 4, and each looks at what is left.
fn two() -> [Lines; 2] {
    [
        whole(b"sell 10 gala 3\nleft gala\n"),
        whole(b"sell 20 gala 4\nleft gala\n"),
    ]
}

// One thread for all sessions, a desk that is always closed, and one that enters another request fail here.
#[test]
fn sessions_sell_in_a_known_order(rt: HostRuntime) {
    let gate = Holds::new(false);
    let text = served(&rt, rt.alloc(), &two(), &gate);
    let wanted = b"session 0 end: done\nleft 93\nentry 3 at 4\n\
        session 1 end: done\nleft 96\nentry 2 at 3\n\
        shares 1 1 entries 4";
    assert!(rt; text.as_slice() == wanted.as_slice());
    assert!(rt; gate.missed.load(Ordering::SeqCst) == 0);
}

// One thread for all sessions fails here.
#[test]
fn sessions_meet(rt: HostRuntime) {
    let gate = Holds::new(true);
    let text = served(&rt, rt.alloc(), &two(), &gate);
    let may_be = [
        b"session 0 end: done\nleft 97\nentry 2 at 3\nsession 1 end: done\nleft 93\nentry 3 at 4\nshares 1 1 entries 4".as_slice(),
        b"session 0 end: done\nleft 93\nentry 2 at 4\nsession 1 end: done\nleft 93\nentry 3 at 4\nshares 1 1 entries 4",
        b"session 0 end: done\nleft 93\nentry 3 at 4\nsession 1 end: done\nleft 96\nentry 2 at 3\nshares 1 1 entries 4",
        b"session 0 end: done\nleft 93\nentry 3 at 4\nsession 1 end: done\nleft 93\nentry 2 at 4\nshares 1 1 entries 4",
    ];
    assert!(rt; may_be.iter().any(|wanted| text.as_slice() == *wanted));
    assert!(rt; gate.missed.load(Ordering::SeqCst) == 0);
}

// A line of 201 bytes, which is one too many.
const LONG: [u8; 201] = [b'a'; 201];

// What broke a session off is told of it alone, and its writer comes back though nothing was entered for it.
#[test]
fn each_session_ends_in_its_own_way(rt: HostRuntime) {
    let cut = Lines {
        bytes: b"left expo\n",
        is_cut: true,
    };
    let all = [
        whole(b"sell 10 gala 3\nleft gala\nquit\nleft gala\n"),
        cut,
        whole(&LONG),
    ];
    let text = served(&rt, rt.alloc(), &all, &NoGate);
    let wanted = b"session 0 quit: done\nleft 97\nentry 2 at 3\n\
        session 1 read: unknown\n\n\
        session 2 line-too-long: \n\
        shares 1 0 0 entries 3";
    assert!(rt; text.as_slice() == wanted.as_slice());
}

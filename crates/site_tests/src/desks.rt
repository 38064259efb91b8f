//! What a desk is told and tells, as text, and what its end finds.
ghost use Rattle.std.specs.Prelude.{◌≡◌, ◌<◌};

use crate::ends::{End, finish};
use crate::said::{
    Say, SiteNumbers, book_of, failing_book, message, put, put_due, put_taken, site,
};
use history_keeper::ListKeeper;
use plain_words::numbered;
use request_ledger::Reply;
use session_server::{Ended, SeatAnswerer, talk};
use site_desk::{Desk, FinishFault, Gate, Opens, Place, Receipt, Seat, Seen, SiteBook};
use std::alloc::Global;
use std::marker::Brand;
use std::process::Abort;
use std::sync::Wait;
use std::sync::atomic::{AtomicU64, Ordering};
use std::sync::ledger::Blank;

// How often a request was asked under the lock of site 1.
#[derive(Drop)]
struct Passes {
    inside: AtomicU64,
}

impl Passes {
    fn new() -> Passes {
        Passes {
            inside: AtomicU64::new(0),
        }
    }
}

impl Gate for Passes {
    fn pass<R: Wait>(&self, _rt: &R, place: Place) {
        if let Place::Inside { site } = place
            && site.number() == 1
        {
            self.inside.fetch_add(1, Ordering::SeqCst);
        }
    }
}

// What the sessions at a desk were given.
#[derive(Drop)]
struct Given {
    receipts: Vec<Receipt>,
    looks: Vec<Seen>,
}

// What is handed in at the end: all that was given, or all but a seat, a reply or the seats that were left.
#[derive(Clone, Copy)]
enum HandIn {
    All,
    NoSeat,
    OtherReply,
    OtherLeft,
}

// The seat behind a session of these lines.
fn talked<R: Wait + Abort, L: Opens>(
    rt: &R,
    alloc: Global,
    desk: &Desk<ListKeeper, L>,
    gate: &Passes,
    seat: Seat<L>,
    lines: &[u8],
    given: &mut Given,
    out: &mut Vec<u8>,
) -> Seat<L> {
    let mut at = SeatAnswerer::new(alloc, desk, gate, 0, seat);
    let ended = talk(rt, alloc, lines, out, &mut at);
    assert!(rt; ended == Ok(Ended::EndOfInput));
    let (seat, receipts, looks) = at.into_parts();
    given
        .receipts
        .extend_from_slice(receipts.as_slice())
        .expect(rt, "memory");
    given
        .looks
        .extend_from_slice(looks.as_slice())
        .expect(rt, "memory");
    seat
}

// The seat once this was said to the desk.
fn told<R: Wait + Abort, L: Opens>(
    rt: &R,
    alloc: Global,
    desk: &Desk<ListKeeper, L>,
    gate: &Passes,
    seat: Seat<L>,
    say: Say,
    given: &mut Given,
    out: &mut Vec<u8>,
) -> Seat<L> {
    match say {
        Say::Lines(lines) => return talked(rt, alloc, desk, gate, seat, lines, given, out),
        Say::Message(text) => put_taken(rt, out, desk.take(rt, message(rt, alloc, text))),
        Say::Due(to) => put_due(rt, out, desk.next(rt, alloc, site(rt, to))),
        Say::Grow(_) | Say::Restart => panic!(rt; "a desk is told neither"),
    }
    seat
}

// Turns what is handed in into this.
fn forge(rt: &impl Abort, given: &mut Given, hand_in: HandIn) {
    match hand_in {
        HandIn::All | HandIn::NoSeat => {}
        HandIn::OtherReply => {
            let receipt = given.receipts.first_mut().expect(rt, "a receipt");
            receipt.reply = Reply::Short { left: 0 };
        }
        HandIn::OtherLeft => {
            let look = given.looks.first_mut().expect(rt, "a look");
            look.left = 96;
        }
    }
}

// The seats that are handed in, where there is memory for them.
fn seats_of<L: Opens>(alloc: Global, seat: Seat<L>, hand_in: HandIn) -> Option<Vec<Seat<L>>> {
    let mut seats = Vec::new(alloc);
    if !matches!(hand_in, HandIn::NoSeat) {
        seats.push(seat).ok()?;
    }
    Some(seats)
}

fn put_end(rt: &impl Abort, end: End, out: &mut Vec<u8>) {
    let word = match end.fault {
        None => b"whole".as_slice(),
        Some(FinishFault::SeatsOut) => b"seats-out",
        Some(FinishFault::Stranger { at: 0 }) => b"stranger 0",
        Some(FinishFault::StrangerSeen { at: 0 }) => b"stranger-seen 0",
        Some(_) => b"another stranger",
    };
    put(rt, out, word);
    put(
        rt,
        out,
        if end.is_closed {
            b", closed, "
        } else {
            b", open, "
        },
    );
    put(rt, out, numbered(b"entries ", end.len as u64).as_slice());
    put(rt, out, b"\n");
}

// What a desk over this book says to all of this, and what its end finds.
fn says_at<R: Wait + Abort, L: Opens>(
    rt: &R,
    alloc: Global,
    book: SiteBook<ListKeeper>,
    blank: Blank,
    gate: &Passes,
    all: &[Say],
    hand_in: HandIn,
    out: &mut Vec<u8>,
) -> Option<End>
    requires name { blank.name ≡ L.name }
    requires parts { blank.parts ≡ L.parts }
    requires some { 0 < blank.parts }
    requires began { L.began ≡ book.book.history }
    requires office { L.office ≡ book.book.office }
{
    let (desk, mut seat) = Desk::<ListKeeper, L>::new(book, blank);
    let mut given = Given {
        receipts: Vec::new(alloc),
        looks: Vec::new(alloc),
    };
    for say in all {
        seat = told(rt, alloc, &desk, gate, seat, *say, &mut given, out);
    }
    forge(rt, &mut given, hand_in);
    let seats = seats_of(alloc, seat, hand_in)?;
    Some(finish(
        desk,
        seats,
        given.receipts.as_slice(),
        given.looks.as_slice(),
    ))
}

// The same at a desk that is made here.
fn says(
    rt: &(impl Wait + Abort),
    alloc: Global,
    book: SiteBook<ListKeeper>,
    all: &[Say],
    hand_in: HandIn,
) -> Vec<u8> {
    let mut out = Vec::new(alloc);
    let gate = Passes::new();
    let blank = Blank::new(1);
    let end = says_at::<_, Brand>(rt, alloc, book, blank, &gate, all, hand_in, &mut out);
    let inside = gate.inside.load(Ordering::SeqCst);
    put(rt, &mut out, numbered(b"inside ", inside).as_slice());
    put(rt, &mut out, b", ");
    put_end(rt, end.expect(rt, "memory"), &mut out);
    out
}

const ONE: SiteNumbers = SiteNumbers {
    me: 1,
    among: 2,
    limit: 4,
};

// A desk that answers what is new as kept or what is kept as new, that gives a kept reply as another or at another place,
// that refuses with another fault, or that passes no gate fails here.
#[test]
fn desk_answers_again_until_full(rt: HostRuntime) {
    let alloc = rt.alloc();
    let all = [
        Say::Lines(
            b"announce 1 gala\nrelease 2 gala 100\nsell 10 gala 3\nsell 11 gala 98\nleft gala\n",
        ),
        Say::Lines(
            b"sell 11 gala 98\nsell 10 gala 3\nannounce 1 gala\nsell 10 gala 4\nsell 12 gala 1\nleft expo\n",
        ),
    ];
    let wanted = b"done\ndone\ndone\nshort 97\nleft 97\n\
        short 97\ndone\ndone\nreused\nhistory-full\nunknown\n\
        inside 9, whole, open, entries 4\n";
    let book = book_of(&rt, alloc, ONE);
    assert!(rt; says(&rt, alloc, book, &all, HandIn::All).as_slice() == wanted.as_slice());
}

// A desk that goes on after its keeper failed, and a desk or a seat that tells it as another fault, fails here.
#[test]
fn desk_is_closed_once_its_keeper_failed(rt: HostRuntime) {
    let alloc = rt.alloc();
    let all = [
        Say::Lines(
            b"announce 1 gala\nleft expo\nrelease 2 gala 5\nannounce 1 gala\nleft gala\ntotals gala\n",
        ),
        Say::Message(b"ack 0 1 1\nend\n"),
        Say::Due(0),
    ];
    let wanted = b"done\nunknown\nstore\nclosed\nclosed\nclosed\n\
        closed\n\
        closed\n\
        inside 3, whole, closed, entries 1\n";
    let book = failing_book(&rt, alloc, ONE, 2, false);
    assert!(rt; says(&rt, alloc, book, &all, HandIn::All).as_slice() == wanted.as_slice());
}

const CEDED: &[u8] = b"delta 0 1 4\nname gala\ngave gala 0 0 100\ngave gala 0 1 40\nend\n";

// The same where a message is what its keeper fails at.
#[test]
fn desk_is_closed_by_a_message_that_is_not_stored(rt: HostRuntime) {
    let alloc = rt.alloc();
    let all = [
        Say::Message(CEDED),
        Say::Message(CEDED),
        Say::Lines(b"left gala\n"),
    ];
    let wanted = b"store\nclosed\nclosed\ninside 0, whole, closed, entries 0\n";
    let book = failing_book(&rt, alloc, ONE, 1, false);
    assert!(rt; says(&rt, alloc, book, &all, HandIn::All).as_slice() == wanted.as_slice());
}

// What a desk is asked is due to the other site, and a cession most of all: a desk that counts it as acknowledged fails here.
#[test]
fn cession_of_a_desk_is_due(rt: HostRuntime) {
    let alloc = rt.alloc();
    let all = [
        Say::Lines(b"announce 1 gala\nrelease 2 gala 100\ncede 3 gala 40 0\n"),
        Say::Due(0),
        Say::Message(b"ack 0 1 2\nend\n"),
        Say::Due(0),
    ];
    let wanted = b"done\ndone\ndone\n\
        delta 1 0 3\nname gala\ngave gala 1 0 40\ngave gala 1 1 100\nend\n\
        acked\n\
        delta 1 0 3\ngave gala 1 0 40\nend\n\
        inside 3, whole, open, entries 3\n";
    let book = book_of(&rt, alloc, ONE);
    assert!(rt; says(&rt, alloc, book, &all, HandIn::All).as_slice() == wanted.as_slice());
}

// A desk that takes nothing, gives an invented message or what was acknowledged, or takes what is to another site fails here.
#[test]
fn desk_takes_and_gives_messages(rt: HostRuntime) {
    let alloc = rt.alloc();
    let all = [
        Say::Due(0),
        Say::Message(CEDED),
        Say::Lines(b"left gala\n"),
        Say::Message(CEDED),
        Say::Due(0),
        Say::Due(1),
        Say::Due(2),
        Say::Message(b"ack 1 0 1\nend\n"),
        Say::Message(b"ack 0 1 2\nend\n"),
        Say::Message(b"ack 0 1 1\nend\n"),
        Say::Due(0),
    ];
    let wanted = b"nothing\n\
        joined ack 1 0 4\nend\n\
        left 40\n\
        nothing-new ack 1 0 4\nend\n\
        delta 1 0 1\nname gala\ngave gala 0 0 100\ngave gala 0 1 40\nend\n\
        no-site\n\
        no-site\n\
        not-for-me\n\
        stray-ack 1\n\
        acked\n\
        nothing\n\
        inside 0, whole, open, entries 1\n";
    let book = book_of(&rt, alloc, ONE);
    assert!(rt; says(&rt, alloc, book, &all, HandIn::All).as_slice() == wanted.as_slice());
}

// What a desk that sold 3 of 100 seats says to its end, where this is handed in.
fn ended(rt: &(impl Wait + Abort), alloc: Global, hand_in: HandIn) -> Vec<u8> {
    let all = [Say::Lines(b"announce 1 gala\nrelease 2 gala 100\nsell 10 gala 3\nleft gala\n")];
    let text = says(rt, alloc, book_of(rt, alloc, ONE), &all, hand_in);
    let front = b"done\ndone\ndone\nleft 97\ninside 3, ";
    let end = text.strip_prefix(front.as_slice());
    Vec::from_slice(alloc, end.expect(rt, "the replies")).expect(rt, "memory")
}

#[test]
fn finish_finds_the_first_fault(rt: HostRuntime) {
    for (hand_in, wanted) in [
        (HandIn::All, b"whole, open, entries 3\n".as_slice()),
        (HandIn::NoSeat, b"seats-out, open, entries 3\n"),
        (HandIn::OtherReply, b"stranger 0, open, entries 3\n"),
        (HandIn::OtherLeft, b"stranger-seen 0, open, entries 3\n"),
    ] {
        assert!(rt; ended(&rt, rt.alloc(), hand_in).as_slice() == wanted);
    }
}

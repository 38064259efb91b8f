//! A site that exchanges with one peer over links: what it sent and refused, and what is due then, as text.
ghost use Rattle.std.specs.Prelude.{◌≡◌, ◌<◌};

use crate::books::talked;
use crate::said::{SiteNumbers, book_of, failing_book, message, put, put_due, site};
use history_keeper::ListKeeper;
use link_queue::{Rx, Tx, link};
use plain_words::numbered;
use session_server::{Peer, PeerEnd, exchange_all};
use site_desk::{Desk, Opens, SiteBook};
use std::alloc::Global;
use std::marker::Brand;
use std::process::Abort;
use std::sync::Wait;
use std::sync::ledger::Blank;
use std::thread::Threads;

// What comes from the peer, whether it still takes what comes to it, and for how many rounds it is sent to.
#[derive(Clone, Copy)]
struct Meeting<'a> {
    peer: u64,
    deltas: &'a [&'static [u8]],
    acks: &'a [&'static [u8]],
    is_gone: bool,
    rounds: u64,
}

// The end of a link through which these messages come.
fn link_with<R: Wait + Abort>(rt: &R, alloc: Global, texts: &[&'static [u8]]) -> Rx {
    let (mut tx, rx) = link(alloc, 4).expect(rt, "memory");
    for text in texts {
        assert!(rt; tx.send(rt, message(rt, alloc, text)).is_ok());
    }
    let _ = tx.end(rt);
    rx
}

// The end of a link to the peer, and the other end, which is kept where the peer is not gone.
fn link_to(rt: &impl Abort, alloc: Global, is_gone: bool) -> (Tx, Option<Rx>) {
    let (tx, rx) = link(alloc, 4).expect(rt, "memory");
    if is_gone {
        let _ = rx.end();
        return (tx, None);
    }
    (tx, Some(rx))
}

fn put_end(rt: &impl Abort, end: &PeerEnd, out: &mut Vec<u8>) {
    for (word, number) in [
        (b"deltas put ".as_slice(), end.delta_tx.put()),
        (b" got ", end.delta_rx.got()),
        (b" refused ", end.deltas_refused),
        (b", acks put ", end.ack_tx.put()),
        (b" got ", end.ack_rx.got()),
        (b" refused ", end.acks_refused),
    ] {
        put(rt, out, numbered(word, number).as_slice());
    }
    put(rt, out, b"\n");
}

// Exchanges with such a peer.
fn met_at<R: Threads + Wait + Abort + Sync, L: Opens + Send + Sync>(
    rt: &R,
    alloc: Global,
    book: SiteBook<ListKeeper>,
    blank: Blank,
    meeting: Meeting<'_>,
    out: &mut Vec<u8>,
)
    requires name { blank.name ≡ L.name }
    requires parts { blank.parts ≡ L.parts }
    requires some { 0 < blank.parts }
    requires began { L.began ≡ book.book.history }
    requires office { L.office ≡ book.book.office }
{
    let (desk, _seat) = Desk::<ListKeeper, L>::new(book, blank);
    let to = site(rt, meeting.peer);
    let (delta_tx, _deltas) = link_to(rt, alloc, meeting.is_gone);
    let (ack_tx, _acks) = link_to(rt, alloc, meeting.is_gone);
    let delta_rx = link_with(rt, alloc, meeting.deltas);
    let ack_rx = link_with(rt, alloc, meeting.acks);
    let mut peers = Vec::new(alloc);
    let peer = Peer {
        to,
        delta_tx,
        ack_tx,
        delta_rx,
        ack_rx,
    };
    peers.push(peer).expect(rt, "memory");
    let ends = exchange_all(rt, alloc, &desk, peers, meeting.rounds).expect(rt, "threads");
    for end in &ends {
        put_end(rt, end, out);
    }
    put_due(rt, out, desk.next(rt, alloc, to));
}

// The same at a desk that is made here.
fn met<R: Threads + Wait + Abort + Sync>(
    rt: &R,
    alloc: Global,
    book: SiteBook<ListKeeper>,
    meeting: Meeting<'_>,
) -> Vec<u8> {
    let mut out = Vec::new(alloc);
    met_at::<R, Brand>(rt, alloc, book, Blank::new(1), meeting, &mut out);
    out
}

const ZERO: SiteNumbers = SiteNumbers {
    me: 0,
    among: 2,
    limit: 10,
};

const STRAYS: [&[u8]; 2] = [b"ack 1 0 9\nend\n", b"ack 1 0 9\nend\n"];

#[test]
fn each_stray_acknowledgement_is_counted(rt: HostRuntime) {
    let alloc = rt.alloc();
    let book = book_of(&rt, alloc, ZERO);
    let meeting = Meeting {
        peer: 1,
        deltas: &STRAYS,
        acks: &STRAYS,
        is_gone: false,
        rounds: 0,
    };
    let wanted = b"deltas put 0 got 2 refused 2, acks put 0 got 2 refused 2\nnothing\n";
    assert!(rt; met(&rt, alloc, book, meeting).as_slice() == wanted.as_slice());
}

// Its one entry is due, and its keeper failed at the second.
#[test]
fn a_closed_site_sends_and_takes_nothing(rt: HostRuntime) {
    let alloc = rt.alloc();
    let mut out = Vec::new(alloc);
    let book = failing_book(&rt, alloc, ZERO, 2, false);
    let book = talked(
        &rt,
        alloc,
        book,
        b"announce 1 gala\nannounce 2 expo\n",
        &mut out,
    );
    assert!(rt; out.as_slice() == b"done\nstore\n".as_slice());
    let meeting = Meeting {
        peer: 1,
        deltas: &STRAYS,
        acks: &STRAYS,
        is_gone: false,
        rounds: 1,
    };
    let wanted = b"deltas put 0 got 2 refused 2, acks put 0 got 2 refused 2\nclosed\n";
    assert!(rt; met(&rt, alloc, book, meeting).as_slice() == wanted.as_slice());
}

// Each entry of a delta that comes back stays due, whatever came meanwhile; and a delta that was taken is not refused
// though its acknowledgement comes back.
#[test]
fn a_delta_that_comes_back_stays_due(rt: HostRuntime) {
    let alloc = rt.alloc();
    let book = book_of(&rt, alloc, ZERO);
    let lines = b"announce 1 gala\nrelease 2 gala 100\ncede 3 gala 40 1\n";
    let book = talked(&rt, alloc, book, lines, &mut Vec::new(alloc));
    let deltas = [b"delta 1 0 1\nname expo\nend\n".as_slice()];
    let meeting = Meeting {
        peer: 1,
        deltas: &deltas,
        acks: &[],
        is_gone: true,
        rounds: 2,
    };
    let wanted = b"deltas put 0 got 1 refused 0, acks put 0 got 0 refused 0\n\
        delta 0 1 4\nname expo\nname gala\ngave gala 0 0 100\ngave gala 0 1 40\nend\n";
    assert!(rt; met(&rt, alloc, book, meeting).as_slice() == wanted.as_slice());
}

// A site that sends for one round alone, or for one more, fails here: what is not acknowledged is due in each.
#[test]
fn what_is_not_acknowledged_is_sent_in_each_round(rt: HostRuntime) {
    let alloc = rt.alloc();
    let book = book_of(&rt, alloc, ZERO);
    let book = talked(&rt, alloc, book, b"announce 1 gala\n", &mut Vec::new(alloc));
    let meeting = Meeting {
        peer: 1,
        deltas: &[],
        acks: &[],
        is_gone: false,
        rounds: 3,
    };
    let wanted = b"deltas put 3 got 0 refused 0, acks put 0 got 0 refused 0\n\
        delta 0 1 1\nname gala\nend\n";
    assert!(rt; met(&rt, alloc, book, meeting).as_slice() == wanted.as_slice());
}

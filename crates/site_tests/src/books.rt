//! What a site's book is told and tells, as text.

use crate::said::{
    Say, SiteNumbers, book_of, failing_book, message, put_due, put_grown, put_taken, site, sites,
    try_book_of,
};
use book_core::Book;
use delta_buffer::Pending;
use delta_wire::delta_text;
use history_keeper::ListKeeper;
use session_server::{BookAnswerer, Ended, talk};
use site_desk::SiteBook;
use std::alloc::Global;
use std::process::Abort;
use std::sync::Wait;

// The book behind a session of these lines, which is answered to the end of them.
pub(crate) fn talked(
    rt: &(impl Abort + Wait),
    alloc: Global,
    book: SiteBook<ListKeeper>,
    lines: &[u8],
    out: &mut Vec<u8>,
) -> SiteBook<ListKeeper> {
    let mut answerer = BookAnswerer::new(alloc, book);
    let ended = talk(rt, alloc, lines, out, &mut answerer);
    assert!(rt; ended == Ok(Ended::EndOfInput));
    answerer.into_book()
}

// The book once the message to this site was wanted of it.
pub(crate) fn due(
    rt: &impl Abort,
    alloc: Global,
    mut book: SiteBook<ListKeeper>,
    to: u64,
    out: &mut Vec<u8>,
) -> SiteBook<ListKeeper> {
    put_due(rt, out, book.next(alloc, site(rt, to)));
    book
}

fn restarted(
    alloc: Global,
    office: SiteNumbers,
    book: SiteBook<ListKeeper>,
) -> Option<SiteBook<ListKeeper>> {
    let entries = book.into_keeper().into_entries();
    try_book_of(alloc, office, entries.as_slice())
}

// The book once this was said to it.
fn told(
    rt: &(impl Abort + Wait),
    alloc: Global,
    office: SiteNumbers,
    mut book: SiteBook<ListKeeper>,
    say: Say,
    out: &mut Vec<u8>,
) -> SiteBook<ListKeeper> {
    match say {
        Say::Lines(lines) => return talked(rt, alloc, book, lines, out),
        Say::Message(text) => put_taken(rt, out, book.take(message(rt, alloc, text))),
        Say::Due(to) => return due(rt, alloc, book, to, out),
        Say::Grow(count) => put_grown(rt, out, book.grow(alloc, sites(rt, count))),
        Say::Restart => return restarted(alloc, office, book).expect(rt, "a book, and memory"),
    }
    book
}

// What a book says to all of this.
fn says(
    rt: &(impl Abort + Wait),
    alloc: Global,
    office: SiteNumbers,
    mut book: SiteBook<ListKeeper>,
    all: &[Say],
) -> Vec<u8> {
    let mut out = Vec::new(alloc);
    for say in all {
        book = told(rt, alloc, office, book, *say, &mut out);
    }
    out
}

const ONE: SiteNumbers = SiteNumbers {
    me: 1,
    among: 2,
    limit: 1000,
};

// 50 seats, of which 8 are sold, and messages that no site sent.
#[test]
fn book_meets_messages(rt: HostRuntime) {
    let alloc = rt.alloc();
    let all = [
        Say::Lines(b"announce 1 gala\nrelease 2 gala 50\nsell 3 gala 8\nsell 4 gala 100\n"),
        Say::Message(b"delta 0 1 1\nused gala 1 9\nend\n"),
        Say::Message(b"ack 0 1 9\nend\n"),
        Say::Due(0),
        Say::Message(b"ack 0 1 4\nend\n"),
        Say::Due(0),
        Say::Due(1),
        Say::Due(2),
        Say::Lines(b"left gala\nleft expo\ntotals gala\n"),
    ];
    let wanted = b"done\ndone\ndone\nshort 42\n\
        foreign-row\n\
        stray-ack 4\n\
        delta 1 0 4\nname gala\ngave gala 1 1 50\nused gala 1 8\nend\n\
        acked\n\
        nothing\n\
        no-site\n\
        no-site\n\
        left 42\nunknown\ntotals released 50 sold 8 refunded 0 open 42\n";
    let book = book_of(&rt, alloc, ONE);
    assert!(rt; says(&rt, alloc, ONE, book, &all).as_slice() == wanted.as_slice());
}

// Site 0 cedes 40 of 100 seats, and site 1 sells them.
#[test]
fn cession_goes_from_book_to_book(rt: HostRuntime) {
    let alloc = rt.alloc();
    let zero = SiteNumbers {
        me: 0,
        among: 2,
        limit: 1000,
    };
    let gives = [
        Say::Lines(b"announce 1 gala\nrelease 2 gala 100\ncede 3 gala 40 1\nsell 4 gala 61\n"),
        Say::Due(1),
        Say::Message(b"ack 1 0 2\nend\n"),
        Say::Due(1),
    ];
    let given = b"done\ndone\ndone\nshort 60\n\
        delta 0 1 4\nname gala\ngave gala 0 0 100\ngave gala 0 1 40\nend\n\
        acked\n\
        delta 0 1 4\ngave gala 0 1 40\nend\n";
    let book = book_of(&rt, alloc, zero);
    assert!(rt; says(&rt, alloc, zero, book, &gives).as_slice() == given.as_slice());
    let takes = [
        Say::Message(b"delta 0 1 3\nname gala\ngave gala 0 0 100\ngave gala 0 1 40\nend\n"),
        Say::Message(b"delta 0 1 4\nname gala\ngave gala 0 0 100\ngave gala 0 1 40\nend\n"),
        Say::Lines(b"left gala\nsell 1 gala 40\n"),
        Say::Due(0),
    ];
    let taken = b"joined ack 1 0 3\nend\n\
        nothing-new ack 1 0 4\nend\n\
        left 40\ndone\n\
        delta 1 0 2\nname gala\ngave gala 0 0 100\ngave gala 0 1 40\nused gala 1 40\nend\n";
    let book = book_of(&rt, alloc, ONE);
    assert!(rt; says(&rt, alloc, ONE, book, &takes).as_slice() == taken.as_slice());
}

// What a book says whose second append fails, and which is started again from what its keeper has.
fn closed_and_started(rt: &(impl Abort + Wait), alloc: Global, is_stored: bool) -> Vec<u8> {
    let all = [
        Say::Lines(b"announce 1 gala\nrelease 2 gala 5\nsell 3 gala 1\nleft gala\n"),
        Say::Message(b"ack 0 1 1\nend\n"),
        Say::Due(0),
        Say::Grow(21),
        Say::Restart,
        Say::Lines(b"release 2 gala 5\nleft gala\n"),
        Say::Grow(21),
        Say::Grow(21),
        Say::Due(20),
    ];
    let book = failing_book(rt, alloc, ONE, 2, is_stored);
    says(rt, alloc, ONE, book, &all)
}

// The entry of the append that fails is kept or lost.
#[test]
fn book_is_closed_by_its_keeper_and_starts_again(rt: HostRuntime) {
    let wanted = b"done\nstore\nclosed\nclosed\n\
        closed\n\
        closed\n\
        closed\n\
        done\nleft 5\n\
        grown\n\
        not-more\n\
        delta 1 20 3\nname gala\ngave gala 1 1 5\nend\n";
    assert!(rt; closed_and_started(&rt, rt.alloc(), false).as_slice() == wanted.as_slice());
    assert!(rt; closed_and_started(&rt, rt.alloc(), true).as_slice() == wanted.as_slice());
}

// What is pending once the first two entries of a book were added one by one, as text.
fn pending_of_two(alloc: Global, book: &Book) -> Option<String> {
    let mut pending = Pending::new(alloc);
    pending.add(alloc, book.entry(0)?).ok()?;
    pending.add(alloc, book.entry(1)?).ok()?;
    delta_text(alloc, pending.delta()).ok()
}

// The same of a site's book, which is let go before anything can stop.
fn pending_behind(alloc: Global, book: SiteBook<ListKeeper>) -> Option<String> {
    pending_of_two(alloc, book.book())
}

#[test]
fn entries_are_pending_one_by_one(rt: HostRuntime) {
    let alloc = rt.alloc();
    let lines = b"announce 1 gala\nrelease 2 gala 100\n";
    let book = book_of(&rt, alloc, ONE);
    let book = talked(&rt, alloc, book, lines, &mut Vec::new(alloc));
    let text = pending_behind(alloc, book).expect(&rt, "memory");
    assert!(rt; text.as_str() == "name gala\ngave gala 1 1 100\n");
}

//! Books of several sites over keepers in memory, with ample memory; the expected values are worked out by hand.
ghost use Rattle.std.specs.Prelude.{◌≡◌, IfSome};

use crate::books::Books;
use book_core::{Book, Entry, GrowFault, Limit};
use history_keeper::{ListKeeper, Meta};
use request_ledger::{Reply, Request, RequestNumber};
use rights_lattice::{Amount, Event, SiteId, Sites};
use site_desk::NextFault;
use site_exchange::{Message, TakeFault};
use std::alloc::Global;
use std::process::Abort;
use std::sync::Wait;

fn gala() -> Option<Event> {
    Event::read(b"gala")
}

// What a site replies; none where it does not.
fn reply(
    alloc: Global,
    books: &mut Books<ListKeeper>,
    site: usize,
    number: u64,
    request: Request,
) -> Option<Reply> {
    let number = RequestNumber::of(number)?;
    let answer = books.ask(alloc, site, number, &request)?.ok()?;
    Some(answer.reply)
}

fn sold(
    alloc: Global,
    books: &mut Books<ListKeeper>,
    site: usize,
    number: u64,
    seats: u64,
) -> Option<Reply> {
    let request = Request::Sell {
        event: gala()?,
        amount: Amount::of(seats)?,
    };
    reply(alloc, books, site, number, request)
}

// Two sites that count two; the first has ten seats and cedes six of them to the second.
fn ceded(alloc: Global) -> Option<Books<ListKeeper>> {
    let event = gala()?;
    let mut books = Books::new(alloc);
    for _ in 0..2 {
        let keeper = ListKeeper::new(alloc);
        books
            .add(alloc, keeper, Sites::of(2)?, Limit::greatest())?
            .ok()?;
    }
    let amount = Amount::of(10)?;
    let six = Amount::of(6)?;
    let to = SiteId::of(1)?;
    reply(alloc, &mut books, 0, 1, Request::Announce { event })?;
    reply(alloc, &mut books, 0, 2, Request::Release { event, amount })?;
    let cession = Request::Cede {
        event,
        to,
        amount: six,
    };
    reply(alloc, &mut books, 0, 3, cession)?;
    Some(books)
}

#[test]
fn ceded_seats_are_sold_once(rt: HostRuntime) {
    let alloc = rt.alloc();
    let mut books = ceded(alloc).expect(&rt, "memory");
    let one = SiteId::of(1).expect(&rt, "a site");
    assert!(rt; sold(alloc, &mut books, 1, 1, 1) == Some(Reply::Unknown));
    assert!(rt; books.next(alloc, 0, one) == Some(Ok(true)));
    assert!(rt; books.take(alloc, 1, 0) == Some(Ok(())));
    assert!(rt; books.take(alloc, 1, 0) == Some(Ok(())));
    assert!(rt; books.take(alloc, 0, 1) == Some(Ok(())));
    assert!(rt; books.next(alloc, 0, one) == Some(Ok(false)));
    assert!(rt; sold(alloc, &mut books, 1, 2, 7) == Some(Reply::Short { left: 6 }));
    assert!(rt; sold(alloc, &mut books, 1, 3, 6) == Some(Reply::Done));
    assert!(rt; sold(alloc, &mut books, 0, 4, 5) == Some(Reply::Short { left: 4 }));
    assert!(rt; sold(alloc, &mut books, 0, 5, 4) == Some(Reply::Done));
    assert!(rt; books.messages().len() == 3);
    assert!(rt; matches!(&books.messages()[1], Message::Ack { upto, .. } if upto.entries() == 3));
    assert!(rt; books.into_books().len() == 2);
}

// What a site replies to sales of so many seats, each under its number, asked at once; a request that is refused has no reply.
fn sold_at_once<R: Wait>(
    rt: &R,
    alloc: Global,
    books: &mut Books<ListKeeper>,
    site: usize,
    sales: &[(u64, u64)],
) -> Option<Vec<Option<Reply>>> {
    let event = gala()?;
    let mut requests = Vec::new(alloc);
    for (number, seats) in sales {
        let number = RequestNumber::of(*number)?;
        let amount = Amount::of(*seats)?;
        requests
            .push((number, Request::Sell { event, amount }))
            .ok()?;
    }
    let answers = books.ask_all(rt, alloc, site, requests.as_slice())?.ok()?;
    let mut replies = Vec::new(alloc);
    for answer in &answers {
        let reply = match answer {
            Ok(answer) => Some(answer.reply),
            Err(_) => None,
        };
        replies.push(reply).ok()?;
    }
    Some(replies)
}

// The first site has four seats left. A number that was asked before keeps its reply, and one of another request is refused.
#[test]
fn requests_asked_at_once_are_answered_in_order(rt: HostRuntime) {
    let alloc = rt.alloc();
    let mut books = ceded(alloc).expect(&rt, "memory");
    let sales = [(4, 3), (5, 3), (4, 3), (4, 1), (6, 1)];
    let wanted = [
        Some(Reply::Done),
        Some(Reply::Short { left: 1 }),
        Some(Reply::Done),
        None,
        Some(Reply::Done),
    ];
    let replies = sold_at_once(&rt, alloc, &mut books, 0, &sales).expect(&rt, "memory");
    assert!(rt; replies.as_slice() == wanted.as_slice());
    assert!(rt; books.book(0).is_some_and(|book| book.book().len() == 6));
    assert!(rt; sold_at_once(&rt, alloc, &mut books, 2, &sales).is_none());
}

#[test]
fn sites_and_messages_that_are_not_there(rt: HostRuntime) {
    let alloc = rt.alloc();
    let mut books = ceded(alloc).expect(&rt, "memory");
    let two = Sites::of(2).expect(&rt, "a count");
    let zero = two.site(0);
    assert!(rt; books.add(alloc, ListKeeper::new(alloc), two, Limit::greatest()) == None);
    assert!(rt; sold(alloc, &mut books, 2, 1, 1) == None);
    assert!(rt; books.next(alloc, 0, zero) == Some(Err(NextFault::NoSite)));
    assert!(rt; books.next(alloc, 2, zero) == None);
    assert!(rt; books.take(alloc, 0, 0) == None);
    assert!(rt; books.next(alloc, 0, two.site(1)) == Some(Ok(true)));
    assert!(rt; books.take(alloc, 0, 0) == Some(Err(TakeFault::NotForMe)));
    assert!(rt; books.grow(alloc, 0, two) == Some(Err(GrowFault::NotMore)));
    assert!(rt; books.grow(alloc, 2, two) == None);
    assert!(rt; books.book(1).is_some() && books.book(2).is_none());
}

fn entries_of(alloc: Global, book: &Book) -> Option<Vec<Entry>>
    ensures { IfSome result (λ entries. entries.items ≡ book.now.history) }
{
    let mut entries = Vec::new(alloc);
    for place in 0..book.len() {
        entries.push(book.entry(place)?.copy(alloc).ok()?).ok()?;
    }
    Some(entries)
}

// How long the history of a site is that was asked once and stopped, once it is started again from what its keeper has.
fn length_after_a_stop(alloc: Global) -> Option<usize> {
    let event = gala()?;
    let meta = Meta {
        me: SiteId::of(0)?,
        sites: Sites::of(1)?,
        limit: Limit::greatest(),
    };
    let number = RequestNumber::of(1)?;
    let mut books = Books::new(alloc);
    books
        .add(alloc, ListKeeper::new(alloc), meta.sites, meta.limit)?
        .ok()?;
    let _ = books.ask(alloc, 0, number, &Request::Announce { event });
    let book = books.book(0)?;
    if book.is_closed() {
        return None;
    }
    let kept = entries_of(alloc, book.book())?;
    let entries = entries_of(alloc, book.book())?;
    books
        .restart(alloc, 0, ListKeeper::from(alloc, kept), entries, meta)?
        .ok()?;
    Some(books.book(0)?.book().len())
}

#[test]
fn site_goes_on_after_a_stop(rt: HostRuntime) {
    assert!(rt; length_after_a_stop(rt.alloc()) == Some(1));
}

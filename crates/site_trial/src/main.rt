//! A site that is told what stands in its standard input, piece by piece, over a list in memory: what the trials of forged
//! messages and of refused memory, and the benchmarks of sessions, desks and messages run.
//!
//! The first byte of the input parts its pieces. A piece begins with a mark, and what came of it is written:
//!
//! - `!` with a site's number, a count of sites and a limit begins with an empty book, and writes nothing;
//! - `?` with the lines of a session: its replies;
//! - `=` with the lines of several, each behind a `|`, which are served at one desk at once: the replies of each, and how many
//!   receipts and looks it was given, and whether the history has them all;
//! - `<` with the text of a message: what the site answers, and its acknowledgement;
//! - `>` with a site's number: the message that is due to it;
//! - `~` starts the site again from its list, and writes nothing;
//! - `@` with a number and, behind its line, the text of a message: the message, read and written so often.
//!
//! Where a piece leaves no book, for want of memory or because it is none, the program ends there with status 1.
//!
//! A new piece is a mark, with a branch where the marks are read and a function of its own.
#![tactic(auto)]

ghost use Rattle.std.specs.Prelude.{◌≡◌, IfOk};

use book_core::{Entry, Limit};
use delta_wire::{WireFault, read_message, write_message};
use desk_lines::take_fault_text;
use history_keeper::{ListKeeper, Meta};
use plain_words::{Words, number_at, numbered, word};
use rights_lattice::{SiteId, Sites};
use session_server::{BookAnswerer, SessionEnd, Site, SiteEnd, Visit, run_all, talk};
use site_desk::{NoGate, SiteBook, Taken};
use site_exchange::Message;
use std::alloc::{AllocError, Global};
use std::io;
use std::io::{Read, Write};
use std::process::ExitCode;
use std::sync::Wait;
use std::thread::Threads;

type Book = SiteBook<ListKeeper>;

fn read_all(rt: &HostRuntime) -> io::Result<Vec<u8>> {
    let mut bytes = Vec::new(rt.alloc());
    rt.stdin().read_to_end(&mut bytes)?;
    Ok(bytes)
}

// A site's number, the count of sites, and the limit of its history.
#[derive(Clone, Copy)]
struct SiteNumbers {
    me: u64,
    among: u64,
    limit: u64,
}

fn office_of(text: &[u8]) -> Option<SiteNumbers> {
    let mut words = Words::new(text);
    let me = number_at(&mut words, 0, 63)?;
    let among = number_at(&mut words, 1, 64)?;
    let limit = number_at(&mut words, 1, 1_000_000)?;
    Some(SiteNumbers { me, among, limit })
}

fn meta_of(office: SiteNumbers) -> Option<Meta> {
    Some(Meta {
        me: SiteId::of(office.me)?,
        sites: Sites::of(office.among)?,
        limit: Limit::of(office.limit)?,
    })
}

fn new_book(alloc: Global, text: &[u8]) -> Option<Book> {
    book_of(alloc, office_of(text)?, &[])
}

// The book behind the lines of a session.
fn talked(
    rt: &impl Wait,
    alloc: Global,
    book: Book,
    lines: &[u8],
    out: &mut Vec<u8>,
) -> Option<Book> {
    let mut answerer = BookAnswerer::new(alloc, book);
    if talk(rt, alloc, lines, out, &mut answerer).is_err() {
        out.extend_from_slice(b"ended badly\n").ok()?;
    }
    Some(answerer.into_book())
}

fn copies(alloc: Global, entries: &[Entry]) -> Result<Vec<Entry>, AllocError>
    ensures { IfOk result (λ copies. copies.items ≡ entries.now) }
{
    let mut copies = Vec::new(alloc);
    for entry in entries {
        copies.push(entry.copy(alloc)?)?;
    }
    Ok(copies)
}

// The book of these entries, which its keeper has, where there is memory for it.
fn book_of(alloc: Global, office: SiteNumbers, entries: &[Entry]) -> Option<Book> {
    let meta = meta_of(office)?;
    if meta.me.number() >= meta.sites.count() {
        return None;
    }
    let kept = copies(alloc, entries).ok()?;
    let entries = copies(alloc, entries).ok()?;
    SiteBook::start(alloc, ListKeeper::from(alloc, kept), entries, meta).ok()
}

fn numbers_of(book: &Book) -> SiteNumbers {
    SiteNumbers {
        me: book.book().me().number(),
        among: book.book().sites().count(),
        limit: book.book().limit().entries(),
    }
}

// The book started again from its list, at the second try where memory was refused at the first.
fn restarted(alloc: Global, book: Book) -> Option<Book> {
    let office = numbers_of(&book);
    let entries = book.into_keeper().into_entries();
    match book_of(alloc, office, entries.as_slice()) {
        Some(book) => Some(book),
        None => book_of(alloc, office, entries.as_slice()),
    }
}

// A visit for each of these sessions.
fn visits<'a>(alloc: Global, lines: &'a [u8]) -> Option<Vec<Visit<&'a [u8], Vec<u8>>>> {
    let mut visits = Vec::new(alloc);
    for reader in lines.split(|byte| *byte == b'|') {
        let writer = Vec::new(alloc);
        visits
            .push(Visit {
                id: 0,
                reader,
                writer,
            })
            .ok()?;
    }
    Some(visits)
}

fn only_site<'a>(
    alloc: Global,
    book: Book,
    sessions: Vec<Visit<&'a [u8], Vec<u8>>>,
) -> Option<Vec<Site<ListKeeper, &'a [u8], Vec<u8>>>> {
    let mut sites = Vec::new(alloc);
    sites.push(Site { book, sessions }).ok()?;
    Some(sites)
}

// The book behind several sessions at once.
fn talked_at_once<R: Threads + Wait + Sync>(
    rt: &R,
    alloc: Global,
    book: Book,
    lines: &[u8],
    out: &mut Vec<u8>,
) -> Option<Book> {
    let sites = only_site(alloc, book, visits(alloc, lines)?)?;
    let Ok((mut ends, _links)) = run_all(rt, alloc, sites, 0, 1, &NoGate) else {
        return None;
    };
    behind_all(ends.pop()?, out)
}

// Writes what a session wrote, whether it was broken off, and how much it was given.
fn put_session(session: &SessionEnd<&[u8], Vec<u8>>, out: &mut Vec<u8>) -> Option<()> {
    let written = match &session.writer {
        Some(written) => written.as_slice(),
        None => b"",
    };
    out.extend_from_slice(written).ok()?;
    if session.ended.is_err() {
        out.extend_from_slice(b"ended badly\n").ok()?;
    }
    let receipts = numbered(b"receipts ", session.receipts.len() as u64);
    out.extend_from_slice(receipts.as_slice()).ok()?;
    let looks = numbered(b" looks ", session.seen.len() as u64);
    out.extend_from_slice(looks.as_slice()).ok()?;
    out.extend_from_slice(b"\n").ok()
}

// Writes how the sessions ended, and whether they were given what the history has; it tells whether there was room for it.
fn put_sessions(
    sessions: &[SessionEnd<&[u8], Vec<u8>>],
    is_whole: bool,
    out: &mut Vec<u8>,
) -> bool {
    for session in sessions {
        if put_session(session, out).is_none() {
            return false;
        }
    }
    let word = if is_whole {
        b"whole\n".as_slice()
    } else {
        b"strangers\n"
    };
    out.extend_from_slice(word).is_ok()
}

fn behind_all(end: SiteEnd<ListKeeper, &[u8], Vec<u8>>, out: &mut Vec<u8>) -> Option<Book> {
    let is_put = put_sessions(end.sessions.as_slice(), end.finished.is_ok(), out);
    let SiteEnd { book, .. } = end;
    if is_put { Some(book) } else { None }
}

fn put_message(before: &[u8], message: &Message, out: &mut Vec<u8>) -> Option<()> {
    out.extend_from_slice(before).ok()?;
    write_message(message, out).ok()
}

// Writes why a text is no message.
fn put_unread(fault: WireFault, out: &mut Vec<u8>) -> Option<()> {
    let text = match fault {
        WireFault::Truncated => word(b"truncated"),
        WireFault::BadLine { line } => numbered(b"bad-line ", line),
        WireFault::OutOfOrder { line } => numbered(b"out-of-order ", line),
        WireFault::Trailing => word(b"trailing"),
        WireFault::Memory => word(b"memory"),
    };
    out.extend_from_slice(text.as_slice()).ok()?;
    out.extend_from_slice(b"\n").ok()
}

// Writes what came of a message.
fn take(alloc: Global, book: &mut Book, text: &[u8], out: &mut Vec<u8>) -> Option<()> {
    let message = match read_message(alloc, text) {
        Ok(message) => message,
        Err(fault) => return put_unread(fault, out),
    };
    match book.take(message) {
        Ok(Taken::Joined { ack }) => put_message(b"joined ", &ack, out),
        Ok(Taken::NothingNew { ack }) => put_message(b"nothing-new ", &ack, out),
        Ok(Taken::Acked) => out.extend_from_slice(b"acked\n").ok(),
        Err(fault) => {
            out.extend_from_slice(take_fault_text(fault).as_slice())
                .ok()?;
            out.extend_from_slice(b"\n").ok()
        }
    }
}

// Writes the message that is due to a site.
fn give(alloc: Global, book: &mut Book, text: &[u8], out: &mut Vec<u8>) -> Option<()> {
    let to = SiteId::of(number_at(&mut Words::new(text), 0, 63)?)?;
    match book.next(alloc, to) {
        Ok(Some(message)) => put_message(b"", &message, out),
        Ok(None) => out.extend_from_slice(b"nothing\n").ok(),
        Err(_) => out.extend_from_slice(b"refused\n").ok(),
    }
}

// Writes a message that was read and written so often.
fn copied(alloc: Global, text: &[u8], out: &mut Vec<u8>) -> Option<()> {
    let end = text.iter().position(|byte| *byte == b'\n')?;
    let (count, rest) = text.split_at_checked(end)?;
    let times = number_at(&mut Words::new(count), 1, 1_000_000)?;
    let mut copy = Vec::new(alloc);
    for _ in 0..times {
        copy.clear();
        write_message(&read_message(alloc, rest.get(1..)?).ok()?, &mut copy).ok()?;
    }
    out.extend_from_slice(copy.as_slice()).ok()
}

// The book once it was told a piece that leaves it where it is.
fn told(alloc: Global, mut book: Book, piece: &[u8], out: &mut Vec<u8>) -> Option<Book> {
    let is_told = match piece.split_first() {
        Some((b'<', text)) => take(alloc, &mut book, text, out),
        Some((b'>', text)) => give(alloc, &mut book, text, out),
        Some((b'@', text)) => copied(alloc, text, out),
        _ => None,
    };
    if is_told.is_some() { Some(book) } else { None }
}

// The book behind a piece.
fn behind<R: Threads + Wait + Sync>(
    rt: &R,
    alloc: Global,
    book: Book,
    piece: &[u8],
    out: &mut Vec<u8>,
) -> Option<Book> {
    match piece.split_first() {
        Some((b'!', text)) => new_book(alloc, text),
        Some((b'~', _)) => restarted(alloc, book),
        Some((b'?', lines)) => talked(rt, alloc, book, lines, out),
        Some((b'=', lines)) => talked_at_once(rt, alloc, book, lines, out),
        _ => told(alloc, book, piece, out),
    }
}

// Whether each piece was had.
fn answer<R: Threads + Wait + Sync>(
    rt: &R,
    alloc: Global,
    input: &[u8],
    out: &mut Vec<u8>,
) -> Option<()> {
    let (parting, pieces) = input.split_first()?;
    let mut book = new_book(alloc, b"0 1 1000")?;
    for piece in pieces.split(|byte| *byte == *parting) {
        book = behind(rt, alloc, book, piece, out)?;
    }
    Some(())
}

fn main(rt: HostRuntime) -> io::Result<ExitCode> {
    let input = read_all(&rt)?;
    // Room for what the trials write, so that no answer is lost for want of it.
    let Ok(mut out) = Vec::with_capacity(rt.alloc(), 1 << 16) else {
        return Ok(ExitCode::FAILURE);
    };
    let came = answer(&rt, rt.alloc(), input.as_slice(), &mut out);
    rt.stdout().write_all(out.as_slice())?;
    Ok(if came.is_some() {
        ExitCode::SUCCESS
    } else {
        ExitCode::FAILURE
    })
}

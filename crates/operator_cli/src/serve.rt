//! The command `serve`: the sites of several files at once, with sessions over connections.

ghost use Rattle.std.specs.Prelude.{◌≡◌, ◌≢◌, ◌⊎◌, IfOk, IfErr, IfSome, None, OnOk, length, map, []};
ghost use Rattle.std.specs.List.{AllZip};
ghost use Rattle.std.specs.Io.KnownBytes.{Keeps};
ghost use Rattle.plain_words.specs.Writing.{AppendsFront};
ghost use Rattle.session_server.specs.Visited.{IsSiteLeft, visit_ended};
ghost use Rattle.world_steps.specs.Audit.{books_of};
ghost use Rattle.book_core.specs.Books.{AreNotOversold};
ghost use Rattle.operator_cli.specs.declared.status.Status.TheVariants.{Done, Failed};
ghost use Rattle.operator_cli.specs.declared.command_fault.CommandFault.{CommandFault};
ghost use Rattle.operator_cli.specs.declared.command_fault.CommandFault.TheVariants.{Memory as NoMemory, NotStarted};
ghost use Rattle.operator_cli.specs.Dealt.{AreDealt};
ghost use Rattle.operator_cli.specs.Opened.{FailsFor};
ghost use Rattle.operator_cli.specs.Serving.{ComesTo, EndsServed, end_fault, first_of_all, of_listen_fault};
ghost use Rattle.operator_cli.specs.CommandReply.{FaultTold, command_fault_line};

use crate::audit::print_audit;
use crate::command_fault::CommandFault;
use crate::ending::{ended, tell_fault};
use crate::status::Status;
use book_core::Book;
use history_keeper::Keeper;
use session_server::{ListenFault, Site, SiteEnd, Visit, run_all};
use site_desk::{NoGate, SiteBook};
use std::alloc::{AllocError, Global};
use std::io::{Read, Write};
use std::sync::Wait;
use std::thread::Threads;

// How many messages a link between two sites holds.
const LINK_CAPACITY: usize = 16;

// Each site with no session.
fn unvisited<K: Keeper + Drop, R: Read + Drop, W: Write + Drop>(
    alloc: Global,
    books: Vec<SiteBook<K>>,
) -> Result<Vec<Site<K, R, W>>, AllocError>
    ensures count { IfOk result (λ sites. length sites.items ≡ length books.items) }
    ensures books { IfOk result (λ sites. map (λ s. s.book) sites.items ≡ books.items) }
    ensures empty { IfOk result
        (λ sites. map (λ s. s.sessions.items) sites.items ≡ map (λ _. []) sites.items) }
{
    let mut sites = Vec::new(alloc);
    for book in books {
        let sessions = Vec::new(alloc);
        sites.push(Site { book, sessions })?;
    }
    Ok(sites)
}

// Has each visit come to the site whose place is the visit's own modulo the count of sites.
fn deal<K: Keeper + Drop, R: Read + Drop, W: Write + Drop>(
    visits: Vec<Visit<R, W>>,
    sites: &mut Vec<Site<K, R, W>>,
) -> Result<(), AllocError>
    requires { map (λ s. s.sessions.items) sites.old.items ≡ map (λ _. []) sites.old.items }
    ensures count { OnOk result (length sites.new.items ≡ length sites.old.items) }
    ensures books { OnOk result
        (map (λ s. s.book) sites.new.items ≡ map (λ s. s.book) sites.old.items) }
    ensures dealt { OnOk result
        (AreDealt visits.items (map (λ s. s.sessions.items) sites.new.items)) }
{
    'visits: for (place, visit) in visits.into_iter().enumerate() {
        if let Some(k) = place.checked_rem(sites.len()) {
            sites[k].sessions.push(visit)?;
        }
    }
    Ok(())
}

// What a site's end tells.
fn end_fault<K: Keeper + Drop, R: Read + Drop, W: Write + Drop>(
    end: &SiteEnd<K, R, W>,
) -> Option<CommandFault>
    ensures { result ≡ end_fault end.now.finished end.now.book }
{
    match end.finished {
        Err(fault) => Some(CommandFault::from(fault)),
        Ok(()) if end.book.is_closed() => Some(CommandFault::Closed {
            site: end.book.book().me(),
        }),
        Ok(()) => None,
    }
}

// What the first of these ends tells that tells something.
fn first_fault<K: Keeper + Drop, R: Read + Drop, W: Write + Drop>(
    ends: &[SiteEnd<K, R, W>],
) -> Option<CommandFault>
    ensures { result ≡ first_of_all (map (λ e. end_fault e.finished e.book) ends.now) }
{
    for end in ends {
        if let Some(fault) = end_fault(end) {
            return Some(fault);
        }
    }
    None
}

// The books that are left.
fn books_left<K: Keeper + Drop, R: Read + Drop, W: Write + Drop>(
    alloc: Global,
    ends: &[SiteEnd<K, R, W>],
) -> Result<Vec<&Book>, AllocError>
    ensures { IfOk result (λ books. books_of books.items ≡ map (λ e. e.book.book) ends.now) }
{
    let mut books = Vec::new(alloc);
    for end in ends {
        books.push(end.book.book())?;
    }
    Ok(books)
}

// The ends of these sites once they have run, with their visits.
fn run_sites<
    T: Threads + Wait + Sync,
    K: Keeper + Drop + Send,
    R: Read + Drop + Send,
    V: Write + Drop + Send,
>(
    rt: &T,
    alloc: Global,
    books: Vec<SiteBook<K>>,
    visits: Vec<Visit<R, V>>,
    rounds: u64,
) -> Result<Vec<SiteEnd<K, R, V>>, CommandFault>
    ensures count { IfOk result (λ ends. length ends.items ≡ length books.items) }
    ensures visits { IfOk result (λ ends.
        AreDealt visits.items (map (λ e. map visit_ended e.sessions.items) ends.items)) }
    ensures left { IfOk result (λ ends. AllZip (λ book end.
        IsSiteLeft book.book end.book.book end.sessions.items end.finished)
        books.items ends.items) }
    ensures fault { IfErr result (λ fault. (fault ≡ NoMemory) ⊎ (fault ≡ NotStarted)) }
{
    let mut sites = unvisited(alloc, books)?;
    deal(visits, &mut sites)?;
    let (ends, _links) = run_all(rt, alloc, sites, rounds, LINK_CAPACITY, &NoGate)?;
    Ok(ends)
}

// Prints the audit of the books that are left, unless an end tells something.
fn summed_up<K: Keeper + Drop, R: Read + Drop, V: Write + Drop, W: Write>(
    alloc: Global,
    ends: &[SiteEnd<K, R, V>],
    out: &mut W,
) -> Result<Status, CommandFault>
    ensures came { ComesTo (map (λ e. e.book.book) ends.now)
        (first_of_all (map (λ e. end_fault e.finished e.book) ends.now))
        (W.contents out.old) (W.contents out.new) result }
    ensures not_oversold { IfOk result
        (λ status. status ≡ Done → AreNotOversold (map (λ e. e.book.book) ends.now)) }
    ensures lives { IfOk result (λ status. status ≢ Failed) }
{
    if let Some(fault) = first_fault(ends) {
        return Err(fault);
    }
    let books = books_left(alloc, ends)?;
    print_audit(alloc, books.as_slice(), out)
}

/// Runs the sites of these books at once, with the visits and with links among them, and then prints a line for each event
/// that a site knows, with what all sites released, sold and took back of it, as an audit does.
///
/// The visit at each place, from 0, comes to the site of the book at this place modulo the count of books, where there is
/// one. Each site sends what is due to each other for so many rounds, over links that hold 16 messages. A session's own
/// fault changes nothing here; one that could not have a thread has an end without its writer, and only then may seats be
/// out. Once all sites have come to their end, the first of them whose sessions were not given what its history holds, or
/// whose book is closed, is told on `err`, with status 3, and nothing is printed: `seats-out`, `stranger K`,
/// `stranger-seen K` or `closed S`. So are want of memory and a thread of a site or of its exchange that could not be
/// started; and a writer that fails, behind which a front may be printed. The ends of all sites come back, in the order of
/// the books, each with the visits that came to it and a book whose history goes on from the one that was handed in, with
/// no more new requests than receipts were given (unless seats are out); none do where the sites could not be run, or where
/// there was no memory to gather their ends. What becomes of their records then no contract says; that the files keep what
/// was entered is tested.
pub fn serve_stores<
    T: Threads + Wait + Sync,
    K: Keeper + Drop + Send,
    R: Read + Drop + Send,
    V: Write + Drop + Send,
    W: Write,
    E: Write,
>(
    rt: &T,
    alloc: Global,
    books: Vec<SiteBook<K>>,
    visits: Vec<Visit<R, V>>,
    rounds: u64,
    out: &mut W,
    err: &mut E,
) -> (Status, Option<Vec<SiteEnd<K, R, V>>>)
    ensures count { IfSome result.1 (λ ends. length ends.items ≡ length books.items) }
    ensures visits { IfSome result.1 (λ ends.
        AreDealt visits.items (map (λ e. map visit_ended e.sessions.items) ends.items)) }
    ensures left { IfSome result.1 (λ ends. AllZip (λ book end.
        IsSiteLeft book.book end.book.book end.sessions.items end.finished)
        books.items ends.items) }
    ensures ran { IfSome result.1 (λ ends. EndsServed (map (λ e. e.book.book) ends.items)
        (first_of_all (map (λ e. end_fault e.finished e.book) ends.items)) (W.contents out.old)
        (W.contents out.new) (E.contents err.old) (E.contents err.new) result.0) }
    ensures not_oversold { result.0 ≡ Done
        → IfSome result.1 (λ ends. AreNotOversold (map (λ e. e.book.book) ends.items)) }
    ensures lost { result.1 ≡ None → (result.0 ≡ Failed)
        × Keeps (W.contents out.old) (W.contents out.new) × FailsFor (λ fault. (fault ≡ NoMemory)
        ⊎ (fault ≡ NotStarted)) (E.contents err.old) (E.contents err.new) result.0 }
    ensures err { FaultTold (E.contents err.old) (E.contents err.new) result.0 }
{
    match run_sites(rt, alloc, books, visits, rounds) {
        Ok(ends) => {
            let came = summed_up(alloc, ends.as_slice(), out);
            (ended(came, out, err), Some(ends))
        }
        Err(fault) => (ended(Err(fault), out, err), None),
    }
}

/// Tells why no connections were taken: `bind`, `accept` or `memory`, with status 3.
pub fn tell_listen_fault<E: Write>(fault: ListenFault, err: &mut E) -> Status
    ensures line { AppendsFront
        (E.contents err.old) (E.contents err.new) (command_fault_line (of_listen_fault fault)) }
    ensures status { result ≡ Failed }
{
    tell_fault(CommandFault::from(fault), err)
}

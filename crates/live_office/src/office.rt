//! A site's office, from its opening to its closing.

ghost use Rattle.std.specs.Prelude.{◌≡◌, [], ◌<◌, ◌≤◌, ◌+◌, IfErr, true, vec_len, vec_capacity};
ghost use Rattle.site_desk.specs.Moments.{IsLater};
ghost use Rattle.site_desk.specs.Seats.{parts_of};
ghost use Rattle.live_office.specs.Handed.{book_in};
ghost use Rattle.live_office.specs.declared.office.OfficeFault.TheVariants.{Memory};
ghost use Rattle.live_office.specs.declared.office.TheConstants.{WORKERS};

use crate::callers::Callers;
use crate::closing::Closing;
use crate::door::Door;
use crate::gauge::Gauge;
use crate::shared::Shared;
use crate::sparing::Sparing;
use crate::together::Together;
use crate::workers::{CLERK_THREADS, OPERATOR_THREADS, OfficeDoors, work_all};
use history_keeper::Keeper;
use site_desk::{Desk, Opens, Seat, SiteBook};
use std::alloc::Global;
use std::io::{Read, Write};
use std::marker::Brand;
use std::sync::Wait;
use std::sync::ledger::Blank;
use std::thread;
use std::thread::Threads;
use std::time::Clock;
use thiserror::Error;

/// Why an office did not stay open.
#[derive(Clone, Copy, PartialEq, Eq, Debug, Error)]
pub enum OfficeFault {
    /// No caller came in, and the book is as it was.
    #[error("out of memory")]
    Memory,
    /// Not all threads could be started, and the office closed again.
    #[error("a thread could not be started")]
    NotStarted,
}

const WORKERS: u32 = CLERK_THREADS + OPERATOR_THREADS;

// Runs the threads of an office, and gathers their seats. False where not all were started.
fn staffed<
    T: Threads + Wait + Clock + Sync,
    R: Read + Drop + Send,
    W: Write + Drop + Send,
    C: Door<R, W> + Sync,
    O: Door<R, W> + Sync,
    K: Keeper + Drop + Send,
    L: Opens + Send + Sync,
>(
    rt: &T,
    doors: &OfficeDoors<'_, K, L, C, O>,
    seat: Seat<L>,
    mut seats: Vec<Seat<L>>,
) -> (bool, Vec<Seat<L>>)
    requires parts { WORKERS < seat.parts }
    requires room { (seats.items ≡ []) × (WORKERS + 1 ≤ vec_capacity seats) }
    ensures { result.0 ≡ true → parts_of result.1.items ≡ seat.parts }
{
    thread::scope(
        thread::scope_env(),
        rt,
        move |scope| -> (bool, Vec<Seat<L>>)
            requires { (WORKERS < seat.parts) × (seats.items ≡ []) × (WORKERS + 1 ≤
                vec_capacity seats) }
            ensures { result.0 ≡ true → parts_of result.1.items ≡ seat.parts }
        {
            let all = work_all(scope, rt, doors, seat, WORKERS, &mut seats);
            (all, seats)
        },
    )
}

// The book of a desk whose seats are all back: then no fault is possible, since there is no receipt and no look.
fn whole_book<K: Keeper + Drop, L: Opens>(desk: Desk<K, L>, seats: Vec<Seat<L>>) -> SiteBook<K>
    requires { parts_of seats.items ≡ L.parts }
    ensures later { IsLater L.office L.began result.book }
{
    match desk.finish(seats, &[], &[]) {
        Ok(book) => book,
        Err(_) => unreachable!(),
    }
}

// The book of a desk some of whose seats are lost.
fn book_of<K: Keeper + Drop, L: Opens>(desk: Desk<K, L>, seats: Vec<Seat<L>>) -> SiteBook<K>
    ensures later { IsLater L.office L.began result.book }
{
    match desk.finish(seats, &[], &[]) {
        Ok(book) => book,
        Err((book, _)) => book,
    }
}

fn at_desk<
    T: Threads + Wait + Clock + Sync,
    R: Read + Drop + Send,
    W: Write + Drop + Send,
    C: Door<R, W> + Sync,
    O: Door<R, W> + Sync,
    K: Keeper + Drop + Send,
    L: Opens + Send + Sync,
>(
    rt: &T,
    alloc: Global,
    book: SiteBook<K>,
    blank: Blank,
    clerks: &C,
    operators: &O,
    closing: &Closing,
    gauge: &Gauge,
    sparing: Sparing,
) -> Result<SiteBook<K>, (SiteBook<K>, OfficeFault)>
    requires blank { (blank.name ≡ L.name) × (blank.parts ≡ L.parts) × (WORKERS < blank.parts) }
    requires site { (L.began ≡ book.book.history) × (L.office ≡ book.book.office) }
    ensures later { IsLater book.book.office book.book.history (book_in result).book }
    ensures memory { IfErr result (λ e. e.1 ≡ Memory → e.0 ≡ book) }
{
    let Ok(seats) = Vec::with_capacity(alloc, WORKERS as usize + 1) else {
        return Err((book, OfficeFault::Memory));
    };
    let (desk, seat) = Desk::<K, L>::new(book, blank);
    let together = Together::new(alloc);
    let callers = Callers::new();
    let shared = Shared {
        alloc,
        desk: &desk,
        together: &together,
        closing,
        callers: &callers,
        gauge,
        sparing,
    };
    let doors = OfficeDoors {
        shared: &shared,
        clerks,
        operators,
    };
    let (all, seats) = staffed(rt, &doors, seat, seats);
    if all {
        return Ok(whole_book(desk, seats));
    }
    Err((book_of(desk, seats), OfficeFault::NotStarted))
}

/// Opens a site's office, which spares its history so: callers at the two doors are served, each by a thread, until one
/// of them says `close`, the store fails, or a thread could not be started. Then all threads are joined, and the book is returned. It is closed
/// where the store failed. The gauge shows meanwhile how long the history is.
///
/// Errors return the book too: with `Memory` as it was; with `NotStarted` it may have new entries.
pub fn open_office<
    T: Threads + Wait + Clock + Sync,
    R: Read + Drop + Send,
    W: Write + Drop + Send,
    C: Door<R, W> + Sync,
    O: Door<R, W> + Sync,
    K: Keeper + Drop + Send,
>(
    rt: &T,
    alloc: Global,
    book: SiteBook<K>,
    clerks: &C,
    operators: &O,
    closing: &Closing,
    gauge: &Gauge,
    sparing: Sparing,
) -> Result<SiteBook<K>, (SiteBook<K>, OfficeFault)>
    ensures later { IsLater book.book.office book.book.history (book_in result).book }
    ensures memory { IfErr result (λ e. e.1 ≡ Memory → e.0 ≡ book) }
{
    at_desk::<T, R, W, C, O, K, Brand>(
        rt,
        alloc,
        book,
        Blank::new(u64::from(WORKERS) + 1),
        clerks,
        operators,
        closing,
        gauge,
        sparing,
    )
}

//! The commands over two copies of the records of a site: `pair`, `alone`, and those over the book of both.

ghost use Rattle.std.specs.Prelude.{◌≡◌, ◌⊎◌, None, IfOk, IfErr, IfSome, OnOk, true, false};
ghost use Rattle.std.specs.Io.KnownBytes.{Appends, Keeps};
ghost use Rattle.plain_words.specs.Writing.{AppendsFront};
ghost use Rattle.paired_records.specs.Marks.{AreOfOnePairing, is_marked};
ghost use Rattle.site_desk.specs.Moments.{IsLater};
ghost use Rattle.operator_cli.specs.Commands.{Grows, Imports};
ghost use Rattle.operator_cli.specs.Copies.{IsBookOfCopies, IsLookedAt, Marks, RefusesMark, RefusesPairing, TellsRefusal, TellsUnmarked, Unmarks, WereAsked};
ghost use Rattle.operator_cli.specs.Copies.{of_keep_fault, of_mark_fault, outcome_of_pair};
ghost use Rattle.operator_cli.specs.Offices.{open_line};
ghost use Rattle.operator_cli.specs.Opened.{CannotOpen};
ghost use Rattle.operator_cli.specs.Outcomes.{Ends, IsFailed, IsPrinted};
ghost use Rattle.operator_cli.specs.Session.{BookRan, KeepsHistory};
ghost use Rattle.operator_cli.specs.CommandReply.{FaultTold};
ghost use Rattle.operator_cli.specs.declared.outcome.Outcome.TheVariants.{Tells};
ghost use Rattle.operator_cli.specs.declared.told.CommandReply.TheVariants.{AlreadyThere, NotPaired, Paired, SameFile};
ghost use Rattle.operator_cli.specs.declared.status.Status.TheVariants.{Done, Failed};
ghost use Rattle.operator_cli.specs.declared.command_fault.CommandFault.TheVariants.{OneOfTwo};

use crate::ask::status_of;
use crate::command_fault::CommandFault;
use crate::ending::{ended, tell_fault};
use crate::grow::outcome_of_grow;
use crate::import::take_input;
use crate::office::{office_end, say_open};
use crate::opening::{of_open_fault, of_replay_fault, open_book};
use crate::outcome::{Outcome, print_outcome};
use crate::status::Status;
use crate::told::CommandReply;
use history_keeper::{KeepFault, Keeper};
use live_office::{Closing, Door, Gauge, Sparing, open_office};
use mirrored_records::Survivor;
use paired_records::{
    MarkFault, Pair, PairFault, are_of_one_pairing, is_one_of_two, mark, open_pair, unmark,
};
use rights_lattice::Sites;
use session_server::{BookAnswerer, talk};
use site_desk::SiteBook;
use sqlite::{Alter, Connection};
use std::alloc::Global;
use std::io::{Read, Write};
use std::sync::Wait;
use std::thread::Threads;
use std::time::Clock;

/// Tells on `err` that a database is one of two copies, which no command opens alone: `one-of-two`, with status 3. None if it
/// is not.
pub fn refuse_one_of_two<S: Alter, E: Write>(conn: &Connection<S>, err: &mut E) -> Option<Status>
    ensures alone { result ≡ None
        → (is_marked conn.now.schema ≡ false) × (E.contents err.new ≡ E.contents err.old) }
    ensures refused { IfSome result (λ status. (is_marked conn.now.schema ≡ true)
        × IsFailed OneOfTwo (E.contents err.old) (E.contents err.new) status) }
{
    if is_one_of_two(conn) {
        return Some(tell_fault(CommandFault::OneOfTwo, err));
    }
    None
}

fn of_mark_fault(fault: MarkFault) -> CommandFault
    ensures { result ≡ of_mark_fault fault }
{
    match fault {
        MarkFault::Memory => CommandFault::Memory,
        MarkFault::Disk => CommandFault::Disk,
    }
}

// The database of records that are those of a site, with a legal history.
fn looked_at<S: Alter + Drop>(
    alloc: Global,
    conn: Connection<S>,
) -> Result<Connection<S>, (CommandFault, Option<Connection<S>>)>
    ensures looked { IfOk result (IsLookedAt S.Store conn) }
    ensures fault { IfErr result (λ e. CannotOpen S.Store conn e.0 e.1) }
{
    let book = open_book(alloc, conn)?;
    Ok(book.into_keeper().close())
}

// The records of a site, marked. An error gives them back, but for those that are not opened.
fn marked<S: Alter + Drop>(
    alloc: Global,
    conn: Connection<S>,
    file: &str,
    copy: &str,
) -> Result<Connection<S>, (CommandFault, Option<Connection<S>>)>
    ensures marks { IfOk result (Marks S.Store conn file.now copy.now) }
    ensures refused { IfErr result
        (λ e. RefusesMark S.Store conn file.now copy.now e.0 e.1) }
{
    if is_one_of_two(&conn) {
        return Err((CommandFault::OneOfTwo, Some(conn)));
    }
    let mut conn = looked_at(alloc, conn)?;
    match mark(&mut conn, file, copy) {
        Ok(()) => Ok(conn),
        Err(fault) => Err((of_mark_fault(fault), Some(conn))),
    }
}

/// Marks the records of a site as one of two copies, of which `copy` is to be the other, before that is made. Nothing is
/// printed.
///
/// Records that have the mark (`one-of-two`) and those that are not opened or not marked are told on `err`, with status 3,
/// and come back unless their opening was refused. The first are as they were; of others a crash leaves the mark or not.
pub fn mark_store<S: Alter + Drop, E: Write>(
    alloc: Global,
    conn: Connection<S>,
    file: &str,
    copy: &str,
    err: &mut E,
) -> Result<Connection<S>, (Status, Option<Connection<S>>)>
    ensures marks { IfOk result (Marks S.Store conn file.now copy.now) }
    ensures silent { OnOk result (E.contents err.new ≡ E.contents err.old) }
    ensures told { IfErr result (λ e. TellsUnmarked S.Store conn file.now copy.now
        (E.contents err.old) (E.contents err.new) e.0 e.1) }
{
    match marked(alloc, conn, file, copy) {
        Ok(conn) => Ok(conn),
        Err((fault, conn)) => Err((tell_fault(fault, err), conn)),
    }
}

/// Tells that the other copy is made: `paired`.
pub fn tell_paired<W: Write, E: Write>(out: &mut W, err: &mut E) -> Status
    ensures { IsPrinted (Tells Paired) (W.contents out.old) (W.contents out.new)
        (E.contents err.old) (E.contents err.new) result }
{
    print_outcome(&Outcome::Tells(CommandReply::Paired), out, err)
}

/// Tells that both paths lead to the same file, of which there is no copy: `same-file`, with status 1.
pub fn refuse_same_file<W: Write, E: Write>(out: &mut W, err: &mut E) -> Status
    ensures { IsPrinted (Tells SameFile) (W.contents out.old) (W.contents out.new)
        (E.contents err.old) (E.contents err.new) result }
{
    print_outcome(&Outcome::Tells(CommandReply::SameFile), out, err)
}

/// Tells that there is a file where the copy is to be made: `already-there`, with status 1.
pub fn refuse_copy<W: Write, E: Write>(out: &mut W, err: &mut E) -> Status
    ensures { IsPrinted (Tells AlreadyThere) (W.contents out.old) (W.contents out.new)
        (E.contents err.old) (E.contents err.new) result }
{
    print_outcome(&Outcome::Tells(CommandReply::AlreadyThere), out, err)
}

/// Tells that a copy is named of a file that is not one of two: `not-paired`, with status 1.
pub fn refuse_unpaired<W: Write, E: Write>(out: &mut W, err: &mut E) -> Status
    ensures { IsPrinted (Tells NotPaired) (W.contents out.old) (W.contents out.new)
        (E.contents err.old) (E.contents err.new) result }
{
    print_outcome(&Outcome::Tells(CommandReply::NotPaired), out, err)
}

fn take_mark_off<S: Alter>(conn: &mut Connection<S>) -> Outcome
    ensures { Unmarks S.Store conn.old conn.new result }
{
    if !is_one_of_two(conn) {
        return Outcome::Tells(CommandReply::NotPaired);
    }
    match unmark(conn) {
        Ok(()) => Outcome::Tells(CommandReply::Alone),
        Err(fault) => Outcome::Fails(of_mark_fault(fault)),
    }
}

/// Takes the mark off records that are one of two copies, and prints `alone`: who asks it says that the other copy is lost
/// for good. `not-paired`, with status 1, if they have no mark, which changes nothing.
///
/// `memory` and `disk` are told on `err`, with status 3. A crash leaves the records with the mark or without.
pub fn alone_store<S: Alter, W: Write, E: Write>(
    conn: &mut Connection<S>,
    out: &mut W,
    err: &mut E,
) -> Status
    ensures { Ends (Unmarks S.Store conn.old conn.new) (W.contents out.old)
        (W.contents out.new) (E.contents err.old) (E.contents err.new) result }
{
    let outcome = take_mark_off(conn);
    print_outcome(&outcome, out, err)
}

fn of_keep_fault(fault: KeepFault) -> CommandFault
    ensures { result ≡ of_keep_fault fault }
{
    match fault {
        KeepFault::Memory => CommandFault::Memory,
        KeepFault::Disk | KeepFault::Shut => CommandFault::Disk,
    }
}

fn outcome_of_pair(fault: PairFault) -> Outcome
    ensures { result ≡ outcome_of_pair fault }
{
    match fault {
        PairFault::NotPaired => Outcome::Tells(CommandReply::NotPaired),
        PairFault::OtherSite => Outcome::Tells(CommandReply::OtherSite),
        PairFault::Differs { place } => Outcome::Tells(CommandReply::Differs {
            place: place as u64,
        }),
        PairFault::Opening { fault } => Outcome::Fails(of_open_fault(fault)),
        PairFault::Short { fault } => Outcome::Fails(of_keep_fault(fault)),
        PairFault::Replay { fault } => Outcome::Fails(of_replay_fault(fault)),
    }
}

// Why two databases are not of one pairing, as far as that was read; None if they are.
fn refused_pairing<S: Alter>(
    first: &mut Connection<S>,
    second: &mut Connection<S>,
) -> Option<Outcome>
    ensures paired { result ≡ None
        → AreOfOnePairing S.Store first.old first.new second.old second.new }
    ensures refused { IfSome result
        (RefusesPairing S.Store first.old first.new second.old second.new) }
    ensures left { WereAsked S.Store first.old first.new second.old second.new }
{
    match are_of_one_pairing(first, second) {
        Ok(true) => None,
        Ok(false) => Some(Outcome::Tells(CommandReply::NotPaired)),
        Err(fault) => Some(Outcome::Fails(of_mark_fault(fault))),
    }
}

/// The book of two copies. The longer is the site, and the shorter is brought up before anything is printed.
///
/// `not-paired` if they are not of one pairing, `other-site`, and `differs K` if neither extends the other, with status 1,
/// change nothing. A fault is told on `err`, with status 3. Both come back, but for one that is not opened.
pub fn open_copies<S: Alter + Drop, V: Survivor, W: Write, E: Write>(
    alloc: Global,
    mut first: Connection<S>,
    mut second: Connection<S>,
    out: &mut W,
    err: &mut E,
) -> Result<SiteBook<Pair<S, V>>, (Status, Option<Connection<S>>, Option<Connection<S>>)>
    ensures opened { IfOk result (IsBookOfCopies S.Store first second V.is_first) }
    ensures silent { OnOk result (Keeps (W.contents out.old) (W.contents out.new)
        × Keeps (E.contents err.old) (E.contents err.new)) }
    ensures told { IfErr result (λ e. TellsRefusal S.Store first second V.is_first e.1 e.2
        (W.contents out.old) (W.contents out.new) (E.contents err.old) (E.contents err.new) e.0) }
{
    if let Some(outcome) = refused_pairing(&mut first, &mut second) {
        let status = print_outcome(&outcome, out, err);
        return Err((status, Some(first), Some(second)));
    }
    match open_pair::<S, V>(alloc, first, second) {
        Ok(book) => Ok(book),
        Err((first, second, fault)) => {
            let status = print_outcome(&outcome_of_pair(fault), out, err);
            Err((status, first, second))
        }
    }
}

/// Answers the session lines of the input, as `ask_store` does, over any store: the book comes back.
pub fn ask_site<T: Wait, K: Keeper + Drop, R: Read + Drop, W: Write, E: Write>(
    rt: &T,
    alloc: Global,
    book: SiteBook<K>,
    input: R,
    out: &mut W,
    err: &mut E,
) -> (Status, SiteBook<K>)
    ensures { BookRan K.Keeper book result.1 (R.remaining input) (W.contents out.old)
        (W.contents out.new) (E.contents err.old) (E.contents err.new) result.0 }
{
    let mut answerer = BookAnswerer::new(alloc, book);
    let came = talk(rt, alloc, input, out, &mut answerer);
    let status = ended(status_of(came), out, err);
    let book = answerer.into_book();
    // What the book says of its keeper.
    let _closed = book.is_closed();
    (status, book)
}

/// Takes the one message that the input is, as `import_store` does, over any store.
pub fn import_site<K: Keeper, R: Read + Drop, W: Write, E: Write>(
    alloc: Global,
    book: &mut SiteBook<K>,
    input: R,
    out: &mut W,
    err: &mut E,
) -> Status
    ensures { Ends (Imports K.Keeper (R.remaining input) book.old book.new) (W.contents out.old)
        (W.contents out.new) (E.contents err.old) (E.contents err.new) result }
{
    let outcome = take_input(alloc, book, input);
    print_outcome(&outcome, out, err)
}

/// Has the site count so many sites from here on, as `grow_store` does, over any store.
pub fn grow_site<K: Keeper, W: Write, E: Write>(
    alloc: Global,
    book: &mut SiteBook<K>,
    sites: Sites,
    out: &mut W,
    err: &mut E,
) -> Status
    ensures { Ends (Grows K.Keeper sites book.old book.new) (W.contents out.old)
        (W.contents out.new) (E.contents err.old) (E.contents err.new) result }
{
    let called = book.grow(alloc, sites);
    print_outcome(&outcome_of_grow(called), out, err)
}

/// Keeps the office of a site open, as `office_store` does, over any store: the book comes back.
pub fn office_site<
    T: Threads + Wait + Clock + Sync,
    K: Keeper + Drop + Send,
    R: Read + Drop + Send,
    V: Write + Drop + Send,
    C: Door<R, V> + Sync,
    O: Door<R, V> + Sync,
    W: Write,
    E: Write,
>(
    rt: &T,
    alloc: Global,
    book: SiteBook<K>,
    port: u16,
    file: &str,
    clerks: &C,
    operators: &O,
    closing: &Closing,
    gauge: &Gauge,
    sparing: Sparing,
    out: &mut W,
    err: &mut E,
) -> (Status, SiteBook<K>)
    ensures line { AppendsFront (W.contents out.old) (W.contents out.new)
        (open_line port file.now) }
    ensures all { result.0 ≡ Done → Appends (W.contents out.old) (W.contents out.new)
        (open_line port file.now) }
    ensures later { IsLater book.book.office book.book.history result.1.book }
    ensures open { result.0 ≡ Done → result.1.closed ≡ false }
    ensures holds { result.0 ≡ Done → KeepsHistory K.Keeper result.1 }
    ensures told { FaultTold (E.contents err.old) (E.contents err.new) result.0 }
    ensures status { (result.0 ≡ Done) ⊎ (result.0 ≡ Failed) }
{
    if let Err(fault) = say_open(port, file, out) {
        return (ended(Err(fault), out, err), book);
    }
    match open_office(rt, alloc, book, clerks, operators, closing, gauge, sparing) {
        Ok(book) => (ended(office_end(&book), out, err), book),
        Err((book, fault)) => (ended(Err(CommandFault::from(fault)), out, err), book),
    }
}

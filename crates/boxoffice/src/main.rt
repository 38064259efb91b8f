//! The program `boxoffice`: box offices at several sites that sell the same seats.
//!
//! A thin main: it reads the arguments, opens and closes files as databases, takes connections, and hands all of it to
//! `operator_cli`, whose commands run over any store. `Shelf` is where databases are opened and closed; `files.rt` and
//! `connections.rt` have the file's checks and the ends of connections, and `offices.rt` what goes to an open office.
//!
//! Guaranteed: the connection that a command gets shows the database that the file and its log held, whatever they
//! held at first, or an empty one where they held none. Not proved, but tested on the built program: that the right
//! streams, files and arguments are passed on, and what closing leaves of the files.
//!
//! A new command is a branch of `run_order` here, and of `visited` in `offices.rt` if an open office answers it; its
//! arguments and all else are `operator_cli`'s.
#![tactic(auto)]

mod backup;
mod connections;
mod copies;
mod doors;
mod files;
mod office;
mod offices;
mod serving;
mod watch;

use crate::backup::run_backup;
use crate::copies::{InStep, Looking, Single, run_alone, run_pair};
use crate::doors::Socket;
use crate::files::{FileFault, Files, close, failed, open_or_make, open_there};
use crate::office::run_open;
use crate::offices::visited;
use crate::serving::{run_serve, run_serve_copies};
use book_core::Limit;
use operator_cli::{
    FileNames, Order, Status, WordsFault, ask_store, events_store, export_store, find_store,
    grow_store, import_store, init_store, list_store, migrate_store, open_store, read_words,
    refuse_site, shares_store, status_store, tell_close_fault, tell_version, world_script,
};
use request_ledger::RequestNumber;
use rights_lattice::{SiteId, Sites};
use site_desk::SiteBook;
use sql_records::Records;
use sqlite::{Alter, Connection};
use sqlite_disk::Disk;
use sqlite_std_file::{Start, Unknown};
use sqlite_store::FileStore;
use std::alloc::{AllocError, Global};
use std::env;
use std::io::{self, BufWriter, ErrorKind, Stdout};
use std::net::{Net, TcpListener, TcpStream};
use std::process::ExitCode;
use std::rt::Files as Paths;
use std::sync::Wait;
use std::thread::Threads;
use std::time::Clock;

/// Where databases are opened and closed, each by a connection. The commands run over any, whatever store it stands in, so
/// that no proof of a command speaks of files.
pub(crate) trait Shelf<C> {
    /// Opens a database that is there. A fault is told.
    fn open_there(&self, rt: &HostRuntime, path: &str) -> Result<C, Status>;

    /// Opens a database, or makes it. A fault is told.
    fn open_or_make(&self, rt: &HostRuntime, path: &str) -> Result<C, Status>;

    /// The status of a command that came to this and gave its connection back, which is closed unless it failed.
    fn close(&self, rt: &HostRuntime, came: (Status, Option<C>)) -> Status;
}

/// What a file and its log are taken to hold as the program opens them, whichever file it is.
trait Begins {
    type First: Start + Send;

    fn first(&self) -> Self::First;
}

/// Nothing is known of it here.
struct Unread;

impl Begins for Unread {
    type First = Unknown;

    fn first(&self) -> Unknown {
        Unknown
    }
}

/// Files by their paths.
struct ByPath<B>(B);

impl<F: Start, B: Begins<First = F>> Shelf<Connection<Files<F>>> for ByPath<B> {
    fn open_there(&self, rt: &HostRuntime, path: &str) -> Result<Connection<Files<F>>, Status> {
        open_there(rt, path, self.0.first())
    }

    fn open_or_make(&self, rt: &HostRuntime, path: &str) -> Result<Connection<Files<F>>, Status> {
        open_or_make(rt, path, self.0.first())
    }

    fn close(&self, rt: &HostRuntime, came: (Status, Option<Connection<Files<F>>>)) -> Status {
        close(rt, came)
    }
}

pub(crate) fn out_of_memory(rt: &HostRuntime) -> Status {
    let _ = eprintln!(rt; "memory");
    Status::Failed
}

pub(crate) fn not_read(rt: &HostRuntime) -> Status {
    let _ = eprintln!(rt; "read");
    Status::Failed
}

fn not_unicode(rt: &HostRuntime) -> Status {
    let _ = eprintln!(rt; "error: invalid UTF-8 was detected in one or more arguments");
    Status::NotUnderstood
}

pub(crate) fn buffered(rt: &HostRuntime) -> Result<BufWriter<Stdout>, Status> {
    match BufWriter::new(rt.alloc(), rt.stdout()) {
        Ok(out) => Ok(out),
        Err(_) => Err(out_of_memory(rt)),
    }
}

fn run_world(rt: &HostRuntime) -> Result<Status, Status> {
    let mut out = buffered(rt)?;
    Ok(world_script(rt.alloc(), rt.stdin(), &mut out, &mut rt.stderr()))
}

fn run_init<S: Alter + Drop, H: Shelf<Connection<S>>>(
    rt: &HostRuntime,
    file: &str,
    me: SiteId,
    sites: Sites,
    limit: Limit,
    shelf: &H,
) -> Result<Status, Status> {
    let mut out = rt.stdout();
    let mut err = rt.stderr();
    if me.number() >= sites.count() {
        return Ok(refuse_site(&mut out, &mut err));
    }
    let mut conn = shelf.open_or_make(rt, file)?;
    let status = init_store(&mut conn, me, sites, limit, &mut out, &mut err);
    Ok(shelf.close(rt, (status, Some(conn))))
}

fn run_migrate<S: Alter + Drop, H: Shelf<Connection<S>>>(
    rt: &HostRuntime,
    file: &str,
    shelf: &H,
) -> Result<Status, Status> {
    let mut conn = shelf.open_there(rt, file)?;
    let status = migrate_store(rt.alloc(), &mut conn, &mut rt.stdout(), &mut rt.stderr());
    Ok(shelf.close(rt, (status, Some(conn))))
}

fn run_grow<S: Alter + Drop, H: Shelf<Connection<S>>>(
    rt: &HostRuntime,
    file: &str,
    sites: Sites,
    shelf: &H,
) -> Result<Status, Status> {
    let conn = shelf.open_there(rt, file)?;
    let came = grow_store(rt.alloc(), conn, sites, &mut rt.stdout(), &mut rt.stderr());
    Ok(shelf.close(rt, came))
}

fn run_ask<S: Alter + Drop, H: Shelf<Connection<S>>>(
    rt: &HostRuntime,
    waiter: &impl Wait,
    file: &str,
    shelf: &H,
) -> Result<Status, Status> {
    let conn = shelf.open_there(rt, file)?;
    let came = ask_store(
        waiter,
        rt.alloc(),
        conn,
        rt.stdin(),
        &mut rt.stdout(),
        &mut rt.stderr(),
    );
    Ok(shelf.close(rt, came))
}

fn run_find<S: Alter + Drop, H: Shelf<Connection<S>>>(
    rt: &HostRuntime,
    file: &str,
    number: RequestNumber,
    shelf: &H,
) -> Result<Status, Status> {
    let conn = shelf.open_there(rt, file)?;
    let came = find_store(rt.alloc(), conn, number, &mut rt.stdout(), &mut rt.stderr());
    Ok(shelf.close(rt, came))
}

fn run_list<S: Alter + Drop, H: Shelf<Connection<S>>>(
    rt: &HostRuntime,
    file: &str,
    event: &str,
    shelf: &H,
) -> Result<Status, Status> {
    let mut out = buffered(rt)?;
    let conn = shelf.open_there(rt, file)?;
    let came = list_store(rt.alloc(), conn, event, &mut out, &mut rt.stderr());
    Ok(shelf.close(rt, came))
}

fn run_events<S: Alter + Drop, H: Shelf<Connection<S>>>(
    rt: &HostRuntime,
    file: &str,
    shelf: &H,
) -> Result<Status, Status> {
    let mut out = buffered(rt)?;
    let conn = shelf.open_there(rt, file)?;
    let came = events_store(rt.alloc(), conn, &mut out, &mut rt.stderr());
    Ok(shelf.close(rt, came))
}

fn run_shares<S: Alter + Drop, H: Shelf<Connection<S>>>(
    rt: &HostRuntime,
    file: &str,
    event: &str,
    shelf: &H,
) -> Result<Status, Status> {
    let mut out = buffered(rt)?;
    let conn = shelf.open_there(rt, file)?;
    let came = shares_store(rt.alloc(), conn, event, &mut out, &mut rt.stderr());
    Ok(shelf.close(rt, came))
}

fn run_status<S: Alter + Drop, H: Shelf<Connection<S>>>(
    rt: &HostRuntime,
    file: &str,
    shelf: &H,
) -> Result<Status, Status> {
    let conn = shelf.open_there(rt, file)?;
    let came = status_store(rt.alloc(), conn, &mut rt.stdout(), &mut rt.stderr());
    Ok(shelf.close(rt, came))
}

fn run_export<S: Alter + Drop, H: Shelf<Connection<S>>>(
    rt: &HostRuntime,
    file: &str,
    to: SiteId,
    shelf: &H,
) -> Result<Status, Status> {
    let mut out = buffered(rt)?;
    let conn = shelf.open_there(rt, file)?;
    let came = export_store(rt.alloc(), conn, to, &mut out, &mut rt.stderr());
    Ok(shelf.close(rt, came))
}

fn run_import<S: Alter + Drop, H: Shelf<Connection<S>>>(
    rt: &HostRuntime,
    file: &str,
    shelf: &H,
) -> Result<Status, Status> {
    let conn = shelf.open_there(rt, file)?;
    let came = import_store(
        rt.alloc(),
        conn,
        rt.stdin(),
        &mut rt.stdout(),
        &mut rt.stderr(),
    );
    Ok(shelf.close(rt, came))
}

// The book of a file's records.
pub(crate) fn open_site<S: Alter + Drop, H: Shelf<Connection<S>>>(
    rt: &HostRuntime,
    file: &str,
    shelf: &H,
) -> Result<SiteBook<Records<S>>, Status> {
    let conn = shelf.open_there(rt, file)?;
    match open_store(rt.alloc(), conn, &mut rt.stderr()) {
        Ok(site) => Ok(site),
        Err(came) => Err(shelf.close(rt, came)),
    }
}

pub(crate) fn keep<T: Drop>(rt: &HostRuntime, kept: &mut Vec<T>, one: T) -> Result<(), Status> {
    match kept.push(one) {
        Ok(()) => Ok(()),
        Err(_) => Err(out_of_memory(rt)),
    }
}

// The book of each file's records, put behind those before it.
pub(crate) fn open_all<S: Alter + Drop, H: Shelf<Connection<S>>>(
    rt: &HostRuntime,
    files: &FileNames<'_>,
    shelf: &H,
    sites: &mut Vec<SiteBook<Records<S>>>,
) -> Result<(), Status> {
    for file in files.as_slice() {
        let site = open_site(rt, file, shelf)?;
        keep(rt, sites, site)?;
    }
    Ok(())
}

// The status of a command that came to this over a file among others, which is closed unless it failed.
pub(crate) fn close_site<S: Alter + Drop, H: Shelf<Connection<S>>>(
    rt: &HostRuntime,
    shelf: &H,
    status: Status,
    site: SiteBook<Records<S>>,
) -> Status {
    shelf.close(rt, (status, Some(site.into_keeper().close())))
}

pub(crate) fn close_all<S: Alter + Drop, H: Shelf<Connection<S>>>(
    rt: &HostRuntime,
    shelf: &H,
    mut status: Status,
    sites: Vec<SiteBook<Records<S>>>,
) -> Status {
    for site in sites {
        status = close_site(rt, shelf, status, site);
    }
    status
}

fn run_close(
    rt: &HostRuntime,
    host: &(impl Clock + Paths + Net),
    file: &str,
) -> Result<Status, Status> {
    let Ok(socket) = Socket::of(rt.alloc(), file) else {
        return Ok(out_of_memory(rt));
    };
    match socket.close(host, rt.alloc()) {
        Ok(None) => Ok(Status::Done),
        Ok(Some(fault)) => Ok(tell_close_fault(fault, &mut rt.stderr())),
        Err(error) if error.kind() == ErrorKind::OutOfMemory => Ok(out_of_memory(rt)),
        Err(_) => Ok(failed(rt, FileFault::Disk)),
    }
}

// An error is the status of a command that could not begin, and whose fault was told. `bare` gives what is one of two copies
// too.
fn run_order<S: Alter + Drop + Send, H: Shelf<Connection<S>>, B: Shelf<Connection<S>>>(
    rt: &HostRuntime,
    host: &(impl Threads
        + Wait
        + Clock
        + Sync
        + Paths
        + Net<Listener = TcpListener, Stream = TcpStream>),
    order: Order<'_>,
    shelf: &H,
    bare: &B,
) -> Result<Status, Status> {
    match order {
        Order::World => run_world(rt),
        Order::Init {
            file,
            me,
            sites,
            limit,
        } => run_init(rt, file, me, sites, limit, shelf),
        Order::Migrate { file } => run_migrate(rt, file, shelf),
        Order::Grow { file, sites, .. } => run_grow(rt, file, sites, shelf),
        Order::Ask { file, .. } => run_ask(rt, host, file, shelf),
        Order::Find { file, number, .. } => run_find(rt, file, number, shelf),
        Order::List { file, event, .. } => run_list(rt, file, event, shelf),
        Order::Events { file, .. } => run_events(rt, file, shelf),
        Order::Shares { file, event, .. } => run_shares(rt, file, event, shelf),
        Order::Export { file, to, .. } => run_export(rt, file, to, shelf),
        Order::Import { file, .. } => run_import(rt, file, shelf),
        Order::Audit { files, copies } => copies::run_audit(rt, &files, copies.as_slice(), shelf),
        Order::Serve {
            port,
            sessions,
            rounds,
            files,
            ..
        } => run_serve(rt, host, &files, port, sessions, rounds, shelf),
        Order::Open {
            port,
            file,
            sparing,
            ..
        } => run_open(rt, host, port, file, sparing, shelf),
        Order::Close { file } => run_close(rt, host, file),
        Order::Status { file, .. } => run_status(rt, file, shelf),
        Order::Pair { file, copy } => run_pair(rt, file, copy, bare),
        Order::Alone { file } => run_alone(rt, file, bare),
        Order::Backup { file, copy } => run_backup(rt, file, copy, bare),
        Order::Version => Ok(tell_version(&mut rt.stdout(), &mut rt.stderr())),
    }
}

// The other file of a site, which a command goes over too. `audit` and `serve` have one for each of their files that is one
// of two.
fn copy_of<'a>(order: &Order<'a>) -> Option<&'a str> {
    match order {
        Order::Open { copy, .. }
        | Order::Ask { copy, .. }
        | Order::Grow { copy, .. }
        | Order::Find { copy, .. }
        | Order::List { copy, .. }
        | Order::Events { copy, .. }
        | Order::Shares { copy, .. }
        | Order::Export { copy, .. }
        | Order::Import { copy, .. }
        | Order::Status { copy, .. } => *copy,
        Order::Audit { copies, .. } | Order::Serve { copies, .. } => {
            copies.as_slice().first().copied()
        }
        _ => None,
    }
}

// Whether a command only looks at files, and may look at copies that are for that.
fn looks(order: &Order<'_>) -> bool {
    matches!(
        order,
        Order::Find { .. }
            | Order::List { .. }
            | Order::Events { .. }
            | Order::Shares { .. }
            | Order::Status { .. }
            | Order::Audit { .. }
    )
}

// A command over two copies: one that enters something keeps both open, and for one that only reads the shorter is brought
// up first.
fn run_over_both<S: Alter + Drop + Send, H: Shelf<Connection<S>>>(
    rt: &HostRuntime,
    host: &(impl Threads
        + Wait
        + Clock
        + Sync
        + Paths
        + Net<Listener = TcpListener, Stream = TcpStream>),
    order: Order<'_>,
    copy: &str,
    shelf: &H,
) -> Result<Status, Status> {
    match order {
        Order::Open {
            port,
            file,
            sparing,
            ..
        } => copies::run_open(rt, host, port, file, copy, sparing, shelf),
        Order::Ask { file, .. } => copies::run_ask(rt, host, file, copy, shelf),
        Order::Import { file, .. } => copies::run_import(rt, file, copy, shelf),
        Order::Grow { file, sites, .. } => copies::run_grow(rt, file, copy, sites, shelf),
        order @ Order::Audit { .. } => run_order(rt, host, order, shelf, shelf),
        Order::Serve {
            port,
            sessions,
            rounds,
            files,
            copies,
        } => run_serve_copies(
            rt,
            host,
            files.as_slice(),
            copies.as_slice(),
            port,
            sessions,
            rounds,
            shelf,
        ),
        order => run_order(rt, host, order, &InStep { shelf, copy }, shelf),
    }
}

// The same, where it does not go to an office that is open. A file that is one of two is opened with its copy alone.
fn run_or_visit<S: Alter + Drop + Send, H: Shelf<Connection<S>>>(
    rt: &HostRuntime,
    host: &(impl Threads
        + Wait
        + Clock
        + Sync
        + Paths
        + Net<Listener = TcpListener, Stream = TcpStream>),
    order: Order<'_>,
    shelf: &H,
) -> Result<Status, Status> {
    if let Some(status) = visited(rt, host, &order)? {
        return Ok(status);
    }
    match copy_of(&order) {
        Some(copy) => run_over_both(rt, host, order, copy, shelf),
        None if looks(&order) => run_order(rt, host, order, &Looking(shelf), shelf),
        None => run_order(rt, host, order, &Single(shelf), shelf),
    }
}

fn run<S: Alter + Drop + Send, H: Shelf<Connection<S>>>(
    rt: &HostRuntime,
    host: &(impl Threads
        + Wait
        + Clock
        + Sync
        + Paths
        + Net<Listener = TcpListener, Stream = TcpStream>),
    words: &[&str],
    shelf: &H,
) -> Status {
    match read_words(rt.alloc(), words) {
        Ok(order) => match run_or_visit(rt, host, order, shelf) {
            Ok(status) | Err(status) => status,
        },
        Err(WordsFault::NotUnderstood { text }) => {
            let _ = eprint!(rt; "{text}");
            Status::NotUnderstood
        }
        Err(WordsFault::Memory) => out_of_memory(rt),
    }
}

// A word as it is read: `--version` is the command of that name.
fn plain_word(word: &String) -> &str {
    match word.as_str() {
        "--version" => "version",
        word => word,
    }
}

fn texts(alloc: Global, words: &[String]) -> Result<Vec<&str>, AllocError> {
    words.iter().map(plain_word).collect(alloc)
}

fn started<S: Alter + Drop + Send, H: Shelf<Connection<S>>>(
    rt: &HostRuntime,
    host: &(impl Threads
        + Wait
        + Clock
        + Sync
        + Paths
        + Net<Listener = TcpListener, Stream = TcpStream>),
    shelf: &H,
) -> io::Result<Status> {
    let words: Vec<String> = env::args(rt)?.collect(rt.alloc())?;
    let texts = texts(rt.alloc(), &words)?;
    Ok(run(rt, host, texts.as_slice(), shelf))
}

// The same over files, whatever they stand on.
fn started_over<D: Disk + Drop + Send, H: Shelf<Connection<FileStore<D>>>>(
    rt: &HostRuntime,
    host: &(impl Threads
        + Wait
        + Clock
        + Sync
        + Paths
        + Net<Listener = TcpListener, Stream = TcpStream>),
    shelf: &H,
) -> io::Result<Status> {
    started(rt, host, shelf)
}

// The same over files of this machine.
fn started_by_path<F: Start + Send, B: Begins<First = F>>(
    rt: &HostRuntime,
    host: &(impl Threads
        + Wait
        + Clock
        + Sync
        + Paths
        + Net<Listener = TcpListener, Stream = TcpStream>),
    files: &ByPath<B>,
) -> io::Result<Status> {
    started_over(rt, host, files)
}

// What the files hold is nobody's to know here, so the rest is proved for any first contents. Only here is the runtime
// a handle that may wait, start threads and take connections.
fn main(rt: HostRuntime) -> ExitCode {
    let status = match started_by_path(&rt, &rt, &ByPath(Unread)) {
        Ok(status) => status,
        Err(error) => match error.kind() {
            ErrorKind::OutOfMemory => out_of_memory(&rt),
            _ => not_unicode(&rt),
        },
    };
    ExitCode::from(status.code())
}

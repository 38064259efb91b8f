//! The files of a site that has two copies.

use crate::doors::Socket;
use crate::files::{FileFault, failed};
use crate::office::{file_held, tell_not_held};
use crate::watch::{FileId, Fill, Held, id_at, watch};
use crate::{Shelf, buffered, close_all, open_all, open_site, out_of_memory};
use live_office::{Closing, Gauge, Places, Sparing, TcpDoor, UnixDoor};
use mirrored_records::Survivor;
use operator_cli::{
    CloseFault, FileNames, Status, alone_store, ask_site, audit_stores, grow_site, import_site,
    mark_store, office_site, open_copies, refuse_copy, refuse_one_of_two, refuse_same_file,
    refuse_unpaired, tell_close_fault, tell_listen_fault, tell_paired, tell_socket_fault,
};
use paired_records::{MarkFault, Pair, Pairing, close_pair, is_one_of_two, pairing_of, unmark};
use rights_lattice::Sites;
use site_desk::SiteBook;
use sqlite::{Alter, Connection};
use std::cell::Cell;
use std::fs;
use std::io::{self, ErrorKind};
use std::net::{Net, TcpListener, TcpStream};
use std::path::Path;
use std::rt::Files as Paths;
use std::sync::Wait;
use std::thread::{Threads, join};
use std::time::{Clock, Duration, SystemTime, UNIX_EPOCH};

/// Either of two copies may survive: no code asks which, and what the commands promise is proved of both.
pub(crate) struct Either;

impl Survivor for Either {
    ghost use Rattle.std.specs.Prelude.{true};

    ghost is_first = { true };
}

// A database that is opened alone: one of two copies is refused.
fn alone<S: Alter + Drop>(rt: &HostRuntime, conn: Connection<S>) -> Result<Connection<S>, Status> {
    match refuse_one_of_two(&conn, &mut rt.stderr()) {
        Some(status) => Err(status),
        None => Ok(conn),
    }
}

/// A shelf of databases that are opened alone: none that is one of two copies is given.
#[derive(Drop)]
pub(crate) struct Single<'a, H>(pub(crate) &'a H);

impl<S: Alter + Drop, H: Shelf<Connection<S>>> Shelf<Connection<S>> for Single<'_, H> {
    fn open_there(&self, rt: &HostRuntime, path: &str) -> Result<Connection<S>, Status> {
        let conn = self.0.open_there(rt, path)?;
        alone(rt, conn)
    }

    fn open_or_make(&self, rt: &HostRuntime, path: &str) -> Result<Connection<S>, Status> {
        self.0.open_or_make(rt, path)
    }

    fn close(&self, rt: &HostRuntime, came: (Status, Option<Connection<S>>)) -> Status {
        self.0.close(rt, came)
    }
}

/// The same for a command that only looks: a copy for looking is given too.
#[derive(Drop)]
pub(crate) struct Looking<'a, H>(pub(crate) &'a H);

impl<S: Alter + Drop, H: Shelf<Connection<S>>> Shelf<Connection<S>> for Looking<'_, H> {
    fn open_there(&self, rt: &HostRuntime, path: &str) -> Result<Connection<S>, Status> {
        let mut conn = self.0.open_there(rt, path)?;
        if is_for_looking(rt, &mut conn)? {
            return Ok(conn);
        }
        alone(rt, conn)
    }

    fn open_or_make(&self, rt: &HostRuntime, path: &str) -> Result<Connection<S>, Status> {
        self.0.open_or_make(rt, path)
    }

    fn close(&self, rt: &HostRuntime, came: (Status, Option<Connection<S>>)) -> Status {
        self.0.close(rt, came)
    }
}

/// A shelf that gives a database once its copy holds the same entries, for commands that read alone.
#[derive(Drop)]
pub(crate) struct InStep<'a, H> {
    pub(crate) shelf: &'a H,
    pub(crate) copy: &'a str,
}

impl<S: Alter + Drop, H: Shelf<Connection<S>>> Shelf<Connection<S>> for InStep<'_, H> {
    fn open_there(&self, rt: &HostRuntime, path: &str) -> Result<Connection<S>, Status> {
        let book = open_both(rt, path, self.copy, self.shelf)?;
        let (first, second) = close_pair(book);
        match self.shelf.close(rt, (Status::Done, Some(second))) {
            Status::Done => Ok(first),
            status => Err(status),
        }
    }

    fn open_or_make(&self, rt: &HostRuntime, path: &str) -> Result<Connection<S>, Status> {
        self.shelf.open_or_make(rt, path)
    }

    fn close(&self, rt: &HostRuntime, came: (Status, Option<Connection<S>>)) -> Status {
        self.shelf.close(rt, came)
    }
}

/// A shelf for a command over several databases that only reads: each that is one of two is brought in step with the next of
/// these copies.
#[derive(Drop)]
struct EachInStep<'a, H> {
    shelf: &'a H,
    copies: &'a [&'a str],
    taken: Cell<usize>,
}

impl<H> EachInStep<'_, H> {
    // Whether a copy was named of which there is no file.
    fn has_more(&self) -> bool {
        self.taken.get() < self.copies.len()
    }
}

impl<S: Alter + Drop, H: Shelf<Connection<S>>> Shelf<Connection<S>> for EachInStep<'_, H> {
    fn open_there(&self, rt: &HostRuntime, path: &str) -> Result<Connection<S>, Status> {
        let mut conn = self.shelf.open_there(rt, path)?;
        if is_for_looking(rt, &mut conn)? {
            return Ok(conn);
        }
        let taken = self.taken.get();
        match self.copies.get(taken) {
            Some(copy) if is_one_of_two(&conn) => {
                self.taken.set(taken.saturating_add(1));
                match self.shelf.close(rt, (Status::Done, Some(conn))) {
                    Status::Done => {}
                    status => return Err(status),
                }
                let shelf = self.shelf;
                InStep { shelf, copy }.open_there(rt, path)
            }
            _ => alone(rt, conn),
        }
    }

    fn open_or_make(&self, rt: &HostRuntime, path: &str) -> Result<Connection<S>, Status> {
        self.shelf.open_or_make(rt, path)
    }

    fn close(&self, rt: &HostRuntime, came: (Status, Option<Connection<S>>)) -> Status {
        self.shelf.close(rt, came)
    }
}

// Whether both paths lead to the same file.
pub(crate) fn is_same_file(rt: &HostRuntime, file: &str, copy: &str) -> bool {
    match (id_at(rt, file), id_at(rt, copy)) {
        (Ok(Some(file)), Ok(Some(copy))) => file == copy,
        _ => false,
    }
}

// Whether the two files are on one device.
fn is_same_device(rt: &HostRuntime, file: &str, copy: &str) -> bool {
    match (id_at(rt, file), id_at(rt, copy)) {
        (Ok(Some(file)), Ok(Some(copy))) => file.is_beside(copy),
        _ => false,
    }
}

// What is told of a mark that was not set, not taken off or not read.
fn told_mark_fault(rt: &HostRuntime, fault: MarkFault) -> Status {
    match fault {
        MarkFault::Memory => out_of_memory(rt),
        MarkFault::Disk => failed(rt, FileFault::Disk),
    }
}

// The pairing of a database that has a mark.
fn pairing_in<S: Alter>(
    rt: &HostRuntime,
    conn: &mut Connection<S>,
) -> Result<Option<Pairing>, Status> {
    match pairing_of(conn) {
        Ok(pairing) => Ok(pairing),
        Err(fault) => Err(told_mark_fault(rt, fault)),
    }
}

/// Whether a database is a copy for looking.
pub(crate) fn is_for_looking<S: Alter>(
    rt: &HostRuntime,
    conn: &mut Connection<S>,
) -> Result<bool, Status> {
    match pairing_in(rt, conn)? {
        Some(pairing) => Ok(pairing.is_for_looking()),
        None => Ok(false),
    }
}

// The records of a file, once its history is known to be legal: a damaged copy brings nothing into the other.
fn looked_at<S: Alter + Drop, H: Shelf<Connection<S>>>(
    rt: &HostRuntime,
    path: &str,
    shelf: &H,
) -> Result<Connection<S>, Status> {
    let site = open_site(rt, path, shelf)?;
    Ok(site.into_keeper().close())
}

/// The book of two copies. A fault is told, and so is that both are one file, or not of one pairing.
pub(crate) fn open_both<S: Alter + Drop, H: Shelf<Connection<S>>>(
    rt: &HostRuntime,
    file: &str,
    copy: &str,
    shelf: &H,
) -> Result<SiteBook<Pair<S, Either>>, Status> {
    if is_same_file(rt, file, copy) {
        return Err(refuse_same_file(&mut rt.stdout(), &mut rt.stderr()));
    }
    let first = looked_at(rt, file, shelf)?;
    let second = looked_at(rt, copy, shelf)?;
    match open_copies(
        rt.alloc(),
        first,
        second,
        &mut rt.stdout(),
        &mut rt.stderr(),
    ) {
        Ok(book) => Ok(book),
        Err((status, first, second)) => {
            let status = shelf.close(rt, (status, first));
            Err(shelf.close(rt, (status, second)))
        }
    }
}

/// The status of a command that came to this over two copies, which are closed unless it failed.
pub(crate) fn close_both<S: Alter + Drop, H: Shelf<Connection<S>>>(
    rt: &HostRuntime,
    shelf: &H,
    status: Status,
    book: SiteBook<Pair<S, Either>>,
) -> Status {
    let (first, second) = close_pair(book);
    let status = shelf.close(rt, (status, Some(first)));
    shelf.close(rt, (status, Some(second)))
}

// Where a copy is made until it is whole.
fn new_of(rt: &HostRuntime, copy: &str) -> io::Result<String> {
    Ok(format!(in rt.alloc(); "{copy}-new")?)
}

fn copy_whole(rt: &HostRuntime, file: &str, copy: &str) -> io::Result<()> {
    let new = new_of(rt, copy)?;
    fs::copy(rt, file, new.as_str())?;
    fs::open(rt, new.as_str())?.sync_all()?;
    fs::rename(rt, new.as_str(), copy)?;
    let real = fs::canonicalize(rt, copy)?;
    match Path::new(real.as_str()).parent() {
        Some(folder) => fs::open(rt, folder)?.sync_all(),
        None => Ok(()),
    }
}

/// Whether nothing stands at a path, no link either.
pub(crate) fn is_free_at(rt: &HostRuntime, path: &str) -> io::Result<bool> {
    match fs::symlink_metadata(rt, path) {
        Ok(_) => Ok(false),
        Err(error) if error.kind() == ErrorKind::NotFound => Ok(true),
        Err(error) => Err(error),
    }
}

/// Whether nothing stands where a copy is to be made, nor a log beside it.
pub(crate) fn is_free(rt: &HostRuntime, copy: &str) -> io::Result<bool> {
    let log = format!(in rt.alloc(); "{copy}-wal")?;
    Ok(is_free_at(rt, copy)? && is_free_at(rt, log.as_str())?)
}

pub(crate) fn told_error(rt: &HostRuntime, error: &io::Error) -> Status {
    match error.kind() {
        ErrorKind::OutOfMemory => out_of_memory(rt),
        _ => failed(rt, FileFault::Disk),
    }
}

// What the mark says of the copy: its path, and when it was paired, so that no two pairings have the same mark.
fn words_of(rt: &HostRuntime, copy: &str) -> io::Result<String> {
    let since = match SystemTime::now(rt)?.duration_since(UNIX_EPOCH) {
        Ok(since) => since,
        Err(_) => Duration::ZERO,
    };
    let (seconds, nanoseconds) = (since.as_secs(), since.subsec_nanos());
    Ok(format!(in rt.alloc(); "{copy} {seconds} {nanoseconds}")?)
}

// The path in what a mark says of a copy, which ends in the two words of its time.
fn path_in(words: &[u8]) -> &[u8] {
    let mut rest = words;
    for _ in 0..2 {
        rest = match rest.iter().rposition(|byte| *byte == b' ') {
            Some(at) => &rest[..at],
            None => b"",
        };
    }
    rest
}

// Whether the mark of a database was set to make this copy, which a crash may have kept from being made.
fn is_marked_for<S: Alter>(
    rt: &HostRuntime,
    conn: &mut Connection<S>,
    file: &str,
    copy: &str,
) -> Result<bool, Status> {
    let Some(pairing) = pairing_in(rt, conn)? else {
        return Ok(false);
    };
    Ok(pairing.file() == file.as_bytes() && path_in(pairing.copy()) == copy.as_bytes())
}

// Takes off the mark of a pairing whose copy was not made, or is no longer where it was: the next mark is of another
// pairing, so what was copied before opens with none of its files.
fn unpaired<S: Alter>(rt: &HostRuntime, conn: &mut Connection<S>) -> Result<(), Status> {
    match unmark(conn) {
        Ok(()) => Ok(()),
        Err(fault) => Err(told_mark_fault(rt, fault)),
    }
}

// Marks the records of a file, anew if they were marked to make this copy. What was left of that is removed.
fn marked<S: Alter + Drop>(
    rt: &HostRuntime,
    mut conn: Connection<S>,
    file: &str,
    copy: &str,
    new: &str,
) -> Result<Connection<S>, Status> {
    if is_marked_for(rt, &mut conn, file, copy)? {
        let _ = fs::remove_file(rt, new);
        unpaired(rt, &mut conn)?;
    }
    match (is_free_at(rt, new), words_of(rt, copy)) {
        (Ok(true), Ok(words)) => {
            match mark_store(rt.alloc(), conn, file, words.as_str(), &mut rt.stderr()) {
                Ok(conn) => Ok(conn),
                Err((status, _)) => Err(status),
            }
        }
        (Ok(false), _) => Err(refuse_copy(&mut rt.stdout(), &mut rt.stderr())),
        (Err(error), _) | (_, Err(error)) => Err(told_error(rt, &error)),
    }
}

// Marks a file that is one of two from now on, and closes it.
fn mark_file<S: Alter + Drop, H: Shelf<Connection<S>>>(
    rt: &HostRuntime,
    file: &str,
    copy: &str,
    shelf: &H,
) -> Result<(), Status> {
    let Ok(new) = new_of(rt, copy) else {
        return Err(out_of_memory(rt));
    };
    let conn = marked(rt, shelf.open_there(rt, file)?, file, copy, new.as_str())?;
    match shelf.close(rt, (Status::Done, Some(conn))) {
        Status::Done => Ok(()),
        status => Err(status),
    }
}

/// Makes a file one of two copies, and the other. The mark comes first, so that no copy is made that opens by itself. What a
/// crash or a full disk kept it from is done when it is said again.
pub(crate) fn run_pair<S: Alter + Drop, H: Shelf<Connection<S>>>(
    rt: &HostRuntime,
    file: &str,
    copy: &str,
    shelf: &H,
) -> Result<Status, Status> {
    if is_same_file(rt, file, copy) {
        return Ok(refuse_same_file(&mut rt.stdout(), &mut rt.stderr()));
    }
    match is_free(rt, copy) {
        Ok(true) => {}
        Ok(false) => return Ok(refuse_copy(&mut rt.stdout(), &mut rt.stderr())),
        Err(error) => return Ok(told_error(rt, &error)),
    }
    mark_file(rt, file, copy, shelf)?;
    if let Err(error) = copy_whole(rt, file, copy) {
        if let Ok(new) = new_of(rt, copy) {
            let _ = fs::remove_file(rt, new.as_str());
        }
        return Ok(told_error(rt, &error));
    }
    let book = open_both(rt, file, copy, shelf)?;
    if is_same_device(rt, file, copy) {
        let _ = eprintln!(rt; "same-device");
    }
    let status = tell_paired(&mut rt.stdout(), &mut rt.stderr());
    Ok(close_both(rt, shelf, status, book))
}

/// Takes the mark off a file, whose other copy is lost for good.
pub(crate) fn run_alone<S: Alter + Drop, H: Shelf<Connection<S>>>(
    rt: &HostRuntime,
    file: &str,
    shelf: &H,
) -> Result<Status, Status> {
    let mut conn = shelf.open_there(rt, file)?;
    if is_for_looking(rt, &mut conn)? {
        return Ok(refuse_unpaired(&mut rt.stdout(), &mut rt.stderr()));
    }
    let status = alone_store(&mut conn, &mut rt.stdout(), &mut rt.stderr());
    let status = shelf.close(rt, (status, Some(conn)));
    if status == Status::Done {
        let _ = eprintln!(rt; "next: import the newest message of each site, before you sell");
    }
    Ok(status)
}

/// A session over two copies.
pub(crate) fn run_ask<S: Alter + Drop, H: Shelf<Connection<S>>>(
    rt: &HostRuntime,
    waiter: &impl Wait,
    file: &str,
    copy: &str,
    shelf: &H,
) -> Result<Status, Status> {
    let book = open_both(rt, file, copy, shelf)?;
    let (status, book) = ask_site(
        waiter,
        rt.alloc(),
        book,
        rt.stdin(),
        &mut rt.stdout(),
        &mut rt.stderr(),
    );
    Ok(close_both(rt, shelf, status, book))
}

/// Takes a message into two copies.
pub(crate) fn run_import<S: Alter + Drop, H: Shelf<Connection<S>>>(
    rt: &HostRuntime,
    file: &str,
    copy: &str,
    shelf: &H,
) -> Result<Status, Status> {
    let mut book = open_both(rt, file, copy, shelf)?;
    let status = import_site(
        rt.alloc(),
        &mut book,
        rt.stdin(),
        &mut rt.stdout(),
        &mut rt.stderr(),
    );
    Ok(close_both(rt, shelf, status, book))
}

/// Recognises more sites in two copies.
pub(crate) fn run_grow<S: Alter + Drop, H: Shelf<Connection<S>>>(
    rt: &HostRuntime,
    file: &str,
    copy: &str,
    sites: Sites,
    shelf: &H,
) -> Result<Status, Status> {
    let mut book = open_both(rt, file, copy, shelf)?;
    let status = grow_site(
        rt.alloc(),
        &mut book,
        sites,
        &mut rt.stdout(),
        &mut rt.stderr(),
    );
    Ok(close_both(rt, shelf, status, book))
}

/// Sums up the files of all sites, of which those that are one of two have these copies, in this order.
pub(crate) fn run_audit<S: Alter + Drop, H: Shelf<Connection<S>>>(
    rt: &HostRuntime,
    files: &FileNames<'_>,
    copies: &[&str],
    shelf: &H,
) -> Result<Status, Status> {
    let mut out = buffered(rt)?;
    let mut sites = Vec::new(rt.alloc());
    let each = EachInStep {
        shelf,
        copies,
        taken: Cell::new(0),
    };
    let status = match open_all(rt, files, &each, &mut sites) {
        Ok(()) if each.has_more() => refuse_unpaired(&mut out, &mut rt.stderr()),
        Ok(()) => audit_stores(rt.alloc(), sites.as_slice(), &mut out, &mut rt.stderr()),
        Err(status) => status,
    };
    Ok(close_all(rt, shelf, status, sites))
}

// An office over two copies, both of which are watched.
fn office_watched<S: Alter + Drop + Send>(
    rt: &HostRuntime,
    host: &(impl Threads + Wait + Clock + Sync),
    site: SiteBook<Pair<S, Either>>,
    port: u16,
    file: &Held<'_>,
    copy: &Held<'_>,
    clerks: &TcpDoor<'_>,
    operators: &UnixDoor<'_>,
    closing: &Closing,
    gauge: &Gauge,
    sparing: Sparing,
) -> (Status, SiteBook<Pair<S, Either>>) {
    let limit = site.book().limit().entries();
    let fill = Fill::new(gauge, limit.saturating_sub(sparing.reserve));
    // The watch is first: a first closure that gets no thread runs when the second has ended.
    let ((), came) = join(
        host,
        move || watch(rt, file, Some(copy), closing, fill),
        move || {
            let came = office_site(
                host,
                rt.alloc(),
                site,
                port,
                file.path(),
                clerks,
                operators,
                closing,
                gauge,
                sparing,
                &mut rt.stdout(),
                &mut rt.stderr(),
            );
            closing.ended();
            came
        },
    );
    came
}

// The files of an office that has closed, of which one may be lost: what only its log holds is left in it then.
fn close_office<S: Alter + Drop, H: Shelf<Connection<S>>>(
    rt: &HostRuntime,
    shelf: &H,
    file: &Held<'_>,
    copy: &Held<'_>,
    closing: &Closing,
    came: (Status, SiteBook<Pair<S, Either>>),
) -> Status {
    let (status, book) = came;
    if !closing.is_lost() {
        return close_both(rt, shelf, status, book);
    }
    let (first, second) = close_pair(book);
    if !file.is_lost(rt) {
        let _ = shelf.close(rt, (status, Some(first)));
    }
    if !copy.is_lost(rt) {
        let _ = shelf.close(rt, (status, Some(second)));
    }
    tell_close_fault(CloseFault::LostFile, &mut rt.stderr())
}

/// Keeps the office of a site open over two copies, until it closes or one of them fails.
pub(crate) fn run_open<S: Alter + Drop + Send, H: Shelf<Connection<S>>>(
    rt: &HostRuntime,
    host: &(impl Threads
        + Wait
        + Clock
        + Sync
        + Paths
        + Net<Listener = TcpListener, Stream = TcpStream>),
    port: u16,
    file: &str,
    copy: &str,
    sparing: Sparing,
    shelf: &H,
) -> Result<Status, Status> {
    let Ok(socket) = Socket::of(rt.alloc(), file) else {
        return Ok(out_of_memory(rt));
    };
    if let Err(fault) = socket.check(host) {
        return Ok(tell_socket_fault(fault, &mut rt.stderr()));
    }
    let (before, copy_before) = (id_at(rt, file), id_at(rt, copy));
    let site = open_both(rt, file, copy, shelf)?;
    let (held, copy_held) = match both_held(rt, file, before, copy, copy_before) {
        Ok(held) => held,
        Err(error) => return Ok(close_both(rt, shelf, tell_not_held(rt, &error), site)),
    };
    let closing = Closing::watched();
    let (at_port, at_socket) = (Places::of_clerks(), Places::of_operators());
    let clerks = match TcpDoor::bind(host, rt.alloc(), port, &closing, &at_port) {
        Ok(clerks) => clerks,
        Err(fault) => {
            let status = tell_listen_fault(fault, &mut rt.stderr());
            return Ok(close_both(rt, shelf, status, site));
        }
    };
    let operators = match UnixDoor::bind(
        host,
        rt.alloc(),
        socket.folder(),
        socket.path(),
        &closing,
        &at_socket,
    ) {
        Ok(operators) => operators,
        Err(fault) => {
            let status = tell_socket_fault(fault, &mut rt.stderr());
            return Ok(close_both(rt, shelf, status, site));
        }
    };
    let gauge = Gauge::new(site.book().len() as u64);
    let came = office_watched(
        rt, host, site, port, &held, &copy_held, &clerks, &operators, &closing, &gauge, sparing,
    );
    socket.put_aside(host);
    let status = close_office(rt, shelf, &held, &copy_held, &closing, came);
    socket.remove(host);
    Ok(status)
}

// Both files of an office, which were these before they were opened.
fn both_held<'a>(
    rt: &HostRuntime,
    file: &'a str,
    before: io::Result<Option<FileId>>,
    copy: &'a str,
    copy_before: io::Result<Option<FileId>>,
) -> io::Result<(Held<'a>, Held<'a>)> {
    let held = file_held(rt, file, before)?;
    let copy_held = file_held(rt, copy, copy_before)?;
    Ok((held, copy_held))
}

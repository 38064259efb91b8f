//! A stop at each call of a disk in turn: what a command leaves of the records, and what it answers when it is given again.
//!
//! The files are in memory. One call of the log or of the database fails, and so does each call of that file from then
//! on. The next command opens what was written, or what of it was synced.

use book_core::Limit;
use operator_cli::{Status, ask_store, grow_store, import_store, init_store, list_store};
use request_ledger::{Request, RequestNumber};
use rights_lattice::{Amount, Event, SiteId, Sites};
use site_desk::SiteBook;
use sql_records::Records;
use sqlite::{Connection, FileStore, Files, Options};
use sqlite_disk::{Crash, Disk, Fuse, Memory};
use std::alloc::Global;
use std::process::Abort;
use std::sync::Wait;

fn site(rt: &impl Abort, number: u64) -> SiteId {
    SiteId::of(number).expect(rt, "a site")
}

type Stopping = Connection<FileStore<Fuse<Memory>>>;

// What a log and its database hold.
#[derive(PartialEq, Drop)]
struct Held {
    log: Vec<u8>,
    db: Vec<u8>,
}

// How many calls of each go well.
#[derive(Clone, Copy)]
struct Calls {
    log: u64,
    db: u64,
}

const ALL: Calls = Calls {
    log: u64::MAX,
    db: u64::MAX,
};

#[derive(Clone, Copy)]
enum Command {
    Init,
    Ask(&'static [u8]),
    // Several requests at once.
    AskAll,
    Import(&'static [u8]),
    Grow(u64),
    List,
}

// What a command came to, and the files behind it, which are lost where it found no records.
#[derive(Drop)]
struct Came {
    out: Vec<u8>,
    err: Vec<u8>,
    is_whole: bool,
    files: Option<Files<Fuse<Memory>>>,
}

fn file_of(rt: &impl Abort, alloc: Global, bytes: &[u8], calls: u64) -> Fuse<Memory> {
    let mut file = Memory::new(alloc);
    assert!(rt; file.write_at(0, bytes).is_ok());
    assert!(rt; file.sync().is_ok());
    Fuse::new(file, calls)
}

fn init(rt: &impl Abort, conn: &mut Stopping, out: &mut Vec<u8>, err: &mut Vec<u8>) -> Status {
    let sites = Sites::of(2).expect(rt, "a count");
    let limit = Limit::of(1000).expect(rt, "a limit");
    init_store(conn, site(rt, 1), sites, limit, out, err)
}

fn grow(
    rt: &impl Abort,
    alloc: Global,
    conn: Stopping,
    count: u64,
    out: &mut Vec<u8>,
    err: &mut Vec<u8>,
) -> (Status, Option<Stopping>) {
    let sites = Sites::of(count).expect(rt, "a count");
    grow_store(alloc, conn, sites, out, err)
}

fn sale(rt: &impl Abort, seats: u64) -> Request {
    Request::Sell {
        event: Event::read(b"gala").expect(rt, "a name"),
        amount: Amount::of(seats).expect(rt, "an amount"),
    }
}

// Prints `answered` where the requests were.
fn ask_all(
    rt: &(impl Abort + Wait),
    alloc: Global,
    conn: Stopping,
    out: &mut Vec<u8>,
) -> (Status, Option<Stopping>) {
    let (records, entries, meta) = match Records::open(alloc, conn) {
        Ok(opened) => opened,
        Err(_) => return (Status::Failed, None),
    };
    let mut book = match SiteBook::start(alloc, records, entries, meta) {
        Ok(book) => book,
        Err((records, _)) => return (Status::Failed, Some(records.close())),
    };
    let fifth = RequestNumber::of(5).expect(rt, "a number");
    let sixth = RequestNumber::of(6).expect(rt, "a number");
    let seventh = RequestNumber::of(7).expect(rt, "a number");
    let requests = [
        (fifth, sale(rt, 40)),
        (sixth, sale(rt, 3)),
        (seventh, sale(rt, 2)),
    ];
    let status = match book.ask_all(rt, alloc, requests.as_slice()) {
        Ok(answers) => {
            assert!(rt; answers.len() == 3);
            assert!(rt; out.extend_from_slice(ANSWERED).is_ok());
            Status::Done
        }
        Err(_) => Status::Failed,
    };
    (status, Some(book.into_keeper().close()))
}

fn give(
    rt: &(impl Abort + Wait),
    alloc: Global,
    command: Command,
    mut conn: Stopping,
    out: &mut Vec<u8>,
    err: &mut Vec<u8>,
) -> (Status, Option<Stopping>) {
    match command {
        Command::Init => (init(rt, &mut conn, out, err), Some(conn)),
        Command::Ask(lines) => ask_store(rt, alloc, conn, lines, out, err),
        Command::AskAll => ask_all(rt, alloc, conn, out),
        Command::Import(text) => import_store(alloc, conn, text, out, err),
        Command::Grow(count) => grow(rt, alloc, conn, count, out, err),
        Command::List => list_store(alloc, conn, "gala", out, err),
    }
}

// The files behind a connection, and whether they were closed.
fn behind(conn: Stopping) -> (bool, Files<Fuse<Memory>>) {
    match conn.close_files() {
        Ok(files) => (true, files),
        Err((_error, store)) => (false, store.close()),
    }
}

fn run(
    rt: &(impl Abort + Wait),
    alloc: Global,
    held: &Held,
    calls: Calls,
    command: Command,
) -> Came {
    let mut out = Vec::new(alloc);
    let mut err = Vec::new(alloc);
    let files = Files {
        log: file_of(rt, alloc, held.log.as_slice(), calls.log),
        db: file_of(rt, alloc, held.db.as_slice(), calls.db),
    };
    // Room for all pages of such a file, since an open clears all that it takes.
    let options = Options {
        cache_pages: 8,
        ..Options::new(7)
    };
    assert!(rt; files.may_be_used());
    let (is_whole, files) = match Connection::open_files(alloc, files, options) {
        Ok(conn) => match give(rt, alloc, command, conn, &mut out, &mut err) {
            (status, Some(conn)) => {
                let (is_closed, files) = behind(conn);
                (is_closed && status == Status::Done, Some(files))
            }
            (_status, None) => (false, None),
        },
        Err((_error, left)) => (false, Some(left.into_files())),
    };
    Came {
        out,
        err,
        is_whole,
        files,
    }
}

fn held_by(rt: &impl Abort, alloc: Global, files: &Files<Fuse<Memory>>) -> Held {
    let log = Vec::from_slice(alloc, files.log.inner().bytes());
    let db = Vec::from_slice(alloc, files.db.inner().bytes());
    Held {
        log: log.expect(rt, "memory"),
        db: db.expect(rt, "memory"),
    }
}

// What the command leaves where nothing fails, and what it prints there.
fn left_by(
    rt: &(impl Abort + Wait),
    alloc: Global,
    held: &Held,
    command: Command,
    printed: &[u8],
) -> Held {
    let came = run(rt, alloc, held, ALL, command);
    assert!(rt; came.out.as_slice() == printed);
    held_by(rt, alloc, &came.files.expect(rt, "records"))
}

fn no_files(alloc: Global) -> Held {
    Held {
        log: Vec::new(alloc),
        db: Vec::new(alloc),
    }
}

// Site 1 of two, without entries.
fn empty_site(rt: &(impl Abort + Wait), alloc: Global) -> Held {
    left_by(rt, alloc, &no_files(alloc), Command::Init, b"done\n")
}

const MESSAGE: &[u8] = b"delta 0 1 4\nname gala\ngave gala 0 0 100\ngave gala 0 1 40\nend\n";

const LINES: &[u8] = b"announce 1 gala\nrelease 2 gala 50\nsell 3 gala 8\nsell 4 gala 100\n";

const REPLIES: &[u8] = b"done\ndone\ndone\nshort 42\n";

const LISTED: &[u8] =
    b"0 announce 1 gala done\n1 release 2 gala 50 done\n2 sell 3 gala 8 done\n3 sell 4 gala 100 short 42\n";

const ANSWERED: &[u8] = b"answered\n";

// With the requests that were asked at once, each of which was decided by those before it.
const ALL_LISTED: &[u8] =
    b"0 announce 1 gala done\n1 release 2 gala 50 done\n2 sell 3 gala 8 done\n3 sell 4 gala 100 short 42\n\
        4 sell 5 gala 40 done\n5 sell 6 gala 3 short 2\n6 sell 7 gala 2 done\n";

// What a session may print where a call fails, each with how many of its requests were answered.
const SESSIONS: [(&[u8], usize); 6] = [
    (b"", 0),
    (b"store\nclosed\nclosed\nclosed\n", 0),
    (b"done\nstore\nclosed\nclosed\n", 1),
    (b"done\ndone\nstore\nclosed\n", 2),
    (b"done\ndone\ndone\nstore\n", 3),
    (REPLIES, 4),
];

fn lines_in(text: &[u8]) -> usize {
    let mut count: usize = 0;
    for byte in text {
        if *byte == b'\n' {
            count = count.wrapping_add(1);
        }
    }
    count
}

fn answered(rt: &impl Abort, printed: &[u8]) -> usize {
    for (session, count) in SESSIONS {
        if session == printed {
            return count;
        }
    }
    panic!(rt; "another session")
}

// The records are there, without entries, or they are not and can be made.
fn is_left_by_init(rt: &(impl Abort + Wait), alloc: Global, held: &Held, printed: &[u8]) {
    let shown = run(rt, alloc, held, ALL, Command::Ask(b"left gala\n"));
    if shown.out.as_slice() == b"unknown\n".as_slice() {
        left_by(rt, alloc, held, Command::Init, b"already-there\n");
    } else {
        assert!(rt; printed.is_empty());
        assert!(rt; shown.err.as_slice() == b"not-ours\n".as_slice());
        left_by(rt, alloc, held, Command::Init, b"done\n");
    }
}

// The first of the entries are there, each that was answered among them, and the session comes to the same in the end.
fn is_left_by_session(rt: &(impl Abort + Wait), alloc: Global, held: &Held, printed: &[u8]) {
    let listed = run(rt, alloc, held, ALL, Command::List).out;
    if listed.as_slice() == b"none\n".as_slice() {
        assert!(rt; answered(rt, printed) == 0);
    } else {
        assert!(rt; LISTED.starts_with(listed.as_slice()));
        assert!(rt; answered(rt, printed) <= lines_in(listed.as_slice()));
    }
    let again = left_by(rt, alloc, held, Command::Ask(LINES), REPLIES);
    left_by(rt, alloc, &again, Command::List, LISTED);
}

// All of the entries are there or none, and all where they were answered; asked again, they come to the same.
fn is_left_by_all(rt: &(impl Abort + Wait), alloc: Global, held: &Held, printed: &[u8]) {
    let listed = run(rt, alloc, held, ALL, Command::List).out;
    if listed.as_slice() == LISTED {
        assert!(rt; printed.is_empty());
    } else {
        assert!(rt; listed.as_slice() == ALL_LISTED);
    }
    let again = left_by(rt, alloc, held, Command::AskAll, ANSWERED);
    left_by(rt, alloc, &again, Command::List, ALL_LISTED);
}

// The entry is there or not.
fn is_left_by_import(rt: &(impl Abort + Wait), alloc: Global, held: &Held, printed: &[u8]) {
    let shown = run(rt, alloc, held, ALL, Command::Ask(b"left gala\n")).out;
    if shown.as_slice() == b"left 40\n".as_slice() {
        left_by(rt, alloc, held, Command::Import(MESSAGE), b"nothing-new\n");
    } else {
        assert!(rt; printed.is_empty());
        assert!(rt; shown.as_slice() == b"unknown\n".as_slice());
        left_by(rt, alloc, held, Command::Import(MESSAGE), b"joined\n");
    }
}

// The growth is there or not.
fn is_left_by_grow(rt: &(impl Abort + Wait), alloc: Global, held: &Held, printed: &[u8]) {
    let again = run(rt, alloc, held, ALL, Command::Grow(21)).out;
    if again.as_slice() == b"not-more\n".as_slice() {
        assert!(rt; printed.is_empty() || printed == b"grown\n".as_slice());
    } else {
        assert!(rt; printed.is_empty());
        assert!(rt; again.as_slice() == b"grown\n".as_slice());
    }
}

fn is_left(rt: &(impl Abort + Wait), alloc: Global, command: Command, held: &Held, printed: &[u8]) {
    match command {
        Command::Init => is_left_by_init(rt, alloc, held, printed),
        Command::Ask(_) => is_left_by_session(rt, alloc, held, printed),
        Command::AskAll => is_left_by_all(rt, alloc, held, printed),
        Command::Import(_) => is_left_by_import(rt, alloc, held, printed),
        Command::Grow(_) => is_left_by_grow(rt, alloc, held, printed),
        Command::List => {}
    }
}

// Whether all went well where so many calls do. What was written and what of it was synced are as they should be.
fn stop(
    rt: &(impl Abort + Wait),
    alloc: Global,
    held: &Held,
    calls: Calls,
    command: Command,
) -> bool {
    let came = run(rt, alloc, held, calls, command);
    let mut files = came.files.expect(rt, "records");
    let written = held_by(rt, alloc, &files);
    if !came.out.is_empty() || written != *held {
        is_left(rt, alloc, command, &written, came.out.as_slice());
    }
    files.log.crash();
    files.db.crash();
    let synced = held_by(rt, alloc, &files);
    if synced != written {
        is_left(rt, alloc, command, &synced, came.out.as_slice());
    }
    came.is_whole
}

// More calls than any of the commands makes.
const MANY: u64 = 1000;

// Stops at each call of the log, or of the database, until all go well.
fn stop_at_each_call(
    rt: &(impl Abort + Wait),
    alloc: Global,
    held: &Held,
    command: Command,
    is_log: bool,
) {
    for count in 0..MANY {
        let calls = if is_log {
            Calls { log: count, ..ALL }
        } else {
            Calls { db: count, ..ALL }
        };
        if stop(rt, alloc, held, calls, command) {
            assert!(rt; count > 0);
            return;
        }
    }
    panic!(rt; "more calls than that");
}

fn stop_everywhere(rt: &(impl Abort + Wait), alloc: Global, held: &Held, command: Command) {
    stop_at_each_call(rt, alloc, held, command, true);
    stop_at_each_call(rt, alloc, held, command, false);
}

#[test]
fn init_is_made_or_not(rt: HostRuntime) {
    let held = no_files(rt.alloc());
    stop_everywhere(&rt, rt.alloc(), &held, Command::Init);
}

#[test]
fn session_keeps_what_it_answered(rt: HostRuntime) {
    let held = empty_site(&rt, rt.alloc());
    stop_everywhere(&rt, rt.alloc(), &held, Command::Ask(LINES));
}

#[test]
fn requests_asked_at_once_are_kept_or_not(rt: HostRuntime) {
    let empty = empty_site(&rt, rt.alloc());
    let held = left_by(&rt, rt.alloc(), &empty, Command::Ask(LINES), REPLIES);
    stop_everywhere(&rt, rt.alloc(), &held, Command::AskAll);
}

#[test]
fn import_is_made_or_not(rt: HostRuntime) {
    let held = empty_site(&rt, rt.alloc());
    stop_everywhere(&rt, rt.alloc(), &held, Command::Import(MESSAGE));
}

#[test]
fn growth_is_made_or_not(rt: HostRuntime) {
    let held = empty_site(&rt, rt.alloc());
    stop_everywhere(&rt, rt.alloc(), &held, Command::Grow(21));
}

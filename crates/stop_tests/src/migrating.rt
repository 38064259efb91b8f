//! Records of the first schema, and a stop at each call of the disk while they are raised.
//!
//! What holds a connection stops nowhere, so that its proof is short.

use book_core::Limit;
use rights_lattice::{SiteId, Sites};
use sql_records::{MigrateFault, Records};
use sqlite::{Alter, Connection, FileStore, Files, Options};
use sqlite_disk::{Fuse, Memory};
use sqlite_trees::store::Reopen;
use std::alloc::Global;
use std::process::Abort;

// The history `announce 1 gala / release 2 gala 5 / sell 9 gala 5 / refund 10 9`, as the first schema has it.
const FIRST: &str = "UPDATE meta SET version = 1;
INSERT INTO entries VALUES
(0, NULL, 1, 'announce', 'gala', NULL, NULL, 'done', NULL, 'name gala
'), (1, NULL, 2, 'release', 'gala', 5, NULL, 'done', NULL, 'gave gala 0 0 5
'), (2, NULL, 9, 'sell', 'gala', 5, NULL, 'done', NULL, 'used gala 0 5
'), (3, NULL, 10, 'refund', NULL, NULL, 9, 'done', NULL, 'back gala 0 5
')";

// A query for all rows in one text, and what it finds of that history.
const ROWS: &str =
    "SELECT group_concat(pos || number || verb || ifnull(event, '') || ifnull(amount, '') || ifnull(target, '') || reply || delta) FROM entries";

const HISTORY: &str = "01announcegaladonename gala
,12releasegala5donegave gala 0 0 5
,29sellgala5doneused gala 0 5
,310refund9doneback gala 0 5
";

// Makes those records, where the disk lets it.
fn make<S: Alter>(conn: &mut Connection<S>) -> Option<()> {
    let me = SiteId::of(0)?;
    let sites = Sites::of(1)?;
    if me.number() >= sites.count() {
        return None;
    }
    Records::init(conn, me, sites, Limit::of(1000)?).ok()?;
    conn.execute_batch(FIRST).ok()
}

fn version<S: Alter>(conn: &mut Connection<S>) -> Option<i64> {
    let row = conn.query_row("SELECT version FROM meta", &[]).ok()?;
    row.get(0).ok()
}

fn rows<S: Alter>(conn: &mut Connection<S>) -> Option<String> {
    let row = conn.query_row(ROWS, &[]).ok()?;
    row.get(0).ok()
}

type Fused = Fuse<Memory>;

// How many calls the log and the database take. Each one after fails.
#[derive(Clone, Copy)]
struct Calls {
    log: u64,
    db: u64,
}

const ALL: Calls = Calls {
    log: u64::MAX,
    db: u64::MAX,
};

// Those records in files that take so many calls.
fn in_files(alloc: Global, calls: Calls) -> Option<Connection<FileStore<Fused>>> {
    let files = Files {
        log: Fuse::new(Memory::new(alloc), calls.log),
        db: Fuse::new(Memory::new(alloc), calls.db),
    };
    let Ok(mut conn) = Connection::open_files(alloc, files, Options::new(1)) else {
        return None;
    };
    make(&mut conn)?;
    Some(conn)
}

// The machine stops, and comes back with what it may leave.
fn stop<S: Alter + Reopen + Drop>(alloc: Global, conn: Connection<S>) -> Option<Connection<S>> {
    let mut store = conn.into_store();
    store.crash_and_reopen().ok()?;
    Connection::over(alloc, store).ok()
}

// What a stop leaves: the version and the rows, what a migration finds then, and what the records have behind that.
#[derive(Drop)]
struct Found {
    version: i64,
    rows: String,
    fault: Option<MigrateFault>,
    entries: usize,
    me: u64,
    sites: u64,
    limit: u64,
}

// What there is of these records behind a stop, where they come back.
fn found_behind<S: Alter + Reopen + Drop>(alloc: Global, conn: Connection<S>) -> Option<Found> {
    let mut again = stop(alloc, conn)?;
    let version = version(&mut again)?;
    let rows = rows(&mut again)?;
    let fault = Records::migrate(alloc, &mut again).err();
    let (_records, entries, meta) = Records::open_after_stop(alloc, again).ok()?;
    Some(Found {
        version,
        rows,
        fault,
        entries: entries.len(),
        me: meta.me.number(),
        sites: meta.sites.count(),
        limit: meta.limit.entries(),
    })
}

// Whether a migration that a stop followed was done, and what the stop left; None where the records were not made by then.
fn left(alloc: Global, calls: Calls) -> Option<(bool, Option<Found>)> {
    let mut conn = in_files(alloc, calls)?;
    let is_done = Records::migrate(alloc, &mut conn).is_ok();
    Some((is_done, found_behind(alloc, conn)))
}

// The version that a stop behind so many calls leaves. The rows are those that were there under either version, and the first
// version can be raised again.
fn version_left(rt: &impl Abort, alloc: Global, calls: Calls) -> Option<i64> {
    let (is_done, found) = left(alloc, calls)?;
    let found = found.expect(rt, "records");
    match found.version {
        1 => assert!(rt; !is_done && found.fault.is_none()),
        2 => assert!(rt; found.fault == Some(MigrateFault::Nothing)),
        _ => panic!(rt; "another version"),
    }
    assert!(rt; found.rows.as_str() == HISTORY);
    assert!(rt; (found.entries, found.me, found.sites, found.limit) == (4, 0, 1, 1000));
    Some(found.version)
}

#[test]
fn stop_of_the_log_leaves_records_of_either_schema(rt: HostRuntime) {
    let alloc = rt.alloc();
    let (mut saw_first, mut saw_second) = (false, false);
    for log in 0..100 {
        match version_left(&rt, alloc, Calls { log, ..ALL }) {
            Some(1) => saw_first = true,
            Some(_) => saw_second = true,
            None => {}
        }
    }
    assert!(rt; saw_first && saw_second);
}

// A migration writes to the log alone.
#[test]
fn stop_of_the_database_leaves_what_the_log_has(rt: HostRuntime) {
    let alloc = rt.alloc();
    let mut saw_second = false;
    for db in 0..100 {
        if version_left(&rt, alloc, Calls { db, ..ALL }) == Some(2) {
            saw_second = true;
        }
    }
    assert!(rt; saw_second);
}

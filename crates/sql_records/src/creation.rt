//! A new site's records.
ghost use Rattle.std.specs.Prelude.{◌≡◌, ◌≢◌, [], ◌<◌, ◌↔◌, true, false, IsTrue, OnOk, OnErr, IfErr, IfSome, IfNone};
ghost use Rattle.sqlite.specs.State.{HasCleanDisk, Survives};
ghost use Rattle.sqlite.specs.Held.{state};
ghost use Rattle.sqlite.specs.Values.{bound};
ghost use Rattle.sql_records.specs.Layout.{no_schema, has_our_table, meta_of};
ghost use Rattle.sql_records.specs.Held.{HasCommittedNothing, IsNew, IsAtRest, LeavesAsBeforeOrNew, LeavesSite, MayLeaveIn};
ghost use Rattle.history_keeper.specs.Keeping.{LeavesOnly};
ghost use Rattle.sql_records.specs.Opened.{InitCall, IsMade};
ghost use Rattle.sql_records.specs.Making.{making, RunInTurn, FailInTurn, FailsToMake, IsRefusal, IsVacant, IsInitFault};

use crate::fault::InitFault;
use crate::records::Records;
use crate::shape::has_our_table;
use crate::version::{KIND, Version};
use book_core::Limit;
use history_keeper::Meta;
use rights_lattice::{SiteId, Sites};
use sqlite::types::ValueRef;
use sqlite::{Alter, Connection, Error, Transaction};
use sqlite_schema::schema::Schema;

const META: &str =
    "CREATE TABLE meta (one INTEGER PRIMARY KEY CHECK (one = 1), kind TEXT NOT NULL, version INTEGER NOT NULL, me INTEGER NOT NULL, sites INTEGER NOT NULL, bound INTEGER NOT NULL) STRICT";

const ENTRIES: &str =
    "CREATE TABLE entries (pos INTEGER PRIMARY KEY, peer INTEGER, number INTEGER UNIQUE, verb TEXT, event TEXT, amount INTEGER, target INTEGER, reply TEXT, rest INTEGER, delta TEXT NOT NULL) STRICT";

const META_INSERT: &str = "INSERT INTO meta VALUES (?1, ?2, ?3, ?4, ?5, ?6)";

fn is_empty(schema: &Schema) -> bool
    ensures { IsTrue result ↔ (schema.now ≡ no_schema) }
{
    schema.tables.is_empty() && schema.indexes.is_empty() && schema.views.is_empty()
}

// The columns of the row of `meta`.
fn meta_columns(meta: Meta) -> [ValueRef<'static>; 6]
    ensures { bound result ≡ meta_of meta }
{
    [
        ValueRef::Int(1),
        ValueRef::Text(KIND),
        ValueRef::Int(Version::Second.number()),
        ValueRef::Int(meta.me.number() as i64),
        ValueRef::Int(meta.sites.count() as i64),
        ValueRef::Int(meta.limit.entries() as i64),
    ]
}

// The three statements of new records.
fn fill<S: Alter>(tx: &mut Transaction<'_, S>, meta: Meta) -> Result<(), Error>
    requires inside { tx.old.conn.now.in_transaction ≡ true }
    requires empty { tx.old.conn.now.schema ≡ no_schema }
    ensures same_reference { tx.new.conn.ghost_name ≡ tx.old.conn.ghost_name }
    ensures made { HasCleanDisk (state S.Store tx.new.conn.now)
        → OnOk result (IsNew meta (state S.Store tx.new.conn.now).now) }
    ensures kept { HasCleanDisk (state S.Store tx.new.conn.now)
        → HasCommittedNothing (state S.Store tx.old.conn.now) (state S.Store tx.new.conn.now) }
    ensures survives { Survives
        (state S.Store tx.old.conn.now) (state S.Store tx.new.conn.now) (λ _. ⊥) }
    ensures runs { HasCleanDisk (state S.Store tx.new.conn.now)
        → OnOk result (RunInTurn S.Store (making meta) tx.old.conn.now tx.new.conn.now) }
    ensures fails { HasCleanDisk (state S.Store tx.new.conn.now)
        → IfErr result (FailInTurn S.Store (making meta) tx.old.conn.now tx.new.conn.now) }
{
    tx.execute(META, &[])?;
    tx.execute(ENTRIES, &[])?;
    let row = meta_columns(meta);
    tx.execute(META_INSERT, &row)?;
    Ok(())
}

// Why no new records are begun here.
fn refusal<S: Alter>(conn: &Connection<S>) -> Option<InitFault>
    ensures refused { IfSome result (IsRefusal conn.now.schema conn.now.in_transaction) }
    ensures none { IfNone result (IsVacant conn.now.schema conn.now.in_transaction) }
{
    if has_our_table(conn.schema()) {
        return Some(InitFault::AlreadyThere);
    }
    if !is_empty(conn.schema()) || !conn.is_autocommit() {
        return Some(InitFault::Disk);
    }
    None
}

// Makes new records in one transaction.
fn make<S: Alter>(conn: &mut Connection<S>, meta: Meta) -> Result<(), Error>
    requires me { meta.me < meta.sites }
    requires empty { (conn.old.in_transaction ≡ false) × (conn.old.schema ≡ no_schema) }
    ensures made { HasCleanDisk (state S.Store conn.new)
        → OnOk result (IsMade (state S.Store conn.new) meta) }
    ensures crash { HasCleanDisk (state S.Store conn.new)
        → LeavesAsBeforeOrNew meta (state S.Store conn.old) (state S.Store conn.new) }
    ensures as_before { HasCleanDisk (state S.Store conn.new) → IsTrue (state S.Store
        conn.new).is_open → OnErr result ((state S.Store conn.new).committed
        ≡ (state S.Store conn.old).committed) }
    ensures fails { HasCleanDisk (state S.Store conn.new)
        → IfErr result (FailsToMake S.Store conn.old meta) }
    ensures ended { (conn.new.in_transaction ≡ false)
        × (conn.new.step_limit ≡ conn.old.step_limit) }
    ensures clean { HasCleanDisk (state S.Store conn.new) → HasCleanDisk (state S.Store conn.old) }
{
    let mut tx = conn.transaction();
    match fill(&mut tx, meta) {
        Ok(()) => tx.commit(),
        Err(error) => {
            tx.rollback();
            Err(error)
        }
    }
}

impl<S: Alter> Records<S> {
    /// Makes the records of a site that has no entry yet, in an empty database, in one transaction.
    ///
    /// A stop leaves what it could leave before or the new records, also behind an error; `AlreadyThere`, where a table or
    /// view has the name of one of ours, leaves the database as it was. `Disk` too where the database holds anything else,
    /// or a transaction is open, which leaves both; else it and `Memory` are what a statement or the commit was answered
    /// with.
    pub fn init(
        conn: &mut Connection<S>,
        me: SiteId,
        sites: Sites,
        limit: Limit,
    ) -> Result<(), InitFault>
        requires me { me < sites }
        ensures { InitCall S.Store conn.old conn.new
            (record { me = me; sites = sites; limit = limit }) result }
    {
        if let Some(fault) = refusal(conn) {
            return Err(fault);
        }
        make(conn, Meta { me, sites, limit })?;
        Ok(())
    }
}

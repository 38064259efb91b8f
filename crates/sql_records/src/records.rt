//! The records of a site.
ghost use Rattle.std.specs.Prelude.{true, length, IfOk, ◌≤◌, ◌≡◌, ◌≢◌, ◌<◌, ◌+◌, ◌++◌, ◌∷◌, [], OnOk, IfErr, Err};
ghost use Rattle.sqlite.specs.State.{HasCleanDisk, IsUnchanged, Survives};
ghost use Rattle.sqlite.specs.Held.{state};
ghost use Rattle.sql_records.specs.Adding.{IsKeepAllFault, Puts, PutsAll};
ghost use Rattle.sql_records.specs.Held.{Adds, HasMore, IsAtRest, IsKeepFault, KeepsSite, MayLeaveIn, Stores, failing, history_in, most};
ghost use Rattle.history_keeper.specs.Keeping.{LeavesAllOrNone};

use crate::columns::fits;
use crate::fault::{OpenFault, keep_fault};
use crate::inserting::{insert, insert_in};
use crate::opening::read_records;
use book_core::Entry;
use delta_wire::delta_text;
use history_keeper::{KeepFault, Keeper, Meta};
use sqlite::{Alter, Connection, Transaction};
use std::alloc::Global;
use std::marker::Model;

mod finding;
mod stopping;

// More entries than any history has.
const MOST: u64 = 1 << 61;

/// The entries of a site's history, and its numbers, in two tables of a database.
pub struct Records<S: Alter> {
    conn: Connection<S>,
    count: u64,
    failures: u64,
    alloc: Global,
}

impl<S: Alter> Model for Records<S> {
    ghost use Rattle.sql_records.specs.Held.{RecordsView, kept_code, IsUnbroken};

    ghost Value = { RecordsView S };

    ghost coded = { kept_code S.code };

    ghost view = { λ r. record { conn = r.conn; failures = r.failures } };

    ghost invariant = { λ r. IsUnbroken S.Store r.conn r.failures r.count };
}

impl<S: Alter + Drop> Drop for Records<S> {
    fn drop(self) {
        let Records {
            conn: _,
            count: _,
            failures: _,
            alloc: _,
        } = self;
    }
}

// Stores the entry at the place, which is the next.
fn store<S: Alter>(
    alloc: Global,
    conn: &mut Connection<S>,
    place: u64,
    entry: &Entry,
) -> Result<(), KeepFault>
    requires rest { HasCleanDisk (state S.Store conn.old)
        → IsAtRest (state S.Store conn.old) place }
    ensures low { OnOk result (place < most) }
    ensures stores { HasCleanDisk (state S.Store conn.new) → Stores
        (state S.Store conn.old) (state S.Store conn.new) place (entry.now ∷ []) result }
    ensures cause { IfErr result (λ fault. HasCleanDisk (state S.Store conn.new)
        → IsKeepFault S.Store (failing conn.old 0) (failing conn.new 1) entry.now fault) }
    ensures named { result ≢ Err KeepFault.Shut }
{
    let text = delta_text(alloc, entry.delta())?;
    if place >= MOST || !fits(entry, &text) {
        return Err(KeepFault::Disk);
    }
    if let Err(error) = insert(conn, place, entry, &text) {
        return Err(keep_fault(error));
    }
    Ok(())
}

// Adds the entry in the transaction, at the place, which is the next.
fn store_in<S: Alter>(
    alloc: Global,
    tx: &mut Transaction<'_, S>,
    place: u64,
    entry: &Entry,
) -> Result<(), KeepFault>
    ensures same_reference { tx.new.conn.ghost_name ≡ tx.old.conn.ghost_name }
    ensures adds { HasCleanDisk (state S.Store tx.new.conn.now) → OnOk result
        (Adds (state S.Store tx.old.conn.now) (state S.Store tx.new.conn.now)
        place (entry.now ∷ [])) }
    ensures runs { HasCleanDisk (state S.Store tx.new.conn.now)
        → (state S.Store tx.old.conn.now).in_transaction ≡ true
        → Puts S.Store place entry.now tx.old.conn.now tx.new.conn.now result }
    ensures low { OnOk result (place < most) }
    ensures survives { Survives (state S.Store tx.old.conn.now)
        (state S.Store tx.new.conn.now) (λ _. ⊥) }
    ensures named { result ≢ Err KeepFault.Shut }
{
    let text = delta_text(alloc, entry.delta())?;
    if place >= MOST || !fits(entry, &text) {
        return Err(KeepFault::Disk);
    }
    if let Err(error) = insert_in(tx, place, entry, &text) {
        return Err(keep_fault(error));
    }
    Ok(())
}

// Adds the entries in the transaction, the first at the place, which is the next, and answers the place behind them.
fn store_each<S: Alter>(
    alloc: Global,
    tx: &mut Transaction<'_, S>,
    place: u64,
    entries: &[Entry],
) -> Result<u64, KeepFault>
    requires low { place ≤ most }
    ensures same_reference { tx.new.conn.ghost_name ≡ tx.old.conn.ghost_name }
    ensures next { IfOk result (λ next. (next ≡ place + length entries.now) × (next ≤ most)) }
    ensures adds { HasCleanDisk (state S.Store tx.new.conn.now) → OnOk result
        (Adds (state S.Store tx.old.conn.now) (state S.Store tx.new.conn.now)
        place entries.now) }
    ensures runs { HasCleanDisk (state S.Store tx.new.conn.now)
        → (state S.Store tx.old.conn.now).in_transaction ≡ true
        → PutsAll S.Store place entries.now tx.old.conn.now tx.new.conn.now result }
    ensures survives { Survives (state S.Store tx.old.conn.now)
        (state S.Store tx.new.conn.now) (λ _. ⊥) }
    ensures named { result ≢ Err KeepFault.Shut }
{
    let mut next = place;
    for entry in entries {
        store_in(alloc, tx, next, entry)?;
        next += 1;
    }
    Ok(next)
}

// Stores the entries in one transaction, the first at the place, which is the next, and answers the place behind them.
fn store_all<S: Alter>(
    alloc: Global,
    conn: &mut Connection<S>,
    place: u64,
    entries: &[Entry],
) -> Result<u64, KeepFault>
    requires rest { HasCleanDisk (state S.Store conn.old)
        → IsAtRest (state S.Store conn.old) place }
    ensures next { IfOk result (λ next. next ≡ place + length entries.now) }
    ensures more { HasCleanDisk (state S.Store conn.new) → OnOk result
        (HasMore (state S.Store conn.old) (state S.Store conn.new) place entries.now) }
    ensures stopped { HasCleanDisk (state S.Store conn.new) → LeavesAllOrNone
        (history_in (state S.Store conn.old).now.trees) entries.now
        (MayLeaveIn (state S.Store conn.new)) }
    ensures cause { IfErr result (λ fault. HasCleanDisk (state S.Store conn.new)
        → IsKeepAllFault S.Store (failing conn.old 0) (failing conn.new 1) entries.now fault) }
    ensures named { result ≢ Err KeepFault.Shut }
    ensures site { HasCleanDisk (state S.Store conn.new)
        → KeepsSite (state S.Store conn.old) (state S.Store conn.new) }
    ensures clean { HasCleanDisk (state S.Store conn.new)
        → HasCleanDisk (state S.Store conn.old) }
{
    let is_settled = conn.is_autocommit();
    if !is_settled || place > MOST {
        return Err(KeepFault::Disk);
    }
    let mut tx = conn.transaction();
    match store_each(alloc, &mut tx, place, entries) {
        Ok(next) => match tx.commit() {
            Ok(()) => Ok(next),
            Err(error) => Err(keep_fault(error)),
        },
        Err(fault) => {
            tx.rollback();
            Err(fault)
        }
    }
}

impl<S: Alter> Keeper for Records<S> {
    ghost use Rattle.std.specs.Prelude.{◌≡◌, ◌≢◌, ◌++◌, ◌∷◌, [], OnOk, OnErr, IfErr, IsErrOf, MatchResult, refl};
    ghost use Rattle.std.proofs.Math.Logic.{∥∥₁_map};
    ghost use Rattle.history_keeper.specs.declared.meta.Meta.{Meta as Numbers};
    ghost use Rattle.sql_records.specs.Adding.{IsKeepAllFault};
    ghost use Rattle.history_keeper.specs.Keeping.{Keeps, LeavesAllOrNone, LeavesWithOrWithout};
    ghost use Rattle.sql_records.specs.Held.{kept_in, opened_in, MayLeave, IsOf, IsTrusted, IsKeepFault};

    ghost kept = { kept_in S.Store };

    ghost may_leave = { MayLeave S.Store };

    ghost is_of = { IsOf S.Store };

    ghost failed = { λ k. k.failures };

    ghost is_trusted = { IsTrusted S.Store };

    ghost survives = { λ k clean. ∥∥₁_map (S.Store.survives k.conn.store clean) (λ it. (opened_in it.0, (it.0, it.1, refl))) };

    /// As of every keeper; behind `Memory` nothing was done, or what the INSERT began is undone, and `Disk` comes
    /// only where there is no room for the entry or its INSERT failed.
    fn append(&mut self, entry: &Entry) -> Result<(), KeepFault>
        ensures kept { OnOk result
            (IsTrusted S.Store self.new → Keeps (kept_in S.Store self.old ++ entry.now ∷ [])
            (kept_in S.Store self.new) (MayLeave S.Store self.new)) }
        ensures stopped { self.old.failures ≡ 0 → OnErr result (IsTrusted S.Store self.new →
            LeavesWithOrWithout (kept_in S.Store self.old) entry.now (MayLeave S.Store self.new)) }
        ensures counted { self.old.failures ≡ 0
            → MatchResult result (λ _. self.new.failures ≡ 0) (λ _. self.new.failures ≡ 1) }
        ensures named { self.old.failures ≡ 0 → IsErrOf result KeepFault.Shut → ⊥ }
        ensures shut { self.old.failures ≢ 0
            → (result ≡ Err KeepFault.Shut) × (self.new ≡ self.old) }
        ensures cause { IfErr result (λ fault. IsTrusted S.Store self.new
            → IsKeepFault S.Store self.old self.new entry.now fault) }
        ensures site { IsTrusted S.Store self.new
            → (meta : Numbers) → IsOf S.Store self.old meta → IsOf S.Store self.new meta }
        ensures trusted { IsTrusted S.Store self.new → IsTrusted S.Store self.old }
    {
        if self.failures != 0 {
            return Err(KeepFault::Shut);
        }
        match store(self.alloc, &mut self.conn, self.count, entry) {
            Ok(()) => {
                self.count += 1;
                Ok(())
            }
            Err(fault) => {
                self.failures = 1;
                Err(fault)
            }
        }
    }

    /// As of every keeper, in one transaction. `Memory` and `Disk` come only where an entry could not be added to it, as
    /// `append` could not, or where its commit was answered so, or where there are more entries than any history has.
    fn append_all(&mut self, entries: &[Entry]) -> Result<(), KeepFault>
        ensures kept { OnOk result (IsTrusted S.Store self.new → Keeps
            (kept_in S.Store self.old ++ entries.now) (kept_in S.Store self.new)
            (MayLeave S.Store self.new)) }
        ensures stopped { self.old.failures ≡ 0 → OnErr result (IsTrusted S.Store self.new
            → LeavesAllOrNone (kept_in S.Store self.old) entries.now (MayLeave S.Store self.new)) }
        ensures counted { self.old.failures ≡ 0
            → MatchResult result (λ _. self.new.failures ≡ 0) (λ _. self.new.failures ≡ 1) }
        ensures named { self.old.failures ≡ 0 → IsErrOf result KeepFault.Shut → ⊥ }
        ensures shut { self.old.failures ≢ 0
            → (result ≡ Err KeepFault.Shut) × (self.new ≡ self.old) }
        ensures cause { IfErr result (λ fault. IsTrusted S.Store self.new
            → IsKeepAllFault S.Store self.old self.new entries.now fault) }
        ensures site { IsTrusted S.Store self.new → (meta : Numbers)
            → IsOf S.Store self.old meta → IsOf S.Store self.new meta }
        ensures trusted { IsTrusted S.Store self.new → IsTrusted S.Store self.old }
    {
        if self.failures > 0 {
            return Err(KeepFault::Shut);
        }
        match store_all(self.alloc, &mut self.conn, self.count, entries) {
            Ok(next) => {
                self.count = next;
                Ok(())
            }
            Err(fault) => {
                self.failures = 1;
                Err(fault)
            }
        }
    }

    fn failures(&self) -> u64 {
        self.failures
    }
}

impl<S: Alter + Drop> Records<S> {
    ghost use Rattle.std.specs.Prelude.{◌≡◌, IfOk, IfErr};
    ghost use Rattle.sql_records.specs.Opened.{CannotOpen, IsRecordsOf};

    /// The records of a database, the entries that they hold, the oldest first, and the site's numbers.
    ///
    /// `Disk` where a transaction is open; each other error is as of `read_records`, of the connection as the
    /// call left it, which is gone then.
    pub fn open(
        alloc: Global,
        mut conn: Connection<S>,
    ) -> Result<(Records<S>, Vec<Entry>, Meta), OpenFault>
        ensures opened { IfOk result (λ it. IsRecordsOf S.Store conn it.0 it.1.items it.2) }
        ensures fault { IfErr result (CannotOpen S.Store conn) }
    {
        let is_settled = conn.is_autocommit();
        if !is_settled {
            return Err(OpenFault::Disk);
        }
        let (entries, meta) = read_records(alloc, &mut conn)?;
        let records = Records {
            conn,
            count: entries.len() as u64,
            failures: 0,
            alloc,
        };
        Ok((records, entries, meta))
    }

    /// The connection, with the store as it is.
    pub fn close(self) -> Connection<S>
        ensures { result ≡ self.conn }
    {
        let Records {
            conn: connection,
            count: _,
            failures: _,
            alloc: _,
        } = self;
        connection
    }
}

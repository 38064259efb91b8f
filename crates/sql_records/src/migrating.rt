//! Records of the first version, made ones of the second.
ghost use Rattle.std.specs.Prelude.{◌≡◌, ◌≢◌, ◌<◌, ℕ, true, false, length, Err, OnOk, OnErr, IfErr, IsTrue, []};
ghost use Rattle.sqlite.specs.State.{HasCleanDisk, Executes, IsUnchanged};
ghost use Rattle.sqlite.specs.Held.{state};
ghost use Rattle.history_keeper.specs.declared.meta.Meta.{Meta as Numbers};
ghost use Rattle.sql_records.specs.declared.version.Version.TheVariants.{First};
ghost use Rattle.history_keeper.specs.Meta.{office_of};
ghost use Rattle.sql_records.specs.Layout.{IsOurs, HasMetaAs};
ghost use Rattle.book_core.specs.declared.plan.ReplayFault.{ReplayFault as Illegal};
ghost use Rattle.book_core.specs.Legal.{IsLegal};
ghost use Rattle.book_core.specs.Replay.{IsReplayFault};
ghost use Rattle.sql_records.specs.Opening.{Reads};
ghost use Rattle.sql_records.specs.Held.{IsAtRest, LeavesNoMore, LeavesSite, MayLeaveIn, history_in};
ghost use Rattle.history_keeper.specs.Keeping.{LeavesOnly};
ghost use Rattle.sql_records.specs.Migrating.{IsAsBefore, IsMigrated, LeavesAsBeforeOrMigrated, LeavesItOrMigrated, IsLegalFirst, IsToldAs, MigrateCall, of_replay, IsUnfit};

use crate::fault::{MigrateFault, OpenFault};
use crate::opening::read_as;
use crate::records::Records;
use crate::shape::is_ours;
use crate::version::Version;
use book_core::{Book, Entry, ReplayFault};
use history_keeper::Meta;
use sqlite::{Alter, Connection, Error};
use std::alloc::Global;

const UPDATE: &str = "UPDATE meta SET version = 2";

// Raises the version to the second, in one transaction of its own.
fn set_version<S: Alter>(conn: &mut Connection<S>) -> Result<(), Error>
    requires rest { HasCleanDisk (state S.Store conn.old)
        → (place : ℕ) × IsAtRest (state S.Store conn.old) place }
    requires legal { HasCleanDisk (state S.Store conn.old)
        → IsLegalFirst (state S.Store conn.old).now.trees }
    ensures rest { HasCleanDisk (state S.Store conn.new) → OnOk result ((place : ℕ)
        → IsAtRest (state S.Store conn.old) place → IsAtRest (state S.Store conn.new) place) }
    ensures set { HasCleanDisk (state S.Store conn.new) → OnOk result
        (IsMigrated (state S.Store conn.old).now.trees (state S.Store conn.new).now.trees) }
    ensures leaves { HasCleanDisk (state S.Store conn.new) → OnOk result (LeavesOnly
        (history_in (state S.Store conn.old).now.trees) (MayLeaveIn (state S.Store conn.new))) }
    ensures site { HasCleanDisk (state S.Store conn.new) → OnOk result ((meta : Numbers) → HasMetaAs
        First meta (state S.Store conn.old).now.trees → LeavesSite (state S.Store conn.new) meta) }
    ensures crash { HasCleanDisk (state S.Store conn.new)
        → LeavesAsBeforeOrMigrated (state S.Store conn.old) (state S.Store conn.new) }
    ensures as_before { HasCleanDisk (state S.Store conn.new)
        → OnErr result (IsAsBefore (state S.Store conn.old) (state S.Store conn.new)) }
    ensures fails { HasCleanDisk (state S.Store conn.new) → IfErr result
        (λ e. Executes UPDATE.now [] (state S.Store conn.old) (state S.Store conn.new) (Err e)) }
    ensures limit { conn.new.step_limit ≡ conn.old.step_limit }
    ensures clean { HasCleanDisk (state S.Store conn.new) → HasCleanDisk (state S.Store conn.old) }
{
    conn.execute(UPDATE, &[])?;
    Ok(())
}

// What a fault of reading the first version is told as, where the tables are ours or not.
fn told_as(are_ours: bool, fault: OpenFault) -> MigrateFault
    ensures { IsToldAs are_ours fault result }
{
    match fault {
        OpenFault::NotOurs => MigrateFault::NotOurs,
        OpenFault::OtherSchema { version } => {
            if version != Version::Second.number() {
                MigrateFault::OtherSchema { version }
            } else if are_ours {
                MigrateFault::Nothing
            } else {
                MigrateFault::NotOurs
            }
        }
        OpenFault::Damaged { place } => MigrateFault::Damaged { place },
        OpenFault::Memory => MigrateFault::Memory,
        OpenFault::Disk => MigrateFault::Disk,
    }
}

fn of_replay(fault: ReplayFault) -> MigrateFault
    ensures { result ≡ of_replay fault }
{
    match fault {
        ReplayFault::IllegalAt { place } => MigrateFault::Damaged {
            place: place as u64,
        },
        ReplayFault::Memory => MigrateFault::Memory,
    }
}

// Whether the entries are a legal history of the site.
fn check_history(alloc: Global, meta: Meta, entries: Vec<Entry>) -> Result<(), MigrateFault>
    requires { meta.me < meta.sites }
    ensures legal { OnOk result (IsLegal (office_of meta) entries.items) }
    ensures fault { IfErr result (λ fault. (illegal : Illegal)
        × IsReplayFault (office_of meta) entries.items illegal × (fault ≡ of_replay illegal)) }
{
    match Book::replay(alloc, meta.me, meta.sites, meta.limit, entries) {
        Ok(_) => Ok(()),
        Err(fault) => Err(of_replay(fault)),
    }
}

// Whether the records are of the first version, with a legal history. It writes nothing.
fn check_first<S: Alter>(alloc: Global, conn: &mut Connection<S>) -> Result<(), MigrateFault>
    ensures busy { conn.old.in_transaction ≡ true
        → (result ≡ Err MigrateFault.Disk) × (conn.new ≡ conn.old) }
    ensures outside { OnOk result (conn.old.in_transaction ≡ false) }
    ensures schema { OnOk result (IsOurs conn.old.schema) }
    ensures settled { conn.old.in_transaction ≡ false → IsTrue (state S.Store conn.old).is_open
        → (state S.Store conn.old).now ≡ (state S.Store conn.old).committed }
    ensures rest { HasCleanDisk (state S.Store conn.new) → OnOk result (IsAtRest
        (state S.Store conn.new) (length (history_in (state S.Store conn.old).now.trees))) }
    ensures first { HasCleanDisk (state S.Store conn.new)
        → OnOk result (IsLegalFirst (state S.Store conn.old).now.trees) }
    ensures fault { HasCleanDisk (state S.Store conn.new)
        → IfErr result (IsUnfit S.Store conn.old conn.new) }
    ensures reads { Reads S.Store conn.old conn.new result }
{
    let is_settled = conn.is_autocommit();
    if !is_settled {
        return Err(MigrateFault::Disk);
    }
    let are_ours = is_ours(conn.schema());
    match read_as(alloc, Version::First, conn) {
        Ok((entries, meta)) => check_history(alloc, meta, entries),
        Err(fault) => Err(told_as(are_ours, fault)),
    }
}

impl<S: Alter> Records<S> {
    /// Makes the records of a site in the first version records of the second, in one transaction. The numbers and the
    /// entries are as they were.
    ///
    /// A stop leaves what was there, or the numbers under the new version and the rows of the entries; an error leaves what
    /// was there to a connection that is still open. Another version than 1 and 2 comes first, whatever the tables are
    /// (`OtherSchema`); then tables that are not ours (`NotOurs`), version 2 (`Nothing`, whatever else the records hold),
    /// the numbers (`NotOurs`) and the entries (`Damaged`). `Memory` and `Disk` come at the call that fails; `Disk` too
    /// where a transaction is open, which changes nothing.
    pub fn migrate(alloc: Global, conn: &mut Connection<S>) -> Result<(), MigrateFault>
        ensures { MigrateCall S.Store conn.old conn.new result }
    {
        check_first(alloc, conn)?;
        set_version(conn)?;
        Ok(())
    }
}

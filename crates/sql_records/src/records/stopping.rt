//! What an open finds after a stop.
ghost use Rattle.std.specs.Prelude.{◌≡◌, IfOk, IfErr, IfSome};
ghost use Rattle.sqlite.specs.Effect.{IsDatabase};
ghost use Rattle.sqlite.specs.State.{HasCleanDisk};
ghost use Rattle.sqlite.specs.Held.{Held, IsNew, state};
ghost use Rattle.history_keeper.specs.declared.meta.Meta.{Meta as Numbers};
ghost use Rattle.sql_records.specs.Held.{IsTrusted, Finds, LeavesSite, MayLeaveIn};
ghost use Rattle.history_keeper.specs.Keeping.{CanBeOpened};
ghost use Rattle.sql_records.specs.Opening.{IsAfterStop, IsFoundAfterStop};

use super::Records;
use crate::fault::OpenFault;
use book_core::Entry;
use history_keeper::Meta;
use sqlite::{Alter, Connection};
use sqlite_trees::store::Reopen;
use std::alloc::Global;

// The store stops and comes back with a database that it may leave.
fn come_back<S: Alter + Reopen + Drop>(alloc: Global, conn: Connection<S>) -> Option<Connection<S>>
    ensures left { IfSome result (λ again. HasCleanDisk (state S.Store again)
        → (state S.Store conn).may_leave (state S.Store again).now.trees) }
    ensures sound { IfSome result
        (λ again. HasCleanDisk (state S.Store again) → IsDatabase (state S.Store again).now) }
    ensures fresh { IfSome result IsNew }
{
    let mut store = conn.into_store();
    match store.crash_and_reopen() {
        Ok(()) => match Connection::over(alloc, store) {
            Ok(again) => Some(again),
            Err(_) => None,
        },
        Err(_) => None,
    }
}

impl<S: Alter + Reopen + Drop> Records<S> {
    /// The records as the next open finds them if the program stops now, or stopped inside the last call that used
    /// the connection.
    ///
    /// What is found is a database that may be left: so after an Ok of `append` it is the list with the entry,
    /// after its first error that or the list before, and the numbers are those of `init`. Where each one that may
    /// be left is a site's and reads, only memory or the disk can stand in the way. Each fault is that of an open of
    /// the database that came back, by a new connection. `None` is answered where no connection came back; no clause
    /// says that it comes only then.
    pub fn open_after_stop(
        alloc: Global,
        conn: Connection<S>,
    ) -> Result<(Records<S>, Vec<Entry>, Meta), Option<OpenFault>>
        ensures found { IfOk result
            (λ it. IsTrusted S.Store it.0 → Finds (state S.Store conn) it.2 it.1.items) }
        ensures numbers { IfOk result (λ it. IsTrusted S.Store it.0
            → (meta : Numbers) → LeavesSite (state S.Store conn) meta → it.2 ≡ meta) }
        ensures fault { IfErr result (λ fault. IfSome fault (IsFoundAfterStop S.Store conn)) }
        ensures opens { IfErr result (λ fault. (after : Held S) ×
            (HasCleanDisk (state S.Store after) → (meta : Numbers) → LeavesSite (state S.Store conn)
            meta → CanBeOpened (MayLeaveIn (state S.Store conn)) → IsAfterStop fault)) }
    {
        let Some(again) = come_back(alloc, conn) else {
            return Err(None);
        };
        match Records::open(alloc, again) {
            Ok(found) => Ok(found),
            Err(fault) => Err(Some(fault)),
        }
    }
}

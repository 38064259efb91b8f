//! One entry more in the table.
ghost use Rattle.std.specs.Prelude.{true, ◌≡◌, ◌<◌, ◌^◌, OnOk, IfErr, Err, [], ◌∷◌, length};
ghost use Rattle.sqlite.specs.State.{HasCleanDisk, Executes, Survives};
ghost use Rattle.sqlite.specs.Held.{state};
ghost use Rattle.book_core.specs.History.{delta_of};
ghost use Rattle.delta_wire.specs.Grammar.{IsDelta, delta_text};
ghost use Rattle.sql_records.specs.Rows.{HasRoom, columns_of};
ghost use Rattle.sql_records.specs.Adding.{RunsInsert};
ghost use Rattle.sql_records.specs.Held.{Adds, IsAtRest, Stores};

use crate::columns::columns;
use book_core::Entry;
use sqlite::{Alter, Connection, Error, Transaction};

const INSERT: &str = "INSERT INTO entries VALUES (?1, ?2, ?3, ?4, ?5, ?6, ?7, ?8, ?9, ?10)";

/// Adds the entry, with this text of its delta, at the place, which is the next.
pub fn insert<S: Alter>(
    conn: &mut Connection<S>,
    place: u64,
    entry: &Entry,
    text: &str,
) -> Result<(), Error>
    requires place { place < 2 ^ 62 }
    requires text { text.now ≡ delta_text (delta_of entry.now) }
    requires delta { IsDelta (delta_of entry.now) }
    requires room { HasRoom entry.now (length text.now) }
    requires rest { HasCleanDisk (state S.Store conn.old)
        → IsAtRest (state S.Store conn.old) place }
    ensures stores { HasCleanDisk (state S.Store conn.new) → Stores
        (state S.Store conn.old) (state S.Store conn.new) place (entry.now ∷ []) result }
    ensures fails { HasCleanDisk (state S.Store conn.new) → IfErr result (λ e. Executes INSERT.now
        (columns_of place entry.now) (state S.Store conn.old) (state S.Store conn.new) (Err e)) }
{
    let row = columns(place, entry, text);
    conn.execute(INSERT, &row)?;
    Ok(())
}

/// Adds the entry in the transaction, at the place, which is the next. A stop leaves nothing that it could not leave before.
pub fn insert_in<S: Alter>(
    tx: &mut Transaction<'_, S>,
    place: u64,
    entry: &Entry,
    text: &str,
) -> Result<(), Error>
    requires place { place < 2 ^ 62 }
    requires text { text.now ≡ delta_text (delta_of entry.now) }
    requires delta { IsDelta (delta_of entry.now) }
    requires room { HasRoom entry.now (length text.now) }
    ensures same_reference { tx.new.conn.ghost_name ≡ tx.old.conn.ghost_name }
    ensures adds { HasCleanDisk (state S.Store tx.new.conn.now) → OnOk result
        (Adds (state S.Store tx.old.conn.now) (state S.Store tx.new.conn.now)
        place (entry.now ∷ [])) }
    ensures runs { HasCleanDisk (state S.Store tx.new.conn.now)
        → (state S.Store tx.old.conn.now).in_transaction ≡ true
        → RunsInsert S.Store place entry.now tx.old.conn.now tx.new.conn.now result }
    ensures survives { Survives (state S.Store tx.old.conn.now)
        (state S.Store tx.new.conn.now) (λ _. ⊥) }
{
    let row = columns(place, entry, text);
    tx.execute(INSERT, &row)?;
    Ok(())
}

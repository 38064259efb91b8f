//! Reading the records of a database.
ghost use Rattle.std.specs.Prelude.{◌≡◌, ◌≢◌, ◌↔◌, ◌≤◌, ℕ, ℤ, true, false, Err, length, IsTrue, IfOk, IfErr, OnOk, IfSome, IfNone, OnErr, [], ◌∷◌, ◌⊎◌, Some, None, pos, ◌==◌, ◌&&◌};
ghost use Rattle.std.specs.List.{filter_map};
ghost use Rattle.sqlite.specs.declared.types.Value.TheVariants.{Int, Text};
ghost use Rattle.sqlite.specs.State.{HasCleanDisk, IsLive, IsUnchanged};
ghost use Rattle.sqlite.specs.Held.{state};
ghost use Rattle.sqlite.specs.Order.{column};
ghost use Rattle.sqlite_value.specs.Value.{owned};
ghost use Rattle.book_core.specs.Limits.{greatest_limit};
ghost use Rattle.sql_records.specs.Layout.{IsOurs, our_kind, version_number, HasMeta, HasMetaAs, AreNumbers};
ghost use Rattle.sql_records.specs.Rows.{entry_of, is_below, rows_below, number_within, IsEntryIn, IsOfVersion, AreInOrder, AreWhole, AreWholeIn, IsFirstDamaged, WantsForEntry};
ghost use Rattle.sql_records.specs.declared.version.Version.{Version};
ghost use Rattle.sql_records.specs.Held.{entries_tree, rows_in, history_in, LeavesNoMore};
ghost use Rattle.sql_records.specs.Opening.{int_in, meta_in, IsRowOf, IsRowFault, IsMetaFault, AreRowsFault, IsStoreFault, IsWantedAt, IsForeignFault, IsForeignCause, IsForeignCauseAs, AreOfVersion, AreTold, foreign_told, IsOpenFault, IsReadFault, IsLeftOrUndone, AreReadFrom, IsHistoryFault, IsReadAs, Reads};

use crate::fault::OpenFault;
use crate::reading::{column_at, is_of_version, number_within, read_entry, site_in, sites_in};
use crate::shape::is_ours;
use crate::version::{KIND, Version};
use book_core::{Entry, Limit};
use history_keeper::Meta;
use sqlite::types::ValueRef;
use sqlite::{Alter, Connection, Error, ErrorCode, Row};
use std::alloc::Global;

const META_SELECT: &str = "SELECT one, kind, version, me, sites, bound FROM meta";

const SELECT: &str =
    "SELECT pos, peer, number, verb, event, amount, target, reply, rest, delta FROM entries ORDER BY pos";

// The rows of all entries, in an order of their places.
fn read_rows<S: Alter>(conn: &mut Connection<S>) -> Result<Vec<Row>, OpenFault>
    requires { HasCleanDisk (state S.Store conn.old) → IsOurs (state S.Store conn.old).now.schema }
    ensures shown { HasCleanDisk (state S.Store conn.new) → IfOk result
        (λ rows. AreInOrder ((state S.Store conn.old).now.trees entries_tree) rows.items) }
    ensures fault { HasCleanDisk (state S.Store conn.new)
        → IfErr result (IsStoreFault (state S.Store conn.old) (state S.Store conn.new)) }
    ensures reads { Reads S.Store conn.old conn.new result }
{
    Ok(conn.query_all(SELECT, &[])?)
}

fn is_at(place: u64, value: ValueRef<'_>) -> bool
    ensures { IsTrue result ↔ (owned value.entry ≡ Int (pos place)) }
{
    match value {
        ValueRef::Int(n) => match u64::try_from(n) {
            Ok(number) => number == place,
            Err(_) => false,
        },
        _ => false,
    }
}

// The entry of this version in the row at this place.
fn read_next(alloc: Global, read: Version, place: u64, row: &Row) -> Result<Entry, OpenFault>
    ensures placed { OnOk result (column row.now 0 ≡ Int (pos place)) }
    ensures reads { IfOk result (λ entry. entry_of row.now ≡ Some entry) }
    ensures version { OnOk result (IsOfVersion read row.now) }
    ensures named { IfErr result
        (λ fault. (fault ≡ OpenFault.Memory) ⊎ (fault ≡ OpenFault.Damaged place)) }
    ensures damaged { result ≡ Err (OpenFault.Damaged place) → ¬ IsEntryIn read place row.now }
    ensures memory { result ≡ Err OpenFault.Memory
        → (column row.now 0 ≡ Int (pos place)) × IsOfVersion read row.now × WantsForEntry row.now }
{
    if !is_at(place, column_at(row, 0)) || !is_of_version(read, row) {
        return Err(OpenFault::Damaged { place });
    }
    match read_entry(alloc, row)? {
        Some(entry) => Ok(entry),
        None => Err(OpenFault::Damaged { place }),
    }
}

// The entries of this version in the rows, which have the places 0, 1 and on.
fn read_entries(alloc: Global, read: Version, rows: &[Row]) -> Result<Vec<Entry>, OpenFault>
    ensures whole { OnOk result (AreWholeIn read 0 rows.now) }
    ensures entries { IfOk result (λ entries. entries.items ≡ filter_map entry_of rows.now) }
    ensures fault { IfErr result
        (λ fault. ((fault ≡ OpenFault.Memory) × ((place : ℕ) × IsWantedAt read place rows.now))
        ⊎ ((place : ℕ) × (fault ≡ OpenFault.Damaged place) × IsFirstDamaged read place rows.now)) }
{
    let mut entries = Vec::new(alloc);
    'rows: for (place, row) in rows.iter().enumerate() {
        let entry = read_next(alloc, read, place as u64, row)?;
        entries.push(entry)?;
    }
    Ok(entries)
}

fn is_below(value: ValueRef<'_>) -> bool
    ensures { result ≡ is_below (owned value.entry) }
{
    match value {
        ValueRef::Int(n) => n < 0,
        _ => false,
    }
}

// How many rows stand in front of the place 0.
fn rows_below(rows: &[Row]) -> usize
    ensures value { result ≡ rows_below rows.now }
    ensures within { result ≤ length rows.now }
{
    'rows: for (at, row) in rows.iter().enumerate() {
        if !is_below(column_at(row, 0)) {
            return at;
        }
    }
    rows.len()
}

// The entries of this version in all rows, which are in an order of their places.
fn read_all(alloc: Global, read: Version, rows: &[Row]) -> Result<Vec<Entry>, OpenFault>
    ensures whole { OnOk result (AreWholeIn read 0 rows.now) }
    ensures entries { IfOk result (λ entries. entries.items ≡ filter_map entry_of rows.now) }
    ensures fault { IfErr result (AreRowsFault read rows.now) }
{
    let below = rows_below(rows);
    let entries = read_entries(alloc, read, &rows[below..])?;
    if below > 0 {
        return Err(OpenFault::Damaged {
            place: entries.len() as u64,
        });
    }
    Ok(entries)
}

// The entries of this version in all rows, which are read at once.
fn read_at_once<S: Alter>(
    alloc: Global,
    read: Version,
    conn: &mut Connection<S>,
) -> Result<Vec<Entry>, OpenFault>
    requires { HasCleanDisk (state S.Store conn.old) → IsOurs (state S.Store conn.old).now.schema }
    ensures entries { HasCleanDisk (state S.Store conn.new) → IfOk result
        (λ entries. AreReadFrom read (state S.Store conn.old).now.trees entries.items) }
    ensures fault { HasCleanDisk (state S.Store conn.new) → IfErr result
        (IsHistoryFault read (state S.Store conn.old) (state S.Store conn.new)) }
    ensures reads { Reads S.Store conn.old conn.new result }
{
    let rows = read_rows(conn)?;
    read_all(alloc, read, rows.as_slice())
}

// Whether the row is the first, and stands in front of the place 0.
fn is_in_front(place: u64, row: &Row) -> bool
    ensures { result ≡ (place == 0 && is_below (column row.now 0)) }
{
    place == 0 && is_below(column_at(row, 0))
}

// The same of rows that are read one after the other, so that memory holds few of them. None where the first stands in
// front of the place 0, as in a damaged database: what is at fault there is known only behind the last row.
fn read_in_turn<S: Alter>(
    alloc: Global,
    read: Version,
    conn: &mut Connection<S>,
) -> Result<Option<Vec<Entry>>, OpenFault>
    requires { HasCleanDisk (state S.Store conn.old) → IsOurs (state S.Store conn.old).now.schema }
    ensures entries { HasCleanDisk (state S.Store conn.new) → IfOk result (λ it. IfSome it
        (λ entries. AreReadFrom read (state S.Store conn.old).now.trees entries.items)) }
    ensures fault { HasCleanDisk (state S.Store conn.new) → IfErr result
        (IsHistoryFault read (state S.Store conn.old) (state S.Store conn.new)) }
    ensures counts { (state S.Store conn.old).faults ≤ (state S.Store conn.new).faults }
    ensures reads { Reads S.Store conn.old conn.new result }
{
    let mut entries = Vec::new(alloc);
    let mut rows = conn.query(SELECT, &[])?;
    'turns: for place in 0..u64::MAX {
        rows.advance()?;
        let Some(row) = rows.get() else {
            return Ok(Some(entries));
        };
        if is_in_front(place, row) {
            return Ok(None);
        }
        let entry = read_next(alloc, read, place, row)?;
        entries.push(entry)?;
    }
    Ok(None)
}

// The entries of this version in all rows, of which memory holds few unless one stands in front of the place 0.
fn read_history<S: Alter>(
    alloc: Global,
    read: Version,
    conn: &mut Connection<S>,
) -> Result<Vec<Entry>, OpenFault>
    requires { HasCleanDisk (state S.Store conn.old) → IsOurs (state S.Store conn.old).now.schema }
    ensures entries { HasCleanDisk (state S.Store conn.new) → IfOk result
        (λ entries. AreReadFrom read (state S.Store conn.old).now.trees entries.items) }
    ensures fault { HasCleanDisk (state S.Store conn.new) → IfErr result
        (IsHistoryFault read (state S.Store conn.old) (state S.Store conn.new)) }
    ensures reads { Reads S.Store conn.old conn.new result }
{
    let turned = read_in_turn(alloc, read, conn)?;
    match turned {
        Some(entries) => Ok(entries),
        None => read_at_once(alloc, read, conn),
    }
}

fn is_our_kind(value: ValueRef<'_>) -> bool
    ensures { IsTrue result ↔ (owned value.entry ≡ Text our_kind) }
{
    match value {
        ValueRef::Text(text) => text == KIND,
        _ => false,
    }
}

fn int_in(value: ValueRef<'_>) -> Option<i64>
    ensures { result ≡ int_in (owned value.entry) }
{
    match value {
        ValueRef::Int(n) => Some(n),
        _ => None,
    }
}

fn limit_in(value: ValueRef<'_>) -> Option<Limit>
    ensures { result ≡ number_within 1 greatest_limit (owned value.entry) }
{
    let entries = number_within(1, Limit::GREATEST, value)?;
    Limit::of(entries)
}

#[tactic(auto, unfolding(crate::specs::Opening::meta_in))]
fn meta_in(row: &Row) -> Option<Meta>
    ensures { result ≡ meta_in row.now }
{
    let me = site_in(column_at(row, 3))?;
    let sites = sites_in(column_at(row, 4))?;
    let limit = limit_in(column_at(row, 5))?;
    if me.number() < sites.count() {
        Some(Meta { me, sites, limit })
    } else {
        None
    }
}

// The numbers of a row of `meta`, of this version.
fn read_numbers(read: Version, row: &Row) -> Result<Meta, OpenFault>
    ensures numbers { IfOk result (λ meta. IsRowOf read meta row.now) }
    ensures fault { IfErr result (IsRowFault read row.now) }
{
    if !is_at(1, column_at(row, 0)) || !is_our_kind(column_at(row, 1)) {
        return Err(OpenFault::NotOurs);
    }
    let Some(version) = int_in(column_at(row, 2)) else {
        return Err(OpenFault::NotOurs);
    };
    if version != read.number() {
        return Err(OpenFault::OtherSchema { version });
    }
    match meta_in(row) {
        Some(meta) => Ok(meta),
        None => Err(OpenFault::NotOurs),
    }
}

// The row, where there is one and no other.
fn only(mut rows: Vec<Row>) -> Option<Row>
    ensures one { IfSome result (λ row. rows.items ≡ row ∷ []) }
    ensures none { IfNone result (length rows.items ≢ 1) }
{
    if rows.len() != 1 {
        return None;
    }
    rows.pop()
}

// The numbers in `meta`, of this version.
fn read_meta<S: Alter>(read: Version, conn: &mut Connection<S>) -> Result<Meta, OpenFault>
    requires { HasCleanDisk (state S.Store conn.old) → IsOurs (state S.Store conn.old).now.schema }
    ensures meta { HasCleanDisk (state S.Store conn.new)
        → IfOk result (λ meta. HasMetaAs read meta (state S.Store conn.old).now.trees) }
    ensures numbers { IfOk result AreNumbers }
    ensures fault { HasCleanDisk (state S.Store conn.new)
        → IfErr result (IsMetaFault read (state S.Store conn.old) (state S.Store conn.new)) }
    ensures counts { (state S.Store conn.old).faults ≤ (state S.Store conn.new).faults }
    ensures reads { Reads S.Store conn.old conn.new result }
{
    let rows = conn.query_all(META_SELECT, &[])?;
    match only(rows) {
        Some(row) => read_numbers(read, &row),
        None => Err(OpenFault::NotOurs),
    }
}

// Whether the rows are one, of our kind, and of another version than this.
fn other_version(read: Version, rows: Vec<Row>) -> Option<i64>
    ensures some { IfSome result (λ version. AreOfVersion read version rows.items) }
    ensures none { IfNone result ((version : ℤ) → ¬ AreOfVersion read version rows.items) }
    ensures differs { IfSome result (λ version. version ≢ version_number read) }
{
    match read_numbers(read, &only(rows)?) {
        Err(OpenFault::OtherSchema { version }) => Some(version),
        _ => None,
    }
}

// What the rows that the select on `meta` shows are told as.
fn foreign_rows(read: Version, rows: Vec<Row>) -> OpenFault
    ensures told { AreTold read rows.items result }
    ensures named { IsForeignFault read result }
{
    match other_version(read, rows) {
        Some(version) => OpenFault::OtherSchema { version },
        None => OpenFault::NotOurs,
    }
}

// What an error of the select on `meta` is told as.
fn foreign_told(error: Error) -> OpenFault
    ensures told { result ≡ foreign_told error }
    ensures named { (read : Version) → IsForeignFault read result }
{
    match error {
        Error::SqliteFailure(ErrorCode::OutOfMemory) => OpenFault::Memory,
        Error::SqliteFailure(
            ErrorCode::SystemIoFailure
            | ErrorCode::DatabaseCorrupt
            | ErrorCode::DiskFull
            | ErrorCode::Closed,
        ) => OpenFault::Disk,
        _ => OpenFault::NotOurs,
    }
}

// What a database answers whose tables are not ours: a file of another version may have other columns. The
// transaction says that nothing is written, whatever the database makes of the query.
fn foreign_fault<S: Alter>(read: Version, conn: &mut Connection<S>) -> OpenFault
    ensures named { IsForeignFault read result }
    ensures undone { HasCleanDisk (state S.Store conn.new)
        → IsLeftOrUndone (state S.Store conn.old) (state S.Store conn.new) }
    ensures busy { conn.old.in_transaction ≡ true → result ≡ OpenFault.NotOurs }
    ensures cause { conn.old.in_transaction ≡ false
        → HasCleanDisk (state S.Store conn.new) → IsForeignCauseAs S.Store conn.old read result }
    ensures left { HasCleanDisk (state S.Store conn.new)
        → LeavesNoMore (state S.Store conn.old) (state S.Store conn.new) }
    ensures limit { conn.new.step_limit ≡ conn.old.step_limit }
    ensures clean { HasCleanDisk (state S.Store conn.new) → HasCleanDisk (state S.Store conn.old) }
{
    if !conn.is_autocommit() {
        return OpenFault::NotOurs;
    }
    let mut tx = conn.transaction();
    let answer = tx.query_all(META_SELECT, &[]);
    tx.rollback();
    match answer {
        Ok(rows) => foreign_rows(read, rows),
        Err(error) => foreign_told(error),
    }
}

/// The entries of a site's records of this version, the oldest first, and its numbers, as `read_records` reads them.
pub fn read_as<S: Alter>(
    alloc: Global,
    read: Version,
    conn: &mut Connection<S>,
) -> Result<(Vec<Entry>, Meta), OpenFault>
    ensures read { HasCleanDisk (state S.Store conn.new) → IfOk result
        (λ it. IsReadAs read (state S.Store conn.old).now.trees it.0.items it.1) }
    ensures numbers { IfOk result (λ it. AreNumbers it.1) }
    ensures schema { OnOk result (IsOurs conn.old.schema) }
    ensures live { IsLive (state S.Store conn.old) }
    ensures fault { HasCleanDisk (state S.Store conn.new)
        → IfErr result (IsReadFault read (state S.Store conn.old) (state S.Store conn.new)) }
    ensures busy { ¬ IsOurs conn.old.schema
        → conn.old.in_transaction ≡ true → result ≡ Err OpenFault.NotOurs }
    ensures foreign { ¬ IsOurs conn.old.schema → conn.old.in_transaction ≡ false → HasCleanDisk
        (state S.Store conn.new) → IfErr result (IsForeignCauseAs S.Store conn.old read) }
    ensures reads { Reads S.Store conn.old conn.new result }
{
    if !is_ours(conn.schema()) {
        return Err(foreign_fault(read, conn));
    }
    let meta = read_meta(read, conn)?;
    let entries = read_history(alloc, read, conn)?;
    Ok((entries, meta))
}

/// The entries of a site's records, the oldest first, and its numbers. It writes nothing. Where a transaction is open a
/// database whose tables are not ours is `NotOurs`, and is not looked at.
///
/// What it says holds where the disk has returned what was written. An error commits nothing: a connection that is
/// still open shows what it showed, or its transaction was undone; a failure of the disk may shut it.
pub fn read_records<S: Alter>(
    alloc: Global,
    conn: &mut Connection<S>,
) -> Result<(Vec<Entry>, Meta), OpenFault>
    ensures read { HasCleanDisk (state S.Store conn.new) → IfOk result
        (λ it. IsReadAs Version.Second (state S.Store conn.old).now.trees it.0.items it.1) }
    ensures numbers { IfOk result (λ it. AreNumbers it.1) }
    ensures schema { OnOk result (IsOurs conn.old.schema) }
    ensures live { IsLive (state S.Store conn.old) }
    ensures fault { HasCleanDisk (state S.Store conn.new)
        → IfErr result (IsOpenFault (state S.Store conn.old) (state S.Store conn.new)) }
    ensures busy { ¬ IsOurs conn.old.schema
        → conn.old.in_transaction ≡ true → result ≡ Err OpenFault.NotOurs }
    ensures foreign { ¬ IsOurs conn.old.schema → conn.old.in_transaction ≡ false
        → HasCleanDisk (state S.Store conn.new) → IfErr result (IsForeignCause S.Store conn.old) }
    ensures reads { Reads S.Store conn.old conn.new result }
{
    read_as(alloc, Version::Second, conn)
}

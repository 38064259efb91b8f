//! The mark of a database that is one of two copies.
ghost use Rattle.std.specs.Prelude.{◌≡◌, ◌≢◌, true, false, None, Ok, IfOk, IfSome, OnOk, []};
ghost use Rattle.std.specs.List.{list_any};
ghost use Rattle.sqlite.specs.State.{HasCleanDisk, QueriesRow, Survives};
ghost use Rattle.sqlite.specs.Held.{state};
ghost use Rattle.sqlite.specs.Order.{column};
ghost use Rattle.sqlite.specs.Values.{bound};
ghost use Rattle.sql_records.specs.Making.{RunInTurn};
ghost use Rattle.sql_records.specs.Held.{LeavesNoMore};
ghost use Rattle.paired_records.specs.Marks.{AreOfOnePairing, AreUnpaired, IsChangedBy, LeavesAsBeforeOr, Says, ask_text, for_looking, is_mark, is_marked, marking, names_in, names_row, text_of, unmarking};

use sqlite::types::{Bytes, ValueRef};
use sqlite::{Alter, Connection, Error, ErrorCode, Row, Transaction};
use sqlite_schema::names::same_name;
use sqlite_schema::schema::{Schema, Table, View};
use thiserror::Error as Named;

/// What the mark of a copy for looking names in the place of a file.
pub const FOR_LOOKING: &str = "";

const MARK: &str = "CREATE TABLE one_of_two (file TEXT NOT NULL, copy TEXT NOT NULL) STRICT";

const NAMES: &str = "INSERT INTO one_of_two VALUES (?1, ?2)";

const UNMARK: &str = "DROP TABLE one_of_two";

const ASK: &str = "SELECT file, copy FROM one_of_two";

/// Why a mark was not set, not taken off, or not read.
#[derive(Clone, Copy, Debug, PartialEq, Eq, Named)]
pub enum MarkFault {
    /// Memory was refused. A database that was to be changed may have the mark or not.
    #[error("out of memory")]
    Memory,
    /// The database could not be read or written, a transaction is open, the mark was there already or is a view, or has no
    /// row. The database may have the mark or not.
    #[error("the database could not be read or written")]
    Disk,
}

impl From<Error> for MarkFault {
    ghost use Rattle.std.specs.Prelude.{◌≡◌};
    ghost use Rattle.sql_records.specs.Faults.{told};
    ghost use Rattle.paired_records.specs.declared.marks.MarkFault.TheVariants.{Disk as NotWritten, Memory as NoMemory};

    ghost from_gives = { λ error fault. fault ≡ told NoMemory NotWritten error };

    fn from(error: Error) -> MarkFault {
        match error {
            Error::SqliteFailure(ErrorCode::OutOfMemory) => MarkFault::Memory,
            _ => MarkFault::Disk,
        }
    }
}

fn is_mark(name: &Bytes) -> bool
    ensures { result ≡ is_mark name.now }
{
    same_name(name.as_slice(), b"one_of_two")
}

fn has_mark(tables: &[Table]) -> bool
    ensures { result ≡ list_any (λ t. is_mark t.name) tables.now }
{
    tables.iter().any(|t| is_mark(&t.name))
}

fn keeps_mark(views: &[View]) -> bool
    ensures { result ≡ list_any (λ v. is_mark v.name) views.now }
{
    views.iter().any(|v| is_mark(&v.name))
}

fn is_marked(schema: &Schema) -> bool
    ensures { result ≡ is_marked schema.now }
{
    has_mark(schema.tables.as_slice()) || keeps_mark(schema.views.as_slice())
}

/// Whether the database is marked as one of two: it has a table or view `one_of_two`, in either case. It reads no records.
pub fn is_one_of_two<S: Alter>(conn: &Connection<S>) -> bool
    ensures { result ≡ is_marked conn.now.schema }
{
    is_marked(conn.schema())
}

// The columns of the row of the mark.
fn names_row<'a>(file: &'a str, copy: &'a str) -> [ValueRef<'a>; 2]
    ensures { bound result ≡ names_row file.now copy.now }
{
    [
        ValueRef::Text(file.as_bytes()),
        ValueRef::Text(copy.as_bytes()),
    ]
}

// The statements of the mark.
fn fill<S: Alter>(tx: &mut Transaction<'_, S>, file: &str, copy: &str) -> Result<(), Error>
    requires inside { tx.old.conn.now.in_transaction ≡ true }
    ensures same_reference { tx.new.conn.ghost_name ≡ tx.old.conn.ghost_name }
    ensures survives { Survives
        (state S.Store tx.old.conn.now) (state S.Store tx.new.conn.now) (λ _. ⊥) }
    ensures runs { HasCleanDisk (state S.Store tx.new.conn.now) → OnOk result
        (RunInTurn S.Store (marking file.now copy.now) tx.old.conn.now tx.new.conn.now) }
{
    tx.execute(MARK, &[])?;
    let row = names_row(file, copy);
    tx.execute(NAMES, &row)?;
    Ok(())
}

// The statement that takes it off.
fn clear<S: Alter>(tx: &mut Transaction<'_, S>) -> Result<(), Error>
    requires inside { tx.old.conn.now.in_transaction ≡ true }
    ensures same_reference { tx.new.conn.ghost_name ≡ tx.old.conn.ghost_name }
    ensures survives { Survives
        (state S.Store tx.old.conn.now) (state S.Store tx.new.conn.now) (λ _. ⊥) }
    ensures runs { HasCleanDisk (state S.Store tx.new.conn.now) → OnOk result
        (RunInTurn S.Store unmarking tx.old.conn.now tx.new.conn.now) }
{
    tx.execute(UNMARK, &[])?;
    Ok(())
}

/// Marks the database as one of two copies, in one transaction, with a row that names both.
///
/// Once it is marked a crash leaves the mark. With a fault a crash leaves what it could leave before, or the mark.
pub fn mark<S: Alter>(conn: &mut Connection<S>, file: &str, copy: &str) -> Result<(), MarkFault>
    ensures marked { OnOk result (is_marked conn.new.schema ≡ true) }
    ensures changed { HasCleanDisk (state S.Store conn.new) → OnOk result
        (IsChangedBy S.Store (marking file.now copy.now) conn.old conn.new) }
    ensures crash { HasCleanDisk (state S.Store conn.new) → LeavesAsBeforeOr
        S.Store (marking file.now copy.now) conn.old conn.new }
    ensures clean { HasCleanDisk (state S.Store conn.new) → HasCleanDisk (state S.Store conn.old) }
{
    let is_settled = conn.is_autocommit();
    if !is_settled {
        return Err(MarkFault::Disk);
    }
    let mut tx = conn.transaction();
    match fill(&mut tx, file, copy) {
        Ok(()) => tx.commit()?,
        Err(error) => {
            tx.rollback();
            return Err(MarkFault::from(error));
        }
    }
    if !is_one_of_two(conn) {
        return Err(MarkFault::Disk);
    }
    Ok(())
}

/// Takes the mark off, in one transaction. A caller says by it that the other copy is lost for good.
///
/// Once it is off a crash leaves no mark. With a fault a crash leaves what it could leave before, or no mark.
pub fn unmark<S: Alter>(conn: &mut Connection<S>) -> Result<(), MarkFault>
    ensures unmarked { OnOk result (is_marked conn.new.schema ≡ false) }
    ensures changed { HasCleanDisk (state S.Store conn.new) → OnOk result
        (IsChangedBy S.Store unmarking conn.old conn.new) }
    ensures crash { HasCleanDisk (state S.Store conn.new)
        → LeavesAsBeforeOr S.Store unmarking conn.old conn.new }
    ensures clean { HasCleanDisk (state S.Store conn.new) → HasCleanDisk (state S.Store conn.old) }
{
    let is_settled = conn.is_autocommit();
    if !is_settled {
        return Err(MarkFault::Disk);
    }
    let mut tx = conn.transaction();
    match clear(&mut tx) {
        Ok(()) => tx.commit()?,
        Err(error) => {
            tx.rollback();
            return Err(MarkFault::from(error));
        }
    }
    if is_one_of_two(conn) {
        return Err(MarkFault::Disk);
    }
    Ok(())
}

/// What the mark of a database says: the file and the copy of one pairing.
#[derive(Debug, Drop)]
pub struct Pairing {
    row: Row,
}

fn text_at(row: &Row, at: usize) -> &[u8]
    ensures { result.now ≡ text_of (column row.now at) }
{
    match row.get_ref(at) {
        Ok(ValueRef::Text(text)) => text,
        _ => b"",
    }
}

impl Pairing {
    /// The file that it names.
    pub fn file(&self) -> &[u8]
        ensures { result.now ≡ (names_in self.now.row).0 }
    {
        text_at(&self.row, 0)
    }

    /// The copy that it names.
    pub fn copy(&self) -> &[u8]
        ensures { result.now ≡ (names_in self.now.row).1 }
    {
        text_at(&self.row, 1)
    }

    // Whether both name the same file and the same copy.
    fn is_same_as(&self, other: &Pairing) -> bool
        ensures same { result ≡ true → names_in self.now.row ≡ names_in other.now.row }
        ensures other { result ≡ false → names_in self.now.row ≢ names_in other.now.row }
    {
        let is_same_file = self.file() == other.file();
        if !is_same_file {
            return false;
        }
        self.copy() == other.copy()
    }

    /// Whether it is that of a copy for looking.
    pub fn is_for_looking(&self) -> bool
        ensures looking { result ≡ true → (names_in self.now.row).0 ≡ for_looking }
        ensures selling { result ≡ false → (names_in self.now.row).0 ≢ for_looking }
    {
        self.file() == FOR_LOOKING.as_bytes()
    }
}

// What the mark says.
fn ask<S: Alter>(tx: &mut Transaction<'_, S>) -> Result<Row, Error>
    ensures same_reference { tx.new.conn.ghost_name ≡ tx.old.conn.ghost_name }
    ensures survives { Survives
        (state S.Store tx.old.conn.now) (state S.Store tx.new.conn.now) (λ _. ⊥) }
    ensures row { HasCleanDisk (state S.Store tx.new.conn.now) → IfOk result (λ row. QueriesRow
        ask_text [] (state S.Store tx.old.conn.now) (state S.Store tx.new.conn.now) (Ok row)) }
{
    tx.query_row(ASK, &[])
}

/// The pairing that the mark of a database names; None if it has no mark.
///
/// It is asked in a transaction that is undone: nothing is written, also with an error.
pub fn pairing_of<S: Alter>(conn: &mut Connection<S>) -> Result<Option<Pairing>, MarkFault>
    ensures none { result ≡ Ok None
        → (is_marked conn.old.schema ≡ false) × (conn.new ≡ conn.old) }
    ensures says { IfOk result
        (λ pairing. IfSome pairing (λ it. Says S.Store conn.old conn.new (names_in it.row))) }
    ensures left { HasCleanDisk (state S.Store conn.new)
        → LeavesNoMore (state S.Store conn.old) (state S.Store conn.new) }
{
    let is_marked = is_one_of_two(conn);
    if !is_marked {
        return Ok(None);
    }
    let is_settled = conn.is_autocommit();
    if !is_settled {
        return Err(MarkFault::Disk);
    }
    let mut tx = conn.transaction();
    match ask(&mut tx) {
        Ok(row) => {
            tx.rollback();
            Ok(Some(Pairing { row }))
        }
        Err(error) => {
            tx.rollback();
            Err(MarkFault::from(error))
        }
    }
}

/// Whether two databases are of one pairing: both have a mark, which says the same, and not that they are for looking.
/// Nothing is written, also with an error.
pub fn are_of_one_pairing<S: Alter>(
    first: &mut Connection<S>,
    second: &mut Connection<S>,
) -> Result<bool, MarkFault>
    ensures paired { IfOk result (λ are. are ≡ true
        → AreOfOnePairing S.Store first.old first.new second.old second.new) }
    ensures unpaired { IfOk result (λ are. are ≡ false
        → AreUnpaired S.Store first.old first.new second.old second.new) }
    ensures first { HasCleanDisk (state S.Store first.new)
        → LeavesNoMore (state S.Store first.old) (state S.Store first.new) }
    ensures second { HasCleanDisk (state S.Store second.new)
        → LeavesNoMore (state S.Store second.old) (state S.Store second.new) }
{
    let Some(one) = pairing_of(first)? else {
        return Ok(false);
    };
    let Some(other) = pairing_of(second)? else {
        return Ok(false);
    };
    let is_same = one.is_same_as(&other);
    if !is_same {
        return Ok(false);
    }
    let is_for_looking = one.is_for_looking();
    if is_for_looking {
        return Ok(false);
    }
    Ok(true)
}

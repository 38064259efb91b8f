//! The file of a site's records, and the log beside it.

ghost use Rattle.std.specs.Prelude.{◌≡◌, ◌≢◌, ◌↔◌, false, IfOk};
ghost use Rattle.sqlite_wal.specs.Files.{image_at};
ghost use Rattle.sqlite_store.specs.FileStore.{view};
ghost use Rattle.sqlite.specs.State.{HasCleanDisk};
ghost use Rattle.sqlite.specs.Held.{IsNew};
ghost use Rattle.sqlite.specs.Start.{FindsIn};
ghost use Rattle.sqlite.specs.Files.{file_state, IsOpened, IsBlankAs};
ghost use Rattle.sqlite.specs.declared.error.Error.TheVariants.{SqliteFailure};
ghost use Rattle.sqlite.specs.declared.error.ErrorCode.TheVariants.{OutOfMemory, NotADatabase};
ghost use Rattle.boxoffice.specs.declared.files.FileFault.TheVariants.{NotOurs, Memory};

use operator_cli::Status;
use sqlite::{Connection, Error, ErrorCode};
use sqlite_std_file::{FileFrom, Start};
use sqlite_store::FileStore;
use std::alloc::{AllocError, Global};
use std::fs;
use std::io::{self, ErrorKind, Read};

/// The file of records and its log. `S` stands for what they held as they were opened.
pub(crate) type Files<S> = FileStore<FileFrom<S>>;

/// What a database file begins with.
const DATABASE: [u8; 16] = *b"SQLite format 3\0";

/// Why a file could not be opened or closed.
#[derive(Clone, Copy)]
pub(crate) enum FileFault {
    NotOurs,
    Memory,
    Disk,
}

fn fault_of_opening(error: Error) -> FileFault
    ensures memory { (result ≡ Memory) ↔ (error ≡ SqliteFailure OutOfMemory) }
    ensures not_ours { (result ≡ NotOurs) ↔ (error ≡ SqliteFailure NotADatabase) }
{
    match error {
        Error::SqliteFailure(ErrorCode::OutOfMemory) => FileFault::Memory,
        Error::SqliteFailure(ErrorCode::NotADatabase) => FileFault::NotOurs,
        _ => FileFault::Disk,
    }
}

// The file was ours, or it would not have been opened.
fn fault_of_closing(error: Error) -> FileFault
    ensures memory { (result ≡ Memory) ↔ (error ≡ SqliteFailure OutOfMemory) }
    ensures ours { result ≢ NotOurs }
{
    match fault_of_opening(error) {
        FileFault::NotOurs => FileFault::Disk,
        fault => fault,
    }
}

pub(crate) fn failed(rt: &HostRuntime, fault: FileFault) -> Status {
    let word = match fault {
        FileFault::NotOurs => "not-ours",
        FileFault::Memory => "memory",
        FileFault::Disk => "disk",
    };
    let _ = eprintln!(rt; "{word}");
    Status::Failed
}

/// What stands at a path, as far as it shows without being opened as a database.
enum PathKind {
    /// No file, or too short a one to hold anything.
    Nothing,
    /// A file that is no database.
    Other,
    /// A database, it may be, or one that a stop left half made.
    Database,
}

// A database that is made begins with its log, so a file with no log beside it is no half made one.
fn is_other(rt: &HostRuntime, file: &str) -> io::Result<bool> {
    let log = format!(in rt.alloc(); "{file}-wal")?;
    if fs::exists(rt, log.as_str())? {
        return Ok(false);
    }
    let mut first = [0; 16];
    match fs::open(rt, file)?.read_exact(&mut first) {
        Ok(()) => Ok(first != DATABASE),
        Err(error) if error.kind() == ErrorKind::UnexpectedEof => Ok(true),
        Err(error) => Err(error),
    }
}

fn look(rt: &HostRuntime, path: &str) -> io::Result<PathKind> {
    let file = fs::canonicalize(rt, path)?;
    let about = fs::metadata(rt, file.as_str())?;
    if !about.is_file() {
        Ok(PathKind::Database)
    } else if about.len() < 2 {
        Ok(PathKind::Nothing)
    } else if is_other(rt, file.as_str())? {
        Ok(PathKind::Other)
    } else {
        Ok(PathKind::Database)
    }
}

// Where looking fails otherwise, opening tells why.
fn at_path(rt: &HostRuntime, path: &str) -> PathKind {
    match look(rt, path) {
        Ok(kind) => kind,
        Err(error) if error.kind() == ErrorKind::NotFound => PathKind::Nothing,
        Err(_) => PathKind::Database,
    }
}

// `:memory:` and `file:x` are names of files here, and not SQLite's words.
fn plain_path(alloc: Global, path: &str) -> Result<String, AllocError> {
    if path.starts_with('/') {
        format!(in alloc; "{path}")
    } else {
        format!(in alloc; "./{path}")
    }
}

fn open<S: Start>(rt: &HostRuntime, path: &str, start: S) -> Result<Connection<Files<S>>, Status>
    ensures opened { IfOk result (λ conn. HasCleanDisk (file_state conn) → IsOpened conn) }
    ensures found { IfOk result
        (λ conn. HasCleanDisk (file_state conn) → FindsIn (image_at S.Start) (file_state conn)) }
    ensures plain { IfOk result (λ conn. HasCleanDisk (file_state conn)
        → IsBlankAs false (image_at S.Start) → (view conn.store).has_sums ≡ false) }
    ensures fresh { IfOk result IsNew }
{
    let Ok(path) = plain_path(rt.alloc(), path) else {
        return Err(failed(rt, FileFault::Memory));
    };
    match Connection::open_from(rt, path.as_str(), false, start) {
        Ok(conn) => Ok(conn),
        Err((error, _)) => Err(failed(rt, fault_of_opening(error))),
    }
}

/// Opens a file that is there. One that is not, or is too short, holds no records, and nothing is
/// made of it. A fault is told.
pub(crate) fn open_there<S: Start>(
    rt: &HostRuntime,
    path: &str,
    start: S,
) -> Result<Connection<Files<S>>, Status>
    ensures opened { IfOk result (λ conn. HasCleanDisk (file_state conn) → IsOpened conn) }
    ensures found { IfOk result
        (λ conn. HasCleanDisk (file_state conn) → FindsIn (image_at S.Start) (file_state conn)) }
    ensures fresh { IfOk result IsNew }
{
    match at_path(rt, path) {
        PathKind::Database => open(rt, path, start),
        PathKind::Nothing | PathKind::Other => Err(failed(rt, FileFault::NotOurs)),
    }
}

/// Opens a file by its path, or makes it. A fault is told.
pub(crate) fn open_or_make<S: Start>(
    rt: &HostRuntime,
    path: &str,
    start: S,
) -> Result<Connection<Files<S>>, Status>
    ensures opened { IfOk result (λ conn. HasCleanDisk (file_state conn) → IsOpened conn) }
    ensures found { IfOk result
        (λ conn. HasCleanDisk (file_state conn) → FindsIn (image_at S.Start) (file_state conn)) }
    ensures plain { IfOk result (λ conn. HasCleanDisk (file_state conn)
        → IsBlankAs false (image_at S.Start) → (view conn.store).has_sums ≡ false) }
    ensures fresh { IfOk result IsNew }
{
    match at_path(rt, path) {
        PathKind::Nothing | PathKind::Database => open(rt, path, start),
        PathKind::Other => Err(failed(rt, FileFault::NotOurs)),
    }
}

/// The status of a command that came to this and gave its connection back. Unless it failed, the log is
/// copied into the file, and both are closed; a fault of that is told. Where it failed the file may be
/// damaged, so it and its log are left as they are.
pub(crate) fn close<S: Start>(
    rt: &HostRuntime,
    came: (Status, Option<Connection<Files<S>>>),
) -> Status {
    match came {
        (Status::Failed, _) => Status::Failed,
        (status, None) => status,
        (status, Some(conn)) => match conn.close() {
            Ok(()) => status,
            Err(error) => failed(rt, fault_of_closing(error)),
        },
    }
}

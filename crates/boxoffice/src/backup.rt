//! A copy of a site's file for looking, also beside sales.
//!
//! File and log are copied as a crash at one moment would leave them. Entries go to the log alone, until the log is copied
//! into the file; it then begins again with another header. So as long as the header stays, what was copied of the file is
//! made whole by what was copied of the log after it.

use crate::Shelf;
use crate::copies::{is_free, is_free_at, is_same_file, told_error};
use crate::files::{FileFault, failed};
use operator_cli::{Status, refuse_copy, refuse_same_file, status_store};
use paired_records::{FOR_LOOKING, is_one_of_two, mark, unmark};
use sqlite::{Alter, Connection};
use std::alloc::AllocError;
use std::io::{self, ErrorKind, Read};
use std::time::Duration;
use std::{fs, thread};

/// How often a copy is begun again, and after how many milliseconds.
const TURNS: u32 = 200;

const PAUSE: u64 = 20;

/// A file and its log.
#[derive(Drop)]
struct Paths<'a> {
    file: &'a str,
    log: String,
}

impl<'a> Paths<'a> {
    fn of(rt: &HostRuntime, file: &'a str) -> Result<Paths<'a>, AllocError> {
        let log = format!(in rt.alloc(); "{file}-wal")?;
        Ok(Paths { file, log })
    }

    fn is_free(&self, rt: &HostRuntime) -> io::Result<bool> {
        Ok(is_free_at(rt, self.file)? && is_free_at(rt, self.log.as_str())?)
    }

    // The header of the log; of an empty one, or of none, there is none.
    fn head(&self, rt: &HostRuntime) -> io::Result<Option<[u8; 32]>> {
        let mut head = [0; 32];
        let read = match fs::open(rt, self.log.as_str()) {
            Ok(mut log) => log.read_exact(&mut head),
            Err(error) => Err(error),
        };
        match read {
            Ok(()) => Ok(Some(head)),
            Err(error) => match error.kind() {
                ErrorKind::NotFound | ErrorKind::UnexpectedEof => Ok(None),
                _ => Err(error),
            },
        }
    }

    fn remove(&self, rt: &HostRuntime) {
        let _ = fs::remove_file(rt, self.file);
        let _ = fs::remove_file(rt, self.log.as_str());
    }
}

// Copies file and log, and returns whether the log was not copied into the file meanwhile.
fn copy_once(rt: &HostRuntime, from: &Paths<'_>, to: &Paths<'_>) -> io::Result<bool> {
    let head = from.head(rt)?;
    fs::copy(rt, from.file, to.file)?;
    if head.is_some() {
        fs::copy(rt, from.log.as_str(), to.log.as_str())?;
    }
    Ok(from.head(rt)? == head)
}

fn copy_whole(rt: &HostRuntime, from: &Paths<'_>, to: &Paths<'_>) -> io::Result<()> {
    for _ in 0..TURNS {
        if copy_once(rt, from, to)? {
            fs::open(rt, to.file)?.sync_all()?;
            return Ok(());
        }
        to.remove(rt);
        thread::sleep(rt, Duration::from_millis(PAUSE));
    }
    Err(io::Error::from(ErrorKind::TimedOut))
}

// Opens a copy, which takes what its log holds, and marks it as one for looking: no command sells from it.
fn fold<S: Alter + Drop, H: Shelf<Connection<S>>>(
    rt: &HostRuntime,
    new: &str,
    copy: &str,
    shelf: &H,
) -> Result<(), Status> {
    let mut conn = shelf.open_there(rt, new)?;
    let is_bare = !is_one_of_two(&conn) || unmark(&mut conn).is_ok();
    if !is_bare || mark(&mut conn, FOR_LOOKING, copy).is_err() {
        return Err(failed(rt, FileFault::Disk));
    }
    match shelf.close(rt, (Status::Done, Some(conn))) {
        Status::Done => Ok(()),
        status => Err(status),
    }
}

// Gives a copy that is whole its name, which no file has.
fn settle(rt: &HostRuntime, new: &str, copy: &str) -> io::Result<()> {
    fs::open(rt, new)?.sync_all()?;
    fs::hard_link(rt, new, copy)
}

// Makes a copy that is whole under its name.
fn make<S: Alter + Drop, H: Shelf<Connection<S>>>(
    rt: &HostRuntime,
    from: &Paths<'_>,
    new: &Paths<'_>,
    copy: &str,
    shelf: &H,
) -> Result<(), Status> {
    if let Err(error) = copy_whole(rt, from, new) {
        return Err(told_error(rt, &error));
    }
    fold(rt, new.file, copy, shelf)?;
    match settle(rt, new.file, copy) {
        Ok(()) => Ok(()),
        Err(error) => Err(told_error(rt, &error)),
    }
}

// Whether nothing has a name that a copy takes.
fn are_free(rt: &HostRuntime, copy: &str, new: &Paths<'_>) -> io::Result<bool> {
    Ok(is_free(rt, copy)? && new.is_free(rt)?)
}

// Prints whose a copy is, and how long.
fn show<S: Alter + Drop, H: Shelf<Connection<S>>>(
    rt: &HostRuntime,
    copy: &str,
    shelf: &H,
) -> Result<Status, Status> {
    let conn = shelf.open_there(rt, copy)?;
    let came = status_store(rt.alloc(), conn, &mut rt.stdout(), &mut rt.stderr());
    Ok(shelf.close(rt, came))
}

/// Writes a whole, synced copy of a site's file, and prints what `status` prints of it. Nothing is left where it fails.
pub(crate) fn run_backup<S: Alter + Drop, H: Shelf<Connection<S>>>(
    rt: &HostRuntime,
    file: &str,
    copy: &str,
    shelf: &H,
) -> Result<Status, Status> {
    if is_same_file(rt, file, copy) {
        return Ok(refuse_same_file(&mut rt.stdout(), &mut rt.stderr()));
    }
    // The log is beside the file itself, whatever leads there.
    let real = match fs::canonicalize(rt, file) {
        Ok(real) => real,
        Err(error) if error.kind() == ErrorKind::NotFound => {
            return Ok(failed(rt, FileFault::NotOurs));
        }
        Err(error) => return Ok(told_error(rt, &error)),
    };
    let Ok(name) = format!(in rt.alloc(); "{copy}-new") else {
        return Ok(crate::out_of_memory(rt));
    };
    let (Ok(from), Ok(new)) = (Paths::of(rt, real.as_str()), Paths::of(rt, name.as_str())) else {
        return Ok(crate::out_of_memory(rt));
    };
    match are_free(rt, copy, &new) {
        Ok(true) => {}
        Ok(false) => return Ok(refuse_copy(&mut rt.stdout(), &mut rt.stderr())),
        Err(error) => return Ok(told_error(rt, &error)),
    }
    let made = make(rt, &from, &new, copy, shelf);
    new.remove(rt);
    made?;
    let status = match show(rt, copy, shelf) {
        Ok(status) | Err(status) => status,
    };
    if status != Status::Done {
        let _ = fs::remove_file(rt, copy);
    }
    Ok(status)
}

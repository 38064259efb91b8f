//! The commands `open` and `close`: an office that stays open, and its end.

ghost use Rattle.std.specs.Prelude.{◌≡◌, ◌⊎◌, IfOk, IfErr, IfSome, IsSome, OnOk, ◌++◌, codes, false};
ghost use Rattle.std.specs.Io.KnownBytes.{Appends};
ghost use Rattle.plain_words.specs.Writing.{AppendsFront, Writes};
ghost use Rattle.operator_cli.specs.declared.status.Status.TheVariants.{Done, Failed};
ghost use Rattle.operator_cli.specs.declared.command_fault.CommandFault.TheVariants.{Write as WriteFailed};
ghost use Rattle.operator_cli.specs.Offices.{WasOpen, of_close_fault, of_socket_fault, open_line};
ghost use Rattle.operator_cli.specs.Session.{KeepsHistory};
ghost use Rattle.operator_cli.specs.CommandReply.{FaultTold, command_fault_line};

use crate::command_fault::CommandFault;
use crate::ending::{close_book, flushed, tell_fault};
use crate::status::Status;
use history_keeper::Keeper;
use live_office::{Closing, Door, Gauge, SocketFault, Sparing, open_office};
use plain_words::{WriteFault, numbered, put, write_bytes};
use site_desk::SiteBook;
use sql_records::Records;
use sqlite::{Alter, Connection};
use std::alloc::Global;
use std::io::{Read, Write};
use std::sync::Wait;
use std::thread::Threads;
use std::time::Clock;

/// Why an office was not closed.
#[derive(Clone, Copy, PartialEq, Eq, Debug)]
pub enum CloseFault {
    /// No office is open.
    NotOpen,
    /// It was told to close, and is still open.
    StillOpen,
    /// It closed, and its file is not the one that it held.
    LostFile,
}

impl From<CloseFault> for CommandFault {
    ghost use Rattle.std.specs.Prelude.{◌≡◌};
    ghost use Rattle.operator_cli.specs.Offices.{of_close_fault};

    ghost from_gives = { λ close fault. fault ≡ of_close_fault close };

    fn from(fault: CloseFault) -> CommandFault {
        match fault {
            CloseFault::NotOpen => CommandFault::NotOpen,
            CloseFault::StillOpen => CommandFault::StillOpen,
            CloseFault::LostFile => CommandFault::LostFile,
        }
    }
}

// Writes the name of a file, and a line break.
fn write_name<W: Write>(file: &str, out: &mut W) -> Result<(), WriteFault>
    ensures { Writes (W.contents out.old) (W.contents out.new) result (file.now ++ codes "\n") }
{
    write_bytes(file.as_bytes(), out)?;
    write_bytes(b"\n", out)
}

fn write_open<W: Write>(port: u16, file: &str, out: &mut W) -> Result<(), WriteFault>
    ensures { Writes (W.contents out.old) (W.contents out.new) result (open_line port file.now) }
{
    let mut text = numbered(b"open ", u64::from(port));
    put(&mut text, b" ");
    write_bytes(text.as_slice(), out)?;
    write_name(file, out)
}

// Tells that callers can come.
pub(crate) fn say_open<W: Write>(port: u16, file: &str, out: &mut W) -> Result<(), CommandFault>
    ensures written { Writes (W.contents out.old) (W.contents out.new) result
        (open_line port file.now) }
    ensures fault { IfErr result (λ fault. fault ≡ WriteFailed) }
{
    match write_open(port, file, out) {
        Ok(()) => {
            flushed(Status::Done, out)?;
            Ok(())
        }
        Err(_) => Err(CommandFault::Write),
    }
}

// What the end of an office with this book comes to.
pub(crate) fn office_end<K: Keeper>(book: &SiteBook<K>) -> Result<Status, CommandFault>
    ensures open { OnOk result (book.now.closed ≡ false) }
    ensures holds { OnOk result (KeepsHistory K.Keeper book.now) }
    ensures done { IfOk result (λ status. status ≡ Done) }
{
    if book.is_closed() {
        return Err(CommandFault::Closed {
            site: book.book().me(),
        });
    }
    Ok(Status::Done)
}

/// Keeps the office of a site open at two doors, sparing its history so, until a caller says `close` or the store fails: prints `open` with the
/// port and the file, serves, and comes back once all threads are joined.
///
/// `memory`, `not-started`, `closed S` or `write` is told on `err`, with status 3. The connection comes back. Where all is
/// done, its records hold the history of the book as it was at the end; of a fault nothing is said of them.
pub fn office_store<
    T: Threads + Wait + Clock + Sync,
    S: Alter + Drop + Send,
    R: Read + Drop + Send,
    V: Write + Drop + Send,
    C: Door<R, V> + Sync,
    O: Door<R, V> + Sync,
    W: Write,
    E: Write,
>(
    rt: &T,
    alloc: Global,
    book: SiteBook<Records<S>>,
    port: u16,
    file: &str,
    clerks: &C,
    operators: &O,
    closing: &Closing,
    gauge: &Gauge,
    sparing: Sparing,
    out: &mut W,
    err: &mut E,
) -> (Status, Option<Connection<S>>)
    ensures line { AppendsFront (W.contents out.old) (W.contents out.new)
        (open_line port file.now) }
    ensures all { result.0 ≡ Done → Appends (W.contents out.old) (W.contents out.new)
        (open_line port file.now) }
    ensures back { IsSome result.1 }
    ensures left { IfSome result.1 (λ after.
        WasOpen S.Store book.book.office book.book.history after result.0) }
    ensures told { FaultTold (E.contents err.old) (E.contents err.new) result.0 }
    ensures status { (result.0 ≡ Done) ⊎ (result.0 ≡ Failed) }
{
    if let Err(fault) = say_open(port, file, out) {
        return close_book(Err(fault), book, out, err);
    }
    match open_office(rt, alloc, book, clerks, operators, closing, gauge, sparing) {
        Ok(book) => close_book(office_end(&book), book, out, err),
        Err((book, fault)) => close_book(Err(CommandFault::from(fault)), book, out, err),
    }
}

/// Tells why there is no socket for an office: `long-path`, `no-socket` or `bind`, with status 3.
pub fn tell_socket_fault<E: Write>(fault: SocketFault, err: &mut E) -> Status
    ensures line { AppendsFront
        (E.contents err.old) (E.contents err.new) (command_fault_line (of_socket_fault fault)) }
    ensures status { result ≡ Failed }
{
    tell_fault(CommandFault::from(fault), err)
}

/// Tells why an office was not closed well: `not-open`, `still-open` or `lost-file`, with status 3.
pub fn tell_close_fault<E: Write>(fault: CloseFault, err: &mut E) -> Status
    ensures line { AppendsFront
        (E.contents err.old) (E.contents err.new) (command_fault_line (of_close_fault fault)) }
    ensures status { result ≡ Failed }
{
    tell_fault(CommandFault::from(fault), err)
}

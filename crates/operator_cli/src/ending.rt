//! The end of a command.

ghost use Rattle.std.specs.Prelude.{◌≡◌, ◌≢◌, ◌⊎◌, IfOk, IfErr, IfSome, MatchResult, Some, false};
ghost use Rattle.std.specs.Io.KnownBytes.{Keeps};
ghost use Rattle.plain_words.specs.Writing.{Writes, AppendsFront};
ghost use Rattle.sqlite.specs.Held.{state};
ghost use Rattle.sqlite.specs.State.{HasCleanDisk};
ghost use Rattle.operator_cli.specs.Opened.{HoldsOnly};
ghost use Rattle.operator_cli.specs.CommandReply.{command_fault_line, FaultTold};
ghost use Rattle.operator_cli.specs.declared.status.Status.TheVariants.{Failed};
ghost use Rattle.operator_cli.specs.declared.command_fault.CommandFault.TheVariants.{Write as WriteFailed};

use crate::command_fault::{CommandFault, command_fault_line};
use crate::status::Status;
use plain_words::{Text, write_bytes};
use site_desk::SiteBook;
use sql_records::Records;
use sqlite::{Alter, Connection};
use std::io::Write;

/// Writes a line.
pub(crate) fn write_line<W: Write>(line: &Text, out: &mut W) -> Result<(), CommandFault>
    ensures written { Writes (W.contents out.old) (W.contents out.new) result line.now.items }
    ensures fault { IfErr result (λ fault. fault ≡ WriteFailed) }
{
    match write_bytes(line.as_slice(), out) {
        Ok(()) => Ok(()),
        Err(_) => Err(CommandFault::Write),
    }
}

/// What was written is at its writer's end.
pub(crate) fn flushed<W: Write>(status: Status, out: &mut W) -> Result<Status, CommandFault>
    ensures kept { Keeps (W.contents out.old) (W.contents out.new) }
    ensures status { IfOk result (λ s. s ≡ status) }
    ensures fault { IfErr result (λ fault. fault ≡ WriteFailed) }
{
    match out.flush() {
        Ok(()) => Ok(status),
        Err(_) => Err(CommandFault::Write),
    }
}

/// Tells a fault.
pub(crate) fn tell_fault<E: Write>(fault: CommandFault, err: &mut E) -> Status
    ensures told { FaultTold (E.contents err.old) (E.contents err.new) result }
    ensures line { AppendsFront
        (E.contents err.old) (E.contents err.new) (command_fault_line fault) }
    ensures status { result ≡ Failed }
{
    let line = command_fault_line(fault);
    let _ = write_bytes(line.as_slice(), err);
    Status::Failed
}

/// The end of a command over the book of a site: its status, and the connection, which comes back. A fault is told on
/// `err`, as `ended` does. Unless the book is closed, the connection holds its history, and a stop leaves that.
pub(crate) fn close_book<S: Alter + Drop, W: Write, E: Write>(
    came: Result<Status, CommandFault>,
    book: SiteBook<Records<S>>,
    out: &mut W,
    err: &mut E,
) -> (Status, Option<Connection<S>>)
    ensures back { result.1 ≡ Some book.keeper.conn }
    ensures kept { Keeps (W.contents out.old) (W.contents out.new) }
    ensures told { FaultTold (E.contents err.old) (E.contents err.new) result.0 }
    ensures line { IfErr came (λ fault. AppendsFront
        (E.contents err.old) (E.contents err.new) (command_fault_line fault)) }
    ensures flush { IfOk came (λ status. result.0 ≢ status
        → AppendsFront (E.contents err.old) (E.contents err.new) (command_fault_line WriteFailed)) }
    ensures status { MatchResult came
        (λ status. (result.0 ≡ status) ⊎ (result.0 ≡ Failed)) (λ _. result.0 ≡ Failed) }
    ensures holds { book.closed ≡ false → IfSome result.1 (λ after.
        HasCleanDisk (state S.Store after) → HoldsOnly (state S.Store after) book.book.history) }
{
    // What the book says of its keeper.
    let _closed = book.is_closed();
    let conn = book.into_keeper().close();
    (ended(came, out, err), Some(conn))
}

/// The status of a command that came to this. A fault, also one of the last flush, is told on `err`, with status 3.
pub(crate) fn ended<W: Write, E: Write>(
    came: Result<Status, CommandFault>,
    out: &mut W,
    err: &mut E,
) -> Status
    ensures kept { Keeps (W.contents out.old) (W.contents out.new) }
    ensures told { FaultTold (E.contents err.old) (E.contents err.new) result }
    ensures line { IfErr came (λ fault. AppendsFront
        (E.contents err.old) (E.contents err.new) (command_fault_line fault)) }
    ensures flush { IfOk came (λ status. result ≢ status
        → AppendsFront (E.contents err.old) (E.contents err.new) (command_fault_line WriteFailed)) }
    ensures status { MatchResult came
        (λ status. (result ≡ status) ⊎ (result ≡ Failed)) (λ _. result ≡ Failed) }
{
    match came {
        Ok(status) => match flushed(status, out) {
            Ok(status) => status,
            Err(fault) => tell_fault(fault, err),
        },
        Err(fault) => {
            let _ = out.flush();
            tell_fault(fault, err)
        }
    }
}

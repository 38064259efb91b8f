//! Opening the records of a site.

ghost use Rattle.std.specs.Prelude.{◌≡◌, IfOk, IfErr, OnOk};
ghost use Rattle.operator_cli.specs.Opened.{CannotOpen, IsOpened};
ghost use Rattle.operator_cli.specs.CommandReply.{of_open_fault, of_replay_fault, command_fault_line};
ghost use Rattle.plain_words.specs.Writing.{AppendsFront};
ghost use Rattle.operator_cli.specs.declared.status.Status.TheVariants.{Failed};
ghost use Rattle.operator_cli.specs.declared.command_fault.CommandFault.{CommandFault};

use crate::command_fault::CommandFault;
use crate::ending::tell_fault;
use crate::status::Status;
use book_core::ReplayFault;
use site_desk::SiteBook;
use sql_records::{OpenFault, Records};
use sqlite::{Alter, Connection};
use std::alloc::Global;
use std::io::Write;

pub(crate) fn of_open_fault(fault: OpenFault) -> CommandFault
    ensures { result ≡ of_open_fault fault }
{
    match fault {
        OpenFault::NotOurs => CommandFault::NotOurs,
        OpenFault::OtherSchema { version } => CommandFault::OtherSchema { version },
        OpenFault::Damaged { place } => CommandFault::Damaged { place },
        OpenFault::Memory => CommandFault::Memory,
        OpenFault::Disk => CommandFault::Disk,
    }
}

pub(crate) fn of_replay_fault(fault: ReplayFault) -> CommandFault
    ensures { result ≡ of_replay_fault fault }
{
    match fault {
        ReplayFault::IllegalAt { place } => CommandFault::Damaged {
            place: place as u64,
        },
        ReplayFault::Memory => CommandFault::Memory,
    }
}

/// The book of the records, whose history is legal.
///
/// A fault comes with the connection, unless it is the opening that was refused.
pub(crate) fn open_book<S: Alter + Drop>(
    alloc: Global,
    conn: Connection<S>,
) -> Result<SiteBook<Records<S>>, (CommandFault, Option<Connection<S>>)>
    ensures opened { IfOk result (IsOpened S.Store conn) }
    ensures fault { IfErr result (λ e. CannotOpen S.Store conn e.0 e.1) }
{
    let (records, entries, meta) = match Records::open(alloc, conn) {
        Ok(opened) => opened,
        Err(fault) => return Err((of_open_fault(fault), None)),
    };
    match SiteBook::start(alloc, records, entries, meta) {
        Ok(book) => Ok(book),
        Err((records, fault)) => Err((of_replay_fault(fault), Some(records.close()))),
    }
}

/// The book of the records, for a command over those of several sites.
///
/// A fault is told on `err`, with status 3, and comes with the connection, unless it is the opening that was refused.
pub fn open_store<S: Alter + Drop, E: Write>(
    alloc: Global,
    conn: Connection<S>,
    err: &mut E,
) -> Result<SiteBook<Records<S>>, (Status, Option<Connection<S>>)>
    ensures opened { IfOk result (IsOpened S.Store conn) }
    ensures silent { OnOk result (E.contents err.new ≡ E.contents err.old) }
    ensures fault { IfErr result (λ e. (e.0 ≡ Failed) × (fault : CommandFault)
        × AppendsFront (E.contents err.old) (E.contents err.new) (command_fault_line fault)
        × CannotOpen S.Store conn fault e.1) }
{
    match open_book(alloc, conn) {
        Ok(book) => Ok(book),
        Err((fault, conn)) => Err((tell_fault(fault, err), conn)),
    }
}

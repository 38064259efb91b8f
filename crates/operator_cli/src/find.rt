//! The command `find`: the reply that is kept under a number.

ghost use Rattle.std.specs.Prelude.{◌≡◌};
ghost use Rattle.operator_cli.specs.Commands.{CameTo, Finds, outcome_of_find};
ghost use Rattle.operator_cli.specs.Outcomes.{Ends};
ghost use Rattle.operator_cli.specs.CommandReply.{of_find_fault};

use crate::command_fault::CommandFault;
use crate::opening::open_book;
use crate::outcome::{Outcome, print_outcome};
use crate::status::Status;
use crate::told::CommandReply;
use history_keeper::Found;
use request_ledger::RequestNumber;
use sql_records::FindFault;
use sqlite::{Alter, Connection};
use std::alloc::Global;
use std::io::Write;

/// What a look-up that failed ends the command with.
pub(crate) fn of_find_fault(fault: FindFault) -> CommandFault
    ensures { result ≡ of_find_fault fault }
{
    match fault {
        FindFault::Shut => CommandFault::Store,
        FindFault::Damaged { place } => CommandFault::Damaged { place },
        FindFault::Memory => CommandFault::Memory,
        FindFault::Disk => CommandFault::Disk,
    }
}

fn outcome_of_find(called: Result<Option<Found>, FindFault>) -> Outcome
    ensures { result ≡ outcome_of_find called }
{
    match called {
        Ok(Some(found)) => Outcome::Shows(found),
        Ok(None) => Outcome::Tells(CommandReply::NotFound),
        Err(fault) => Outcome::Fails(of_find_fault(fault)),
    }
}

fn find<S: Alter + Drop>(
    alloc: Global,
    conn: Connection<S>,
    number: RequestNumber,
) -> (Outcome, Option<Connection<S>>)
    ensures { CameTo S.Store conn (Finds S.Store number) result.1 result.0 }
{
    match open_book(alloc, conn) {
        Ok(book) => {
            let mut records = book.into_keeper();
            let called = records.find(number);
            (outcome_of_find(called), Some(records.close()))
        }
        Err((fault, conn)) => (Outcome::Fails(fault), conn),
    }
}

/// Prints the place and the reply that are kept under a number; `none` where nothing is, with
/// status 1.
///
/// A fault is told on `err`, with status 3; nothing is printed then, but a front where the text could not be written. The
/// connection comes back unless its records were refused.
pub fn find_store<S: Alter + Drop, W: Write, E: Write>(
    alloc: Global,
    conn: Connection<S>,
    number: RequestNumber,
    out: &mut W,
    err: &mut E,
) -> (Status, Option<Connection<S>>)
    ensures { Ends (CameTo S.Store conn (Finds S.Store number) result.1) (W.contents out.old)
        (W.contents out.new) (E.contents err.old) (E.contents err.new) result.0 }
{
    let (outcome, conn) = find(alloc, conn, number);
    (print_outcome(&outcome, out, err), conn)
}

//! The command `events`: the events that a site knows.

ghost use Rattle.std.specs.Prelude.{◌≡◌};
ghost use Rattle.operator_cli.specs.Commands.{CameTo, EventsOf, of_look_up_fault, outcome_of_events};
ghost use Rattle.operator_cli.specs.Outcomes.{Ends};

use crate::command_fault::CommandFault;
use crate::opening::open_book;
use crate::outcome::{Outcome, print_outcome};
use crate::status::Status;
use rights_lattice::Event;
use site_desk::LookUpFault;
use sqlite::{Alter, Connection};
use std::alloc::Global;
use std::io::Write;

/// What a look at a book that failed ends the command with.
pub(crate) fn of_look_up_fault(fault: LookUpFault) -> CommandFault
    ensures { result ≡ of_look_up_fault fault }
{
    match fault {
        LookUpFault::Closed => CommandFault::Store,
        LookUpFault::Memory => CommandFault::Memory,
    }
}

fn outcome_of_events(called: Result<Vec<Event>, LookUpFault>) -> Outcome
    ensures { result ≡ outcome_of_events called }
{
    match called {
        Ok(events) => Outcome::Knows(events),
        Err(fault) => Outcome::Fails(of_look_up_fault(fault)),
    }
}

fn events<S: Alter + Drop>(alloc: Global, conn: Connection<S>) -> (Outcome, Option<Connection<S>>)
    ensures { CameTo S.Store conn EventsOf result.1 result.0 }
{
    match open_book(alloc, conn) {
        Ok(book) => {
            let called = book.events(alloc);
            (outcome_of_events(called), Some(book.into_keeper().close()))
        }
        Err((fault, conn)) => (Outcome::Fails(fault), conn),
    }
}

/// Prints a line for each event that the site knows, in the order of first knowing: `event` and its name; `none` if it
/// knows none, with status 1.
///
/// A fault is told on `err`, with status 3; nothing is printed then, but a prefix if the text could not be written. The
/// connection comes back unless its records were refused.
pub fn events_store<S: Alter + Drop, W: Write, E: Write>(
    alloc: Global,
    conn: Connection<S>,
    out: &mut W,
    err: &mut E,
) -> (Status, Option<Connection<S>>)
    ensures { Ends (CameTo S.Store conn EventsOf result.1) (W.contents out.old)
        (W.contents out.new) (E.contents err.old) (E.contents err.new) result.0 }
{
    let (outcome, conn) = events(alloc, conn);
    (print_outcome(&outcome, out, err), conn)
}

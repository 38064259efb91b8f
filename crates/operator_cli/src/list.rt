//! The command `list`: the requests that name an event.

ghost use Rattle.std.specs.Prelude.{◌≡◌};
ghost use Rattle.operator_cli.specs.Commands.{CameTo, ListsOf, outcome_of_list};
ghost use Rattle.operator_cli.specs.Outcomes.{Ends};

use crate::find::of_find_fault;
use crate::opening::open_book;
use crate::outcome::{Outcome, print_outcome};
use crate::status::Status;
use crate::told::CommandReply;
use history_keeper::Listed;
use rights_lattice::Event;
use sql_records::FindFault;
use sqlite::{Alter, Connection};
use std::alloc::Global;
use std::io::Write;

fn outcome_of_list(called: Result<Vec<Listed>, FindFault>) -> Outcome
    ensures { result ≡ outcome_of_list called }
{
    match called {
        Ok(rows) => Outcome::Lists(rows),
        Err(fault) => Outcome::Fails(of_find_fault(fault)),
    }
}

fn list<S: Alter + Drop>(
    alloc: Global,
    conn: Connection<S>,
    event: &str,
) -> (Outcome, Option<Connection<S>>)
    ensures { CameTo S.Store conn (ListsOf S.Store event.now) result.1 result.0 }
{
    match open_book(alloc, conn) {
        Ok(book) => {
            let mut records = book.into_keeper();
            let Some(event) = Event::read(event.as_bytes()) else {
                return (
                    Outcome::Tells(CommandReply::NotFound),
                    Some(records.close()),
                );
            };
            let called = records.list(event);
            (outcome_of_list(called), Some(records.close()))
        }
        Err((fault, conn)) => (Outcome::Fails(fault), conn),
    }
}

/// Prints a line for each request that names the event, by place: the place, the session line and
/// the reply; `none` where there is none, also for a word that is no event name, with status 1.
///
/// A fault is told on `err`, with status 3; nothing is printed then, but a front where the text could not be written. The
/// connection comes back unless its records were refused.
pub fn list_store<S: Alter + Drop, W: Write, E: Write>(
    alloc: Global,
    conn: Connection<S>,
    event: &str,
    out: &mut W,
    err: &mut E,
) -> (Status, Option<Connection<S>>)
    ensures { Ends (CameTo S.Store conn (ListsOf S.Store event.now) result.1) (W.contents out.old)
        (W.contents out.new) (E.contents err.old) (E.contents err.new) result.0 }
{
    let (outcome, conn) = list(alloc, conn, event);
    (print_outcome(&outcome, out, err), conn)
}

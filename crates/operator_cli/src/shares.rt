//! The command `shares`: what each site may sell of an event, and what it sold and took back.

ghost use Rattle.std.specs.Prelude.{◌≡◌};
ghost use Rattle.operator_cli.specs.Commands.{CameTo, SharesOf, outcome_of_shares};
ghost use Rattle.operator_cli.specs.Outcomes.{Ends};

use crate::events::of_look_up_fault;
use crate::opening::open_book;
use crate::outcome::{Outcome, print_outcome};
use crate::status::Status;
use crate::told::CommandReply;
use rights_lattice::Event;
use site_desk::{LookUpFault, SiteShare};
use sqlite::{Alter, Connection};
use std::alloc::Global;
use std::io::Write;

fn outcome_of_shares(called: Result<Option<Vec<SiteShare>>, LookUpFault>) -> Outcome
    ensures { result ≡ outcome_of_shares called }
{
    match called {
        Ok(Some(rows)) => Outcome::Splits(rows),
        Ok(None) => Outcome::Tells(CommandReply::Unknown),
        Err(fault) => Outcome::Fails(of_look_up_fault(fault)),
    }
}

fn shares<S: Alter + Drop>(
    alloc: Global,
    conn: Connection<S>,
    event: &str,
) -> (Outcome, Option<Connection<S>>)
    ensures { CameTo S.Store conn (SharesOf event.now) result.1 result.0 }
{
    match open_book(alloc, conn) {
        Ok(book) => {
            let Some(event) = Event::read(event.as_bytes()) else {
                return (
                    Outcome::Tells(CommandReply::Unknown),
                    Some(book.into_keeper().close()),
                );
            };
            let called = book.shares(alloc, event);
            (outcome_of_shares(called), Some(book.into_keeper().close()))
        }
        Err((fault, conn)) => (Outcome::Fails(fault), conn),
    }
}

/// Prints a line for each site that is recognised, from 0: its number, the seats of the event that it may still sell,
/// those that it sold and those that it took back; `unknown` if the event is not known, also for a word that is no event
/// name, with status 1.
///
/// A fault is told on `err`, with status 3; nothing is printed then, but a prefix if the text could not be written. The
/// connection comes back unless its records were refused.
pub fn shares_store<S: Alter + Drop, W: Write, E: Write>(
    alloc: Global,
    conn: Connection<S>,
    event: &str,
    out: &mut W,
    err: &mut E,
) -> (Status, Option<Connection<S>>)
    ensures { Ends (CameTo S.Store conn (SharesOf event.now) result.1) (W.contents out.old)
        (W.contents out.new) (E.contents err.old) (E.contents err.new) result.0 }
{
    let (outcome, conn) = shares(alloc, conn, event);
    (print_outcome(&outcome, out, err), conn)
}

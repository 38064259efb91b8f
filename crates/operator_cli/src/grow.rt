//! The command `grow`: more sites.

ghost use Rattle.std.specs.Prelude.{◌≡◌};
ghost use Rattle.operator_cli.specs.Commands.{CameTo, Grows, outcome_of_grow};
ghost use Rattle.operator_cli.specs.Outcomes.{Ends};
ghost use Rattle.operator_cli.specs.Session.{records};

use crate::command_fault::CommandFault;
use crate::opening::open_book;
use crate::outcome::{Outcome, print_outcome};
use crate::status::Status;
use crate::told::CommandReply;
use book_core::GrowFault;
use rights_lattice::Sites;
use sqlite::{Alter, Connection};
use std::alloc::Global;
use std::io::Write;

pub(crate) fn outcome_of_grow(called: Result<(), GrowFault>) -> Outcome
    ensures { result ≡ outcome_of_grow called }
{
    match called {
        Ok(()) => Outcome::Tells(CommandReply::Grown),
        Err(GrowFault::Memory) => Outcome::Fails(CommandFault::Memory),
        Err(GrowFault::Store | GrowFault::Closed) => Outcome::Fails(CommandFault::Store),
        Err(fault) => Outcome::Tells(CommandReply::NotGrown(fault)),
    }
}

fn grow<S: Alter + Drop>(
    alloc: Global,
    conn: Connection<S>,
    sites: Sites,
) -> (Outcome, Option<Connection<S>>)
    ensures { CameTo S.Store conn (Grows (records S.Store) sites) result.1 result.0 }
{
    match open_book(alloc, conn) {
        Ok(mut book) => {
            let called = book.grow(alloc, sites);
            (outcome_of_grow(called), Some(book.into_keeper().close()))
        }
        Err((fault, conn)) => (Outcome::Fails(fault), conn),
    }
}

/// Has the site count so many sites from here on, and prints `grown`; or `not-more` where that is no more than it counts,
/// or `history-full`, with status 1, which change nothing. It changes no cell.
///
/// A fault is told on `err`, with status 3; nothing is printed then, but a front where the word could not be written. The
/// connection comes back unless its records were refused, and a stop then leaves what they held, or that with the growth
/// at its end.
pub fn grow_store<S: Alter + Drop, W: Write, E: Write>(
    alloc: Global,
    conn: Connection<S>,
    sites: Sites,
    out: &mut W,
    err: &mut E,
) -> (Status, Option<Connection<S>>)
    ensures { Ends (CameTo S.Store conn (Grows (records S.Store) sites) result.1)
        (W.contents out.old) (W.contents out.new)
        (E.contents err.old) (E.contents err.new) result.0 }
{
    let (outcome, conn) = grow(alloc, conn, sites);
    (print_outcome(&outcome, out, err), conn)
}

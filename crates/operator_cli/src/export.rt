//! The command `export`: the message to a peer.

ghost use Rattle.std.specs.Prelude.{◌≡◌};
ghost use Rattle.operator_cli.specs.Commands.{CameTo, Exports, outcome_of_next};
ghost use Rattle.operator_cli.specs.Outcomes.{Ends};

use crate::command_fault::CommandFault;
use crate::opening::open_book;
use crate::outcome::{Outcome, print_outcome};
use crate::status::Status;
use crate::told::CommandReply;
use rights_lattice::SiteId;
use site_desk::NextFault;
use site_exchange::Message;
use sqlite::{Alter, Connection};
use std::alloc::Global;
use std::io::Write;

fn outcome_of_next(called: Result<Option<Message>, NextFault>) -> Outcome
    ensures { result ≡ outcome_of_next called }
{
    match called {
        Ok(Some(message)) => Outcome::Sends(message),
        Ok(None) => Outcome::Tells(CommandReply::Nothing),
        Err(NextFault::NoSite) => Outcome::Tells(CommandReply::NoSite),
        Err(NextFault::Closed) => Outcome::Fails(CommandFault::Store),
        Err(NextFault::Memory) => Outcome::Fails(CommandFault::Memory),
    }
}

fn export<S: Alter + Drop>(
    alloc: Global,
    conn: Connection<S>,
    to: SiteId,
) -> (Outcome, Option<Connection<S>>)
    ensures { CameTo S.Store conn (Exports to) result.1 result.0 }
{
    match open_book(alloc, conn) {
        Ok(mut book) => {
            let called = book.next(alloc, to);
            (outcome_of_next(called), Some(book.into_keeper().close()))
        }
        Err((fault, conn)) => (Outcome::Fails(fault), conn),
    }
}

/// Prints the message to a peer that has acknowledged nothing; `nothing` where the history is
/// empty, or `no-site` where `to` is no other site of the records, with status 1.
///
/// A fault is told on `err`, with status 3; nothing is printed then, but a front where the text could not be written. The
/// connection comes back unless its records were refused.
pub fn export_store<S: Alter + Drop, W: Write, E: Write>(
    alloc: Global,
    conn: Connection<S>,
    to: SiteId,
    out: &mut W,
    err: &mut E,
) -> (Status, Option<Connection<S>>)
    ensures { Ends (CameTo S.Store conn (Exports to) result.1) (W.contents out.old)
        (W.contents out.new) (E.contents err.old) (E.contents err.new) result.0 }
{
    let (outcome, conn) = export(alloc, conn, to);
    (print_outcome(&outcome, out, err), conn)
}

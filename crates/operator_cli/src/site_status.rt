//! The command `status` where no office is open.

ghost use Rattle.std.specs.Prelude.{◌≡◌};
ghost use Rattle.operator_cli.specs.Commands.{CameTo, HasSiteStatus};
ghost use Rattle.operator_cli.specs.Outcomes.{Ends};
ghost use Rattle.operator_cli.specs.Printed.{site_status_in};

use crate::opening::open_book;
use crate::outcome::{Outcome, print_outcome};
use crate::status::Status;
use book_core::Book;
use site_desk::SiteStatus;
use sqlite::{Alter, Connection};
use std::alloc::Global;
use std::io::Write;

fn site_status_of(book: &Book) -> SiteStatus
    ensures { result ≡ site_status_in book.now.office book.now.history }
{
    SiteStatus {
        me: book.me(),
        sites: book.sites(),
        entries: book.len(),
        limit: book.limit(),
    }
}

fn site_status<S: Alter + Drop>(
    alloc: Global,
    conn: Connection<S>,
) -> (Outcome, Option<Connection<S>>)
    ensures { CameTo S.Store conn HasSiteStatus result.1 result.0 }
{
    match open_book(alloc, conn) {
        Ok(book) => {
            let site_status = site_status_of(book.book());
            (
                Outcome::SiteStatusIs(site_status),
                Some(book.into_keeper().close()),
            )
        }
        Err((fault, conn)) => (Outcome::Fails(fault), conn),
    }
}

/// Prints which site the records are of, how many sites it counts, and how many entries they have and may have.
///
/// A fault is told on `err`, with status 3; nothing is printed then, but a prefix where the line could not be written. The
/// connection comes back unless its records were refused.
pub fn status_store<S: Alter + Drop, W: Write, E: Write>(
    alloc: Global,
    conn: Connection<S>,
    out: &mut W,
    err: &mut E,
) -> (Status, Option<Connection<S>>)
    ensures { Ends (CameTo S.Store conn HasSiteStatus result.1) (W.contents out.old)
        (W.contents out.new) (E.contents err.old) (E.contents err.new) result.0 }
{
    let (outcome, conn) = site_status(alloc, conn);
    (print_outcome(&outcome, out, err), conn)
}

//! The command `ask`: a session with the book of a site.

ghost use Rattle.std.specs.Prelude.{◌≡◌, ◌⊎◌, None, IfSome};
ghost use Rattle.operator_cli.specs.Session.{RanOrFailed, status_of};
ghost use Rattle.operator_cli.specs.declared.status.Status.TheVariants.{Done, Failed};
ghost use Rattle.operator_cli.specs.CommandReply.{FaultTold};
ghost use Rattle.operator_cli.specs.Opened.{FailsIfIllegal, IsLost, ShowedRecords};

use crate::command_fault::CommandFault;
use crate::ending::{close_book, ended};
use crate::opening::open_book;
use crate::status::Status;
use session_server::{BookAnswerer, Ended, TalkFault, talk};
use sqlite::{Alter, Connection};
use std::alloc::Global;
use std::io::{Read, Write};
use std::sync::Wait;

// What a session that ended so comes to.
pub(crate) fn status_of(came: Result<Ended, TalkFault>) -> Result<Status, CommandFault>
    ensures { result ≡ status_of came }
{
    match came {
        Ok(_) => Ok(Status::Done),
        Err(fault) => Err(CommandFault::from(fault)),
    }
}

/// Answers the session lines of the input, each before the next is read, up to `quit` or the end:
/// its reply, what the site shows of an event, or `bad-line`; `memory`, `store` and `closed` are
/// answers too.
///
/// The records are opened before anything is read. Why they are not, and nothing is answered then, or what ends the
/// session early is told on `err`, with status 3; what was answered stays entered. The connection comes back unless its
/// records were refused.
pub fn ask_store<T: Wait, S: Alter + Drop, R: Read + Drop, W: Write, E: Write>(
    rt: &T,
    alloc: Global,
    conn: Connection<S>,
    input: R,
    out: &mut W,
    err: &mut E,
) -> (Status, Option<Connection<S>>)
    ensures status { (result.0 ≡ Done) ⊎ (result.0 ≡ Failed) }
    ensures err { FaultTold (E.contents err.old) (E.contents err.new) result.0 }
    ensures ran { IfSome result.1 (RanOrFailed S.Store conn (R.remaining input) (W.contents out.old)
        (W.contents out.new) (E.contents err.old) (E.contents err.new) result.0) }
    ensures ours { IfSome result.1 (ShowedRecords S.Store conn) }
    ensures illegal { IfSome result.1
        (λ after. FailsIfIllegal S.Store conn after (W.contents out.old)
        (W.contents out.new) (E.contents err.old) (E.contents err.new) result.0) }
    ensures lost { result.1 ≡ None → IsLost S.Store conn (W.contents out.old)
        (W.contents out.new) (E.contents err.old) (E.contents err.new) result.0 }
{
    match open_book(alloc, conn) {
        Ok(book) => {
            let mut answerer = BookAnswerer::new(alloc, book);
            let came = talk(rt, alloc, input, out, &mut answerer);
            close_book(status_of(came), answerer.into_book(), out, err)
        }
        Err((fault, conn)) => (ended(Err(fault), out, err), conn),
    }
}

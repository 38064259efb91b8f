//! The command `import`: a message from a peer.

ghost use Rattle.std.specs.Prelude.{◌≡◌, ◌≤◌, ◌⊎◌, IfOk, IfErr, IfSome, vec_len};
ghost use Rattle.std.specs.Option.{option_map};
ghost use Rattle.delta_wire.specs.Grammar.{most_bytes};
ghost use Rattle.operator_cli.specs.Commands.{CameTo, Imports, IsRead, outcome_of_take};
ghost use Rattle.operator_cli.specs.Commands.{IsInputRead};
ghost use Rattle.operator_cli.specs.Outcomes.{Ends};
ghost use Rattle.operator_cli.specs.Session.{records};
ghost use Rattle.operator_cli.specs.declared.command_fault.CommandFault.TheVariants.{Memory as WantsMemory, Read as ReadFailed};

use crate::command_fault::CommandFault;
use crate::opening::open_book;
use crate::outcome::{Outcome, print_outcome};
use crate::status::Status;
use crate::told::CommandReply;
use delta_wire::{MOST_BYTES, WireFault, read_message};
use history_keeper::Keeper;
use site_desk::{SiteBook, Taken};
use site_exchange::{Message, TakeFault};
use sqlite::{Alter, Connection};
use std::alloc::Global;
use std::io::{ErrorKind, Read, Write};

/// All of the input, or None where it is longer than a message may be.
pub(crate) fn read_input<R: Read + Drop>(
    alloc: Global,
    input: R,
) -> Result<Option<Vec<u8>>, CommandFault>
    ensures few { IfOk result (λ read. IfSome read (λ bytes. vec_len bytes ≤ most_bytes)) }
    ensures read { IfOk result (λ read. IfSome (R.remaining input)
        (λ bytes. IsInputRead bytes (option_map (λ v. v.items) read))) }
    ensures fault { IfErr result (λ fault. (fault ≡ WantsMemory) ⊎ (fault ≡ ReadFailed)) }
{
    let mut bytes = Vec::new(alloc);
    match input.take(MOST_BYTES as u64 + 1).read_to_end(&mut bytes) {
        Ok(_) => {}
        Err(error) => match error.kind() {
            ErrorKind::OutOfMemory => return Err(CommandFault::Memory),
            _ => return Err(CommandFault::Read),
        },
    }
    if bytes.len() > MOST_BYTES {
        return Ok(None);
    }
    Ok(Some(bytes))
}

// The message that the input is, or what comes of one that is none.
fn message_in<R: Read + Drop>(alloc: Global, input: R) -> Result<Message, Outcome>
    ensures { IsRead (R.remaining input) result }
{
    match read_input(alloc, input) {
        Ok(Some(bytes)) => match read_message(alloc, bytes.as_slice()) {
            Ok(message) => Ok(message),
            Err(WireFault::Memory) => Err(Outcome::Fails(CommandFault::Memory)),
            Err(fault) => Err(Outcome::Tells(CommandReply::Unread(fault))),
        },
        Ok(None) => Err(Outcome::Tells(CommandReply::TooLong)),
        Err(fault) => Err(Outcome::Fails(fault)),
    }
}

fn outcome_of_take(called: Result<Taken, TakeFault>) -> Outcome
    ensures { result ≡ outcome_of_take called }
{
    match called {
        Ok(Taken::Joined { .. }) => Outcome::Tells(CommandReply::Joined),
        Ok(Taken::NothingNew { .. }) => Outcome::Tells(CommandReply::NothingNew),
        Ok(Taken::Acked) => Outcome::Tells(CommandReply::Acked),
        Err(TakeFault::Memory) => Outcome::Fails(CommandFault::Memory),
        Err(TakeFault::Store | TakeFault::Closed) => Outcome::Fails(CommandFault::Store),
        Err(fault) => Outcome::Tells(CommandReply::NotTaken(fault)),
    }
}

// Has the book take the message that the input is.
pub(crate) fn take_input<K: Keeper, R: Read + Drop>(
    alloc: Global,
    book: &mut SiteBook<K>,
    input: R,
) -> Outcome
    ensures { Imports K.Keeper
        (R.remaining input) book.old book.new result }
{
    match message_in(alloc, input) {
        Ok(message) => outcome_of_take(book.take(message)),
        Err(outcome) => outcome,
    }
}

fn import<S: Alter + Drop, R: Read + Drop>(
    alloc: Global,
    conn: Connection<S>,
    input: R,
) -> (Outcome, Option<Connection<S>>)
    ensures { CameTo S.Store conn (Imports (records S.Store) (R.remaining input))
        result.1 result.0 }
{
    match open_book(alloc, conn) {
        Ok(mut book) => {
            let outcome = take_input(alloc, &mut book, input);
            (outcome, Some(book.into_keeper().close()))
        }
        Err((fault, conn)) => (Outcome::Fails(fault), conn),
    }
}

/// Takes the one message that the input is, and prints `joined`, `nothing-new` or `acked`; what is
/// no message, and what is refused, is told with status 1 and changes nothing.
///
/// A fault is told on `err`, with status 3; nothing is printed then, but a front where the word could not be written. The
/// connection comes back unless its records were refused, and a stop then leaves what they held, or that with what the
/// message brought at its end.
pub fn import_store<S: Alter + Drop, R: Read + Drop, W: Write, E: Write>(
    alloc: Global,
    conn: Connection<S>,
    input: R,
    out: &mut W,
    err: &mut E,
) -> (Status, Option<Connection<S>>)
    ensures { Ends (CameTo S.Store conn (Imports (records S.Store) (R.remaining input)) result.1)
        (W.contents out.old) (W.contents out.new)
        (E.contents err.old) (E.contents err.new) result.0 }
{
    let (outcome, conn) = import(alloc, conn, input);
    (print_outcome(&outcome, out, err), conn)
}

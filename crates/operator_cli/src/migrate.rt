//! The command `migrate`: records of the first schema, made ones of the second.

ghost use Rattle.std.specs.Prelude.{◌≡◌};
ghost use Rattle.operator_cli.specs.Commands.{Migrates, outcome_of_migrate};
ghost use Rattle.operator_cli.specs.Outcomes.{Ends};

use crate::command_fault::CommandFault;
use crate::outcome::{Outcome, print_outcome};
use crate::status::Status;
use crate::told::CommandReply;
use sql_records::{MigrateFault, Records};
use sqlite::{Alter, Connection};
use std::alloc::Global;
use std::io::Write;

fn outcome_of_migrate(called: Result<(), MigrateFault>) -> Outcome
    ensures { result ≡ outcome_of_migrate called }
{
    match called {
        Ok(()) => Outcome::Tells(CommandReply::Migrated),
        Err(MigrateFault::Nothing) => Outcome::Tells(CommandReply::Nothing),
        Err(MigrateFault::NotOurs) => Outcome::Fails(CommandFault::NotOurs),
        Err(MigrateFault::OtherSchema { version }) => {
            Outcome::Fails(CommandFault::OtherSchema { version })
        }
        Err(MigrateFault::Damaged { place }) => Outcome::Fails(CommandFault::Damaged { place }),
        Err(MigrateFault::Memory) => Outcome::Fails(CommandFault::Memory),
        Err(MigrateFault::Disk) => Outcome::Fails(CommandFault::Disk),
    }
}

fn migrate<S: Alter>(alloc: Global, conn: &mut Connection<S>) -> Outcome
    ensures { Migrates S.Store conn.old conn.new result }
{
    outcome_of_migrate(Records::migrate(alloc, conn))
}

/// Makes the records of a site in the first schema records of the second, and prints `migrated`; or `nothing` where they
/// are of the second already, with status 1.
///
/// Each other refusal is told on `err`, with status 3 and nothing printed: `not-ours`, `other-schema V`, `damaged K`,
/// `memory` and `disk`; and `write` where the word is not written, of which a front may be printed. A connection that is
/// still open then shows the records as they were, save where `migrated` could not be written; behind `disk` or `memory`
/// the file may have either version. `migrated` leaves the numbers under the new version and the rows of the entries. A
/// stop leaves the database as it was, or migrated.
pub fn migrate_store<S: Alter, W: Write, E: Write>(
    alloc: Global,
    conn: &mut Connection<S>,
    out: &mut W,
    err: &mut E,
) -> Status
    ensures { Ends (Migrates S.Store conn.old conn.new) (W.contents out.old)
        (W.contents out.new) (E.contents err.old) (E.contents err.new) result }
{
    let outcome = migrate(alloc, conn);
    print_outcome(&outcome, out, err)
}

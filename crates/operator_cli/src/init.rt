//! The command `init`: new records of a site.

ghost use Rattle.std.specs.Prelude.{◌≡◌};
ghost use Rattle.operator_cli.specs.Commands.{Inits, outcome_of_init};
ghost use Rattle.operator_cli.specs.Outcomes.{Ends, IsPrinted};
ghost use Rattle.operator_cli.specs.declared.outcome.Outcome.TheVariants.{Tells};
ghost use Rattle.operator_cli.specs.declared.told.CommandReply.TheVariants.{NoSite};

use crate::command_fault::CommandFault;
use crate::outcome::{Outcome, print_outcome};
use crate::status::Status;
use crate::told::CommandReply;
use book_core::Limit;
use rights_lattice::{SiteId, Sites};
use sql_records::{InitFault, Records};
use sqlite::{Alter, Connection};
use std::io::Write;

/// Tells that there is no such site among so many, which needs no file: `no-site`, status 1; or on `err` `write`, status 3,
/// where that is not written.
pub fn refuse_site<W: Write, E: Write>(out: &mut W, err: &mut E) -> Status
    ensures { IsPrinted (Tells NoSite) (W.contents out.old) (W.contents out.new)
        (E.contents err.old) (E.contents err.new) result }
{
    print_outcome(&Outcome::Tells(CommandReply::NoSite), out, err)
}

fn outcome_of_init(called: Result<(), InitFault>) -> Outcome
    ensures { result ≡ outcome_of_init called }
{
    match called {
        Ok(()) => Outcome::Tells(CommandReply::Made),
        Err(InitFault::AlreadyThere) => Outcome::Tells(CommandReply::AlreadyThere),
        Err(InitFault::Memory) => Outcome::Fails(CommandFault::Memory),
        Err(InitFault::Disk) => Outcome::Fails(CommandFault::Disk),
    }
}

fn init<S: Alter>(conn: &mut Connection<S>, me: SiteId, sites: Sites, limit: Limit) -> Outcome
    ensures { Inits S.Store (record { me = me; sites = sites; limit = limit })
        conn.old conn.new result }
{
    if me.number() >= sites.count() {
        return Outcome::Tells(CommandReply::NoSite);
    }
    outcome_of_init(Records::init(conn, me, sites, limit))
}

/// Makes the records of a site with no entries, and prints `done`; or `no-site` where `me` is not below `sites`, or else
/// `already-there` where a table or view has the name of one of ours, with status 1.
///
/// `memory` and `disk` are told on `err`, with status 3 and nothing printed, only where records may be made: what an open
/// connection has committed is then what it had, but a stop may leave the new records. `write` is told where the word is
/// not written: it changes the database as `done` does, and else nothing. A stop leaves the database as it was, or the new
/// records, and behind `done` those alone.
pub fn init_store<S: Alter, W: Write, E: Write>(
    conn: &mut Connection<S>,
    me: SiteId,
    sites: Sites,
    limit: Limit,
    out: &mut W,
    err: &mut E,
) -> Status
    ensures { Ends (Inits S.Store (record { me = me; sites = sites; limit = limit })
        conn.old conn.new) (W.contents out.old) (W.contents out.new)
        (E.contents err.old) (E.contents err.new) result }
{
    let outcome = init(conn, me, sites, limit);
    print_outcome(&outcome, out, err)
}

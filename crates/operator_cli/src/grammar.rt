//! The grammar of the program's words: each command and the values that it takes.

ghost use Rattle.std.specs.Prelude.{◌≡◌, IfOk, codes};
ghost use Rattle.clap.specs.Words.{app_of, new_app};
ghost use Rattle.operator_cli.specs.Orders.{operand, boxoffice, init_app, migrate_app, grow_app, ask_app, find_app, list_app, events_app, shares_app, export_app, import_app, audit_app, serve_app, low_rule, reserve_rule, copy_rule, copies_rule, office_app, open_app, close_app, status_app, pair_app, alone_app, backup_app, most_desks, repeated_operand, IsCommand, IsValue};
ghost use Rattle.rights_lattice.specs.Limits.{most_sites};

use crate::orders::{MOST_DESKS, MOST_FILES};
use clap::{Arg, ArgAction, Command};
use std::alloc::{AllocError, Global};

fn named<'a>(alloc: Global, name: &'a str, about: &'a str) -> Command<'a>
    ensures { IsCommand (new_app name.now) result }
{
    Command::new(alloc, name).about(about)
}

fn operand<'a>(alloc: Global, id: &'a str, help: &'a str) -> Arg<'a>
    ensures { IsValue (operand id.now) result }
{
    Arg::new(alloc, id).help(help).required(true)
}

fn file<'a>(alloc: Global) -> Arg<'a>
    ensures { IsValue (operand (codes "FILE")) result }
{
    operand(alloc, "FILE", "The file of a site")
}

fn files<'a>(alloc: Global) -> Arg<'a>
    ensures { IsValue (repeated_operand (codes "FILE") most_sites) result }
{
    file(alloc).num_args(1..=MOST_FILES)
}

// As many files as one `serve` runs sites.
fn desks<'a>(alloc: Global) -> Arg<'a>
    ensures { IsValue (repeated_operand (codes "FILE") most_desks) result }
{
    file(alloc).num_args(1..=MOST_DESKS)
}

fn copy<'a>(alloc: Global) -> Arg<'a>
    ensures { IsValue copy_rule result }
{
    Arg::new(alloc, "COPY")
        .long("copy")
        .help("The other file of a site that keeps two copies")
}

fn copies<'a>(alloc: Global) -> Arg<'a>
    ensures { IsValue copies_rule result }
{
    copy(alloc).action(ArgAction::Append)
}

fn init<'a>(alloc: Global) -> Result<Command<'a>, AllocError>
    ensures { IfOk result (IsCommand init_app) }
{
    let me = operand(
        alloc,
        "ME",
        "The number of the site, 0 to 63 and below SITES",
    );
    let sites = operand(alloc, "SITES", "How many sites there are, 1 to 64");
    let limit = operand(
        alloc,
        "LIMIT",
        "How many entries its history may have, 1 to 1000000",
    );
    named(alloc, "init", "Makes the file of a site")
        .arg(file(alloc))?
        .arg(me)?
        .arg(sites)?
        .arg(limit)
}

fn migrate<'a>(alloc: Global) -> Result<Command<'a>, AllocError>
    ensures { IfOk result (IsCommand migrate_app) }
{
    named(
        alloc,
        "migrate",
        "Gives a file of an older version the schema of this program",
    )
    .arg(file(alloc))
}

fn grow<'a>(alloc: Global) -> Result<Command<'a>, AllocError>
    ensures { IfOk result (IsCommand grow_app) }
{
    let sites = operand(
        alloc,
        "SITES",
        "How many sites it recognises from here on, 1 to 64",
    );
    named(alloc, "grow", "Has a site recognise more sites")
        .arg(file(alloc))?
        .arg(sites)?
        .arg(copy(alloc))
}

fn ask<'a>(alloc: Global) -> Result<Command<'a>, AllocError>
    ensures { IfOk result (IsCommand ask_app) }
{
    named(alloc, "ask", "Answers the requests on standard input")
        .arg(file(alloc))?
        .arg(copy(alloc))
}

fn find<'a>(alloc: Global) -> Result<Command<'a>, AllocError>
    ensures { IfOk result (IsCommand find_app) }
{
    let number = operand(
        alloc,
        "NUMBER",
        "The number of a request, 1 to 1000000000000",
    );
    named(alloc, "find", "Prints the place and the reply of a request")
        .arg(file(alloc))?
        .arg(number)?
        .arg(copy(alloc))
}

fn list<'a>(alloc: Global) -> Result<Command<'a>, AllocError>
    ensures { IfOk result (IsCommand list_app) }
{
    let event = operand(alloc, "EVENT", "The name of an event");
    named(alloc, "list", "Prints the requests that name an event")
        .arg(file(alloc))?
        .arg(event)?
        .arg(copy(alloc))
}

fn events<'a>(alloc: Global) -> Result<Command<'a>, AllocError>
    ensures { IfOk result (IsCommand events_app) }
{
    named(alloc, "events", "Prints the events that the site knows")
        .arg(file(alloc))?
        .arg(copy(alloc))
}

fn shares<'a>(alloc: Global) -> Result<Command<'a>, AllocError>
    ensures { IfOk result (IsCommand shares_app) }
{
    let event = operand(alloc, "EVENT", "The name of an event");
    named(
        alloc,
        "shares",
        "Prints what each site may sell of an event, and what it sold and took back",
    )
    .arg(file(alloc))?
    .arg(event)?
    .arg(copy(alloc))
}

fn export<'a>(alloc: Global) -> Result<Command<'a>, AllocError>
    ensures { IfOk result (IsCommand export_app) }
{
    let to = operand(alloc, "TO", "The number of another site, 0 to 63");
    named(
        alloc,
        "export",
        "Prints the message for another site, with all that this site knows",
    )
    .arg(file(alloc))?
    .arg(to)?
    .arg(copy(alloc))
}

fn import<'a>(alloc: Global) -> Result<Command<'a>, AllocError>
    ensures { IfOk result (IsCommand import_app) }
{
    named(alloc, "import", "Takes the message on standard input")
        .arg(file(alloc))?
        .arg(copy(alloc))
}

fn audit<'a>(alloc: Global) -> Result<Command<'a>, AllocError>
    ensures { IfOk result (IsCommand audit_app) }
{
    named(
        alloc,
        "audit",
        "Sums up the files of all sites, the k-th that of site k",
    )
    .arg(files(alloc))?
    .arg(copies(alloc))
}

fn serve<'a>(alloc: Global) -> Result<Command<'a>, AllocError>
    ensures { IfOk result (IsCommand serve_app) }
{
    let port = operand(alloc, "PORT", "The port of this machine, 1 to 65535");
    let sessions = operand(
        alloc,
        "SESSIONS",
        "How many connections are taken, 0 to 1024",
    );
    let rounds = operand(
        alloc,
        "ROUNDS",
        "How often each site sends what is due to the others, 0 to 1000000",
    );
    let copies = copies(alloc);
    named(
        alloc,
        "serve",
        "Sells at all sites at once, over connections, and sums up at the end; the k-th file is that of site k",
    )
    .arg(port)?
    .arg(sessions)?
    .arg(rounds)?
    .arg(desks(alloc))?
    .arg(copies)
}

fn low<'a>(alloc: Global) -> Arg<'a>
    ensures { IsValue low_rule result }
{
    Arg::new(alloc, "low")
        .long("low")
        .action(ArgAction::SetTrue)
        .help(
            "Answers a request for more seats than are left with what is left, and keeps no reply",
        )
}

fn reserve<'a>(alloc: Global) -> Arg<'a>
    ensures { IsValue reserve_rule result }
{
    Arg::new(alloc, "R").long("reserve").help(
        "Keeps the last R entries for refunds, cessions and messages, 0 to 1000000",
    )
}

// An office over one file.
fn office<'a>(alloc: Global) -> Result<Command<'a>, AllocError>
    ensures { IfOk result (IsCommand office_app) }
{
    let port = operand(alloc, "PORT", "The port of this machine, 1 to 65535");
    named(
        alloc,
        "open",
        "Keeps the office of a site open, at a port and at the socket FILE-sock",
    )
    .arg(port)?
    .arg(file(alloc))?
    .arg(low(alloc))?
    .arg(reserve(alloc))
}

fn open<'a>(alloc: Global) -> Result<Command<'a>, AllocError>
    ensures { IfOk result (IsCommand open_app) }
{
    office(alloc)?.arg(copy(alloc))
}

fn close<'a>(alloc: Global) -> Result<Command<'a>, AllocError>
    ensures { IfOk result (IsCommand close_app) }
{
    named(alloc, "close", "Closes the office of a site").arg(file(alloc))
}

fn status<'a>(alloc: Global) -> Result<Command<'a>, AllocError>
    ensures { IfOk result (IsCommand status_app) }
{
    named(
        alloc,
        "status",
        "Prints which site it is, how many sites it recognises, and how many entries its history has",
    )
    .arg(file(alloc))?
    .arg(copy(alloc))
}

fn pair<'a>(alloc: Global) -> Result<Command<'a>, AllocError>
    ensures { IfOk result (IsCommand pair_app) }
{
    let copy = operand(alloc, "COPY", "The file to make, on another disk");
    named(
        alloc,
        "pair",
        "Marks a file as one of two copies, and makes the other",
    )
    .arg(file(alloc))?
    .arg(copy)
}

fn alone<'a>(alloc: Global) -> Result<Command<'a>, AllocError>
    ensures { IfOk result (IsCommand alone_app) }
{
    named(
        alloc,
        "alone",
        "Says that the other copy is lost for good: this one goes on without it",
    )
    .arg(file(alloc))
}

fn backup<'a>(alloc: Global) -> Result<Command<'a>, AllocError>
    ensures { IfOk result (IsCommand backup_app) }
{
    let copy = operand(alloc, "COPY", "The file to make");
    named(
        alloc,
        "backup",
        "Writes a copy for looking, also beside sales: never sell from it",
    )
    .arg(file(alloc))?
    .arg(copy)
}

/// The program's command line.
pub(crate) fn boxoffice<'a>(alloc: Global) -> Result<Command<'a>, AllocError>
    ensures { IfOk result (λ command. app_of command ≡ boxoffice) }
{
    let world = named(alloc, "world", "Runs the script on standard input");
    let version = named(alloc, "version", "Prints which program it is");
    let whole = named(
        alloc,
        "boxoffice",
        "Sells the seats of events at several sites",
    )
    .subcommand_required(true)
    .subcommand(world)?
    .subcommand(init(alloc)?)?
    .subcommand(migrate(alloc)?)?
    .subcommand(grow(alloc)?)?
    .subcommand(ask(alloc)?)?
    .subcommand(find(alloc)?)?
    .subcommand(list(alloc)?)?
    .subcommand(events(alloc)?)?
    .subcommand(shares(alloc)?)?
    .subcommand(export(alloc)?)?
    .subcommand(import(alloc)?)?
    .subcommand(audit(alloc)?)?
    .subcommand(serve(alloc)?)?
    .subcommand(open(alloc)?)?
    .subcommand(close(alloc)?)?
    .subcommand(status(alloc)?)?
    .subcommand(pair(alloc)?)?
    .subcommand(alone(alloc)?)?
    .subcommand(backup(alloc)?)?
    .subcommand(version)?;
    Ok(whole)
}

//! The words that the program is called with.

ghost use Rattle.std.specs.Prelude.{◌≡◌, ◌≤◌, [], ◌∷◌, IfSome, IfOk, OnOk, IfErr, MatchResult, Some, None, map, codes};
ghost use Rattle.std.specs.Option.{option_map};
ghost use Rattle.clap.specs.Words.{subcommand_of, subcommand_rows_of, kind_of, all_of, first_of, found_of, rows_of};
ghost use Rattle.rights_lattice.specs.Cells.{greatest_value};
ghost use Rattle.rights_lattice.specs.Limits.{greatest_site, most_sites};
ghost use Rattle.book_core.specs.Limits.{greatest_limit};
ghost use Rattle.operator_cli.specs.Orders.{boxoffice, greatest_port, most_sessions, AreUnderstood, order_in, said_by, text_of, texts_of, number_in, init_in, migrate_in, grow_in, ask_in, find_in, list_in, events_in, shares_in, export_in, import_in, at_most, files_in, copy_in, copies_in, audit_in, serve_in, open_in, low_in, reserve_in, close_in, status_in, pair_in, alone_in, backup_in, named_order, values_of, misfit_in, misfit_line, IsOrderOf, TellsMisfit, IsWordsRefusal};

use crate::grammar::boxoffice;
use arrayvec::ArrayVec;
use book_core::Limit;
use clap::error::ErrorKind;
use clap::{ArgMatches, Error};
use live_office::Sparing;
use plain_words::read_number;
use request_ledger::RequestNumber;
use rights_lattice::{GREATEST_SITE, GREATEST_VALUE, MOST_SITES, SiteId, Sites};
use std::alloc::Global;

// As many files as there may be sites, and the most sites that one `serve` runs.
pub(crate) const MOST_FILES: usize = MOST_SITES as usize;

pub(crate) const MOST_DESKS: usize = 16;

// The greatest number of a port, the most connections that `serve` takes, and the most rounds in which its sites send.
const GREATEST_PORT: u64 = 65_535;

const MOST_SESSIONS: u64 = 1024;

const MOST_ROUNDS: u64 = 1_000_000;

/// The files of several sites, in the order of the sites: at most 64.
pub type FileNames<'a> = ArrayVec<&'a str, MOST_FILES>;

/// A command of the program, with its values. `copy` is the other file of a site that keeps two copies.
#[derive(Debug, PartialEq, Eq, Drop)]
pub enum Order<'a> {
    /// Runs the script on standard input.
    World,
    /// Makes the records of a site.
    Init {
        file: &'a str,
        me: SiteId,
        sites: Sites,
        limit: Limit,
    },
    /// Makes records of the first schema ones of the second.
    Migrate {
        file: &'a str,
    },
    /// Has a site count more sites.
    Grow {
        file: &'a str,
        sites: Sites,
        copy: Option<&'a str>,
    },
    /// Answers the requests on standard input.
    Ask {
        file: &'a str,
        copy: Option<&'a str>,
    },
    /// Prints the place and the reply that are kept under a number.
    Find {
        file: &'a str,
        number: RequestNumber,
        copy: Option<&'a str>,
    },
    /// Prints the requests that name an event. The event is any word.
    List {
        file: &'a str,
        event: &'a str,
        copy: Option<&'a str>,
    },
    /// Prints the events that a site knows.
    Events {
        file: &'a str,
        copy: Option<&'a str>,
    },
    /// Prints what each site may sell of an event, and what it sold and took back. The event is any word.
    Shares {
        file: &'a str,
        event: &'a str,
        copy: Option<&'a str>,
    },
    /// Prints a message with all that the site knows.
    Export {
        file: &'a str,
        to: SiteId,
        copy: Option<&'a str>,
    },
    /// Takes the message on standard input.
    Import {
        file: &'a str,
        copy: Option<&'a str>,
    },
    /// Sums up the records of all sites, over both copies where a site has two: their order is that of the files.
    Audit {
        files: FileNames<'a>,
        copies: FileNames<'a>,
    },
    /// Sells at all sites at once, over so many connections to a port, while each site sends what is due to the others so
    /// often. There is a copy for each file or for none.
    Serve {
        port: u16,
        sessions: usize,
        rounds: u64,
        files: FileNames<'a>,
        copies: FileNames<'a>,
    },
    /// Keeps the office of a site open: callers come at a port, and at a socket beside the file. It spares its history so.
    Open {
        port: u16,
        file: &'a str,
        sparing: Sparing,
        copy: Option<&'a str>,
    },
    /// Closes the office of a site.
    Close {
        file: &'a str,
    },
    /// Prints how many entries the records of a site have.
    Status {
        file: &'a str,
        copy: Option<&'a str>,
    },
    /// Marks a file as one of two copies, and makes the other.
    Pair {
        file: &'a str,
        copy: &'a str,
    },
    /// Takes the mark off a file, whose other copy is lost for good.
    Alone {
        file: &'a str,
    },
    /// Writes a copy of a file, which an office may have open, for looking.
    Backup {
        file: &'a str,
        copy: &'a str,
    },
    /// Prints which program it is.
    Version,
}

/// Why the words give no command.
#[derive(Debug, Drop, thiserror::Error)]
pub enum WordsFault {
    /// The words are no command, or ask for help. Where a value does not fit, the text names the first such; no clause
    /// says what it is else.
    #[error("{text}")]
    NotUnderstood { text: String },
    /// Memory was refused.
    #[error("memory")]
    Memory,
}

// What is wrong with the words of a command: its name, or the value that is named.
#[derive(Clone, Copy, Debug)]
enum Misfit {
    Command,
    File,
    Copy,
    Event,
    Me,
    Sites,
    Limit,
    Number,
    To,
    Files,
    Desks,
    Copies,
    Port,
    Sessions,
    Rounds,
    Reserve,
}

// The line that tells it.
fn misfit_line(misfit: Misfit) -> &'static str
    ensures { result.now ≡ misfit_line misfit }
{
    match misfit {
        Misfit::Command => "error: no such command\n",
        Misfit::File => "error: FILE is missing\n",
        Misfit::Copy => "error: COPY is missing\n",
        Misfit::Event => "error: EVENT is missing\n",
        Misfit::Me => "error: ME is the number of a site, 0 to 63\n",
        Misfit::Sites => "error: SITES is a count of sites, 1 to 64\n",
        Misfit::Limit => "error: LIMIT is a count of entries, 1 to 1000000\n",
        Misfit::Number => "error: NUMBER is the number of a request, 1 to 1000000000000\n",
        Misfit::To => "error: TO is the number of a site, 0 to 63\n",
        Misfit::Files => "error: FILE is given 1 to 64 times\n",
        Misfit::Desks => "error: FILE is given 1 to 16 times\n",
        Misfit::Copies => "error: --copy is given at most 64 times\n",
        Misfit::Port => "error: PORT is the number of a port, 1 to 65535\n",
        Misfit::Sessions => "error: SESSIONS is a count of connections, 0 to 1024\n",
        Misfit::Rounds => "error: ROUNDS is a count of rounds, 0 to 1000000\n",
        Misfit::Reserve => "error: R is a count of entries, 0 to 1000000\n",
    }
}

fn value_of<'a>(values: &ArgMatches<'a>, id: &str) -> Option<&'a str>
    ensures { text_of result ≡ first_of id.now (rows_of (found_of values.now)) }
{
    values.get_str(id)
}

fn copy_of<'a>(values: &ArgMatches<'a>) -> Option<&'a str>
    ensures { text_of result ≡ copy_in (rows_of (found_of values.now)) }
{
    value_of(values, "COPY")
}

#[tactic(auto, unfolding(crate::specs::Orders::number_in))]
fn number_of(values: &ArgMatches<'_>, id: &str, low: u64, high: u64) -> Option<u64>
    ensures value { result ≡ number_in id.now low high (rows_of (found_of values.now)) }
    ensures within { IfSome result (λ n. (low ≤ n) × (n ≤ high)) }
{
    let word = value_of(values, id)?;
    read_number(word.as_bytes(), low, high)
}

fn site_of(values: &ArgMatches<'_>, id: &str) -> Option<SiteId>
    ensures { result ≡ number_in id.now 0 greatest_site (rows_of (found_of values.now)) }
{
    let number = number_of(values, id, 0, GREATEST_SITE)?;
    SiteId::of(number)
}

fn sites_of(values: &ArgMatches<'_>) -> Option<Sites>
    ensures { result ≡ number_in (codes "SITES") 1 most_sites (rows_of (found_of values.now)) }
{
    let count = number_of(values, "SITES", 1, MOST_SITES)?;
    Sites::of(count)
}

fn limit_of(values: &ArgMatches<'_>) -> Option<Limit>
    ensures { result ≡ number_in (codes "LIMIT") 1 greatest_limit (rows_of (found_of values.now)) }
{
    let entries = number_of(values, "LIMIT", 1, Limit::GREATEST)?;
    Limit::of(entries)
}

fn request_number_of(values: &ArgMatches<'_>) -> Option<RequestNumber>
    ensures { result ≡ number_in (codes "NUMBER") 1 greatest_value (rows_of (found_of values.now)) }
{
    let number = number_of(values, "NUMBER", 1, GREATEST_VALUE)?;
    RequestNumber::of(number)
}

#[tactic(auto, unfolding(crate::specs::Orders::init_in))]
fn init_of<'a>(values: &ArgMatches<'a>) -> Result<Order<'a>, Misfit>
    ensures { IsOrderOf init_in (Misfit.File ∷ Misfit.Me ∷ Misfit.Sites ∷ Misfit.Limit ∷ [])
        (rows_of (found_of values.now)) result }
{
    let file = value_of(values, "FILE").ok_or(Misfit::File)?;
    let me = site_of(values, "ME").ok_or(Misfit::Me)?;
    let sites = sites_of(values).ok_or(Misfit::Sites)?;
    let limit = limit_of(values).ok_or(Misfit::Limit)?;
    Ok(Order::Init {
        file,
        me,
        sites,
        limit,
    })
}

#[tactic(auto, unfolding(crate::specs::Orders::migrate_in))]
fn migrate_of<'a>(values: &ArgMatches<'a>) -> Result<Order<'a>, Misfit>
    ensures { IsOrderOf migrate_in (Misfit.File ∷ []) (rows_of (found_of values.now)) result }
{
    let file = value_of(values, "FILE").ok_or(Misfit::File)?;
    Ok(Order::Migrate { file })
}

#[tactic(auto, unfolding(crate::specs::Orders::grow_in))]
fn grow_of<'a>(values: &ArgMatches<'a>) -> Result<Order<'a>, Misfit>
    ensures { IsOrderOf grow_in (Misfit.File ∷ Misfit.Sites ∷ [])
        (rows_of (found_of values.now)) result }
{
    let file = value_of(values, "FILE").ok_or(Misfit::File)?;
    let sites = sites_of(values).ok_or(Misfit::Sites)?;
    let copy = copy_of(values);
    Ok(Order::Grow { file, sites, copy })
}

#[tactic(auto, unfolding(crate::specs::Orders::ask_in))]
fn ask_of<'a>(values: &ArgMatches<'a>) -> Result<Order<'a>, Misfit>
    ensures { IsOrderOf ask_in (Misfit.File ∷ []) (rows_of (found_of values.now)) result }
{
    let file = value_of(values, "FILE").ok_or(Misfit::File)?;
    let copy = copy_of(values);
    Ok(Order::Ask { file, copy })
}

#[tactic(auto, unfolding(crate::specs::Orders::find_in))]
fn find_of<'a>(values: &ArgMatches<'a>) -> Result<Order<'a>, Misfit>
    ensures { IsOrderOf find_in (Misfit.File ∷ Misfit.Number ∷ [])
        (rows_of (found_of values.now)) result }
{
    let file = value_of(values, "FILE").ok_or(Misfit::File)?;
    let number = request_number_of(values).ok_or(Misfit::Number)?;
    let copy = copy_of(values);
    Ok(Order::Find { file, number, copy })
}

#[tactic(auto, unfolding(crate::specs::Orders::list_in))]
fn list_of<'a>(values: &ArgMatches<'a>) -> Result<Order<'a>, Misfit>
    ensures { IsOrderOf list_in (Misfit.File ∷ Misfit.Event ∷ [])
        (rows_of (found_of values.now)) result }
{
    let file = value_of(values, "FILE").ok_or(Misfit::File)?;
    let event = value_of(values, "EVENT").ok_or(Misfit::Event)?;
    let copy = copy_of(values);
    Ok(Order::List { file, event, copy })
}

#[tactic(auto, unfolding(crate::specs::Orders::events_in))]
fn events_of<'a>(values: &ArgMatches<'a>) -> Result<Order<'a>, Misfit>
    ensures { IsOrderOf events_in (Misfit.File ∷ []) (rows_of (found_of values.now)) result }
{
    let file = value_of(values, "FILE").ok_or(Misfit::File)?;
    let copy = copy_of(values);
    Ok(Order::Events { file, copy })
}

#[tactic(auto, unfolding(crate::specs::Orders::shares_in))]
fn shares_of<'a>(values: &ArgMatches<'a>) -> Result<Order<'a>, Misfit>
    ensures { IsOrderOf shares_in (Misfit.File ∷ Misfit.Event ∷ [])
        (rows_of (found_of values.now)) result }
{
    let file = value_of(values, "FILE").ok_or(Misfit::File)?;
    let event = value_of(values, "EVENT").ok_or(Misfit::Event)?;
    let copy = copy_of(values);
    Ok(Order::Shares { file, event, copy })
}

#[tactic(auto, unfolding(crate::specs::Orders::export_in))]
fn export_of<'a>(values: &ArgMatches<'a>) -> Result<Order<'a>, Misfit>
    ensures { IsOrderOf export_in (Misfit.File ∷ Misfit.To ∷ [])
        (rows_of (found_of values.now)) result }
{
    let file = value_of(values, "FILE").ok_or(Misfit::File)?;
    let to = site_of(values, "TO").ok_or(Misfit::To)?;
    let copy = copy_of(values);
    Ok(Order::Export { file, to, copy })
}

#[tactic(auto, unfolding(crate::specs::Orders::import_in))]
fn import_of<'a>(values: &ArgMatches<'a>) -> Result<Order<'a>, Misfit>
    ensures { IsOrderOf import_in (Misfit.File ∷ []) (rows_of (found_of values.now)) result }
{
    let file = value_of(values, "FILE").ok_or(Misfit::File)?;
    let copy = copy_of(values);
    Ok(Order::Import { file, copy })
}

fn all_of<'m, 'a>(values: &'m ArgMatches<'a>, id: &str) -> Option<&'m [&'a str]>
    ensures { option_map (λ words. texts_of words.now) result
        ≡ all_of id.now (rows_of (found_of values.now)) }
{
    values.get_strs(id)
}

// The words, where there are no more than so many.
fn names_of<'a>(words: &[&'a str], most: usize) -> Option<FileNames<'a>>
    requires { most ≤ most_sites }
    ensures { option_map (λ names. texts_of names.items) result
        ≡ at_most most (texts_of words.now) }
{
    if words.len() > most {
        return None;
    }
    match FileNames::try_from(words) {
        Ok(names) => Some(names),
        Err(_) => None,
    }
}

// The files, where there are no more than so many.
#[tactic(auto, unfolding(crate::specs::Orders::files_in))]
fn files_of<'a>(values: &ArgMatches<'a>, most: usize) -> Option<FileNames<'a>>
    requires { most ≤ most_sites }
    ensures { option_map (λ files. texts_of files.items) result
        ≡ files_in most (rows_of (found_of values.now)) }
{
    let words = all_of(values, "FILE")?;
    names_of(words, most)
}

#[tactic(auto, unfolding(crate::specs::Orders::copies_in))]
fn copies_of<'a>(values: &ArgMatches<'a>) -> Option<FileNames<'a>>
    ensures { option_map (λ copies. texts_of copies.items) result
        ≡ copies_in (rows_of (found_of values.now)) }
{
    match all_of(values, "COPY") {
        Some(words) => names_of(words, MOST_FILES),
        None => Some(FileNames::new()),
    }
}

#[tactic(auto, unfolding(crate::specs::Orders::audit_in))]
fn audit_of<'a>(values: &ArgMatches<'a>) -> Result<Order<'a>, Misfit>
    ensures { IsOrderOf audit_in (Misfit.Files ∷ Misfit.Copies ∷ [])
        (rows_of (found_of values.now)) result }
{
    let files = files_of(values, MOST_FILES).ok_or(Misfit::Files)?;
    let copies = copies_of(values).ok_or(Misfit::Copies)?;
    Ok(Order::Audit { files, copies })
}

fn port_of(values: &ArgMatches<'_>) -> Option<u16>
    ensures { result ≡ number_in (codes "PORT") 1 greatest_port (rows_of (found_of values.now)) }
{
    let port = number_of(values, "PORT", 1, GREATEST_PORT)?;
    Some(port as u16)
}

fn sessions_of(values: &ArgMatches<'_>) -> Option<usize>
    ensures { result ≡ number_in
        (codes "SESSIONS") 0 most_sessions (rows_of (found_of values.now)) }
{
    let sessions = number_of(values, "SESSIONS", 0, MOST_SESSIONS)?;
    Some(sessions as usize)
}

#[tactic(auto, unfolding(crate::specs::Orders::serve_in))]
fn serve_of<'a>(values: &ArgMatches<'a>) -> Result<Order<'a>, Misfit>
    ensures { IsOrderOf serve_in (Misfit.Port ∷ Misfit.Sessions ∷ Misfit.Rounds ∷ Misfit.Desks
        ∷ Misfit.Copies ∷ []) (rows_of (found_of values.now)) result }
{
    let port = port_of(values).ok_or(Misfit::Port)?;
    let sessions = sessions_of(values).ok_or(Misfit::Sessions)?;
    let rounds = number_of(values, "ROUNDS", 0, MOST_ROUNDS).ok_or(Misfit::Rounds)?;
    let files = files_of(values, MOST_DESKS).ok_or(Misfit::Desks)?;
    let copies = copies_of(values).ok_or(Misfit::Copies)?;
    Ok(Order::Serve {
        port,
        sessions,
        rounds,
        files,
        copies,
    })
}

#[tactic(auto, unfolding(crate::specs::Orders::low_in))]
fn is_low(values: &ArgMatches<'_>) -> bool
    ensures { result ≡ low_in (rows_of (found_of values.now)) }
{
    match value_of(values, "low") {
        Some(word) => word == "true",
        None => false,
    }
}

#[tactic(auto, unfolding(crate::specs::Orders::reserve_in))]
fn reserve_of(values: &ArgMatches<'_>) -> Option<u64>
    ensures { result ≡ reserve_in (rows_of (found_of values.now)) }
{
    if value_of(values, "R").is_none() {
        return Some(0);
    }
    number_of(values, "R", 0, Limit::GREATEST)
}

#[tactic(auto, unfolding(crate::specs::Orders::open_in))]
fn open_of<'a>(values: &ArgMatches<'a>) -> Result<Order<'a>, Misfit>
    ensures { IsOrderOf open_in (Misfit.Port ∷ Misfit.File ∷ Misfit.Reserve ∷ [])
        (rows_of (found_of values.now)) result }
{
    let port = port_of(values).ok_or(Misfit::Port)?;
    let file = value_of(values, "FILE").ok_or(Misfit::File)?;
    let reserve = reserve_of(values).ok_or(Misfit::Reserve)?;
    let sparing = Sparing {
        tells_low: is_low(values),
        reserve,
    };
    let copy = copy_of(values);
    Ok(Order::Open {
        port,
        file,
        sparing,
        copy,
    })
}

#[tactic(auto, unfolding(crate::specs::Orders::close_in))]
fn close_of<'a>(values: &ArgMatches<'a>) -> Result<Order<'a>, Misfit>
    ensures { IsOrderOf close_in (Misfit.File ∷ []) (rows_of (found_of values.now)) result }
{
    let file = value_of(values, "FILE").ok_or(Misfit::File)?;
    Ok(Order::Close { file })
}

#[tactic(auto, unfolding(crate::specs::Orders::status_in))]
fn status_of<'a>(values: &ArgMatches<'a>) -> Result<Order<'a>, Misfit>
    ensures { IsOrderOf status_in (Misfit.File ∷ []) (rows_of (found_of values.now)) result }
{
    let file = value_of(values, "FILE").ok_or(Misfit::File)?;
    let copy = copy_of(values);
    Ok(Order::Status { file, copy })
}

#[tactic(auto, unfolding(crate::specs::Orders::pair_in))]
fn pair_of<'a>(values: &ArgMatches<'a>) -> Result<Order<'a>, Misfit>
    ensures { IsOrderOf pair_in (Misfit.File ∷ Misfit.Copy ∷ [])
        (rows_of (found_of values.now)) result }
{
    let file = value_of(values, "FILE").ok_or(Misfit::File)?;
    let copy = value_of(values, "COPY").ok_or(Misfit::Copy)?;
    Ok(Order::Pair { file, copy })
}

#[tactic(auto, unfolding(crate::specs::Orders::alone_in))]
fn alone_of<'a>(values: &ArgMatches<'a>) -> Result<Order<'a>, Misfit>
    ensures { IsOrderOf alone_in (Misfit.File ∷ []) (rows_of (found_of values.now)) result }
{
    let file = value_of(values, "FILE").ok_or(Misfit::File)?;
    Ok(Order::Alone { file })
}

#[tactic(auto, unfolding(crate::specs::Orders::backup_in))]
fn backup_of<'a>(values: &ArgMatches<'a>) -> Result<Order<'a>, Misfit>
    ensures { IsOrderOf backup_in (Misfit.File ∷ Misfit.Copy ∷ [])
        (rows_of (found_of values.now)) result }
{
    let file = value_of(values, "FILE").ok_or(Misfit::File)?;
    let copy = value_of(values, "COPY").ok_or(Misfit::Copy)?;
    Ok(Order::Backup { file, copy })
}

#[tactic(auto, unfolding(crate::specs::Orders::named_order, crate::specs::Orders::values_of))]
fn named_order<'a>(name: &str, values: &ArgMatches<'a>) -> Result<Order<'a>, Misfit>
    ensures { IsOrderOf (named_order name.now) (values_of name.now)
        (rows_of (found_of values.now)) result }
{
    if name == "world" {
        Ok(Order::World)
    } else if name == "init" {
        init_of(values)
    } else if name == "migrate" {
        migrate_of(values)
    } else if name == "grow" {
        grow_of(values)
    } else if name == "ask" {
        ask_of(values)
    } else if name == "find" {
        find_of(values)
    } else if name == "list" {
        list_of(values)
    } else if name == "events" {
        events_of(values)
    } else if name == "shares" {
        shares_of(values)
    } else if name == "export" {
        export_of(values)
    } else if name == "import" {
        import_of(values)
    } else if name == "audit" {
        audit_of(values)
    } else if name == "serve" {
        serve_of(values)
    } else if name == "open" {
        open_of(values)
    } else if name == "close" {
        close_of(values)
    } else if name == "status" {
        status_of(values)
    } else if name == "pair" {
        pair_of(values)
    } else if name == "alone" {
        alone_of(values)
    } else if name == "backup" {
        backup_of(values)
    } else if name == "version" {
        Ok(Order::Version)
    } else {
        Err(Misfit::Command)
    }
}

// The command that was met, with its values.
fn order_of<'a>(matches: &ArgMatches<'a>) -> Result<Order<'a>, Misfit>
    ensures order { MatchResult result (λ order. order_in (subcommand_rows_of matches.now)
        ≡ Some (said_by order)) (λ _. order_in (subcommand_rows_of matches.now) ≡ None) }
    ensures misfit { IfErr result
        (λ misfit. misfit_in (subcommand_rows_of matches.now) ≡ Some misfit) }
{
    let Some((name, values)) = matches.subcommand() else {
        return Err(Misfit::Command);
    };
    named_order(name, values)
}

fn not_understood(alloc: Global, error: &Error) -> WordsFault
    ensures { kind_of error.now ≡ ErrorKind.OutOfMemory → result ≡ WordsFault.Memory }
{
    match error.kind() {
        ErrorKind::OutOfMemory => WordsFault::Memory,
        _ => match error.to_string(alloc) {
            Ok(text) => WordsFault::NotUnderstood { text },
            Err(_) => WordsFault::Memory,
        },
    }
}

fn misfit_told(alloc: Global, misfit: Misfit) -> WordsFault
    ensures { TellsMisfit misfit result }
{
    match String::from_str(alloc, misfit_line(misfit)) {
        Ok(text) => WordsFault::NotUnderstood { text },
        Err(_) => WordsFault::Memory,
    }
}

/// Reads the words that the program is called with, of which the first is its name.
///
/// Numbers are decimal, without a sign and without leading zeros. `Memory` may come for any words.
pub fn read_words<'a>(alloc: Global, words: &'a [&'a str]) -> Result<Order<'a>, WordsFault>
    ensures understood { OnOk result (AreUnderstood (map (λ w. w.now) words.now)) }
    ensures order { IfOk result (λ order.
        order_in (subcommand_of boxoffice (map (λ w. w.now) words.now)) ≡ Some (said_by order)) }
    ensures refusal { IfErr result (IsWordsRefusal (map (λ w. w.now) words.now)) }
{
    let Ok(command) = boxoffice(alloc) else {
        return Err(WordsFault::Memory);
    };
    let matches = match command.try_get_matches_from(words) {
        Ok(matches) => matches,
        Err(error) => return Err(not_understood(alloc, &error)),
    };
    match order_of(&matches) {
        Ok(order) => Ok(order),
        Err(misfit) => Err(misfit_told(alloc, misfit)),
    }
}

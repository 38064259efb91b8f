//! The lines of a caller who may use all lines of an office.

ghost use Rattle.std.specs.Prelude.{◌≡◌, Ok, IfOk};
ghost use Rattle.std.specs.Option.{option_map};
ghost use Rattle.std.specs.Result.{result_ok};
ghost use Rattle.delta_wire.specs.Fields.{natural_at};
ghost use Rattle.live_office.specs.declared.office_line.OfficeLine.{OfficeLine};
ghost use Rattle.live_office.specs.Grammar.{IsOfficeLine, office_line_text};
ghost use Rattle.live_office.specs.Lines.{close_in, events_in, export_in, find_in, import_in, list_in, office_line_of, own_in, shares_in, site_in, status_in};

use delta_wire::{event_at, natural_at, site_at};
use desk_lines::{BadLine, Line, read_line};
use plain_words::Words;
use request_ledger::RequestNumber;
use rights_lattice::{Event, SiteId};

/// What a line asks of an open office.
#[derive(Clone, Copy, PartialEq, Eq, Debug)]
pub enum OfficeLine {
    /// What it asks in any session.
    Session { line: Line },
    /// The message that is due to a site.
    Export { to: SiteId },
    /// To take the message that the lines after it spell, up to `end`.
    Import,
    /// The place and the reply that are kept under a number.
    Find { number: RequestNumber },
    /// The requests that name an event.
    List { event: Event },
    /// The events that the site knows.
    Events,
    /// What each site may sell of an event, and what it sold and took back.
    Shares { event: Event },
    /// Which site it is, and how much it has to do.
    Status,
    /// Which site it is.
    Site,
    /// That the office closes.
    Close,
}

#[tactic(auto, unfolding(crate::specs::Lines::export_in))]
fn export_in(words: &mut Words<'_>) -> Option<OfficeLine>
    ensures { result ≡ export_in words.old }
{
    let to = site_at(words)?;
    if words.is_empty() {
        Some(OfficeLine::Export { to })
    } else {
        None
    }
}

#[tactic(auto, unfolding(crate::specs::Lines::import_in))]
fn import_in(words: &mut Words<'_>) -> Option<OfficeLine>
    ensures { result ≡ import_in words.old }
{
    if words.is_empty() {
        Some(OfficeLine::Import)
    } else {
        None
    }
}

fn request_number_at(words: &mut Words<'_>) -> Option<RequestNumber>
    ensures { option_map (λ number. (number, words.new)) result ≡ natural_at words.old }
{
    let number = natural_at(words)?;
    let number = RequestNumber::of(number)?;
    Some(number)
}

#[tactic(auto, unfolding(crate::specs::Lines::find_in))]
fn find_in(words: &mut Words<'_>) -> Option<OfficeLine>
    ensures { result ≡ find_in words.old }
{
    let number = request_number_at(words)?;
    if words.is_empty() {
        Some(OfficeLine::Find { number })
    } else {
        None
    }
}

#[tactic(auto, unfolding(crate::specs::Lines::list_in))]
fn list_in(words: &mut Words<'_>) -> Option<OfficeLine>
    ensures { result ≡ list_in words.old }
{
    let event = event_at(words)?;
    if words.is_empty() {
        Some(OfficeLine::List { event })
    } else {
        None
    }
}

#[tactic(auto, unfolding(crate::specs::Lines::events_in))]
fn events_in(words: &mut Words<'_>) -> Option<OfficeLine>
    ensures { result ≡ events_in words.old }
{
    if words.is_empty() {
        Some(OfficeLine::Events)
    } else {
        None
    }
}

#[tactic(auto, unfolding(crate::specs::Lines::shares_in))]
fn shares_in(words: &mut Words<'_>) -> Option<OfficeLine>
    ensures { result ≡ shares_in words.old }
{
    let named = event_at(words)?;
    if words.is_empty() {
        Some(OfficeLine::Shares { event: named })
    } else {
        None
    }
}

#[tactic(auto, unfolding(crate::specs::Lines::status_in))]
fn status_in(words: &mut Words<'_>) -> Option<OfficeLine>
    ensures { result ≡ status_in words.old }
{
    if words.is_empty() {
        Some(OfficeLine::Status)
    } else {
        None
    }
}

#[tactic(auto, unfolding(crate::specs::Lines::site_in))]
fn site_in(words: &mut Words<'_>) -> Option<OfficeLine>
    ensures { result ≡ site_in words.old }
{
    if words.is_empty() {
        Some(OfficeLine::Site)
    } else {
        None
    }
}

#[tactic(auto, unfolding(crate::specs::Lines::close_in))]
fn close_in(words: &mut Words<'_>) -> Option<OfficeLine>
    ensures { result ≡ close_in words.old }
{
    if words.is_empty() {
        Some(OfficeLine::Close)
    } else {
        None
    }
}

#[tactic(auto, unfolding(crate::specs::Lines::own_in))]
fn own_in(words: &mut Words<'_>) -> Option<OfficeLine>
    ensures { result ≡ own_in words.old }
{
    let word = words.next()?;
    if word == b"export".as_slice() {
        export_in(words)
    } else if word == b"import".as_slice() {
        import_in(words)
    } else if word == b"find".as_slice() {
        find_in(words)
    } else if word == b"list".as_slice() {
        list_in(words)
    } else if word == b"events".as_slice() {
        events_in(words)
    } else if word == b"shares".as_slice() {
        shares_in(words)
    } else if word == b"status".as_slice() {
        status_in(words)
    } else if word == b"site".as_slice() {
        site_in(words)
    } else if word == b"close".as_slice() {
        close_in(words)
    } else {
        None
    }
}

fn office_line_of(bytes: &[u8]) -> Option<OfficeLine>
    ensures { result ≡ office_line_of bytes.now }
{
    match read_line(bytes) {
        Ok(line) => Some(OfficeLine::Session { line }),
        Err(BadLine) => own_in(&mut Words::new(bytes)),
    }
}

/// Reads a line, without its line break; `BadLine` where it is none. A line of a session is read as one of a session.
pub fn read_office_line(bytes: &[u8]) -> Result<OfficeLine, BadLine>
    // What is read is spelled so.
    ensures found { IfOk result (λ l. IsOfficeLine l × (bytes.now ≡ office_line_text l)) }
    // What is spelled so is read.
    ensures only { (l : OfficeLine) → IsOfficeLine l → bytes.now ≡ office_line_text l
        → result ≡ Ok l }
    // Which line it is, as a function.
    ensures exact { result_ok result ≡ office_line_of bytes.now }
{
    match office_line_of(bytes) {
        Some(line) => Ok(line),
        None => Err(BadLine),
    }
}

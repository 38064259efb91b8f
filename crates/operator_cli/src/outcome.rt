//! What a command over records comes to, and where it is printed.

ghost use Rattle.std.specs.Prelude.{◌++◌, [], ◌∷◌, OnOk};
ghost use Rattle.std.specs.List.{flat_map};
ghost use Rattle.delta_wire.specs.Grammar.{IsMessage, message_text};
ghost use Rattle.live_office.specs.RecordLines.{share_line, site_status_text};
ghost use Rattle.operator_cli.specs.Outcomes.{IsPrinted, IsWritten, WritesAs, known_status, known_text, list_status, list_text};
ghost use Rattle.operator_cli.specs.declared.status.Status.TheVariants.{Done};

use crate::command_fault::CommandFault;
use crate::ending::{ended, write_line};
use crate::status::Status;
use crate::told::{CommandReply, tell};
use delta_wire::write_message;
use history_keeper::{Found, Listed};
use live_office::{event_line, found_line, listed_line, share_line, site_status_text};
use plain_words::{Text, put};
use rights_lattice::Event;
use site_desk::{SiteShare, SiteStatus};
use site_exchange::Message;
use std::io::Write;

/// What a command comes to: a text with its status, or what ended it early.
#[derive(Drop)]
pub(crate) enum Outcome {
    /// One line.
    Tells(CommandReply),
    /// The message to a peer.
    Sends(Message),
    /// The reply that is kept under a number.
    Shows(Found),
    /// The requests that name an event.
    Lists(Vec<Listed>),
    /// The events that the site knows.
    Knows(Vec<Event>),
    /// What each site may sell of an event, and what it sold and took back.
    Splits(Vec<SiteShare>),
    /// Which site it is, and how long its history is.
    SiteStatusIs(SiteStatus),
    /// No text.
    Fails(CommandFault),
}

// A line and the status that goes with it.
fn write_as<W: Write>(line: &Text, status: Status, out: &mut W) -> Result<Status, CommandFault>
    ensures { WritesAs line.now.items status (W.contents out.old) (W.contents out.new) result }
{
    write_line(line, out)?;
    Ok(status)
}

fn write_list<W: Write>(rows: &[Listed], out: &mut W) -> Result<Status, CommandFault>
    ensures { WritesAs (list_text rows.now) (list_status rows.now)
        (W.contents out.old) (W.contents out.new) result }
{
    if rows.is_empty() {
        return tell(&CommandReply::NotFound, out);
    }
    'rows: for row in rows {
        let line = listed_line(row.place, row.number, row.request, row.reply);
        write_line(&line, out)?;
    }
    Ok(Status::Done)
}

fn write_known<W: Write>(events: &[Event], out: &mut W) -> Result<Status, CommandFault>
    ensures { WritesAs (known_text events.now) (known_status events.now)
        (W.contents out.old) (W.contents out.new) result }
{
    if events.is_empty() {
        return tell(&CommandReply::NotFound, out);
    }
    'events: for event in events {
        let line = event_line(*event);
        write_line(&line, out)?;
    }
    Ok(Status::Done)
}

fn write_shares<W: Write>(rows: &[SiteShare], out: &mut W) -> Result<Status, CommandFault>
    ensures { WritesAs (flat_map share_line rows.now) Done
        (W.contents out.old) (W.contents out.new) result }
{
    'rows: for row in rows {
        let line = share_line(*row);
        write_line(&line, out)?;
    }
    Ok(Status::Done)
}

fn write_site_status<W: Write>(site_status: SiteStatus, out: &mut W) -> Result<Status, CommandFault>
    ensures { WritesAs (site_status_text site_status ++ 10 ∷ []) Done
        (W.contents out.old) (W.contents out.new) result }
{
    let mut line = site_status_text(site_status);
    put(&mut line, b"\n");
    write_as(&line, Status::Done, out)
}

fn write_sent<W: Write>(message: &Message, out: &mut W) -> Result<Status, CommandFault>
    ensures written { WritesAs (message_text message.now) Done
        (W.contents out.old) (W.contents out.new) result }
    ensures read_back { OnOk result (IsMessage message.now) }
{
    match write_message(message, out) {
        Ok(()) => Ok(Status::Done),
        Err(_) => Err(CommandFault::Write),
    }
}

// Writes the text of an outcome.
fn write_outcome<W: Write>(outcome: &Outcome, out: &mut W) -> Result<Status, CommandFault>
    ensures { IsWritten outcome.now (W.contents out.old) (W.contents out.new) result }
{
    match outcome {
        Outcome::Tells(told) => tell(told, out),
        Outcome::Sends(message) => write_sent(message, out),
        Outcome::Shows(found) => {
            write_as(&found_line(found.place, found.reply), Status::Done, out)
        }
        Outcome::Lists(rows) => write_list(rows.as_slice(), out),
        Outcome::Knows(events) => write_known(events.as_slice(), out),
        Outcome::Splits(rows) => write_shares(rows.as_slice(), out),
        Outcome::SiteStatusIs(site_status) => write_site_status(*site_status, out),
        Outcome::Fails(fault) => Err(*fault),
    }
}

/// Prints an outcome: its text on `out`, or on `err` why there is none, or why it is not whole.
pub(crate) fn print_outcome<W: Write, E: Write>(
    outcome: &Outcome,
    out: &mut W,
    err: &mut E,
) -> Status
    ensures { IsPrinted outcome.now (W.contents out.old) (W.contents out.new)
        (E.contents err.old) (E.contents err.new) result }
{
    let came = write_outcome(outcome, out);
    ended(came, out, err)
}

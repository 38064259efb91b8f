//! What an open office answers, and its text.

ghost use Rattle.std.specs.Prelude.{◌≡◌, ◌≤◌, ◌+◌, ◌++◌, ◌∷◌, [], codes};
ghost use Rattle.std.specs.List.{flat_map};
ghost use Rattle.arrayvec.specs.ArrayVec.{array_vec_len};
ghost use Rattle.plain_words.specs.Input.{longest_line};
ghost use Rattle.plain_words.specs.Writing.{Writes};
ghost use Rattle.delta_wire.specs.Grammar.{message_text};
ghost use Rattle.live_office.specs.Sparing.{reserve_text};
ghost use Rattle.live_office.specs.RecordLines.{event_line, row_line, share_line};
ghost use Rattle.live_office.specs.Answers.{answer_text, crowd_text, ended_events, ended_rows, ended_shares, events_text, exported_text, found_text, import_fault_text, imported_text, known_text, listed_text, look_up_fault_text, next_fault_text, rows_text, shares_text, site_text, status_text};

use crate::importing::ImportFault;
use crate::record_lines::{event_line, found_line, listed_line, share_line, site_status_text};
use crate::sparing::{Spared, spared_line};
use delta_wire::write_message;
use desk_lines::{Answered, reply_line, take_fault_text, wire_fault_text};
use history_keeper::{Found, Listed};
use plain_words::{Text, WriteFault, numbered, put, put_number, word, write_bytes};
use rights_lattice::Event;
use site_desk::{LookUpFault, NextFault, SiteShare, SiteStatus, Taken};
use site_exchange::Message;
use std::io::Write;

/// How many callers are served, how many of them have a request that is being stored, and how many wait for the next store.
#[derive(Clone, Copy, Debug, PartialEq, Eq, Drop)]
pub struct Crowd {
    pub callers: u64,
    pub asking: u64,
    pub waiting: u64,
}

/// What a line is answered.
#[derive(Debug, Drop)]
pub enum OfficeAnswer {
    /// The reply of a session.
    Reply {
        answered: Answered,
    },
    /// Why a request was not asked.
    Spared {
        spared: Spared,
    },
    /// The message that is due, if any.
    Exported {
        result: Result<Option<Message>, NextFault>,
    },
    /// What was done with a message.
    Imported {
        result: Result<Taken, ImportFault>,
    },
    /// What is kept under a number, if anything.
    Found {
        result: Result<Option<Found>, LookUpFault>,
    },
    /// The requests that name an event.
    Listed {
        result: Result<Vec<Listed>, LookUpFault>,
    },
    /// The events that the site knows.
    Events {
        result: Result<Vec<Event>, LookUpFault>,
    },
    /// What each site may sell of an event, if it is known.
    Shares {
        result: Result<Option<Vec<SiteShare>>, LookUpFault>,
    },
    /// Where the book stands, what its callers do, and how many entries are kept.
    Status {
        site_status: SiteStatus,
        crowd: Crowd,
        reserve: u64,
    },
    /// Which site it is, and how many it counts.
    Site {
        site_status: SiteStatus,
    },
    /// Nothing yet: a message comes.
    Quiet,
}

fn next_fault_text(fault: NextFault) -> Text
    ensures value { result.items ≡ next_fault_text fault }
    ensures len { array_vec_len result ≤ longest_line }
{
    match fault {
        NextFault::NoSite => word(b"no-site"),
        NextFault::Closed => word(b"closed"),
        NextFault::Memory => word(b"memory"),
    }
}

fn import_fault_text(fault: ImportFault) -> Text
    ensures value { result.items ≡ import_fault_text fault }
    ensures len { array_vec_len result ≤ longest_line }
{
    match fault {
        ImportFault::Unread { fault } => wire_fault_text(fault),
        ImportFault::Refused { fault } => take_fault_text(fault),
    }
}

// Writes a text of one line, and its line break.
fn write_text<W: Write>(text: Text, out: &mut W) -> Result<(), WriteFault>
    requires { array_vec_len text ≤ longest_line }
    ensures { Writes (W.contents out.old) (W.contents out.new) result (text.items ++ 10 ∷ []) }
{
    let mut line = text;
    put(&mut line, b"\n");
    write_bytes(line.as_slice(), out)
}

fn write_exported<W: Write>(
    exported: &Result<Option<Message>, NextFault>,
    out: &mut W,
) -> Result<(), WriteFault>
    ensures { Writes (W.contents out.old) (W.contents out.new) result (exported_text exported.now) }
{
    match exported {
        Ok(Some(message)) => write_message(message, out),
        Ok(None) => write_bytes(b"nothing\n", out),
        Err(fault) => write_text(next_fault_text(*fault), out),
    }
}

// Writes a line that says what was done with a message, and the acknowledgement.
fn write_taken<W: Write>(line: &[u8], ack: &Message, out: &mut W) -> Result<(), WriteFault>
    ensures { Writes (W.contents out.old) (W.contents out.new) result (line.now ++ message_text
        ack.now) }
{
    write_bytes(line, out)?;
    write_message(ack, out)
}

fn write_imported<W: Write>(
    imported: &Result<Taken, ImportFault>,
    out: &mut W,
) -> Result<(), WriteFault>
    ensures { Writes (W.contents out.old) (W.contents out.new) result (imported_text imported.now) }
{
    match imported {
        Ok(Taken::Joined { ack }) => write_taken(b"joined\n", ack, out),
        Ok(Taken::NothingNew { ack }) => write_taken(b"nothing-new\n", ack, out),
        Ok(Taken::Acked) => write_bytes(b"acked\n", out),
        Err(fault) => write_text(import_fault_text(*fault), out),
    }
}

fn look_up_fault_text(fault: LookUpFault) -> Text
    ensures value { result.items ≡ look_up_fault_text fault }
    ensures len { array_vec_len result ≤ longest_line }
{
    match fault {
        LookUpFault::Closed => word(b"closed"),
        LookUpFault::Memory => word(b"memory"),
    }
}

fn write_found<W: Write>(
    found: &Result<Option<Found>, LookUpFault>,
    out: &mut W,
) -> Result<(), WriteFault>
    ensures { Writes (W.contents out.old) (W.contents out.new) result (found_text found.now) }
{
    match found {
        Ok(Some(found)) => write_bytes(found_line(found.place, found.reply).as_slice(), out),
        Ok(None) => write_bytes(b"none\n", out),
        Err(fault) => write_text(look_up_fault_text(*fault), out),
    }
}

// Writes a line for each request.
fn write_rows<W: Write>(rows: &[Listed], out: &mut W) -> Result<(), WriteFault>
    ensures { Writes (W.contents out.old) (W.contents out.new) result (flat_map row_line rows.now) }
{
    'rows: for row in rows {
        let line = listed_line(row.place, row.number, row.request, row.reply);
        write_bytes(line.as_slice(), out)?;
    }
    Ok(())
}

// Writes a line for each request, and the line `end`.
fn write_ended<W: Write>(rows: &[Listed], out: &mut W) -> Result<(), WriteFault>
    ensures { Writes (W.contents out.old) (W.contents out.new) result (ended_rows rows.now) }
{
    write_rows(rows, out)?;
    write_bytes(b"end\n", out)
}

// The same, or `none` where there is none.
fn write_all<W: Write>(rows: &[Listed], out: &mut W) -> Result<(), WriteFault>
    ensures { Writes (W.contents out.old) (W.contents out.new) result (rows_text rows.now) }
{
    if rows.is_empty() {
        write_bytes(b"none\n", out)
    } else {
        write_ended(rows, out)
    }
}

fn write_listed<W: Write>(
    listed: &Result<Vec<Listed>, LookUpFault>,
    out: &mut W,
) -> Result<(), WriteFault>
    ensures { Writes (W.contents out.old) (W.contents out.new) result (listed_text listed.now) }
{
    match listed {
        Ok(rows) => write_all(rows.as_slice(), out),
        Err(fault) => write_text(look_up_fault_text(*fault), out),
    }
}

// Writes the line `end`.
fn write_end<W: Write>(out: &mut W) -> Result<(), WriteFault>
    ensures { Writes (W.contents out.old) (W.contents out.new) result (codes "end" ++ 10 ∷ []) }
{
    write_bytes(b"end\n".as_slice(), out)
}

// Writes a line for each event.
fn write_names<W: Write>(events: &[Event], out: &mut W) -> Result<(), WriteFault>
    ensures { Writes (W.contents out.old) (W.contents out.new) result
        (flat_map event_line events.now) }
{
    'events: for event in events {
        let line = event_line(*event);
        write_bytes(line.as_slice(), out)?;
    }
    Ok(())
}

// Writes a line for each event, and the line `end`.
fn write_ended_names<W: Write>(events: &[Event], out: &mut W) -> Result<(), WriteFault>
    ensures { Writes (W.contents out.old) (W.contents out.new) result (ended_events events.now) }
{
    write_names(events, out)?;
    write_end(out)
}

// The same, or `none` if there is none.
fn write_known<W: Write>(events: &[Event], out: &mut W) -> Result<(), WriteFault>
    ensures { Writes (W.contents out.old) (W.contents out.new) result (known_text events.now) }
{
    if events.is_empty() {
        write_bytes(b"none\n", out)
    } else {
        write_ended_names(events, out)
    }
}

fn write_events<W: Write>(
    events: &Result<Vec<Event>, LookUpFault>,
    out: &mut W,
) -> Result<(), WriteFault>
    ensures { Writes (W.contents out.old) (W.contents out.new) result (events_text events.now) }
{
    match events {
        Ok(events) => write_known(events.as_slice(), out),
        Err(fault) => write_text(look_up_fault_text(*fault), out),
    }
}

// Writes a line for each site.
fn write_site_shares<W: Write>(rows: &[SiteShare], out: &mut W) -> Result<(), WriteFault>
    ensures { Writes (W.contents out.old) (W.contents out.new) result
        (flat_map share_line rows.now) }
{
    'rows: for row in rows {
        let line = share_line(*row);
        write_bytes(line.as_slice(), out)?;
    }
    Ok(())
}

// Writes a line for each site, and the line `end`.
fn write_ended_shares<W: Write>(rows: &[SiteShare], out: &mut W) -> Result<(), WriteFault>
    ensures { Writes (W.contents out.old) (W.contents out.new) result (ended_shares rows.now) }
{
    write_site_shares(rows, out)?;
    write_end(out)
}

fn write_shares<W: Write>(
    shares: &Result<Option<Vec<SiteShare>>, LookUpFault>,
    out: &mut W,
) -> Result<(), WriteFault>
    ensures { Writes (W.contents out.old) (W.contents out.new) result (shares_text shares.now) }
{
    match shares {
        Ok(Some(rows)) => write_ended_shares(rows.as_slice(), out),
        Ok(None) => write_bytes(b"unknown\n", out),
        Err(fault) => write_text(look_up_fault_text(*fault), out),
    }
}

// Puts at the end how many entries are kept, if any are.
fn put_reserve(text: &mut Text, reserve: u64)
    requires { array_vec_len text.old ≤ 220 }
    ensures items { text.new.items ≡ text.old.items ++ reserve_text reserve }
    ensures len { array_vec_len text.new ≤ array_vec_len text.old + 29 }
{
    if reserve == 0 {
        return;
    }
    put(text, b" reserve ");
    put_number(text, reserve);
}

// Puts at the end what the callers do.
fn put_crowd(text: &mut Text, crowd: Crowd)
    requires { array_vec_len text.old ≤ 120 }
    ensures items { text.new.items ≡ text.old.items ++ crowd_text crowd }
    ensures len { array_vec_len text.new ≤ array_vec_len text.old + 86 }
{
    put(text, b" callers ");
    put_number(text, crowd.callers);
    put(text, b" asking ");
    put_number(text, crowd.asking);
    put(text, b" waiting ");
    put_number(text, crowd.waiting);
}

fn status_line(site_status: SiteStatus, crowd: Crowd, reserve: u64) -> Text
    ensures { result.items ≡ status_text site_status crowd reserve }
{
    let mut text = site_status_text(site_status);
    put_crowd(&mut text, crowd);
    put_reserve(&mut text, reserve);
    put(&mut text, b"\n");
    text
}

fn site_line(site_status: SiteStatus) -> Text
    ensures { result.items ≡ site_text site_status }
{
    let mut text = numbered(b"site ", site_status.me.number());
    put(&mut text, b" of ");
    put_number(&mut text, site_status.sites.count());
    put(&mut text, b"\n");
    text
}

/// Writes an answer, with its line breaks. A failed write leaves a prefix of it.
pub fn write_answer<W: Write>(answer: &OfficeAnswer, out: &mut W) -> Result<(), WriteFault>
    ensures { Writes (W.contents out.old) (W.contents out.new) result (answer_text answer.now) }
{
    match answer {
        OfficeAnswer::Reply { answered } => reply_line(answered, out),
        OfficeAnswer::Spared { spared } => write_bytes(spared_line(*spared).as_slice(), out),
        OfficeAnswer::Exported { result } => write_exported(result, out),
        OfficeAnswer::Imported { result } => write_imported(result, out),
        OfficeAnswer::Found { result } => write_found(result, out),
        OfficeAnswer::Listed { result } => write_listed(result, out),
        OfficeAnswer::Events { result } => write_events(result, out),
        OfficeAnswer::Shares { result } => write_shares(result, out),
        OfficeAnswer::Status {
            site_status,
            crowd,
            reserve,
        } => write_bytes(status_line(*site_status, *crowd, *reserve).as_slice(), out),
        OfficeAnswer::Site { site_status } => write_bytes(site_line(*site_status).as_slice(), out),
        OfficeAnswer::Quiet => write_bytes(b"", out),
    }
}

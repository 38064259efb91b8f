//! The lines that tell of a history.

ghost use Rattle.std.specs.Prelude.{◌≡◌, ◌+◌, ◌++◌, ◌≤◌};
ghost use Rattle.arrayvec.specs.ArrayVec.{array_vec_len};
ghost use Rattle.desk_lines.specs.Replies.{open_text};
ghost use Rattle.live_office.specs.RecordLines.{event_line, found_line, listed_line, share_line, site_status_text};

use desk_lines::{reply_text, request_text};
use plain_words::{Text, numbered, put, put_number, word};
use request_ledger::{Reply, Request, RequestNumber};
use rights_lattice::Event;
use site_desk::{SiteShare, SiteStatus};

/// The line of a reply that was found, with its line break.
pub fn found_line(place: u64, reply: Reply) -> Text
    ensures value { result.items ≡ found_line place reply }
{
    let mut text = Text::new();
    put_number(&mut text, place);
    put(&mut text, b" ");
    put(&mut text, reply_text(reply).as_slice());
    put(&mut text, b"\n");
    text
}

/// The line of a request in a list, with its line break.
pub fn listed_line(place: u64, number: RequestNumber, request: Request, reply: Reply) -> Text
    ensures value { result.items ≡ listed_line place number request reply }
{
    let mut text = Text::new();
    put_number(&mut text, place);
    put(&mut text, b" ");
    put(&mut text, request_text(number, request).as_slice());
    put(&mut text, b" ");
    put(&mut text, reply_text(reply).as_slice());
    put(&mut text, b"\n");
    text
}

/// The line of an event that is known, with its line break.
pub fn event_line(event: Event) -> Text
    ensures value { result.items ≡ event_line event }
{
    let mut text = word(b"event ");
    put(&mut text, event.bytes());
    put(&mut text, b"\n");
    text
}

// Adds the seats that are left, or `none`.
fn put_left(text: &mut Text, left: Option<u64>)
    requires { array_vec_len text.old + 20 ≤ 256 }
    ensures items { text.new.items ≡ text.old.items ++ open_text left }
    ensures len { array_vec_len text.new ≤ array_vec_len text.old + 20 }
{
    match left {
        Some(seats) => put_number(text, seats),
        None => put(text, b"none"),
    }
}

/// The line of what a site may sell of an event, and what it sold and took back, with its line break.
pub fn share_line(row: SiteShare) -> Text
    ensures value { result.items ≡ share_line row }
{
    let mut text = Text::new();
    put_number(&mut text, row.site.number());
    put(&mut text, b" left ");
    put_left(&mut text, row.left);
    put(&mut text, b" sold ");
    put_number(&mut text, row.sold);
    put(&mut text, b" back ");
    put_number(&mut text, row.back);
    put(&mut text, b"\n");
    text
}

/// The text that says which site it is, and how long its history is, without a line break.
pub fn site_status_text(site_status: SiteStatus) -> Text
    ensures value { result.items ≡ site_status_text site_status }
    ensures len { array_vec_len result ≤ 120 }
{
    let mut text = numbered(b"site ", site_status.me.number());
    put(&mut text, b" sites ");
    put_number(&mut text, site_status.sites.count());
    put(&mut text, b" entries ");
    put_number(&mut text, site_status.entries as u64);
    put(&mut text, b" limit ");
    put_number(&mut text, site_status.limit.entries());
    text
}

//! The texts that scripts and sessions share.

ghost use Rattle.std.specs.Prelude.{◌≡◌, ◌+◌, ◌++◌, ◌≤◌};
ghost use Rattle.arrayvec.specs.ArrayVec.{array_vec_len};
ghost use Rattle.plain_words.specs.Input.{longest_line};
ghost use Rattle.desk_lines.specs.Replies.{grow_fault_text, open_text, reply_text, ask_fault_text, take_fault_text, totals_text, wire_fault_text};

use book_core::GrowFault;
use delta_wire::WireFault;
use local_rights::ViewTotals;
use plain_words::{Text, numbered, put, put_number, word};
use request_ledger::Reply;
use site_desk::AskFault;
use site_exchange::TakeFault;

/// The text of a reply, without a line break.
pub fn reply_text(reply: Reply) -> Text
    ensures value { result.items ≡ reply_text reply }
    ensures len { array_vec_len result ≤ 40 }
{
    let mut text = word(reply.word());
    if let Some(number) = reply.number() {
        put(&mut text, b" ");
        put_number(&mut text, number);
    }
    text
}

/// The text of why a request is not answered.
pub(crate) fn ask_fault_text(fault: AskFault) -> Text
    ensures value { result.items ≡ ask_fault_text fault }
    ensures len { array_vec_len result ≤ 40 }
{
    match fault {
        AskFault::Closed => word(b"closed"),
        AskFault::Reused { .. } => word(b"reused"),
        AskFault::Full => word(b"history-full"),
        AskFault::Memory => word(b"memory"),
        AskFault::Store => word(b"store"),
    }
}

/// The text of why bytes are no message, without a line break.
pub fn wire_fault_text(fault: WireFault) -> Text
    ensures value { result.items ≡ wire_fault_text fault }
    ensures len { array_vec_len result ≤ longest_line }
{
    match fault {
        WireFault::Truncated => word(b"truncated"),
        WireFault::BadLine { line } => numbered(b"bad-line ", line),
        WireFault::OutOfOrder { line } => numbered(b"out-of-order ", line),
        WireFault::Trailing => word(b"trailing"),
        WireFault::Memory => word(b"memory"),
    }
}

/// The text of why a message is not taken, without a line break.
///
/// Of a message no reply is `memory`, `closed` or `store`: a script ends at the first, and a command tells it, and the other
/// two as `store`, with status 3.
pub fn take_fault_text(fault: TakeFault) -> Text
    ensures value { result.items ≡ take_fault_text fault }
    ensures len { array_vec_len result ≤ longest_line }
{
    match fault {
        TakeFault::NotForMe => word(b"not-for-me"),
        TakeFault::UnknownSite => word(b"unknown-site"),
        TakeFault::StrayAck { len } => numbered(b"stray-ack ", len as u64),
        TakeFault::ForeignRow { .. } => word(b"foreign-row"),
        TakeFault::Full => ask_fault_text(AskFault::Full),
        TakeFault::Memory => ask_fault_text(AskFault::Memory),
        TakeFault::Closed => ask_fault_text(AskFault::Closed),
        TakeFault::Store => ask_fault_text(AskFault::Store),
    }
}

/// The text of why a site does not count more sites, without a line break.
///
/// As of a message, no reply is `memory`, `closed` or `store`.
pub fn grow_fault_text(fault: GrowFault) -> Text
    ensures value { result.items ≡ grow_fault_text fault }
    ensures len { array_vec_len result ≤ longest_line }
{
    match fault {
        GrowFault::NotMore => word(b"not-more"),
        GrowFault::Full => ask_fault_text(AskFault::Full),
        GrowFault::Memory => ask_fault_text(AskFault::Memory),
        GrowFault::Closed => ask_fault_text(AskFault::Closed),
        GrowFault::Store => ask_fault_text(AskFault::Store),
    }
}

/// The text of what a view shows of an event.
pub(crate) fn totals_text(totals: ViewTotals) -> Text
    ensures value { result.items ≡ totals_text totals }
    ensures len { array_vec_len result ≤ longest_line }
{
    let mut text = word(b"totals released ");
    put_number(&mut text, totals.released);
    put(&mut text, b" sold ");
    put_number(&mut text, totals.sold);
    put(&mut text, b" refunded ");
    put_number(&mut text, totals.refunded);
    put(&mut text, b" open ");
    put_open(&mut text, totals.open_seats);
    text
}

// Adds the seats that are open, or `none`.
fn put_open(text: &mut Text, open_seats: Option<u64>)
    requires { array_vec_len text.old + 20 ≤ 256 }
    ensures items { text.new.items ≡ text.old.items ++ open_text open_seats }
    ensures len { array_vec_len text.new ≤ array_vec_len text.old + 20 }
{
    match open_seats {
        Some(seats) => put_number(text, seats),
        None => put(text, b"none"),
    }
}

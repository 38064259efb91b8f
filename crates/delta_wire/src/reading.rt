//! Reading deltas and messages.
ghost use Rattle.std.specs.Prelude.{◌≡◌, ◌≢◌, ◌≤◌, ◌<◌, ◌+◌, ◌^◌, length, [], Ok, Err, IfOk, IfErr, IsTrue};
ghost use Rattle.delta_mutators.specs.Rises.{rises};
ghost use Rattle.site_exchange.specs.declared.message.Message.{Message};
ghost use Rattle.delta_wire.specs.Grammar.{Spells, SpellsMessage};
ghost use Rattle.std.specs.List.{slice_split};
ghost use Rattle.plain_words.specs.Input.{is_line_break};
ghost use Rattle.delta_wire.specs.Wire.{items_from, delta_from_text, message_of, Gives, ends, at_last, ack_from, for_purpose, BeginsWithItem, HasItem, BeginsWithDelta, ReadsEachDelta, ReadsEachMessage};
ghost use Rattle.delta_wire.specs.Items.{follows_delta};
ghost use Rattle.delta_wire.specs.declared.fault.WireFault.TheVariants.{Trailing, Memory};

use crate::fault::WireFault;
use crate::header::{Header, Purpose, header_of};
use crate::items::item_of;
use crate::items_end::Ending;
use crate::lines::Lines;
use delta_mutators::{Delta, Item};
use site_exchange::Message;
use std::alloc::Global;

// The items from line `first` on.
fn read_items(
    alloc: Global,
    ending: Ending,
    first: u64,
    lines: &mut Lines<'_>,
) -> Result<Delta, WireFault>
    requires few_lines { length lines.old < 2 ^ 63 + 1 }
    requires first { first ≤ 2 }
    ensures exact { Gives result (items_from ending first [] [] lines.old) }
    ensures memory { result ≡ Err Memory → BeginsWithItem lines.old }
{
    let mut delta = Delta::empty(alloc);
    let mut n = first;
    'items: loop {
        let Some(line) = lines.next() else {
            return at_last(ending, lines, delta);
        };
        if ends(ending, line) {
            if lines.is_over() {
                return Ok(delta);
            }
            return Err(WireFault::Trailing);
        }
        let Some(item) = item_of(line) else {
            return Err(WireFault::BadLine { line: n });
        };
        if !comes_next(&delta, &item) {
            return Err(WireFault::OutOfOrder { line: n });
        }
        delta.push(item)?;
        n += 1;
    }
}

// Whether the item's line may stand next: the item rises, and no name stands behind a mark.
fn comes_next(delta: &Delta, item: &Item) -> bool
    ensures value { result ≡ follows_delta delta.now item.now }
    ensures rises { IsTrue result → IsTrue (rises delta.now item.now) }
{
    match item {
        Item::Name(_) => delta.marks().is_empty() && delta.rises(item),
        Item::Cell(_) => delta.rises(item),
    }
}

fn ends(ending: Ending, line: &[u8]) -> bool
    ensures { result ≡ ends ending line.now }
{
    match ending {
        Ending::AtEndLine => line == b"end".as_slice(),
        Ending::AtEndOfBytes => false,
    }
}

// The delta, where no line break follows.
fn at_last(ending: Ending, lines: &Lines<'_>, delta: Delta) -> Result<Delta, WireFault>
    ensures { result ≡ at_last ending lines.now delta }
{
    match ending {
        Ending::AtEndLine => Err(WireFault::Truncated),
        Ending::AtEndOfBytes => {
            if lines.is_over() {
                Ok(delta)
            } else {
                Err(WireFault::Truncated)
            }
        }
    }
}

// The end of an acknowledgement.
fn read_ack(message: Message, lines: &mut Lines<'_>) -> Result<Message, WireFault>
    ensures { result ≡ ack_from message lines.old }
{
    let Some(line) = lines.next() else {
        return Err(WireFault::Truncated);
    };
    if line != b"end".as_slice() {
        return Err(WireFault::BadLine { line: 2 });
    }
    if lines.is_over() {
        Ok(message)
    } else {
        Err(WireFault::Trailing)
    }
}

fn read_after(alloc: Global, header: Header, lines: &mut Lines<'_>) -> Result<Message, WireFault>
    requires few_lines { length lines.old < 2 ^ 63 + 1 }
    ensures memory { result ≡ Err Memory → HasItem header.purpose lines.old }
    ensures exact { Gives result (for_purpose header.purpose header lines.old) }
{
    let Header {
        purpose,
        by,
        to,
        upto,
    } = header;
    match purpose {
        Purpose::Delta => {
            let delta = read_items(alloc, Ending::AtEndLine, 2, lines)?;
            Ok(Message::Delta {
                by,
                to,
                upto,
                delta,
            })
        }
        Purpose::Ack => read_ack(Message::Ack { by, to, upto }, lines),
    }
}

fn message_of(alloc: Global, bytes: &[u8]) -> Result<Message, WireFault>
    ensures exact { Gives result (message_of bytes.now) }
    ensures memory { result ≡ Err Memory → BeginsWithDelta (slice_split is_line_break bytes.now) }
{
    let mut lines = Lines::new(bytes);
    let Some(line) = lines.next() else {
        return Err(WireFault::Truncated);
    };
    match header_of(line) {
        None => Err(WireFault::BadLine { line: 1 }),
        Some(header) => read_after(alloc, header, &mut lines),
    }
}

fn delta_from_text(alloc: Global, bytes: &[u8]) -> Result<Delta, WireFault>
    ensures exact { Gives result (delta_from_text bytes.now) }
    ensures memory { result ≡ Err Memory → BeginsWithItem (slice_split is_line_break bytes.now) }
{
    let mut lines = Lines::new(bytes);
    read_items(alloc, Ending::AtEndOfBytes, 1, &mut lines)
}

/// The delta that the bytes spell: item lines alone, up to where the bytes end at the beginning of a line.
///
/// A fault is the first from the top, and never `Trailing`; `Memory`, where room for what is read is refused, comes only
/// where the first line is an item.
pub fn read_delta(alloc: Global, bytes: &[u8]) -> Result<Delta, WireFault>
    // What is read is spelled so.
    ensures found { IfOk result (Spells bytes.now) }
    // What is spelled so is read, unless memory runs out.
    ensures only { ReadsEachDelta bytes.now result }
    // Which fault it is, unless memory runs out: the first from the top.
    ensures exact { Gives result (delta_from_text bytes.now) }
    ensures never_trailing { IfErr result (λ fault. fault ≢ Trailing) }
    // `Memory` comes only where the first line is an item.
    ensures memory { result ≡ Err Memory → BeginsWithItem (slice_split is_line_break bytes.now) }
{
    delta_from_text(alloc, bytes)
}

/// The message that the bytes spell.
///
/// A fault is the first from the top; `Memory`, where room for what is read is refused, comes only where the first
/// line behind the head of a delta is an item.
pub fn read_message(alloc: Global, bytes: &[u8]) -> Result<Message, WireFault>
    // What is read is spelled so.
    ensures found { IfOk result (SpellsMessage bytes.now) }
    // What is spelled so is read, unless memory runs out.
    ensures only { ReadsEachMessage bytes.now result }
    // Which fault it is, unless memory runs out: the first from the top.
    ensures exact { Gives result (message_of bytes.now) }
    // `Memory` comes only where the first line behind the head of a delta is an item.
    ensures memory { result ≡ Err Memory → BeginsWithDelta (slice_split is_line_break bytes.now) }
{
    message_of(alloc, bytes)
}

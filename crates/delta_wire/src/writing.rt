//! Writing deltas and messages.
ghost use Rattle.std.specs.Prelude.{◌≡◌, ◌<◌, length, OnOk, OnErr, IfOk, string_bytes};
ghost use Rattle.std.specs.List.{AllByRecursion};
ghost use Rattle.delta_mutators.specs.declared.delta.Item.TheVariants as item;
ghost use Rattle.delta_wire.specs.Grammar.{IsItem, IsDelta, HasItems, body_text, delta_text, IsMessage, message_text};
ghost use Rattle.delta_wire.specs.Parts.{names_text, marks_text};
ghost use Rattle.plain_words.specs.Writing.{Writes};

use crate::text::{header_text, mark_text, name_text};
use delta_mutators::Delta;
use plain_words::{WriteFault, write_bytes};
use rights_lattice::{Event, Mark};
use site_exchange::Message;
use std::alloc::{AllocError, Global};
use std::io::Write;

fn write_names<W: Write>(names: &[Event], out: &mut W) -> Result<(), WriteFault>
    ensures text { Writes (W.contents out.old) (W.contents out.new) result (names_text names.now) }
    ensures fits { OnOk result (AllByRecursion (λ n. IsItem (item.Name n)) names.now) }
    ensures some { OnErr result (0 < length names.now) }
{
    'names: for name in names {
        let line = name_text(name);
        write_bytes(line.as_slice(), out)?;
    }
    Ok(())
}

fn write_marks<W: Write>(marks: &[Mark], out: &mut W) -> Result<(), WriteFault>
    ensures text { Writes (W.contents out.old) (W.contents out.new) result (marks_text marks.now) }
    ensures fits { OnOk result (AllByRecursion (λ m. IsItem (item.Cell m)) marks.now) }
    ensures some { OnErr result (0 < length marks.now) }
{
    'marks: for mark in marks {
        let line = mark_text(mark);
        write_bytes(line.as_slice(), out)?;
    }
    Ok(())
}

// Writes the lines of a delta.
fn write_items<W: Write>(delta: &Delta, out: &mut W) -> Result<(), WriteFault>
    ensures text { Writes (W.contents out.old) (W.contents out.new) result (delta_text delta.now) }
    ensures fits { OnOk result (IsDelta delta.now) }
    ensures some { OnErr result (HasItems delta.now) }
{
    write_names(delta.names(), out)?;
    write_marks(delta.marks(), out)
}

// Writes the lines of a delta, and the last line.
fn write_body<W: Write>(delta: &Delta, out: &mut W) -> Result<(), WriteFault>
    ensures text { Writes (W.contents out.old) (W.contents out.new) result (body_text delta.now) }
    ensures fits { OnOk result (IsDelta delta.now) }
{
    write_items(delta, out)?;
    write_bytes(b"end\n", out)
}

/// Writes the text of a message, a line at a time.
///
/// After a fault a front of the text is written.
pub fn write_message<W: Write>(message: &Message, out: &mut W) -> Result<(), WriteFault>
    ensures text { Writes
        (W.contents out.old) (W.contents out.new) result (message_text message.now) }
    // So what was written is read back, unless memory runs out.
    ensures fits { OnOk result (IsMessage message.now) }
{
    match message {
        Message::Delta {
            by,
            to,
            upto,
            delta,
        } => {
            let header = header_text(b"delta", *by, *to, *upto);
            write_bytes(header.as_slice(), out)?;
            write_body(delta, out)
        }
        Message::Ack { by, to, upto } => {
            let header = header_text(b"ack", *by, *to, *upto);
            write_bytes(header.as_slice(), out)?;
            write_bytes(b"end\n", out)
        }
    }
}

/// The text of a delta: its item lines, without a header and without `end`. Memory may be refused, and then the delta
/// has an item.
pub fn delta_text(alloc: Global, delta: &Delta) -> Result<String, AllocError>
    ensures text { IfOk result (λ text. string_bytes text ≡ delta_text delta.now) }
    // So what was written is read back, unless memory runs out.
    ensures fits { OnOk result (IsDelta delta.now) }
    // Memory is refused only to the text of a delta that has an item.
    ensures memory { OnErr result (HasItems delta.now) }
{
    let mut bytes = Vec::new(alloc);
    match write_items(delta, &mut bytes) {
        Ok(()) => {}
        Err(WriteFault) => return Err(AllocError),
    }
    match String::from_utf8(bytes) {
        Ok(text) => Ok(text),
        Err(_) => unreachable!(),
    }
}

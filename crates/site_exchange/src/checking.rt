//! What is looked at in a message, and what it is answered.
ghost use Rattle.std.specs.Prelude.{◌≡◌, Some};
ghost use Rattle.site_exchange.specs.Exchange.{ack_for, check, ChecksTo, IsDeltaMessage};

use crate::message::{CheckFault, Message};
use book_core::Book;

/// Whether a message is looked at: it is to this book, from another site that the book counts, and acknowledges no more
/// than there is. What a delta holds is not read.
pub fn check(book: &Book, message: &Message) -> Result<(), CheckFault>
    ensures { ChecksTo (check book.now.office book.now.history message.now) result }
{
    let (by, to) = match message {
        Message::Delta { by, to, .. } => (*by, *to),
        Message::Ack { by, to, .. } => (*by, *to),
    };
    if to != book.me() || by == book.me() {
        return Err(CheckFault::NotForMe);
    }
    if by.number() >= book.sites().count() {
        return Err(CheckFault::UnknownSite);
    }
    if let Message::Ack { upto, .. } = message {
        if upto.entries() > book.len() as u64 {
            return Err(CheckFault::StrayAck { len: book.len() });
        }
    }
    Ok(())
}

/// The acknowledgement of a delta: of the same length, to its sender.
pub fn ack_for(message: &Message) -> Message
    requires { IsDeltaMessage message.now }
    ensures { ack_for message.now ≡ Some result }
{
    match message {
        Message::Delta { by, to, upto, .. } => Message::Ack {
            by: *to,
            to: *by,
            upto: *upto,
        },
        Message::Ack { .. } => unreachable!(),
    }
}

//! What a line of a session is answered.

ghost use Rattle.std.specs.Prelude.{◌≡◌, ◌≤◌};
ghost use Rattle.arrayvec.specs.ArrayVec.{array_vec_len};
ghost use Rattle.plain_words.specs.Input.{longest_line};
ghost use Rattle.plain_words.specs.Writing.{Writes};
ghost use Rattle.desk_lines.specs.Replies.{answered_text, reply_line};

use crate::texts::{ask_fault_text, reply_text, totals_text};
use local_rights::ViewTotals;
use plain_words::{Text, WriteFault, numbered, put, word, write_bytes};
use request_ledger::Reply;
use site_desk::AskFault;
use std::io::Write;

/// What a line of a session is answered.
#[derive(Clone, Copy, PartialEq, Eq, Debug)]
pub enum Answered {
    /// The reply that is kept under the request's number, now or from before.
    Kept(Reply),
    /// The seats that the site may still sell.
    LeftIs(u64),
    /// The totals by the site's view.
    TotalsAre(ViewTotals),
    /// The site does not know the event.
    NotKnown,
    /// The request is not answered, or a look: at a closed book, or where memory was refused.
    Refused(AskFault),
    /// The line is none of a session's.
    Unread,
}

/// The text of an answer, without a line break.
pub(crate) fn answered_text(answered: &Answered) -> Text
    ensures value { result.items ≡ answered_text answered.now }
    ensures len { array_vec_len result ≤ longest_line }
{
    match answered {
        Answered::Kept(reply) => reply_text(*reply),
        Answered::LeftIs(left) => numbered(b"left ", *left),
        Answered::TotalsAre(totals) => totals_text(*totals),
        Answered::NotKnown => reply_text(Reply::Unknown),
        Answered::Refused(fault) => ask_fault_text(*fault),
        Answered::Unread => word(b"bad-line"),
    }
}

/// Writes the reply line of a session, with its line break, or after a fault a front of it.
pub fn reply_line<W: Write>(answered: &Answered, out: &mut W) -> Result<(), WriteFault>
    ensures { Writes (W.contents out.old) (W.contents out.new) result (reply_line answered.now) }
{
    let mut text = answered_text(answered);
    put(&mut text, b"\n");
    write_bytes(text.as_slice(), out)
}

//! What a line of a script is answered.

ghost use Rattle.std.specs.Prelude.{◌≡◌, ◌≤◌};
ghost use Rattle.arrayvec.specs.ArrayVec.{array_vec_len};
ghost use Rattle.plain_words.specs.Input.{longest_line};
ghost use Rattle.plain_words.specs.Writing.{Writes};
ghost use Rattle.desk_lines.specs.ScriptReplies.{refusal_text, outcome_text, answer_text, script_reply_line};

use crate::answered::{Answered, answered_text};
use crate::texts::{ask_fault_text, grow_fault_text, reply_text, take_fault_text};
use book_core::PlanFault;
use local_rights::ViewTotals;
use plain_words::{Text, WriteFault, numbered, put, word, write_bytes};
use site_desk::AskFault;
use std::io::Write;
use world_steps::Outcome;

/// What a line of a script is answered.
#[derive(Clone, Copy, PartialEq, Eq, Debug)]
pub enum ScriptAnswer {
    /// What came of a step.
    Made(Outcome),
    /// The seats that the site may still sell.
    LeftIs(u64),
    /// The totals by the site's view.
    TotalsAre(ViewTotals),
    /// The site does not know the event.
    NotKnown,
    /// The site of the line, or the peer of its send, is not there, or it would send to itself or to a site that it does
    /// not count. A cession to a site that is not there is not this: the site that cedes answers it.
    NoSuchSite,
    /// The message was never sent.
    NoSuchMessage,
    /// The line is none of a script's.
    Unread,
}

fn refusal_text(fault: PlanFault) -> Text
    ensures value { result.items ≡ refusal_text fault }
    ensures len { array_vec_len result ≤ longest_line }
{
    match fault {
        PlanFault::Reused { place } => ask_fault_text(AskFault::Reused { place }),
        PlanFault::Full => ask_fault_text(AskFault::Full),
        PlanFault::Memory => ask_fault_text(AskFault::Memory),
    }
}

fn outcome_text(outcome: Outcome) -> Text
    ensures value { result.items ≡ outcome_text outcome }
    ensures len { array_vec_len result ≤ longest_line }
{
    match outcome {
        Outcome::Answered(reply) => reply_text(reply),
        Outcome::Refused(fault) => refusal_text(fault),
        Outcome::Sent { index } => numbered(b"message ", index as u64),
        Outcome::NothingToSend => word(b"nothing"),
        Outcome::Joined { ack } => numbered(b"joined message ", ack as u64),
        Outcome::NothingNew { ack } => numbered(b"nothing-new message ", ack as u64),
        Outcome::Acked => word(b"acked"),
        Outcome::NotTaken(fault) => take_fault_text(fault),
        Outcome::Restarted => word(b"restarted"),
        Outcome::Grown => word(b"grown"),
        Outcome::NotGrown(fault) => grow_fault_text(fault),
        Outcome::Stopped => word(b"stopped"),
    }
}

fn answer_text(answer: ScriptAnswer) -> Text
    ensures value { result.items ≡ answer_text answer }
    ensures len { array_vec_len result ≤ longest_line }
{
    match answer {
        ScriptAnswer::Made(outcome) => outcome_text(outcome),
        ScriptAnswer::LeftIs(left) => answered_text(&Answered::LeftIs(left)),
        ScriptAnswer::TotalsAre(totals) => answered_text(&Answered::TotalsAre(totals)),
        ScriptAnswer::NotKnown => answered_text(&Answered::NotKnown),
        ScriptAnswer::NoSuchSite => word(b"no-such-site"),
        ScriptAnswer::NoSuchMessage => word(b"no-message"),
        ScriptAnswer::Unread => answered_text(&Answered::Unread),
    }
}

/// Writes the line that answers a line of a script, with its line break, or after a fault a front
/// of it.
pub fn write_answer<W: Write>(answer: ScriptAnswer, out: &mut W) -> Result<(), WriteFault>
    ensures { Writes (W.contents out.old) (W.contents out.new) result (script_reply_line answer) }
{
    let mut text = answer_text(answer);
    put(&mut text, b"\n");
    write_bytes(text.as_slice(), out)
}

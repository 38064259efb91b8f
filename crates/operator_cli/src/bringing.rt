//! The command `import` where an office is open.

ghost use Rattle.std.specs.Prelude.{◌≡◌, ◌≢◌, ◌⊎◌, IfOk, IfErr, IfSome, OnOk};
ghost use Rattle.std.specs.Io.KnownBytes.{Appends};
ghost use Rattle.plain_words.specs.Writing.{AppendsFront, Writes};
ghost use Rattle.delta_wire.specs.Wire.{message_of};
ghost use Rattle.operator_cli.specs.declared.status.Status.TheVariants.{Failed};
ghost use Rattle.operator_cli.specs.declared.command_fault.CommandFault.TheVariants.{NotOpen, Memory as WantsMemory, Write as WriteFailed};
ghost use Rattle.operator_cli.specs.Opened.{FailsFor};
ghost use Rattle.operator_cli.specs.Printed.{Printed};
ghost use Rattle.operator_cli.specs.CommandReply.{FaultTold};
ghost use Rattle.operator_cli.specs.Visits.{IsBringEnd, IsBroughtOf, IsBroughtText, IsTakingLine, IsUnreadOf, IsVisitEnd, PassesOn, brings_ack, heard_of_taking, import_question, is_taken, question_of_bytes, question_of_read};

use crate::command_fault::CommandFault;
use crate::ending::{ended, tell_fault};
use crate::import::read_input;
use crate::status::Status;
use crate::told::{CommandReply, ended_by_wire, tell};
use crate::visiting::{ending, hear, print_line, reach, say, told_before};
use delta_wire::{WireFault, read_message, write_message};
use plain_words::LineBytes;
use site_exchange::Message;
use std::alloc::Global;
use std::io::{BufRead, BufReader, Read, Write};

fn brings_ack(line: &[u8]) -> bool
    ensures { result ≡ brings_ack line.now }
{
    line == b"joined".as_slice() || line == b"nothing-new".as_slice()
}

fn is_taken(line: &[u8]) -> bool
    ensures { result ≡ is_taken line.now }
{
    brings_ack(line) || line == b"acked".as_slice()
}

// How the command ends by the line that says what was done.
fn heard_of_taking(line: &[u8]) -> Result<Status, CommandFault>
    ensures { result ≡ heard_of_taking line.now }
{
    ending(line, !is_taken(line))
}

// Asks to take the message, and sends it.
fn send_message<Q: Write>(message: &Message, questions: &mut Q) -> Result<(), CommandFault>
    ensures sent { Writes (Q.contents questions.old) (Q.contents questions.new) result
        (import_question message.now) }
    ensures fault { IfErr result (λ fault. fault ≡ NotOpen) }
{
    say(b"import", questions)?;
    match write_message(message, questions) {
        Ok(()) => reach(questions),
        Err(_) => Err(CommandFault::NotOpen),
    }
}

// Reads lines up to `end`.
fn skip_message<A: BufRead>(answers: &mut A) -> Result<(), CommandFault>
    ensures fault { IfErr result (λ fault. fault ≡ NotOpen) }
{
    let mut line = LineBytes::new();
    'lines: for _count in 0..u64::MAX {
        if hear(answers, &mut line).is_err() {
            break;
        }
        if line.as_slice() == b"end".as_slice() {
            return Ok(());
        }
    }
    Err(CommandFault::NotOpen)
}

// The acknowledgement that follows such a line is read, and not printed.
fn skip_ack<A: BufRead>(line: &[u8], answers: &mut A) -> Result<(), CommandFault>
    ensures fault { IfErr result (λ fault. fault ≡ NotOpen) }
{
    if brings_ack(line) {
        return skip_message(answers);
    }
    Ok(())
}

// Reads what was done with the message, and prints it.
fn print_taking<A: BufRead, W: Write>(answers: &mut A, out: &mut W) -> Result<Status, CommandFault>
    ensures printed { IfOk result (Printed (IsTakingLine (A.remaining answers.old))
        (W.contents out.old) (W.contents out.new)) }
    ensures passes { IfErr result (λ _. PassesOn (A.remaining answers.old)
        (W.contents out.old) (W.contents out.new)) }
    ensures cause { IfErr result (IsVisitEnd (A.remaining answers.old)) }
    ensures ends { IfOk result (λ status. status ≢ Failed) }
{
    let mut line = LineBytes::new();
    hear(answers, &mut line)?;
    let bytes = line.as_slice();
    let status = heard_of_taking(bytes)?;
    skip_ack(bytes, answers)?;
    print_line(bytes, out)?;
    Ok(status)
}

// Sends a message, and prints what was done with it.
fn bring<A: BufRead, Q: Write, W: Write>(
    message: &Message,
    answers: &mut A,
    questions: &mut Q,
    out: &mut W,
) -> Result<Status, CommandFault>
    ensures asked { AppendsFront (Q.contents questions.old) (Q.contents questions.new)
        (import_question message.now) }
    ensures whole { OnOk result (Appends (Q.contents questions.old) (Q.contents questions.new)
        (import_question message.now)) }
    ensures printed { IfOk result (Printed (IsTakingLine (A.remaining answers.old))
        (W.contents out.old) (W.contents out.new)) }
    ensures cause { IfErr result (IsVisitEnd (A.remaining answers.old)) }
    ensures ends { IfOk result (λ status. status ≢ Failed) }
{
    match send_message(message, questions) {
        Ok(()) => print_taking(answers, out),
        Err(_) => Err(told_before(answers)),
    }
}

// Tells why the bytes are no message.
fn tell_unread<W: Write>(fault: WireFault, out: &mut W) -> Result<Status, CommandFault>
    ensures printed { IfOk result (Printed (IsUnreadOf fault)
        (W.contents out.old) (W.contents out.new)) }
    ensures cause { IfErr result (λ cause. (cause ≡ WantsMemory) ⊎ (cause ≡ WriteFailed)) }
    ensures ends { IfOk result (λ status. status ≢ Failed) }
{
    match ended_by_wire(fault) {
        Ok(told) => tell(&told, out),
        Err(fault) => Err(fault),
    }
}

// Sends the message that the bytes spell, and prints what was done with it.
fn bring_bytes<A: BufRead, Q: Write, W: Write>(
    alloc: Global,
    bytes: &[u8],
    answers: &mut A,
    questions: &mut Q,
    out: &mut W,
) -> Result<Status, CommandFault>
    ensures asked { AppendsFront (Q.contents questions.old) (Q.contents questions.new)
        (question_of_read (message_of bytes.now)) }
    ensures whole { OnOk result (Appends (Q.contents questions.old) (Q.contents questions.new)
        (question_of_read (message_of bytes.now))) }
    ensures printed { IfOk result (Printed (IsBroughtOf (message_of bytes.now)
        (A.remaining answers.old)) (W.contents out.old) (W.contents out.new)) }
    ensures cause { IfErr result (IsVisitEnd (A.remaining answers.old)) }
    ensures ends { IfOk result (λ status. status ≢ Failed) }
{
    let message = match read_message(alloc, bytes) {
        Ok(message) => message,
        Err(fault) => return tell_unread(fault, out),
    };
    bring(&message, answers, questions, out)
}

// Sends the message that the input is.
fn bring_input<R: Read + Drop, A: BufRead, Q: Write, W: Write>(
    alloc: Global,
    input: R,
    answers: &mut A,
    questions: &mut Q,
    out: &mut W,
) -> Result<Status, CommandFault>
    ensures asked { IfSome (R.remaining input) (λ bytes. AppendsFront
        (Q.contents questions.old) (Q.contents questions.new) (question_of_bytes bytes)) }
    ensures whole { IfSome (R.remaining input) (λ bytes. OnOk result (Appends
        (Q.contents questions.old) (Q.contents questions.new) (question_of_bytes bytes))) }
    ensures printed { IfOk result (Printed (IsBroughtText (R.remaining input)
        (A.remaining answers.old)) (W.contents out.old) (W.contents out.new)) }
    ensures cause { IfErr result (IsBringEnd (A.remaining answers.old)) }
    ensures ends { IfOk result (λ status. status ≢ Failed) }
{
    match read_input(alloc, input) {
        Ok(Some(bytes)) => bring_bytes(alloc, bytes.as_slice(), answers, questions, out),
        Ok(None) => tell(&CommandReply::TooLong, out),
        Err(fault) => Err(fault),
    }
}

// The same, and tells a fault.
fn bring_over<R: Read + Drop, A: BufRead, Q: Write, W: Write, E: Write>(
    alloc: Global,
    input: R,
    answers: &mut A,
    questions: &mut Q,
    out: &mut W,
    err: &mut E,
) -> Status
    ensures asked { IfSome (R.remaining input) (λ bytes. AppendsFront
        (Q.contents questions.old) (Q.contents questions.new) (question_of_bytes bytes)) }
    ensures whole { IfSome (R.remaining input) (λ bytes. result ≢ Failed → Appends
        (Q.contents questions.old) (Q.contents questions.new) (question_of_bytes bytes)) }
    ensures printed { Printed (IsBroughtText (R.remaining input) (A.remaining answers.old))
        (W.contents out.old) (W.contents out.new) result }
    ensures err { FaultTold (E.contents err.old) (E.contents err.new) result }
    ensures cause { FailsFor (IsBringEnd (A.remaining answers.old))
        (E.contents err.old) (E.contents err.new) result }
{
    let came = bring_input(alloc, input, answers, questions, out);
    ended(came, out, err)
}

/// Brings the one message that the input is to an open office, and prints `joined`, `nothing-new` or `acked`, or why it is
/// refused, with status 1; what is no message is told as by `import_store`, and is not sent.
///
/// A fault is told on `err`, with status 3: `not-open` where no whole answer comes, `store` where the office's records
/// failed, `memory`, `read` or `write`. The office may have taken the message then. The acknowledgement is not printed.
pub fn import_office<R: Read + Drop, A: Read + Drop, Q: Write, W: Write, E: Write>(
    alloc: Global,
    input: R,
    answers: A,
    questions: &mut Q,
    out: &mut W,
    err: &mut E,
) -> Status
    ensures asked { IfSome (R.remaining input) (λ bytes. AppendsFront
        (Q.contents questions.old) (Q.contents questions.new) (question_of_bytes bytes)) }
    ensures whole { IfSome (R.remaining input) (λ bytes. result ≢ Failed → Appends
        (Q.contents questions.old) (Q.contents questions.new) (question_of_bytes bytes)) }
    ensures printed { Printed (IsBroughtText (R.remaining input) (A.remaining answers))
        (W.contents out.old) (W.contents out.new) result }
    ensures err { FaultTold (E.contents err.old) (E.contents err.new) result }
    ensures cause { FailsFor (IsBringEnd (A.remaining answers))
        (E.contents err.old) (E.contents err.new) result }
{
    let Ok(mut buffered) = BufReader::new(alloc, answers) else {
        return tell_fault(CommandFault::Memory, err);
    };
    bring_over(alloc, input, &mut buffered, questions, out, err)
}

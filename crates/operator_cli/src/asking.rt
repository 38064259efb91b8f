//! The command `ask` where an office is open.

ghost use Rattle.std.specs.Prelude.{◌≡◌, ◌≤◌, ◌⊎◌, IfOk, IfErr, MatchResult, Some, length};
ghost use Rattle.plain_words.specs.Input.{longest_line};
ghost use Rattle.plain_words.specs.Writing.{AppendsFront, Writes};
ghost use Rattle.session_server.specs.declared.fault.TalkFault.TheVariants.{Write as WriteFailed};
ghost use Rattle.operator_cli.specs.Asking.{AllAsked, IsAnsweredBy, IsLastAsked, IsLeft, IsPutTo, IsToldFull, NextAsked, WasAsked, channel, visit_end};
ghost use Rattle.operator_cli.specs.CommandReply.{FaultTold};
ghost use Rattle.operator_cli.specs.Visits.{line_text};
ghost use Rattle.operator_cli.specs.declared.status.Status.TheVariants.{Done, Failed};
ghost use Rattle.operator_cli.specs.declared.command_fault.CommandFault.TheVariants.{Full};

use crate::command_fault::CommandFault;
use crate::ending::tell_fault;
use crate::status::Status;
use crate::visiting::{hear, say, trouble};
use desk_lines::{BadLine, Line, MOST_LINES, read_line};
use live_office::Last;
use plain_words::{LineBytes, Text, has_more, next_line, put, word, write_bytes};
use session_server::TalkFault;
use std::alloc::Global;
use std::io::{BufRead, BufReader, Read, Write};

// Asks a line, and reads the line that answers it; `Full` where the office says that all places are taken, and else
// `NotOpen` where the line is not asked or no answer comes.
fn put_to<A: BufRead, Q: Write>(
    line: &[u8],
    answers: &mut A,
    questions: &mut Q,
) -> Result<Text, CommandFault>
    requires { length line.now ≤ longest_line }
    ensures put { IfOk result (λ text. IsPutTo
        (channel (Q.contents questions.old) (A.remaining answers.old)) line.now text.items
        (channel (Q.contents questions.new) (A.remaining answers.new))) }
    ensures asked { AppendsFront (Q.contents questions.old) (Q.contents questions.new)
        (line_text line.now) }
    ensures full { IfErr result (λ fault. fault ≡ Full
        → IsToldFull (A.remaining answers.old) (A.remaining answers.new)) }
{
    let mut reply = LineBytes::new();
    let said = say(line, questions);
    hear(answers, &mut reply)?;
    if let Some(CommandFault::Full) = trouble(reply.as_slice()) {
        return Err(CommandFault::Full);
    }
    said?;
    let mut text = word(reply.as_slice());
    put(&mut text, b"\n");
    Ok(text)
}

// The answer to a line, with its line break; or that it is the last.
fn answer<A: BufRead, Q: Write>(
    line: &[u8],
    answers: &mut A,
    questions: &mut Q,
) -> Result<Text, Last>
    requires { length line.now ≤ longest_line }
    ensures answered { IfOk result (λ text. IsAnsweredBy
        (channel (Q.contents questions.old) (A.remaining answers.old)) line.now text.items
        (channel (Q.contents questions.new) (A.remaining answers.new))) }
    ensures last { IfErr result (λ last. IsLastAsked
        (channel (Q.contents questions.old) (A.remaining answers.old)) line.now last) }
    ensures left { IfErr result (λ last. IsLeft (Some last)
        (channel (Q.contents questions.old) (A.remaining answers.old))
        (channel (Q.contents questions.new) (A.remaining answers.new))) }
{
    match read_line(line) {
        Err(BadLine) => Ok(word(b"bad-line\n")),
        Ok(Line::Quit) => Err(Last::Quit),
        Ok(Line::Ask { .. } | Line::Left { .. } | Line::Totals { .. }) => {
            match put_to(line, answers, questions) {
                Ok(text) => Ok(text),
                Err(CommandFault::Full) => Err(Last::Full),
                Err(_) => Err(Last::Close),
            }
        }
    }
}

// Prints an answer, and flushes it.
fn print_text<W: Write>(text: &Text, out: &mut W) -> Result<(), TalkFault>
    ensures written { Writes (W.contents out.old) (W.contents out.new) result text.now.items }
    ensures fault { IfErr result (λ fault. fault ≡ WriteFailed) }
{
    write_bytes(text.as_slice(), out)?;
    match out.flush() {
        Ok(()) => Ok(()),
        Err(_) => Err(TalkFault::Write),
    }
}

// Answers the next line, or reports how the session ends there.
fn ask_next<R: BufRead, A: BufRead, Q: Write, W: Write>(
    input: &mut R,
    answers: &mut A,
    questions: &mut Q,
    out: &mut W,
) -> Result<Option<Option<Last>>, TalkFault>
    ensures { NextAsked (R.remaining input.old) (R.remaining input.new) (W.contents out.old)
        (W.contents out.new) (channel (Q.contents questions.old) (A.remaining answers.old))
        (channel (Q.contents questions.new) (A.remaining answers.new)) result }
{
    let mut line = LineBytes::new();
    if !next_line(input, &mut line)? {
        return Ok(Some(None));
    }
    let text = match answer(line.as_slice(), answers, questions) {
        Ok(text) => text,
        Err(last) => return Ok(Some(Some(last))),
    };
    print_text(&text, out)?;
    Ok(None)
}

// A session over readers that are lent.
fn ask_over<R: BufRead, A: BufRead, Q: Write, W: Write>(
    input: &mut R,
    answers: &mut A,
    questions: &mut Q,
    out: &mut W,
) -> Result<Option<Last>, TalkFault>
    ensures { AllAsked (R.remaining input.old) (W.contents out.old) (W.contents out.new)
        (channel (Q.contents questions.old) (A.remaining answers.old))
        (channel (Q.contents questions.new) (A.remaining answers.new)) result }
{
    'lines: for _count in 0..MOST_LINES {
        match ask_next(input, answers, questions, out) {
            Ok(None) => {}
            Ok(Some(ended)) => return Ok(ended),
            Err(fault) => return Err(fault),
        }
    }
    match has_more(input) {
        Ok(false) => Ok(None),
        Ok(true) => Err(TalkFault::TooLong),
        Err(_) => Err(TalkFault::Read),
    }
}

// What a session that ended so comes to.
fn visit_end(came: Result<Option<Last>, TalkFault>) -> Result<Status, CommandFault>
    ensures { result ≡ visit_end came }
{
    match came {
        Ok(None) => Ok(Status::Done),
        Ok(Some(Last::Quit)) => Ok(Status::Done),
        Ok(Some(Last::Full)) => Err(CommandFault::Full),
        Ok(Some(Last::Close)) => Err(CommandFault::NotOpen),
        Ok(Some(Last::Unread)) => Err(CommandFault::NotOpen),
        Err(fault) => Err(CommandFault::from(fault)),
    }
}

// The same, and tells what ended it early.
fn ask_told<R: BufRead, A: BufRead, Q: Write, W: Write, E: Write>(
    input: &mut R,
    answers: &mut A,
    questions: &mut Q,
    out: &mut W,
    err: &mut E,
) -> Status
    ensures status { (result ≡ Done) ⊎ (result ≡ Failed) }
    ensures err { FaultTold (E.contents err.old) (E.contents err.new) result }
    ensures asked { WasAsked (R.remaining input.old) (W.contents out.old) (W.contents out.new)
        (Q.contents questions.old) (Q.contents questions.new) (A.remaining answers.old)
        (E.contents err.old) (E.contents err.new) result }
{
    match visit_end(ask_over(input, answers, questions, out)) {
        Ok(status) => status,
        Err(fault) => tell_fault(fault, err),
    }
}

/// Puts the session lines of the input to an open office, each before the next is read, up to `quit` or the end, and prints
/// the line that answers each; `bad-line` for what is no line of a session, which is not asked.
///
/// What ends the session early is told on `err`, with status 3: the faults of `ask_store`, `full` where all places are
/// taken, so that the line is not asked, and `not-open` where no whole answer comes. What was answered stays entered.
pub fn ask_office<R: Read + Drop, A: Read + Drop, Q: Write, W: Write, E: Write>(
    alloc: Global,
    input: R,
    answers: A,
    questions: &mut Q,
    out: &mut W,
    err: &mut E,
) -> Status
    ensures status { (result ≡ Done) ⊎ (result ≡ Failed) }
    ensures err { FaultTold (E.contents err.old) (E.contents err.new) result }
    ensures asked { WasAsked (R.remaining input) (W.contents out.old) (W.contents out.new)
        (Q.contents questions.old) (Q.contents questions.new) (A.remaining answers)
        (E.contents err.old) (E.contents err.new) result }
{
    let Ok(mut lines) = BufReader::new(alloc, input) else {
        return tell_fault(CommandFault::Memory, err);
    };
    let Ok(mut replies) = BufReader::new(alloc, answers) else {
        return tell_fault(CommandFault::Memory, err);
    };
    ask_told(&mut lines, &mut replies, questions, out, err)
}

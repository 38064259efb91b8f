//! The commands `find`, `list`, `events`, `shares`, `export` and `status` where an office is open.

ghost use Rattle.std.specs.Prelude.{◌≡◌, ◌≢◌, ◌≤◌, ◌⊎◌, IfOk, IfErr, OnOk, codes, length};
ghost use Rattle.std.specs.Io.KnownBytes.{Appends, Consumes};
ghost use Rattle.plain_words.specs.Input.{IsPartOfLine, longest_line};
ghost use Rattle.plain_words.specs.Writing.{AppendsFront};
ghost use Rattle.operator_cli.specs.declared.status.Status.TheVariants.{Done, Failed};
ghost use Rattle.operator_cli.specs.declared.command_fault.CommandFault.TheVariants.{AlreadyOpen, NotOpen, Write as WriteFailed};
ghost use Rattle.operator_cli.specs.Printed.{Printed};
ghost use Rattle.operator_cli.specs.CommandReply.{command_fault_line};
ghost use Rattle.operator_cli.specs.Visits.{FirstPrinted, IsAnswer, IsRowsVisit, IsSharesVisit, IsVisit, IsVisitEnd, PassesOn, RestPrinted, export_question, find_question, line_text, list_question, shares_question, streams};

use crate::command_fault::CommandFault;
use crate::ending::{ended, tell_fault};
use crate::status::Status;
use crate::told::{CommandReply, tell};
use crate::visiting::{hear, heard, pass_on, print_line, say, told_before};
use plain_words::{LineBytes, Text, numbered, put, word};
use request_ledger::RequestNumber;
use rights_lattice::{Event, SiteId};
use std::alloc::Global;
use std::io::{BufRead, BufReader, Read, Write};

/// What an office answers a line by, unless there is nothing.
#[derive(Clone, Copy, Debug)]
pub(crate) enum Expected {
    /// One line.
    Line,
    /// Lines, and then `end`, which is none of them.
    Rows,
    /// The lines of a message, of which `end` is the last.
    Message,
}

// Asks a line, and reads the first line of the answer.
fn ask_first<A: BufRead, Q: Write>(
    question: &[u8],
    answers: &mut A,
    questions: &mut Q,
    line: &mut LineBytes,
) -> Result<(), CommandFault>
    requires { length question.now ≤ longest_line }
    ensures asked { AppendsFront (Q.contents questions.old) (Q.contents questions.new)
        (line_text question.now) }
    ensures whole { OnOk result (Appends (Q.contents questions.old) (Q.contents questions.new)
        (line_text question.now)) }
    ensures heard { OnOk result (IsPartOfLine line.new.items × Consumes
        (A.remaining answers.old) (A.remaining answers.new) (line_text line.new.items)) }
    ensures cause { IfErr result (IsVisitEnd (A.remaining answers.old)) }
{
    if say(question, questions).is_err() {
        return Err(told_before(answers));
    }
    hear(answers, line)
}

// Prints the first line of the answer, unless it tells a fault.
fn print_first<A: BufRead, Q: Write, W: Write>(
    question: &[u8],
    answers: &mut A,
    questions: &mut Q,
    out: &mut W,
) -> Result<Status, CommandFault>
    requires { length question.now ≤ longest_line }
    ensures asked { AppendsFront (Q.contents questions.old) (Q.contents questions.new)
        (line_text question.now) }
    ensures whole { OnOk result (Appends (Q.contents questions.old) (Q.contents questions.new)
        (line_text question.now)) }
    ensures first { IfOk result (FirstPrinted (A.remaining answers.old) (A.remaining answers.new)
        (W.contents out.old) (W.contents out.new)) }
    ensures passes { IfErr result (λ _. PassesOn (A.remaining answers.old)
        (W.contents out.old) (W.contents out.new)) }
    ensures cause { IfErr result (IsVisitEnd (A.remaining answers.old)) }
{
    let mut line = LineBytes::new();
    ask_first(question, answers, questions, &mut line)?;
    let bytes = line.as_slice();
    let status = heard(bytes)?;
    print_line(bytes, out)?;
    Ok(status)
}

// Prints the lines behind the first.
fn print_rest<A: BufRead, W: Write>(
    expected: Expected,
    answers: &mut A,
    out: &mut W,
) -> Result<(), CommandFault>
    ensures rest { OnOk result (RestPrinted expected
        (A.remaining answers.old) (A.remaining answers.new)
        (W.contents out.old) (W.contents out.new)) }
    ensures passes { IfErr result (λ _. PassesOn (A.remaining answers.old)
        (W.contents out.old) (W.contents out.new)) }
    ensures fault { IfErr result (λ fault. (fault ≡ NotOpen) ⊎ (fault ≡ WriteFailed)) }
{
    match expected {
        Expected::Line => Ok(()),
        Expected::Rows => pass_on(answers, out),
        Expected::Message => {
            pass_on(answers, out)?;
            print_line(b"end", out)
        }
    }
}

// Prints the whole answer.
fn print_answer<A: BufRead, Q: Write, W: Write>(
    expected: Expected,
    question: &[u8],
    answers: &mut A,
    questions: &mut Q,
    out: &mut W,
) -> Result<Status, CommandFault>
    requires { length question.now ≤ longest_line }
    ensures asked { AppendsFront (Q.contents questions.old) (Q.contents questions.new)
        (line_text question.now) }
    ensures whole { OnOk result (Appends (Q.contents questions.old) (Q.contents questions.new)
        (line_text question.now)) }
    ensures printed { IfOk result (Printed (IsAnswer expected (A.remaining answers.old))
        (W.contents out.old) (W.contents out.new)) }
    ensures passes { PassesOn (A.remaining answers.old)
        (W.contents out.old) (W.contents out.new) }
    ensures cause { IfErr result (IsVisitEnd (A.remaining answers.old)) }
    ensures ends { IfOk result (λ status. status ≢ Failed) }
{
    let status = print_first(question, answers, questions, out)?;
    match status {
        Status::Done => {
            print_rest(expected, answers, out)?;
            Ok(status)
        }
        _ => Ok(status),
    }
}

// Asks a line, prints its answer, and tells a fault.
fn visit_over<A: BufRead, Q: Write, W: Write, E: Write>(
    expected: Expected,
    question: &[u8],
    answers: &mut A,
    questions: &mut Q,
    out: &mut W,
    err: &mut E,
) -> Status
    requires { length question.now ≤ longest_line }
    ensures { IsVisit expected question.now (A.remaining answers.old)
        (streams (Q.contents questions.old) (W.contents out.old) (E.contents err.old))
        (streams (Q.contents questions.new) (W.contents out.new) (E.contents err.new)) result }
{
    let came = print_answer(expected, question, answers, questions, out);
    ended(came, out, err)
}

// The same over a reader that has no buffer.
fn visit<A: Read + Drop, Q: Write, W: Write, E: Write>(
    alloc: Global,
    expected: Expected,
    question: &[u8],
    answers: A,
    questions: &mut Q,
    out: &mut W,
    err: &mut E,
) -> Status
    requires { length question.now ≤ longest_line }
    ensures { IsVisit expected question.now (A.remaining answers)
        (streams (Q.contents questions.old) (W.contents out.old) (E.contents err.old))
        (streams (Q.contents questions.new) (W.contents out.new) (E.contents err.new)) result }
{
    let Ok(mut buffered) = BufReader::new(alloc, answers) else {
        return tell_fault(CommandFault::Memory, err);
    };
    visit_over(expected, question, &mut buffered, questions, out, err)
}

/// Tells that an office has the file open: `already-open`, with status 3.
pub fn tell_open<E: Write>(err: &mut E) -> Status
    ensures line { AppendsFront (E.contents err.old) (E.contents err.new)
        (command_fault_line AlreadyOpen) }
    ensures status { result ≡ Failed }
{
    tell_fault(CommandFault::AlreadyOpen, err)
}

/// Asks an open office for the place and the reply that are kept under a number, and prints what `find_store` prints of a
/// file.
///
/// A fault is told on `err`, with status 3: `not-open` where no whole answer comes, `store` where the office's records
/// failed, `memory` or `write`. What is printed then is a prefix of what the office sent.
pub fn find_office<A: Read + Drop, Q: Write, W: Write, E: Write>(
    alloc: Global,
    number: RequestNumber,
    answers: A,
    questions: &mut Q,
    out: &mut W,
    err: &mut E,
) -> Status
    ensures { IsVisit Expected.Line (find_question number) (A.remaining answers)
        (streams (Q.contents questions.old) (W.contents out.old) (E.contents err.old))
        (streams (Q.contents questions.new) (W.contents out.new) (E.contents err.new)) result }
{
    let question = numbered(b"find ", number.get());
    visit(
        alloc,
        Expected::Line,
        question.as_slice(),
        answers,
        questions,
        out,
        err,
    )
}

/// Asks an open office how many entries its records have, and prints the line that it answers.
///
/// Faults are those of `find_office`.
pub fn status_office<A: Read + Drop, Q: Write, W: Write, E: Write>(
    alloc: Global,
    answers: A,
    questions: &mut Q,
    out: &mut W,
    err: &mut E,
) -> Status
    ensures { IsVisit Expected.Line (codes "status") (A.remaining answers)
        (streams (Q.contents questions.old) (W.contents out.old) (E.contents err.old))
        (streams (Q.contents questions.new) (W.contents out.new) (E.contents err.new)) result }
{
    visit(
        alloc,
        Expected::Line,
        b"status",
        answers,
        questions,
        out,
        err,
    )
}

/// Asks an open office for the message that is due to a site, and prints it, with its `end`; or `nothing` or `no-site`,
/// with status 1.
///
/// Faults are those of `find_office`.
pub fn export_office<A: Read + Drop, Q: Write, W: Write, E: Write>(
    alloc: Global,
    to: SiteId,
    answers: A,
    questions: &mut Q,
    out: &mut W,
    err: &mut E,
) -> Status
    ensures { IsVisit Expected.Message (export_question to) (A.remaining answers)
        (streams (Q.contents questions.old) (W.contents out.old) (E.contents err.old))
        (streams (Q.contents questions.new) (W.contents out.new) (E.contents err.new)) result }
{
    let question = numbered(b"export ", to.number());
    visit(
        alloc,
        Expected::Message,
        question.as_slice(),
        answers,
        questions,
        out,
        err,
    )
}

// The line that asks for the requests that name an event.
fn list_question(event: Event) -> Text
    ensures value { result.items ≡ list_question event }
    ensures few { length result.items ≤ longest_line }
{
    let mut text = word(b"list ");
    put(&mut text, event.bytes());
    text
}

/// Asks an open office for the requests that name an event, and prints what `list_store` prints of a file; `none` for a
/// word that is no event name, of which nothing is asked.
///
/// Faults are those of `find_office`.
pub fn list_office<A: Read + Drop, Q: Write, W: Write, E: Write>(
    alloc: Global,
    event: &str,
    answers: A,
    questions: &mut Q,
    out: &mut W,
    err: &mut E,
) -> Status
    ensures { IsRowsVisit event.now (A.remaining answers)
        (streams (Q.contents questions.old) (W.contents out.old) (E.contents err.old))
        (streams (Q.contents questions.new) (W.contents out.new) (E.contents err.new)) result }
{
    let Some(event) = Event::read(event.as_bytes()) else {
        let came = tell(&CommandReply::NotFound, out);
        return ended(came, out, err);
    };
    let question = list_question(event);
    visit(
        alloc,
        Expected::Rows,
        question.as_slice(),
        answers,
        questions,
        out,
        err,
    )
}

/// Asks an open office for the events that its site knows, and prints what `events_store` prints of a file.
///
/// Faults are those of `find_office`.
pub fn events_office<A: Read + Drop, Q: Write, W: Write, E: Write>(
    alloc: Global,
    answers: A,
    questions: &mut Q,
    out: &mut W,
    err: &mut E,
) -> Status
    ensures { IsVisit Expected.Rows (codes "events") (A.remaining answers)
        (streams (Q.contents questions.old) (W.contents out.old) (E.contents err.old))
        (streams (Q.contents questions.new) (W.contents out.new) (E.contents err.new)) result }
{
    visit(
        alloc,
        Expected::Rows,
        b"events",
        answers,
        questions,
        out,
        err,
    )
}

// The line that asks for the shares of an event.
fn shares_question(event: Event) -> Text
    ensures value { result.items ≡ shares_question event }
    ensures few { length result.items ≤ longest_line }
{
    let mut question = word(b"shares ");
    put(&mut question, event.bytes());
    question
}

/// Asks an open office for the shares of an event, and prints what `shares_store` prints of a file; `unknown` for a word
/// that is no event name, of which nothing is asked.
///
/// Faults are those of `find_office`.
pub fn shares_office<A: Read + Drop, Q: Write, W: Write, E: Write>(
    alloc: Global,
    event: &str,
    answers: A,
    questions: &mut Q,
    out: &mut W,
    err: &mut E,
) -> Status
    ensures { IsSharesVisit event.now (A.remaining answers)
        (streams (Q.contents questions.old) (W.contents out.old) (E.contents err.old))
        (streams (Q.contents questions.new) (W.contents out.new) (E.contents err.new)) result }
{
    let Some(event) = Event::read(event.as_bytes()) else {
        let came = tell(&CommandReply::Unknown, out);
        return ended(came, out, err);
    };
    let question = shares_question(event);
    visit(
        alloc,
        Expected::Rows,
        question.as_slice(),
        answers,
        questions,
        out,
        err,
    )
}

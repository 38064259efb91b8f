//! Lines that go to an open office, and lines that come from it.

ghost use Rattle.std.specs.Prelude.{◌≡◌, ◌≤◌, ◌⊎◌, ◌∷◌, [], IfErr, IfSome, OnOk, length};
ghost use Rattle.std.specs.Io.KnownBytes.{Consumes, Keeps};
ghost use Rattle.plain_words.specs.Input.{IsPartOfLine, longest_line};
ghost use Rattle.plain_words.specs.Writing.{Writes};
ghost use Rattle.operator_cli.specs.declared.command_fault.CommandFault.TheVariants.{NotOpen, Write as WriteFailed};
ghost use Rattle.operator_cli.specs.Visits.{IsVisitEnd, PassedAll, PassedNext, PassesOn, ending, heard, is_nothing, line_text, trouble};

use crate::command_fault::CommandFault;
use crate::ending::write_line;
use crate::status::Status;
use plain_words::{LineBytes, put, word, write_bytes};
use std::io::{BufRead, ErrorKind, Write};

/// What was asked is at the office; `NotOpen` where it may not be.
pub(crate) fn reach<Q: Write>(questions: &mut Q) -> Result<(), CommandFault>
    ensures kept { Keeps (Q.contents questions.old) (Q.contents questions.new) }
    ensures fault { IfErr result (λ fault. fault ≡ NotOpen) }
{
    match questions.flush() {
        Ok(()) => Ok(()),
        Err(_) => Err(CommandFault::NotOpen),
    }
}

/// Asks a line, with its line break; `NotOpen` where it does not reach the office, and a prefix may have.
pub(crate) fn say<Q: Write>(line: &[u8], questions: &mut Q) -> Result<(), CommandFault>
    requires { length line.now ≤ longest_line }
    ensures said { Writes (Q.contents questions.old) (Q.contents questions.new) result
        (line_text line.now) }
    ensures fault { IfErr result (λ fault. fault ≡ NotOpen) }
{
    let mut text = word(line);
    put(&mut text, b"\n");
    match write_bytes(text.as_slice(), questions) {
        Ok(()) => reach(questions),
        Err(_) => Err(CommandFault::NotOpen),
    }
}

// The next byte; None where none comes. A read that was interrupted is tried again.
fn next_byte<A: BufRead>(answers: &mut A) -> Option<u8>
    ensures { IfSome result
        (λ byte. Consumes (A.remaining answers.old) (A.remaining answers.new) (byte ∷ [])) }
{
    let mut byte = [0u8; 1];
    'turns: for _ in 0..u64::MAX {
        match answers.read(&mut byte) {
            Ok(0) => return None,
            Ok(_) => return Some(byte[0]),
            Err(error) => match error.kind() {
                ErrorKind::Interrupted => {}
                _ => return None,
            },
        }
    }
    None
}

/// Reads the next line of an answer, without its line break; `NotOpen` where no whole line comes, or one of more than 200
/// bytes.
pub(crate) fn hear<A: BufRead>(answers: &mut A, line: &mut LineBytes) -> Result<(), CommandFault>
    ensures heard { OnOk result (IsPartOfLine line.new.items × Consumes
        (A.remaining answers.old) (A.remaining answers.new) (line_text line.new.items)) }
    ensures fault { IfErr result (λ fault. fault ≡ NotOpen) }
{
    line.clear();
    'bytes: loop {
        let Some(byte) = next_byte(answers) else {
            return Err(CommandFault::NotOpen);
        };
        if byte == b'\n' {
            return Ok(());
        }
        if line.is_full() {
            return Err(CommandFault::NotOpen);
        }
        line.push(byte);
    }
}

/// Why an office does not answer, if this line says so.
pub(crate) fn trouble(line: &[u8]) -> Option<CommandFault>
    ensures { result ≡ trouble line.now }
{
    if line == b"memory".as_slice() {
        Some(CommandFault::Memory)
    } else if line == b"closed".as_slice() {
        Some(CommandFault::Store)
    } else if line == b"store".as_slice() {
        Some(CommandFault::Store)
    } else if line == b"full".as_slice() {
        Some(CommandFault::Full)
    } else if line == b"idle".as_slice() {
        Some(CommandFault::Full)
    } else if line == b"bad-line".as_slice() {
        Some(CommandFault::NotOpen)
    } else {
        None
    }
}

/// What ends a visit whose question did not reach the office: the trouble that the office told before it ended the
/// connection, or `NotOpen`.
pub(crate) fn told_before<A: BufRead>(answers: &mut A) -> CommandFault
    ensures { IsVisitEnd (A.remaining answers.old) result }
{
    let mut line = LineBytes::new();
    match hear(answers, &mut line) {
        Ok(()) => trouble(line.as_slice()).unwrap_or(CommandFault::NotOpen),
        Err(_) => CommandFault::NotOpen,
    }
}

/// How a command ends by this line, where it says whether what was asked is refused.
pub(crate) fn ending(line: &[u8], refused: bool) -> Result<Status, CommandFault>
    ensures { result ≡ ending (trouble line.now) refused }
{
    match trouble(line) {
        Some(fault) => Err(fault),
        None if refused => Ok(Status::Refused),
        None => Ok(Status::Done),
    }
}

fn is_nothing(line: &[u8]) -> bool
    ensures { result ≡ is_nothing line.now }
{
    line == b"none".as_slice()
        || line == b"nothing".as_slice()
        || line == b"no-site".as_slice()
        || line == b"unknown".as_slice()
}

/// How a command ends by the first line of an answer.
pub(crate) fn heard(line: &[u8]) -> Result<Status, CommandFault>
    ensures { result ≡ heard line.now }
{
    ending(line, is_nothing(line))
}

/// Prints a line, with its line break.
pub(crate) fn print_line<W: Write>(line: &[u8], out: &mut W) -> Result<(), CommandFault>
    requires { length line.now ≤ longest_line }
    ensures written { Writes (W.contents out.old) (W.contents out.new) result
        (line_text line.now) }
    ensures fault { IfErr result (λ fault. fault ≡ WriteFailed) }
{
    let mut text = word(line);
    put(&mut text, b"\n");
    write_line(&text, out)
}

// Passes the next line on; false where it is `end`, which is not passed on.
fn pass_next<A: BufRead, W: Write>(answers: &mut A, out: &mut W) -> Result<bool, CommandFault>
    ensures passed { PassedNext (A.remaining answers.old) (A.remaining answers.new)
        (W.contents out.old) (W.contents out.new) result }
    ensures fault { IfErr result (λ fault. (fault ≡ NotOpen) ⊎ (fault ≡ WriteFailed)) }
{
    let mut line = LineBytes::new();
    hear(answers, &mut line)?;
    let bytes = line.as_slice();
    if bytes == b"end".as_slice() {
        return Ok(false);
    }
    print_line(bytes, out)?;
    Ok(true)
}

/// Passes the lines of an answer on, each as it comes, up to `end`, which is read too.
pub(crate) fn pass_on<A: BufRead, W: Write>(
    answers: &mut A,
    out: &mut W,
) -> Result<(), CommandFault>
    ensures all { OnOk result (PassedAll (A.remaining answers.old) (A.remaining answers.new)
        (W.contents out.old) (W.contents out.new)) }
    ensures some { IfErr result (λ _. PassesOn (A.remaining answers.old)
        (W.contents out.old) (W.contents out.new)) }
    ensures fault { IfErr result (λ fault. (fault ≡ NotOpen) ⊎ (fault ≡ WriteFailed)) }
{
    'lines: for _count in 0..u64::MAX {
        match pass_next(answers, out) {
            Ok(true) => {}
            Ok(false) => return Ok(()),
            Err(fault) => return Err(fault),
        }
    }
    Err(CommandFault::NotOpen)
}

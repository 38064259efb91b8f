//! A session over any reader and writer.

ghost use Rattle.std.specs.Prelude.{◌≡◌, IfErr};
ghost use Rattle.plain_words.specs.Writing.{Writes};
ghost use Rattle.desk_lines.specs.Replies.{reply_line};
ghost use Rattle.session_server.specs.Session.{LineAnswered, NextTalked, Talked};
ghost use Rattle.session_server.specs.declared.fault.TalkFault.TheVariants.{Write as WriteFailed};

use crate::answerer::Answerer;
use crate::fault::{Ended, TalkFault};
use desk_lines::{Answered, BadLine, Line, MOST_LINES, read_line, reply_line};
use plain_words::{LineBytes, has_more, next_line};
use std::alloc::Global;
use std::io::{BufRead, BufReader, Read, Write};
use std::sync::Wait;

// The answer to a line, and none to `quit`.
fn answer_line<T: Wait, A: Answerer>(rt: &T, line: &[u8], answerer: &mut A) -> Option<Answered>
    ensures { LineAnswered A.step line.now answerer.old answerer.new result }
{
    match read_line(line) {
        Err(BadLine) => Some(Answered::Unread),
        Ok(Line::Quit) => None,
        Ok(asked) => Some(answerer.answer(rt, &asked)),
    }
}

// Writes a reply line, which is then at its writer's end.
fn write_reply<W: Write>(answered: &Answered, out: &mut W) -> Result<(), TalkFault>
    ensures written { Writes
        (W.contents out.old) (W.contents out.new) result (reply_line answered.now) }
    ensures fault { IfErr result (λ fault. fault ≡ WriteFailed) }
{
    reply_line(answered, out)?;
    match out.flush() {
        Ok(()) => Ok(()),
        Err(_) => Err(TalkFault::Write),
    }
}

// Answers the next line, or tells how the session ends there.
fn talk_next<T: Wait, R: BufRead, W: Write, A: Answerer>(
    rt: &T,
    reader: &mut R,
    out: &mut W,
    answerer: &mut A,
) -> Result<Option<Ended>, TalkFault>
    ensures { NextTalked A.step (R.remaining reader.old) (R.remaining reader.new)
        (W.contents out.old) (W.contents out.new) answerer.old answerer.new result }
{
    let mut line = LineBytes::new();
    if !next_line(reader, &mut line)? {
        return Ok(Some(Ended::EndOfInput));
    }
    let Some(answered) = answer_line(rt, line.as_slice(), answerer) else {
        return Ok(Some(Ended::Quit));
    };
    write_reply(&answered, out)?;
    Ok(None)
}

// A session over a reader that is lent.
fn talk_over<T: Wait, R: BufRead, W: Write, A: Answerer>(
    rt: &T,
    reader: &mut R,
    out: &mut W,
    answerer: &mut A,
) -> Result<Ended, TalkFault>
    ensures { Talked A.step (R.remaining reader.old)
        (W.contents out.old) (W.contents out.new) answerer.old answerer.new result }
{
    'lines: for _count in 0..MOST_LINES {
        match talk_next(rt, reader, out, answerer) {
            Ok(None) => {}
            Ok(Some(ended)) => return Ok(ended),
            Err(fault) => return Err(fault),
        }
    }
    match has_more(reader) {
        Ok(false) => Ok(Ended::EndOfInput),
        Ok(true) => Err(TalkFault::TooLong),
        Err(_) => Err(TalkFault::Read),
    }
}

/// Answers the lines of a reader, each before the next is read, until they end or one is `quit`: a line that asks is
/// answered by the answerer, one that cannot be read `bad-line`.
///
/// The buffer is made before anything is read, and `Memory` where there is none for it. `LineTooLong` and `TooLong`
/// come at the first line that may not be there, behind the replies to all lines before it. Any failed read is `Read`
/// and is not tried again. After `Write` the replies before the last line's went out, and a front of that one; no
/// later line is answered, and what was answered stays entered.
pub fn talk<T: Wait, R: Read + Drop, W: Write, A: Answerer>(
    rt: &T,
    alloc: Global,
    reader: R,
    out: &mut W,
    answerer: &mut A,
) -> Result<Ended, TalkFault>
    ensures { Talked A.step (R.remaining reader)
        (W.contents out.old) (W.contents out.new) answerer.old answerer.new result }
{
    let Ok(mut buffered) = BufReader::new(alloc, reader) else {
        return Err(TalkFault::Memory);
    };
    talk_over(rt, &mut buffered, out, answerer)
}

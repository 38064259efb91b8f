//! A session at an open office, over any reader and writer.

ghost use Rattle.std.specs.Prelude.{◌≡◌, IfErr};
ghost use Rattle.std.specs.Io.KnownBytes.{Keeps};
ghost use Rattle.plain_words.specs.Writing.{Writes};
ghost use Rattle.session_server.specs.declared.fault.TalkFault.TheVariants.{Write as WriteFailed};
ghost use Rattle.live_office.specs.Answers.{answer_text};
ghost use Rattle.live_office.specs.Talks.{NextOfficeTalked, OfficeTalked};

use crate::ahead::whole_lines;
use crate::handler::{Handler, Last};
use crate::office_answer::{OfficeAnswer, write_answer};
use desk_lines::MOST_LINES;
use plain_words::{LineBytes, ReadFault, has_more, next_line};
use session_server::TalkFault;
use std::alloc::Global;
use std::io::{BufRead, BufReader, Read, Write};
use std::sync::Wait;
use std::time::Clock;

// Writes an answer, and flushes it where no other is about to come.
fn send<W: Write>(answer: &OfficeAnswer, is_last: bool, out: &mut W) -> Result<(), TalkFault>
    ensures written { Writes (W.contents out.old) (W.contents out.new) result (answer_text
        answer.now) }
    ensures fault { IfErr result (λ fault. fault ≡ WriteFailed) }
{
    write_answer(answer, out)?;
    if !is_last {
        return Ok(());
    }
    match out.flush() {
        Ok(()) => Ok(()),
        Err(_) => Err(TalkFault::Write),
    }
}

// Lets the handler ask for lines that came at once, at most so many, and tells whether there is only one.
fn ask_ahead<T: Wait + Clock, R: BufRead, H: Handler>(
    rt: &T,
    reader: &mut R,
    handler: &mut H,
    most: u32,
) -> Result<bool, ReadFault>
    ensures reader { Keeps (R.remaining reader.old) (R.remaining reader.new) }
    ensures handler { handler.new ≡ handler.old }
{
    let Ok(bytes) = reader.fill_buf() else {
        return Err(ReadFault);
    };
    if whole_lines(bytes, 2) < 2 {
        return Ok(true);
    }
    handler.ask_ahead(rt, bytes, most);
    Ok(false)
}

// Answers the next line, or reports how the session ends there.
fn talk_line<T: Wait + Clock, R: BufRead, W: Write, H: Handler>(
    rt: &T,
    reader: &mut R,
    out: &mut W,
    handler: &mut H,
    is_last: bool,
) -> Result<Option<Option<Last>>, TalkFault>
    ensures { NextOfficeTalked H.handles H.ends (R.remaining reader.old) (R.remaining reader.new)
        (W.contents out.old) (W.contents out.new) handler.old handler.new result }
{
    let mut line = LineBytes::new();
    if !next_line(reader, &mut line)? {
        return Ok(Some(None));
    }
    let answer = match handler.handle(rt, line.as_slice()) {
        Ok(answer) => answer,
        Err(last) => {
            let _ = out.flush();
            return Ok(Some(Some(last)));
        }
    };
    send(&answer, is_last, out)?;
    Ok(None)
}

// The same, where so many lines may still be answered, and several may be asked at once.
fn talk_next<T: Wait + Clock, R: BufRead, W: Write, H: Handler>(
    rt: &T,
    reader: &mut R,
    out: &mut W,
    handler: &mut H,
    most: u32,
) -> Result<Option<Option<Last>>, TalkFault>
    ensures { NextOfficeTalked H.handles H.ends (R.remaining reader.old) (R.remaining reader.new)
        (W.contents out.old) (W.contents out.new) handler.old handler.new result }
{
    let Ok(is_last) = ask_ahead(rt, reader, handler, most) else {
        return Err(TalkFault::Read);
    };
    talk_line(rt, reader, out, handler, is_last)
}

// A session over a reader that is lent.
fn talk_over<T: Wait + Clock, R: BufRead, W: Write, H: Handler>(
    rt: &T,
    reader: &mut R,
    out: &mut W,
    handler: &mut H,
) -> Result<Option<Last>, TalkFault>
    ensures { OfficeTalked H.handles H.ends (R.remaining reader.old) (W.contents out.old)
        (W.contents out.new) handler.old handler.new result }
{
    'lines: for count in 0..MOST_LINES {
        match talk_next(rt, reader, out, handler, MOST_LINES - count) {
            Ok(None) => {}
            Ok(Some(ended)) => return Ok(ended),
            Err(fault) => return Err(fault),
        }
    }
    match has_more(reader) {
        Ok(false) => Ok(None),
        Ok(true) => Err(TalkFault::TooLong),
        Err(_) => Err(TalkFault::Read),
    }
}

/// Answers the lines of a reader by a handler, one after another, until they end or one is the last. Requests that came at
/// once may be asked at once; their answers are flushed together.
///
/// Errors are those of `session_server::talk`, with what they leave: what was answered stays entered, and of the answer
/// that could not be written a prefix went out. `NotStarted` is none of them.
pub fn office_talk<T: Wait + Clock, R: Read + Drop, W: Write, H: Handler>(
    rt: &T,
    alloc: Global,
    reader: R,
    out: &mut W,
    handler: &mut H,
) -> Result<Option<Last>, TalkFault>
    ensures { OfficeTalked H.handles H.ends (R.remaining reader) (W.contents out.old)
        (W.contents out.new) handler.old handler.new result }
{
    let Ok(mut buffered) = BufReader::new(alloc, reader) else {
        return Err(TalkFault::Memory);
    };
    talk_over(rt, &mut buffered, out, handler)
}

//! The command `world`: a script over a reader and writers.

ghost use Rattle.std.specs.Prelude.{◌≡◌, ◌<◌, ◌-◌, ℕ, List, [], ◌∷◌, Option, Err, OnOk, IfOk, IfErr};
ghost use Rattle.std.specs.Io.Buffered.{reader_remaining};
ghost use Rattle.std.specs.Io.KnownBytes.{Keeps};
ghost use Rattle.plain_words.specs.Writing.{Writes};
ghost use Rattle.desk_lines.specs.Grammar.{most_lines};
ghost use Rattle.desk_lines.specs.Reading.{line_of};
ghost use Rattle.desk_lines.specs.ScriptReplies.{script_reply_line};
ghost use Rattle.operator_cli.specs.Answering.{answer_to};
ghost use Rattle.operator_cli.specs.Faults.{IsOutFault};
ghost use Rattle.operator_cli.specs.declared.fault.ScriptFault.TheVariants.{Memory, Read as ReadFailed};
ghost use Rattle.operator_cli.specs.Script.{answers, replies, replies_at, run_at};
ghost use Rattle.operator_cli.specs.Ran.{ReadBrokeOff, NextRan, RestRan, OpenRan, SecondRan, SitesRan, StartRan, ScriptRan, ScriptTold, WorldRan};

use crate::answering::answer_line;
use crate::command_fault::CommandFault;
use crate::ending::tell_fault;
use crate::fault::ScriptFault;
use crate::status::Status;
use crate::totals::write_totals;
use book_core::Limit;
use desk_lines::{Answered, MOST_LINES, read_limit, read_sites, reply_line, write_answer};
use plain_words::{LineBytes, has_more, next_line};
use rights_lattice::Sites;
use std::alloc::Global;
use std::io::{BufRead, BufReader, Read, Write};
use world_steps::World;

// The most lines behind the first two.
const MOST_BEHIND: u32 = MOST_LINES - 2;

// Answers one line: its reply line, or after a fault a front of it.
fn reply<W: Write>(
    alloc: Global,
    line: &[u8],
    out: &mut W,
    world: &mut World,
) -> Result<(), ScriptFault>
    ensures written { Writes (W.contents out.old)
        (W.contents out.new) result (script_reply_line (answer_to world.old (line_of line.now)).0) }
    ensures world { OnOk result (world.new ≡ (answer_to world.old (line_of line.now)).1) }
    ensures fault { IfErr result IsOutFault }
    ensures memory { result ≡ Err Memory → Keeps (W.contents out.old) (W.contents out.new) }
{
    let answer = answer_line(world, alloc, line)?;
    write_answer(answer, out)?;
    Ok(())
}

// Answers the next line: false where there is none.
fn reply_next<R: BufRead, W: Write>(
    alloc: Global,
    reader: &mut R,
    out: &mut W,
    world: &mut World,
) -> Result<bool, ScriptFault>
    ensures ran { NextRan (R.remaining reader.old) (R.remaining reader.new)
        (W.contents out.old) (W.contents out.new) world.old world.new result }
    ensures reads { result ≡ Err ReadFailed
        → ReadBrokeOff 1 (answers world.old) (R.remaining reader.old)
        (R.remaining reader.new) (W.contents out.old) (W.contents out.new) }
{
    let mut line = LineBytes::new();
    if !next_line(reader, &mut line)? {
        return Ok(false);
    }
    reply(alloc, line.as_slice(), out, world)?;
    Ok(true)
}

// Answers all lines that are left, of which at most this many may be there.
fn reply_all<R: BufRead, W: Write>(
    alloc: Global,
    reader: &mut R,
    out: &mut W,
    world: &mut World,
    most: u32,
) -> Result<(), ScriptFault>
    ensures ran { RestRan most (R.remaining reader.old)
        (W.contents out.old) (W.contents out.new) world.old world.new result }
    ensures reads { result ≡ Err ReadFailed
        → ReadBrokeOff most (answers world.old) (R.remaining reader.old)
        (R.remaining reader.new) (W.contents out.old) (W.contents out.new) }
{
    'lines: for _count in 0..most {
        let is_answered = reply_next(alloc, reader, out, world)?;
        if !is_answered {
            return Ok(());
        }
    }
    let is_more = has_more(reader)?;
    if is_more {
        return Err(ScriptFault::TooManyLines);
    }
    Ok(())
}

// The world that the second line opens: with its limit, or after its answer.
fn open_world<W: Write>(
    alloc: Global,
    line: &[u8],
    out: &mut W,
    sites: Sites,
) -> Result<World, ScriptFault>
    ensures { OpenRan sites line.now (W.contents out.old) (W.contents out.new) result }
{
    if let Some(limit) = read_limit(line) {
        let limited = World::new(alloc, sites, limit)?;
        return Ok(limited);
    }
    let mut world = World::new(alloc, sites, Limit::greatest())?;
    reply(alloc, line, out, &mut world)?;
    Ok(world)
}

// The second line, which is here, and all behind it.
fn run_second<R: BufRead, W: Write>(
    alloc: Global,
    reader: &mut R,
    out: &mut W,
    line: &[u8],
    sites: Sites,
) -> Result<(), ScriptFault>
    ensures ran { SecondRan (most_lines - 2)
        sites line.now (R.remaining reader.old) (W.contents out.old) (W.contents out.new) result }
    ensures reads { result ≡ Err ReadFailed → ReadBrokeOff
        (most_lines - 2) (λ lines. replies_at sites (line.now ∷ lines)) (R.remaining reader.old)
        (R.remaining reader.new) (W.contents out.old) (W.contents out.new) }
{
    let mut world = open_world(alloc, line, out, sites)?;
    reply_all(alloc, reader, out, &mut world, MOST_BEHIND)?;
    write_totals(alloc, &world, out)?;
    Ok(())
}

// The end of a script that is its first line alone.
fn run_none<W: Write>(alloc: Global, out: &mut W, sites: Sites) -> Result<(), ScriptFault>
    ensures written { Writes (W.contents out.old) (W.contents out.new) result (run_at sites []) }
    ensures fault { IfErr result IsOutFault }
{
    let world = World::new(alloc, sites, Limit::greatest())?;
    write_totals(alloc, &world, out)
}

// The lines behind the first.
fn run_world<R: BufRead, W: Write>(
    alloc: Global,
    reader: &mut R,
    out: &mut W,
    sites: Sites,
) -> Result<(), ScriptFault>
    ensures ran { SitesRan (most_lines - 1)
        sites (R.remaining reader.old) (W.contents out.old) (W.contents out.new) result }
    ensures reads { result ≡ Err ReadFailed
        → ReadBrokeOff (most_lines - 1) (replies_at sites) (R.remaining reader.old)
        (R.remaining reader.new) (W.contents out.old) (W.contents out.new) }
{
    let mut line = LineBytes::new();
    if next_line(reader, &mut line)? {
        run_second(alloc, reader, out, line.as_slice(), sites)
    } else {
        run_none(alloc, out, sites)
    }
}

// The count of sites that the first line gives.
fn read_start<R: BufRead>(reader: &mut R) -> Result<Option<Sites>, ScriptFault>
    ensures ran { StartRan (R.remaining reader.old) (R.remaining reader.new) result }
    ensures reads { result ≡ Err ReadFailed → (out : Option (List ℕ)) → ReadBrokeOff
        most_lines replies (R.remaining reader.old) (R.remaining reader.new) out out }
{
    let mut line = LineBytes::new();
    if !next_line(reader, &mut line)? {
        return Ok(None);
    }
    Ok(read_sites(line.as_slice()))
}

/// Runs a script: the reply line of each line behind the first, but for a second one that gives the limit, and the lines of
/// totals go to `out`. True where its first line gives the count of sites, and else `bad-line` is all that goes there.
///
/// A fault ends it early. Where reading ended it, the replies to the lines before are written, and no line of totals;
/// behind `Write` and `Memory` a front of what the script prints is.
pub fn run_script<R: BufRead, W: Write>(
    alloc: Global,
    reader: &mut R,
    out: &mut W,
) -> Result<bool, ScriptFault>
    ensures ran { ScriptRan
        (R.remaining reader.old) (W.contents out.old) (W.contents out.new) result }
    ensures reads { result ≡ Err ReadFailed
        → ReadBrokeOff most_lines replies (R.remaining reader.old)
        (R.remaining reader.new) (W.contents out.old) (W.contents out.new) }
{
    let Some(sites) = read_start(reader)? else {
        reply_line(&Answered::Unread, out)?;
        return Ok(false);
    };
    run_world(alloc, reader, out, sites)?;
    Ok(true)
}

fn buffered<R: Read + Drop>(alloc: Global, reader: R) -> Result<BufReader<R>, ScriptFault>
    ensures reader { IfOk result
        (λ buffer. reader_remaining R.remaining buffer ≡ R.remaining reader) }
    ensures memory { IfErr result (λ fault. fault ≡ Memory) }
{
    match BufReader::new(alloc, reader) {
        Ok(buffer) => Ok(buffer),
        Err(_) => Err(ScriptFault::Memory),
    }
}

// The same over a buffer, with all that went out at its writer's end.
fn run_flushed<R: Read + Drop, W: Write>(
    alloc: Global,
    reader: R,
    out: &mut W,
) -> Result<bool, ScriptFault>
    ensures { ScriptRan (R.remaining reader) (W.contents out.old) (W.contents out.new) result }
{
    let mut reader = buffered(alloc, reader)?;
    match run_script(alloc, &mut reader, out) {
        Ok(is_started) => match out.flush() {
            Ok(()) => Ok(is_started),
            Err(_) => Err(ScriptFault::Write),
        },
        Err(fault) => {
            let _ = out.flush();
            Err(fault)
        }
    }
}

fn tell<E: Write>(came: Result<bool, ScriptFault>, err: &mut E) -> Status
    ensures { ScriptTold (E.contents err.old) (E.contents err.new) came result }
{
    match came {
        Ok(true) => Status::Done,
        Ok(false) => Status::Refused,
        Err(fault) => tell_fault(CommandFault::from(fault), err),
    }
}

/// Runs a script, and tells by its status how it ended; where it ended early the line that names the
/// cause goes to `err`.
///
/// `out` gets many short writes, and is flushed before the status is told, unless there was no memory for the buffer of
/// the reader; a flush that fails is `write`. No clause shows the flush.
pub fn world_script<R: Read + Drop, W: Write, E: Write>(
    alloc: Global,
    reader: R,
    out: &mut W,
    err: &mut E,
) -> Status
    ensures { WorldRan (R.remaining reader)
        (W.contents out.old) (W.contents out.new) (E.contents err.old) (E.contents err.new) result }
{
    let came = run_flushed(alloc, reader, out);
    tell(came, err)
}

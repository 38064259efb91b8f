//! The answer of a world to one line.

ghost use Rattle.std.specs.Prelude.{◌≡◌, IfOk, OnErr, Some};
ghost use Rattle.desk_lines.specs.Reading.{line_of};
ghost use Rattle.operator_cli.specs.Answering.{left_answer, totals_answer, step_answer, answer_to};

use desk_lines::{BadLine, ScriptAnswer, ScriptLine, read_step};
use rights_lattice::{Event, SiteId};
use std::alloc::{AllocError, Global};
use world_steps::{Step, World, WorldFault};

fn left_answer(world: &World, site: SiteId, event: Event) -> ScriptAnswer
    ensures { result ≡ left_answer world.now site event }
{
    let Some(book) = world.book(site) else {
        return ScriptAnswer::NoSuchSite;
    };
    if book.knows(event) {
        ScriptAnswer::LeftIs(book.left(event))
    } else {
        ScriptAnswer::NotKnown
    }
}

fn totals_answer(world: &World, site: SiteId, event: Event) -> ScriptAnswer
    ensures { result ≡ totals_answer world.now site event }
{
    let Some(book) = world.book(site) else {
        return ScriptAnswer::NoSuchSite;
    };
    if book.knows(event) {
        ScriptAnswer::TotalsAre(book.totals(event))
    } else {
        ScriptAnswer::NotKnown
    }
}

// The answer to a step.
fn made(world: &mut World, alloc: Global, step: Step) -> Result<ScriptAnswer, AllocError>
    ensures answer { IfOk result (λ answer. step_answer world.old step ≡ (answer, world.new)) }
    ensures unchanged { OnErr result (world.new ≡ world.old) }
{
    match world.step(alloc, step) {
        Ok(outcome) => Ok(ScriptAnswer::Made(outcome)),
        Err(WorldFault::NoSite) => Ok(ScriptAnswer::NoSuchSite),
        Err(WorldFault::NoMessage) => Ok(ScriptAnswer::NoSuchMessage),
        Err(WorldFault::Memory) => Err(AllocError),
    }
}

fn answer(world: &mut World, alloc: Global, line: ScriptLine) -> Result<ScriptAnswer, AllocError>
    ensures answer { IfOk result (λ answer. answer_to world.old (Some line) ≡ (answer, world.new)) }
    ensures unchanged { OnErr result (world.new ≡ world.old) }
{
    match line {
        ScriptLine::Make(step) => made(world, alloc, step),
        ScriptLine::Left { site, event } => Ok(left_answer(world, site, event)),
        ScriptLine::Totals { site, event } => Ok(totals_answer(world, site, event)),
    }
}

/// Answers one line, without its line break. Where memory is wanting the world is as it was.
pub(crate) fn answer_line(
    world: &mut World,
    alloc: Global,
    line: &[u8],
) -> Result<ScriptAnswer, AllocError>
    ensures answer { IfOk result
        (λ answer. answer_to world.old (line_of line.now) ≡ (answer, world.new)) }
    ensures unchanged { OnErr result (world.new ≡ world.old) }
{
    match read_step(line) {
        Ok(line) => answer(world, alloc, line),
        Err(BadLine) => Ok(ScriptAnswer::Unread),
    }
}

//! The lines of totals at the end of a script.

ghost use Rattle.std.specs.Prelude.{◌≡◌, ◌≤◌, ◌<◌, Err, IfErr};
ghost use Rattle.std.specs.Io.KnownBytes.{Keeps};
ghost use Rattle.operator_cli.specs.declared.fault.ScriptFault.TheVariants.{Memory};
ghost use Rattle.plain_words.specs.Writing.{Writes};
ghost use Rattle.operator_cli.specs.Script.{total_line, total_lines};
ghost use Rattle.operator_cli.specs.Faults.{IsOutFault};

use crate::fault::ScriptFault;
use local_rights::Totals;
use plain_words::{Text, put, put_number, write_bytes};
use rights_lattice::Event;
use std::alloc::Global;
use std::io::Write;
use world_steps::World;

/// The line of an event with its sums.
pub(crate) fn total_line(event: Event, totals: Totals) -> Text
    requires { totals.refunded ≤ totals.sold }
    ensures { result.items ≡ total_line event totals }
{
    let mut text = Text::new();
    put(&mut text, event.bytes());
    put(&mut text, b" released ");
    put_number(&mut text, totals.released);
    put(&mut text, b" sold ");
    put_number(&mut text, totals.sold);
    put(&mut text, b" refunded ");
    put_number(&mut text, totals.refunded);
    put(&mut text, b" outstanding ");
    put_number(&mut text, totals.sold - totals.refunded);
    put(&mut text, b"\n");
    text
}

/// Writes a line for each event that a site knows, or after a fault a front of these lines.
pub(crate) fn write_totals<W: Write>(
    alloc: Global,
    world: &World,
    out: &mut W,
) -> Result<(), ScriptFault>
    ensures lines { Writes
        (W.contents out.old) (W.contents out.new) result (total_lines world.now) }
    ensures fault { IfErr result IsOutFault }
    ensures memory { result ≡ Err Memory → Keeps (W.contents out.old) (W.contents out.new) }
{
    let events = world.events(alloc)?;
    for event in &events {
        let line = total_line(*event, world.totals(*event));
        write_bytes(line.as_slice(), out)?;
    }
    Ok(())
}

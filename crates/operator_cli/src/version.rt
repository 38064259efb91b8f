//! The command `version`.

ghost use Rattle.std.specs.Prelude.{◌≡◌, ◌⊎◌, codes};
ghost use Rattle.std.specs.Io.KnownBytes.{Appends};
ghost use Rattle.plain_words.specs.Writing.{AppendsFront};
ghost use Rattle.operator_cli.specs.declared.status.Status.TheVariants.{Done, Failed};
ghost use Rattle.operator_cli.specs.CommandReply.{FaultTold};
ghost use Rattle.operator_cli.specs.Version.{version_lines};

use crate::ending::{ended, write_line};
use crate::status::Status;
use plain_words::word;
use std::io::Write;

/// Prints which program it is, in four lines: its name and version, the schema of its records, the toolchain that proves it,
/// and `proved`, since that toolchain builds no other.
///
/// A fault is told on `err`, with status 3, and a prefix may be printed.
pub fn tell_version<W: Write, E: Write>(out: &mut W, err: &mut E) -> Status
    ensures line { AppendsFront (W.contents out.old) (W.contents out.new) version_lines }
    ensures all { result ≡ Done
        → Appends (W.contents out.old) (W.contents out.new) version_lines }
    ensures told { FaultTold (E.contents err.old) (E.contents err.new) result }
    ensures status { (result ≡ Done) ⊎ (result ≡ Failed) }
{
    let lines = word(b"boxoffice 0.4.0\nschema 2\nrattle-kit-13 logic dac8208d650f15bf\nproved\n");
    match write_line(&lines, out) {
        Ok(()) => ended(Ok(Status::Done), out, err),
        Err(fault) => ended(Err(fault), out, err),
    }
}

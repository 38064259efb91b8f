//! Writing bytes, as far as the writer takes them.

ghost use Rattle.plain_words.specs.Writing.{Writes};

use std::io::Write;
use thiserror::Error;

/// A write that failed.
#[derive(Clone, Copy, Debug, PartialEq, Eq, Error)]
#[error("the writer failed")]
pub struct WriteFault;

/// Writes all of the bytes, or after a fault a front of them.
///
/// A writer that takes no byte, and one that was interrupted, have failed.
pub fn write_bytes<W: Write>(bytes: &[u8], out: &mut W) -> Result<(), WriteFault>
    ensures { Writes (W.contents out.old) (W.contents out.new) result bytes.now }
{
    let mut rest = bytes;
    while !rest.is_empty() {
        match out.write(rest) {
            Ok(0) => return Err(WriteFault),
            Ok(n) => rest = &rest[n..],
            Err(_) => return Err(WriteFault),
        }
    }
    Ok(())
}

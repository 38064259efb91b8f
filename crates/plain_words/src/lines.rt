//! Lines of at most 200 bytes, from any reader.

ghost use Rattle.plain_words.specs.Input.{ByteGives, LineGives, MoreGives};

use arrayvec::ArrayVec;
use std::io::BufRead;
use thiserror::Error;

/// The most bytes of a line, without its line break.
pub const LONGEST_LINE: usize = 200;

/// The bytes of one line, without its line break.
pub type LineBytes = ArrayVec<u8, LONGEST_LINE>;

/// Why no line was read.
#[derive(Clone, Copy, Debug, PartialEq, Eq, Error)]
pub enum LineFault {
    /// The reader failed, or was interrupted.
    #[error("the reader failed")]
    Read,
    /// The line has more than 200 bytes.
    #[error("the line is longer than 200 bytes")]
    LineTooLong,
}

/// A read that failed.
#[derive(Clone, Copy, Debug, PartialEq, Eq, Error)]
#[error("the reader failed")]
pub struct ReadFault;

// One byte, or None at the end.
fn read_byte<R: BufRead>(reader: &mut R) -> Result<Option<u8>, ReadFault>
    ensures { ByteGives (R.remaining reader.old) (R.remaining reader.new) result }
{
    let mut byte = [0u8; 1];
    match reader.read(&mut byte) {
        Err(_) => Err(ReadFault),
        Ok(0) => Ok(None),
        Ok(_) => Ok(Some(byte[0])),
    }
}

/// Reads the next line into `line`, without its line break: true where there is one, false at the
/// end of the input.
///
/// The bytes behind the last line break are a line unless there are none. After a fault `line` holds
/// what was read of it, and where it is too long the byte behind that was read too.
pub fn next_line<R: BufRead>(reader: &mut R, line: &mut LineBytes) -> Result<bool, LineFault>
    ensures { LineGives (R.remaining reader.old) (R.remaining reader.new) line.new.items result }
{
    line.clear();
    'bytes: loop {
        let byte = match read_byte(reader) {
            Err(ReadFault) => return Err(LineFault::Read),
            Ok(None) => {
                if line.is_empty() {
                    return Ok(false);
                }
                return Ok(true);
            }
            Ok(Some(byte)) => byte,
        };
        if byte == b'\n' {
            return Ok(true);
        }
        if line.is_full() {
            return Err(LineFault::LineTooLong);
        }
        line.push(byte);
    }
}

/// Whether another line begins. It takes the first byte of that line, and nothing where there is none or at a fault.
pub fn has_more<R: BufRead>(reader: &mut R) -> Result<bool, ReadFault>
    ensures { MoreGives (R.remaining reader.old) (R.remaining reader.new) result }
{
    let byte = read_byte(reader)?;
    Ok(byte.is_some())
}

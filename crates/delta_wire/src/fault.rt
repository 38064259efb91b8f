//! Why a text is not read as a message or a delta.
ghost use Rattle.std.specs.Prelude.{◌≡◌};
ghost use Rattle.delta_wire.specs.declared.fault.WireFault.TheVariants.{Memory};

use std::alloc::AllocError;
use thiserror::Error;

/// The first fault of a text from the top, or that memory was refused. Lines count from 1.
#[derive(Clone, Copy, Debug, PartialEq, Eq, Error)]
pub enum WireFault {
    /// No line feed follows the place where the next line begins.
    #[error("the text is cut short")]
    Truncated,
    /// The line is none of those that may stand there.
    #[error("line {line} cannot be read")]
    BadLine { line: u64 },
    /// A well-formed item that does not come after those above it.
    #[error("the item of line {line} is out of order")]
    OutOfOrder { line: u64 },
    /// Bytes follow the line `end`.
    #[error("bytes follow the end")]
    Trailing,
    /// Memory was refused.
    #[error("out of memory")]
    Memory,
}

impl From<AllocError> for WireFault {
    ghost from_gives = { λ _ e. e ≡ Memory };

    fn from(_error: AllocError) -> WireFault {
        WireFault::Memory
    }
}

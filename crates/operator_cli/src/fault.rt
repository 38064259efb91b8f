//! What ends a script early.

ghost use Rattle.std.specs.Prelude.{◌≡◌};
ghost use Rattle.operator_cli.specs.declared.fault.ScriptFault.TheVariants.{Read, Write, Memory};

use plain_words::{LineFault, ReadFault, WriteFault};
use std::alloc::AllocError;
use thiserror::Error;

/// What ends a script early.
#[derive(Clone, Copy, Debug, PartialEq, Eq, Error)]
pub enum ScriptFault {
    /// The reader failed, or was interrupted.
    #[error("the reader failed")]
    Read,
    /// The writer failed.
    #[error("the writer failed")]
    Write,
    /// A line has more than 200 bytes.
    #[error("a line is longer than 200 bytes")]
    LineTooLong,
    /// There are more than 1,000,000 lines.
    #[error("there are more than 1,000,000 lines")]
    TooManyLines,
    /// Memory was refused.
    #[error("out of memory")]
    Memory,
}

impl From<LineFault> for ScriptFault {
    ghost use Rattle.operator_cli.specs.Faults.{of_line_fault};
    ghost use Rattle.std.specs.Prelude.{◌≡◌};

    ghost from_gives = { λ line fault. fault ≡ of_line_fault line };

    fn from(fault: LineFault) -> ScriptFault {
        match fault {
            LineFault::Read => ScriptFault::Read,
            LineFault::LineTooLong => ScriptFault::LineTooLong,
        }
    }
}

impl From<ReadFault> for ScriptFault {
    ghost from_gives = { λ _ fault. fault ≡ Read };

    fn from(_fault: ReadFault) -> ScriptFault {
        ScriptFault::Read
    }
}

impl From<WriteFault> for ScriptFault {
    ghost from_gives = { λ _ fault. fault ≡ Write };

    fn from(_fault: WriteFault) -> ScriptFault {
        ScriptFault::Write
    }
}

impl From<AllocError> for ScriptFault {
    ghost from_gives = { λ _ fault. fault ≡ Memory };

    fn from(_fault: AllocError) -> ScriptFault {
        ScriptFault::Memory
    }
}

//! How sessions end.

ghost use Rattle.std.specs.Prelude.{◌≡◌};
ghost use Rattle.session_server.specs.declared.fault.TalkFault.TheVariants.{Read, Write};

use plain_words::{LineFault, ReadFault, WriteFault};
use thiserror::Error;

/// How a session ended.
#[derive(Clone, Copy, PartialEq, Eq, Debug)]
pub enum Ended {
    /// A line was `quit`.
    Quit,
    EndOfInput,
}

/// What broke a session off. What was answered stays entered.
#[derive(Clone, Copy, PartialEq, Eq, Debug, Error)]
pub enum TalkFault {
    #[error("the reader failed")]
    Read,
    #[error("the writer failed")]
    Write,
    #[error("there are more than 1,000,000 lines")]
    TooLong,
    #[error("a line is longer than 200 bytes")]
    LineTooLong,
    /// Nothing was read.
    #[error("out of memory")]
    Memory,
    /// The thread of a session could not be started. `talk` never tells this.
    #[error("the thread could not be started")]
    NotStarted,
}

impl From<LineFault> for TalkFault {
    ghost use Rattle.session_server.specs.Session.{of_line_fault};
    ghost use Rattle.std.specs.Prelude.{◌≡◌};

    ghost from_gives = { λ line fault. fault ≡ of_line_fault line };

    fn from(fault: LineFault) -> TalkFault {
        match fault {
            LineFault::Read => TalkFault::Read,
            LineFault::LineTooLong => TalkFault::LineTooLong,
        }
    }
}

impl From<ReadFault> for TalkFault {
    ghost from_gives = { λ _ fault. fault ≡ Read };

    fn from(_fault: ReadFault) -> TalkFault {
        TalkFault::Read
    }
}

impl From<WriteFault> for TalkFault {
    ghost from_gives = { λ _ fault. fault ≡ Write };

    fn from(_fault: WriteFault) -> TalkFault {
        TalkFault::Write
    }
}

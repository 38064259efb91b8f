//! What ends a command early.

ghost use Rattle.std.specs.Prelude.{◌≡◌, ◌++◌, ◌≤◌, length};
ghost use Rattle.arrayvec.specs.ArrayVec.{array_vec_len};
ghost use Rattle.std.specs.Fmt.{signed_decimal};
ghost use Rattle.plain_words.specs.Input.{longest_line};
ghost use Rattle.operator_cli.specs.CommandReply.{command_fault_text, command_fault_line};

use crate::fault::ScriptFault;
use live_office::{OfficeFault, SocketFault};
use plain_words::{Text, numbered, put, put_number, word};
use rights_lattice::SiteId;
use session_server::{ExchangeFault, ListenFault, TalkFault};
use site_desk::FinishFault;
use std::alloc::AllocError;

/// What ends a command early, and is told on standard error.
#[derive(Clone, Copy, Debug, PartialEq, Eq)]
pub(crate) enum CommandFault {
    /// The file holds no records of a site.
    NotOurs,
    /// The records are of another version.
    OtherSchema { version: i64 },
    /// The entry at this place is missing, unreadable or none that may stand there.
    Damaged { place: u64 },
    /// The database could not be read or written, or holds something else, or a transaction is open.
    Disk,
    /// Memory was refused.
    Memory,
    /// An entry could not be stored.
    Store,
    /// The input failed.
    Read,
    /// The output failed.
    Write,
    /// A line of a session or a script has more than 200 bytes.
    LineTooLong,
    /// A session or a script has more than 1,000,000 lines.
    TooManyLines,
    /// The port could not be taken.
    Bind,
    /// A connection could not be taken.
    Accept,
    /// A thread could not be started.
    NotStarted,
    /// The sessions of a site do not have all that was entered at it.
    SeatsOut,
    /// A site's receipt at this place, over all its sessions, is not in its history.
    Stranger { at: u64 },
    /// A site's look at this place, over all its sessions, does not show what its history says.
    StrangerSeen { at: u64 },
    /// The site's book is closed, since an entry could not be stored.
    Closed { site: SiteId },
    /// The path of an office's socket is too long.
    LongPath,
    /// Something else stands where an office's socket should.
    NoSocket,
    /// No office is open.
    NotOpen,
    /// The office is still open, though it was told to close.
    StillOpen,
    /// An office has the file open.
    AlreadyOpen,
    /// All places of the office are taken.
    Full,
    /// The file of the office is not the one that it holds.
    LostFile,
    /// The file is one of two copies, and was to be opened alone.
    OneOfTwo,
}

impl From<AllocError> for CommandFault {
    ghost use Rattle.std.specs.Prelude.{◌≡◌};
    ghost use Rattle.operator_cli.specs.declared.command_fault.CommandFault.TheVariants.{Memory};

    ghost from_gives = { λ _ fault. fault ≡ Memory };

    fn from(_fault: AllocError) -> CommandFault {
        CommandFault::Memory
    }
}

impl From<ScriptFault> for CommandFault {
    ghost use Rattle.std.specs.Prelude.{◌≡◌};
    ghost use Rattle.operator_cli.specs.Faults.{of_script_fault};

    ghost from_gives = { λ script fault. fault ≡ of_script_fault script };

    fn from(fault: ScriptFault) -> CommandFault {
        match fault {
            ScriptFault::Read => CommandFault::Read,
            ScriptFault::Write => CommandFault::Write,
            ScriptFault::LineTooLong => CommandFault::LineTooLong,
            ScriptFault::TooManyLines => CommandFault::TooManyLines,
            ScriptFault::Memory => CommandFault::Memory,
        }
    }
}

impl From<TalkFault> for CommandFault {
    ghost use Rattle.std.specs.Prelude.{◌≡◌};
    ghost use Rattle.operator_cli.specs.Session.{of_talk_fault};

    ghost from_gives = { λ talk fault. fault ≡ of_talk_fault talk };

    fn from(fault: TalkFault) -> CommandFault {
        match fault {
            TalkFault::Read => CommandFault::Read,
            TalkFault::Write => CommandFault::Write,
            TalkFault::TooLong => CommandFault::TooManyLines,
            TalkFault::LineTooLong => CommandFault::LineTooLong,
            TalkFault::Memory => CommandFault::Memory,
            TalkFault::NotStarted => CommandFault::NotStarted,
        }
    }
}

impl From<ListenFault> for CommandFault {
    ghost use Rattle.std.specs.Prelude.{◌≡◌};
    ghost use Rattle.operator_cli.specs.Serving.{of_listen_fault};

    ghost from_gives = { λ listen fault. fault ≡ of_listen_fault listen };

    fn from(fault: ListenFault) -> CommandFault {
        match fault {
            ListenFault::Bind => CommandFault::Bind,
            ListenFault::Accept => CommandFault::Accept,
            ListenFault::Memory => CommandFault::Memory,
        }
    }
}

impl From<SocketFault> for CommandFault {
    ghost use Rattle.std.specs.Prelude.{◌≡◌};
    ghost use Rattle.operator_cli.specs.Offices.{of_socket_fault};

    ghost from_gives = { λ socket fault. fault ≡ of_socket_fault socket };

    fn from(fault: SocketFault) -> CommandFault {
        match fault {
            SocketFault::Path => CommandFault::LongPath,
            SocketFault::NotASocket => CommandFault::NoSocket,
            SocketFault::Bind => CommandFault::Bind,
        }
    }
}

impl From<OfficeFault> for CommandFault {
    ghost use Rattle.std.specs.Prelude.{◌≡◌};
    ghost use Rattle.operator_cli.specs.Offices.{of_office_fault};

    ghost from_gives = { λ office fault. fault ≡ of_office_fault office };

    fn from(fault: OfficeFault) -> CommandFault {
        match fault {
            OfficeFault::Memory => CommandFault::Memory,
            OfficeFault::NotStarted => CommandFault::NotStarted,
        }
    }
}

impl From<ExchangeFault> for CommandFault {
    ghost use Rattle.std.specs.Prelude.{◌≡◌};
    ghost use Rattle.operator_cli.specs.Serving.{of_exchange_fault};

    ghost from_gives = { λ exchange fault. fault ≡ of_exchange_fault exchange };

    fn from(fault: ExchangeFault) -> CommandFault {
        match fault {
            ExchangeFault::Memory => CommandFault::Memory,
            ExchangeFault::NotStarted => CommandFault::NotStarted,
        }
    }
}

impl From<FinishFault> for CommandFault {
    ghost use Rattle.std.specs.Prelude.{◌≡◌};
    ghost use Rattle.operator_cli.specs.Serving.{of_finish_fault};

    ghost from_gives = { λ finish fault. fault ≡ of_finish_fault finish };

    fn from(fault: FinishFault) -> CommandFault {
        match fault {
            FinishFault::SeatsOut => CommandFault::SeatsOut,
            FinishFault::Stranger { at } => CommandFault::Stranger { at: at as u64 },
            FinishFault::StrangerSeen { at } => CommandFault::StrangerSeen { at: at as u64 },
        }
    }
}

// A number that may be negative, after a word.
fn signed(bytes: &[u8], number: i64) -> Text
    requires { length bytes.now ≤ 100 }
    ensures value { result.items ≡ bytes.now ++ signed_decimal number }
    ensures len { array_vec_len result ≤ longest_line }
{
    let mut text = word(bytes);
    if number < 0 {
        put(&mut text, b"-");
    }
    put_number(&mut text, number.unsigned_abs());
    text
}

fn command_fault_text(fault: CommandFault) -> Text
    ensures value { result.items ≡ command_fault_text fault }
    ensures len { array_vec_len result ≤ longest_line }
{
    match fault {
        CommandFault::NotOurs => word(b"not-ours"),
        CommandFault::OtherSchema { version } => signed(b"other-schema ", version),
        CommandFault::Damaged { place } => numbered(b"damaged ", place),
        CommandFault::Disk => word(b"disk"),
        CommandFault::Memory => word(b"memory"),
        CommandFault::Store => word(b"store"),
        CommandFault::Read => word(b"read"),
        CommandFault::Write => word(b"write"),
        CommandFault::LineTooLong => word(b"line-too-long"),
        CommandFault::TooManyLines => word(b"too-many-lines"),
        CommandFault::Bind => word(b"bind"),
        CommandFault::Accept => word(b"accept"),
        CommandFault::NotStarted => word(b"not-started"),
        CommandFault::SeatsOut => word(b"seats-out"),
        CommandFault::Stranger { at } => numbered(b"stranger ", at),
        CommandFault::StrangerSeen { at } => numbered(b"stranger-seen ", at),
        CommandFault::Closed { site } => numbered(b"closed ", site.number()),
        CommandFault::LongPath => word(b"long-path"),
        CommandFault::NoSocket => word(b"no-socket"),
        CommandFault::NotOpen => word(b"not-open"),
        CommandFault::StillOpen => word(b"still-open"),
        CommandFault::AlreadyOpen => word(b"already-open"),
        CommandFault::Full => word(b"full"),
        CommandFault::LostFile => word(b"lost-file"),
        CommandFault::OneOfTwo => word(b"one-of-two"),
    }
}

/// The line that names the cause on standard error.
pub(crate) fn command_fault_line(fault: CommandFault) -> Text
    ensures { result.items ≡ command_fault_line fault }
{
    let mut text = command_fault_text(fault);
    put(&mut text, b"\n");
    text
}

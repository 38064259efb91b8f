//! What a command over records tells in one line of standard output.

ghost use Rattle.std.specs.Prelude.{◌≡◌, ◌≤◌, ◌++◌, IfOk, IfErr, codes};
ghost use Rattle.std.specs.Fmt.{decimal};
ghost use Rattle.arrayvec.specs.ArrayVec.{array_vec_len};
ghost use Rattle.plain_words.specs.Input.{longest_line};
ghost use Rattle.plain_words.specs.Writing.{Writes};
ghost use Rattle.operator_cli.specs.CommandReply.{told_text, told_line, told_status, ended_by_wire, ended_by_audit};
ghost use Rattle.operator_cli.specs.declared.command_fault.CommandFault.TheVariants.{Write as WriteFailed};

use crate::command_fault::CommandFault;
use crate::status::Status;
use book_core::GrowFault;
use delta_wire::WireFault;
use desk_lines::{grow_fault_text, reply_text, take_fault_text, wire_fault_text};
use plain_words::{Text, numbered, put, put_number, word, write_bytes};
use request_ledger::Reply;
use rights_lattice::SiteId;
use site_exchange::TakeFault;
use std::io::Write;
use world_steps::AuditFault;

/// What a command tells.
#[derive(Clone, Copy, Debug)]
pub(crate) enum CommandReply {
    /// The records are made.
    Made,
    /// The records have the schema of this program now.
    Migrated,
    /// The message brought something new.
    Joined,
    /// The message brought what was known.
    NothingNew,
    /// The message was an acknowledgement.
    Acked,
    /// A table or view has the name of one of ours already.
    AlreadyThere,
    /// The site is not there, or would send to itself.
    NoSite,
    /// There is nothing to send, or to migrate.
    Nothing,
    /// Nothing was found.
    NotFound,
    /// The event is not known.
    Unknown,
    /// The input is longer than a message may be.
    TooLong,
    /// The input is no message.
    Unread(WireFault),
    /// The message is refused.
    NotTaken(TakeFault),
    /// The files are not those of all sites, in their order.
    NotWhole,
    /// A site shows more of another's row than that site does.
    Ahead { viewer: SiteId, owner: SiteId },
    /// The site counts more sites.
    Grown,
    /// It counts as many as before.
    NotGrown(GrowFault),
    /// The file is one of two copies, and the other is made.
    Paired,
    /// The file is one of two no longer.
    Alone,
    /// The file is not one of two copies.
    NotPaired,
    /// The two files are of different sites.
    OtherSite,
    /// Two copies have different entries at this place.
    Differs { place: u64 },
    /// Both paths lead to the same file.
    SameFile,
}

fn ahead_text(viewer: SiteId, owner: SiteId) -> Text
    ensures value { result.items ≡ codes "ahead " ++ decimal viewer ++ codes " " ++ decimal owner }
    ensures len { array_vec_len result ≤ longest_line }
{
    let mut text = numbered(b"ahead ", viewer.number());
    put(&mut text, b" ");
    put_number(&mut text, owner.number());
    text
}

fn told_text(told: &CommandReply) -> Text
    ensures value { result.items ≡ told_text told.now }
    ensures len { array_vec_len result ≤ longest_line }
{
    match told {
        CommandReply::Made => reply_text(Reply::Done),
        CommandReply::Migrated => word(b"migrated"),
        CommandReply::Joined => word(b"joined"),
        CommandReply::NothingNew => word(b"nothing-new"),
        CommandReply::Acked => word(b"acked"),
        CommandReply::AlreadyThere => word(b"already-there"),
        CommandReply::NoSite => reply_text(Reply::NoSite),
        CommandReply::Nothing => word(b"nothing"),
        CommandReply::NotFound => word(b"none"),
        CommandReply::Unknown => word(b"unknown"),
        CommandReply::TooLong => word(b"too-long"),
        CommandReply::Unread(fault) => wire_fault_text(*fault),
        CommandReply::NotTaken(fault) => take_fault_text(*fault),
        CommandReply::NotWhole => word(b"not-whole"),
        CommandReply::Ahead { viewer, owner } => ahead_text(*viewer, *owner),
        CommandReply::Grown => word(b"grown"),
        CommandReply::NotGrown(fault) => grow_fault_text(*fault),
        CommandReply::Paired => word(b"paired"),
        CommandReply::Alone => word(b"alone"),
        CommandReply::NotPaired => word(b"not-paired"),
        CommandReply::OtherSite => word(b"other-site"),
        CommandReply::Differs { place } => numbered(b"differs ", *place),
        CommandReply::SameFile => word(b"same-file"),
    }
}

fn told_status(told: &CommandReply) -> Status
    ensures { result ≡ told_status told.now }
{
    match told {
        CommandReply::Made
        | CommandReply::Migrated
        | CommandReply::Joined
        | CommandReply::NothingNew
        | CommandReply::Acked
        | CommandReply::Grown
        | CommandReply::Paired
        | CommandReply::Alone => Status::Done,
        _ => Status::Refused,
    }
}

/// Writes the line of what is told, and answers the status that goes with it; `Write` where it could not, with a front of
/// the line.
pub(crate) fn tell<W: Write>(told: &CommandReply, out: &mut W) -> Result<Status, CommandFault>
    ensures written { Writes (W.contents out.old) (W.contents out.new) result (told_line told.now) }
    ensures status { IfOk result (λ status. status ≡ told_status told.now) }
    ensures fault { IfErr result (λ fault. fault ≡ WriteFailed) }
{
    let mut text = told_text(told);
    put(&mut text, b"\n");
    match write_bytes(text.as_slice(), out) {
        Ok(()) => Ok(told_status(told)),
        Err(_) => Err(CommandFault::Write),
    }
}

/// What an input that was not read as a message comes to.
pub(crate) fn ended_by_wire(fault: WireFault) -> Result<CommandReply, CommandFault>
    ensures { result ≡ ended_by_wire fault }
{
    match fault {
        WireFault::Memory => Err(CommandFault::Memory),
        _ => Ok(CommandReply::Unread(fault)),
    }
}

/// What an audit that lists nothing comes to.
pub(crate) fn ended_by_audit(fault: AuditFault) -> Result<CommandReply, CommandFault>
    ensures { result ≡ ended_by_audit fault }
{
    match fault {
        AuditFault::NotWhole => Ok(CommandReply::NotWhole),
        AuditFault::Ahead { viewer, owner } => Ok(CommandReply::Ahead { viewer, owner }),
        AuditFault::Memory => Err(CommandFault::Memory),
    }
}

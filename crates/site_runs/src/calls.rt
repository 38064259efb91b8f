//! The calls of a run that a contract of the books does not name: a start, and what is given.
ghost use Rattle.std.specs.Prelude.{◌≡◌, ◌<◌, List, [], IfOk, IfErr};
ghost use Rattle.book_core.specs.Replay.{IsReplayFault};
ghost use Rattle.site_exchange.specs.declared.message.Message.{Message as Sent};
ghost use Rattle.history_keeper.specs.Meta.{office_of};
ghost use Rattle.site_desk.specs.Answers.{ack_of};
ghost use Rattle.site_desk.specs.Storing.{IsStarted};
ghost use Rattle.site_runs.specs.Moving.{IsRestart};
ghost use Rattle.site_runs.specs.Runs.{Gives, Happens, IsNew};

use book_core::{Entry, ReplayFault};
use history_keeper::{Keeper, Meta};
use rights_lattice::SiteId;
use site_desk::{NextFault, SiteBook, Taken};
use site_exchange::Message;
use std::alloc::{AllocError, Global};

/// Another message that says the same.
pub fn copied(alloc: Global, message: &Message) -> Result<Message, AllocError>
    ensures { IfOk result (λ other. other ≡ message.now) }
{
    match message {
        Message::Delta {
            by,
            to,
            upto,
            delta,
        } => Ok(Message::Delta {
            by: *by,
            to: *to,
            upto: *upto,
            delta: delta.copy(alloc)?,
        }),
        Message::Ack { by, to, upto } => Ok(Message::Ack {
            by: *by,
            to: *to,
            upto: *upto,
        }),
    }
}

/// The message that is due to a peer.
pub fn give<K: Keeper>(
    book: &mut SiteBook<K>,
    alloc: Global,
    to: SiteId,
) -> Result<Option<Message>, NextFault>
    ensures { (given : List Sent)
        → Happens K.Keeper
        given book.old (Gives to result) book.new }
{
    book.next(alloc, to)
}

/// The acknowledgement that a message taken gives, if any.
pub fn acknowledgement(taken: Taken) -> Option<Message>
    ensures { result ≡ ack_of taken }
{
    match taken {
        Taken::Joined { ack } | Taken::NothingNew { ack } => Some(ack),
        Taken::Acked => None,
    }
}

/// A start of the same site from what a crash left. An error gives the keeper back as it was.
pub fn restart<K: Keeper>(
    alloc: Global,
    keeper: K,
    entries: Vec<Entry>,
    meta: Meta,
) -> Result<SiteBook<K>, (K, ReplayFault)>
    requires site { meta.me < meta.sites }
    requires sound { K.failed keeper ≡ 0 }
    requires kept { K.is_trusted keeper → entries.items ≡ K.kept keeper }
    ensures restarts { IfOk result (IsRestart K.Keeper entries.items meta) }
    ensures fault { IfErr result
        (λ e. (e.0 ≡ keeper) × IsReplayFault (office_of meta) entries.items e.1) }
{
    SiteBook::start(alloc, keeper, entries, meta)
}

/// A site of which there are no entries. An error gives the keeper back as it was.
pub fn begin<K: Keeper>(
    alloc: Global,
    keeper: K,
    meta: Meta,
) -> Result<SiteBook<K>, (K, ReplayFault)>
    requires site { meta.me < meta.sites }
    requires sound { K.failed keeper ≡ 0 }
    requires kept { K.is_trusted keeper → K.kept keeper ≡ [] }
    ensures started { IfOk result (IsStarted K.Keeper
        keeper [] meta) }
    ensures new { IfOk result (IsNew K.Keeper
        meta.me) }
    ensures fault { IfErr result (λ e. (e.0 ≡ keeper) × IsReplayFault (office_of meta) [] e.1) }
{
    let _me = meta.me.number();
    let _sites = meta.sites.count();
    SiteBook::start(alloc, keeper, Vec::new(alloc), meta)
}

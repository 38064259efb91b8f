//! What a request, a peer's delta or a count of sites leads to, before it is entered.
ghost use Rattle.std.specs.Prelude.{◌≡◌};
ghost use Rattle.book_core.specs.Plans.{HasReply, IsAsked};

use crate::entry::Entry;
use request_ledger::Reply;
use rights_lattice::Mark;
use std::marker::Model;
use thiserror::Error;

/// An entry that may follow the history of the book that planned it, and that this book had room for then.
#[derive(Debug, Drop)]
pub struct Planned {
    pub(crate) entry: Entry,
}

impl Model for Planned {
    ghost use Rattle.book_core.specs.declared.entry.Entry.{Entry};
    ghost use Rattle.book_core.specs.BookCode.{coded_entry};

    ghost Value = { Entry };

    ghost coded = { coded_entry };

    ghost view = { λ p. p.entry };
}

impl Planned {
    /// The entry that is planned.
    pub fn entry(&self) -> &Entry
        ensures { result.now ≡ self.now }
    {
        &self.entry
    }

    /// The reply to the request whose entry is planned.
    pub fn reply(&self) -> Reply
        requires { IsAsked self.now }
        ensures { HasReply self.now result }
    {
        match &self.entry {
            Entry::Asked { reply, .. } => *reply,
            Entry::Joined { .. } | Entry::Grown { .. } => unreachable!(),
        }
    }
}

/// What a request leads to.
#[derive(Debug, Drop)]
pub enum Plan {
    /// The same request was decided under this number before, at this place of the history.
    Again { place: usize, reply: Reply },
    /// A new entry.
    New(Planned),
}

/// Why a request leads to nothing.
#[derive(Clone, Copy, PartialEq, Eq, Debug, Error)]
pub enum PlanFault {
    /// Another request was decided under this number, at this place of the history.
    #[error("the number was used for another request")]
    Reused { place: usize },
    /// The history is as long as it may become.
    #[error("the history is full")]
    Full,
    /// Memory was refused to a new entry. The book shows what it showed, and may have more room.
    #[error("out of memory")]
    Memory,
}

/// What a peer's delta leads to.
#[derive(Debug, Drop)]
pub enum JoinPlan {
    /// The state has all of it.
    NothingNew,
    /// A new entry.
    New(Planned),
}

/// What a site does with a peer's delta.
#[derive(Clone, Copy, PartialEq, Eq, Debug)]
pub enum JoinDecision {
    /// It becomes a new entry, where memory suffices.
    Joins,
    /// The state has all of it.
    NothingNew,
    /// It is not joined, and nothing changes.
    Refuses(JoinFault),
}

/// Why a peer's delta is not joined.
#[derive(Clone, Copy, PartialEq, Eq, Debug, Error)]
pub enum JoinFault {
    /// The peer is no other site of this book, or a mark names a site past the count.
    #[error("the peer is no other site, or a cell names a site past the count")]
    UnknownSite,
    /// This mark, the first such, is of the book's own row and above its own value.
    #[error("the delta is above this site's own row")]
    ForeignRow { mark: Mark },
    /// The history is as long as it may become.
    #[error("the history is full")]
    Full,
    /// Memory was refused to a delta that joins. The book shows what it showed, and may have more room.
    #[error("out of memory")]
    Memory,
}

/// Why a site does not count more sites. A plan tells the second to the fourth; the others are of a book and its keeper.
#[derive(Clone, Copy, PartialEq, Eq, Debug, Error)]
pub enum GrowFault {
    /// The keeper failed before, and the book answers no more.
    #[error("the book is closed")]
    Closed,
    /// The count is no more than the count so far.
    #[error("the count is no more than before")]
    NotMore,
    /// The history is as long as it may become.
    #[error("the history is full")]
    Full,
    /// Memory was refused to a growth. The book shows what it showed, and may have more room.
    #[error("out of memory")]
    Memory,
    /// The keeper failed: the growth is not known to be kept, and the book is closed.
    #[error("the entry could not be stored")]
    Store,
}

/// Why no book was made of a list of entries.
#[derive(Clone, Copy, PartialEq, Eq, Debug, Error)]
pub enum ReplayFault {
    /// The entry at this place, from 0, is the first that may not follow those before it.
    #[error("the entry at place {place} is not legal")]
    IllegalAt { place: usize },
    /// Memory was refused to an entry that may follow those before it.
    #[error("out of memory")]
    Memory,
}

//! Messages, and why one is not taken.
use crate::upto::Upto;
use book_core::JoinFault;
use delta_mutators::Delta;
use rights_lattice::{Mark, SiteId};
use std::alloc::AllocError;
use thiserror::Error;

/// What one site sends to another.
#[derive(Debug, Drop)]
pub enum Message {
    /// What `by` has and `to` has not acknowledged, up to this length of the history of `by`.
    Delta {
        by: SiteId,
        to: SiteId,
        upto: Upto,
        delta: Delta,
    },
    /// That `by` has the deltas of the entries of `to` up to this length of its history.
    Ack {
        by: SiteId,
        to: SiteId,
        upto: Upto,
    },
}

/// Why a message is not looked at.
#[derive(Clone, Copy, PartialEq, Eq, Debug, Error)]
pub enum CheckFault {
    /// It is to another site, or from this one.
    #[error("the message is to another site, or from this one")]
    NotForMe,
    /// It is from no site of the book.
    #[error("the message is from no site of the book")]
    UnknownSite,
    /// It acknowledges more than the `len` entries that there are.
    #[error("the message acknowledges more than the {len} entries that there are")]
    StrayAck { len: usize },
}

/// Why a message is not taken. All but `Store` change nothing, though behind `Memory` there may be more room.
#[derive(Clone, Copy, PartialEq, Eq, Debug, Error)]
pub enum TakeFault {
    /// It is to another site, or from this one.
    #[error("the message is to another site, or from this one")]
    NotForMe,
    /// It is from no site of the book, or its delta names a site that is not one.
    #[error("the message is from no site of the book")]
    UnknownSite,
    /// It acknowledges more than the `len` entries that there are.
    #[error("the message acknowledges more than the {len} entries that there are")]
    StrayAck { len: usize },
    /// This mark is of the site's own row and above its own value.
    #[error("the delta is above this site's own row")]
    ForeignRow { mark: Mark },
    /// The history is as long as it may become.
    #[error("the history is full")]
    Full,
    /// Room was wanted and refused.
    #[error("out of memory")]
    Memory,
    /// The book takes nothing more until it is started again from its records.
    #[error("the book is closed")]
    Closed,
    /// The entry is not known to be kept, and the book is closed.
    #[error("the records failed")]
    Store,
}

impl From<CheckFault> for TakeFault {
    ghost use Rattle.std.specs.Prelude.{◌≡◌};
    ghost use Rattle.site_exchange.specs.Exchange.{unchecked};

    ghost from_gives = { λ check take. take ≡ unchecked check };

    fn from(fault: CheckFault) -> TakeFault {
        match fault {
            CheckFault::NotForMe => TakeFault::NotForMe,
            CheckFault::UnknownSite => TakeFault::UnknownSite,
            CheckFault::StrayAck { len } => TakeFault::StrayAck { len },
        }
    }
}

impl From<AllocError> for TakeFault {
    ghost use Rattle.std.specs.Prelude.{◌≡◌};
    ghost use Rattle.site_exchange.specs.declared.message.TakeFault.TheVariants.{Memory};

    ghost from_gives = { λ _ fault. fault ≡ Memory };

    fn from(_error: AllocError) -> TakeFault {
        TakeFault::Memory
    }
}

impl From<JoinFault> for TakeFault {
    ghost use Rattle.std.specs.Prelude.{◌≡◌};
    ghost use Rattle.site_exchange.specs.Exchange.{unjoined};

    ghost from_gives = { λ join take. take ≡ unjoined join };

    fn from(fault: JoinFault) -> TakeFault {
        match fault {
            JoinFault::UnknownSite => TakeFault::UnknownSite,
            JoinFault::ForeignRow { mark } => TakeFault::ForeignRow { mark },
            JoinFault::Full => TakeFault::Full,
            JoinFault::Memory => TakeFault::Memory,
        }
    }
}

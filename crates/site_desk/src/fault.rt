//! Why a site's book does not answer.
use std::alloc::AllocError;
use thiserror::Error;

/// Why a request is not answered. All but `Store` change nothing, though behind `Memory` there may be more room.
#[derive(Clone, Copy, PartialEq, Eq, Debug, Error)]
pub enum AskFault {
    /// The book takes nothing more until it is started again from what was kept.
    #[error("the book is closed")]
    Closed,
    /// Another request was decided under this number, at this place of the history.
    #[error("the number was used for another request")]
    Reused { place: usize },
    /// The history is as long as it may become.
    #[error("the history is full")]
    Full,
    /// Room was wanted and refused.
    #[error("out of memory")]
    Memory,
    /// The entry is not known to be kept, and the book is closed.
    #[error("the records failed")]
    Store,
}

/// Why it is not answered which message is due, if any. None changes the history or what was acknowledged.
#[derive(Clone, Copy, PartialEq, Eq, Debug, Error)]
pub enum NextFault {
    /// The book takes nothing more until it is started again from what was kept.
    #[error("the book is closed")]
    Closed,
    /// The site is not another one of those that the book counts so far.
    #[error("there is no such other site")]
    NoSite,
    /// Room was wanted and refused.
    #[error("out of memory")]
    Memory,
}

impl From<AllocError> for NextFault {
    ghost use Rattle.std.specs.Prelude.{◌≡◌};
    ghost use Rattle.site_desk.specs.declared.fault.NextFault.TheVariants.{Memory};

    ghost from_gives = { λ _ fault. fault ≡ Memory };

    fn from(_error: AllocError) -> NextFault {
        NextFault::Memory
    }
}

/// Why nothing is told of the requests in the history.
#[derive(Clone, Copy, PartialEq, Eq, Debug, Error)]
pub enum LookUpFault {
    /// The book takes nothing more until it is started again from what was kept.
    #[error("the book is closed")]
    Closed,
    /// Room was wanted and refused.
    #[error("out of memory")]
    Memory,
}

impl From<AllocError> for LookUpFault {
    ghost use Rattle.std.specs.Prelude.{◌≡◌};
    ghost use Rattle.site_desk.specs.declared.fault.LookUpFault.TheVariants.{Memory};

    ghost from_gives = { λ _ fault. fault ≡ Memory };

    fn from(_error: AllocError) -> LookUpFault {
        LookUpFault::Memory
    }
}

/// Why nothing is shown of an event.
#[derive(Clone, Copy, PartialEq, Eq, Debug, Error)]
pub enum LookFault {
    /// The book takes nothing more until it is started again from what was kept.
    #[error("the book is closed")]
    Closed,
    /// The event was announced neither here nor in a delta that was joined.
    #[error("the event is not known")]
    Unknown,
}

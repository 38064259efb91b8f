//! Steps of the sites, and what they are answered.
use book_core::{GrowFault, PlanFault};
use request_ledger::{Reply, Request, RequestNumber};
use rights_lattice::{SiteId, Sites};
use site_exchange::TakeFault;
use std::alloc::AllocError;
use thiserror::Error;

/// What a site had in hand when it stopped.
#[derive(Clone, Copy, PartialEq, Eq, Debug)]
pub enum Input {
    /// A request under its number.
    Request {
        number: RequestNumber,
        request: Request,
    },
    /// The message with this index in the list of all messages ever sent.
    Take {
        message: usize,
    },
    /// A growth to so many sites.
    Grow {
        sites: Sites,
    },
}

/// One step of one site, or of the messages between sites.
#[derive(Clone, Copy, PartialEq, Eq, Debug)]
pub enum Step {
    /// Asks a site under a request number of its own.
    Ask {
        site: SiteId,
        number: RequestNumber,
        request: Request,
    },
    /// Puts what is due to a peer at the end of the list of all messages ever sent.
    Send {
        by: SiteId,
        to: SiteId,
    },
    /// Gives a message that was sent to its receiver, again and in any order.
    Deliver {
        index: usize,
    },
    /// Starts a site anew from its history: nothing counts as acknowledged.
    Restart {
        site: SiteId,
    },
    /// Stops a site in the midst of an input and starts it anew; the entry that the input adds is stored or not.
    Stop {
        site: SiteId,
        input: Input,
        stored: bool,
    },
    /// Has a site count so many sites, where they are more than before and its history is not full. Those that are not
    /// there yet are then added, each empty, with that count and with the limit of the site that grew.
    Grow {
        site: SiteId,
        sites: Sites,
    },
}

/// What a step was answered.
#[derive(Clone, Copy, PartialEq, Eq, Debug)]
pub enum Outcome {
    /// The reply that is kept under the number, now or from before.
    Answered(Reply),
    /// No reply, and nothing changed.
    Refused(PlanFault),
    /// The message with this index was sent.
    Sent { index: usize },
    /// The peer has acknowledged all.
    NothingToSend,
    /// The delta was joined; its acknowledgement has this index.
    Joined { ack: usize },
    /// The site had all of the delta; its acknowledgement has this index.
    NothingNew { ack: usize },
    /// The acknowledgement was taken.
    Acked,
    /// The message was not taken, and nothing changed.
    NotTaken(TakeFault),
    /// The site started anew.
    Restarted,
    /// The site stopped and started anew.
    Stopped,
    /// The site counts so many sites.
    Grown,
    /// The site counts as many sites as before, and nothing changed.
    NotGrown(GrowFault),
}

/// Why a step was not made.
#[derive(Clone, Copy, PartialEq, Eq, Debug, Error)]
pub enum WorldFault {
    /// The site of the step, or the peer of its send, is not there, or it would send to itself or to a site that it does
    /// not count. A cession to a site that is not there is not this: the site that cedes answers it.
    #[error("no such site")]
    NoSite,
    /// No message with this index was ever sent.
    #[error("no such message")]
    NoMessage,
    /// Memory was refused. `World::step` tells it only of a new request, a send where something is due, a delivery where
    /// an acknowledgement is due or one is taken that raises a number, a growth, and a stop that stores a new entry;
    /// `World::run` of any step that is due neither `NoSite` nor `NoMessage`, since it makes room for the answer first.
    #[error("out of memory")]
    Memory,
}

impl From<AllocError> for WorldFault {
    ghost use Rattle.std.specs.Prelude.{◌≡◌};
    ghost use Rattle.world_steps.specs.declared.step.WorldFault.TheVariants.{Memory};

    ghost from_gives = { λ _ fault. fault ≡ Memory };

    fn from(_error: AllocError) -> WorldFault {
        WorldFault::Memory
    }
}

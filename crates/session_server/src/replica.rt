//! A desk as its links see it.

ghost use Rattle.std.specs.Prelude.{◌≡◌, ℕ, IfErr, IfOk, IfSome};
ghost use Rattle.site_exchange.specs.Exchange.{ack_for, receiver};
ghost use Rattle.site_exchange.specs.declared.message.Message.{Message};

use history_keeper::Keeper;
use rights_lattice::SiteId;
use site_desk::{Desk, Opens, Taken};
use site_exchange::Message;
use std::alloc::Global;
use std::sync::Wait;

// Why a message was not taken: links count it, and no more.
#[derive(Clone, Copy, PartialEq, Eq, Debug)]
pub(crate) struct Refused;

// A replica that threads share, of which messages are asked and to which they come.
pub(crate) trait Replica {
    // It may hold what this message brings, may refuse this one, and may give this one for that peer.
    ghost holds: { Message → Type 0 };

    ghost refuses: { Message → Type 0 };

    ghost gives: { ℕ → Message → Type 0 };

    // The message that is due to a peer, if there is one and it could be made.
    fn next<R: Wait>(&self, rt: &R, to: SiteId) -> Option<Message>
        ensures to { IfSome result (λ message. receiver message ≡ to) }
        ensures given { IfSome result (λ message. gives to message) };

    // Takes a message, and gives the acknowledgement that is due for it.
    fn take<R: Wait>(&self, rt: &R, message: Message) -> Result<Option<Message>, Refused>
        ensures due { IfOk result (λ ack. ack ≡ ack_for message) }
        ensures held { IfOk result (λ _. holds message) }
        ensures refused { IfErr result (λ _. refuses message) };
}

// The replica behind a desk.
#[derive(Drop)]
pub(crate) struct DeskReplica<'a, K: Keeper, L: Opens> {
    pub(crate) alloc: Global,
    pub(crate) desk: &'a Desk<K, L>,
}

impl<'a, K: Keeper, L: Opens> Replica for DeskReplica<'a, K, L> {
    ghost use Rattle.site_desk.specs.SiteView.{SiteInStep};
    ghost use Rattle.session_server.specs.Exchanged.{given_at_desk, held_at_desk, refused_at_desk};

    ghost holds = { held_at_desk L.office L.began (SiteInStep K.Keeper) };

    ghost refuses = { refused_at_desk L.office L.began (SiteInStep K.Keeper) K.failed };

    ghost gives = { given_at_desk L.office L.began (SiteInStep K.Keeper) };

    fn next<R: Wait>(&self, rt: &R, to: SiteId) -> Option<Message> {
        match self.desk.next(rt, self.alloc, to) {
            Ok(message) => message,
            Err(_) => None,
        }
    }

    fn take<R: Wait>(&self, rt: &R, message: Message) -> Result<Option<Message>, Refused> {
        match self.desk.take(rt, message) {
            Ok(Taken::Joined { ack } | Taken::NothingNew { ack }) => Ok(Some(ack)),
            Ok(Taken::Acked) => Ok(None),
            Err(_) => Err(Refused),
        }
    }
}

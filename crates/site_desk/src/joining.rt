//! Peers' deltas at an open book.
ghost use Rattle.std.specs.Prelude.{◌≡◌, ◌≢◌, ℕ, List, Some, IfOk, IfErr, OnOk, false};
ghost use Rattle.rights_lattice.specs.declared.cell.Cell.{Cell};
ghost use Rattle.rights_lattice.specs.Cell.{owner_of};
ghost use Rattle.book_core.specs.Joining.{entry_of_join, join_decision};
ghost use Rattle.book_core.specs.OwnRow.{HasOwnRights, cell_in};
ghost use Rattle.site_exchange.specs.Exchange.{Joins, verdict_of};
ghost use Rattle.site_desk.specs.Answers.{IsTaken, IsTakeFault};
ghost use Rattle.site_desk.specs.Storing.{Enters, IsStoredBy};

use crate::answer::Taken;
use crate::storing::store;
use book_core::{Book, JoinPlan};
use delta_mutators::Delta;
use history_keeper::Keeper;
use rights_lattice::SiteId;
use site_exchange::{Message, TakeFault};

// Joins a peer's delta, where it holds something new, and answers its acknowledgement.
pub(crate) fn join<K: Keeper>(
    book: &mut Book,
    keeper: &mut K,
    peer: SiteId,
    delta: Delta,
    ack: Message,
) -> Result<Taken, TakeFault>
    requires { IsStoredBy K.Keeper
        keeper.old book.old.history }
    ensures enters { Enters K.Keeper
        book.old book.new keeper.old keeper.new
        (entry_of_join book.old.office book.old.history peer delta) TakeFault.Store result }
    ensures taken { IfOk result (IsTaken (verdict_of (join_decision book.old.office book.old.history
        peer delta)) (Some ack)) }
    ensures fault { let v = verdict_of (join_decision book.old.office book.old.history peer delta)
        in IfErr result (IsTakeFault false v (v ≡ Joins) (K.failed keeper.old) (K.failed
        keeper.new)) }
    ensures still { verdict_of (join_decision book.old.office book.old.history peer delta) ≢ Joins
        → book.new ≡ book.old }
    ensures again { OnOk result (verdict_of (join_decision book.old.office book.old.history peer
        delta) ≢ Joins → keeper.new ≡ keeper.old) }
    ensures own_row { (event : List ℕ) (cell : Cell) → owner_of cell ≡ book.old.office.me
        → cell_in book.new event cell ≡ cell_in book.old event cell }
    ensures has_rights { HasOwnRights book.new }
{
    match book.plan_join(peer, delta) {
        Ok(JoinPlan::NothingNew) => Ok(Taken::NothingNew { ack }),
        Ok(JoinPlan::New(planned)) => match store(book, keeper, planned) {
            Ok(()) => Ok(Taken::Joined { ack }),
            Err(_) => Err(TakeFault::Store),
        },
        Err(refused) => {
            let (_delta, fault) = refused;
            Err(TakeFault::from(fault))
        }
    }
}

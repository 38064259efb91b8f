//! The mark of one operation, or the name that it announces: to join a state of that alone is to apply the operation.
ghost use Rattle.std.specs.Prelude.{◌≡◌, ◌≢◌};
ghost use Rattle.rights_lattice.specs.declared.cell.Cell.TheVariants.{Gave, Used, Back};
ghost use Rattle.delta_mutators.specs.declared.delta.Item.TheVariants.{Name};
ghost use Rattle.delta_mutators.specs.Marks.{IsRaised};

use crate::delta::Item;
use rights_lattice::{Amount, Cell, Event, GREATEST_VALUE, Mark, Rights, SiteId};
use thiserror::Error;

/// The value of the cell would exceed the greatest value of a cell.
#[derive(Clone, Copy, PartialEq, Eq, Debug, Error)]
#[error("the value of the cell would exceed the greatest")]
pub struct CellFull;

/// The mark of a release of `amount` seats.
///
/// `CellFull` where the seats of the event that the site released would exceed `GREATEST_VALUE`.
pub fn release(rights: &Rights, me: SiteId, event: Event, amount: Amount) -> Result<Mark, CellFull>
    ensures { IsRaised rights.now.cells event (Gave me me) amount result }
{
    raised_by(rights, event, &Cell::Gave { by: me, to: me }, amount)
}

/// The mark of a sale of `amount` seats.
///
/// `CellFull` where the seats of the event that the site sold would exceed `GREATEST_VALUE`.
pub fn sale(rights: &Rights, me: SiteId, event: Event, amount: Amount) -> Result<Mark, CellFull>
    ensures { IsRaised rights.now.cells event (Used me) amount result }
{
    raised_by(rights, event, &Cell::Used { by: me }, amount)
}

/// The mark of a refund of `amount` seats.
///
/// `CellFull` where the seats of the event that the site took back would exceed `GREATEST_VALUE`.
pub fn refund(rights: &Rights, me: SiteId, event: Event, amount: Amount) -> Result<Mark, CellFull>
    ensures { IsRaised rights.now.cells event (Back me) amount result }
{
    raised_by(rights, event, &Cell::Back { by: me }, amount)
}

/// The mark of a cession of `amount` rights to another site.
///
/// `CellFull` where the rights of the event that the site gave to that other would exceed `GREATEST_VALUE`.
pub fn cession(
    rights: &Rights,
    me: SiteId,
    event: Event,
    amount: Amount,
    to: SiteId,
) -> Result<Mark, CellFull>
    requires other { to ≢ me }
    ensures { IsRaised rights.now.cells event (Gave me to) amount result }
{
    raised_by(rights, event, &Cell::Gave { by: me, to }, amount)
}

/// The item of an announcement: the event becomes known.
pub fn announce(event: Event) -> Item
    ensures { result ≡ Name event }
{
    Item::Name(event)
}

// The mark of a cell at its old value plus the amount.
fn raised_by(rights: &Rights, event: Event, cell: &Cell, amount: Amount) -> Result<Mark, CellFull>
    ensures { IsRaised rights.now.cells event cell.now amount result }
{
    let value = rights.get(event, *cell) + amount.seats();
    if value > GREATEST_VALUE {
        return Err(CellFull);
    }
    Ok(Mark {
        event,
        cell: *cell,
        value,
    })
}

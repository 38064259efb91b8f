//! Cells of an event.
ghost use Rattle.std.specs.Prelude.{◌≡◌};
ghost use Rattle.rights_lattice.specs.Cell.{owner_of};

use crate::site::SiteId;

/// A number that a state of rights keeps for an event.
///
/// `Gave` and `Used` are the rights matrix and the consumed rights of SRDS 2015; `Back` is our own.
#[derive(Clone, Copy, PartialEq, Eq, PartialOrd, Ord, Hash, Debug)]
pub enum Cell {
    /// What `by` gave to `to`; at `to == by`, the seats that `by` released.
    Gave { by: SiteId, to: SiteId },
    /// What `by` sold.
    Used { by: SiteId },
    /// What `by` took back in refunds.
    Back { by: SiteId },
}

/// The site that alone changes a cell.
pub fn owner(cell: Cell) -> SiteId
    ensures { result ≡ owner_of cell }
{
    match cell {
        Cell::Gave { by, .. } | Cell::Used { by } | Cell::Back { by } => by,
    }
}

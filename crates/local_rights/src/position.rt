//! The seats that are open by a view.
ghost use Rattle.std.specs.Prelude.{◌≡◌, ◌↔◌, IsTrue};
ghost use Rattle.local_rights.specs.OpenSeats.{open_seats_in, AreOpenSeats};
ghost use Rattle.local_rights.specs.Rights.{HasRights};

use crate::rights::{gained_and_spent, totals};
use rights_lattice::{Event, Rights, SiteId};

/// The seats of the event that are open by this view: what all sites released and took back, less what they sold. None
/// where the view is no position, as after a forged delta: by it some site spent more than it gained.
pub fn open_seats(rights: &Rights, event: Event) -> Option<u64>
    ensures open { result ≡ open_seats_in rights.now.cells event }
    ensures seats { AreOpenSeats rights.now.cells event result }
{
    let sites = rights.sites();
    for number in 0..sites.count() {
        if !has_rights(rights, sites.site(number), event) {
            return None;
        }
    }
    let totals = totals(rights, event);
    Some(totals.released + totals.refunded - totals.sold)
}

// Whether the site spent no more than it gained.
fn has_rights(rights: &Rights, site: SiteId, event: Event) -> bool
    ensures { IsTrue result ↔ HasRights rights.now.cells event site }
{
    let (gained, spent) = gained_and_spent(rights, site, event);
    spent <= gained
}

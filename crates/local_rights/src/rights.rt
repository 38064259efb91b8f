//! Sums of the cells of an event.
ghost use Rattle.std.specs.Prelude.{◌≡◌, ◌*◌, ◌≤◌, pos};
ghost use Rattle.rights_lattice.specs.Cells.{greatest_value};
ghost use Rattle.rights_lattice.specs.Limits.{site_numbers};
ghost use Rattle.local_rights.specs.Rights.{HasRights, gained, spent, left_of, rights_of, released_in, sold_in, refunded_in, paper_value};
ghost use Rattle.local_rights.specs.Shares.{share_in};

use crate::seat_totals::Totals;
use rights_lattice::{Cell, Event, Rights, SiteId};

/// The seats that the site may still sell: what it released, got from other sites and took back,
/// less what it gave to them and sold.
pub fn left(rights: &Rights, me: SiteId, event: Event) -> u64
    requires { HasRights rights.now.cells event me }
    ensures left { result ≡ left_of rights.now.cells event me }
    ensures rights { pos result ≡ rights_of rights.now.cells event me }
{
    let (gained, spent) = gained_and_spent(rights, me, event);
    gained - spent
}

/// The seats that a site may still sell by this view; `None` if by it the site spent more than it gained, as after a
/// forged delta.
pub fn share(rights: &Rights, site: SiteId, event: Event) -> Option<u64>
    ensures { result ≡ share_in rights.now.cells event site }
{
    let (gained, spent) = gained_and_spent(rights, site, event);
    if spent <= gained {
        Some(gained - spent)
    } else {
        None
    }
}

// What the site released, got from other sites and took back, and what it gave to them and sold.
pub(crate) fn gained_and_spent(rights: &Rights, me: SiteId, event: Event) -> (u64, u64)
    ensures gained { result.0 ≡ gained rights.now.cells event me }
    ensures spent { result.1 ≡ spent rights.now.cells event me }
{
    let mut gained = rights.get(event, Cell::Gave { by: me, to: me });
    gained += rights.get(event, Cell::Back { by: me });
    let mut spent = rights.get(event, Cell::Used { by: me });
    let sites = rights.sites();
    for other in 0..sites.count() {
        let other = sites.site(other);
        if other != me {
            gained += rights.get(event, Cell::Gave { by: other, to: me });
            spent += rights.get(event, Cell::Gave { by: me, to: other });
        }
    }
    (gained, spent)
}

/// The seats of the event that all sites released, sold and took back.
pub fn totals(rights: &Rights, event: Event) -> Totals
    ensures released { result.released ≡ released_in rights.now.cells event }
    ensures sold { result.sold ≡ sold_in rights.now.cells event }
    ensures refunded { result.refunded ≡ refunded_in rights.now.cells event }

    // A caller may add them.
    ensures released_bound { result.released ≤ site_numbers * greatest_value }
    ensures sold_bound { result.sold ≤ site_numbers * greatest_value }
    ensures refunded_bound { result.refunded ≤ site_numbers * greatest_value }
{
    let mut released = 0;
    let mut sold = 0;
    let mut refunded = 0;
    let sites = rights.sites();
    for number in 0..sites.count() {
        let site = sites.site(number);
        released += rights.get(event, Cell::Gave { by: site, to: site });
        sold += rights.get(event, Cell::Used { by: site });
        refunded += rights.get(event, Cell::Back { by: site });
    }
    Totals {
        released,
        sold,
        refunded,
    }
}

/// The value of the bounded counter: what was released and taken back, less what was sold.
/// It is negative where more was sold than was released and taken back, as after a forged delta.
pub fn paper_value(rights: &Rights, event: Event) -> i64
    ensures { result ≡ paper_value rights.now.cells event }
{
    let totals = totals(rights, event);
    (totals.released + totals.refunded) as i64 - totals.sold as i64
}

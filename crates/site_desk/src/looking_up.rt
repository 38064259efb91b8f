//! What a history tells of its requests, its events and each site's share.
ghost use Rattle.std.specs.Prelude.{◌≡◌, IfOk, OnOk};
ghost use Rattle.book_core.specs.History.{names_known, state_of};
ghost use Rattle.history_keeper.specs.Lookups.{found_in, listed_in, names_event};
ghost use Rattle.site_desk.specs.Looks.{row_at, with_row};
ghost use Rattle.site_desk.specs.Shares.{share_of, shares_in};

use crate::answer::SiteShare;
use book_core::{Book, Entry};
use history_keeper::{Found, Listed};
use request_ledger::{Request, RequestNumber};
use rights_lattice::{Cell, Event, SiteId};
use std::alloc::{AllocError, Global};

/// What is kept under a number.
pub(crate) fn found_in(book: &Book, number: RequestNumber) -> Option<Found>
    ensures { result ≡ found_in book.now.history number }
{
    match book.kept(number) {
        Some(kept) => Some(Found {
            place: kept.place as u64,
            reply: kept.reply,
        }),
        None => None,
    }
}

fn names_event(request: &Request, name: Event) -> bool
    ensures { result ≡ names_event name request.now }
{
    match request {
        Request::Announce { event } => *event == name,
        Request::Release { event, .. } => *event == name,
        Request::Sell { event, .. } => *event == name,
        Request::Cede { event, .. } => *event == name,
        Request::Refund { .. } => false,
    }
}

// Lists the request at a place, where there is one and it names the event.
fn list_at(
    listed: &mut Vec<Listed>,
    book: &Book,
    place: usize,
    event: Event,
) -> Result<(), AllocError>
    ensures { OnOk result (listed.new.items ≡ with_row (row_at book.now.history place event)
        listed.old.items) }
{
    if let Some(
        Entry::Asked {
            number,
            request,
            reply,
            ..
        },
    ) = book.entry(place)
    {
        if names_event(request, event) {
            listed.push(Listed {
                place: place as u64,
                number: *number,
                request: *request,
                reply: *reply,
            })?;
        }
    }
    Ok(())
}

/// The requests that name an event, by place.
#[tactic(auto, using(crate::proofs::Listing::listed_more))]
pub(crate) fn listed_in(book: &Book, alloc: Global, event: Event) -> Result<Vec<Listed>, AllocError>
    ensures { IfOk result (λ listed. listed.items ≡ listed_in book.now.history event) }
{
    let mut listed = Vec::new(alloc);
    'places: for place in 0..book.len() {
        list_at(&mut listed, book, place, event)?;
    }
    Ok(listed)
}

/// The names of the events that are known, in the order of first knowing.
pub(crate) fn events_in(book: &Book, alloc: Global) -> Result<Vec<Event>, AllocError>
    ensures { IfOk result (λ events. events.items ≡ names_known book.now.history) }
{
    let mut events = Vec::new(alloc);
    'places: for place in 0..book.event_count() {
        let Some(event) = book.event_at(place) else {
            unreachable!()
        };
        events.push(event)?;
    }
    Ok(events)
}

fn share_of(book: &Book, site: SiteId, event: Event) -> SiteShare
    ensures { result ≡ share_of (state_of book.now.history).cells event site }
{
    SiteShare {
        site,
        left: book.share(site, event),
        sold: book.cell(event, Cell::Used { by: site }),
        back: book.cell(event, Cell::Back { by: site }),
    }
}

/// What each site may sell of an event, and what it sold and took back, from site 0 on.
#[tactic(auto, using(crate::proofs::Sharing::one_more))]
pub(crate) fn shares_in(
    book: &Book,
    alloc: Global,
    event: Event,
) -> Result<Vec<SiteShare>, AllocError>
    ensures { IfOk result (λ rows. rows.items ≡ shares_in book.now event) }
{
    let mut rows = Vec::new(alloc);
    let sites = book.sites();
    'sites: for number in 0..sites.count() {
        rows.push(share_of(book, sites.site(number), event))?;
    }
    Ok(rows)
}

//! The book of a site.
ghost use Rattle.std.specs.Prelude.{drop, vec_len, vec_capacity, nat_le, IsTrue, ◌↔◌, IsOk, OnOk, ◌++◌, ◌∷◌, ◌≡◌, ◌<◌, ◌≤◌, [], ◌+◌, length, slice_get};
ghost use Rattle.std.specs.Option.{option_copied};
ghost use Rattle.rights_lattice.specs.Cells.{value_at, raise_all, greatest_value};
ghost use Rattle.rights_lattice.specs.State.{knows};
ghost use Rattle.rights_lattice.specs.RightsView.{IsWithin};
ghost use Rattle.local_rights.specs.OpenSeats.{view_in, AreOpenSeats};
ghost use Rattle.local_rights.specs.Rights.{HasRights};
ghost use Rattle.local_rights.specs.Shares.{share_in};
ghost use Rattle.book_core.specs.History.{state_of, kept, sale_of, names_known, asked_from, sites_after};
ghost use Rattle.book_core.specs.Decision.{office_from, own_left, sites_of};
ghost use Rattle.book_core.specs.Legal.{IsLegal};
ghost use Rattle.book_core.specs.BookView.{HasRoomFor, KeepsRoom, IsUnkept, KeepsRefunds, MakesNoRoom, Spends, KeepRights, MarksAreWithin, SeesWithin, numbers_in};
ghost use Rattle.book_core.specs.OwnRow.{HasOwnRights, LeavesOwnRow};
ghost use Rattle.book_core.specs.Plans.{IsReady};
ghost use Rattle.book_core.specs.declared.entry.Entry.TheVariants.{Asked};

use crate::entry::Entry;
use crate::limit::Limit;
use crate::plan::Planned;
use event_catalogue::Catalogue;
use local_rights::{Counted, ViewTotals, open_seats, share, totals};
use request_ledger::{Kept, Ledger, RequestNumber, SaleState};
use rights_lattice::{Cell, Event, Mark, SiteId, Sites};
use std::alloc::{AllocError, Global};
use std::marker::Model;

mod deciding;
mod growing;
mod joining;
mod replaying;

/// The history of a site, and what it shows: cells, names, kept replies, rights.
#[derive(Drop)]
pub struct Book {
    limit: Limit,
    /// The count of sites that the history began with.
    first: Sites,
    history: Vec<Entry>,
    rights: Counted,
    names: Catalogue,
    ledger: Ledger,
}

impl Model for Book {
    ghost use Rattle.std.specs.Prelude.{◌-◌, vec_len, vec_capacity};
    ghost use Rattle.book_core.specs.BookView.{BookView, IsInOrder};
    ghost use Rattle.book_core.specs.BookCode.{coded_book};

    ghost Value = { BookView };

    ghost coded = { coded_book };

    ghost view = { λ b. record {
      office = record { me = b.rights.me; sites = b.first; limit = b.limit };
      history = b.history.items;
      room = record {
        entries = vec_capacity b.history - vec_len b.history;
        cells = b.rights.room;
        names = b.names.room;
        numbers = b.ledger.room;
      };
    } };

    ghost invariant = { λ b. IsInOrder (record { me = b.rights.me; sites = b.first; limit = b.limit }) b.history.items b.rights.sites b.rights.cells b.names.names b.ledger.entries };
}

impl Book {
    /// The book of a site that has no history.
    pub fn new(alloc: Global, me: SiteId, sites: Sites, limit: Limit) -> Book
        requires { me < sites }
        ensures office { result.office ≡ office_from me sites limit }
        ensures history { result.history ≡ [] }
        ensures room { (result.room.entries ≡ 0) × (result.room.cells ≡ 0) }
    {
        Book {
            limit,
            first: sites,
            history: Vec::new(alloc),
            rights: Counted::new(alloc, me, sites),
            names: Catalogue::new(alloc),
            ledger: Ledger::new(alloc),
        }
    }

    /// The number of this site.
    pub fn me(&self) -> SiteId
        ensures me { result ≡ self.now.office.me }
        ensures is_site { result < self.now.office.sites }
    {
        self.rights.me()
    }

    /// The count of sites so far: that of the last growth, or that with which the history began.
    pub fn sites(&self) -> Sites
        ensures sites { result ≡ sites_of self.now.office self.now.history }
        ensures no_fewer { self.now.office.sites ≤ result }
        ensures within { IsWithin result (state_of self.now.history).cells }
    {
        self.rights.rights().sites()
    }

    /// How long the history may become.
    pub fn limit(&self) -> Limit
        ensures limit { result ≡ self.now.office.limit }
        ensures is_kept { length self.now.history ≤ self.now.office.limit }
    {
        self.limit
    }

    /// The length of the history, which is legal.
    pub fn len(&self) -> usize
        ensures len { result ≡ length self.now.history }
        ensures legal { IsLegal self.now.office self.now.history }
    {
        self.history.len()
    }

    /// The entry at a place of the history.
    pub fn entry(&self, place: usize) -> Option<&Entry>
        ensures { option_copied result ≡ slice_get self.now.history place }
    {
        self.history.get(place)
    }

    /// The entries from a place on; none where the history is no longer than that.
    pub fn entries_from(&self, place: usize) -> &[Entry]
        ensures { result.now ≡ drop place self.now.history }
    {
        &self.history.as_slice()[place.min(self.history.len())..]
    }

    /// The value of a cell: the greatest that an entry's delta gives it.
    pub fn cell(&self, event: Event, cell: Cell) -> u64
        ensures value { result ≡ value_at (state_of self.now.history).cells event cell }
        ensures at_most_max { result ≤ greatest_value }
    {
        self.rights.get(event, cell)
    }

    /// Whether the event was announced here or in a delta that was joined.
    pub fn knows(&self, event: Event) -> bool
        ensures { result ≡ knows (state_of self.now.history).names event }
    {
        self.names.has(event)
    }

    /// How many events are known.
    pub fn event_count(&self) -> usize
        ensures { result ≡ length (names_known self.now.history) }
    {
        self.names.len()
    }

    /// The event that was the k-th to be known, from 0: by first appearance, rising within one delta.
    pub fn event_at(&self, k: usize) -> Option<Event>
        ensures { result ≡ slice_get (names_known self.now.history) k }
    {
        self.names.at(k)
    }

    /// The seats of an event that this site may still sell (SRDS 2015, and what was given back).
    pub fn left(&self, event: Event) -> u64
        ensures left { result ≡ own_left self.now.office self.now.history event }
        ensures has_rights { HasRights (state_of self.now.history).cells event self.now.office.me }
    {
        self.rights.left(event)
    }

    /// The seats of an event that a site may still sell by this site's view; `None` if by it that site spent more than it
    /// gained.
    pub fn share(&self, site: SiteId, event: Event) -> Option<u64>
        ensures share { result ≡ share_in (state_of self.now.history).cells event site }
    {
        share(self.rights.rights(), site, event)
    }

    /// What all sites released, sold and took back of an event, and the seats that are open, by this site's view; no open
    /// seats are told where the view is no position.
    pub fn totals(&self, event: Event) -> ViewTotals
        ensures view { result ≡ view_in (state_of self.now.history).cells event }
        ensures open { AreOpenSeats (state_of self.now.history).cells event result.open_seats }
    {
        let view = self.rights.rights();
        let sums = totals(view, event);
        ViewTotals {
            released: sums.released,
            sold: sums.sold,
            refunded: sums.refunded,
            open_seats: open_seats(view, event),
        }
    }

    /// Whether what this book shows of the owner's row is at most what the owner's own book shows of it, as it is in
    /// every world that steps lead to.
    pub fn sees_within(&self, owner: &Book) -> bool
        ensures { IsTrue result ↔ SeesWithin self.now owner.now }
    {
        self.rights
            .rights()
            .row_at_or_below(owner.me(), owner.rights.rights())
    }

    /// The place, the request and the reply that are kept under a number.
    pub fn kept(&self, number: RequestNumber) -> Option<Kept>
        ensures { result ≡ kept self.now.history number }
    {
        self.ledger.kept(number)
    }

    /// The sale that was done under a number.
    pub fn sale(&self, number: RequestNumber) -> Option<SaleState>
        ensures { result ≡ sale_of self.now.history number }
    {
        self.ledger.sale(number)
    }

    /// Adds a planned entry to the history.
    ///
    /// A delta that is joined changes no cell of the own row, a growth none at all, and the own rights are never
    /// negative, whatever deltas come, forged ones too.
    pub fn enter(&mut self, planned: Planned)
        requires { IsReady self.old planned }
        ensures office { self.new.office ≡ self.old.office }
        ensures history { self.new.history ≡ self.old.history ++ planned ∷ [] }
        ensures own_row { LeavesOwnRow planned self.old self.new }
        ensures has_rights { HasOwnRights self.new }
        ensures no_more_room { MakesNoRoom self.old.room self.new.room }
        ensures spent { Spends planned self.old.room self.new.room }
    {
        let Planned { entry } = planned;
        raise_marks(&mut self.rights, entry.delta().marks());
        self.names.join(entry.delta().names());
        keep(&mut self.ledger, self.history.len(), &entry);
        widen(&mut self.rights, &entry);
        self.history.push_reserved(entry);
    }

    fn is_full(&self) -> bool
        ensures { result ≡ nat_le self.now.office.limit (length self.now.history) }
    {
        let length = self.history.len() as u64;
        length >= self.limit.entries()
    }

    // Makes room for an entry, of which nothing is shown.
    fn reserve(&mut self, entry: &Entry) -> Result<(), AllocError>
        ensures unchanged { self.new ≡ record self.old { room = self.new.room } }
        ensures room { KeepsRoom self.old.room self.new.room }
        ensures ok { OnOk result (HasRoomFor self.new.room entry.now) }
        ensures succeeds { HasRoomFor self.old.room entry.now → IsOk result }
    {
        self.rights.reserve(entry.delta().marks().len())?;
        self.names.reserve(entry.delta().names())?;
        if let Entry::Asked { .. } = entry {
            self.ledger.reserve()?;
        }
        self.history.reserve(1)?;
        Ok(())
    }
}

fn raise_marks(rights: &mut Counted, marks: &[Mark])
    requires not_negative { KeepRights rights.old.me rights.old.cells marks.now }
    requires room { length marks.now ≤ rights.old.room }
    requires in_range { MarksAreWithin rights.old.sites marks.now }
    ensures cells { rights.new.cells ≡ raise_all rights.old.cells marks.now }
    ensures sites { rights.new.sites ≡ rights.old.sites }
    ensures me { rights.new.me ≡ rights.old.me }
    ensures no_more_room { rights.new.room ≤ rights.old.room }
    ensures room { rights.old.room ≤ rights.new.room + length marks.now }
{
    for mark in marks {
        let mark = *mark;
        prove!(mark.value > 0);
        rights.raise(mark);
    }
}

// Keeps the number of an asked entry; the others have none.
fn keep(ledger: &mut Ledger, place: usize, entry: &Entry)
    requires new { IsUnkept ledger.old.entries entry.now }
    requires refund { KeepsRefunds ledger.old.entries entry.now }
    requires room { numbers_in entry.now ≤ ledger.old.room }
    ensures entries { ledger.new.entries ≡ ledger.old.entries ++ asked_from place (entry.now ∷ []) }
    ensures room { ledger.old.room ≤ ledger.new.room + numbers_in entry.now }
{
    match entry {
        Entry::Asked {
            number,
            request,
            reply,
            ..
        } => ledger.keep(*number, place, *request, *reply),
        Entry::Joined { .. } | Entry::Grown { .. } => {}
    }
}

// Counts the sites of an entry that grows; of others the count stays.
fn widen(rights: &mut Counted, entry: &Entry)
    requires { rights.old.sites ≤ sites_after rights.old.sites entry.now }
    ensures sites { rights.new.sites ≡ sites_after rights.old.sites entry.now }
    ensures cells { rights.new.cells ≡ rights.old.cells }
    ensures me { rights.new.me ≡ rights.old.me }
    ensures room { rights.new.room ≡ rights.old.room }
{
    if let Entry::Grown { sites } = entry {
        rights.grow(sites.sites());
    }
}

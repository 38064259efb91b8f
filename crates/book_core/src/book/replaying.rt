//! A book from the entries of its history.
ghost use Rattle.std.specs.Prelude.{IfOk, IfErr, OnOk, IsTrue, ◌↔◌, ◌≡◌, ◌<◌, ◌++◌, ◌∷◌, [], take};
ghost use Rattle.delta_mutators.specs.Items.{item_state};
ghost use Rattle.book_core.specs.BookView.{MayFollow};
ghost use Rattle.book_core.specs.Decision.{office_from, state_of_item};
ghost use Rattle.book_core.specs.Legal.{IsLegal};
ghost use Rattle.book_core.specs.OwnRow.{HasOwnRights};
ghost use Rattle.book_core.specs.Replay.{HasLists, IsReplayFault};
ghost use Rattle.book_core.specs.declared.entry.Entry.TheVariants.{Asked, Joined, Grown};

use super::joining::foreign;
use crate::book::Book;
use crate::entry::Entry;
use crate::limit::Limit;
use crate::plan::{Planned, ReplayFault};
use delta_mutators::{Delta, Item};
use request_ledger::{Reply, Request, RequestNumber};
use rights_lattice::{Event, Mark, SiteId, Sites};
use std::alloc::{AllocError, Global};

impl Book {
    /// The book with this history. An error drops the entries.
    ///
    /// `IllegalAt` where an entry may not follow those before it; it names the place of the first, from 0. `Memory`
    /// where room was wanting for an entry that may follow; what stands behind it was not looked at.
    pub fn replay(
        alloc: Global,
        me: SiteId,
        sites: Sites,
        limit: Limit,
        entries: Vec<Entry>,
    ) -> Result<Book, ReplayFault>
        requires { me < sites }
        ensures office { IfOk result (λ book. book.office ≡ office_from me sites limit) }
        ensures history { IfOk result (λ book. book.history ≡ entries.items) }
        ensures legal { OnOk result (IsLegal (office_from me sites limit) entries.items) }
        ensures has_rights { IfOk result HasOwnRights }
        ensures fault { IfErr result (IsReplayFault (office_from me sites limit) entries.items) }
    {
        let mut book = Book::new(alloc, me, sites, limit);
        for entry in entries {
            if !book.is_next(&entry) {
                return Err(ReplayFault::IllegalAt { place: book.len() });
            }
            if book.reserve(&entry).is_err() {
                return Err(ReplayFault::Memory);
            }
            book.enter(Planned { entry });
        }
        Ok(book)
    }

    /// The book of the first entries of this one, or of all where it has no more. It wants memory for each of them.
    pub fn beginning(&self, alloc: Global, length: usize) -> Result<Book, AllocError>
        ensures office { IfOk result (λ book. book.office ≡ self.now.office) }
        ensures history { IfOk result (λ book. book.history ≡ take length self.now.history) }
        ensures has_rights { IfOk result HasOwnRights }
    {
        let mut first = Vec::new(alloc);
        let length = length.min(self.history.len());
        push_copies(alloc, &mut first, &self.history.as_slice()[..length])?;
        match Book::replay(alloc, self.me(), self.first, self.limit, first) {
            Ok(book) => Ok(book),
            Err(_) => Err(AllocError),
        }
    }

    // Whether the entry may follow the history.
    fn is_next(&self, entry: &Entry) -> bool
        ensures { IsTrue result ↔ MayFollow self.now entry.now }
    {
        match entry {
            Entry::Asked {
                number,
                request,
                reply,
                delta,
            } => self.is_next_asked(*number, request, *reply, delta),
            Entry::Joined { peer, delta } => self.is_next_joined(*peer, delta),
            Entry::Grown { sites } => self.is_next_grown(sites.sites()),
        }
    }

    fn is_next_asked(
        &self,
        number: RequestNumber,
        request: &Request,
        reply: Reply,
        delta: &Delta,
    ) -> bool
        ensures { IsTrue result ↔ MayFollow self.now (Asked number request.now reply delta.now) }
    {
        if self.is_full() {
            return false;
        }
        if self.kept(number).is_some() {
            return false;
        }
        let (due, item) = self.decide(request);
        reply == due && is_of_item(delta, item)
    }

    fn is_next_joined(&self, peer: SiteId, delta: &Delta) -> bool
        ensures { IsTrue result ↔ MayFollow self.now (Joined peer delta.now) }
    {
        if self.is_full() {
            return false;
        }
        if !self.is_of_sites(peer, delta) {
            return false;
        }
        if foreign(self.rights.rights(), self.me(), delta.marks()).is_some() {
            return false;
        }
        !self.has_all_of(delta)
    }

    fn is_next_grown(&self, sites: Sites) -> bool
        ensures { IsTrue result ↔ MayFollow self.now (Grown sites) }
    {
        if self.is_full() {
            return false;
        }
        self.sites().count() < sites.count()
    }
}

// Whether the delta is that of the item, or empty where there is none.
fn is_of_item(delta: &Delta, item: Option<Item>) -> bool
    ensures { IsTrue result ↔ (delta.now ≡ state_of_item item) }
{
    match item {
        None => has_lists(delta, &[], &[]),
        Some(item) => is_of_one(delta, &item),
    }
}

fn is_of_one(delta: &Delta, item: &Item) -> bool
    ensures { IsTrue result ↔ (delta.now ≡ item_state item.now) }
{
    match *item {
        Item::Name(event) => has_lists(delta, &[event], &[]),
        Item::Cell(mark) => {
            prove!(mark.value > 0);
            has_lists(delta, &[], &[mark])
        }
    }
}

fn has_lists(delta: &Delta, names: &[Event], marks: &[Mark]) -> bool
    ensures { IsTrue result ↔ HasLists delta.now names.now marks.now }
{
    are_names(delta.names(), names) && are_marks(delta.marks(), marks)
}

fn are_names(names: &[Event], wanted: &[Event]) -> bool
    ensures { IsTrue result ↔ (names.now ≡ wanted.now) }
{
    names == wanted
}

fn are_marks(marks: &[Mark], wanted: &[Mark]) -> bool
    ensures { IsTrue result ↔ (marks.now ≡ wanted.now) }
{
    marks == wanted
}

// Adds copies of the entries.
fn push_copies(alloc: Global, copies: &mut Vec<Entry>, entries: &[Entry]) -> Result<(), AllocError>
    ensures { OnOk result (copies.new.items ≡ copies.old.items ++ entries.now) }
{
    for entry in entries {
        push_copy(alloc, copies, entry)?;
    }
    Ok(())
}

fn push_copy(alloc: Global, copies: &mut Vec<Entry>, entry: &Entry) -> Result<(), AllocError>
    ensures { OnOk result (copies.new.items ≡ copies.old.items ++ entry.now ∷ []) }
{
    let copy = entry.copy(alloc)?;
    copies.push(copy)?;
    Ok(())
}

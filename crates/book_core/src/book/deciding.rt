//! The decision on a request.
ghost use Rattle.std.specs.Prelude.{IfOk, IfErr, IsOk, ◌≡◌, ◌≤◌, None};
ghost use Rattle.request_ledger.specs.Requests.{same_request};
ghost use Rattle.book_core.specs.Decision.{decision, shortage, state_of_item, Decides};
ghost use Rattle.book_core.specs.OwnRow.{HasOwnRights};
ghost use Rattle.book_core.specs.Plans.{IsPlan, IsFault, IsFreshRefusal, LeavesRoom};
ghost use Rattle.request_ledger.specs.declared.request.Request.TheVariants.{Announce, Release, Sell, Refund, Cede};

use crate::book::Book;
use crate::entry::Entry;
use crate::plan::{Plan, PlanFault, Planned};
use delta_mutators::{Delta, Item, announce, cession, refund, release, sale};
use request_ledger::{Reply, Request, RequestNumber};
use rights_lattice::{Amount, Cell, Event, SiteId};
use std::alloc::{AllocError, Global};

impl Book {
    /// What a request under its number leads to: the reply that is kept under it, or a new entry.
    ///
    /// The book shows what it showed and loses no room in every case. Where a new entry is planned it has all the room
    /// that this takes. Under a kept number and on a full history it makes no room.
    pub fn plan(
        &mut self,
        alloc: Global,
        number: RequestNumber,
        request: &Request,
    ) -> Result<Plan, PlanFault>
        ensures unchanged { self.new ≡ record self.old { room = self.new.room } }
        ensures plan { IfOk result (IsPlan self.new number request.now) }
        ensures fault { IfErr result (IsFault self.new number request.now) }
        ensures still { LeavesRoom
            (decision self.old.office self.old.history number request.now) self.old self.new }

        // A refusal is an entry without a delta: it wants no memory where the book has room for one entry and one number.
        ensures memory { result ≡ Err PlanFault.Memory
            → IsFreshRefusal (decision self.old.office self.old.history number request.now)
            → 1 ≤ self.old.room.entries → 1 ≤ self.old.room.numbers → ⊥ }
        ensures has_rights { HasOwnRights self.new }
    {
        // The prover opens the book, whose type says that its history is legal.
        let _ = &self.limit;
        if let Some(kept) = self.kept(number) {
            if is_same(request, &kept.request) {
                return Ok(Plan::Again {
                    place: kept.place,
                    reply: kept.reply,
                });
            }
            return Err(PlanFault::Reused { place: kept.place });
        }
        if self.is_full() {
            return Err(PlanFault::Full);
        }
        let (reply, item) = self.decide(request);
        let Ok(delta) = delta_of_item(alloc, item) else {
            return Err(PlanFault::Memory);
        };
        let entry = Entry::Asked {
            number,
            request: *request,
            reply,
            delta,
        };
        if self.reserve(&entry).is_err() {
            return Err(PlanFault::Memory);
        }
        Ok(Plan::New(Planned { entry }))
    }

    /// What is left of the event, if a request under a new number asks for more than that: `plan` would refuse it as `Short`.
    /// It wants no memory, and nothing is planned.
    pub fn shortage(&self, number: RequestNumber, request: &Request) -> Option<u64>
        ensures { result ≡ shortage self.now.office self.now.history number request.now }
    {
        if self.kept(number).is_some() {
            return None;
        }
        match self.decide(request).0 {
            Reply::Short { left } => Some(left),
            _ => None,
        }
    }

    pub(super) fn decide(&self, request: &Request) -> (Reply, Option<Item>)
        ensures { Decides self.now.office self.now.history request.now result }
    {
        match request {
            Request::Announce { event } => self.announce(*event),
            Request::Release { event, amount } => self.release(*event, *amount),
            Request::Sell { event, amount } => self.sell(*event, *amount),
            Request::Refund { sale, part } => self.refund(*sale, *part),
            Request::Cede { event, amount, to } => self.cede(*event, *amount, *to),
        }
    }

    fn announce(&self, event: Event) -> (Reply, Option<Item>)
        ensures { Decides self.now.office self.now.history (Announce event) result }
    {
        if self.knows(event) {
            (Reply::Known, None)
        } else {
            (Reply::Done, Some(announce(event)))
        }
    }

    fn release(&self, event: Event, amount: Amount) -> (Reply, Option<Item>)
        ensures { Decides self.now.office self.now.history (Release event amount) result }
    {
        if !self.knows(event) {
            return (Reply::Unknown, None);
        }
        match release(self.rights.rights(), self.me(), event, amount) {
            Ok(mark) => (Reply::Done, Some(Item::Cell(mark))),
            Err(_) => (Reply::CellFull, None),
        }
    }

    fn sell(&self, event: Event, amount: Amount) -> (Reply, Option<Item>)
        ensures { Decides self.now.office self.now.history (Sell event amount) result }
    {
        if !self.knows(event) {
            return (Reply::Unknown, None);
        }
        let left = self.left(event);
        if left < amount.seats() {
            return (Reply::Short { left }, None);
        }
        match sale(self.rights.rights(), self.me(), event, amount) {
            Ok(mark) => (Reply::Done, Some(Item::Cell(mark))),
            Err(_) => (Reply::CellFull, None),
        }
    }

    fn refund(&self, number: RequestNumber, part: Option<Amount>) -> (Reply, Option<Item>)
        ensures { Decides self.now.office self.now.history (Refund number part) result }
    {
        let Some(sale) = self.sale(number) else {
            return (Reply::NoSale, None);
        };
        let Some(rest) = Amount::of(sale.seats.seats().saturating_sub(sale.given_back)) else {
            return (Reply::Refunded, None);
        };
        let amount = part.unwrap_or(rest);
        if rest.seats() < amount.seats() {
            return (Reply::TooMany { rest: rest.seats() }, None);
        }
        let me = self.me();
        // No site gives back more than it sold, so the cell has room: the prover wants to see this value.
        let _sold = self.rights.get(sale.event, Cell::Used { by: me });
        match refund(self.rights.rights(), me, sale.event, amount) {
            Ok(mark) => (Reply::Done, Some(Item::Cell(mark))),
            Err(_) => unreachable!(),
        }
    }

    fn cede(&self, event: Event, amount: Amount, to: SiteId) -> (Reply, Option<Item>)
        ensures { Decides self.now.office self.now.history (Cede event to amount) result }
    {
        if !self.knows(event) {
            return (Reply::Unknown, None);
        }
        if to == self.me() {
            return (Reply::ToSelf, None);
        }
        if to.number() >= self.sites().count() {
            return (Reply::NoSite, None);
        }
        let rights = self.left(event);
        if rights < amount.seats() {
            return (Reply::Short { left: rights }, None);
        }
        match cession(self.rights.rights(), self.me(), event, amount, to) {
            Ok(mark) => (Reply::Done, Some(Item::Cell(mark))),
            Err(_) => (Reply::CellFull, None),
        }
    }
}

fn delta_of_item(alloc: Global, item: Option<Item>) -> Result<Delta, AllocError>
    ensures delta { IfOk result (λ delta. delta ≡ state_of_item item) }
    ensures nothing { item ≡ None → IsOk result }
{
    match item {
        None => Ok(Delta::empty(alloc)),
        Some(item) => Delta::of(alloc, item),
    }
}

fn is_same(request: &Request, kept: &Request) -> bool
    ensures { result ≡ same_request kept.now request.now }
{
    *kept == *request
}

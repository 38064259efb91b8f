//! A site's book that threads share.
ghost use Rattle.std.specs.Prelude.{◌≡◌, ◌≢◌, ◌+◌, ◌<◌, ◌≤◌, All, Err, None, true, false, length, IfOk, IfErr, IfSome, OnErr, if◌then◌else◌};
ghost use Rattle.std.specs.List.{AllZip};
ghost use Rattle.site_exchange.specs.Exchange.{ack_for, receiver};
ghost use Rattle.site_desk.specs.Answers.{ack_of};
ghost use Rattle.site_desk.specs.Calls.{fresh_given};
ghost use Rattle.site_desk.specs.Count.{asked_since};
ghost use Rattle.site_desk.specs.Finish.{FindsFirst, HasItsReceipt, StandsIn, WasSeen, handed_back, receipt_of};
ghost use Rattle.site_desk.specs.Moments.{AsksAtDesk, Events, Finds, HoldsDelta, HoldsReceipt, IsClosed, IsReserved, IsShortage, IsSiteAt, IsSiteStatus, Lists, Looks, Replies, Sends, Shares, SomeSiteAt, StandsGiven, Takes};
ghost use Rattle.site_desk.specs.Seats.{held, parts_of, shares_of};
ghost use Rattle.site_desk.specs.SiteView.{SiteInStep};

use crate::answer::{Answer, Seen, SiteShare, SiteStatus, Taken};
use crate::desk_state::DeskState;
use crate::fault::{AskFault, LookFault, LookUpFault, NextFault};
use crate::finish::FinishFault;
use crate::gate::{Gate, Place};
use crate::receipt::Receipt;
use crate::seat::{Opens, Seat};
use crate::site_book::SiteBook;
use history_keeper::{Found, Keeper, Listed};
use request_ledger::{Request, RequestNumber};
use rights_lattice::{Event, SiteId};
use site_exchange::{Message, TakeFault};
use std::alloc::Global;
use std::sync::ledger::Blank;
use std::sync::{Mutex, Wait};

/// A site's book behind its one lock, for which each call but `new` and `finish` may wait.
///
/// Whenever the lock is free the book's history is legal, its own rights are not negative and, unless it is closed,
/// its history is what its keeper holds, as far as that is to be trusted. What these calls answer fits some such book, of
/// this site, that goes on from the one that the desk began with: which one it was, only who holds the lock sees.
#[derive(Drop)]
pub struct Desk<K: Keeper, L: Opens> {
    lock: Mutex<DeskState<K, L>>,
}

impl<K: Keeper, L: Opens> Desk<K, L> {
    /// A desk with its count at 0, and the seat that has all parts of the count. The book may be closed.
    pub fn new(book: SiteBook<K>, blank: Blank) -> (Desk<K, L>, Seat<L>)
        requires name { blank.name ≡ L.name }
        requires parts { blank.parts ≡ L.parts }
        requires some { 0 < blank.parts }
        requires began { L.began ≡ book.book.history }
        requires office { L.office ≡ book.book.office }
        ensures { result.1 ≡ held blank.parts 0 }
    {
        let (desk_state, seat) = DeskState::new(book, blank);
        let lock = Mutex::new(desk_state);
        (Desk { lock }, seat)
    }

    /// Answers a request as the book does, and gives the receipt for the answer. The seat's share is raised by one
    /// exactly where the answer is fresh. The gate is passed under the lock. What the receipt names stands in an open
    /// book that may be this desk's, and behind `Store` one that may be is closed.
    ///
    /// Errors are those of `SiteBook::ask`; they leave the seat as it was.
    pub fn ask<R: Wait, G: Gate>(
        &self,
        rt: &R,
        alloc: Global,
        gate: &G,
        seat: &mut Seat<L>,
        number: RequestNumber,
        request: &Request,
    ) -> Result<(Answer, Receipt), AskFault>
        ensures receipt { IfOk result (λ r. r.1 ≡ receipt_of number request.now r.0) }
        ensures share { IfOk result (λ r. seat.new ≡ held seat.old.parts (if r.0.fresh then
            seat.old.count + 1 else seat.old.count)) }
        ensures kept { OnErr result (seat.new ≡ seat.old) }
        ensures place { IfOk result (λ r. r.0.fresh ≡ true → length L.began + seat.old.count ≤
            r.0.place) }
        ensures answered { SomeSiteAt K.Keeper L.Opens
            (Replies K.failed number request.now result) }
        ensures stands { IfOk result (λ r. SomeSiteAt K.Keeper L.Opens (HoldsReceipt r.1)) }
        ensures shut { result ≡ Err AskFault.Store → SomeSiteAt K.Keeper L.Opens IsClosed }
    {
        let mut desk_state = self.lock.lock(rt);
        let site = desk_state.site();
        gate.pass(rt, Place::Inside { site });
        desk_state.ask(alloc, seat, number, request)
    }

    /// Answers several requests, one after another, as `ask` would, and stores all new entries by one sync, before any is
    /// answered. The seat's share is raised by the number of the fresh answers. What the receipts name stands in an open
    /// book that may be this desk's.
    ///
    /// Errors are those of `SiteBook::ask_all`, one for all; they leave the seat as it was.
    pub fn ask_all<R: Wait>(
        &self,
        rt: &R,
        alloc: Global,
        seat: &mut Seat<L>,
        requests: &[(RequestNumber, Request)],
    ) -> Result<Vec<Result<(Answer, Receipt), AskFault>>, AskFault>
        ensures asked { AsksAtDesk K.Keeper L.office L.began (SiteInStep K.Keeper)
            requests.now result }
        ensures receipts { IfOk result (λ given. AllZip HasItsReceipt requests.now given.items) }
        ensures share { IfOk result (λ given. seat.new
            ≡ held seat.old.parts (seat.old.count + fresh_given given.items)) }
        ensures kept { OnErr result (seat.new ≡ seat.old) }
        ensures stands { IfOk result (λ given.
            All (StandsGiven L.office L.began (SiteInStep K.Keeper)) given.items) }
        ensures shut { result ≡ Err AskFault.Store → SomeSiteAt K.Keeper L.Opens IsClosed }
    {
        self.lock.lock(rt).ask_all(rt, alloc, seat, requests)
    }

    /// What the history shows of an event that it knows, once it has all that was newly entered for this seat (the
    /// session guarantee "read your writes", PDIS 1994). It waits for that, though the history always has it.
    ///
    /// Errors are those of `SiteBook::look`.
    pub fn look<R: Wait>(&self, rt: &R, seat: &Seat<L>, event: Event) -> Result<Seen, LookFault>
        ensures event { IfOk result (λ seen. seen.event ≡ event) }
        ensures at { IfOk result (λ seen. length L.began + seat.now.count ≤ seen.at) }
        ensures seen { SomeSiteAt K.Keeper L.Opens (Looks event result) }
    {
        self.look_when(rt, seat.count(), None, event)
    }

    /// The same, once the history has an entry at this place, as of a sale that another seat asked for. Without a place it
    /// waits for nothing.
    pub fn look_past<R: Wait>(
        &self,
        rt: &R,
        place: Option<usize>,
        event: Event,
    ) -> Result<Seen, LookFault>
        ensures event { IfOk result (λ seen. seen.event ≡ event) }
        ensures past { IfOk result (λ seen. IfSome place (λ p. p < seen.at)) }
        ensures seen { SomeSiteAt K.Keeper L.Opens (Looks event result) }
    {
        self.look_when(rt, 0, place, event)
    }

    // What the history shows once it has so many newly entered requests, and an entry at the place.
    fn look_when<R: Wait>(
        &self,
        rt: &R,
        count: u64,
        place: Option<usize>,
        event: Event,
    ) -> Result<Seen, LookFault>
        ensures event { IfOk result (λ seen. seen.event ≡ event) }
        ensures own { IfOk result (λ seen. length L.began + count ≤ seen.at) }
        ensures past { IfOk result (λ seen. IfSome place (λ p. p < seen.at)) }
        ensures seen { SomeSiteAt K.Keeper L.Opens (Looks event result) }
    {
        for _ in rt.forever() {
            let desk_state = self.lock.lock(rt);
            if desk_state.shows(count) && desk_state.is_past(place) {
                return desk_state.look(event);
            }
        }
        unreachable!()
    }

    /// What the history keeps under a number: the place and the reply. It wants no memory.
    ///
    /// `Closed` where the book is closed, since what it could not store may be found when it is started again.
    pub fn find<R: Wait>(&self, rt: &R, number: RequestNumber) -> Result<Option<Found>, LookUpFault>
        ensures found { SomeSiteAt K.Keeper L.Opens (Finds number result) }
    {
        self.lock.lock(rt).find(number)
    }

    /// The requests in the history that name an event, by place. Others wait for as long as it takes to read the history.
    ///
    /// `Closed` as for `find`, and `Memory`.
    pub fn list<R: Wait>(
        &self,
        rt: &R,
        alloc: Global,
        event: Event,
    ) -> Result<Vec<Listed>, LookUpFault>
        ensures listed { SomeSiteAt K.Keeper L.Opens (Lists event result) }
    {
        self.lock.lock(rt).list(alloc, event)
    }

    /// The names of the events that the site knows, in the order of first knowing.
    ///
    /// `Closed` as for `find`, and `Memory`.
    pub fn events<R: Wait>(&self, rt: &R, alloc: Global) -> Result<Vec<Event>, LookUpFault>
        ensures events { SomeSiteAt K.Keeper L.Opens (Events result) }
    {
        self.lock.lock(rt).events(alloc)
    }

    /// What each site that is recognised may sell of an event, and what it sold and took back, all by one view; `None` if
    /// the event is not known.
    ///
    /// `Closed` as for `find`, and `Memory`.
    pub fn shares<R: Wait>(
        &self,
        rt: &R,
        alloc: Global,
        event: Event,
    ) -> Result<Option<Vec<SiteShare>>, LookUpFault>
        ensures shares { SomeSiteAt K.Keeper L.Opens (Shares event result) }
    {
        self.lock.lock(rt).shares(alloc, event)
    }

    /// What is left of the event, if the request is under a new number and asks for more than that: `ask` would keep `Short`.
    /// Nothing is asked, entered or stored, and a closed book tells none.
    pub fn shortage<R: Wait>(&self, rt: &R, number: RequestNumber, request: &Request) -> Option<u64>
        ensures shortage { SomeSiteAt K.Keeper L.Opens (IsShortage number request.now result) }
    {
        self.lock.lock(rt).shortage(number, request)
    }

    /// Whether the number is new, and of the limit of entries no more than `reserve` are free. Of a closed book it is false.
    pub fn is_reserved<R: Wait>(&self, rt: &R, number: RequestNumber, reserve: u64) -> bool
        ensures reserved { result ≡ true → SomeSiteAt K.Keeper L.Opens (IsReserved number reserve) }
        ensures free { result ≡ false → SomeSiteAt K.Keeper L.Opens
            (λ site. IsReserved number reserve site → ⊥) }
    {
        self.lock.lock(rt).is_reserved(number, reserve)
    }

    /// Which site it is, and how long its history is, also where the book is closed.
    pub fn site_status<R: Wait>(&self, rt: &R) -> SiteStatus
        ensures site_status { SomeSiteAt K.Keeper L.Opens (IsSiteStatus result) }
    {
        self.lock.lock(rt).site_status()
    }

    /// Takes a peer's message as the book does, with its errors. The acknowledgement that is given is the one for the
    /// message, and none is given for an acknowledgement. What is acknowledged is in an open book that may be this
    /// desk's, and behind `Store` one that may be is closed.
    #[tactic(auto, using(crate::proofs::Sent::ack_taken))]
    pub fn take<R: Wait>(&self, rt: &R, message: Message) -> Result<Taken, TakeFault>
        ensures ack { IfOk result (λ taken. ack_of taken ≡ ack_for message) }
        ensures taken { SomeSiteAt K.Keeper L.Opens (Takes K.failed message result) }
        ensures held { IfOk result (λ _. SomeSiteAt K.Keeper L.Opens (HoldsDelta message)) }
        ensures shut { result ≡ Err TakeFault.Store → SomeSiteAt K.Keeper L.Opens IsClosed }
    {
        self.lock.lock(rt).take(message)
    }

    /// The message that is due to a peer, as the book gives it, with its errors.
    #[tactic(auto, using(crate::proofs::Sent::next_sent))]
    pub fn next<R: Wait>(
        &self,
        rt: &R,
        alloc: Global,
        to: SiteId,
    ) -> Result<Option<Message>, NextFault>
        ensures to { IfOk result (λ message. IfSome message (λ m. receiver m ≡ to)) }
        ensures due { SomeSiteAt K.Keeper L.Opens (Sends to result) }
    {
        self.lock.lock(rt).next(alloc, to)
    }

    /// Gives the book back, and compares its history with what the sessions were given. It waits for nobody and wants no
    /// memory.
    ///
    /// The first of these is the fault: the seats do not have all requests that were newly entered; a receipt is not the
    /// entry that it names; a look names more entries than there are, or ones that do not name its event, or does not show
    /// what they say of it. The book comes back with a fault too: it is of the site that the desk was made for, counts the
    /// same sites, is in step with its keeper, and its history goes on from the one that it had then. Each look costs a walk
    /// over the entries that it names.
    pub fn finish(
        self,
        seats: Vec<Seat<L>>,
        receipts: &[Receipt],
        looks: &[Seen],
    ) -> Result<SiteBook<K>, (SiteBook<K>, FinishFault)>
        ensures counted { IfOk result (λ book. shares_of seats.items ≡ asked_since (length L.began)
            book.book.history) }
        ensures receipts { IfOk result (λ book. All (StandsIn book.book.history) receipts.now) }
        ensures looks { IfOk result (λ book. All (WasSeen book.book.office book.book.history)
            looks.now) }
        ensures fault { IfErr result (λ e. FindsFirst e.0.book.office e.0.book.history (asked_since
            (length L.began) e.0.book.history) (shares_of seats.items) receipts.now looks.now e.1) }
        ensures whole { parts_of seats.items ≡ L.parts → IfErr result (λ e. e.1 ≢
            FinishFault.SeatsOut) }

        // What the book kept, whenever the lock was free.
        ensures at_desk { IsSiteAt K.Keeper L.Opens (handed_back result) }
    {
        self.lock.into_inner().finish(seats, receipts, looks)
    }
}

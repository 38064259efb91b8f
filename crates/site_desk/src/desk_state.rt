//! What lies under a desk's lock.
ghost use Rattle.std.specs.Prelude.{◌≡◌, ◌↔◌, All, Err, IsSome, ◌+◌, ◌<◌, ◌≤◌, true, false, length, IsTrue, IfOk, IfErr, IfSome, OnErr, OnOk, if◌then◌else◌};
ghost use Rattle.std.specs.List.{AllZip};
ghost use Rattle.rights_lattice.specs.State.{knows};
ghost use Rattle.book_core.specs.History.{state_of};
ghost use Rattle.site_exchange.specs.Exchange.{next};
ghost use Rattle.site_desk.specs.Answers.{is_peer};
ghost use Rattle.site_desk.specs.Looks.{IsSeenAt};
ghost use Rattle.site_desk.specs.Calls.{AskAllCall, AskCall, TakeCall, answer_in, answers_in, fresh_given};
ghost use Rattle.site_desk.specs.SiteView.{site_of};
ghost use Rattle.site_desk.specs.Count.{asked_since};
ghost use Rattle.site_desk.specs.Moments.{Events, Finds, IsReserved, IsShortage, IsSiteAt, IsSiteStatus, Lists, Shares};
ghost use Rattle.site_desk.specs.Finish.{FindsFirst, HasItsReceipt, StandsIn, WasSeen, handed_back, receipt_of};
ghost use Rattle.site_desk.specs.Seats.{held, parts_of, shares_of};

use crate::answer::{Answer, Seen, SiteShare, SiteStatus, Taken};
use crate::fault::{AskFault, LookFault, LookUpFault, NextFault};
use crate::finish::{FinishFault, first_stranger, first_stranger_seen, gather};
use crate::given::give_all;
use crate::looking_up::{found_in, listed_in};
use crate::receipt::Receipt;
use crate::seat::{Opens, Seat};
use crate::site_book::SiteBook;
use history_keeper::{Found, Keeper, Listed};
use request_ledger::{Request, RequestNumber};
use rights_lattice::{Event, SiteId};
use site_exchange::{Message, TakeFault};
use std::alloc::Global;
use std::marker::Model;
use std::sync::Wait;
use std::sync::ledger::{Blank, Book as Tally, Share};

/// A site's book, with the count of the requests that were newly entered since it lies here: what they are in its
/// history from its length of then on.
#[derive(Drop)]
pub struct DeskState<K: Keeper, L: Opens> {
    book: SiteBook<K>,
    total: u64,
    tally: Tally<L>,
    nothing: Share<L>,
}

impl<K: Keeper, L: Opens> Model for DeskState<K, L> {
    ghost use Rattle.site_desk.specs.SiteView.{SiteView, coded_view};
    ghost use Rattle.site_desk.specs.Count.{IsDeskState};

    ghost Value = { SiteView K };

    ghost coded = { coded_view K.code };

    ghost view = { λ d. d.book };

    ghost invariant = { λ d. IsDeskState L.began L.office d.book.book d.total d.tally.total d.nothing.parts };
}

impl<K: Keeper, L: Opens> DeskState<K, L> {
    /// A book with its count at 0, and the seat that has all parts of the count.
    pub fn new(book: SiteBook<K>, blank: Blank) -> (DeskState<K, L>, Seat<L>)
        requires name { blank.name ≡ L.name }
        requires parts { blank.parts ≡ L.parts }
        requires some { 0 < blank.parts }
        requires began { L.began ≡ book.book.history }
        requires office { L.office ≡ book.book.office }
        ensures book { result.0 ≡ book }
        ensures seat { result.1 ≡ held blank.parts 0 }
    {
        // What the book says of its length.
        let _len = book.book().len();
        let (tally, mut share) = blank.open::<L>();
        let nothing = share.empty();
        (
            DeskState {
                book,
                total: 0,
                tally,
                nothing,
            },
            Seat { share, count: 0 },
        )
    }

    /// Answers a request. A fresh answer raises the seat's share by one.
    #[tactic(auto, using(crate::proofs::Growth::asked_since_push, crate::proofs::Growth::asked_since_below))]
    pub fn ask(
        &mut self,
        alloc: Global,
        seat: &mut Seat<L>,
        number: RequestNumber,
        request: &Request,
    ) -> Result<(Answer, Receipt), AskFault>
        ensures at_desk { IsSiteAt K.Keeper L.Opens self.old }
        ensures stays { IsSiteAt K.Keeper L.Opens self.new }
        ensures asked { AskCall K.Keeper self.old self.new number request.now (answer_in result) }
        ensures receipt { IfOk result (λ r. r.1 ≡ receipt_of number request.now r.0) }
        ensures share { IfOk result (λ r. seat.new
            ≡ held seat.old.parts (if r.0.fresh then seat.old.count + 1 else seat.old.count)) }
        ensures kept { OnErr result (seat.new ≡ seat.old) }
        ensures place { IfOk result
            (λ r. r.0.fresh ≡ true → length L.began + seat.old.count ≤ r.0.place) }
    {
        // What the book says of its history, before and after.
        let _before = self.book.book();
        self.tally.audit(&mut seat.share);
        let answer = self.book.ask(alloc, number, request);
        let _after = self.book.book();
        let answer = answer?;
        // What the book says of its length, which the total is not above.
        let _len = self.book.book().len();
        if answer.fresh {
            self.tally.add(&mut seat.share, 1);
            self.total += 1;
            seat.count += 1;
        }
        let receipt = Receipt {
            number,
            request: *request,
            reply: answer.reply,
            place: answer.place,
        };
        Ok((answer, receipt))
    }

    /// Answers several requests. The seat's share is raised by the number of the fresh answers.
    #[tactic(auto, using(crate::proofs::Growth::asked_since_below))]
    pub fn ask_all<R: Wait>(
        &mut self,
        rt: &R,
        alloc: Global,
        seat: &mut Seat<L>,
        requests: &[(RequestNumber, Request)],
    ) -> Result<Vec<Result<(Answer, Receipt), AskFault>>, AskFault>
        ensures at_desk { IsSiteAt K.Keeper L.Opens self.old }
        ensures stays { IsSiteAt K.Keeper L.Opens self.new }
        ensures asked { AskAllCall K.Keeper self.old self.new requests.now (answers_in result) }
        ensures receipts { IfOk result
            (λ given. AllZip HasItsReceipt requests.now given.items) }
        ensures share { IfOk result (λ given. seat.new
            ≡ held seat.old.parts (seat.old.count + fresh_given given.items)) }
        ensures kept { OnErr result (seat.new ≡ seat.old) }
    {
        // What the book says of its history, before and after.
        let _before = self.book.book().len();
        self.tally.audit(&mut seat.share);
        if self.book.is_closed() {
            return Err(AskFault::Closed);
        }
        let Ok(mut given) = Vec::with_capacity(alloc, requests.len()) else {
            return Err(AskFault::Memory);
        };
        let came = self.book.ask_all(rt, alloc, requests);
        // What the book says of its length, which the total is not above.
        let _after = self.book.book().len();
        let answers = match came {
            Ok(answers) => answers,
            Err(fault) => return Err(fault),
        };
        let fresh = give_all(requests, &answers, &mut given);
        self.tally.add(&mut seat.share, fresh);
        self.total += fresh;
        seat.count += fresh;
        Ok(given)
    }

    /// The site whose book it is.
    pub fn site(&self) -> SiteId
        ensures { result ≡ self.now.book.office.me }
    {
        self.book.book().me()
    }

    /// Whether the history has so many requests that were newly entered.
    #[tactic(auto, using(crate::proofs::Growth::asked_since_below))]
    pub fn shows(&self, count: u64) -> bool
        ensures counted { IsTrue result ↔ (count ≤ asked_since (length L.began)
            self.now.book.history) }
        ensures within { IsTrue result → length L.began + count ≤ length self.now.book.history }
    {
        count <= self.total
    }

    /// Whether the history has an entry at the place, if there is one.
    pub fn is_past(&self, place: Option<usize>) -> bool
        ensures { IsTrue result ↔ IfSome place (λ p. p < length self.now.book.history) }
    {
        match place {
            Some(place) => place < self.book.book().len(),
            None => true,
        }
    }

    /// What the history shows of an event that it knows.
    pub fn look(&self, event: Event) -> Result<Seen, LookFault>
        ensures at_desk { IsSiteAt K.Keeper L.Opens self.now }
        ensures seen { IfOk result (IsSeenAt self.now.book.office self.now.book.history event) }
        ensures at { IfOk result (λ seen. seen.at ≡ length self.now.book.history) }
        ensures closed { (result ≡ Err LookFault.Closed) ↔ (self.now.closed ≡ true) }
        ensures unknown { (result ≡ Err LookFault.Unknown) ↔ ((self.now.closed ≡ false) × (knows
            (state_of self.now.book.history).names event ≡ false)) }
    {
        // What the book says of its history.
        let _book = self.book.book();
        self.book.look(event)
    }

    /// What is kept under a number.
    pub fn find(&self, number: RequestNumber) -> Result<Option<Found>, LookUpFault>
        ensures at_desk { IsSiteAt K.Keeper L.Opens self.now }
        ensures found { Finds number result self.now }
    {
        // What the book says of its history.
        let _book = self.book.book();
        if self.book.is_closed() {
            return Err(LookUpFault::Closed);
        }
        Ok(found_in(self.book.book(), number))
    }

    /// The requests that name an event, by place.
    pub fn list(&self, alloc: Global, event: Event) -> Result<Vec<Listed>, LookUpFault>
        ensures at_desk { IsSiteAt K.Keeper L.Opens self.now }
        ensures listed { Lists event result self.now }
    {
        // What the book says of its history.
        let _book = self.book.book();
        if self.book.is_closed() {
            return Err(LookUpFault::Closed);
        }
        let listed = listed_in(self.book.book(), alloc, event)?;
        Ok(listed)
    }

    /// The names of the events that are known.
    pub fn events(&self, alloc: Global) -> Result<Vec<Event>, LookUpFault>
        ensures at_desk { IsSiteAt K.Keeper L.Opens self.now }
        ensures events { Events result self.now }
    {
        // What the book says of its history.
        let _book = self.book.book();
        self.book.events(alloc)
    }

    /// What each site may sell of an event; `None` if it is not known.
    pub fn shares(&self, alloc: Global, event: Event) -> Result<Option<Vec<SiteShare>>, LookUpFault>
        ensures at_desk { IsSiteAt K.Keeper L.Opens self.now }
        ensures shares { Shares event result self.now }
    {
        // What the book says of its history.
        let _book = self.book.book();
        self.book.shares(alloc, event)
    }

    /// What is left, if the request is under a new number and asks for more than that.
    pub fn shortage(&self, number: RequestNumber, request: &Request) -> Option<u64>
        ensures at_desk { IsSiteAt K.Keeper L.Opens self.now }
        ensures shortage { IsShortage number request.now result self.now }
    {
        // What the book says of its history.
        let _book = self.book.book();
        if self.book.is_closed() {
            return None;
        }
        self.book.book().shortage(number, request)
    }

    /// Whether the number is new, and of the limit no more than so many entries are free.
    pub fn is_reserved(&self, number: RequestNumber, reserve: u64) -> bool
        ensures at_desk { IsSiteAt K.Keeper L.Opens self.now }
        ensures reserved { IsTrue result ↔ IsReserved number reserve self.now }
    {
        let book = self.book.book();
        let is_used = book.limit().entries().saturating_sub(reserve) <= book.len() as u64;
        !self.book.is_closed() && is_used && book.kept(number).is_none()
    }

    /// Which site it is, and how long its history is.
    pub fn site_status(&self) -> SiteStatus
        ensures at_desk { IsSiteAt K.Keeper L.Opens self.now }
        ensures site_status { IsSiteStatus result self.now }
    {
        let book = self.book.book();
        SiteStatus {
            me: book.me(),
            sites: book.sites(),
            entries: book.len(),
            limit: book.limit(),
        }
    }

    /// Takes a peer's message.
    pub fn take(&mut self, message: Message) -> Result<Taken, TakeFault>
        ensures at_desk { IsSiteAt K.Keeper L.Opens self.old }
        ensures stays { IsSiteAt K.Keeper L.Opens self.new }
        ensures took { TakeCall K.Keeper self.old self.new message result }
    {
        // What the book says of its history, before and after.
        let _before = self.book.book();
        let taken = self.book.take(message);
        let _after = self.book.book();
        taken
    }

    /// The message that is due to a peer.
    pub fn next(&mut self, alloc: Global, to: SiteId) -> Result<Option<Message>, NextFault>
        ensures at_desk { IsSiteAt K.Keeper L.Opens self.old }
        ensures message { IfOk result (λ message. message ≡ next self.old.book.office.me (site_of
            self.old) to) }
        ensures closed { (result ≡ Err NextFault.Closed) ↔ (self.old.closed ≡ true) }
        ensures no_site { (result ≡ Err NextFault.NoSite) ↔ ((self.old.closed ≡ false) × (is_peer
            self.old.book.office self.old.book.history to ≡ false)) }
        ensures memory { result ≡ Err NextFault.Memory → IsSome (next self.old.book.office.me
            (site_of self.old) to) }
        ensures same { self.new ≡ self.old }
    {
        // What the book says of its history.
        let _book = self.book.book();
        self.book.next(alloc, to)
    }

    /// The book, where the seats have all requests that were newly entered, and each receipt and look is of its history.
    /// With a fault it comes back as well.
    pub fn finish(
        self,
        seats: Vec<Seat<L>>,
        receipts: &[Receipt],
        looks: &[Seen],
    ) -> Result<SiteBook<K>, (SiteBook<K>, FinishFault)>
        ensures book { handed_back result ≡ self }
        ensures counted { OnOk result (shares_of seats.items ≡ asked_since (length L.began)
            self.book.history) }
        ensures receipts { OnOk result (All (StandsIn self.book.history) receipts.now) }
        ensures looks { OnOk result (All (WasSeen self.book.office self.book.history) looks.now) }
        ensures fault { IfErr result (λ e. FindsFirst self.book.office self.book.history
            (asked_since (length L.began) self.book.history) (shares_of seats.items) receipts.now
            looks.now e.1) }
        ensures whole { parts_of seats.items ≡ L.parts → shares_of seats.items ≡ asked_since (length
            L.began) self.book.history }

        // What the types of the book and its keeper keep.
        ensures at_desk { IsSiteAt K.Keeper L.Opens self }
    {
        let DeskState {
            book,
            total,
            mut tally,
            nothing,
            ..
        } = self;
        // What the book says of itself.
        let _book = book.book();
        if gather(&mut tally, nothing, seats) != total {
            return Err((book, FinishFault::SeatsOut));
        }
        if let Some(at) = first_stranger(book.book(), receipts) {
            return Err((book, FinishFault::Stranger { at }));
        }
        if let Some(at) = first_stranger_seen(book.book(), looks) {
            return Err((book, FinishFault::StrangerSeen { at }));
        }
        Ok(book)
    }
}

//! The book of a site over its keeper.
ghost use Rattle.std.specs.Prelude.{◌≡◌, ◌<◌, ◌↔◌, ℕ, List, Err, true, false, length, IfOk, IfErr, IsSome, OnOk};
ghost use Rattle.rights_lattice.specs.declared.cell.Cell.{Cell};
ghost use Rattle.rights_lattice.specs.Cell.{owner_of};
ghost use Rattle.rights_lattice.specs.State.{knows};
ghost use Rattle.book_core.specs.History.{state_of};
ghost use Rattle.book_core.specs.Decision.{sites_of};
ghost use Rattle.book_core.specs.OwnRow.{HasOwnRights, cell_in};
ghost use Rattle.book_core.specs.Legal.{IsLegal};
ghost use Rattle.book_core.specs.Replay.{IsReplayFault};
ghost use Rattle.site_exchange.specs.Exchange.{next};
ghost use Rattle.history_keeper.specs.Keeping.{LeavesOnly};
ghost use Rattle.history_keeper.specs.Meta.{office_of};
ghost use Rattle.site_desk.specs.Answers.{is_peer};
ghost use Rattle.site_desk.specs.Looks.{IsSeenAt};
ghost use Rattle.site_desk.specs.Calls.{AskAllCall, AskCall, GrowCall, TakeCall, listed};
ghost use Rattle.site_desk.specs.Moments.{Events, Shares};
ghost use Rattle.site_desk.specs.Storing.{IsStarted};
ghost use Rattle.site_desk.specs.Count.{HasOneMoreIf};
ghost use Rattle.site_desk.specs.SiteView.{SiteInStep, site_of};

use crate::answer::{Answer, Seen, SiteShare, Taken};
use crate::asking::answer;
use crate::asking_all::answer_all;
use crate::fault::{AskFault, LookFault, LookUpFault, NextFault};
use crate::growing::grow;
use crate::joining::join;
use crate::looking_up::{events_in, shares_in};
use book_core::{Book, Entry, GrowFault, ReplayFault};
use history_keeper::{Keeper, Meta};
use request_ledger::{Request, RequestNumber};
use rights_lattice::{Event, SiteId, Sites};
use site_exchange::{Exchange, Message, TakeFault, check};
use std::alloc::Global;
use std::marker::Model;
use std::sync::Wait;

/// The book of a site, what its peers have acknowledged, and the keeper of its history.
///
/// Between its calls it is closed, or its history is what the keeper holds, as far as the keeper is to be trusted.
#[derive(Drop)]
pub struct SiteBook<K: Keeper> {
    book: Book,
    exchange: Exchange,
    keeper: K,
    is_closed: bool,
}

impl<K: Keeper> Model for SiteBook<K> {
    ghost use Rattle.site_exchange.specs.Pendings.{IsExchangeOf};
    ghost use Rattle.site_desk.specs.SiteView.{SiteView, IsInStep, coded_view};

    ghost Value = { SiteView K };

    ghost coded = { coded_view K.code };

    ghost view = { λ s. record { book = s.book; acked = s.exchange.acked; keeper = s.keeper; closed = s.is_closed } };

    ghost invariant = { λ s. IsInStep s.is_closed (K.failed s.keeper) (K.is_trusted s.keeper) (K.kept s.keeper) (K.may_leave s.keeper) s.exchange.acked s.book
        × IsExchangeOf s.book.office s.book.history s.exchange };
}

impl<K: Keeper> SiteBook<K> {
    /// The open book of the entries that a keeper holds. Nothing counts as acknowledged by any peer.
    ///
    /// `IllegalAt` where an entry may not follow those before it, and `Memory` where memory was refused before that was
    /// found. An error gives the keeper back as it was.
    #[tactic(auto, using(crate::proofs::Acknowledged::none_acknowledged))]
    pub fn start(
        alloc: Global,
        keeper: K,
        entries: Vec<Entry>,
        meta: Meta,
    ) -> Result<SiteBook<K>, (K, ReplayFault)>
        requires site { meta.me < meta.sites }
        requires sound { K.failed keeper ≡ 0 }
        requires kept { K.is_trusted keeper → entries.items ≡ K.kept keeper }
        ensures started { IfOk result (IsStarted K.Keeper keeper entries.items meta) }
        ensures legal { IfOk result (λ s. IsLegal s.book.office s.book.history) }
        ensures has_rights { IfOk result (λ s. HasOwnRights s.book) }
        ensures fault { IfErr result
            (λ e. (e.0 ≡ keeper) × IsReplayFault (office_of meta) entries.items e.1) }
    {
        // What the keeper says of a stop.
        let _none = keeper.failures();
        let Meta { me, sites, limit } = meta;
        match Book::replay(alloc, me, sites, limit, entries) {
            Ok(book) => {
                // What the book says of its history.
                let _len = book.len();
                let exchange = Exchange::fresh(alloc, book.sites());
                Ok(SiteBook {
                    book,
                    exchange,
                    keeper,
                    is_closed: false,
                })
            }
            Err(fault) => Err((keeper, fault)),
        }
    }

    /// The book, also where it is closed.
    pub fn book(&self) -> &Book
        ensures book { result.now ≡ self.now.book }
        ensures legal { IsLegal self.now.book.office self.now.book.history }
        ensures has_rights { HasOwnRights self.now.book }
        ensures in_step { SiteInStep K.Keeper self.now }
    {
        // What the book says of its history.
        let _len = self.book.len();
        &self.book
    }

    /// Whether the book takes nothing more.
    pub fn is_closed(&self) -> bool
        ensures closed { result ≡ self.now.closed }
        ensures sound { result ≡ false → K.failed self.now.keeper ≡ 0 }
        ensures kept { result ≡ false → K.is_trusted self.now.keeper → self.now.book.history ≡
            K.kept self.now.keeper }
        ensures rests { result ≡ false → K.is_trusted self.now.keeper → LeavesOnly
            self.now.book.history (K.may_leave self.now.keeper) }
    {
        self.is_closed
    }

    /// The keeper. The book is let go.
    pub fn into_keeper(self) -> K
        ensures { result ≡ self.keeper }
    {
        let SiteBook { keeper, .. } = self;
        keeper
    }

    /// Answers a request under its number: with the reply that is kept under it, or with a new one, whose entry is
    /// kept and then entered.
    ///
    /// `Store` where the entry is not known to be kept: the history is as it was, and the book is closed. Every
    /// other error changes nothing, but that behind `Memory` there may be more room. Neither a kept number nor a full
    /// history wants memory.
    #[tactic(auto, using(crate::proofs::Growth::sites_asked))]
    pub fn ask(
        &mut self,
        alloc: Global,
        number: RequestNumber,
        request: &Request,
    ) -> Result<Answer, AskFault>
        ensures asked { AskCall K.Keeper
            self.old self.new number request.now result }
        ensures grown { IfOk result
            (λ a. HasOneMoreIf a.fresh a.place self.old.book.history self.new.book.history) }
        ensures sites { sites_of self.new.book.office self.new.book.history
            ≡ sites_of self.old.book.office self.old.book.history }
        ensures has_rights { HasOwnRights self.new.book }
    {
        if self.is_closed {
            return Err(AskFault::Closed);
        }
        let answer = answer(&mut self.book, &mut self.keeper, alloc, number, request);
        self.is_closed = matches!(answer, Err(AskFault::Store));
        answer
    }

    /// Answers several requests under their numbers, one after another, as `ask` would, and keeps all new entries at once,
    /// before any is answered. Where nothing is new the keeper is not called.
    ///
    /// An error is one for all. Behind `Store` the history is as it was and the book is closed: it was built again from its
    /// entries, which waits for memory. Behind `Closed`, and `Memory` where there is no room for the answers, nothing changed.
    pub fn ask_all<R: Wait>(
        &mut self,
        rt: &R,
        alloc: Global,
        requests: &[(RequestNumber, Request)],
    ) -> Result<Vec<Result<Answer, AskFault>>, AskFault>
        ensures asked { AskAllCall K.Keeper
            self.old self.new requests.now (listed result) }
        ensures sites { sites_of self.new.book.office self.new.book.history
            ≡ sites_of self.old.book.office self.old.book.history }
        ensures has_rights { HasOwnRights self.new.book }
    {
        if self.is_closed {
            return Err(AskFault::Closed);
        }
        let asked = answer_all(rt, &mut self.book, &mut self.keeper, alloc, requests);
        self.is_closed = matches!(asked, Err(AskFault::Store));
        asked
    }

    /// Takes a peer's message: joins its delta where it holds something new, or notes what it acknowledges.
    ///
    /// No message changes a cell of the own row, forged ones too. One that is refused for what it says (`NotForMe`,
    /// `UnknownSite`, `StrayAck`, `ForeignRow`) or since the history is full changes nothing; what other errors leave is as
    /// for a request. A delta that holds nothing new wants no memory, and neither does an acknowledgement of no more than
    /// was acknowledged.
    #[tactic(auto, using(crate::proofs::Growth::sites_taken))]
    pub fn take(&mut self, message: Message) -> Result<Taken, TakeFault>
        ensures took { TakeCall K.Keeper
            self.old self.new message result }
        ensures sites { sites_of self.new.book.office self.new.book.history
            ≡ sites_of self.old.book.office self.old.book.history }
        ensures own_row { (event : List ℕ) (cell : Cell) → owner_of cell ≡ self.old.book.office.me
            → cell_in self.new.book event cell ≡ cell_in self.old.book event cell }
        ensures has_rights { HasOwnRights self.new.book }
    {
        if self.is_closed {
            return Err(TakeFault::Closed);
        }
        check(&self.book, &message)?;
        match message {
            Message::Ack { by, upto, .. } => {
                self.exchange.ack(&self.book, by, upto)?;
                Ok(Taken::Acked)
            }
            Message::Delta {
                by,
                to,
                upto,
                delta,
            } => {
                let ack = Message::Ack {
                    by: to,
                    to: by,
                    upto,
                };
                let taken = join(&mut self.book, &mut self.keeper, by, delta, ack);
                self.is_closed = matches!(taken, Err(TakeFault::Store));
                taken
            }
        }
    }

    /// Counts so many sites from here on: the growth is kept and then entered. It changes no cell.
    ///
    /// `NotMore` where the book is open and the count is not above the count so far. Other errors are as for a request;
    /// neither `NotMore` nor a full history wants memory.
    pub fn grow(&mut self, alloc: Global, sites: Sites) -> Result<(), GrowFault>
        ensures grown { GrowCall K.Keeper
            self.old self.new sites result }
        ensures sites { OnOk result (sites_of self.new.book.office self.new.book.history ≡ sites) }
        ensures cells { (event : List ℕ) (cell : Cell)
            → cell_in self.new.book event cell ≡ cell_in self.old.book event cell }
        ensures has_rights { HasOwnRights self.new.book }
    {
        if self.is_closed {
            return Err(GrowFault::Closed);
        }
        let grown = grow(&mut self.book, &mut self.keeper, alloc, sites);
        self.is_closed = matches!(grown, Err(GrowFault::Store));
        grown?;
        self.exchange.grow(sites);
        Ok(())
    }

    /// The message that is due to a peer, and none where it has acknowledged all, which wants no memory.
    ///
    /// `Closed` where the book is closed, and else `NoSite` where the site is not another one of those that it counts so
    /// far. No error changes the history, what was acknowledged or the keeper.
    pub fn next(&mut self, alloc: Global, to: SiteId) -> Result<Option<Message>, NextFault>
        ensures message { IfOk result (λ message. message ≡ next self.old.book.office.me (site_of
            self.old) to) }
        ensures closed { (result ≡ Err NextFault.Closed) ↔ (self.old.closed ≡ true) }
        ensures no_site { (result ≡ Err NextFault.NoSite) ↔ ((self.old.closed ≡ false) × (is_peer
            self.old.book.office self.old.book.history to ≡ false)) }
        ensures memory { result ≡ Err NextFault.Memory → IsSome (next self.old.book.office.me
            (site_of self.old) to) }
        ensures same { self.new ≡ self.old }
    {
        if self.is_closed {
            return Err(NextFault::Closed);
        }
        if to.number() >= self.exchange.sites().count() || to == self.book.me() {
            return Err(NextFault::NoSite);
        }
        Ok(self.exchange.next(alloc, &self.book, to)?)
    }

    /// What the history shows of an event that it knows.
    ///
    /// `Closed` where the book is closed, and else `Unknown` where the history does not know the event.
    pub fn look(&self, event: Event) -> Result<Seen, LookFault>
        ensures seen { IfOk result (IsSeenAt self.now.book.office self.now.book.history event) }
        ensures at { IfOk result (λ seen. seen.at ≡ length self.now.book.history) }
        ensures closed { (result ≡ Err LookFault.Closed) ↔ (self.now.closed ≡ true) }
        ensures unknown { (result ≡ Err LookFault.Unknown) ↔ ((self.now.closed ≡ false) × (knows
            (state_of self.now.book.history).names event ≡ false)) }
    {
        if self.is_closed {
            return Err(LookFault::Closed);
        }
        if !self.book.knows(event) {
            return Err(LookFault::Unknown);
        }
        Ok(Seen {
            event,
            left: self.book.left(event),
            totals: self.book.totals(event),
            at: self.book.len(),
        })
    }

    /// The names of the events that the site knows, in the order of first knowing.
    ///
    /// `Closed` if the book is closed, and `Memory`.
    pub fn events(&self, alloc: Global) -> Result<Vec<Event>, LookUpFault>
        ensures events { Events result self.now }
    {
        if self.is_closed {
            return Err(LookUpFault::Closed);
        }
        let events = events_in(&self.book, alloc)?;
        Ok(events)
    }

    /// What each site that is recognised may sell of an event, and what it sold and took back, from site 0 on; `None` if
    /// the event is not known.
    ///
    /// `Closed` if the book is closed, and `Memory`.
    pub fn shares(&self, alloc: Global, event: Event) -> Result<Option<Vec<SiteShare>>, LookUpFault>
        ensures shares { Shares event result self.now }
    {
        if self.is_closed {
            return Err(LookUpFault::Closed);
        }
        if !self.book.knows(event) {
            return Ok(None);
        }
        let rows = shares_in(&self.book, alloc, event)?;
        Ok(Some(rows))
    }
}

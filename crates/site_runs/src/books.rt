//! Books of several sites in one process, for tests and for who embeds them in a program of his own.
ghost use Rattle.std.specs.Prelude.{◌≡◌, ◌<◌, [], Some, option_copied, slice_get};
ghost use Rattle.site_desk.specs.Calls.{listed};
ghost use Rattle.site_desk.specs.SiteView.{SiteView};
ghost use Rattle.site_runs.specs.Moving.{Added, Called, Gave, MayLeave, StartedAgain, Took};
ghost use Rattle.site_runs.specs.Runs.{Asks, AsksAll, Grows, NotOversold};

use crate::calls::{acknowledgement, begin, copied, give, restart};
use book_core::{Entry, GrowFault, Limit, ReplayFault};
use history_keeper::{Keeper, Meta};
use request_ledger::{Request, RequestNumber};
use rights_lattice::{SiteId, Sites};
use site_desk::{Answer, AskFault, NextFault, SiteBook};
use site_exchange::{Message, TakeFault};
use std::alloc::Global;
use std::marker::Model;
use std::sync::Wait;

/// The books of sites, each at its place, and all messages that they gave. Some run of calls leads to them, so whatever is
/// done with them they never oversell.
#[derive(Drop)]
pub struct Books<K: Keeper> {
    books: Vec<SiteBook<K>>,
    given: Vec<Message>,
}

impl<K: Keeper> Model for Books<K> {
    ghost use Rattle.site_runs.specs.Runs.{IsRun, Sites};
    ghost use Rattle.site_runs.specs.SitesCode.{coded_sites};

    ghost Value = { Sites K };

    ghost coded = { coded_sites K.code };

    ghost view = { λ g. record { books = g.books.items; given = g.given.items } };

    ghost invariant = { λ g. let s : Sites K = record { books = g.books.items; given = g.given.items } in
        IsRun K.Keeper s };
}

impl<K: Keeper> Books<K> {
    /// No site and no message.
    pub fn new(alloc: Global) -> Books<K>
        ensures books { result.books ≡ [] }
        ensures given { result.given ≡ [] }
    {
        Books {
            books: Vec::new(alloc),
            given: Vec::new(alloc),
        }
    }

    /// The book of a site; `None` where there is no such site.
    pub fn book(&self, site: usize) -> Option<&SiteBook<K>>
        ensures { option_copied result ≡ slice_get self.now.books site }
    {
        self.books.get(site)
    }

    /// All messages that were given, the oldest first.
    pub fn messages(&self) -> &[Message]
        ensures { result.now ≡ self.now.given }
    {
        self.given.as_slice()
    }

    /// The books, each at the place of its number. The messages are let go.
    pub fn into_books(self) -> Vec<SiteBook<K>>
        ensures books { result.items ≡ self.books }
        ensures never { NotOversold self }
    {
        let Books { books, .. } = self;
        books
    }

    /// Asks a site, and answers as its book does; `None` where there is no such site.
    pub fn ask(
        &mut self,
        alloc: Global,
        site: usize,
        number: RequestNumber,
        request: &Request,
    ) -> Option<Result<Answer, AskFault>>
        ensures moves { Called K.Keeper
            self.old site (Asks number request.now) result self.new }
        ensures never { NotOversold self.new }
    {
        if site >= self.books.len() {
            return None;
        }
        let book = &mut self.books[site];
        Some(book.ask(alloc, number, request))
    }

    /// Asks a site several requests, one after another, and answers as its book does; `None` where there is no such site.
    pub fn ask_all<R: Wait>(
        &mut self,
        rt: &R,
        alloc: Global,
        site: usize,
        requests: &[(RequestNumber, Request)],
    ) -> Option<Result<Vec<Result<Answer, AskFault>>, AskFault>>
        ensures moves { Called K.Keeper
            self.old site (λ came. AsksAll requests.now (listed came)) result self.new }
        ensures never { NotOversold self.new }
    {
        if site >= self.books.len() {
            return None;
        }
        let book = &mut self.books[site];
        Some(book.ask_all(rt, alloc, requests))
    }

    /// Has a site count so many sites; `None` where there is no such site.
    pub fn grow(
        &mut self,
        alloc: Global,
        site: usize,
        sites: Sites,
    ) -> Option<Result<(), GrowFault>>
        ensures moves { Called K.Keeper
            self.old site (Grows sites) result self.new }
        ensures never { NotOversold self.new }
    {
        if site >= self.books.len() {
            return None;
        }
        let book = &mut self.books[site];
        Some(book.grow(alloc, sites))
    }

    /// Has a site give what is due to another, which goes to the end of the messages given. Whether anything was due; `None`
    /// where there is no such site.
    pub fn next(
        &mut self,
        alloc: Global,
        site: usize,
        to: SiteId,
    ) -> Option<Result<bool, NextFault>>
        ensures moves { Gave K.Keeper
            self.old site to result self.new }
        ensures never { NotOversold self.new }
    {
        let given = self.give_next(alloc, site, to);
        self.as_run();
        given
    }

    /// Hands one of the messages given to a site, again and in any order; its acknowledgement goes to their end. `None` where
    /// there is no such site or message.
    pub fn take(
        &mut self,
        alloc: Global,
        site: usize,
        index: usize,
    ) -> Option<Result<(), TakeFault>>
        ensures moves { Took K.Keeper
            self.old site index result self.new }
        ensures never { NotOversold self.new }
    {
        let taken = self.take_given(alloc, site, index);
        self.as_run();
        taken
    }

    // What the type says of its value.
    fn as_run(&self)
        ensures { NotOversold self.now }
    {
        let _count = self.books.len();
    }

    fn give_next(
        &mut self,
        alloc: Global,
        site: usize,
        to: SiteId,
    ) -> Option<Result<bool, NextFault>>
        ensures moves { Gave K.Keeper
            self.old site to result self.new }
    {
        if site >= self.books.len() {
            return None;
        }
        if self.given.reserve(1).is_err() {
            return Some(Err(NextFault::Memory));
        }
        let book = &mut self.books[site];
        match give(book, alloc, to) {
            Ok(Some(message)) => {
                self.given.push_reserved(message);
                Some(Ok(true))
            }
            Ok(None) => Some(Ok(false)),
            Err(fault) => Some(Err(fault)),
        }
    }

    fn take_given(
        &mut self,
        alloc: Global,
        site: usize,
        index: usize,
    ) -> Option<Result<(), TakeFault>>
        ensures moves { Took K.Keeper
            self.old site index result self.new }
    {
        if site >= self.books.len() || index >= self.given.len() {
            return None;
        }
        if self.given.reserve(1).is_err() {
            return Some(Err(TakeFault::Memory));
        }
        let Ok(message) = copied(alloc, &self.given[index]) else {
            return Some(Err(TakeFault::Memory));
        };
        let book = &mut self.books[site];
        match book.take(message) {
            Ok(taken) => match acknowledgement(taken) {
                Some(ack) => {
                    self.given.push_reserved(ack);
                    Some(Ok(()))
                }
                None => Some(Ok(())),
            },
            Err(fault) => Some(Err(fault)),
        }
    }
}

impl<K: Keeper + Drop> Books<K> {
    /// Starts a new site over a keeper of nothing: its number is the next place, and it counts so many sites. A fault changes
    /// nothing, and drops the keeper; `None` where the count leaves it out.
    pub fn add(
        &mut self,
        alloc: Global,
        keeper: K,
        sites: Sites,
        limit: Limit,
    ) -> Option<Result<(), ReplayFault>>
        requires sound { K.failed keeper ≡ 0 }
        requires kept { K.is_trusted keeper → K.kept keeper ≡ [] }
        ensures added { Added K.Keeper
            self.old keeper sites limit result self.new }
        ensures never { NotOversold self.new }
    {
        let added = self.add_next(alloc, keeper, sites, limit);
        self.as_run();
        added
    }

    fn add_next(
        &mut self,
        alloc: Global,
        keeper: K,
        sites: Sites,
        limit: Limit,
    ) -> Option<Result<(), ReplayFault>>
        requires sound { K.failed keeper ≡ 0 }
        requires kept { K.is_trusted keeper → K.kept keeper ≡ [] }
        ensures added { Added K.Keeper
            self.old keeper sites limit result self.new }
    {
        let number = self.books.len() as u64;
        if number >= sites.count() {
            return None;
        }
        let Some(me) = SiteId::of(number) else {
            return None;
        };
        if self.books.reserve(1).is_err() {
            return Some(Err(ReplayFault::Memory));
        }
        match begin(alloc, keeper, Meta { me, sites, limit }) {
            Ok(book) => {
                self.books.push_reserved(book);
                Some(Ok(()))
            }
            Err((_keeper, fault)) => Some(Err(fault)),
        }
    }

    /// Starts a site again from what a crash between its calls left of its records; a fault leaves the book that was there, and
    /// drops the keeper. `None` where there is no such site.
    pub fn restart(
        &mut self,
        alloc: Global,
        site: usize,
        keeper: K,
        entries: Vec<Entry>,
        meta: Meta,
    ) -> Option<Result<(), ReplayFault>>
        requires site { meta.me < meta.sites }
        requires sound { K.failed keeper ≡ 0 }
        requires kept { K.is_trusted keeper → entries.items ≡ K.kept keeper }
        requires left { (old : SiteView K) → slice_get self.old.books site ≡ Some old
            → MayLeave K.Keeper
            old entries.items meta }
        ensures moves { StartedAgain K.Keeper
            self.old site result self.new }
        ensures never { NotOversold self.new }
    {
        let started = self.restart_at(alloc, site, keeper, entries, meta);
        self.as_run();
        started
    }

    fn restart_at(
        &mut self,
        alloc: Global,
        site: usize,
        keeper: K,
        entries: Vec<Entry>,
        meta: Meta,
    ) -> Option<Result<(), ReplayFault>>
        requires site { meta.me < meta.sites }
        requires sound { K.failed keeper ≡ 0 }
        requires kept { K.is_trusted keeper → entries.items ≡ K.kept keeper }
        requires left { (old : SiteView K) → slice_get self.old.books site ≡ Some old
            → MayLeave K.Keeper
            old entries.items meta }
        ensures moves { StartedAgain K.Keeper
            self.old site result self.new }
    {
        if site >= self.books.len() {
            return None;
        }
        match restart(alloc, keeper, entries, meta) {
            Ok(book) => {
                self.books[site] = book;
                Some(Ok(()))
            }
            Err((_keeper, fault)) => Some(Err(fault)),
        }
    }
}

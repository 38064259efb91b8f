//! What each peer has acknowledged, what is pending for it, and the message that is due to it.
ghost use Rattle.std.specs.Prelude.{◌≡◌, ◌≢◌, ◌<◌, ◌≤◌, [], ℕ, List, get_or, length, IfOk, IsSome, None, OnOk, OnErr};
ghost use Rattle.book_core.specs.declared.entry.Entry.{Entry as Entered};
ghost use Rattle.book_core.specs.Decision.{sites_of};
ghost use Rattle.delta_buffer.specs.Pending.{IsPendingOf, since};
ghost use Rattle.site_exchange.specs.Exchange.{zeros};
ghost use Rattle.site_exchange.specs.Pendings.{due_to, BeginAtAcked, FollowAcked, IsCaughtUp, IsInStep, IsPastAcked, IsPendingIn, KeepAdded, KeepsExchange, KeepsPendings, StayAtAcked, StayPending};
ghost use Rattle.site_exchange.specs.Taking.{acked_upto};

use crate::message::Message;
use crate::upto::Upto;
use book_core::Book;
use delta_buffer::Pending;
use delta_mutators::Delta;
use rights_lattice::{SITE_NUMBERS, SiteId, Sites};
use std::alloc::{AllocError, Global};
use std::marker::Model;

/// How much of a site's history each peer has acknowledged, and what is pending for it. It is kept in memory alone:
/// after a restart it is fresh.
#[derive(Drop)]
pub struct Exchange {
    alloc: Global,
    /// Each of them but the own one is a peer.
    sites: Sites,
    acked: [u64; SITE_NUMBERS],
    /// Of the sites with the lowest numbers, the own one too, as far as messages were due.
    pendings: Vec<Pending>,
}

impl Model for Exchange {
    ghost use Rattle.site_exchange.specs.Pendings.{BeginAtAcked, ExchangeView, coded_exchange};

    ghost Value = { ExchangeView };

    ghost coded = { coded_exchange };

    ghost view = { λ e. record { sites = e.sites; acked = e.acked; pendings = e.pendings.items } };

    ghost invariant = { λ e. BeginAtAcked e.acked e.pendings.items };
}

impl Exchange {
    /// An exchange of so many sites: nothing counts as acknowledged by any peer. It wants no memory.
    #[tactic(auto, unfolding(rights_lattice::specs::Sums::max_sites))]
    pub fn fresh(alloc: Global, sites: Sites) -> Exchange
        ensures { result ≡ record { sites = sites; acked = zeros; pendings = [] } }
    {
        Exchange {
            alloc,
            sites,
            acked: [0; SITE_NUMBERS],
            pendings: Vec::new(alloc),
        }
    }

    /// Counts so many sites, and no fewer than before. What peers have acknowledged stays, and so does what is pending.
    /// It wants no memory.
    pub fn grow(&mut self, sites: Sites)
        requires not_fewer { self.old.sites ≤ sites }
        ensures { self.new ≡ record self.old { sites = sites } }
    {
        self.sites = sites;
    }

    /// The count of sites.
    pub fn sites(&self) -> Sites
        ensures { result ≡ self.now.sites }
    {
        self.sites
    }

    /// How many entries the peer has acknowledged.
    pub fn acked(&self, peer: SiteId) -> u64
        ensures { result ≡ get_or self.now.acked peer 0 }
    {
        self.acked[peer.number() as usize]
    }

    /// Takes an acknowledgement: the number is the greater of the old one and this, and what is pending begins there.
    /// One that tells nothing new changes nothing. An error leaves all as it was.
    pub fn ack(&mut self, book: &Book, peer: SiteId, upto: Upto) -> Result<(), AllocError>
        requires within { upto ≤ length book.now.history }
        requires pending { IsPendingIn book.now.history self.old.pendings peer }
        ensures sites { self.new.sites ≡ self.old.sites }
        ensures acked { OnOk result (self.new.acked ≡ acked_upto self.old.acked peer upto) }
        ensures kept { OnOk result
            (KeepsPendings book.now.history self.old.pendings self.new.pendings) }
        ensures still { upto ≤ get_or self.old.acked peer 0 → self.new ≡ self.old }
        ensures unchanged { OnErr result (self.new ≡ self.old) }
        // It wants memory only where it raises the number.
        ensures memory { OnErr result (get_or self.old.acked peer 0 < upto) }
    {
        if upto.entries() <= self.acked(peer) {
            return Ok(());
        }
        let place = peer.number() as usize;
        let n = upto.entries() as usize;
        forget(self.alloc, &mut self.pendings, place, book, n)?;
        self.acked[place] = upto.entries();
        Ok(())
    }

    /// The message that is due to a peer: the delta-interval from what it has acknowledged to the end of the
    /// history, and none where it has acknowledged all, which wants no memory and changes nothing. What was added for
    /// a peer stays added.
    ///
    /// An error leaves the acknowledged numbers, and all messages given later, as they would have been.
    pub fn next(
        &mut self,
        alloc: Global,
        book: &Book,
        to: SiteId,
    ) -> Result<Option<Message>, AllocError>
        requires site { to < sites_of book.now.office book.now.history }
        requires other { to ≢ book.now.office.me }
        requires in_step { IsInStep book.now.history self.old to }
        ensures message { IfOk result (λ message. message ≡ due_to book.now self.old to) }
        ensures memory { OnErr result (IsSome (due_to book.now self.old to)) }
        ensures still { due_to book.now self.old to ≡ None → self.new ≡ self.old }
        ensures kept { KeepsExchange book.now.history self.old self.new }
        ensures reached { IfOk result (λ message. IsSome message
            → IsCaughtUp book.now.history self.new.pendings to) }
    {
        let len = book.len();
        if self.acked(to) as usize == len {
            return Ok(None);
        }
        // Bounds the length, which the prover wants to see here.
        let _limit = book.limit().entries();
        let Some(upto) = Upto::of(len as u64) else {
            unreachable!()
        };
        let place = to.number() as usize;
        reach(self.alloc, &mut self.pendings, &self.acked, place)?;
        let delta = due(alloc, &mut self.pendings, place, book)?;
        Ok(Some(Message::Delta {
            by: book.me(),
            to,
            upto,
            delta,
        }))
    }
}

// What is pending for a peer, if anything, begins behind the first `n` entries, or where it began if that is further.
fn forget(
    alloc: Global,
    pendings: &mut Vec<Pending>,
    place: usize,
    book: &Book,
    n: usize,
) -> Result<(), AllocError>
    requires within { n ≤ length book.now.history }
    requires pending { IsPendingIn book.now.history pendings.old.items place }
    ensures begins { OnOk result (FollowAcked place n pendings.old.items pendings.new.items) }
    ensures kept { OnOk result
        (KeepsPendings book.now.history pendings.old.items pendings.new.items) }
    ensures unchanged { OnErr result (pendings.new.items ≡ pendings.old.items) }
    ensures memory { OnErr result (IsPastAcked place n pendings.old.items) }
{
    if place >= pendings.len() {
        return Ok(());
    }
    pendings[place].acked(alloc, book, n)?;
    Ok(())
}

// Has a pending delta for each number up to this one, the own one too. Where one is made, nothing is added behind what
// is acknowledged.
fn reach(
    alloc: Global,
    pendings: &mut Vec<Pending>,
    acked: &[u64],
    place: usize,
) -> Result<(), AllocError>
    requires { place < length acked.now }
    ensures reached { OnOk result (place < length pendings.new.items) }
    ensures begins { StayAtAcked acked.now pendings.old.items pendings.new.items }
    ensures pending { (h : List Entered)
        → StayPending h acked.now pendings.old.items pendings.new.items }
    ensures added { KeepAdded pendings.old.items pendings.new.items }
{
    for peer in pendings.len()..place + 1 {
        pendings.push(Pending::behind(alloc, acked[peer] as usize))?;
    }
    Ok(())
}

// What is pending for a peer, with all entries of the history added.
fn due(
    alloc: Global,
    pendings: &mut Vec<Pending>,
    place: usize,
    book: &Book,
) -> Result<Delta, AllocError>
    requires there { place < length pendings.old.items }
    requires pending { IsPendingIn book.now.history pendings.old.items place }
    ensures delta { (acked : List ℕ) → BeginAtAcked acked pendings.old.items
        → IfOk result (λ delta. delta ≡ since book.now.history (get_or acked place 0)) }
    ensures begins { (acked : List ℕ)
        → StayAtAcked acked pendings.old.items pendings.new.items }
    ensures kept { KeepsPendings book.now.history pendings.old.items pendings.new.items }
    ensures reached { OnOk result (IsCaughtUp book.now.history pendings.new.items place) }
{
    caught_up(alloc, &mut pendings[place], book)
}

// What is pending, with all entries of the history added.
fn caught_up(alloc: Global, pending: &mut Pending, book: &Book) -> Result<Delta, AllocError>
    requires { IsPendingOf book.now.history pending.old }
    ensures delta { IfOk result (λ delta. delta ≡ since book.now.history pending.old.from) }
    ensures from { pending.new.from ≡ pending.old.from }
    ensures pending { IsPendingOf book.now.history pending.new }
    ensures added { pending.old.upto ≤ pending.new.upto }
    ensures reached { OnOk result (pending.new.upto ≡ length book.now.history) }
{
    pending.catch_up(alloc, book)?;
    pending.delta().copy(alloc)
}

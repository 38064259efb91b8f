//! One site of a world: its book, what its peers have acknowledged, and what is pending for them.
ghost use Rattle.std.specs.Prelude.{[], ◌≡◌, ◌≢◌, ◌≤◌, ◌<◌, ℕ, get_or, length, vec_capacity, IfOk, IfErr, OnOk, OnErr, IsSome, IsTrue, Some, Err};
ghost use Rattle.book_core.specs.Decision.{decision, entry_of_ask, office_from, sites_of};
ghost use Rattle.book_core.specs.Plans.{IsFresh, IsGrowFault, IsGrowPlan, IsReady};
ghost use Rattle.book_core.specs.Joining as join;
ghost use Rattle.book_core.specs.Joining.{join_decision};
ghost use Rattle.book_core.specs.declared.entry.Entry.TheVariants.{Joined};
ghost use Rattle.site_exchange.specs.Exchange.{Joins, entry_of_take, next, verdict, zeros};
ghost use Rattle.site_exchange.specs.Taking.{MayTake, acked_upto, site_after, stopped_with, with_entry};
ghost use Rattle.world_steps.specs.World.{IsInHand, entry_of_input};
ghost use Rattle.world_steps.specs.Outcomes.{answered, MayStore};
ghost use Rattle.world_steps.specs.Nodes.{AreAdded, ChangesSite, Stores, site_of, verdict_told};

use crate::step::{Input, Outcome, WorldFault};
use book_core::{Book, GrowFault, JoinDecision, JoinPlan, Limit, Plan, PlanFault, Planned};
use delta_mutators::Delta;
use request_ledger::{Request, RequestNumber};
use rights_lattice::{SiteId, Sites};
use site_exchange::{Exchange, Message, TakeFault, Upto, check};
use std::alloc::{AllocError, Global};
use std::marker::Model;

/// One site of a world. Its exchange counts the sites that its book counts, and what is pending for its peers is of the
/// book's history.
#[derive(Drop)]
pub struct Node {
    book: Book,
    exchange: Exchange,
}

impl Model for Node {
    ghost use Rattle.site_exchange.specs.Pendings.{IsExchangeOf};
    ghost use Rattle.world_steps.specs.NodeView.{NodeView, coded_node};

    ghost Value = { NodeView };

    ghost coded = { coded_node };

    ghost view = { λ n. record { book = n.book; acked = n.exchange.acked } };

    ghost invariant = { λ n. IsExchangeOf n.book.office n.book.history n.exchange };
}

impl Node {
    /// A site that has no history: nothing counts as acknowledged. Its exchange is fresh.
    pub fn new(alloc: Global, me: SiteId, sites: Sites, limit: Limit) -> Node
        requires { me < sites }
        ensures office { result.book.office ≡ office_from me sites limit }
        ensures history { result.book.history ≡ [] }
        ensures acked { result.acked ≡ zeros }
    {
        Node {
            book: Book::new(alloc, me, sites, limit),
            exchange: Exchange::fresh(alloc, sites),
        }
    }

    /// Its book.
    pub fn book(&self) -> &Book
        ensures { result.now ≡ self.now.book }
    {
        &self.book
    }

    /// Starts it anew from its history: nothing counts as acknowledged. Its exchange is a fresh one.
    pub fn restart(&mut self, alloc: Global)
        ensures { self.new ≡ record self.old { acked = zeros } }
    {
        self.exchange = Exchange::fresh(alloc, self.book.sites());
    }

    /// The message that is due to a peer, if any. Nothing that is shown changes, also where memory is refused.
    pub fn next(&mut self, alloc: Global, to: SiteId) -> Result<Option<Message>, AllocError>
        requires site { to < sites_of self.old.book.office self.old.book.history }
        requires other { to ≢ self.old.book.office.me }
        requires acked { (peer : ℕ) → get_or self.old.acked peer 0 ≤ length self.old.book.history }
        ensures message { IfOk result
            (λ message. message ≡ next self.old.book.office.me (site_of self.old) to) }
        ensures memory { OnErr result
            (IsSome (next self.old.book.office.me (site_of self.old) to)) }
        ensures unchanged { self.new ≡ self.old }
    {
        self.exchange.next(alloc, &self.book, to)
    }

    // Takes an acknowledgement of the first entries of its history.
    fn ack(&mut self, by: SiteId, upto: Upto) -> Result<(), AllocError>
        requires { upto ≤ length self.old.book.history }
        ensures taken { OnOk result
            (self.new ≡ record self.old { acked = acked_upto self.old.acked by upto }) }
        ensures wanted { OnErr result (get_or self.old.acked by 0 < upto) }
        ensures unchanged { OnErr result (self.new ≡ self.old) }
    {
        self.exchange.ack(&self.book, by, upto)
    }
}

/// Plans a growth at a site, of which nothing is shown.
pub fn plan_growth(node: &mut Node, alloc: Global, sites: Sites) -> Result<Planned, GrowFault>
    ensures same { site_of node.new ≡ site_of node.old }
    ensures office { node.new.book.office ≡ node.old.book.office }
    ensures plan { IfOk result (IsGrowPlan node.new.book sites) }
    ensures fault { IfErr result (IsGrowFault node.new.book sites) }
{
    node.book.plan_grow(alloc, sites)
}

/// Enters what was planned, and counts the sites that the book then counts.
pub fn enter(node: &mut Node, planned: Planned)
    requires { IsReady node.old.book planned }
    ensures entered { site_of node.new ≡ with_entry (Some planned) (site_of node.old) }
    ensures office { node.new.book.office ≡ node.old.book.office }
{
    node.book.enter(planned);
    node.exchange.grow(node.book.sites());
}

/// Adds the sites that are lacking of so many, each with no history, and counting so many.
pub fn add_sites(nodes: &mut Vec<Node>, alloc: Global, sites: Sites, limit: Limit)
    requires { sites ≤ vec_capacity nodes.old }
    ensures { AreAdded sites limit nodes.old.items nodes.new.items }
{
    for number in nodes.len() as u64..sites.count() {
        nodes.push_reserved(Node::new(alloc, sites.site(number), sites, limit));
    }
}

/// What a site does with a message.
#[derive(Clone, Copy, PartialEq, Eq, Debug)]
pub enum Judged {
    /// The delta is joined, where memory suffices.
    Joined,
    /// The site has all of the delta.
    NothingNew,
    /// The acknowledgement is taken, where memory suffices.
    Acked,
    /// Nothing changes.
    Refused(TakeFault),
}

/// Plans a request at a site, and enters it where an entry is planned. An error is `Memory`, and leaves the history and
/// what is acknowledged.
pub fn ask(
    node: &mut Node,
    alloc: Global,
    number: RequestNumber,
    request: &Request,
) -> Result<Outcome, WorldFault>
    ensures outcome { IfOk result (λ o.
        o ≡ answered (decision node.old.book.office node.old.book.history number request.now)) }
    ensures memory { IfErr result (λ fault. fault ≡ WorldFault.Memory) }
    ensures wanted { result ≡ Err WorldFault.Memory
        → IsFresh (decision node.old.book.office node.old.book.history number request.now) }
    ensures site { ChangesSite (with_entry (entry_of_ask
        node.old.book.office node.old.book.history number request.now) (site_of node.old))
        node.old node.new result }
{
    match node.book.plan(alloc, number, request) {
        Ok(Plan::Again { reply, .. }) => Ok(Outcome::Answered(reply)),
        Ok(Plan::New(planned)) => {
            let reply = planned.reply();
            node.book.enter(planned);
            Ok(Outcome::Answered(reply))
        }
        Err(PlanFault::Memory) => Err(WorldFault::Memory),
        Err(fault) => Ok(Outcome::Refused(fault)),
    }
}

/// What a site does with a message, by what it holds now.
pub fn judge(book: &Book, message: &Message) -> Judged
    ensures { verdict_told result ≡ verdict book.now.office book.now.history message.now }
{
    if let Err(fault) = check(book, message) {
        return Judged::Refused(TakeFault::from(fault));
    }
    match message {
        Message::Ack { .. } => Judged::Acked,
        Message::Delta { by, delta, .. } => match book.join_decision(*by, delta) {
            JoinDecision::Joins => Judged::Joined,
            JoinDecision::NothingNew => Judged::NothingNew,
            JoinDecision::Refuses(fault) => Judged::Refused(TakeFault::from(fault)),
        },
    }
}

/// Takes a message at a site: joins its delta or takes its acknowledgement, as the site judges it. An error leaves the
/// history and what is acknowledged.
pub fn take(node: &mut Node, alloc: Global, message: &Message) -> Result<(), AllocError>
    ensures site { ChangesSite (site_after (verdict
        node.old.book.office node.old.book.history message.now) message.now (site_of node.old))
        node.old node.new result }
    ensures wanted { OnErr result (MayTake (verdict
        node.old.book.office node.old.book.history message.now) (site_of node.old) message.now) }
{
    match (judge(&node.book, message), message) {
        (Judged::Joined, Message::Delta { by, delta, .. }) => {
            join(&mut node.book, alloc, *by, delta)
        }
        (Judged::Acked, Message::Ack { by, upto, .. }) => node.ack(*by, *upto),
        _ => Ok(()),
    }
}

// Joins a copy of a peer's delta.
fn join(book: &mut Book, alloc: Global, peer: SiteId, delta: &Delta) -> Result<(), AllocError>
    requires { join_decision book.old.office book.old.history peer delta.now ≡ join.Joins }
    ensures { Stores (Some (Joined peer delta.now)) book.old book.new result }
{
    let copy = delta.copy(alloc)?;
    match book.plan_join(peer, copy) {
        Ok(JoinPlan::New(planned)) => {
            book.enter(planned);
            Ok(())
        }
        Ok(JoinPlan::NothingNew) => unreachable!(),
        Err(_) => Err(AllocError),
    }
}

/// Stops a site in the midst of a request or of taking a message and starts it anew: the entry that the input adds is
/// in its history where it was stored, and nothing counts as acknowledged. An error leaves the history and what is
/// acknowledged.
pub fn stop(
    node: &mut Node,
    alloc: Global,
    sent: &[Message],
    input: &Input,
    stored: bool,
) -> Result<Outcome, WorldFault>
    requires in_hand { IsInHand sent.now input.now }
    ensures outcome { IfOk result (λ o. o ≡ Outcome.Stopped) }
    ensures memory { IfErr result (λ fault. fault ≡ WorldFault.Memory) }
    ensures stores { result ≡ Err WorldFault.Memory → IsTrue stored }
    ensures wanted { result ≡ Err WorldFault.Memory
        → MayStore node.old.book.office node.old.book.history sent.now input.now }
    ensures site { ChangesSite (stopped_with (entry_of_input
        node.old.book.office node.old.book.history sent.now input.now) stored (site_of node.old))
        node.old node.new result }
{
    if stored && store(&mut node.book, alloc, sent, input).is_err() {
        return Err(WorldFault::Memory);
    }
    node.restart(alloc);
    Ok(Outcome::Stopped)
}

// Enters what the input adds.
fn store(book: &mut Book, alloc: Global, sent: &[Message], input: &Input) -> Result<(), AllocError>
    requires in_hand { IsInHand sent.now input.now }
    ensures stores { Stores (entry_of_input book.old.office book.old.history sent.now input.now)
        book.old book.new result }
    ensures wanted { OnErr result (MayStore book.old.office book.old.history sent.now input.now) }
{
    match input {
        Input::Request { number, request } => store_request(book, alloc, *number, request),
        Input::Take { message } => store_delta(book, alloc, &sent[*message]),
        Input::Grow { .. } => unreachable!(),
    }
}

// Enters what asking adds.
fn store_request(
    book: &mut Book,
    alloc: Global,
    number: RequestNumber,
    request: &Request,
) -> Result<(), AllocError>
    ensures stores { Stores (entry_of_ask book.old.office book.old.history number request.now)
        book.old book.new result }
    ensures wanted { OnErr result
        (IsFresh (decision book.old.office book.old.history number request.now)) }
{
    match book.plan(alloc, number, request) {
        Ok(Plan::New(planned)) => {
            book.enter(planned);
            Ok(())
        }
        Err(PlanFault::Memory) => Err(AllocError),
        _ => Ok(()),
    }
}

// Enters what taking the message adds.
fn store_delta(book: &mut Book, alloc: Global, message: &Message) -> Result<(), AllocError>
    ensures stores { Stores (entry_of_take book.old.office book.old.history message.now)
        book.old book.new result }
    ensures wanted { OnErr result (verdict book.old.office book.old.history message.now ≡ Joins) }
{
    match (judge(book, message), message) {
        (Judged::Joined, Message::Delta { by, delta, .. }) => join(book, alloc, *by, delta),
        _ => Ok(()),
    }
}

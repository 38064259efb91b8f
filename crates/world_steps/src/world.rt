//! All sites of one world, and all messages that they ever sent.
ghost use Rattle.std.specs.Prelude.{IfOk, IfErr, IfSome, OnOk, OnErr, IsSome, option_copied, ◌↔◌, ◌≡◌, ◌<◌, ◌≤◌, List, map, take, Ok, Err, IsTrue, IsSomeAnd, slice_get, vec_len, vec_capacity};
ghost use Rattle.book_core.specs.Operations.{outstanding, released, sold, refunded};
ghost use Rattle.site_exchange.specs.Exchange.{receiver};
ghost use Rattle.site_exchange.specs.Taking.{ack_due};
ghost use Rattle.world_steps.specs.World.{IsReached, after, all_operations, are_peers, count, events_of, history_at, is_there, office_at, opening, run, totals_of};
ghost use Rattle.site_exchange.specs.Taking.{with_given};
ghost use Rattle.world_steps.specs.Promises.{HoldsPromises};
ghost use Rattle.world_steps.specs.declared.step.Input.{Input};
ghost use Rattle.world_steps.specs.declared.step.Outcome.{Outcome};
ghost use Rattle.world_steps.specs.Outcomes.{outcome, outcomes, sent_as, taken_as, IsDue, MakesStep, MayWantMemory};
ghost use Rattle.world_steps.specs.Nodes.{verdict_told};

use crate::books::{add_names, listed, with_own};
use crate::node::{Judged, Node, add_sites, ask, enter, judge, plan_growth, stop, take};
use crate::step::{Input, Outcome, Step, WorldFault};
use book_core::{Book, GrowFault, Limit};
use local_rights::Totals;
use request_ledger::{Request, RequestNumber};
use rights_lattice::{Event, SiteId, Sites};
use site_exchange::{Message, TakeFault, ack_for};
use std::alloc::{AllocError, Global};
use std::collections::BTreeSet;
use std::marker::Model;

/// The sites, and all messages ever sent, which are numbered from 0.
#[derive(Drop)]
pub struct World {
    sites: Vec<Node>,
    sent: Vec<Message>,
}

impl Model for World {
    ghost use Rattle.world_steps.specs.World.{World};
    ghost use Rattle.world_steps.specs.WorldCode.{coded_world};

    ghost Value = { World };

    ghost coded = { coded_world };

    ghost use Rattle.world_steps.specs.Reaching.{world_of, IsKept};

    ghost view = { λ w. world_of w.sites.items w.sent.items };

    ghost invariant = { λ w. IsKept w.sites.items w.sent.items };
}

impl World {
    /// The sites, each with an empty history and this limit; no message was sent.
    pub fn new(alloc: Global, sites: Sites, limit: Limit) -> Result<World, AllocError>
        ensures opening { IfOk result (λ world. world ≡ opening sites limit) }
        ensures promises { IfOk result HoldsPromises }
    {
        let mut nodes = Vec::new(alloc);
        nodes.reserve(sites.count() as usize)?;
        add_sites(&mut nodes, alloc, sites, limit);
        Ok(World {
            sites: nodes,
            sent: Vec::new(alloc),
        })
    }

    /// Some list of steps leads to this world, so all that holds over every list of steps holds of it.
    pub fn promises(&self)
        ensures reached { IsReached self.now }
        ensures promises { HoldsPromises self.now }
    {
        // Names what a world keeps, which the prover wants to see.
        let _ = &self.sites;
    }

    /// Makes one step. An error changes nothing: `NoSite` where the site of the step, or the peer of its send, is not there,
    /// or it would send to itself or to a site that it does not count, `NoMessage` where a message that the step names was
    /// never sent, and `Memory` where neither is so and memory was refused, in that order.
    pub fn step(&mut self, alloc: Global, step: Step) -> Result<Outcome, WorldFault>
        ensures outcome { IfOk result (λ o. outcome self.old step ≡ Ok o) }
        ensures fault { IfErr result (IsDue self.old step) }
        ensures memory { result ≡ Err WorldFault.Memory → MayWantMemory self.old step }
        ensures made { OnOk result (self.new ≡ after self.old step) }
        ensures unchanged { OnErr result (self.new ≡ self.old) }
        ensures promises { HoldsPromises self.new }
    {
        // Names what a world keeps, which the prover wants to see before the step.
        let _ = &self.sites;
        match step {
            Step::Ask {
                site,
                number,
                request,
            } => self.ask(alloc, site, number, &request),
            Step::Send { by, to } => self.send(alloc, by, to),
            Step::Deliver { index } => self.deliver(alloc, index),
            Step::Restart { site } => self.restart(alloc, site),
            Step::Stop {
                site,
                input,
                stored,
            } => self.stop(alloc, site, input, stored),
            Step::Grow { site, sites } => self.grow(alloc, site, sites),
        }
    }

    fn ask(
        &mut self,
        alloc: Global,
        site: SiteId,
        number: RequestNumber,
        request: &Request,
    ) -> Result<Outcome, WorldFault>
        ensures { MakesStep self.old (Step.Ask site number request.now) self.new result }
    {
        let place = site.number() as usize;
        if place >= self.sites.len() {
            return Err(WorldFault::NoSite);
        }
        let node = &mut self.sites[place];
        ask(node, alloc, number, request)
    }

    fn restart(&mut self, alloc: Global, site: SiteId) -> Result<Outcome, WorldFault>
        ensures { MakesStep self.old (Step.Restart site) self.new result }
    {
        let place = site.number() as usize;
        if place >= self.sites.len() {
            return Err(WorldFault::NoSite);
        }
        let node = &mut self.sites[place];
        node.restart(alloc);
        Ok(Outcome::Restarted)
    }

    fn stop(
        &mut self,
        alloc: Global,
        site: SiteId,
        input: Input,
        stored: bool,
    ) -> Result<Outcome, WorldFault>
        ensures { MakesStep self.old (Step.Stop site input stored) self.new result }
    {
        if let Input::Grow { sites } = input {
            return self.stop_growth(alloc, site, sites, stored);
        }
        let place = site.number() as usize;
        if place >= self.sites.len() {
            return Err(WorldFault::NoSite);
        }
        if !self.has_message_of(&input) {
            return Err(WorldFault::NoMessage);
        }
        let node = &mut self.sites[place];
        stop(node, alloc, &self.sent, &input, stored)
    }

    // Stops a site in the midst of a growth: it has grown where the count is taken and that was stored.
    fn stop_growth(
        &mut self,
        alloc: Global,
        site: SiteId,
        sites: Sites,
        stored: bool,
    ) -> Result<Outcome, WorldFault>
        ensures { MakesStep self.old (Step.Stop site (Input.Grow sites) stored) self.new result }
    {
        if stored {
            self.grow(alloc, site, sites)?;
        }
        self.restart(alloc, site)?;
        Ok(Outcome::Stopped)
    }

    fn grow(&mut self, alloc: Global, site: SiteId, sites: Sites) -> Result<Outcome, WorldFault>
        ensures { MakesStep self.old (Step.Grow site sites) self.new result }
    {
        let place = site.number() as usize;
        if place >= self.sites.len() {
            return Err(WorldFault::NoSite);
        }
        let planned = match plan_growth(&mut self.sites[place], alloc, sites) {
            Ok(planned) => planned,
            Err(GrowFault::Memory) => return Err(WorldFault::Memory),
            Err(fault) => return Ok(Outcome::NotGrown(fault)),
        };
        // Room first, so that nothing can fail once the growth is entered.
        let lacking = (sites.count() as usize).saturating_sub(self.sites.len());
        self.sites.reserve(lacking)?;
        let node = &mut self.sites[place];
        let limit = node.book().limit();
        enter(node, planned);
        add_sites(&mut self.sites, alloc, sites, limit);
        Ok(Outcome::Grown)
    }

    // What a step is refused as where no memory is left.
    fn due_without_memory(&self, step: &Step) -> WorldFault
        ensures { IsDue self.now step.now result }
    {
        let there = self.sites.len() as u64;
        match step {
            Step::Ask { site, .. } | Step::Restart { site } | Step::Grow { site, .. } => {
                if site.number() < there {
                    WorldFault::Memory
                } else {
                    WorldFault::NoSite
                }
            }
            Step::Send { by, to } => {
                if self.are_peers(*by, *to) {
                    WorldFault::Memory
                } else {
                    WorldFault::NoSite
                }
            }
            Step::Deliver { index } => {
                if *index < self.sent.len() {
                    WorldFault::Memory
                } else {
                    WorldFault::NoMessage
                }
            }
            Step::Stop { site, input, .. } => {
                if site.number() >= there {
                    WorldFault::NoSite
                } else if self.has_message_of(input) {
                    WorldFault::Memory
                } else {
                    WorldFault::NoMessage
                }
            }
        }
    }

    fn has_message_of(&self, input: &Input) -> bool
        ensures { result ≡ is_there self.now.sent input.now }
    {
        match input {
            Input::Request { .. } | Input::Grow { .. } => true,
            Input::Take { message } => *message < self.sent.len(),
        }
    }

    fn send(&mut self, alloc: Global, by: SiteId, to: SiteId) -> Result<Outcome, WorldFault>
        ensures { MakesStep self.old (Step.Send by to) self.new result }
    {
        if !self.are_peers(by, to) {
            return Err(WorldFault::NoSite);
        }
        let node = &mut self.sites[by.number() as usize];
        let due = node.next(alloc, to)?;
        make_room(&mut self.sent, due.is_some())?;
        let outcome = sent_as(&due, self.sent.len());
        put(&mut self.sent, due);
        Ok(outcome)
    }

    fn are_peers(&self, by: SiteId, to: SiteId) -> bool
        ensures { result ≡ are_peers self.now by to }
    {
        let Some(book) = self.book(by) else {
            return false;
        };
        to.number() < book.sites().count() && by != to
    }

    fn deliver(&mut self, alloc: Global, index: usize) -> Result<Outcome, WorldFault>
        ensures { MakesStep self.old (Step.Deliver index) self.new result }
    {
        if index >= self.sent.len() {
            return Err(WorldFault::NoMessage);
        }
        let message = &self.sent[index];
        let place = receiver(message).number() as usize;
        let taken = judge(self.sites[place].book(), message);
        let ack = ack_due(&taken, message);
        // Room first, so that nothing can fail once the message is taken.
        if make_room(&mut self.sent, ack.is_some()).is_err() {
            return Err(WorldFault::Memory);
        }
        let node = &mut self.sites[place];
        if take(node, alloc, &self.sent[index]).is_err() {
            return Err(WorldFault::Memory);
        }
        let outcome = taken_as(&taken, self.sent.len());
        put(&mut self.sent, ack);
        Ok(outcome)
    }
}

impl World {
    /// Makes steps in turn, and tells what each was answered. At the first that is not made it stops: each step before
    /// it was made, and their answers are not given. It is named by its place in the list, from 0, with a fault that
    /// is due it: `Memory` also where there was no room for its answer.
    pub fn run(
        &mut self,
        alloc: Global,
        steps: Vec<Step>,
    ) -> Result<Vec<Outcome>, (usize, WorldFault)>
        ensures outcomes { IfOk result (λ os. map Ok os.items ≡ outcomes steps.items self.old) }
        ensures made { OnOk result (self.new ≡ run steps.items self.old) }
        ensures stopped { IfErr result (λ e. self.new ≡ run (take e.0 steps.items) self.old) }
        ensures before { IfErr result (λ e. (answers : List Outcome)
            × (map Ok answers ≡ outcomes (take e.0 steps.items) self.old)) }
        ensures fault { IfErr result
            (λ e. IsSomeAnd (slice_get steps.items e.0) (λ step. IsDue self.new step e.1)) }
        ensures promises { HoldsPromises self.new }
    {
        // Names what a world keeps, which the prover wants to see before the steps.
        let _ = &self.sites;
        let mut answers = Vec::new(alloc);
        // Names a type inside of the outcomes, which the prover wants to see in this function.
        let _: Option<TakeFault> = None;
        for (place, step) in steps.iter().enumerate() {
            if answers.reserve(1).is_err() {
                return Err((place, self.due_without_memory(step)));
            }
            match self.step(alloc, *step) {
                Ok(answer) => answers.push_reserved(answer),
                Err(fault) => return Err((place, fault)),
            }
        }
        Ok(answers)
    }

    /// What all sites released, sold and took back of an event: the sums over the flat list of the requests that
    /// were done.
    pub fn totals(&self, event: Event) -> Totals
        ensures totals { result ≡ totals_of self.now event }
        ensures never_oversold { outstanding
            event (all_operations self.now) ≤ released event (all_operations self.now) }
        ensures refunds { refunded
            event (all_operations self.now) ≤ sold event (all_operations self.now) }
    {
        let mut totals = Totals {
            released: 0,
            sold: 0,
            refunded: 0,
        };
        for node in &self.sites {
            totals = with_own(totals, node.book(), event);
        }
        totals
    }

    /// The names that a site knows, rising, each once.
    pub fn events(&self, alloc: Global) -> Result<Vec<Event>, AllocError>
        ensures { IfOk result (λ events. events.items ≡ events_of self.now) }
    {
        let mut names = BTreeSet::new(alloc);
        for node in &self.sites {
            add_names(&mut names, node.book())?;
        }
        listed(alloc, &names)
    }

    /// The message with this index in the list of all messages ever sent.
    pub fn message(&self, index: usize) -> Option<&Message>
        ensures { option_copied result ≡ slice_get self.now.sent index }
    {
        self.sent.get(index)
    }

    /// The book of a site.
    pub fn book(&self, site: SiteId) -> Option<&Book>
        ensures there { IsSome result ↔ (site < count self.now) }
        ensures office { IfSome result (λ book. book.now.office ≡ office_at self.now site) }
        ensures history { IfSome result (λ book. book.now.history ≡ history_at self.now site) }
    {
        match self.sites.get(site.number() as usize) {
            Some(node) => Some(node.book()),
            None => None,
        }
    }
}

// To whom a message goes.
fn receiver(message: &Message) -> SiteId
    ensures { result ≡ receiver message.now }
{
    match message {
        Message::Delta { to, .. } | Message::Ack { to, .. } => *to,
    }
}

// What sending is answered, where the message gets this index.
fn sent_as(due: &Option<Message>, index: usize) -> Outcome
    ensures { result ≡ sent_as due.now index }
{
    match due {
        None => Outcome::NothingToSend,
        Some(_) => Outcome::Sent { index },
    }
}

// What a delivery is answered, where the acknowledgement gets this index.
fn taken_as(taken: &Judged, index: usize) -> Outcome
    ensures { result ≡ taken_as (verdict_told taken.now) index }
{
    match taken {
        Judged::Joined => Outcome::Joined { ack: index },
        Judged::NothingNew => Outcome::NothingNew { ack: index },
        Judged::Acked => Outcome::Acked,
        Judged::Refused(fault) => Outcome::NotTaken(*fault),
    }
}

// The acknowledgement that is given back, if any.
fn ack_due(taken: &Judged, message: &Message) -> Option<Message>
    ensures { result ≡ ack_due (verdict_told taken.now) message.now }
{
    match (taken, message) {
        (Judged::Joined | Judged::NothingNew, Message::Delta { .. }) => Some(ack_for(message)),
        _ => None,
    }
}

// Makes room for a message, if one is to be put.
fn make_room(sent: &mut Vec<Message>, is_put: bool) -> Result<(), AllocError>
    ensures items { sent.new.items ≡ sent.old.items }
    ensures ok { OnOk result (IsTrue is_put → vec_len sent.new < vec_capacity sent.new) }
    ensures wanted { OnErr result (IsTrue is_put) }
{
    if is_put { sent.reserve(1) } else { Ok(()) }
}

// Puts the message, if there is one, at the end of those that were sent.
fn put(sent: &mut Vec<Message>, message: Option<Message>)
    requires { IsSome message → vec_len sent.old < vec_capacity sent.old }
    ensures { sent.new.items ≡ with_given sent.old.items message }
{
    if let Some(message) = message {
        sent.push_reserved(message);
    }
}

//! Group commit: callers who wait at the same moment are one batch, and one of them, the leader, asks for all.

ghost use Rattle.std.specs.Prelude.{◌≡◌, [], ◌++◌, All, IfOk, IfSome, OnErr, OnOk};
ghost use Rattle.site_desk.specs.Moments.{StandsGiven};
ghost use Rattle.site_desk.specs.SiteView.{SiteInStep};
ghost use Rattle.live_office.specs.Admissible.{IsShut, admissible};
ghost use Rattle.live_office.specs.Together.{IsAskedAs, IsGiven};

use history_keeper::Keeper;
use request_ledger::{Request, RequestNumber};
use site_desk::{Answer, AskFault, Desk, NoGate, Opens, Receipt, Seat};
use std::alloc::{AllocError, Global};
use std::marker::PhantomData;
use std::mem;
use std::sync::atomic::{AtomicU64, Ordering};
use std::sync::{Condvar, Mutex, Wait};
use std::time::{Clock, Duration, Instant};

type Given = Result<(Answer, Receipt), AskFault>;

// How many slots there are: some times as many as threads, so that a slot is free again when its turn comes.
const SLOTS: u64 = 256;

// What a request costs of the processor, about, in microseconds: at the desk, and from a reply to the next line. A leader
// waits for nobody where a batch took no longer than that for each: then the disk is not what callers wait for.
const COST: u64 = 35;

// What a request of a batch came to: its receipt, or None where the store failed.
#[derive(Drop)]
pub(crate) struct RequestResult<K: Keeper, L: Opens> {
    receipt: Option<Receipt>,
    of: PhantomData<(K, L)>,
    ghost given: { ∥ IsGiven (admissible L.office L.began K.Keeper)
        receipt ∥₁ },
}

impl<K: Keeper, L: Opens> RequestResult<K, L> {
    pub(crate) fn has_failed(&self) -> bool {
        self.receipt.is_none()
    }

    // Whether it is what this request came to, as far as it tells.
    pub(crate) fn is_of(&self, number: RequestNumber, request: &Request) -> bool {
        match &self.receipt {
            Some(receipt) => receipt.number == number && receipt.request == *request,
            None => true,
        }
    }
}

// What was given for a request, for its caller; None for a refusal, since the caller asks again.
fn told_of<K: Keeper, L: Opens>(given: &Given) -> Option<RequestResult<K, L>>
    requires { StandsGiven L.office L.began (SiteInStep K.Keeper)
        given.now }
{
    match given {
        Ok((_, receipt)) => Some(RequestResult {
            receipt: Some(*receipt),
            of: PhantomData,
        }),
        Err(_) => None,
    }
}

// The same of a request that a failed store did not store.
fn told_failed<K: Keeper, L: Opens>() -> RequestResult<K, L>
    requires { IsShut (admissible L.office L.began K.Keeper) }
{
    RequestResult {
        receipt: None,
        of: PhantomData,
    }
}

// What a caller is told of its own request; None where another asks it again.
pub(crate) fn own_result<K: Keeper, L: Opens>(
    told: RequestResult<K, L>,
    number: RequestNumber,
    request: &Request,
) -> Option<Result<Receipt, AskFault>>
    ensures { IfSome result (IsAskedAs (admissible L.office L.began K.Keeper) number request.now) }
{
    match told.receipt {
        Some(receipt) if receipt.number == number && receipt.request == *request => {
            Some(Ok(receipt))
        }
        Some(_) => None,
        None => Some(Err(AskFault::Store)),
    }
}

// What a caller at a slot hears.
#[derive(Clone, Copy, PartialEq, Eq)]
enum Word {
    // Nobody is there.
    Free,
    // Nothing yet.
    Wait,
    // To lead the next batch.
    Lead,
    // That its requests were asked.
    Answered,
}

// What a caller hears, and what its requests came to, in their order.
#[derive(Drop)]
struct Notice<K: Keeper, L: Opens> {
    word: Word,
    told: Vec<RequestResult<K, L>>,
}

// Where one caller waits. Nobody else is woken there.
#[derive(Drop)]
struct Slot<K: Keeper, L: Opens> {
    notice: Mutex<Notice<K, L>>,
    changed: Condvar,
}

impl<K: Keeper, L: Opens> Slot<K, L> {
    fn new(alloc: Global) -> Slot<K, L> {
        Slot {
            notice: Mutex::new(Notice {
                word: Word::Free,
                told: Vec::new(alloc),
            }),
            changed: Condvar::new(),
        }
    }

    // Takes the slot, unless somebody has it.
    fn claim<T: Wait>(&self, rt: &T) -> bool {
        let mut notice = self.notice.lock(rt);
        if notice.word != Word::Free {
            return false;
        }
        notice.word = Word::Wait;
        true
    }

    // Says a word to the caller here.
    fn say<T: Wait>(&self, rt: &T, word: Word) {
        let mut notice = self.notice.lock(rt);
        notice.word = word;
        drop(notice);
        self.changed.notify_one();
    }

    // Puts down what a request of the caller here came to. Where memory is refused for it, the caller asks again.
    fn put<T: Wait>(&self, rt: &T, told: RequestResult<K, L>) {
        let _ = self.notice.lock(rt).told.push(told);
    }

    // Waits for a word. True where the caller is to lead.
    fn hears_lead<T: Wait>(&self, rt: &T) -> bool {
        let mut notice = self.notice.lock(rt);
        for _ in rt.forever() {
            if notice.word != Word::Wait {
                return notice.word == Word::Lead;
            }
            notice = self.changed.wait(rt, notice);
        }
        unreachable!()
    }

    // Takes what the requests of the caller here came to, and lets the slot go.
    fn leave<T: Wait>(&self, rt: &T, alloc: Global) -> Vec<RequestResult<K, L>> {
        let mut notice = self.notice.lock(rt);
        notice.word = Word::Free;
        mem::replace(&mut notice.told, Vec::new(alloc))
    }
}

/// Requests that the lines of one caller ask in a row.
#[derive(Drop)]
pub(crate) struct AskedRow {
    pub(crate) requests: Vec<(RequestNumber, Request)>,
}

impl AskedRow {
    pub(crate) fn new(alloc: Global) -> AskedRow
        ensures { result.requests.items ≡ [] }
    {
        AskedRow {
            requests: Vec::new(alloc),
        }
    }

    pub(crate) fn push(&mut self, asked: &[(RequestNumber, Request)]) -> Result<(), AllocError>
        ensures pushed { OnOk result
            (self.new.requests.items ≡ self.old.requests.items ++ asked.now) }
        ensures same { OnErr result (self.new.requests.items ≡ self.old.requests.items) }
    {
        self.requests.extend_from_slice(asked)?;
        Ok(())
    }
}

// What callers ask together: the slot of each caller, and of each request the slot of its caller.
#[derive(Drop)]
struct Batch {
    callers: Vec<usize>,
    owners: Vec<usize>,
    requests: Vec<(RequestNumber, Request)>,
}

impl Batch {
    fn new(alloc: Global) -> Batch {
        Batch {
            callers: Vec::new(alloc),
            owners: Vec::new(alloc),
            requests: Vec::new(alloc),
        }
    }

    fn push(
        &mut self,
        slot: usize,
        requests: &[(RequestNumber, Request)],
    ) -> Result<(), AllocError> {
        self.callers.push(slot)?;
        'requests: for request in requests {
            self.owners.push(slot)?;
            self.requests.push(*request)?;
        }
        Ok(())
    }

    // Adds a caller with its requests. Where memory is refused, nothing changes.
    fn add(
        &mut self,
        slot: usize,
        requests: &[(RequestNumber, Request)],
    ) -> Result<(), AllocError> {
        let (callers, asked) = (self.callers.len(), self.requests.len());
        let added = self.push(slot, requests);
        if added.is_err() {
            self.callers.truncate(callers);
            self.owners.truncate(asked);
            self.requests.truncate(asked);
        }
        added
    }
}

// How a caller takes part in the next batch.
#[derive(Clone, Copy, PartialEq, Eq)]
enum Part {
    // Another leads.
    Follow,
    // It is the last for whom the leader waits.
    Complete,
    Lead,
    // Not at all, since memory was refused.
    Refused,
}

// Who waits for the next batch, and for how many its leader waits, and how long: for as many as were answered or waited
// when the batch before ended, and at most half as long as that took.
#[derive(Drop)]
struct Queue {
    has_leader: bool,
    is_gathering: bool,
    // How many callers the batch has that is being asked.
    asking: usize,
    expected: usize,
    patience: Duration,
    batch: Batch,
}

impl Queue {
    fn new(alloc: Global) -> Queue {
        Queue {
            has_leader: false,
            is_gathering: false,
            asking: 0,
            expected: 0,
            patience: Duration::ZERO,
            batch: Batch::new(alloc),
        }
    }

    // Whether a caller is alone: nobody leads, and at most one was there just before. It then has the lead.
    fn leads_alone(&mut self) -> bool {
        if self.has_leader || self.expected > 1 {
            return false;
        }
        self.has_leader = true;
        self.asking = 1;
        true
    }

    // A caller joins those who wait.
    fn join(&mut self, slot: usize, requests: &[(RequestNumber, Request)]) -> Part {
        if self.batch.add(slot, requests).is_err() {
            return Part::Refused;
        }
        if !self.has_leader {
            self.has_leader = true;
            return Part::Lead;
        }
        if self.is_gathering && self.batch.callers.len() >= self.expected {
            self.is_gathering = false;
            return Part::Complete;
        }
        Part::Follow
    }

    // How long the leader waits for those who are not there yet; None where it does not.
    fn gather(&mut self) -> Option<Duration> {
        if self.patience.is_zero() || self.batch.callers.len() >= self.expected {
            return None;
        }
        self.is_gathering = true;
        Some(self.patience)
    }

    // The batch of all who wait.
    fn take_batch(&mut self, alloc: Global) -> Batch {
        self.is_gathering = false;
        self.asking = self.batch.callers.len();
        mem::replace(&mut self.batch, Batch::new(alloc))
    }

    // So many callers were answered so many requests in this time. The slot of who leads next, if anybody waits.
    fn end_batch(&mut self, callers: usize, requests: usize, took: Duration) -> Option<usize> {
        self.asking = 0;
        self.expected = callers.saturating_add(self.batch.callers.len());
        let cost = Duration::from_micros(COST.saturating_mul(requests as u64));
        self.patience = if took > cost {
            took / 2
        } else {
            Duration::ZERO
        };
        let next = self.batch.callers.first().copied();
        self.has_leader = next.is_some();
        next
    }
}

// The time since then, and none where the clock cannot be read.
fn time_since<C: Clock>(clock: &C, began: Option<Instant>) -> Duration {
    match began {
        Some(began) => began.elapsed(clock).unwrap_or(Duration::ZERO),
        None => Duration::ZERO,
    }
}

/// Where callers ask together (group commit): while one batch is asked, those who come wait, and one of them leads the
/// next. So one sync of the disk stores all that they enter. A leader waits for those who were there just before, at most
/// half as long as the last batch took; a caller alone is asked at once. (Our own, after group commit.)
#[derive(Drop)]
pub struct Together<K: Keeper, L: Opens> {
    queue: Mutex<Queue>,
    complete: Condvar,
    slots: Vec<Slot<K, L>>,
    next_slot: AtomicU64,
}

impl<K: Keeper, L: Opens> Together<K, L> {
    /// Nobody asks yet. Where memory is refused, there are fewer slots, and who finds none asks by itself.
    pub fn new(alloc: Global) -> Together<K, L> {
        let mut slots = Vec::new(alloc);
        'slots: for _ in 0..SLOTS {
            let _ = slots.push(Slot::new(alloc));
        }
        Together {
            queue: Mutex::new(Queue::new(alloc)),
            complete: Condvar::new(),
            slots,
            next_slot: AtomicU64::new(0),
        }
    }

    /// How many callers have requests in the batch that is being asked, and how many wait for the next.
    pub fn asking_and_waiting<T: Wait>(&self, rt: &T) -> (u64, u64) {
        let queue = self.queue.lock(rt);
        (queue.asking as u64, queue.batch.callers.len() as u64)
    }

    fn say<T: Wait>(&self, rt: &T, slot: usize, word: Word) {
        if let Some(slot) = self.slots.get(slot) {
            slot.say(rt, word);
        }
    }

    // Lets callers know what was given for their requests, and those whom memory is refused for, or whose requests were
    // refused, nothing: they ask again.
    fn tell_given<T: Wait>(&self, rt: &T, owners: &[usize], given: &[Given])
        requires { All (StandsGiven L.office L.began (SiteInStep K.Keeper)) given.now }
    {
        'requests: for (at, given) in given.iter().enumerate() {
            if at < owners.len() {
                if let Some(slot) = self.slots.get(owners[at]) {
                    if let Some(told) = told_of(given) {
                        slot.put(rt, told);
                    }
                }
            }
        }
    }

    // The same of requests that a failed store did not store.
    fn tell_failed<T: Wait>(&self, rt: &T, owners: &[usize])
        requires { IsShut (admissible L.office L.began K.Keeper) }
    {
        'requests: for owner in owners {
            if let Some(slot) = self.slots.get(*owner) {
                slot.put(rt, told_failed());
            }
        }
    }

    // Asks for all of a batch, and puts down what each request came to.
    fn ask_batch<T: Wait>(
        &self,
        rt: &T,
        alloc: Global,
        desk: &Desk<K, L>,
        seat: &mut Seat<L>,
        batch: &Batch,
    )
        ensures { seat.new.parts ≡ seat.old.parts }
    {
        match desk.ask_all(rt, alloc, seat, batch.requests.as_slice()) {
            Ok(given) => self.tell_given(rt, batch.owners.as_slice(), given.as_slice()),
            Err(AskFault::Store) => self.tell_failed(rt, batch.owners.as_slice()),
            // Nothing was asked: each asks again by itself.
            Err(_) => {}
        }
    }

    // The batch of those who wait, once all who are expected are there, or the leader has waited long enough.
    fn gather<T: Wait>(&self, rt: &T, alloc: Global) -> Batch {
        let seen = self.complete.notifications();
        let patience = self.queue.lock(rt).gather();
        if let Some(patience) = patience {
            self.complete.sleep(rt, seen, patience);
        }
        self.queue.lock(rt).take_batch(alloc)
    }

    // So many callers were answered so many requests in this time. The lead goes to one who waits.
    fn hand_on<T: Wait>(&self, rt: &T, callers: usize, requests: usize, took: Duration) {
        let next = self.queue.lock(rt).end_batch(callers, requests, took);
        if let Some(slot) = next {
            self.say(rt, slot, Word::Lead);
        }
    }

    // Wakes the callers of a batch.
    fn wake<T: Wait>(&self, rt: &T, batch: &Batch) {
        'callers: for slot in batch.callers.as_slice() {
            self.say(rt, *slot, Word::Answered);
        }
    }

    // Asks for all who wait.
    fn lead<T: Wait + Clock>(&self, rt: &T, alloc: Global, desk: &Desk<K, L>, seat: &mut Seat<L>)
        ensures { seat.new.parts ≡ seat.old.parts }
    {
        let batch = self.gather(rt, alloc);
        let began = Instant::now(rt).ok();
        self.ask_batch(rt, alloc, desk, seat, &batch);
        let took = time_since(rt, began);
        self.hand_on(rt, batch.callers.len(), batch.requests.len(), took);
        self.wake(rt, &batch);
    }

    // Asks requests at this slot, with those of all who wait, and gives what they came to, in their order.
    fn ask_at<T: Wait + Clock>(
        &self,
        rt: &T,
        alloc: Global,
        desk: &Desk<K, L>,
        seat: &mut Seat<L>,
        at: usize,
        slot: &Slot<K, L>,
        requests: &[(RequestNumber, Request)],
    ) -> Vec<RequestResult<K, L>>
        ensures { seat.new.parts ≡ seat.old.parts }
    {
        let part = self.queue.lock(rt).join(at, requests);
        match part {
            Part::Refused => return slot.leave(rt, alloc),
            Part::Complete => self.complete.notify_one(),
            Part::Follow | Part::Lead => {}
        }
        if part == Part::Lead || slot.hears_lead(rt) {
            self.lead(rt, alloc, desk, seat);
        }
        slot.leave(rt, alloc)
    }

    // Asks requests with those of all who wait, and gives what they came to, in their order. What is not there was refused,
    // or memory was: the caller asks it again by itself.
    pub(crate) fn ask_all<T: Wait + Clock>(
        &self,
        rt: &T,
        alloc: Global,
        desk: &Desk<K, L>,
        seat: &mut Seat<L>,
        requests: &[(RequestNumber, Request)],
    ) -> Vec<RequestResult<K, L>>
        ensures { seat.new.parts ≡ seat.old.parts }
    {
        let at = (self.next_slot.fetch_add(1, Ordering::SeqCst) % SLOTS) as usize;
        match self.slots.get(at) {
            Some(slot) if slot.claim(rt) => {
                self.ask_at(rt, alloc, desk, seat, at, slot, requests)
            }
            _ => Vec::new(alloc),
        }
    }

    /// Answers a request as `Desk::ask` does, and gives the receipt. It may be asked by another caller, together with the
    /// requests of all who wait; one that is refused then is asked once more by itself.
    ///
    /// Errors are those of `Desk::ask`. Behind `Store` a closed book may stand at the desk.
    pub fn ask<T: Wait + Clock>(
        &self,
        rt: &T,
        alloc: Global,
        desk: &Desk<K, L>,
        seat: &mut Seat<L>,
        number: RequestNumber,
        request: &Request,
    ) -> Result<Receipt, AskFault>
        ensures parts { seat.new.parts ≡ seat.old.parts }
        ensures asked { IsAskedAs (admissible L.office L.began K.Keeper) number request.now result }
    {
        if self.queue.lock(rt).leads_alone() {
            let began = Instant::now(rt).ok();
            let result = ask_alone(rt, alloc, desk, seat, number, request);
            self.hand_on(rt, 1, 1, time_since(rt, began));
            return result;
        }
        let mut told = self.ask_all(rt, alloc, desk, seat, &[(number, *request)]);
        if let Some(told) = told.pop() {
            if let Some(result) = own_result(told, number, request) {
                return result;
            }
        }
        ask_alone(rt, alloc, desk, seat, number, request)
    }
}

fn ask_alone<T: Wait, K: Keeper, L: Opens>(
    rt: &T,
    alloc: Global,
    desk: &Desk<K, L>,
    seat: &mut Seat<L>,
    number: RequestNumber,
    request: &Request,
) -> Result<Receipt, AskFault>
    ensures parts { seat.new.parts ≡ seat.old.parts }
    ensures asked { IsAskedAs (admissible L.office L.began K.Keeper) number request.now result }
{
    match desk.ask(rt, alloc, &NoGate, seat, number, request) {
        Ok((_, receipt)) => Ok(receipt),
        Err(fault) => Err(fault),
    }
}

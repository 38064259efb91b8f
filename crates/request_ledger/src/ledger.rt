//! What was decided under each request number, and what was given back of each sale.
ghost use Rattle.std.specs.Prelude.{◌≡◌, ◌+◌, ◌-◌, ◌≤◌, unwrap_or, [], map, length, nat_eq, None, Some, IsSome, OnOk, IsOk};
ghost use Rattle.std.specs.List.{IsDistinct};
ghost use Rattle.indexmap.specs.IndexMap.{spare};
ghost use Rattle.request_ledger.specs.GivenBack.{refund_with, sale_with, seats_under, sum_under, AreSums, AreSumsWith, IsSumSet};
ghost use Rattle.request_ledger.specs.Ledger.{kept_under, sale_under, with_kept, IsRefundable};

use crate::number::RequestNumber;
use crate::reply::{Kept, Reply, SaleState};
use crate::request::Request;
use indexmap::IndexMap;
use rights_lattice::Amount;
use std::alloc::{AllocError, Global};
use std::marker::Model;

/// What is kept under each request number of a site, and what was given back of each sale.
/// A look-up is in a hash map: on average it takes as long in a million entries as in a thousand.
#[derive(Drop)]
pub struct Ledger {
    kept: IndexMap<RequestNumber, Kept>,
    /// Seats that refunds gave back, by the sale's number.
    given_back: IndexMap<RequestNumber, u64>,
}

/// A refund that was done: of which sale, and the part of it, or none where it asked for the rest.
#[derive(Clone, Copy)]
struct DoneRefund {
    sale: RequestNumber,
    part: Option<Amount>,
}

impl Model for Ledger {
    ghost use Rattle.std.specs.Prelude.{min};
    ghost use Rattle.indexmap.specs.IndexMap.{spare};
    ghost use Rattle.request_ledger.specs.Ledger.{LedgerView, coded_ledger};
    ghost use Rattle.request_ledger.specs.GivenBack.{AreSums};

    ghost Value = { LedgerView };

    ghost coded = { coded_ledger };

    ghost view = { λ l. record { entries = l.kept.entries; room = min (spare l.kept) (spare l.given_back) } };

    ghost invariant = { λ l. AreSums l.kept.entries l.given_back.entries };
}

impl Ledger {
    /// A ledger that keeps nothing.
    pub fn new(alloc: Global) -> Ledger
        ensures entries { result.entries ≡ [] }
    {
        Ledger {
            kept: IndexMap::new(alloc),
            given_back: IndexMap::new(alloc),
        }
    }

    /// How many numbers are kept, each once.
    pub fn len(&self) -> usize
        ensures len { result ≡ length self.now.entries }
        ensures distinct { IsDistinct nat_eq (map (λ e. e.0) self.now.entries) }
    {
        self.kept.len()
    }

    /// What is kept under the number.
    pub fn kept(&self, number: RequestNumber) -> Option<Kept>
        ensures kept { result ≡ kept_under self.now.entries number }
    {
        kept_in(&self.kept, number)
    }

    /// Makes room for one more number. What is kept stays, also where there is no memory.
    pub fn reserve(&mut self) -> Result<(), AllocError>
        ensures ok { OnOk result (1 ≤ self.new.room) }
        ensures succeeds { 1 ≤ self.old.room → IsOk result }
        ensures entries { self.new.entries ≡ self.old.entries }
        ensures room { self.old.room ≤ self.new.room }
    {
        self.kept.reserve(1)?;
        self.given_back.reserve(1)?;
        Ok(())
    }

    /// Keeps the request, its reply and its place under a number that is new, for good.
    pub fn keep(&mut self, number: RequestNumber, place: usize, request: Request, reply: Reply)
        requires new { kept_under self.old.entries number ≡ None }
        requires room { 1 ≤ self.old.room }
        requires refund { IsRefundable self.old.entries request reply }
        ensures entries { self.new.entries ≡ with_kept self.old.entries number place request reply }
        ensures room { self.old.room ≤ self.new.room + 1 }
    {
        give_back(&self.kept, &mut self.given_back, &request, reply);
        let kept = Kept {
            place,
            request,
            reply,
        };
        // Names a type inside of the request, which the prover wants to see in this function.
        let _: Option<Amount> = None;
        match self.kept.insert(number, kept) {
            Ok(_) => {}
            Err(_) => unreachable!(),
        }
    }

    /// The sale that was done under the number, with what was given back of it.
    pub fn sale(&self, number: RequestNumber) -> Option<SaleState>
        ensures sale { result ≡ sale_under self.now.entries number }
    {
        let given_back = sum_of(&self.given_back, number);
        let Some(kept) = self.kept(number) else {
            return None;
        };
        sold(&kept, given_back)
    }
}

/// What is kept under the number.
fn kept_in(kept: &IndexMap<RequestNumber, Kept>, number: RequestNumber) -> Option<Kept>
    ensures { result ≡ kept_under kept.now.entries number }
{
    kept.get(&number).copied()
}

/// Adds what the request gives back, where it is a refund that was done.
fn give_back(
    kept: &IndexMap<RequestNumber, Kept>,
    sums: &mut IndexMap<RequestNumber, u64>,
    request: &Request,
    reply: Reply,
)
    requires room { 1 ≤ spare sums.old }
    requires refund { IsRefundable kept.now.entries request.now reply }
    requires sums { AreSums kept.now.entries sums.old.entries }
    ensures sums { AreSumsWith kept.now.entries request.now reply sums.new.entries }
    ensures room { spare sums.old ≤ spare sums.new + 1 }
{
    match refund_in(request, reply) {
        Some(refund) => {
            let seats = seats_of(kept, refund.sale);
            let given = sum_of(sums, refund.sale);
            set_sum(sums, refund.sale, given_with(given, refund.part, seats));
        }
        None => {}
    }
}

/// What is given back of a sale of so many seats once a part of it is given back too, or the rest where none is named.
fn given_with(given: u64, part: Option<Amount>, seats: u64) -> u64
    requires within { given ≤ seats }
    requires fits { unwrap_or part (seats - given) ≤ seats - given }
    ensures { result ≡ given + unwrap_or part (seats - given) }
{
    match part {
        Some(part) => given + part.seats(),
        None => seats,
    }
}

/// What is given back of the sale.
fn sum_of(sums: &IndexMap<RequestNumber, u64>, sale: RequestNumber) -> u64
    ensures { result ≡ sum_under sums.now.entries sale }
{
    sums.get(&sale).copied().unwrap_or(0)
}

/// Sets what is given back of the sale.
fn set_sum(sums: &mut IndexMap<RequestNumber, u64>, sale: RequestNumber, seats: u64)
    requires { 1 ≤ spare sums.old }
    ensures sums { IsSumSet sums.old.entries sale seats sums.new.entries }
    ensures room { spare sums.old ≤ spare sums.new + 1 }
{
    match sums.insert(sale, seats) {
        Ok(_) => {}
        Err(_) => unreachable!(),
    }
}

/// The refund, where the request is one that was done.
fn refund_in(request: &Request, reply: Reply) -> Option<DoneRefund>
    ensures { result ≡ refund_with request.now reply }
{
    match request {
        Request::Refund { sale, part } if reply == Reply::Done => Some(DoneRefund {
            sale: *sale,
            part: *part,
        }),
        _ => None,
    }
}

/// The sale, where the request is one that was done.
fn sold(kept: &Kept, given_back: u64) -> Option<SaleState>
    ensures { result ≡ sale_with kept.now.request kept.now.reply given_back }
{
    match &kept.request {
        Request::Sell { event, amount } if kept.reply == Reply::Done => Some(SaleState {
            event: *event,
            seats: *amount,
            given_back,
        }),
        _ => None,
    }
}

/// The seats of the sale that is kept under the number.
fn seats_of(kept: &IndexMap<RequestNumber, Kept>, sale: RequestNumber) -> u64
    requires { IsSome (seats_under kept.now.entries sale) }
    ensures { seats_under kept.now.entries sale ≡ Some result }
{
    match kept_in(kept, sale) {
        Some(kept) => match sold(&kept, 0) {
            Some(state) => state.seats.seats(),
            None => unreachable!(),
        },
        None => unreachable!(),
    }
}

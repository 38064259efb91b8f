//! What a desk's sessions were given is compared with its history.
ghost use Rattle.std.specs.Prelude.{◌≡◌, ◌<◌, ◌^◌, ◌↔◌, All, IsTrue, MatchOption};
ghost use Rattle.site_desk.specs.Finish.{FirstNot, StandsIn, WasSeen};
ghost use Rattle.site_desk.specs.Seats.{parts_of, shares_of};
ghost use Rattle.site_desk.specs.Walk.{IsWalked};

use crate::answer::Seen;
use crate::receipt::Receipt;
use crate::seat::{Opens, Seat};
use crate::walk::Walk;
use book_core::{Book, Entry};
use request_ledger::{Reply, Request};
use std::sync::ledger::{Book as Tally, Share};
use thiserror::Error;

/// Why a desk's book is not what its sessions were given, or not known to be. Places are counted from 0.
#[derive(Clone, Copy, PartialEq, Eq, Debug, Error)]
pub enum FinishFault {
    /// The seats handed in do not have all requests that were newly entered.
    #[error("seats are out")]
    SeatsOut,
    /// The receipt at this place is the first that is not the entry that it names.
    #[error("receipt {at} is not in the history")]
    Stranger { at: usize },
    /// The look at this place is the first that names more entries than there are, or ones that do not name its event,
    /// or that does not show what they say of it.
    #[error("look {at} is not of the history")]
    StrangerSeen { at: usize },
}

// Adds up the shares of these seats.
pub(crate) fn gather<L: Opens>(tally: &mut Tally<L>, nothing: Share<L>, seats: Vec<Seat<L>>) -> u64
    requires nothing { nothing.parts ≡ 0 }
    requires fits { tally.old.total < 2 ^ 64 }
    ensures sum { result ≡ shares_of seats.items }
    ensures whole { parts_of seats.items ≡ L.parts → result ≡ tally.old.total }
{
    let mut all = nothing;
    let mut sum: u64 = 0;
    tally.audit(&mut all);
    for seat in seats {
        let Seat { share, count } = seat;
        all.merge(share);
        tally.audit(&mut all);
        sum += count;
    }
    tally.audit(&mut all);
    sum
}

// The first receipt that is not the entry that it names.
pub(crate) fn first_stranger(book: &Book, receipts: &[Receipt]) -> Option<usize>
    ensures { MatchOption result (All (StandsIn book.now.history) receipts.now) (λ k. FirstNot
        (StandsIn book.now.history) receipts.now k) }
{
    for (at, receipt) in receipts.iter().enumerate() {
        if !stands_in(book, receipt) {
            return Some(at);
        }
    }
    None
}

// The first look that does not show what the entries that it names say. Each goes on from the entries of the one before
// where it is of the same event and names no fewer.
pub(crate) fn first_stranger_seen(book: &Book, looks: &[Seen]) -> Option<usize>
    ensures { MatchOption result (All (WasSeen book.now.office book.now.history) looks.now) (λ k.
        FirstNot (WasSeen book.now.office book.now.history) looks.now k) }
{
    let Some(first) = looks.first() else {
        return None;
    };
    let mut walk = Walk::new(first.event);
    for (at, seen) in looks.iter().enumerate() {
        if !was_seen(book, &mut walk, seen) {
            return Some(at);
        }
    }
    None
}

// Whether the entry at the receipt's place is its request, under its number and with its reply.
fn stands_in(book: &Book, receipt: &Receipt) -> bool
    ensures { IsTrue result ↔ StandsIn book.now.history receipt.now }
{
    match book.entry(receipt.place) {
        Some(
            Entry::Asked {
                number,
                request,
                reply,
                ..
            },
        ) => {
            *number == receipt.number
                && is_same_request(request, &receipt.request)
                && is_same_reply(reply, &receipt.reply)
        }
        _ => false,
    }
}

fn is_same_request(request: &Request, other: &Request) -> bool
    ensures { IsTrue result ↔ (request.now ≡ other.now) }
{
    request == other
}

fn is_same_reply(reply: &Reply, other: &Reply) -> bool
    ensures { IsTrue result ↔ (reply.now ≡ other.now) }
{
    reply == other
}

// Whether the look shows what the first entries that it names say of its event.
fn was_seen(book: &Book, walk: &mut Walk, seen: &Seen) -> bool
    requires { IsWalked book.now.history walk.old }
    ensures walked { IsWalked book.now.history walk.new }
    ensures seen { IsTrue result ↔ WasSeen book.now.office book.now.history seen.now }
{
    if seen.at > book.len() {
        return false;
    }
    if walk.event != seen.event || walk.at > seen.at {
        *walk = Walk::new(seen.event);
    }
    walk.go_on(book, seen.at);
    walk.is_named && seen.left == walk.cells.left(book.me()) && seen.totals == walk.cells.view()
}

//! The entry that the columns of a row stand for.
ghost use Rattle.std.specs.Prelude.{◌≡◌, ◌↔◌, IfOk, OnErr, IsTrue, true};
ghost use Rattle.std.specs.Option.{option_map};
ghost use Rattle.sqlite.specs.Order.{column};
ghost use Rattle.sqlite.specs.declared.types.Value.TheVariants.{Text};
ghost use Rattle.sqlite_value.specs.Value.{owned};
ghost use Rattle.rights_lattice.specs.State.{State};
ghost use Rattle.sql_records.specs.Rows.{is_null, text_in, number_within, positive_in, site_in, sites_in, event_in, verb_in, announce_of, release_of, sell_of, part_in, refund_in_columns, cede_of, request_of, request_in, rest_in, reply_in, delta_in, asks_nothing, asked_of, joined_of, is_grow, is_empty, only_grows, grown_of, own_of, entry_with, entry_of, with_delta, WantsForDelta, WantsForEntry, HasPart, IsOfVersion, too_many};

use crate::columns::grow_word;
use crate::version::Version;
use book_core::{Entry, Growth};
use delta_mutators::Delta;
use delta_wire::{MOST_BYTES, WireFault, read_delta};
use request_ledger::{Reply, Request, RequestNumber, Verb};
use rights_lattice::{Amount, Event, GREATEST_SITE, GREATEST_VALUE, MOST_SITES, SiteId, Sites};
use sqlite::Row;
use sqlite::types::ValueRef;
use std::alloc::{AllocError, Global};

/// The value in a column, and null past the end.
pub fn column_at(row: &Row, at: usize) -> ValueRef<'_>
    ensures { owned result ≡ column row.now at }
{
    match row.get_ref(at) {
        Ok(value) => value,
        Err(_) => ValueRef::Null,
    }
}

fn is_null(value: ValueRef<'_>) -> bool
    ensures { result ≡ is_null (owned value.entry) }
{
    matches!(value, ValueRef::Null)
}

fn text_in(value: ValueRef<'_>) -> Option<&[u8]>
    ensures { option_map (λ text. text.now) result ≡ text_in (owned value.entry) }
{
    match value {
        ValueRef::Text(text) => Some(text),
        _ => None,
    }
}

/// The number in a value, where it is one from `low` to `high`.
pub fn number_within(low: u64, high: u64, value: ValueRef<'_>) -> Option<u64>
    ensures { result ≡ number_within low high (owned value.entry) }
{
    match value {
        ValueRef::Int(n) => match u64::try_from(n) {
            Ok(n) if low <= n && n <= high => Some(n),
            _ => None,
        },
        _ => None,
    }
}

/// A request number.
pub fn request_number_in(value: ValueRef<'_>) -> Option<RequestNumber>
    ensures { result ≡ positive_in (owned value.entry) }
{
    let number = number_within(1, GREATEST_VALUE, value)?;
    RequestNumber::of(number)
}

fn amount_in(value: ValueRef<'_>) -> Option<Amount>
    ensures { result ≡ positive_in (owned value.entry) }
{
    let seats = number_within(1, GREATEST_VALUE, value)?;
    Amount::of(seats)
}

/// The number of a site.
pub fn site_in(value: ValueRef<'_>) -> Option<SiteId>
    ensures { result ≡ site_in (owned value.entry) }
{
    let number = number_within(0, GREATEST_SITE, value)?;
    SiteId::of(number)
}

/// A count of sites.
pub fn sites_in(value: ValueRef<'_>) -> Option<Sites>
    ensures { result ≡ sites_in (owned value.entry) }
{
    let count = number_within(1, MOST_SITES, value)?;
    Sites::of(count)
}

#[tactic(auto, unfolding(crate::specs::Rows::event_in))]
fn event_in(value: ValueRef<'_>) -> Option<Event>
    ensures { result ≡ event_in (owned value.entry) }
{
    let text = text_in(value)?;
    Event::read(text)
}

#[tactic(auto, unfolding(crate::specs::Rows::verb_in))]
fn verb_in(value: ValueRef<'_>) -> Option<Verb>
    ensures { result ≡ verb_in (owned value.entry) }
{
    let word = text_in(value)?;
    Verb::read(word)
}

#[tactic(auto, unfolding(crate::specs::Rows::announce_of))]
fn announce_of(event: ValueRef<'_>, amount: ValueRef<'_>, target: ValueRef<'_>) -> Option<Request>
    ensures { result ≡ announce_of (owned event.entry) (owned amount.entry) (owned target.entry) }
{
    let event = event_in(event)?;
    if is_null(amount) && is_null(target) {
        Some(Request::Announce { event })
    } else {
        None
    }
}

#[tactic(auto, unfolding(crate::specs::Rows::release_of))]
fn release_of(event: ValueRef<'_>, amount: ValueRef<'_>, target: ValueRef<'_>) -> Option<Request>
    ensures { result ≡ release_of (owned event.entry) (owned amount.entry) (owned target.entry) }
{
    let event = event_in(event)?;
    let amount = amount_in(amount)?;
    if is_null(target) {
        Some(Request::Release { event, amount })
    } else {
        None
    }
}

#[tactic(auto, unfolding(crate::specs::Rows::sell_of))]
fn sell_of(event: ValueRef<'_>, amount: ValueRef<'_>, target: ValueRef<'_>) -> Option<Request>
    ensures { result ≡ sell_of (owned event.entry) (owned amount.entry) (owned target.entry) }
{
    let event = event_in(event)?;
    let amount = amount_in(amount)?;
    if is_null(target) {
        Some(Request::Sell { event, amount })
    } else {
        None
    }
}

// The part of a sale that is asked back, or none where the column is null.
#[tactic(auto, unfolding(crate::specs::Rows::part_in))]
fn part_in(amount: ValueRef<'_>) -> Option<Option<Amount>>
    ensures { result ≡ part_in (owned amount.entry) }
{
    if is_null(amount) {
        return Some(None);
    }
    let amount = amount_in(amount)?;
    Some(Some(amount))
}

#[tactic(auto, unfolding(crate::specs::Rows::refund_in_columns))]
fn refund_in_columns(
    event: ValueRef<'_>,
    amount: ValueRef<'_>,
    target: ValueRef<'_>,
) -> Option<Request>
    ensures { result ≡ refund_in_columns
        (owned event.entry) (owned amount.entry) (owned target.entry) }
{
    let sale = request_number_in(target)?;
    let part = part_in(amount)?;
    if is_null(event) {
        Some(Request::Refund { sale, part })
    } else {
        None
    }
}

#[tactic(auto, unfolding(crate::specs::Rows::cede_of))]
fn cede_of(event: ValueRef<'_>, amount: ValueRef<'_>, target: ValueRef<'_>) -> Option<Request>
    ensures { result ≡ cede_of (owned event.entry) (owned amount.entry) (owned target.entry) }
{
    let event = event_in(event)?;
    let amount = amount_in(amount)?;
    let to = site_in(target)?;
    Some(Request::Cede { event, amount, to })
}

fn request_of(
    verb: Verb,
    event: ValueRef<'_>,
    amount: ValueRef<'_>,
    target: ValueRef<'_>,
) -> Option<Request>
    ensures { result ≡ request_of
        verb (owned event.entry) (owned amount.entry) (owned target.entry) }
{
    match verb {
        Verb::Announce => announce_of(event, amount, target),
        Verb::Release => release_of(event, amount, target),
        Verb::Sell => sell_of(event, amount, target),
        Verb::Refund => refund_in_columns(event, amount, target),
        Verb::Cede => cede_of(event, amount, target),
    }
}

/// The request of these four columns.
#[tactic(auto, unfolding(crate::specs::Rows::request_in))]
pub fn request_in(
    word: ValueRef<'_>,
    event: ValueRef<'_>,
    amount: ValueRef<'_>,
    target: ValueRef<'_>,
) -> Option<Request>
    ensures { result ≡ request_in
        (owned word.entry) (owned event.entry) (owned amount.entry) (owned target.entry) }
{
    let verb = verb_in(word)?;
    request_of(verb, event, amount, target)
}

#[tactic(auto, unfolding(crate::specs::Rows::rest_in))]
fn rest_in(rest: ValueRef<'_>) -> Option<Option<u64>>
    ensures { result ≡ rest_in (owned rest.entry) }
{
    if is_null(rest) {
        return Some(None);
    }
    let number = number_within(0, 9_223_372_036_854_775_807, rest)?;
    Some(Some(number))
}

/// The reply of these two columns.
#[tactic(auto, unfolding(crate::specs::Rows::reply_in))]
pub fn reply_in(word: ValueRef<'_>, rest: ValueRef<'_>) -> Option<Reply>
    ensures { result ≡ reply_in (owned word.entry) (owned rest.entry) }
{
    let word = text_in(word)?;
    let number = rest_in(rest)?;
    Reply::read(word, number)
}

// The delta with no spare room, so that a long history takes less memory; as it is, where memory was refused for that.
fn trimmed(alloc: Global, delta: Delta) -> Delta
    ensures { result ≡ delta }
{
    match delta.copy(alloc) {
        Ok(copy) => copy,
        Err(_) => delta,
    }
}

#[tactic(auto, unfolding(crate::specs::Rows::delta_in))]
fn delta_in(alloc: Global, value: ValueRef<'_>) -> Result<Option<Delta>, AllocError>
    ensures delta { IfOk result (λ delta. delta ≡ delta_in (owned value.entry)) }
    ensures memory { OnErr result (WantsForDelta (owned value.entry)) }
{
    let Some(text) = text_in(value) else {
        return Ok(None);
    };
    if text.len() > MOST_BYTES {
        return Ok(None);
    }
    match read_delta(alloc, text) {
        Ok(delta) => Ok(Some(trimmed(alloc, delta))),
        Err(WireFault::Memory) => Err(AllocError),
        Err(_) => Ok(None),
    }
}

// Whether the columns of a request and its reply are null.
fn asks_nothing(row: &Row) -> bool
    ensures { result ≡ asks_nothing row.now }
{
    is_null(column_at(row, 2))
        && is_null(column_at(row, 3))
        && is_null(column_at(row, 4))
        && is_null(column_at(row, 5))
        && is_null(column_at(row, 6))
        && is_null(column_at(row, 7))
        && is_null(column_at(row, 8))
}

fn is_grow(value: ValueRef<'_>) -> bool
    ensures { result ≡ is_grow (owned value.entry) }
{
    match value {
        ValueRef::Text(word) => word == grow_word(),
        _ => false,
    }
}

fn is_empty(value: ValueRef<'_>) -> bool
    ensures { result ≡ is_empty (owned value.entry) }
{
    match value {
        ValueRef::Text(text) => text.is_empty(),
        _ => false,
    }
}

// Whether a growth's word and count are all that the columns say.
fn only_grows(row: &Row) -> bool
    ensures { result ≡ only_grows row.now }
{
    is_null(column_at(row, 2))
        && is_null(column_at(row, 4))
        && is_null(column_at(row, 5))
        && is_null(column_at(row, 7))
        && is_null(column_at(row, 8))
        && is_empty(column_at(row, 9))
}

// Whether the columns ask a part of a sale back.
fn has_part(row: &Row) -> bool
    ensures { IsTrue result ↔ HasPart row.now }
{
    matches!(verb_in(column_at(row, 3)), Some(Verb::Refund)) && !is_null(column_at(row, 5))
}

fn is_too_many(value: ValueRef<'_>) -> bool
    ensures { IsTrue result ↔ (owned value.entry ≡ Text too_many) }
{
    match value {
        ValueRef::Text(text) => text == Reply::TooMany { rest: 0 }.word(),
        _ => false,
    }
}

/// Whether the columns of a request and its reply, or of a growth, are those of this version.
pub fn is_of_version(read: Version, row: &Row) -> bool
    ensures { IsTrue result ↔ IsOfVersion read row.now }
{
    match read {
        Version::First => {
            !has_part(row) && !is_too_many(column_at(row, 7)) && !is_grow(column_at(row, 3))
        }
        Version::Second => true,
    }
}

// An entry without its delta.
#[derive(Drop)]
enum EntryHead {
    Asked {
        number: RequestNumber,
        request: Request,
        reply: Reply,
    },
    Joined {
        peer: SiteId,
    },
    Grown {
        sites: Sites,
    },
}

impl EntryHead {
    // The entry with this delta.
    fn with(self, alloc: Global, delta: Delta) -> Entry
        ensures { result ≡ with_delta self delta }
    {
        match self {
            EntryHead::Asked {
                number,
                request,
                reply,
            } => Entry::Asked {
                number,
                request,
                reply,
                delta,
            },
            EntryHead::Joined { peer } => Entry::Joined { peer, delta },
            EntryHead::Grown { sites } => Entry::Grown {
                sites: Growth::to(alloc, sites),
            },
        }
    }
}

#[tactic(auto, unfolding(crate::specs::Rows::asked_of))]
fn asked_head(row: &Row) -> Option<EntryHead>
    ensures { (delta : State)
        → option_map (λ head. with_delta head delta) result ≡ asked_of row.now delta }
{
    let number = request_number_in(column_at(row, 2))?;
    let request = request_in(
        column_at(row, 3),
        column_at(row, 4),
        column_at(row, 5),
        column_at(row, 6),
    )?;
    let reply = reply_in(column_at(row, 7), column_at(row, 8))?;
    Some(EntryHead::Asked {
        number,
        request,
        reply,
    })
}

#[tactic(auto, unfolding(crate::specs::Rows::joined_of))]
fn joined_head(row: &Row) -> Option<EntryHead>
    ensures { (delta : State)
        → option_map (λ head. with_delta head delta) result ≡ joined_of row.now delta }
{
    let peer = site_in(column_at(row, 1))?;
    if asks_nothing(row) {
        Some(EntryHead::Joined { peer })
    } else {
        None
    }
}

#[tactic(auto, unfolding(crate::specs::Rows::grown_of))]
fn grown_head(row: &Row) -> Option<EntryHead>
    ensures { (delta : State)
        → option_map (λ head. with_delta head delta) result ≡ grown_of row.now }
{
    let sites = sites_in(column_at(row, 6))?;
    if only_grows(row) {
        Some(EntryHead::Grown { sites })
    } else {
        None
    }
}

fn own_head(row: &Row) -> Option<EntryHead>
    ensures { (delta : State)
        → option_map (λ head. with_delta head delta) result ≡ own_of row.now delta }
{
    if is_grow(column_at(row, 3)) {
        grown_head(row)
    } else {
        asked_head(row)
    }
}

// What the columns beside the delta stand for, if they are those of an entry.
fn head_of(row: &Row) -> Option<EntryHead>
    ensures { (delta : State)
        → option_map (λ head. with_delta head delta) result ≡ entry_with row.now delta }
{
    if is_null(column_at(row, 1)) {
        own_head(row)
    } else {
        joined_head(row)
    }
}

/// The entry that the ten columns of a row stand for, if they stand for one. The delta is read last, so that memory is
/// wanted for no row whose other columns are not those of an entry.
#[tactic(auto, unfolding(crate::specs::Rows::entry_of))]
pub fn read_entry(alloc: Global, row: &Row) -> Result<Option<Entry>, AllocError>
    ensures entry { IfOk result (λ entry. entry ≡ entry_of row.now) }
    ensures memory { OnErr result (WantsForEntry row.now) }
{
    let Some(head) = head_of(row) else {
        return Ok(None);
    };
    match delta_in(alloc, column_at(row, 9))? {
        Some(delta) => Ok(Some(head.with(alloc, delta))),
        None => Ok(None),
    }
}

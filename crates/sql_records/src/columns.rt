//! The columns that an entry is written as.
ghost use Rattle.std.specs.Prelude.{◌≡◌, ◌↔◌, ◌<◌, ◌^◌, length, IsTrue};
ghost use Rattle.sqlite.specs.Values.{bound};
ghost use Rattle.sqlite_value.specs.Value.{owned};
ghost use Rattle.request_ledger.specs.Ranges.{IsPart, IsRequest};
ghost use Rattle.request_ledger.specs.Words.{verb_word, request_verb};
ghost use Rattle.book_core.specs.History.{delta_of};
ghost use Rattle.delta_wire.specs.Grammar.{IsDelta, delta_text};
ghost use Rattle.sql_records.specs.Rows.{grow_word, number_column, request_columns, reply_columns, columns_of, HasReplyColumns, HasRoom, IsStorable};

use book_core::Entry;
use delta_wire::MOST_BYTES;
use request_ledger::{Reply, Request};
use rights_lattice::Amount;
use sqlite::types::ValueRef;

/// The word of a growth, which no request has.
pub fn grow_word() -> &'static [u8]
    ensures { result.now ≡ grow_word }
{
    b"grow"
}

// The word of the request's verb.
fn verb_word(request: &Request) -> &[u8]
    ensures { result.now ≡ verb_word (request_verb request.now) }
{
    request.verb().word()
}

// The part of a sale that is asked back, where one is named.
fn part_column(part: Option<Amount>) -> ValueRef<'static>
    ensures column { owned result ≡ number_column part }
    ensures fits { IsPart part }
{
    match part {
        None => ValueRef::Null,
        Some(amount) => ValueRef::Int(amount.seats() as i64),
    }
}

// The verb, the event, the amount and the target.
fn request_columns(request: &Request) -> [ValueRef<'_>; 4]
    ensures columns { bound result ≡ request_columns request.now }
    ensures fits { IsRequest request.now }
{
    let verb = verb_word(request);
    match request {
        Request::Announce { event } => [
            ValueRef::Text(verb),
            ValueRef::Text(event.bytes()),
            ValueRef::Null,
            ValueRef::Null,
        ],
        Request::Release { event, amount } => [
            ValueRef::Text(verb),
            ValueRef::Text(event.bytes()),
            ValueRef::Int(amount.seats() as i64),
            ValueRef::Null,
        ],
        Request::Sell { event, amount } => [
            ValueRef::Text(verb),
            ValueRef::Text(event.bytes()),
            ValueRef::Int(amount.seats() as i64),
            ValueRef::Null,
        ],
        Request::Refund { sale, part } => [
            ValueRef::Text(verb),
            ValueRef::Null,
            part_column(*part),
            ValueRef::Int(sale.get() as i64),
        ],
        Request::Cede { event, amount, to } => [
            ValueRef::Text(verb),
            ValueRef::Text(event.bytes()),
            ValueRef::Int(amount.seats() as i64),
            ValueRef::Int(to.number() as i64),
        ],
    }
}

// The first word of the reply's line, and its number.
fn reply_columns(reply: &Reply) -> [ValueRef<'static>; 2]
    requires { HasReplyColumns reply.now }
    ensures { bound result ≡ reply_columns reply.now }
{
    let rest = match reply.number() {
        None => ValueRef::Null,
        Some(number) => ValueRef::Int(number as i64),
    };
    [ValueRef::Text(reply.word()), rest]
}

/// Whether the columns have room for the entry with this text of its delta.
pub fn fits(entry: &Entry, text: &str) -> bool
    ensures { IsTrue result ↔ HasRoom entry.now (length text.now) }
{
    match entry {
        Entry::Asked { reply, .. } => {
            let number = reply.number().unwrap_or(0);
            number <= i64::MAX as u64 && text.len() <= MOST_BYTES
        }
        Entry::Joined { .. } => text.len() <= MOST_BYTES,
        Entry::Grown { .. } => true,
    }
}

/// The ten columns of an entry at a place. So the entry is read back from them.
pub fn columns<'a>(place: u64, entry: &'a Entry, text: &'a str) -> [ValueRef<'a>; 10]
    requires place { place < 2 ^ 62 }
    requires text { text.now ≡ delta_text (delta_of entry.now) }
    requires delta { IsDelta (delta_of entry.now) }
    requires room { HasRoom entry.now (length text.now) }
    ensures columns { bound result ≡ columns_of place entry.now }
    ensures storable { IsStorable entry.now }
{
    let at = ValueRef::Int(place as i64);
    let delta = ValueRef::Text(text.as_bytes());
    match entry {
        Entry::Asked {
            number,
            request,
            reply,
            ..
        } => {
            let number = ValueRef::Int(number.get() as i64);
            let [verb, event, amount, target] = request_columns(request);
            let [reply, rest] = reply_columns(reply);
            [
                at,
                ValueRef::Null,
                number,
                verb,
                event,
                amount,
                target,
                reply,
                rest,
                delta,
            ]
        }
        Entry::Joined { peer, .. } => {
            let peer = ValueRef::Int(peer.number() as i64);
            let none = ValueRef::Null;
            [at, peer, none, none, none, none, none, none, none, delta]
        }
        Entry::Grown { sites } => {
            let none = ValueRef::Null;
            let word = ValueRef::Text(grow_word());
            let count = ValueRef::Int(sites.sites().count() as i64);
            [at, none, none, word, none, none, count, none, none, delta]
        }
    }
}

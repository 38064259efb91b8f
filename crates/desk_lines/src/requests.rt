//! Reading the words of a request.

ghost use Rattle.std.specs.Prelude.{◌≡◌};
ghost use Rattle.std.specs.Option.{option_map};
ghost use Rattle.delta_wire.specs.Fields.{natural_at};
ghost use Rattle.desk_lines.specs.Requests.{sized_at, announce_at, release_at, sell_at, last_amount_at, part_at, refund_at, cede_at, request_at, numbered_at, request_from};

use delta_wire::{event_at, natural_at, site_at};
use plain_words::Words;
use request_ledger::{Request, RequestNumber, Verb};
use rights_lattice::{Amount, Event};

fn request_number_at(words: &mut Words<'_>) -> Option<RequestNumber>
    ensures { option_map (λ n. (n, words.new)) result ≡ natural_at words.old }
{
    let number = natural_at(words)?;
    let number = RequestNumber::of(number)?;
    Some(number)
}

fn amount_at(words: &mut Words<'_>) -> Option<Amount>
    ensures { option_map (λ a. (a, words.new)) result ≡ natural_at words.old }
{
    let seats = natural_at(words)?;
    let amount = Amount::of(seats)?;
    Some(amount)
}

#[tactic(auto, unfolding(crate::specs::Requests::sized_at))]
fn sized_at(words: &mut Words<'_>) -> Option<(Event, Amount)>
    ensures { option_map (λ x. (x, words.new)) result ≡ sized_at words.old }
{
    let event = event_at(words)?;
    let amount = amount_at(words)?;
    Some((event, amount))
}

#[tactic(auto, unfolding(crate::specs::Requests::announce_at))]
fn announce_at(words: &mut Words<'_>) -> Option<Request>
    ensures { result ≡ announce_at words.old }
{
    let event = event_at(words)?;
    if words.is_empty() {
        Some(Request::Announce { event })
    } else {
        None
    }
}

#[tactic(auto, unfolding(crate::specs::Requests::release_at))]
fn release_at(words: &mut Words<'_>) -> Option<Request>
    ensures { result ≡ release_at words.old }
{
    let (event, amount) = sized_at(words)?;
    if words.is_empty() {
        Some(Request::Release { event, amount })
    } else {
        None
    }
}

#[tactic(auto, unfolding(crate::specs::Requests::sell_at))]
fn sell_at(words: &mut Words<'_>) -> Option<Request>
    ensures { result ≡ sell_at words.old }
{
    let (event, amount) = sized_at(words)?;
    if words.is_empty() {
        Some(Request::Sell { event, amount })
    } else {
        None
    }
}

#[tactic(auto, unfolding(crate::specs::Requests::last_amount_at))]
fn last_amount_at(words: &mut Words<'_>) -> Option<Option<Amount>>
    ensures { result ≡ last_amount_at words.old }
{
    let amount = amount_at(words)?;
    if words.is_empty() {
        Some(Some(amount))
    } else {
        None
    }
}

// The part of a sale, or none where no word is left.
#[tactic(auto, unfolding(crate::specs::Requests::part_at))]
fn part_at(words: &mut Words<'_>) -> Option<Option<Amount>>
    ensures { result ≡ part_at words.old }
{
    if words.is_empty() {
        Some(None)
    } else {
        last_amount_at(words)
    }
}

#[tactic(auto, unfolding(crate::specs::Requests::refund_at))]
fn refund_at(words: &mut Words<'_>) -> Option<Request>
    ensures { result ≡ refund_at words.old }
{
    let sale = request_number_at(words)?;
    let part = part_at(words)?;
    Some(Request::Refund { sale, part })
}

#[tactic(auto, unfolding(crate::specs::Requests::cede_at))]
fn cede_at(words: &mut Words<'_>) -> Option<Request>
    ensures { result ≡ cede_at words.old }
{
    let (event, amount) = sized_at(words)?;
    let to = site_at(words)?;
    if words.is_empty() {
        Some(Request::Cede { event, amount, to })
    } else {
        None
    }
}

fn request_at(verb: Verb, words: &mut Words<'_>) -> Option<Request>
    ensures { result ≡ request_at verb words.old }
{
    match verb {
        Verb::Announce => announce_at(words),
        Verb::Release => release_at(words),
        Verb::Sell => sell_at(words),
        Verb::Refund => refund_at(words),
        Verb::Cede => cede_at(words),
    }
}

// The number and the request that the words behind the verb spell, where no word is left over.
#[tactic(auto, unfolding(crate::specs::Requests::numbered_at))]
fn numbered_at(verb: Verb, words: &mut Words<'_>) -> Option<(RequestNumber, Request)>
    ensures { result ≡ numbered_at verb words.old }
{
    let number = request_number_at(words)?;
    let request = request_at(verb, words)?;
    Some((number, request))
}

/// The number and the request of a line that begins with this word, where no word is left over.
#[tactic(auto, unfolding(crate::specs::Requests::request_from))]
pub(crate) fn request_from(word: &[u8], words: &mut Words<'_>) -> Option<(RequestNumber, Request)>
    ensures { result ≡ request_from word.now words.old }
{
    let verb = Verb::read(word)?;
    numbered_at(verb, words)
}

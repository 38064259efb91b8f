//! Reading the words that messages and requests share.
ghost use Rattle.std.specs.Prelude.{◌≡◌, ◌≤◌, IfSome, drop};
ghost use Rattle.std.specs.Option.{option_map};
ghost use Rattle.rights_lattice.specs.Cells.{greatest_value};
ghost use Rattle.delta_wire.specs.Fields.{event_at, site_at, natural_at};

use plain_words::{Words, number_at};
use rights_lattice::{Event, GREATEST_SITE, GREATEST_VALUE, SiteId};

/// Takes the next word, and answers the event that it names.
///
/// None where no word is left, or it names no event; the word is taken then too.
#[tactic(auto, unfolding(crate::specs::Fields::event_at), using(plain_words::proofs::WordLaws::one_taken))]
pub fn event_at(words: &mut Words<'_>) -> Option<Event>
    ensures value { option_map (λ x. (x, words.new)) result ≡ event_at words.old }
    ensures taken { words.new ≡ drop 1 words.old }
{
    let word = words.next()?;
    let event = Event::read(word)?;
    Some(event)
}

/// Takes the next word, and answers the site that it numbers, whether the site is there or not.
///
/// None where no word is left, or it is no number from 0 to 63; the word is taken then
/// too.
pub fn site_at(words: &mut Words<'_>) -> Option<SiteId>
    ensures value { option_map (λ x. (x, words.new)) result ≡ site_at words.old }
    ensures taken { words.new ≡ drop 1 words.old }
{
    let number = number_at(words, 0, GREATEST_SITE)?;
    let site = SiteId::of(number)?;
    Some(site)
}

/// Takes the next word, and answers the value of a cell, the amount or the request number that it
/// spells.
///
/// None where no word is left, or it is no number from 1 to 1,000,000,000,000; the word is
/// taken then too.
pub fn natural_at(words: &mut Words<'_>) -> Option<u64>
    ensures value { option_map (λ x. (x, words.new)) result ≡ natural_at words.old }
    ensures within { IfSome result (λ n. (1 ≤ n) × (n ≤ greatest_value)) }
    ensures taken { words.new ≡ drop 1 words.old }
{
    number_at(words, 1, GREATEST_VALUE)
}

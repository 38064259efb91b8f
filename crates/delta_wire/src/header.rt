//! Reading the header of a message.
ghost use Rattle.std.specs.Prelude.{◌≡◌};
ghost use Rattle.std.specs.Option.{option_map};
ghost use Rattle.delta_wire.specs.Reading.{purpose_of, purpose_at, upto_at, header_of};

use crate::fields::site_at;
use book_core::Limit;
use plain_words::{Words, number_at};
use rights_lattice::SiteId;
use site_exchange::Upto;

/// The first word of a header.
#[derive(Clone, Copy, Debug, PartialEq, Eq)]
pub enum Purpose {
    /// The message brings a delta.
    Delta,
    /// The message acknowledges.
    Ack,
}

/// The first line of a message.
#[derive(Clone, Copy, Debug, PartialEq, Eq)]
pub struct Header {
    pub purpose: Purpose,
    pub by: SiteId,
    pub to: SiteId,
    pub upto: Upto,
}

#[tactic(auto, unfolding(crate::specs::Reading::purpose_of))]
fn purpose_of(word: &[u8]) -> Option<Purpose>
    ensures { result ≡ purpose_of word.now }
{
    if word == b"delta".as_slice() {
        Some(Purpose::Delta)
    } else if word == b"ack".as_slice() {
        Some(Purpose::Ack)
    } else {
        None
    }
}

#[tactic(auto, unfolding(crate::specs::Reading::purpose_at))]
fn purpose_at(words: &mut Words<'_>) -> Option<Purpose>
    ensures { option_map (λ x. (x, words.new)) result ≡ purpose_at words.old }
{
    let word = words.next()?;
    let purpose = purpose_of(word)?;
    Some(purpose)
}

fn upto_at(words: &mut Words<'_>) -> Option<Upto>
    ensures { option_map (λ x. (x, words.new)) result ≡ upto_at words.old }
{
    let number = number_at(words, 1, Limit::GREATEST)?;
    let upto = Upto::of(number)?;
    Some(upto)
}

/// The header that a line spells, if it spells one.
#[tactic(auto, unfolding(crate::specs::Reading::header_of_words))]
pub fn header_of(line: &[u8]) -> Option<Header>
    ensures { result ≡ header_of line.now }
{
    let mut words = Words::new(line);
    let purpose = purpose_at(&mut words)?;
    let by = site_at(&mut words)?;
    let to = site_at(&mut words)?;
    let upto = upto_at(&mut words)?;
    if words.is_empty() {
        Some(Header {
            purpose,
            by,
            to,
            upto,
        })
    } else {
        None
    }
}

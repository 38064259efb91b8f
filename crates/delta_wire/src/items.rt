//! Reading the line of an item.
ghost use Rattle.std.specs.Prelude.{◌≡◌};
ghost use Rattle.std.specs.Option.{option_map};
ghost use Rattle.delta_wire.specs.Reading.{kind_of, kind_at, name_item, mark_item, gave_item, used_item, back_item, after_kind, item_of};

use crate::fields::{event_at, natural_at, site_at};
use delta_mutators::Item;
use plain_words::Words;
use rights_lattice::{Cell, Event, Mark};

/// The first word of an item's line.
#[derive(Clone, Copy, Debug, PartialEq, Eq)]
pub enum ItemKind {
    /// The name of an event.
    Name,
    /// What a site released, or gave to another.
    Gave,
    /// What a site sold.
    Used,
    /// What a site took back.
    Back,
}

#[tactic(auto, unfolding(crate::specs::Reading::kind_of))]
fn kind_of(word: &[u8]) -> Option<ItemKind>
    ensures { result ≡ kind_of word.now }
{
    if word == b"name".as_slice() {
        Some(ItemKind::Name)
    } else if word == b"gave".as_slice() {
        Some(ItemKind::Gave)
    } else if word == b"used".as_slice() {
        Some(ItemKind::Used)
    } else if word == b"back".as_slice() {
        Some(ItemKind::Back)
    } else {
        None
    }
}

#[tactic(auto, unfolding(crate::specs::Reading::kind_at))]
fn kind_at(words: &mut Words<'_>) -> Option<ItemKind>
    ensures { option_map (λ x. (x, words.new)) result ≡ kind_at words.old }
{
    let word = words.next()?;
    let kind = kind_of(word)?;
    Some(kind)
}

#[tactic(auto, unfolding(crate::specs::Reading::name_item))]
fn name_item(words: &mut Words<'_>) -> Option<Item>
    ensures { result ≡ name_item words.old }
{
    let event = event_at(words)?;
    if words.is_empty() {
        Some(Item::Name(event))
    } else {
        None
    }
}

#[tactic(auto, unfolding(crate::specs::Reading::mark_item))]
fn mark_item(event: Event, cell: &Cell, words: &mut Words<'_>) -> Option<Item>
    ensures { result ≡ mark_item event cell.now words.old }
{
    let value = natural_at(words)?;
    if words.is_empty() {
        Some(Item::Cell(Mark {
            event,
            cell: *cell,
            value,
        }))
    } else {
        None
    }
}

#[tactic(auto, unfolding(crate::specs::Reading::gave_item))]
fn gave_item(words: &mut Words<'_>) -> Option<Item>
    ensures { result ≡ gave_item words.old }
{
    let event = event_at(words)?;
    let by = site_at(words)?;
    let to = site_at(words)?;
    mark_item(event, &Cell::Gave { by, to }, words)
}

#[tactic(auto, unfolding(crate::specs::Reading::used_item))]
fn used_item(words: &mut Words<'_>) -> Option<Item>
    ensures { result ≡ used_item words.old }
{
    let event = event_at(words)?;
    let by = site_at(words)?;
    mark_item(event, &Cell::Used { by }, words)
}

#[tactic(auto, unfolding(crate::specs::Reading::back_item))]
fn back_item(words: &mut Words<'_>) -> Option<Item>
    ensures { result ≡ back_item words.old }
{
    let event = event_at(words)?;
    let by = site_at(words)?;
    mark_item(event, &Cell::Back { by }, words)
}

fn after_kind(kind: ItemKind, words: &mut Words<'_>) -> Option<Item>
    ensures { result ≡ after_kind kind words.old }
{
    match kind {
        ItemKind::Name => name_item(words),
        ItemKind::Gave => gave_item(words),
        ItemKind::Used => used_item(words),
        ItemKind::Back => back_item(words),
    }
}

/// The item that a line spells, if it spells one.
#[tactic(auto, unfolding(crate::specs::Reading::item_of_words))]
pub fn item_of(line: &[u8]) -> Option<Item>
    ensures { result ≡ item_of line.now }
{
    let mut words = Words::new(line);
    let kind = kind_at(&mut words)?;
    after_kind(kind, &mut words)
}

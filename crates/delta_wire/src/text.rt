//! Texts of one line, put together before they are written.
ghost use Rattle.std.specs.Prelude.{◌≡◌, ◌+◌, ◌≤◌, ◌++◌, ◌∷◌, [], length, decimal};
ghost use Rattle.std.specs.List.{join_with_byte};
ghost use Rattle.arrayvec.specs.ArrayVec.{array_vec_len};
ghost use Rattle.delta_mutators.specs.declared.delta.Item.TheVariants as item;
ghost use Rattle.rights_lattice.specs.EventName.{IsEventName};
ghost use Rattle.rights_lattice.specs.Limits.{longest_name, IsSite};
ghost use Rattle.plain_words.specs.Input.{longest_line};
ghost use Rattle.delta_wire.specs.Grammar.{IsCell, IsUpto, IsItem, cell_words, header_line};
ghost use Rattle.delta_wire.specs.Parts.{name_line, mark_line};

use plain_words::{Text, put, put_number};
use rights_lattice::{Cell, Event, Mark, SiteId};
use site_exchange::Upto;

// Adds the name of an event at the end.
fn put_event(text: &mut Text, event: &Event)
    requires { array_vec_len text.old + longest_name ≤ 256 }
    ensures items { text.new.items ≡ text.old.items ++ event.now }
    ensures len { array_vec_len text.new ≤ array_vec_len text.old + longest_name }
    ensures fits { IsEventName event.now }
{
    put(text, event.bytes());
}

// Adds the number of a site at the end.
fn put_site(text: &mut Text, site: SiteId)
    requires { array_vec_len text.old + 20 ≤ 256 }
    ensures items { text.new.items ≡ text.old.items ++ decimal site }
    ensures len { array_vec_len text.new ≤ array_vec_len text.old + 20 }
    ensures fits { IsSite site }
{
    put_number(text, site.number());
}

/// The line of a name.
#[tactic(auto, unfolding(crate::specs::Grammar::item_line))]
pub fn name_text(event: &Event) -> Text
    ensures text { result.items ≡ name_line event.now }
    ensures fits { IsItem (item.Name event.now) }
{
    let mut text = Text::new();
    put(&mut text, b"name ");
    put_event(&mut text, event);
    put(&mut text, b"\n");
    text
}

// Begins the line of a mark: its word, its event, and the site whose row it is of.
fn mark_front(word: &[u8], event: &Event, by: SiteId) -> Text
    requires { length word.now ≤ 4 }
    ensures text { result.items ≡ join_with_byte 32 (word.now ∷ event.now ∷ decimal by ∷ []) }
    ensures len { array_vec_len result ≤ longest_name + 26 }
    ensures name { IsEventName event.now }
    ensures site { IsSite by }
{
    let mut text = Text::new();
    put(&mut text, word);
    put(&mut text, b" ");
    put_event(&mut text, event);
    put(&mut text, b" ");
    put_site(&mut text, by);
    text
}

fn cell_text(event: &Event, cell: &Cell, value: u64) -> Text
    ensures text { result.items ≡ join_with_byte 32 (cell_words event.now value cell.now) }
    ensures len { array_vec_len result ≤ longest_line }
    ensures name { IsEventName event.now }
    ensures cell { IsCell cell.now }
{
    let mut text = match cell {
        Cell::Gave { by, to } => {
            let mut text = mark_front(b"gave", event, *by);
            put(&mut text, b" ");
            put_site(&mut text, *to);
            text
        }
        Cell::Used { by } => mark_front(b"used", event, *by),
        Cell::Back { by } => mark_front(b"back", event, *by),
    };
    put(&mut text, b" ");
    put_number(&mut text, value);
    text
}

/// The line of a mark.
#[tactic(auto, unfolding(crate::specs::Grammar::item_line))]
pub fn mark_text(mark: &Mark) -> Text
    ensures text { result.items ≡ mark_line mark.now }
    ensures fits { IsItem (item.Cell mark.now) }
{
    let mut text = cell_text(&mark.event, &mark.cell, mark.value);
    put(&mut text, b"\n");
    text
}

/// The first line of a message.
#[tactic(auto, unfolding(crate::specs::Grammar::header_line))]
pub fn header_text(kind: &[u8], by: SiteId, to: SiteId, upto: Upto) -> Text
    requires { length kind.now ≤ 5 }
    ensures text { result.items ≡ header_line kind.now by to upto ++ 10 ∷ [] }
    ensures by { IsSite by }
    ensures to { IsSite to }
    ensures upto { IsUpto upto }
{
    let mut text = Text::new();
    put(&mut text, kind);
    put(&mut text, b" ");
    put_site(&mut text, by);
    put(&mut text, b" ");
    put_site(&mut text, to);
    put(&mut text, b" ");
    put_number(&mut text, upto.entries());
    put(&mut text, b"\n");
    text
}

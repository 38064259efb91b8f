//! Whether a database has the tables of the records.
ghost use Rattle.std.specs.Prelude.{◌≡◌, ◌≤◌, ◌↔◌, length, [], ◌∷◌, None, Some, pos, IsTrue};
ghost use Rattle.sql_records.specs.Layout.{IsOurs, AreOursFirst, IsOursFirst, RefersToNone, is_our_name, has_our_table, plain, required, one_is_1, AreOneAnd1, sides_of, meta_at, entries_at, number_index, last_columns, IsBare};
ghost use Rattle.std.specs.List.{AllByRecursion, list_any};
ghost use Rattle.std.specs.Option.{option_copied};
ghost use Rattle.sqlite.specs.declared.types.Value.TheVariants.{Int};
ghost use Rattle.sqlite_schema.specs.Code.{term_in};
ghost use Rattle.sqlite_schema.specs.declared.code.Op.TheVariants.{Literal, Column as ColumnAt};
ghost use Rattle.sqlite.specs.Kind.TheVariants.{Integer as IntegerKind, Text as TextKind};

use sqlite::types::{Bytes, Value};
use sqlite_items::Items;
use sqlite_schema::code::{Op, Terms};
use sqlite_schema::names::same_name;
use sqlite_schema::schema::{Column, Index, Kind, Schema, Stamps, Table, View};
use sqlite_sql::ops::{BinaryOp, CompareOp};
use sqlite_value::keys::{Collation, Order};

fn is_name(name: &Bytes, text: &[u8]) -> bool
    ensures { IsTrue result ↔ (name.now ≡ text.now) }
{
    name.as_slice() == text
}

fn is_integer(c: &Column, name: &[u8]) -> bool
    ensures { IsTrue result ↔ (c.now ≡ plain name.now IntegerKind) }
{
    is_name(&c.name, name)
        && matches!(c.kind, Kind::Integer)
        && c.is_strict
        && !c.not_null
        && matches!(c.default, Value::Null)
        && matches!(c.collation, Collation::Binary)
}

fn is_required(c: &Column, name: &[u8]) -> bool
    ensures { IsTrue result ↔ (c.now ≡ required name.now IntegerKind) }
{
    is_name(&c.name, name)
        && matches!(c.kind, Kind::Integer)
        && c.is_strict
        && c.not_null
        && matches!(c.default, Value::Null)
        && matches!(c.collation, Collation::Binary)
}

fn is_text(c: &Column, name: &[u8]) -> bool
    ensures { IsTrue result ↔ (c.now ≡ plain name.now TextKind) }
{
    is_name(&c.name, name)
        && matches!(c.kind, Kind::Text)
        && c.is_strict
        && !c.not_null
        && matches!(c.default, Value::Null)
        && matches!(c.collation, Collation::Binary)
}

fn is_required_text(c: &Column, name: &[u8]) -> bool
    ensures { IsTrue result ↔ (c.now ≡ required name.now TextKind) }
{
    is_name(&c.name, name)
        && matches!(c.kind, Kind::Text)
        && c.is_strict
        && c.not_null
        && matches!(c.default, Value::Null)
        && matches!(c.collation, Collation::Binary)
}

fn are_of_meta(columns: &[Column]) -> bool
    ensures { IsTrue result ↔ (columns.now ≡ (meta_at 0).columns) }
{
    match columns {
        [one, kind, version, me, sites, bound] => is_integer(one, b"one")
            && is_required_text(kind, b"kind")
            && is_required(version, b"version")
            && is_required(me, b"me")
            && is_required(sites, b"sites")
            && is_required(bound, b"bound"),
        _ => false,
    }
}

fn are_last_of_entries(columns: &[Column]) -> bool
    ensures { IsTrue result ↔ (columns.now ≡ last_columns) }
{
    match columns {
        [amount, target, reply, rest, delta] => is_integer(amount, b"amount")
            && is_integer(target, b"target")
            && is_text(reply, b"reply")
            && is_integer(rest, b"rest")
            && is_required_text(delta, b"delta"),
        _ => false,
    }
}

fn are_of_entries(columns: &[Column]) -> bool
    ensures { IsTrue result ↔ (columns.now ≡ (entries_at 1).columns) }
{
    match columns {
        [pos, peer, number, verb, event, more @ ..] => is_integer(pos, b"pos")
            && is_integer(peer, b"peer")
            && is_integer(number, b"number")
            && is_text(verb, b"verb")
            && is_text(event, b"event")
            && are_last_of_entries(more),
        _ => false,
    }
}

fn has_no_term(terms: &Terms) -> bool
    ensures { IsTrue result ↔ (terms.now ≡ []) }
{
    terms.roots.is_empty()
}

fn is_unstamped(stamps: &Stamps) -> bool
    ensures { IsTrue result ↔ (stamps.now ≡ record { places = []; terms = []; formats = [] }) }
{
    stamps.places.is_empty() && stamps.formats.is_empty() && has_no_term(&stamps.terms)
}

fn is_first(key: Option<usize>) -> bool
    ensures { IsTrue result ↔ (key ≡ Some 0) }
{
    match key {
        Some(at) => at == 0,
        None => false,
    }
}

fn is_only(places: &[usize], place: usize) -> bool
    ensures { IsTrue result ↔ (places.now ≡ place ∷ []) }
{
    match places {
        [at] => *at == place,
        _ => false,
    }
}

fn are_plain(orders: &[Order]) -> bool
    ensures { IsTrue result ↔ (orders.now ≡ record { digits = 0 } ∷ []) }
{
    match orders {
        [order] => order.digits == 0,
        _ => false,
    }
}

fn is_number_key(keys: &[Items<usize>]) -> bool
    ensures { IsTrue result ↔ (keys.now ≡ (3 ∷ []) ∷ []) }
{
    match keys {
        [key] => is_only(key.as_slice(), 3),
        _ => false,
    }
}

// Whether the key is the first column, and nothing refers to another table or is computed.
fn is_bare(t: &Table) -> bool
    ensures { IsTrue result ↔ (IsBare t.now) }
{
    is_first(t.key)
        && is_only(t.primary.as_slice(), 0)
        && t.references.is_empty()
        && t.computed.is_empty()
        && is_unstamped(&t.stamps)
        && !t.is_counted
}

fn is_first_column(node: Option<&Op>) -> bool
    ensures { IsTrue result ↔ (option_copied node.entry ≡ Some (ColumnAt 1 0)) }
{
    match node {
        Some(Op::Column(slot, at)) => *slot == 1 && *at == 0,
        _ => false,
    }
}

fn is_1(node: Option<&Op>) -> bool
    ensures { IsTrue result ↔ (option_copied node.entry ≡ Some (Literal (Int (pos 1)))) }
{
    match node {
        Some(Op::Literal(Value::Int(n))) => *n == 1,
        _ => false,
    }
}

// Whether the nodes at these places are the first column and 1.
fn are_one_and_1(nodes: &Items<Op>, left: usize, right: usize) -> bool
    ensures { IsTrue result ↔ AreOneAnd1 nodes.now left right }
{
    is_first_column(nodes.get(left)) && is_1(nodes.get(right))
}

// The two sides of an equality.
fn sides(node: &Op) -> Option<(usize, usize)>
    ensures { result ≡ sides_of node.now }
{
    match node {
        Op::Binary(BinaryOp::Compare(CompareOp::Eq, Collation::Binary), left, right) => Some((
            *left, *right,
        )),
        _ => None,
    }
}

// Whether the node is `one = 1`.
fn is_one_is_1(nodes: &Items<Op>, at: usize) -> bool
    requires { 2 ≤ length nodes.now }
    ensures { IsTrue result ↔ (term_in nodes.now at ≡ one_is_1) }
{
    let Some(node) = nodes.get(at) else {
        return false;
    };
    let Some((left, right)) = sides(node) else {
        return false;
    };
    are_one_and_1(nodes, left, right)
}

// Whether the only check is `one = 1`.
fn is_one(checks: &Terms) -> bool
    ensures { IsTrue result ↔ (checks.now ≡ (meta_at 0).checks) }
{
    match checks.roots.as_slice() {
        [root] => checks.nodes.len() >= 2 && is_one_is_1(&checks.nodes, *root),
        _ => false,
    }
}

fn is_meta(t: &Table) -> bool
    ensures { IsTrue result ↔ (t.now ≡ meta_at 0) }
{
    is_name(&t.name, b"meta")
        && t.tree == 0
        && are_of_meta(t.columns.as_slice())
        && is_bare(t)
        && t.uniques.is_empty()
        && t.orders.is_empty()
        && is_one(&t.checks)
}

fn is_entries(t: &Table) -> bool
    ensures { IsTrue result ↔ (t.now ≡ entries_at 1) }
{
    is_name(&t.name, b"entries")
        && t.tree == 1
        && are_of_entries(t.columns.as_slice())
        && is_bare(t)
        && is_number_key(t.uniques.as_slice())
        && are_plain(t.orders.as_slice())
        && has_no_term(&t.checks)
}

fn is_number_index(i: &Index) -> bool
    ensures { IsTrue result ↔ (i.now ≡ number_index) }
{
    is_name(&i.name, b"sqlite_autoindex_entries_1")
        && i.tree == 2
        && i.table == 1
        && is_only(i.columns.as_slice(), 3)
        && i.order.digits == 0
        && i.is_unique
}

fn refers_to_none(tables: &[Table]) -> bool
    ensures { IsTrue result ↔ AllByRecursion RefersToNone tables.now }
{
    tables.iter().all(|t| t.references.is_empty())
}

fn are_ours_first(tables: &[Table]) -> bool
    ensures { IsTrue result ↔ AreOursFirst tables.now }
{
    match tables {
        [meta, entries, more @ ..] => is_meta(meta) && is_entries(entries) && refers_to_none(more),
        _ => false,
    }
}

fn is_ours_first(indexes: &[Index]) -> bool
    ensures { IsTrue result ↔ IsOursFirst indexes.now }
{
    match indexes {
        [index, ..] => is_number_index(index),
        _ => false,
    }
}

/// Whether the schema begins with that of the records, and no further table refers to a table.
#[tactic(auto, using(crate::proofs::ShapeLemmas::ours_of, crate::proofs::ShapeLemmas::first_of))]
pub fn is_ours(schema: &Schema) -> bool
    ensures { IsTrue result ↔ IsOurs schema.now }
{
    are_ours_first(schema.tables.as_slice()) && is_ours_first(schema.indexes.as_slice())
}

fn is_our_name(name: &Bytes) -> bool
    ensures { result ≡ is_our_name name.now }
{
    same_name(name.as_slice(), b"meta") || same_name(name.as_slice(), b"entries")
}

fn has_our_name(tables: &[Table]) -> bool
    ensures { result ≡ list_any (λ t. is_our_name t.name) tables.now }
{
    tables.iter().any(|t| is_our_name(&t.name))
}

fn keeps_our_name(views: &[View]) -> bool
    ensures { result ≡ list_any (λ v. is_our_name v.name) views.now }
{
    views.iter().any(|v| is_our_name(&v.name))
}

/// Whether a table or view has the name of one of ours, in either case.
pub fn has_our_table(schema: &Schema) -> bool
    ensures { result ≡ has_our_table schema.now }
{
    has_our_name(schema.tables.as_slice()) || keeps_our_name(schema.views.as_slice())
}

//! Event names.
ghost use Rattle.std.specs.Prelude.{◌≡◌, ℕ, ◌<◌, ◌≤◌, IsSome, IfSome, IsTrue, ◌↔◌, Some, None, ◌==◌, nat_eq, length};
ghost use Rattle.rights_lattice.specs.EventName.{IsEventName, is_event_byte, name_of, padded_name};
ghost use Rattle.rights_lattice.specs.Limits.{longest_name};
ghost use Rattle.std.specs.Ordering.{nat_cmp, as_partial_cmp};
ghost use Rattle.std.specs.Cmp.Lexicographic.{slice_cmp};
ghost use Rattle.std.specs.Cmp.{partial_order_from_own_ties};
ghost use Rattle.std.specs.List.{list_all};
ghost use Rattle.std.specs.Hash as fed;
ghost use lib.Pointwise.{pointwise};
ghost use Rattle.std.proofs.Common.{rules};
ghost use Rattle.std.specs.Cmp.Rules.{comparing, hashing};

use crate::limits::LONGEST_NAME;
use std::cmp::Ordering;
use std::hash::{Hash, Hasher};
use std::marker::Model;

/// The name of an event: 1 to 32 bytes of `a-z`, `0-9`, `-`.
#[derive(Clone, Copy, Debug)]
pub struct Event {
    name: [u8; LONGEST_NAME],
    len: u8,
}

impl Model for Event {
    ghost use Rattle.std.specs.Prelude.{ℕ, List, length, take};
    ghost use Rattle.std.proofs.Common.{sym};
    ghost use Rattle.rights_lattice.specs.EventName.{KeepsName, padded_name};

    ghost Value = { List ℕ };

    ghost view = { λ e. take e.len e.name };

    ghost invariant = { λ e. KeepsName e.name e.len };

    ghost inverse = { λ name. record { name = padded_name name; len = length name } };

    ghost inverse_ok = { λ a h i. record { name = sym h.padded i; len = h.counted i } };
}

impl Event {
    /// The event with this name, where the bytes are a name.
    pub fn read(bytes: &[u8]) -> Option<Event>
        ensures names { IsSome result ↔ IsEventName bytes.now }
        ensures same { IfSome result (λ event. event ≡ bytes.now) }
        // Both as a function.
        ensures name { result ≡ name_of bytes.now }
    {
        if !is_event_name(bytes) {
            return None;
        }
        Some(Event {
            name: padded_name(bytes),
            len: bytes.len() as u8,
        })
    }

    /// The bytes of the name, 1 to 32.
    pub fn bytes(&self) -> &[u8]
        ensures bytes { result.now ≡ self.now }
        ensures is_name { IsEventName self.now }
    {
        &self.name[..self.len as usize]
    }
}

fn is_event_name(bytes: &[u8]) -> bool
    ensures { IsTrue result ↔ IsEventName bytes.now }
{
    1 <= bytes.len() && bytes.len() <= LONGEST_NAME && are_event_bytes(bytes)
}

fn are_event_bytes(bytes: &[u8]) -> bool
    ensures { result ≡ list_all is_event_byte bytes.now }
{
    bytes.iter().all(|byte| is_event_byte(*byte))
}

fn padded_name(bytes: &[u8]) -> [u8; LONGEST_NAME]
    requires { length bytes.now ≤ longest_name }
    ensures { result ≡ padded_name bytes.now }
{
    let mut name = [0u8; LONGEST_NAME];
    name[..bytes.len()].copy_from_slice(bytes);
    name
}

fn is_event_byte(byte: u8) -> bool
    ensures { result ≡ is_event_byte byte }
{
    matches!(byte, b'a'..=b'z' | b'0'..=b'9' | b'-')
}

impl PartialEq for Event {
    ghost eq = { pointwise nat_eq };

    ghost laws = { Prim.search (comparing, rules) };

    fn eq(&self, other: &Event) -> bool {
        self.bytes() == other.bytes()
    }
}

impl Eq for Event {
    ghost laws = { Prim.search (comparing, rules) };
}

impl Ord for Event {
    ghost cmp = { slice_cmp nat_cmp };

    ghost total = { Prim.search (comparing, rules) };

    ghost matches_partial_cmp = { Prim.search (comparing, rules) };

    ghost matches_eq = { Prim.search (comparing, rules) };

    fn cmp(&self, other: &Event) -> Ordering {
        self.bytes().cmp(other.bytes())
    }
}

impl PartialOrd for Event {
    ghost partial_cmp = { as_partial_cmp (slice_cmp nat_cmp) };

    ghost laws = { partial_order_from_own_ties (Prim.search (comparing, rules)) (Prim.search (comparing, rules)) };

    fn partial_cmp(&self, other: &Event) -> Option<Ordering> {
        Some(self.cmp(other))
    }
}

impl Hash for Event {
    ghost hash_input = { fed.slice fed.u8 };

    ghost respects_eq = { Prim.search (hashing, rules) };

    fn hash<H: Hasher>(&self, state: &mut H) {
        self.bytes().hash(state);
    }
}

//! The lines of a text.

ghost use Rattle.std.specs.Prelude.{◌≡◌, ◌+◌, ◌^◌, ◌<◌, ◌==◌, length, position, IfSome, IfNone, List, ℕ, ◌∷◌, []};
ghost use Rattle.std.specs.List.{slice_split};
ghost use Rattle.plain_words.specs.Input.{is_line_break};
ghost use Rattle.delta_wire.specs.Wire.{is_over, TakesLine};

use std::marker::Model;

/// What is left of a text.
#[derive(Drop)]
pub struct Lines<'a> {
    rest: &'a [u8],
}

impl<'a> Model for Lines<'a> {
    ghost use Rattle.std.specs.Prelude.{List, ℕ};
    ghost use Rattle.std.specs.List.{slice_split};
    ghost use Rattle.plain_words.specs.Input.{is_line_break};

    ghost Value = { List (List ℕ) };

    ghost view = { λ w. slice_split is_line_break w.rest.now };
}

fn first_break(bytes: &[u8]) -> Option<usize>
    ensures value { result ≡ position (λ b. b == 10) bytes.now }
    ensures within { IfSome result (λ at. (at < length bytes.now) × (at + 1 < 2 ^ 64)) }
{
    bytes.iter().position(|byte| *byte == b'\n')
}

impl<'a> Lines<'a> {
    /// The lines of the bytes; what is behind the last line break is a line too, and may be empty.
    pub fn new(bytes: &'a [u8]) -> Lines<'a>
        ensures lines { result ≡ slice_split is_line_break bytes.now }
        ensures few { length result < 2 ^ 63 + 1 }
    {
        // How long a slice may be bounds its lines.
        let _length = bytes.len();
        Lines { rest: bytes }
    }

    /// Takes the next line, where a line break ends it.
    pub fn next(&mut self) -> Option<&'a [u8]>
        ensures last { IfNone result ((last : List ℕ) × (self.old ≡ last ∷ [])) }
        ensures same { IfNone result (self.new ≡ self.old) }
        ensures line { IfSome result (λ line. TakesLine self.old line.now self.new) }
    {
        let bytes = self.rest;
        match first_break(bytes) {
            None => None,
            Some(at) => {
                self.rest = &bytes[at + 1..];
                Some(&bytes[..at])
            }
        }
    }

    /// Whether nothing is left.
    pub fn is_over(&self) -> bool
        ensures { result ≡ is_over self.now }
    {
        self.rest.is_empty()
    }
}

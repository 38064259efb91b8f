//! The words of a line.

ghost use Rattle.std.specs.Prelude.{◌≡◌, ◌+◌, ◌^◌, ◌<◌, ◌==◌, length, position, IfSome, IfNone};
ghost use Rattle.std.specs.Option.{option_map};
ghost use Rattle.std.specs.List.{slice_split};
ghost use Rattle.plain_words.specs.Words.{is_space, first_word, is_nil};

use std::marker::Model;

/// The words that are left of a line.
///
/// Between two spaces that touch, at a space at either end, and on a line of no bytes, stands a word of no bytes.
#[derive(Drop)]
pub struct Words<'a> {
    // None behind the last word.
    rest: Option<&'a [u8]>,
}

impl<'a> Model for Words<'a> {
    ghost use Rattle.std.specs.Prelude.{List, ℕ};
    ghost use Rattle.plain_words.specs.Words.{words_of};

    ghost Value = { List (List ℕ) };

    ghost view = { λ w. words_of w.rest };
}

fn first_space(bytes: &[u8]) -> Option<usize>
    ensures value { result ≡ position is_space bytes.now }
    ensures within { IfSome result (λ at. (at < length bytes.now) × (at + 1 < 2 ^ 64)) }
{
    bytes.iter().position(|byte| *byte == b' ')
}

impl<'a> Words<'a> {
    /// The words of a line, with one space between two.
    pub fn new(line: &'a [u8]) -> Words<'a>
        ensures { result ≡ slice_split is_space line.now }
    {
        Words { rest: Some(line) }
    }

    /// Takes the first word, if one is left.
    pub fn next(&mut self) -> Option<&'a [u8]>
        ensures first { option_map (λ w. (w.now, self.new)) result ≡ first_word self.old }
        ensures unchanged { IfNone result (self.new ≡ self.old) }
    {
        let Some(bytes) = self.rest else {
            return None;
        };
        match first_space(bytes) {
            None => {
                self.rest = None;
                Some(bytes)
            }
            Some(at) => {
                self.rest = Some(&bytes[at + 1..]);
                Some(&bytes[..at])
            }
        }
    }

    /// Whether no word is left.
    pub fn is_empty(&self) -> bool
        ensures { result ≡ is_nil self.now }
    {
        match self.rest {
            None => true,
            Some(_) => false,
        }
    }
}

//! Numbers in decimal.

ghost use Rattle.std.specs.Prelude.{◌≡◌, ◌+◌, ◌*◌, ◌<◌, ◌^◌, ◌≤◌, IfSome, IfNone, SomeIff, drop};
ghost use Rattle.std.specs.Option.{option_map};
ghost use Rattle.std.specs.Int.{IsInRange};
ghost use Rattle.std.specs.Char.{digit_value};
ghost use Rattle.plain_words.specs.Number.{number_of, number_at, starts_plainly};

use crate::words::Words;

fn starts_plainly(word: &[u8]) -> bool
    ensures { result ≡ starts_plainly word.now }
{
    !word.is_empty() && (word[0] != b'0' || word.len() == 1)
}

fn digit_of(byte: u8) -> Option<u64>
    ensures digit { IfSome result (λ d. (d ≡ digit_value byte) × (d < 10)) }
    ensures none { IfNone result (IsInRange 48 57 byte → ⊥) }
{
    if byte.is_ascii_digit() {
        Some(u64::from(byte - b'0'))
    } else {
        None
    }
}

// The number with one more digit, if it fits.
fn with_digit(value: u64, digit: u64) -> Option<u64>
    ensures { SomeIff result (value * 10 + digit < 2 ^ 64) (value * 10 + digit) }
{
    value.checked_mul(10)?.checked_add(digit)
}

/// The number that a word spells, if it is one from `low` to `high`.
pub fn read_number(word: &[u8], low: u64, high: u64) -> Option<u64>
    ensures value { result ≡ number_of low high word.now }
    ensures within { IfSome result (λ n. (low ≤ n) × (n ≤ high)) }
{
    if !starts_plainly(word) {
        return None;
    }
    let mut value = 0u64;
    for byte in word {
        let Some(digit) = digit_of(*byte) else {
            return None;
        };
        let Some(longer) = with_digit(value, digit) else {
            return None;
        };
        if longer > high {
            return None;
        }
        value = longer;
    }
    if value < low { None } else { Some(value) }
}

/// Takes the next word, and answers the number from `low` to `high` that it spells.
///
/// None where no word is left, or it spells no such number; the word is taken then too.
#[tactic(auto, unfolding(crate::specs::Number::number_at), using(crate::proofs::WordLaws::one_taken))]
pub fn number_at(words: &mut Words<'_>, low: u64, high: u64) -> Option<u64>
    ensures value { option_map (λ n. (n, words.new)) result ≡ number_at low high words.old }
    ensures within { IfSome result (λ n. (low ≤ n) × (n ≤ high)) }
    ensures taken { words.new ≡ drop 1 words.old }
{
    let word = words.next()?;
    let number = read_number(word, low, high)?;
    Some(number)
}

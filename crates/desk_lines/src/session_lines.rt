//! Reading the lines of a session.

ghost use Rattle.std.specs.Prelude.{◌≡◌, Ok, IfOk};
ghost use Rattle.std.specs.Result.{result_ok};
ghost use Rattle.desk_lines.specs.declared.line.Line.{Line};
ghost use Rattle.desk_lines.specs.Grammar.{session_text, IsSessionLine};
ghost use Rattle.desk_lines.specs.Reading.{left_line_in, totals_line_in, ask_line_in, asked_in, session_line_of};

use crate::line::{BadLine, Line};
use crate::requests::request_from;
use delta_wire::event_at;
use plain_words::Words;

#[tactic(auto, unfolding(crate::specs::Reading::left_line_in))]
fn left_line_in(words: &mut Words<'_>) -> Option<Line>
    ensures { result ≡ left_line_in words.old }
{
    let event = event_at(words)?;
    if words.is_empty() {
        Some(Line::Left { event })
    } else {
        None
    }
}

#[tactic(auto, unfolding(crate::specs::Reading::totals_line_in))]
fn totals_line_in(words: &mut Words<'_>) -> Option<Line>
    ensures { result ≡ totals_line_in words.old }
{
    let event = event_at(words)?;
    if words.is_empty() {
        Some(Line::Totals { event })
    } else {
        None
    }
}

#[tactic(auto, unfolding(crate::specs::Reading::ask_line_in))]
fn ask_line_in(word: &[u8], words: &mut Words<'_>) -> Option<Line>
    ensures { result ≡ ask_line_in word.now words.old }
{
    let (number, request) = request_from(word, words)?;
    Some(Line::Ask { number, request })
}

/// What the words ask of a site, where no word is left over.
#[tactic(auto, unfolding(crate::specs::Reading::asked_in))]
pub(crate) fn asked_in(words: &mut Words<'_>) -> Option<Line>
    ensures { result ≡ asked_in words.old }
{
    let word = words.next()?;
    if word == b"left".as_slice() {
        left_line_in(words)
    } else if word == b"totals".as_slice() {
        totals_line_in(words)
    } else {
        ask_line_in(word, words)
    }
}

fn session_line_of(bytes: &[u8]) -> Option<Line>
    ensures { result ≡ session_line_of bytes.now }
{
    if bytes == b"quit".as_slice() {
        return Some(Line::Quit);
    }
    asked_in(&mut Words::new(bytes))
}

/// Reads a line of a session, without its line break; `BadLine` where it is none.
pub fn read_line(bytes: &[u8]) -> Result<Line, BadLine>
    // What is read is spelled so.
    ensures found { IfOk result (λ l. IsSessionLine l × (bytes.now ≡ session_text l)) }
    // What is spelled so is read.
    ensures only { (l : Line) → IsSessionLine l → bytes.now ≡ session_text l → result ≡ Ok l }
    // Which line it is, as a function.
    ensures exact { result_ok result ≡ session_line_of bytes.now }
{
    match session_line_of(bytes) {
        Some(line) => Ok(line),
        None => Err(BadLine),
    }
}

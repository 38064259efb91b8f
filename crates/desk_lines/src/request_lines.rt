//! Writing the line of a session that asks a request.

ghost use Rattle.std.specs.Prelude.{◌≡◌, ◌≤◌, ◌∷◌, [], Some};
ghost use Rattle.arrayvec.specs.ArrayVec.{array_vec_len};
ghost use Rattle.std.specs.Fmt.{decimal};
ghost use Rattle.std.specs.List.{join_with_byte};
ghost use Rattle.plain_words.specs.Writing.{Writes};
ghost use Rattle.desk_lines.specs.declared.line.Line.TheVariants.{Ask};
ghost use Rattle.request_ledger.specs.Words.{verb_word};
ghost use Rattle.rights_lattice.specs.Cells.{IsValue};
ghost use Rattle.request_ledger.specs.Ranges.{IsPart, IsRequest};
ghost use Rattle.request_ledger.specs.declared.request.Request.TheVariants.{Refund};
ghost use Rattle.desk_lines.specs.Grammar.{request_words, request_line};
ghost use Rattle.rights_lattice.specs.EventName.{IsEventName};
ghost use Rattle.desk_lines.specs.Reading.{session_line_of};

use plain_words::{Text, WriteFault, put, put_number, word, write_bytes};
use request_ledger::{Request, RequestNumber, Verb};
use rights_lattice::{Amount, Event};
use std::io::Write;

// A verb with the request's number.
fn verb_numbered(verb: Verb, number: RequestNumber) -> Text
    ensures value { result.items ≡ join_with_byte 32 (verb_word verb ∷ decimal number ∷ []) }
    ensures fits { IsValue number }
    ensures len { array_vec_len result ≤ 29 }
{
    let mut text = word(verb.word());
    put(&mut text, b" ");
    put_number(&mut text, number.get());
    text
}

// The same with an event.
fn verb_named(verb: Verb, number: RequestNumber, event: Event) -> Text
    ensures value { result.items
        ≡ join_with_byte 32 (verb_word verb ∷ decimal number ∷ event ∷ []) }
    ensures fits { IsValue number × IsEventName event }
    ensures len { array_vec_len result ≤ 62 }
{
    let mut text = verb_numbered(verb, number);
    put(&mut text, b" ");
    put(&mut text, event.bytes());
    text
}

// The same with an amount.
fn verb_sized(verb: Verb, number: RequestNumber, event: Event, amount: Amount) -> Text
    ensures value { result.items
        ≡ join_with_byte 32 (verb_word verb ∷ decimal number ∷ event ∷ decimal amount ∷ []) }
    ensures fits { IsValue number × IsEventName event × IsValue amount }
    ensures len { array_vec_len result ≤ 83 }
{
    let mut text = verb_named(verb, number, event);
    put(&mut text, b" ");
    put_number(&mut text, amount.seats());
    text
}

// A refund of a sale, or of a part of it.
fn refund_words(number: RequestNumber, sale: RequestNumber, part: Option<Amount>) -> Text
    ensures value { result.items ≡ join_with_byte 32 (request_words number (Refund sale part)) }
    ensures fits { IsValue number × IsValue sale × IsPart part }
    ensures len { array_vec_len result ≤ 71 }
{
    let mut text = verb_numbered(Verb::Refund, number);
    put(&mut text, b" ");
    put_number(&mut text, sale.get());
    if let Some(part) = part {
        put(&mut text, b" ");
        put_number(&mut text, part.seats());
    }
    text
}

// The words of a request, with one space between two.
fn request_words(number: RequestNumber, request: Request) -> Text
    ensures value { result.items ≡ join_with_byte 32 (request_words number request) }
    ensures fits { IsValue number × IsRequest request }
    ensures len { array_vec_len result ≤ 104 }
{
    let verb = request.verb();
    match request {
        Request::Announce { event } => verb_named(verb, number, event),
        Request::Release { event, amount } => verb_sized(verb, number, event, amount),
        Request::Sell { event, amount } => verb_sized(verb, number, event, amount),
        Request::Refund { sale, part } => refund_words(number, sale, part),
        Request::Cede { event, amount, to } => {
            let mut text = verb_sized(verb, number, event, amount);
            put(&mut text, b" ");
            put_number(&mut text, to.number());
            text
        }
    }
}

/// The session line that asks a request, without a line break.
#[tactic(auto, unfolding(crate::specs::Grammar::request_line, crate::specs::Grammar::session_text))]
pub fn request_text(number: RequestNumber, request: Request) -> Text
    ensures line { result.items ≡ request_line number request }
    // It is read as that request.
    ensures read { session_line_of result.items ≡ Some (Ask number request) }
    ensures len { array_vec_len result ≤ 104 }
{
    request_words(number, request)
}

/// Writes the session line that asks a request, without a line break, or after a fault a front of
/// it.
pub fn request_line<W: Write>(
    number: RequestNumber,
    request: &Request,
    out: &mut W,
) -> Result<(), WriteFault>
    ensures written { Writes
        (W.contents out.old) (W.contents out.new) result (request_line number request.now) }
    // It is read as that request.
    ensures read { session_line_of (request_line number request.now)
        ≡ Some (Ask number request.now) }
{
    let text = request_text(number, *request);
    write_bytes(text.as_slice(), out)
}

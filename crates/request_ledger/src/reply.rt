//! What a request was answered, and what is kept of it.
ghost use Rattle.std.specs.Prelude.{◌≡◌, ◌≤◌, length, IfSome};
ghost use Rattle.std.specs.List.{find};
ghost use Rattle.std.specs.Str.{bytes_eq};
ghost use Rattle.request_ledger.specs.Words.{reply_word, reply_number, reply_of, FindsEach};

use crate::request::Request;
use rights_lattice::{Amount, Event};

/// The decision on a request.
#[derive(Clone, Copy, PartialEq, Eq, Debug)]
pub enum Reply {
    /// What was asked is done.
    Done,
    /// The name of the event is known at this site already.
    Known,
    /// The name of the event is not known at this site.
    Unknown,
    /// More seats than the `left` rights of this site.
    Short { left: u64 },
    /// The cell would pass its greatest value.
    CellFull,
    /// No sale that was done at this site has that number.
    NoSale,
    /// All seats of the sale are given back.
    Refunded,
    /// More seats are asked back than the `rest` of the sale that is not given back.
    TooMany { rest: u64 },
    /// A site does not cede to itself.
    ToSelf,
    /// The site to cede to is not there.
    NoSite,
}

const WITHOUT_NUMBER: [Reply; 8] = [
    Reply::Done,
    Reply::Known,
    Reply::Unknown,
    Reply::CellFull,
    Reply::NoSale,
    Reply::Refunded,
    Reply::ToSelf,
    Reply::NoSite,
];

impl Reply {
    /// The first word of the line that tells it, of at most 9 bytes.
    pub fn word(self) -> &'static [u8]
        ensures word { result.now ≡ reply_word self }
        ensures short { length result.now ≤ 9 }
    {
        match self {
            Reply::Done => b"done",
            Reply::Known => b"known",
            Reply::Unknown => b"unknown",
            Reply::Short { .. } => b"short",
            Reply::CellFull => b"full-cell",
            Reply::NoSale => b"no-sale",
            Reply::Refunded => b"refunded",
            Reply::TooMany { .. } => b"too-many",
            Reply::ToSelf => b"to-self",
            Reply::NoSite => b"no-site",
        }
    }

    /// The number behind the word, where the reply has one.
    pub fn number(self) -> Option<u64>
        ensures { result ≡ reply_number self }
    {
        match self {
            Reply::Short { left } => Some(left),
            Reply::TooMany { rest } => Some(rest),
            _ => None,
        }
    }

    /// The reply that has this word and this number; `None` where none has.
    #[tactic(auto, unfolding(crate::specs::Words::reply_of))]
    pub fn read(word: &[u8], number: Option<u64>) -> Option<Reply>
        ensures found { IfSome result (λ r. (word.now ≡ reply_word r) × (number ≡ reply_number r)) }
        ensures only { FindsEach word.now number result }
        ensures exact { result ≡ reply_of word.now number }
    {
        match number {
            Some(seats) => first_with(
                &[Reply::Short { left: seats }, Reply::TooMany { rest: seats }],
                word,
            ),
            None => first_with(&WITHOUT_NUMBER, word),
        }
    }
}

// The first of these replies that has this word.
fn first_with(replies: &[Reply], word: &[u8]) -> Option<Reply>
    ensures { result ≡ find (λ r. bytes_eq word.now (reply_word r)) replies.now }
{
    replies.iter().find(|reply| word == reply.word()).copied()
}

/// What is kept for a request number: its place in the history, the request and its reply.
#[derive(Clone, Copy, PartialEq, Eq, Debug)]
pub struct Kept {
    pub place: usize,
    pub request: Request,
    pub reply: Reply,
}

/// A sale that was done, and how many of its seats are given back.
#[derive(Clone, Copy, PartialEq, Eq, Debug)]
pub struct SaleState {
    pub event: Event,
    pub seats: Amount,
    pub given_back: u64,
}

//! What an office does to spare its history, which takes so many entries and no more.

ghost use Rattle.std.specs.Prelude.{◌≡◌, false, MatchOption};
ghost use Rattle.live_office.specs.Admissible.{admissible};
ghost use Rattle.live_office.specs.Sparing.{IsNotSpared, IsSpared, spared_text, uses_reserve};

use history_keeper::Keeper;
use plain_words::{Text, numbered, put, word};
use request_ledger::{Request, RequestNumber};
use site_desk::{Desk, Opens};
use std::sync::Wait;

/// How an office spares its history. The default spares nothing.
#[derive(Clone, Copy, PartialEq, Eq, Debug)]
pub struct Sparing {
    /// Whether a request for more than is left is answered `low L`, which keeps nothing.
    pub tells_low: bool,
    /// How many of the last entries are kept for refunds, cessions, messages and growth.
    pub reserve: u64,
}

impl Sparing {
    /// Nothing is spared.
    pub fn nothing() -> Sparing
        ensures { result ≡ record { tells_low = false; reserve = 0 } }
    {
        Sparing {
            tells_low: false,
            reserve: 0,
        }
    }
}

/// Why a request under a new number is not asked. Nothing is kept, and the number stays free.
#[derive(Clone, Copy, PartialEq, Eq, Debug)]
pub enum Spared {
    /// It asks for more than is left.
    Low { left: u64 },
    /// The entries that are free are kept for others.
    Reserved,
}

// Whether a request may use the entries that are kept.
fn uses_reserve(request: &Request) -> bool
    ensures { result ≡ uses_reserve request.now }
{
    matches!(request, Request::Refund { .. } | Request::Cede { .. })
}

/// Why the request is not asked of this desk, if it is not.
pub(crate) fn spare<T: Wait, K: Keeper, L: Opens>(
    rt: &T,
    desk: &Desk<K, L>,
    sparing: Sparing,
    number: RequestNumber,
    request: &Request,
) -> Option<Spared>
    ensures { MatchOption result
        (IsNotSpared (admissible L.office L.began K.Keeper) sparing number request.now)
        (IsSpared (admissible L.office L.began K.Keeper) sparing number request.now) }
{
    let Sparing { tells_low, reserve } = sparing;
    if reserve > 0 && !uses_reserve(request) && desk.is_reserved(rt, number, reserve) {
        return Some(Spared::Reserved);
    }
    if !tells_low {
        return None;
    }
    match desk.shortage(rt, number, request) {
        Some(left) => Some(Spared::Low { left }),
        None => None,
    }
}

/// The line that says so, with its line break.
pub(crate) fn spared_line(spared: Spared) -> Text
    ensures { result.items ≡ spared_text spared }
{
    let mut text = match spared {
        Spared::Low { left } => numbered(b"low ", left),
        Spared::Reserved => word(b"history-full"),
    };
    put(&mut text, b"\n");
    text
}

//! Sessions at a desk, and what they leave.

ghost use Rattle.std.specs.Prelude.{MatchOption};
ghost use Rattle.session_server.specs.Served.{IsNotStarted, Served};

use crate::fault::{Ended, TalkFault};
use site_desk::{Opens, Receipt, Seat, Seen};
use std::io::{Read, Write};
use std::snapshot::Snapshot;

/// A session that is to begin. The number is the one that a gate sees.
#[derive(Drop)]
pub struct Session<R: Read + Drop, W: Write + Drop, L: Opens> {
    pub id: u64,
    pub reader: R,
    pub writer: W,
    pub seat: Seat<L>,
}

/// A session that has ended, with the receipts and the looks that it was given, in order, and its writer. There is no
/// writer where the session's thread could not be started.
///
/// Its reader and writer as they began are there for contracts alone.
#[derive(Drop)]
pub struct SessionEnd<R: Read + Drop, W: Write + Drop> {
    pub id: u64,
    pub writer: Option<W>,
    pub receipts: Vec<Receipt>,
    pub seen: Vec<Seen>,
    pub ended: Result<Ended, TalkFault>,
    pub reader_began: Snapshot<R>,
    pub writer_began: Snapshot<W>,
    ghost served: { ∥ MatchOption writer (IsNotStarted ended receipts.items seen.items)
        (λ w. Served (R.remaining reader_began.value) (W.contents writer_began.value) (W.contents w) ended receipts.items seen.items) ∥₁ },
}

//! Where callers come in.

ghost use Rattle.std.specs.Prelude.{IfSome};
ghost use Rattle.live_office.specs.declared.door.Access.{Access as AccessOf};

use crate::serving::Call;
use std::io::{Read, Write};
use std::sync::Wait;
use std::time::Clock;

/// Which lines a caller may use.
#[derive(Clone, Copy, PartialEq, Eq, Debug)]
pub enum Access {
    /// Those of a session, and `site`. Every other one is answered `bad-line`, and if no line before it could be read, it
    /// is the last.
    Session,
    /// All lines of an office.
    Operator,
    /// `status`, `site`, `close` and `quit` alone: those of a place that is kept for them.
    Kept,
}

/// A door at which callers come in, which threads share.
pub trait Door<R: Read + Drop, W: Write + Drop> {
    /// Which access callers at this door have.
    ghost gives: { AccessOf → Type 0 };

    /// Waits for the next caller, whom no other call gives. There is none once the office closes.
    fn next<T: Wait + Clock>(&self, rt: &T) -> Option<Call<R, W>>
        ensures { IfSome result (λ call. gives call.access) };
}

//! What handles the lines of a session at an open office.

ghost use Rattle.std.specs.Prelude.{◌≡◌, ℕ, List, MatchResult};
ghost use Rattle.live_office.specs.declared.handler.Last.{Last as LastLine};
ghost use Rattle.live_office.specs.Answers.{answer_text};

use crate::office_answer::OfficeAnswer;
use std::sync::Wait;
use std::time::Clock;

/// Why a line is the last of a session.
#[derive(Clone, Copy, PartialEq, Eq, Debug)]
pub enum Last {
    /// It asks that the session ends.
    Quit,
    /// It asks that the office closes.
    Close,
    /// It cannot be read, and no line before it could: who sends it is no clerk, but a browser, say.
    Unread,
    /// It asks what a place that is kept does not answer.
    Full,
}

/// What handles the lines of a session, one by one.
pub trait Handler {
    /// Such a handler may answer the line by this text, and then be this one.
    ghost handles: { Self → List ℕ → List ℕ → Self → Type 0 };

    /// The line is the last that such a handler takes.
    ghost ends: { Self → List ℕ → LastLine → Type 0 };

    /// Bytes of which the front are the lines that come next. It may ask for several of them at once, at most so many, which
    /// must all be handled then. No line is answered by that.
    fn ask_ahead<T: Wait + Clock>(&mut self, rt: &T, bytes: &[u8], most: u32)
        ensures { self.new ≡ self.old };

    /// Answers a line, or reports that it is the last, which changes nothing.
    fn handle<T: Wait + Clock>(&mut self, rt: &T, line: &[u8]) -> Result<OfficeAnswer, Last>
        ensures { MatchResult result (λ answer. handles self.old line.now (answer_text answer)
            self.new) (λ last. ends self.old line.now last × (self.new ≡ self.old)) };
}

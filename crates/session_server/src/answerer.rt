//! What answers the lines of a session.

ghost use Rattle.desk_lines.specs.declared.line.Line.{Line};
ghost use Rattle.desk_lines.specs.declared.answered.Answered.{Answered};

use desk_lines::{Answered, Line};
use std::sync::Wait;

/// What answers the lines of a session.
pub trait Answerer {
    /// Such an answerer may answer the line so, and go on so.
    ghost step: { Self → Line → Answered → Self → Type 0 };

    /// Answers a line that asks something.
    fn answer<T: Wait>(&mut self, rt: &T, line: &Line) -> Answered
        ensures { step self.old line.now result self.new };
}

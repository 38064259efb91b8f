//! A seat for a caller, who has the lines of an access.

ghost use Rattle.std.specs.Prelude.{◌≡◌, ◌≢◌, Some, false, MatchResult};
ghost use Rattle.desk_lines.specs.declared.answered.Answered.TheVariants.{Unread};
ghost use Rattle.desk_lines.specs.Replies.{reply_line};
ghost use Rattle.live_office.specs.Admissible.{admissible};
ghost use Rattle.live_office.specs.Answers.{answer_text};
ghost use Rattle.live_office.specs.CallerLines.{IsRefusal, RefusesLine, caller_state, is_permitted};
ghost use Rattle.live_office.specs.Handling.{Nothing, seat_state};
ghost use Rattle.live_office.specs.Lines.{office_line_of};
ghost use Rattle.live_office.specs.Sitting.{sitting};

use crate::door::Access;
use crate::handler::{Handler, Last};
use crate::office_answer::OfficeAnswer;
use crate::office_handler::OfficeHandler;
use crate::office_line::{OfficeLine, read_office_line};
use crate::shared::Shared;
use desk_lines::{Answered, BadLine, Line};
use history_keeper::Keeper;
use site_desk::{Opens, Seat};
use std::marker::Model;
use std::sync::Wait;
use std::time::Clock;

/// A seat at a desk for a caller with an access, and whether a line of theirs could be read.
#[derive(Drop)]
pub struct CallerSeat<'a, K: Keeper, L: Opens> {
    access: Access,
    was_read: bool,
    office: OfficeHandler<'a, K, L>,
}

impl<'a, K: Keeper, L: Opens> Model for CallerSeat<'a, K, L> {
    ghost use Rattle.live_office.specs.CallerLines.{CallerState, caller_state};

    ghost Value = { CallerState };

    ghost view = { λ s. caller_state s.access s.was_read s.office };
}

// Whether a line is one that may be asked at the port.
fn is_session_line(line: &OfficeLine) -> bool
    ensures { result ≡ is_permitted Access.Session (Some line.now) }
{
    matches!(line, OfficeLine::Session { .. } | OfficeLine::Site)
}

// Whether a line is one that may be asked at a place that is kept.
fn is_kept_line(line: &OfficeLine) -> bool
    ensures { result ≡ is_permitted Access.Kept (Some line.now) }
{
    match line {
        OfficeLine::Status | OfficeLine::Site | OfficeLine::Close => true,
        OfficeLine::Session { line } => matches!(line, Line::Quit),
        _ => false,
    }
}

// Whether a caller with this access may ask the line.
fn is_permitted(access: Access, line: &[u8]) -> bool
    ensures { result ≡ is_permitted access (office_line_of line.now) }
{
    match read_office_line(line) {
        Ok(asked) => match access {
            Access::Session => is_session_line(&asked),
            Access::Operator => true,
            Access::Kept => is_kept_line(&asked),
        },
        Err(BadLine) => match access {
            Access::Operator => true,
            _ => false,
        },
    }
}

// What becomes of a line that may not be asked at the port.
fn refused_at_port(was_read: bool) -> Result<OfficeAnswer, Last>
    ensures { MatchResult result
        (λ answer. IsRefusal Access.Session was_read (answer_text answer))
        (λ last. RefusesLine Access.Session was_read last) }
{
    if !was_read {
        return Err(Last::Unread);
    }
    Ok(OfficeAnswer::Reply {
        answered: Answered::Unread,
    })
}

impl<'a, K: Keeper, L: Opens> CallerSeat<'a, K, L> {
    /// The seat answers at this desk, and tells the count of callers from here. No line was read.
    pub fn new(shared: &'a Shared<'a, K, L>, seat: Seat<L>, access: Access) -> CallerSeat<'a, K, L>
        ensures { result ≡ caller_state access false
            (seat_state shared.now.sparing (sitting seat.parts None) Nothing) }
    {
        CallerSeat {
            access,
            was_read: false,
            office: OfficeHandler::new(shared, seat),
        }
    }

    /// The seat, which answers no more.
    pub fn into_seat(self) -> Seat<L>
        ensures { result.parts ≡ self.entry.seat.seat.parts }
    {
        let CallerSeat { office, .. } = self;
        office.into_seat()
    }
}

impl<'a, K: Keeper, L: Opens> Handler for CallerSeat<'a, K, L> {
    ghost use Rattle.live_office.specs.Admissible.{admissible};
    ghost use Rattle.live_office.specs.CallerLines.{HandlesCaller, LastOfCaller};

    ghost handles = { HandlesCaller
        (admissible L.office L.began K.Keeper) };

    ghost ends = { LastOfCaller };

    fn ask_ahead<T: Wait + Clock>(&mut self, rt: &T, bytes: &[u8], most: u32) {
        match self.access {
            Access::Kept => {}
            Access::Session | Access::Operator => self.office.ask_ahead(rt, bytes, most),
        }
    }

    fn handle<T: Wait + Clock>(&mut self, rt: &T, line: &[u8]) -> Result<OfficeAnswer, Last> {
        if !is_permitted(self.access, line) {
            return match self.access {
                Access::Kept => Err(Last::Full),
                Access::Session | Access::Operator => refused_at_port(self.was_read),
            };
        }
        match self.office.handle(rt, line) {
            Ok(answer) => {
                self.was_read = true;
                Ok(answer)
            }
            Err(last) => Err(last),
        }
    }
}

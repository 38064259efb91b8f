//! A seat at a desk for callers who may use all lines of an office.

ghost use Rattle.std.specs.Prelude.{◌≡◌, [], ◌∷◌, ◌++◌, true, None, Some, Err, IfSome};
ghost use Rattle.site_exchange.specs.declared.message.TakeFault.TheVariants.{Store};
ghost use Rattle.live_office.specs.declared.importing.ImportFault.TheVariants.{Refused};
ghost use Rattle.desk_lines.specs.declared.answered.Answered.TheVariants.{Unread};
ghost use Rattle.desk_lines.specs.Replies.{reply_line};
ghost use Rattle.live_office.specs.declared.office_line.OfficeLine.TheVariants.{Events as EventsLine, Export, Find, List as ListLine, Session, Shares as SharesLine, Site, Status};
ghost use Rattle.live_office.specs.Admissible.{admissible};
ghost use Rattle.live_office.specs.Answers.{answer_text};
ghost use Rattle.live_office.specs.Handling.{HandlesAsk, HandlesLine, HandlesLost, HandlesOrEnds, HandlesPart, HandlesSession, Nothing, ends_message, seat_state, with_gathering};
ghost use Rattle.live_office.specs.Lines.{office_line_of};
ghost use Rattle.live_office.specs.Sitting.{sitting};

use crate::desk_seat::DeskSeat;
use crate::handler::{Handler, Last};
use crate::importing::{ImportFault, import_at};
use crate::office_answer::{Crowd, OfficeAnswer};
use crate::office_line::{OfficeLine, read_office_line};
use crate::shared::Shared;
use crate::sparing::{Sparing, spare};
use delta_wire::WireFault;
use desk_lines::{Answered, BadLine, Line};
use history_keeper::Keeper;
use request_ledger::{Request, RequestNumber};
use rights_lattice::{Event, SiteId};
use site_desk::{Opens, Seat, Taken};
use site_exchange::TakeFault;
use std::marker::Model;
use std::mem;
use std::sync::Wait;
use std::time::Clock;

// What has come of a message.
#[derive(Drop)]
enum Gathered {
    Nothing,
    Text { bytes: Vec<u8> },
    // Memory was refused for it.
    Lost,
}

/// A seat at a desk, and what has come of a message.
#[derive(Drop)]
pub struct OfficeHandler<'a, K: Keeper, L: Opens> {
    shared: &'a Shared<'a, K, L>,
    seat: DeskSeat<'a, K, L>,
    gathered: Gathered,
}

impl<'a, K: Keeper, L: Opens> Model for OfficeHandler<'a, K, L> {
    ghost use Rattle.live_office.specs.Handling.{SeatState, seat_state};
    ghost use Rattle.live_office.specs.Gathered.{gathering};

    ghost Value = { SeatState };

    ghost view = { λ s. seat_state s.shared.now.sparing s.seat (gathering s.gathered) };
}

// The text with one line more, and none where memory was refused.
fn with_line(mut bytes: Vec<u8>, line: &[u8]) -> Option<Vec<u8>>
    ensures { IfSome result (λ all. all.items ≡ bytes.items ++ line.now ++ 10 ∷ []) }
{
    if bytes.extend_from_slice(line).is_err() {
        return None;
    }
    if bytes.push(b'\n').is_err() {
        return None;
    }
    Some(bytes)
}

fn is_failed_store(imported: &Result<Taken, ImportFault>) -> bool
    ensures { result ≡ true → imported.now ≡ Err (Refused Store) }
{
    match imported {
        Err(ImportFault::Refused { fault }) => *fault == TakeFault::Store,
        _ => false,
    }
}

fn unread() -> OfficeAnswer
    ensures { answer_text result ≡ reply_line Unread }
{
    OfficeAnswer::Reply {
        answered: Answered::Unread,
    }
}

fn ends_message(line: &[u8]) -> bool
    ensures { result ≡ ends_message line.now }
{
    line == b"end".as_slice()
}

impl<'a, K: Keeper, L: Opens> OfficeHandler<'a, K, L> {
    /// The seat answers at this desk, and tells the count of callers from here. No message comes.
    pub fn new(shared: &'a Shared<'a, K, L>, seat: Seat<L>) -> OfficeHandler<'a, K, L>
        ensures { result ≡ seat_state shared.now.sparing (sitting seat.parts None) Nothing }
    {
        OfficeHandler {
            shared,
            seat: DeskSeat::new(shared, seat),
            gathered: Gathered::Nothing,
        }
    }

    /// The seat, which answers no more.
    pub fn into_seat(self) -> Seat<L>
        ensures { result.parts ≡ self.entry.seat.parts }
    {
        let OfficeHandler { seat, .. } = self;
        seat.into_seat()
    }

    fn reply<T: Wait + Clock>(&mut self, rt: &T, line: &Line) -> OfficeAnswer
        ensures { HandlesSession (admissible L.office L.began K.Keeper)
            self.old line.now (answer_text result) self.new }
    {
        let answered = self.seat.answer(rt, line);
        OfficeAnswer::Reply { answered }
    }

    // A request, which is asked unless the history is spared it.
    fn ask<T: Wait + Clock>(
        &mut self,
        rt: &T,
        number: RequestNumber,
        request: &Request,
    ) -> OfficeAnswer
        ensures { HandlesAsk (admissible L.office L.began K.Keeper)
            self.old number request.now (answer_text result) self.new }
    {
        let Shared { desk, sparing, .. } = self.shared;
        if let Some(spared) = spare(rt, desk, *sparing, number, request) {
            return OfficeAnswer::Spared { spared };
        }
        self.reply(
            rt,
            &Line::Ask {
                number,
                request: *request,
            },
        )
    }

    // A line of a session.
    fn handle_session<T: Wait + Clock>(&mut self, rt: &T, line: &Line) -> Result<OfficeAnswer, Last>
        ensures { HandlesOrEnds (admissible L.office L.began K.Keeper)
            self.old (Some (Session line.now)) self.new result }
    {
        match line {
            Line::Quit => Err(Last::Quit),
            Line::Ask { number, request } => Ok(self.ask(rt, *number, request)),
            Line::Left { .. } => Ok(self.reply(rt, line)),
            Line::Totals { .. } => Ok(self.reply(rt, line)),
        }
    }

    fn export<T: Wait>(&mut self, rt: &T, to: SiteId) -> OfficeAnswer
        ensures { HandlesLine (admissible L.office L.began K.Keeper)
            self.old (Some (Export to)) (answer_text result) self.new }
    {
        let result = self.shared.desk.next(rt, self.shared.alloc, to);
        OfficeAnswer::Exported { result }
    }

    fn find<T: Wait>(&mut self, rt: &T, number: RequestNumber) -> OfficeAnswer
        ensures { HandlesLine (admissible L.office L.began K.Keeper)
            self.old (Some (Find number)) (answer_text result) self.new }
    {
        let result = self.shared.desk.find(rt, number);
        OfficeAnswer::Found { result }
    }

    fn list<T: Wait>(&mut self, rt: &T, event: Event) -> OfficeAnswer
        ensures { HandlesLine (admissible L.office L.began K.Keeper)
            self.old (Some (ListLine event)) (answer_text result) self.new }
    {
        let result = self.shared.desk.list(rt, self.shared.alloc, event);
        OfficeAnswer::Listed { result }
    }

    fn events<T: Wait>(&mut self, rt: &T) -> OfficeAnswer
        ensures { HandlesLine (admissible L.office L.began K.Keeper)
            self.old (Some EventsLine) (answer_text result) self.new }
    {
        let result = self.shared.desk.events(rt, self.shared.alloc);
        OfficeAnswer::Events { result }
    }

    fn shares<T: Wait>(&mut self, rt: &T, event: Event) -> OfficeAnswer
        ensures { HandlesLine (admissible L.office L.began K.Keeper)
            self.old (Some (SharesLine event)) (answer_text result) self.new }
    {
        let result = self.shared.desk.shares(rt, self.shared.alloc, event);
        OfficeAnswer::Shares { result }
    }

    fn crowd<T: Wait>(&self, rt: &T) -> Crowd {
        let (asking, waiting) = self.shared.together.asking_and_waiting(rt);
        Crowd {
            callers: self.shared.callers.count(),
            asking,
            waiting,
        }
    }

    fn status<T: Wait>(&mut self, rt: &T) -> OfficeAnswer
        ensures { HandlesLine (admissible L.office L.began K.Keeper)
            self.old (Some Status) (answer_text result) self.new }
    {
        let site_status = self.shared.desk.site_status(rt);
        let crowd = self.crowd(rt);
        OfficeAnswer::Status {
            site_status,
            crowd,
            reserve: self.shared.sparing.reserve,
        }
    }

    fn site<T: Wait>(&mut self, rt: &T) -> OfficeAnswer
        ensures { HandlesLine (admissible L.office L.began K.Keeper)
            self.old (Some Site) (answer_text result) self.new }
    {
        let site_status = self.shared.desk.site_status(rt);
        OfficeAnswer::Site { site_status }
    }

    // What a line asks where no message comes.
    fn handle_asked<T: Wait + Clock>(
        &mut self,
        rt: &T,
        line: &OfficeLine,
    ) -> Result<OfficeAnswer, Last>
        requires { self.old.gathering ≡ Nothing }
        ensures { HandlesOrEnds (admissible L.office L.began K.Keeper)
            self.old (Some line.now) self.new result }
    {
        match line {
            OfficeLine::Session { line } => self.handle_session(rt, line),
            OfficeLine::Export { to } => Ok(self.export(rt, *to)),
            OfficeLine::Import => {
                self.gathered = Gathered::Text {
                    bytes: Vec::new(self.shared.alloc),
                };
                Ok(OfficeAnswer::Quiet)
            }
            OfficeLine::Find { number } => Ok(self.find(rt, *number)),
            OfficeLine::List { event } => Ok(self.list(rt, *event)),
            OfficeLine::Events => Ok(self.events(rt)),
            OfficeLine::Shares { event } => Ok(self.shares(rt, *event)),
            OfficeLine::Status => Ok(self.status(rt)),
            OfficeLine::Site => Ok(self.site(rt)),
            OfficeLine::Close => Err(Last::Close),
        }
    }

    // A line where no message comes.
    fn handle_line<T: Wait + Clock>(&mut self, rt: &T, line: &[u8]) -> Result<OfficeAnswer, Last>
        requires { self.old.gathering ≡ Nothing }
        ensures { HandlesOrEnds (admissible L.office L.began K.Keeper)
            self.old (office_line_of line.now) self.new result }
    {
        match read_office_line(line) {
            Ok(asked) => self.handle_asked(rt, &asked),
            Err(BadLine) => Ok(unread()),
        }
    }

    // Takes the message of this text. After a failed store the office closes.
    fn import<T: Wait>(&self, rt: &T, bytes: &[u8]) -> OfficeAnswer
        ensures { HandlesPart (admissible L.office L.began K.Keeper)
            self.now bytes.now true (answer_text result) (with_gathering self.now Nothing) }
    {
        let result = import_at(rt, self.shared.alloc, self.shared.desk, bytes);
        if is_failed_store(&result) {
            self.shared.closing.failed(self.shared.desk);
        }
        let site_status = self.shared.desk.site_status(rt);
        self.shared.gauge.reach(site_status.entries as u64);
        OfficeAnswer::Imported { result }
    }

    // A line of a message.
    fn handle_part<T: Wait>(&mut self, rt: &T, bytes: Vec<u8>, line: &[u8]) -> OfficeAnswer
        requires { self.old.gathering ≡ Nothing }
        ensures { HandlesPart (admissible L.office L.began K.Keeper)
            self.old (bytes.items ++ line.now ++ 10 ∷ []) (ends_message line.now)
            (answer_text result) self.new }
    {
        let is_last = ends_message(line);
        let Some(bytes) = with_line(bytes, line) else {
            return self.lose(is_last);
        };
        if is_last {
            return self.import(rt, bytes.as_slice());
        }
        self.gathered = Gathered::Text { bytes };
        OfficeAnswer::Quiet
    }

    // A line of a message for which memory was refused.
    fn lose(&mut self, is_last: bool) -> OfficeAnswer
        requires { self.old.gathering ≡ Nothing }
        ensures { HandlesLost self.old is_last (answer_text result) self.new }
    {
        if is_last {
            return OfficeAnswer::Imported {
                result: Err(ImportFault::Unread {
                    fault: WireFault::Memory,
                }),
            };
        }
        self.gathered = Gathered::Lost;
        OfficeAnswer::Quiet
    }
}

impl<'a, K: Keeper, L: Opens> Handler for OfficeHandler<'a, K, L> {
    ghost use Rattle.live_office.specs.Admissible.{admissible};
    ghost use Rattle.live_office.specs.Handling.{Handles, LastHandled};

    ghost handles = { Handles
        (admissible L.office L.began K.Keeper) };

    ghost ends = { LastHandled };

    fn ask_ahead<T: Wait + Clock>(&mut self, rt: &T, bytes: &[u8], most: u32) {
        // Whether a request is asked of a history that is spared, the entries before it decide.
        if self.shared.sparing != Sparing::nothing() {
            return;
        }
        if let Gathered::Nothing = self.gathered {
            self.seat.ask_ahead(rt, bytes, most);
        }
    }

    fn handle<T: Wait + Clock>(&mut self, rt: &T, line: &[u8]) -> Result<OfficeAnswer, Last> {
        match mem::replace(&mut self.gathered, Gathered::Nothing) {
            Gathered::Nothing => self.handle_line(rt, line),
            Gathered::Text { bytes } => Ok(self.handle_part(rt, bytes, line)),
            Gathered::Lost => {
                let is_last = ends_message(line);
                Ok(self.lose(is_last))
            }
        }
    }
}

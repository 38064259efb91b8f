//! A seat at a desk that serves one session after another.

ghost use Rattle.std.specs.Prelude.{◌≡◌, ◌⊎◌, None};
ghost use Rattle.desk_lines.specs.declared.line.Line.TheVariants.{Ask, Left, Totals as TotalsOf};
ghost use Rattle.desk_lines.specs.declared.answered.Answered.TheVariants.{Refused};
ghost use Rattle.session_server.specs.BookStep.{not_shown};
ghost use Rattle.live_office.specs.Admissible.{IsShut, admissible};
ghost use Rattle.live_office.specs.SeatAnswers.{SeatAnswers};
ghost use Rattle.live_office.specs.Sitting.{later, sitting};
ghost use Rattle.live_office.specs.Together.{IsAskedAs};
ghost use Rattle.site_desk.specs.declared.fault.AskFault.TheVariants.{Closed, Store};

use crate::ahead::{Ahead, requests_in};
use crate::shared::Shared;
use crate::together::AskedRow;
use desk_lines::{Answered, Line};
use history_keeper::Keeper;
use request_ledger::{Request, RequestNumber};
use rights_lattice::Event;
use site_desk::{AskFault, LookFault, Opens, Receipt, Seat};
use std::marker::Model;
use std::sync::Wait;
use std::time::Clock;

/// A seat at a desk that serves one session after another. It keeps neither receipts nor looks, so that its memory
/// does not grow: of its replies it knows the last place. Where the store fails, it closes the office.
#[derive(Drop)]
pub struct DeskSeat<'a, K: Keeper, L: Opens> {
    shared: &'a Shared<'a, K, L>,
    seat: Seat<L>,
    latest: Option<usize>,
    ahead: Ahead<K, L>,
}

impl<'a, K: Keeper, L: Opens> Model for DeskSeat<'a, K, L> {
    ghost use Rattle.live_office.specs.Sitting.{Sitting, sitting};

    ghost Value = { Sitting };

    ghost view = { λ a. sitting a.seat.parts a.latest };
}

impl<'a, K: Keeper, L: Opens> DeskSeat<'a, K, L> {
    /// The seat answers at this desk, and has no reply yet. Its requests may be asked together with others.
    pub fn new(shared: &'a Shared<'a, K, L>, seat: Seat<L>) -> DeskSeat<'a, K, L>
        ensures { result ≡ sitting seat.parts None }
    {
        DeskSeat {
            shared,
            seat,
            latest: None,
            ahead: Ahead::new(shared.alloc),
        }
    }

    /// The seat, which answers no more.
    pub fn into_seat(self) -> Seat<L>
        ensures { result.parts ≡ self.entry.parts }
    {
        let DeskSeat { seat, .. } = self;
        seat
    }

    // Why a request is not answered. Where the store failed, for this request or another, the office closes.
    fn refused(&self, fault: AskFault) -> Answered
        requires { (fault ≡ Store) ⊎ (fault ≡ Closed)
            → ∥ IsShut (admissible L.office L.began K.Keeper) ∥₁ }
        ensures { result ≡ Refused fault }
    {
        match fault {
            AskFault::Store => self.shared.closing.failed(self.shared.desk),
            AskFault::Closed => self.shared.closing.failed(self.shared.desk),
            _ => {}
        }
        Answered::Refused(fault)
    }

    // What a request comes to, which may have been asked before its line came.
    fn asked<T: Wait + Clock>(
        &mut self,
        rt: &T,
        number: RequestNumber,
        request: &Request,
    ) -> Result<Receipt, AskFault>
        ensures same { self.new ≡ self.old }
        ensures asked { IsAskedAs (admissible L.office L.began K.Keeper) number request.now result }
    {
        if let Some(result) = self.ahead.next(number, request) {
            return result;
        }
        let Shared {
            alloc,
            desk,
            together,
            ..
        } = self.shared;
        together.ask(rt, *alloc, desk, &mut self.seat, number, request)
    }

    fn ask<T: Wait + Clock>(&mut self, rt: &T, number: RequestNumber, request: &Request) -> Answered
        ensures { SeatAnswers (admissible L.office L.began K.Keeper)
            self.old (Ask number request.now) result self.new }
    {
        match self.asked(rt, number, request) {
            Ok(receipt) => {
                self.shared
                    .gauge
                    .reach((receipt.place as u64).saturating_add(1));
                self.latest = Some(later(self.latest, receipt.place));
                Answered::Kept(receipt.reply)
            }
            Err(fault) => self.refused(fault),
        }
    }

    fn left<T: Wait>(&mut self, rt: &T, event: Event) -> Answered
        ensures { SeatAnswers (admissible L.office L.began K.Keeper)
            self.old (Left event) result self.new }
    {
        let seen = match self.shared.desk.look_past(rt, self.latest, event) {
            Ok(seen) => seen,
            Err(fault) => return not_shown(fault),
        };
        Answered::LeftIs(seen.left)
    }

    fn totals<T: Wait>(&mut self, rt: &T, event: Event) -> Answered
        ensures { SeatAnswers (admissible L.office L.began K.Keeper)
            self.old (TotalsOf event) result self.new }
    {
        let seen = match self.shared.desk.look_past(rt, self.latest, event) {
            Ok(seen) => seen,
            Err(fault) => return not_shown(fault),
        };
        Answered::TotalsAre(seen.totals)
    }

    /// Asks the requests that whole lines at the front of these bytes ask in a row, as one batch, at most so many. Their
    /// lines are answered by what these came to. Where such requests wait for their lines, nothing is asked.
    pub(crate) fn ask_ahead<T: Wait + Clock>(&mut self, rt: &T, bytes: &[u8], most: u32)
        ensures { self.new ≡ self.old }
    {
        if !self.ahead.is_empty() {
            return;
        }
        let Shared {
            alloc,
            desk,
            together,
            ..
        } = self.shared;
        let AskedRow { requests } = requests_in(*alloc, bytes, most);
        if requests.len() > 1 {
            let told = together.ask_all(rt, *alloc, desk, &mut self.seat, requests.as_slice());
            self.ahead = Ahead::of(told);
        }
    }

    /// Answers a line that asks something.
    pub fn answer<T: Wait + Clock>(&mut self, rt: &T, line: &Line) -> Answered
        ensures { SeatAnswers (admissible L.office L.began K.Keeper)
            self.old line.now result self.new }
    {
        match line {
            Line::Ask { number, request } => self.ask(rt, *number, request),
            Line::Left { event } => self.left(rt, *event),
            Line::Totals { event } => self.totals(rt, *event),
            Line::Quit => Answered::NotKnown,
        }
    }
}

// The later of two places.
fn later(latest: Option<usize>, place: usize) -> usize
    ensures { result ≡ later latest place }
{
    match latest {
        None => place,
        Some(before) => before.max(place),
    }
}

fn not_shown(fault: LookFault) -> Answered
    ensures { result ≡ not_shown fault }
{
    match fault {
        LookFault::Unknown => Answered::NotKnown,
        LookFault::Closed => Answered::Refused(AskFault::Closed),
    }
}

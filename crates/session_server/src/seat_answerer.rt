//! A seat at a desk as what answers a session.

ghost use Rattle.std.specs.Prelude.{◌≡◌, ◌<◌, [], ◌∷◌, ◌++◌, length, vec_len, vec_capacity, IfErr, MatchResult};
ghost use Rattle.session_server.specs.SeatStep.{IsLookAt, MayBeTold, ShowsNothing, StepsAt, WhyNotShown, desk_tells};
ghost use Rattle.desk_lines.specs.declared.answered.Answered.TheVariants.{Kept, Refused};
ghost use Rattle.desk_lines.specs.declared.line.Line.TheVariants.{Ask, Left, Totals as TotalsOf};

use crate::answerer::Answerer;
use crate::book_answerer::not_shown;
use desk_lines::{Answered, Line};
use history_keeper::Keeper;
use request_ledger::{Request, RequestNumber};
use rights_lattice::Event;
use site_desk::{Answer, AskFault, Desk, Gate, Opens, Place, Receipt, Seat, Seen};
use std::alloc::Global;
use std::marker::Model;
use std::sync::Wait;

/// A seat at a desk that answers a session, with the receipts and the looks that it was given, in order.
#[derive(Drop)]
pub struct SeatAnswerer<'a, K: Keeper, L: Opens, G: Gate> {
    alloc: Global,
    desk: &'a Desk<K, L>,
    gate: &'a G,
    session: u64,
    line: u64,
    seat: Seat<L>,
    receipts: Vec<Receipt>,
    looks: Vec<Seen>,
}

impl<'a, K: Keeper, L: Opens, G: Gate> Model for SeatAnswerer<'a, K, L, G> {
    ghost use Rattle.session_server.specs.SeatStep.{Seated};

    ghost Value = { Seated };

    ghost view = { λ a. record { seat = a.seat; receipts = a.receipts.items; looks = a.looks.items } };
}

impl<'a, K: Keeper, L: Opens, G: Gate> SeatAnswerer<'a, K, L, G> {
    /// The seat answers for the session with this number, which was given nothing yet.
    pub fn new(
        alloc: Global,
        desk: &'a Desk<K, L>,
        gate: &'a G,
        session: u64,
        seat: Seat<L>,
    ) -> SeatAnswerer<'a, K, L, G>
        ensures { result ≡ record { seat = seat; receipts = []; looks = [] } }
    {
        SeatAnswerer {
            alloc,
            desk,
            gate,
            session,
            line: 0,
            seat,
            receipts: Vec::new(alloc),
            looks: Vec::new(alloc),
        }
    }

    /// The seat, the receipts and the looks.
    pub fn into_parts(self) -> (Seat<L>, Vec<Receipt>, Vec<Seen>)
        ensures seat { result.0 ≡ self.entry.seat }
        ensures receipts { result.1.items ≡ self.entry.receipts }
        ensures looks { result.2.items ≡ self.entry.looks }
    {
        let SeatAnswerer {
            seat,
            receipts,
            looks,
            ..
        } = self;
        (seat, receipts, looks)
    }

    fn ask<T: Wait>(&mut self, rt: &T, number: RequestNumber, request: &Request) -> Answered
        ensures { StepsAt K.Keeper L.Opens self.old (Ask number request.now) result self.new }
    {
        if self.receipts.reserve(1).is_err() {
            return Answered::Refused(AskFault::Memory);
        }
        let (desk, gate) = (self.desk, self.gate);
        let came = desk.ask(rt, self.alloc, gate, &mut self.seat, number, request);
        kept(came, &mut self.receipts)
    }

    // Looks at an event, or tells what is answered where nothing is shown.
    fn look<T: Wait>(&mut self, rt: &T, event: Event) -> Result<Seen, Answered>
        ensures shown { MatchResult result (λ seen. IsLookAt (length L.began) event
            self.old seen self.new) (λ answered. ShowsNothing answered × (self.new ≡ self.old)) }
        ensures told { MayBeTold (desk_tells K.Keeper L.Opens) self.old
            → MayBeTold (desk_tells K.Keeper L.Opens) self.new }
        ensures why { IfErr result (WhyNotShown (desk_tells K.Keeper L.Opens) event) }
    {
        if self.looks.reserve(1).is_err() {
            return Err(Answered::Refused(AskFault::Memory));
        }
        let seen = match self.desk.look(rt, &self.seat, event) {
            Ok(seen) => seen,
            Err(fault) => return Err(not_shown(fault)),
        };
        let given = seen;
        self.looks.push_reserved(given);
        Ok(seen)
    }

    fn left<T: Wait>(&mut self, rt: &T, event: Event) -> Answered
        ensures { StepsAt K.Keeper L.Opens self.old (Left event) result self.new }
    {
        match self.look(rt, event) {
            Ok(seen) => Answered::LeftIs(seen.left),
            Err(answered) => answered,
        }
    }

    fn totals<T: Wait>(&mut self, rt: &T, event: Event) -> Answered
        ensures { StepsAt K.Keeper L.Opens self.old (TotalsOf event) result self.new }
    {
        match self.look(rt, event) {
            Ok(seen) => Answered::TotalsAre(seen.totals),
            Err(answered) => answered,
        }
    }
}

// What is answered where a request came to this. Its receipt, if it has one, is kept.
fn kept(came: Result<(Answer, Receipt), AskFault>, receipts: &mut Vec<Receipt>) -> Answered
    requires room { vec_len receipts.old < vec_capacity receipts.old }
    ensures answered { MatchResult came
        (λ r. result ≡ Kept r.0.reply) (λ fault. result ≡ Refused fault) }
    ensures receipts { MatchResult came (λ r. receipts.new.items ≡ receipts.old.items ++ r.1 ∷ [])
        (λ _. receipts.new.items ≡ receipts.old.items) }
{
    match came {
        Ok((answer, receipt)) => {
            receipts.push_reserved(receipt);
            Answered::Kept(answer.reply)
        }
        Err(fault) => Answered::Refused(fault),
    }
}

impl<'a, K: Keeper, L: Opens, G: Gate> Answerer for SeatAnswerer<'a, K, L, G> {
    ghost use Rattle.session_server.specs.SeatStep.{StepsAt};

    ghost step = { StepsAt K.Keeper L.Opens };

    fn answer<T: Wait>(&mut self, rt: &T, line: &Line) -> Answered {
        self.line = self.line.wrapping_add(1);
        let (session, number) = (self.session, self.line);
        self.gate.pass(
            rt,
            Place::Asking {
                session,
                line: number,
            },
        );
        let answered = match line {
            Line::Ask { number, request } => self.ask(rt, *number, request),
            Line::Left { event } => self.left(rt, *event),
            Line::Totals { event } => self.totals(rt, *event),
            Line::Quit => Answered::NotKnown,
        };
        self.gate.pass(
            rt,
            Place::Answered {
                session,
                line: number,
            },
        );
        answered
    }
}

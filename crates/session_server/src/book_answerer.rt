//! The book of a site as what answers a session.

ghost use Rattle.std.specs.Prelude.{◌≡◌};
ghost use Rattle.session_server.specs.BookStep.{AnswersAsk, answered_of, look_answer, not_shown, shown_left, shown_totals};

use crate::answerer::Answerer;
use desk_lines::{Answered, Line};
use history_keeper::Keeper;
use request_ledger::{Request, RequestNumber};
use rights_lattice::Event;
use site_desk::{Answer, AskFault, LookFault, SiteBook};
use std::alloc::Global;
use std::marker::Model;
use std::sync::Wait;

/// The book of a site that answers a session, by requests of its own and looks at its history.
#[derive(Drop)]
pub struct BookAnswerer<K: Keeper> {
    alloc: Global,
    book: SiteBook<K>,
}

impl<K: Keeper> Model for BookAnswerer<K> {
    ghost use Rattle.site_desk.specs.SiteView.{SiteView, coded_view};

    ghost Value = { SiteView K };

    ghost coded = { coded_view K.code };

    ghost view = { λ a. a.book };
}

impl<K: Keeper> BookAnswerer<K> {
    /// This book answers.
    pub fn new(alloc: Global, book: SiteBook<K>) -> BookAnswerer<K>
        ensures { result ≡ book }
    {
        BookAnswerer { alloc, book }
    }

    /// The book, which answers no more.
    pub fn into_book(self) -> SiteBook<K>
        ensures { result ≡ self }
    {
        let BookAnswerer { book, .. } = self;
        book
    }

    fn ask(&mut self, number: RequestNumber, request: &Request) -> Answered
        ensures { AnswersAsk K.Keeper
            self.old self.new number request.now result }
    {
        let came = self.book.ask(self.alloc, number, request);
        answered_of(came)
    }

    fn left(&self, event: Event) -> Answered
        ensures { result ≡ look_answer
            self.now.closed self.now.book event (shown_left self.now.book event) }
    {
        match self.book.look(event) {
            Ok(seen) => Answered::LeftIs(seen.left),
            Err(fault) => not_shown(fault),
        }
    }

    fn totals(&self, event: Event) -> Answered
        ensures { result ≡ look_answer
            self.now.closed self.now.book event (shown_totals self.now.book event) }
    {
        match self.book.look(event) {
            Ok(seen) => Answered::TotalsAre(seen.totals),
            Err(fault) => not_shown(fault),
        }
    }
}

impl<K: Keeper> Answerer for BookAnswerer<K> {
    ghost use Rattle.session_server.specs.BookStep.{BookStep};

    ghost step = { BookStep K.Keeper };

    fn answer<T: Wait>(&mut self, _rt: &T, line: &Line) -> Answered {
        match line {
            Line::Ask { number, request } => self.ask(*number, request),
            Line::Left { event } => self.left(*event),
            Line::Totals { event } => self.totals(*event),
            Line::Quit => Answered::NotKnown,
        }
    }
}

fn answered_of(came: Result<Answer, AskFault>) -> Answered
    ensures { result ≡ answered_of came }
{
    match came {
        Ok(answer) => Answered::Kept(answer.reply),
        Err(fault) => Answered::Refused(fault),
    }
}

pub(crate) fn not_shown(fault: LookFault) -> Answered
    ensures { result ≡ not_shown fault }
{
    match fault {
        LookFault::Unknown => Answered::NotKnown,
        LookFault::Closed => Answered::Refused(AskFault::Closed),
    }
}

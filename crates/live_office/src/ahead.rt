//! Requests that a caller sent in a row, which are asked as one batch before their lines are answered one by one.

ghost use Rattle.std.specs.Prelude.{◌≡◌, [], ◌∷◌, ◌++◌, Some, IfSome, true, false, OnOk, OnErr};
ghost use Rattle.live_office.specs.declared.office_line.OfficeLine.TheVariants.{Session};
ghost use Rattle.live_office.specs.Admissible.{admissible};
ghost use Rattle.live_office.specs.Ahead.{AreFirst, IsOneMore, asked_by, asked_in};
ghost use Rattle.live_office.specs.Together.{IsAskedAs};

use crate::office_line::{OfficeLine, read_office_line};
use crate::together::{AskedRow, RequestResult, own_result};
use desk_lines::Line;
use history_keeper::Keeper;
use plain_words::{LineBytes, next_line};
use request_ledger::{Request, RequestNumber};
use site_desk::{AskFault, Opens, Receipt};
use std::alloc::Global;

// How many requests of one caller are asked at once at most.
const MOST_AHEAD: u32 = 64;

/// What requests came to whose lines are not answered yet, the next one last.
#[derive(Drop)]
pub(crate) struct Ahead<K: Keeper, L: Opens> {
    told: Vec<RequestResult<K, L>>,
}

impl<K: Keeper, L: Opens> Ahead<K, L> {
    /// No request was asked.
    pub(crate) fn new(alloc: Global) -> Ahead<K, L> {
        Ahead {
            told: Vec::new(alloc),
        }
    }

    /// These came to this, in their order.
    pub(crate) fn of(told: Vec<RequestResult<K, L>>) -> Ahead<K, L> {
        let mut told = told;
        told.reverse();
        Ahead { told }
    }

    pub(crate) fn is_empty(&self) -> bool {
        self.told.is_empty()
    }

    /// What a request came to, if it is the next that was asked. After a failed store the others are asked again.
    pub(crate) fn next(
        &mut self,
        number: RequestNumber,
        request: &Request,
    ) -> Option<Result<Receipt, AskFault>>
        ensures { IfSome result
            (IsAskedAs (admissible L.office L.began K.Keeper) number request.now) }
    {
        let is_next = match self.told.last() {
            Some(told) => told.is_of(number, request),
            None => false,
        };
        if !is_next {
            return None;
        }
        let told = self.told.pop()?;
        if told.has_failed() {
            self.told.clear();
        }
        own_result(told, number, request)
    }
}

/// How many of these bytes end a line, and at most so many.
pub(crate) fn whole_lines(bytes: &[u8], most: usize) -> usize {
    bytes
        .iter()
        .filter(|byte| **byte == b'\n')
        .take(most)
        .count()
}

// The request that a line of a session asks, if it asks one.
fn asked_by(line: &Line) -> Option<(RequestNumber, Request)>
    ensures { result ≡ asked_by (Some (Session line.now)) }
{
    match line {
        Line::Ask { number, request } => Some((*number, *request)),
        Line::Left { .. } | Line::Totals { .. } | Line::Quit => None,
    }
}

// The request that a line asks, if it asks one.
fn request_in(line: &[u8]) -> Option<(RequestNumber, Request)>
    ensures { result ≡ asked_in line.now }
{
    match read_office_line(line) {
        Ok(OfficeLine::Session { line }) => asked_by(&line),
        _ => None,
    }
}

impl AskedRow {
    // Adds the request that a line asks. False where it asks none, or memory is refused.
    fn add(&mut self, line: &[u8]) -> bool
        ensures added { result ≡ true
            → IsOneMore (asked_in line.now) self.old.requests.items self.new.requests.items }
        ensures same { result ≡ false → self.new.requests.items ≡ self.old.requests.items }
    {
        match &request_in(line) {
            Some((number, request)) => self.push(&[(*number, *request)]).is_ok(),
            None => false,
        }
    }
}

/// The requests that the first lines of these bytes ask, up to a line that asks none, at most so many and at most 64.
/// A line that is not whole yet is none.
pub(crate) fn requests_in(alloc: Global, bytes: &[u8], most: u32) -> AskedRow
    ensures { AreFirst bytes.now result.requests.items }
{
    let mut row = AskedRow::new(alloc);
    let mut rest = bytes;
    let mut line = LineBytes::new();
    'lines: for _ in 0..whole_lines(bytes, most.min(MOST_AHEAD) as usize) {
        match next_line(&mut rest, &mut line) {
            Ok(true) => {}
            _ => return row,
        }
        if !row.add(line.as_slice()) {
            return row;
        }
    }
    row
}

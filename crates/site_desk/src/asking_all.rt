//! Several requests at an open book, whose new entries are kept all at once.
ghost use Rattle.std.specs.Prelude.{false, ◌≡◌, ◌+◌, ◌≤◌, [], drop, take, length, vec_len, vec_capacity, IsOk, IfOk, IfErr, OnOk, OnErr};
ghost use Rattle.book_core.specs.OwnRow.{HasOwnRights};
ghost use Rattle.site_exchange.specs.Taking.{extended};
ghost use Rattle.history_keeper.specs.declared.meta.Meta.{Meta as Numbers};
ghost use Rattle.history_keeper.specs.Keeping.{LeavesAllOrNone};
ghost use Rattle.site_desk.specs.Answers.{IsAnswer, IsAskFault};
ghost use Rattle.site_desk.specs.Batch.{AreAnswered};
ghost use Rattle.site_desk.specs.Calls.{listed};
ghost use Rattle.site_desk.specs.Storing.{EntersAll, IsStoredBy};
ghost use Rattle.site_desk.specs.SiteView.{decision_in, entry_in};

use crate::answer::Answer;
use crate::fault::AskFault;
use book_core::{Book, Plan, PlanFault};
use history_keeper::{KeepFault, Keeper};
use request_ledger::{Request, RequestNumber};
use std::alloc::Global;
use std::sync::Wait;

// Answers a request, and enters what is new before it is kept.
fn answer_ahead(
    book: &mut Book,
    alloc: Global,
    number: RequestNumber,
    request: &Request,
) -> Result<Answer, AskFault>
    ensures office { book.new.office ≡ book.old.office }
    ensures answer { IfOk result
        (IsAnswer (decision_in book.old number request.now) (length book.old.history)) }
    ensures entered { OnOk result (book.new.history
        ≡ extended (entry_in book.old number request.now) book.old.history) }
    ensures fault { IfErr result
        (IsAskFault false (decision_in book.old number request.now) 0 0) }
    ensures unchanged { OnErr result (book.new.history ≡ book.old.history) }
    ensures has_rights { HasOwnRights book.new }
{
    match book.plan(alloc, number, request) {
        Ok(Plan::Again { place, reply }) => Ok(Answer {
            reply,
            place,
            fresh: false,
        }),
        Ok(Plan::New(planned)) => {
            let reply = planned.reply();
            let place = book.len();
            book.enter(planned);
            Ok(Answer {
                reply,
                place,
                fresh: true,
            })
        }
        Err(PlanFault::Reused { place }) => Err(AskFault::Reused { place }),
        Err(PlanFault::Full) => Err(AskFault::Full),
        Err(PlanFault::Memory) => Err(AskFault::Memory),
    }
}

// Answers the requests in turn, and enters what is new before it is kept.
fn answer_each(
    book: &mut Book,
    alloc: Global,
    requests: &[(RequestNumber, Request)],
    answers: &mut Vec<Result<Answer, AskFault>>,
)
    requires none { answers.old.items ≡ [] }
    requires room { vec_len answers.old + length requests.now ≤ vec_capacity answers.old }
    requires has_rights { HasOwnRights book.old }
    ensures office { book.new.office ≡ book.old.office }
    ensures answered { AreAnswered book.old.office book.old.history requests.now
        answers.new.items book.new.history }
    ensures has_rights { HasOwnRights book.new }
{
    for asked in requests {
        let answer = answer_ahead(book, alloc, asked.0, &asked.1);
        answers.push_reserved(answer);
    }
}

// Keeps the entries from a place on, all at once; where there are none the keeper is not called.
fn store_from<K: Keeper>(book: &Book, keeper: &mut K, place: usize) -> Result<(), KeepFault>
    requires begun { IsStoredBy K.Keeper
        keeper.old (take place book.now.history) }
    ensures stored { OnOk result (IsStoredBy
        K.Keeper keeper.new book.now.history) }
    ensures failed { OnErr result (K.failed keeper.new ≡ 1) }
    ensures stopped { OnErr result (K.is_trusted keeper.new → LeavesAllOrNone
        (take place book.now.history) (drop place book.now.history) (K.may_leave keeper.new)) }
    ensures site { K.is_trusted keeper.new → (meta : Numbers)
        → K.is_of keeper.old meta → K.is_of keeper.new meta }
    ensures trusted { K.is_trusted keeper.new → K.is_trusted keeper.old }
    ensures none { length book.now.history ≤ place → IsOk result × (keeper.new ≡ keeper.old) }
{
    let entries = book.entries_from(place);
    if entries.is_empty() {
        return Ok(());
    }
    keeper.append_all(entries)
}

// The book of the first entries. It waits for the memory that this wants.
fn rewound<R: Wait>(rt: &R, book: &Book, alloc: Global, length: usize) -> Book
    ensures office { result.office ≡ book.now.office }
    ensures history { result.history ≡ take length book.now.history }
    ensures has_rights { HasOwnRights result }
{
    for _ in rt.forever() {
        if let Ok(beginning) = book.beginning(alloc, length) {
            return beginning;
        }
    }
    unreachable!()
}

// Answers the requests in turn, enters what is new, and keeps all of it at once. What is not kept is taken back.
pub(crate) fn answer_all<R: Wait, K: Keeper>(
    rt: &R,
    book: &mut Book,
    keeper: &mut K,
    alloc: Global,
    requests: &[(RequestNumber, Request)],
) -> Result<Vec<Result<Answer, AskFault>>, AskFault>
    requires stored { IsStoredBy K.Keeper
        keeper.old book.old.history }
    requires has_rights { HasOwnRights book.old }
    ensures enters { EntersAll K.Keeper
        book.old book.new keeper.old keeper.new requests.now (listed result) }
    ensures has_rights { HasOwnRights book.new }
{
    let Ok(mut answers) = Vec::with_capacity(alloc, requests.len()) else {
        return Err(AskFault::Memory);
    };
    let place = book.len();
    answer_each(book, alloc, requests, &mut answers);
    match store_from(book, keeper, place) {
        Ok(()) => Ok(answers),
        Err(_) => {
            *book = rewound(rt, book, alloc, place);
            Err(AskFault::Store)
        }
    }
}

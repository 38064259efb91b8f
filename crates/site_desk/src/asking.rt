//! Requests at an open book.
ghost use Rattle.std.specs.Prelude.{◌≡◌, ◌≢◌, false, length, IfOk, IfErr};
ghost use Rattle.book_core.specs.OwnRow.{HasOwnRights};
ghost use Rattle.site_desk.specs.Answers.{IsAnswer, IsAskFault};
ghost use Rattle.site_desk.specs.Storing.{Enters, IsStoredBy};
ghost use Rattle.site_desk.specs.SiteView.{decision_in, entry_in};

use crate::answer::Answer;
use crate::fault::AskFault;
use crate::storing::store;
use book_core::{Book, Plan, PlanFault};
use history_keeper::Keeper;
use request_ledger::{Request, RequestNumber};
use std::alloc::Global;

// Answers a request, and keeps and enters what is new.
pub(crate) fn answer<K: Keeper>(
    book: &mut Book,
    keeper: &mut K,
    alloc: Global,
    number: RequestNumber,
    request: &Request,
) -> Result<Answer, AskFault>
    requires { IsStoredBy K.Keeper
        keeper.old book.old.history }
    ensures enters { Enters K.Keeper
        book.old book.new keeper.old keeper.new
        (entry_in book.old number request.now) AskFault.Store result }
    ensures answer { IfOk result
        (IsAnswer (decision_in book.old number request.now) (length book.old.history)) }
    ensures fault { IfErr result (IsAskFault false (decision_in book.old number request.now)
        (K.failed keeper.old) (K.failed keeper.new)) }
    ensures again { IfOk result
        (λ a. a.fresh ≡ false → (book.new ≡ book.old) × (keeper.new ≡ keeper.old)) }
    ensures refused { IfErr result
        (λ fault. fault ≢ AskFault.Memory → fault ≢ AskFault.Store → book.new ≡ book.old) }
    ensures has_rights { HasOwnRights book.new }
{
    match book.plan(alloc, number, request) {
        Ok(Plan::Again { place, reply }) => Ok(Answer {
            reply,
            place,
            fresh: false,
        }),
        Ok(Plan::New(planned)) => {
            let reply = planned.reply();
            let place = book.len();
            match store(book, keeper, planned) {
                Ok(()) => Ok(Answer {
                    reply,
                    place,
                    fresh: true,
                }),
                Err(_) => Err(AskFault::Store),
            }
        }
        Err(PlanFault::Reused { place }) => Err(AskFault::Reused { place }),
        Err(PlanFault::Full) => Err(AskFault::Full),
        Err(PlanFault::Memory) => Err(AskFault::Memory),
    }
}

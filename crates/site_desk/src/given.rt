//! The receipts for the answers to several requests.
ghost use Rattle.std.specs.Prelude.{◌≡◌, ◌+◌, ◌≤◌, if◌then◌else◌, [], map, length, vec_len, vec_capacity};
ghost use Rattle.std.specs.List.{AllZip};
ghost use Rattle.site_desk.specs.Batch.{fresh_in, is_fresh};
ghost use Rattle.site_desk.specs.Calls.{answer_in};
ghost use Rattle.site_desk.specs.Finish.{HasItsReceipt};

use crate::answer::Answer;
use crate::fault::AskFault;
use crate::receipt::Receipt;
use request_ledger::{Request, RequestNumber};

// 1 for a fresh answer, and else 0.
fn freshness(answer: &Result<Answer, AskFault>) -> u64
    ensures is { result ≡ if is_fresh answer.now then 1 else 0 }
    ensures few { result ≤ 1 }
{
    match answer {
        Ok(answer) => { if answer.fresh { 1 } else { 0 } }
        Err(_) => 0,
    }
}

fn with_receipt(
    number: RequestNumber,
    request: &Request,
    answer: Result<Answer, AskFault>,
) -> Result<(Answer, Receipt), AskFault>
    ensures answer { answer_in result ≡ answer }
    ensures receipt { HasItsReceipt (number, request.now) result }
{
    match answer {
        Ok(answer) => Ok((
            answer,
            Receipt {
                number,
                request: *request,
                reply: answer.reply,
                place: answer.place,
            },
        )),
        Err(fault) => Err(fault),
    }
}

// Gives the answers to the requests, each with the receipt for it, and counts the fresh ones.
pub(crate) fn give_all(
    requests: &[(RequestNumber, Request)],
    answers: &[Result<Answer, AskFault>],
    given: &mut Vec<Result<(Answer, Receipt), AskFault>>,
) -> u64
    requires none { given.old.items ≡ [] }
    requires room { vec_len given.old + length requests.now ≤ vec_capacity given.old }
    requires as_many { length answers.now ≡ length requests.now }
    ensures answers { map answer_in given.new.items ≡ answers.now }
    ensures receipts { AllZip HasItsReceipt requests.now given.new.items }
    ensures fresh { result ≡ fresh_in answers.now }
{
    let mut fresh = 0;
    for asked in requests {
        let answer = answers[given.len()];
        fresh += freshness(&answer);
        given.push_reserved(with_receipt(asked.0, &asked.1, answer));
    }
    fresh
}

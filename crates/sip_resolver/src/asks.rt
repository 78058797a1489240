//! How a request comes to wait for the answer to a question.
ghost use Rattle.std.specs.Prelude.{◌≡◌, ◌<◌, ◌⊎◌, ◌↔◌, IsTrue, MatchOption};
ghost use Rattle.answer_cache.specs.Seats.{SeatView};
ghost use Rattle.sip_resolver.specs.Ends.{EndsMore, IsByChoice};
ghost use Rattle.sip_resolver.specs.Idle.{AreAwaited, CannotAsk};
ghost use Rattle.sip_resolver.specs.Requests.{IsBack, Stand, count_of};
ghost use Rattle.sip_resolver.specs.Sends.{SendsFirst};
ghost use Rattle.sip_resolver.specs.Tasks.{IsCounted, Lacks, sought_of};

use crate::facts::Facts;
use crate::ids::Ids;
use crate::outcome::Outcome;
use crate::questions::Questions;
use crate::requests::Requests;
use crate::task::Task;
use answer_cache::AnswerBook;
use dns_answers::Moment;
use dns_queries::AskRefusal;

/// Lets a request wait for the answer that it needs. Where its question is not out it is sent, as
/// asked at this moment, and the result is its id; where as many are out as can be, the request is
/// held.
pub(crate) fn wait_for_answer<B: AnswerBook, F: Facts, I: Ids>(
    requests: &mut Requests<B>,
    questions: &mut Questions,
    ids: &mut I,
    task: Task<B>,
    asked: Moment,
) -> Option<u16>
    requires room { count_of requests.old < requests.old.limit }
    ensures stand { (seat : SeatView) → IsCounted F.gives F.shows seat task
        → Lacks F.shows seat task
        → Stand F.gives F.shows seat requests.old → Stand F.gives F.shows seat requests.new }
    ensures back { IsBack (sought_of task) requests.old requests.new }
    ensures ready { requests.new.ready ≡ requests.old.ready }
    ensures ends { EndsMore IsByChoice requests.old.ended requests.new.ended }
    ensures sends { MatchOption result (questions.new ≡ questions.old)
        (λ id. SendsFirst asked id requests.new.waiting questions.old questions.new) }
    ensures awaited { AreAwaited requests.old questions.old
        → AreAwaited requests.new questions.new }
    ensures held { (requests.new.held ≡ requests.old.held) ⊎ CannotAsk I.draws questions.old }
{
    let Some(question) = task.question() else {
        requests.end(task, Outcome::Memory);
        return None;
    };
    if let Some(id) = questions.id_of(question) {
        requests.wait(id, task);
        return None;
    }
    let refusal = match questions.ask(task.over(), ids, question, asked) {
        Ok(id) => {
            requests.wait(id, task);
            return Some(id);
        }
        Err(refusal) => refusal,
    };
    if is_for_now(refusal) {
        requests.hold(task);
        return None;
    }
    requests.end(task, Outcome::Memory);
    None
}

/// Whether a question that was refused so can be asked later.
fn is_for_now(refusal: AskRefusal) -> bool
    ensures { IsTrue result ↔ ((refusal ≡ AskRefusal.Full) ⊎ (refusal ≡ AskRefusal.IdTaken)) }
{
    matches!(refusal, AskRefusal::Full | AskRefusal::IdTaken)
}

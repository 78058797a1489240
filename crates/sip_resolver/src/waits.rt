//! How the wait for a reply ends, for the requests that share it.
ghost use Rattle.std.specs.Prelude.{◌≡◌, ◌<◌, ◌≤◌, false, IfNone, IsTrue, List, MatchOption, length};
ghost use Rattle.std.specs.Arc.{arc_value};
ghost use Rattle.std.specs.List.{All, AllPairs};
ghost use Rattle.answer_cache.specs.Seats.{SeatView};
ghost use Rattle.dns_queries.specs.Tickets.{Ticket as ticket};
ghost use Rattle.sip_selection.specs.Choice.{need};
ghost use Rattle.sip_selection.specs.Selections.{now_of};
ghost use Rattle.sip_resolver.specs.Ends.{EndsMore};
ghost use Rattle.sip_resolver.specs.Idle.{AreIn, HasMore, IsInWait};
ghost use Rattle.sip_resolver.specs.Questions.{Differ, Fewer};
ghost use Rattle.sip_resolver.specs.QuestionTables.{IsIndex, id_in};
ghost use Rattle.sip_resolver.specs.Requests.{AreSame, IsBack, Stand, count_of};
ghost use Rattle.sip_resolver.specs.Sends.{GivesUp, IsInTime, IsOverdue};
ghost use Rattle.sip_resolver.specs.Tasks.{IsCounted, Lacks, sought_of};
ghost use Rattle.sip_resolver.specs.Settles.{SettlesAll};
ghost use Rattle.sip_resolver.specs.Waits.{EndsAs, Fits, GoesAs, IsClosed, IsFailed, IsGivenUp, IsKnown, MayEnd, MayGoOn, Resends, SettlesOne};

use crate::facts::Facts;
use crate::outcome::Outcome;
use crate::question_table::QuestionTable;
use crate::ready::Ready;
use crate::requests::Requests;
use crate::task::Task;
use answer_cache::AnswerBook;
use dns_answers::{Answer, Moment, ReplyRefusal};
use dns_message::{Question, law_same_questions_are_equal};
use dns_queries::{Asker, Due};
use sip_selection::GiveRefusal;
use std::alloc::AllocError;
use std::sync::Arc;

/// The most questions that can be out at once over datagrams, and over streams.
const QUESTION_LIMIT: usize = 4_096;

/// How the wait for the reply to a question ended.
#[derive(Drop)]
pub(crate) enum WaitEnd<'a> {
    /// This question has this answer.
    Answered(&'a Question, &'a Arc<Answer>),
    /// The reply to this question has this fault.
    Faulty(&'a Question, ReplyRefusal),
    /// The reply to the question was cut, and the question goes over a stream next.
    Cut,
    /// This question was sent as often as the schedule says.
    GivenUp(&'a Question),
    /// No server takes this question.
    Closed(&'a Question),
    /// Memory was refused for the answer.
    NoMemory,
}

/// What becomes of a request that waited.
#[derive(Drop)]
pub(crate) enum WaitOutcome {
    /// It can go on.
    Ready,
    /// It ended.
    Ended(Outcome),
}

/// Whether the least deadline of the questions is over.
fn is_overdue(asker: &Asker, now: Moment) -> bool
    ensures over { IsTrue result → IsOverdue now asker.now }
    ensures in_wait { result ≡ false → All (IsInWait now) asker.now.tickets }
{
    match asker.next_due() {
        Some(due) => due <= now.get(),
        None => false,
    }
}

/// Gives up the questions that were sent as often as the schedule says and whose replies did not
/// come in time, until one is to be sent once more, and gives its id. It counts as sent at `sent`.
/// What is given up leaves the table.
pub(crate) fn next_resend<B: AnswerBook, F: Facts>(
    asker: &mut Asker,
    ids: &mut QuestionTable,
    requests: &mut Requests<B>,
    now: Moment,
    sent: Moment,
) -> Option<u16>
    requires few { length asker.old.tickets ≤ 4096 }
    requires later { now ≤ sent }
    ensures in_wait { IfNone result (All (IsInWait now) asker.new.tickets) }
    ensures limit { asker.new.limit ≡ asker.old.limit }
    ensures awaited { (others : List ticket) → AreIn asker.old.tickets others requests.old.waiting
        → AreIn asker.new.tickets others requests.new.waiting }
    ensures fewer { Fewer asker.old.tickets asker.new.tickets }
    ensures index { AllPairs Differ asker.old.tickets → IsIndex (id_in ids.old) asker.old.tickets
        → IsIndex (id_in ids.new) asker.new.tickets }
    ensures stand { (seat : SeatView) → Stand F.gives F.shows seat requests.old
        → Stand F.gives F.shows seat requests.new }
    ensures same { AreSame requests.old requests.new }
    ensures ready { HasMore requests.old.ready requests.new.ready }
    ensures ends { EndsMore (IsInTime asker.old.schedule asker.old.tickets now)
        requests.old.ended requests.new.ended }
    ensures sends { MatchOption result (GivesUp now asker.old asker.new)
        (λ id. Resends now sent id asker.old asker.new) }
{
    law_same_questions_are_equal();
    'dues: for _due in 0..QUESTION_LIMIT {
        if !is_overdue(asker, now) {
            return None;
        }
        match asker.due(sent) {
            None => return None,
            Some(Due::Resend(id, _)) => return Some(id),
            Some(Due::GaveUp(id, question)) => {
                ids.remove(question);
                settle_all::<B, F>(requests, id, &WaitEnd::GivenUp(question));
            }
        }
    }
    None
}

/// Lets all requests go on or end that wait for the reply to the message of this id.
pub(crate) fn settle_all<B: AnswerBook, F: Facts>(
    requests: &mut Requests<B>,
    id: u16,
    end: &WaitEnd<'_>,
)
    ensures stand { (seat : SeatView) → IsKnown F.gives F.shows seat end.now
        → Stand F.gives F.shows seat requests.old → Stand F.gives F.shows seat requests.new }
    ensures same { AreSame requests.old requests.new }
    ensures settles { SettlesAll id (MayGoOn end.now) (MayEnd end.now) requests.old requests.new }
{
    'waits: while let Some(task) = requests.next_waiting_for(id) {
        settle::<B, F>(requests, task, end);
    }
}

/// Puts a request back that was taken out of those that wait, as its wait ended so.
fn settle<B: AnswerBook, F: Facts>(requests: &mut Requests<B>, mut task: Task<B>, end: &WaitEnd<'_>)
    requires room { count_of requests.old < requests.old.limit }
    ensures stand { (seat : SeatView) → IsKnown F.gives F.shows seat end.now
        → IsCounted F.gives F.shows seat task → Lacks F.shows seat task
        → Stand F.gives F.shows seat requests.old → Stand F.gives F.shows seat requests.new }
    ensures back { IsBack (sought_of task) requests.old requests.new }
    ensures settles { SettlesOne (MayGoOn end.now) (MayEnd end.now) task
        requests.old requests.new }
{
    match wait_outcome_of::<B, F>(&mut task, end) {
        WaitOutcome::Ready => requests.add(Ready::of(task)),
        WaitOutcome::Ended(outcome) => requests.end(task, outcome),
    }
}

/// What becomes of a request whose wait ended so.
fn wait_outcome_of<B: AnswerBook, F: Facts>(task: &mut Task<B>, end: &WaitEnd<'_>) -> WaitOutcome
    ensures request { sought_of task.new ≡ sought_of task.old }
    ensures fits { (seat : SeatView) → IsKnown F.gives F.shows seat end.now
        → IsCounted F.gives F.shows seat task.old → Lacks F.shows seat task.old
        → Fits F.gives F.shows seat task.new result }
    ensures goes { GoesAs end.now task.old task.new result }
    ensures ends { EndsAs end.now result }
{
    match end {
        WaitEnd::Answered(question, answer) => match task.give(question, answer) {
            Ok(()) => WaitOutcome::Ready,
            Err(GiveRefusal::NotAsked | GiveRefusal::WrongKind) => WaitOutcome::Ready,
            Err(GiveRefusal::Memory) => WaitOutcome::Ended(Outcome::Memory),
        },
        WaitEnd::Faulty(question, refusal) => faulty(task, question, *refusal),
        WaitEnd::Cut => {
            task.mark_cut();
            WaitOutcome::Ready
        }
        WaitEnd::GivenUp(question) => given_up(task, question),
        WaitEnd::Closed(question) => closed(task, question),
        WaitEnd::NoMemory => WaitOutcome::Ended(Outcome::Memory),
    }
}

/// What becomes of a request, as the reply to this question has this fault.
fn faulty<B: AnswerBook>(task: &Task<B>, question: &Question, refusal: ReplyRefusal) -> WaitOutcome
    ensures { IsFailed task.now question.now refusal result }
{
    law_same_questions_are_equal();
    if task.question() != Some(question) {
        return WaitOutcome::Ready;
    }
    match question.try_clone() {
        Ok(question) => WaitOutcome::Ended(Outcome::BadReply(question, refusal)),
        Err(AllocError) => WaitOutcome::Ended(Outcome::Memory),
    }
}

/// What becomes of a request, as this question was sent as often as the schedule says.
fn given_up<B: AnswerBook>(task: &Task<B>, question: &Question) -> WaitOutcome
    ensures { IsGivenUp task.now question.now result }
{
    law_same_questions_are_equal();
    if task.question() != Some(question) {
        return WaitOutcome::Ready;
    }
    match question.try_clone() {
        Ok(question) => WaitOutcome::Ended(Outcome::NoAnswer(question)),
        Err(AllocError) => WaitOutcome::Ended(Outcome::Memory),
    }
}

/// What becomes of a request, as no server takes this question.
fn closed<B: AnswerBook>(task: &Task<B>, question: &Question) -> WaitOutcome
    ensures { IsClosed task.now question.now result }
{
    law_same_questions_are_equal();
    if task.question() != Some(question) {
        return WaitOutcome::Ready;
    }
    match question.try_clone() {
        Ok(question) => WaitOutcome::Ended(Outcome::NoServer(question)),
        Err(AllocError) => WaitOutcome::Ended(Outcome::Memory),
    }
}

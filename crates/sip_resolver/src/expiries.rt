//! How requests end whose time is over.
ghost use Rattle.std.specs.Prelude.{◌≡◌, ◌<◌, true, [], ◌∷◌, ◌++◌};
ghost use Rattle.std.specs.List.{filter};
ghost use Rattle.answer_cache.specs.Seats.{GoesOn, SeatView, StoresNothing};
ghost use Rattle.sip_resolver.specs.Cancels.{questions_left};
ghost use Rattle.sip_resolver.specs.Expiries.{EndsLate, IsUnanswered, has_time, is_expired, waits_in_time};
ghost use Rattle.sip_resolver.specs.Requests.{AreSame, IsBack, Stand, count_of};
ghost use Rattle.sip_resolver.specs.Tasks.{IsCounted, Lacks, sought_of};

use crate::facts::Facts;
use crate::outcome::{Outcome, Resolved};
use crate::questions::Questions;
use crate::ready::{Lead, Ready};
use crate::requests::Requests;
use crate::task::Task;
use crate::waiting_slots::Waiting;
use answer_cache::AnswerBook;
use dns_answers::Moment;
use std::alloc::{AllocError, Global};
use std::snapshot::Snapshot;

/// What becomes of a request that ends without the answer that it needs.
fn unanswered<B: AnswerBook>(task: &Task<B>) -> Outcome
    ensures { IsUnanswered task.now result }
{
    let Some(question) = task.question() else {
        return Outcome::Memory;
    };
    match question.try_clone() {
        Ok(question) => Outcome::NoAnswer(question),
        Err(AllocError) => Outcome::Memory,
    }
}

/// Ends a request that was taken out and whose time is over: by what the book has, or without the
/// answer that it needs then.
fn end_late<B: AnswerBook, F: Facts>(
    requests: &mut Requests<B>,
    alloc: Global,
    book: &B,
    seat: &mut B::Seat,
    now: Moment,
    task: Ready<B>,
)
    requires made_here { B.belongs book.now seat.old }
    requires shown { F.shows now }
    requires stand { Stand F.gives F.shows (B.shown seat.old) requests.old }
    requires counted { IsCounted F.gives F.shows (B.shown seat.old) task }
    requires room { count_of requests.old < requests.old.limit }
    requires over { is_expired now task.until ≡ true }
    ensures stays { B.belongs book.now seat.new }
    ensures goes_on { GoesOn (B.shown seat.old) (B.shown seat.new) }
    ensures stores_nothing { StoresNothing (B.shown seat.old) (B.shown seat.new) }
    ensures stand { Stand F.gives F.shows (B.shown seat.new) requests.new }
    ensures back { IsBack (sought_of task) requests.old requests.new }
    ensures others { requests.new ≡ record requests.old { ended = requests.new.ended } }
    ensures ends { EndsLate now requests.old.ended requests.new.ended }
{
    let (was, number) = (Snapshot::of(&task), task.number());
    match task.step::<F>(alloc, book, seat, now) {
        Lead::Ended(outcome) => requests.put_ended(Resolved::new(was, number, outcome)),
        Lead::Asks(task) => {
            let outcome = unanswered(&task);
            requests.end(task, outcome);
        }
    }
}

/// Puts a request back that was taken out of those that can go on, or ends it where its time is
/// over.
fn turn_ready<B: AnswerBook, F: Facts>(
    requests: &mut Requests<B>,
    alloc: Global,
    book: &B,
    seat: &mut B::Seat,
    now: Moment,
    task: Ready<B>,
)
    requires made_here { B.belongs book.now seat.old }
    requires shown { F.shows now }
    requires stand { Stand F.gives F.shows (B.shown seat.old) requests.old }
    requires counted { IsCounted F.gives F.shows (B.shown seat.old) task }
    requires room { count_of requests.old < requests.old.limit }
    ensures stays { B.belongs book.now seat.new }
    ensures goes_on { GoesOn (B.shown seat.old) (B.shown seat.new) }
    ensures stores_nothing { StoresNothing (B.shown seat.old) (B.shown seat.new) }
    ensures stand { Stand F.gives F.shows (B.shown seat.new) requests.new }
    ensures back { IsBack (sought_of task) requests.old requests.new }
    ensures others { requests.new ≡ record requests.old {
      ready = requests.old.ready ++ filter (has_time now) (task ∷ []);
      ended = requests.new.ended;
    } }
    ensures ends { EndsLate now requests.old.ended requests.new.ended }
{
    if task.is_expired(now) {
        end_late::<B, F>(requests, alloc, book, seat, now, task);
    } else {
        requests.add(task);
    }
}

/// Puts a request back that was taken out of those that are held, or ends it where its time is
/// over.
fn turn_held<B: AnswerBook, F: Facts>(
    requests: &mut Requests<B>,
    alloc: Global,
    book: &B,
    seat: &mut B::Seat,
    now: Moment,
    task: Task<B>,
)
    requires made_here { B.belongs book.now seat.old }
    requires shown { F.shows now }
    requires stand { Stand F.gives F.shows (B.shown seat.old) requests.old }
    requires counted { IsCounted F.gives F.shows (B.shown seat.old) task }
    requires room { count_of requests.old < requests.old.limit }
    ensures stays { B.belongs book.now seat.new }
    ensures goes_on { GoesOn (B.shown seat.old) (B.shown seat.new) }
    ensures stores_nothing { StoresNothing (B.shown seat.old) (B.shown seat.new) }
    ensures stand { Stand F.gives F.shows (B.shown seat.new) requests.new }
    ensures back { IsBack (sought_of task) requests.old requests.new }
    ensures others { requests.new ≡ record requests.old {
      held = requests.old.held ++ filter (has_time now) (task ∷ []);
      ended = requests.new.ended;
    } }
    ensures ends { EndsLate now requests.old.ended requests.new.ended }
{
    if task.is_expired(now) {
        end_late::<B, F>(requests, alloc, book, seat, now, Ready::of(task));
    } else {
        requests.hold(task);
    }
}

/// Puts a request back that was taken out of those that wait, or ends it where its time is over.
/// Then its question is closed where none waits for it any more.
fn turn_waiting<B: AnswerBook, F: Facts>(
    requests: &mut Requests<B>,
    questions: &mut Questions,
    waiting: Waiting<B>,
    now: Moment,
)
    requires room { count_of requests.old < requests.old.limit }
    ensures stand { (seat : SeatView) → IsCounted F.gives F.shows seat waiting.task
        → Lacks F.shows seat waiting.task
        → Stand F.gives F.shows seat requests.old → Stand F.gives F.shows seat requests.new }
    ensures back { IsBack (sought_of waiting.task) requests.old requests.new }
    ensures others { requests.new ≡ record requests.old {
      waiting = requests.old.waiting ++ filter (waits_in_time now) (waiting ∷ []);
      ended = requests.new.ended;
    } }
    ensures ends { EndsLate now requests.old.ended requests.new.ended }
    ensures questions { questions.new
        ≡ questions_left (waiting ∷ requests.old.waiting) requests.new.waiting questions.old }
{
    let Waiting { id, task } = waiting;
    if !task.is_expired(now) {
        requests.wait(id, task);
        return;
    }
    let outcome = unanswered(&task);
    requests.end(task, outcome);
    if !requests.is_awaited(id) {
        questions.close(id);
    }
}

/// Ends the requests that wait and whose time is over, and closes the questions that none waits for
/// any more.
pub(crate) fn expire_waiting<B: AnswerBook, F: Facts>(
    requests: &mut Requests<B>,
    questions: &mut Questions,
    now: Moment,
)
    ensures stand { (seat : SeatView) → Stand F.gives F.shows seat requests.old
        → Stand F.gives F.shows seat requests.new }
    ensures same { AreSame requests.old requests.new }
    ensures others { requests.new ≡ record requests.old {
      waiting = filter (waits_in_time now) requests.old.waiting;
      ended = requests.new.ended;
    } }
    ensures ends { EndsLate now requests.old.ended requests.new.ended }
    ensures questions { questions.new
        ≡ questions_left requests.old.waiting requests.new.waiting questions.old }
{
    'waits: for _wait in 0..requests.waiting_len() {
        match requests.next_waiting() {
            None => return,
            Some(waiting) => turn_waiting::<B, F>(requests, questions, waiting, now),
        }
    }
}

/// Ends the requests that can go on and whose time is over.
pub(crate) fn expire_ready<B: AnswerBook, F: Facts>(
    requests: &mut Requests<B>,
    alloc: Global,
    book: &B,
    seat: &mut B::Seat,
    now: Moment,
)
    requires made_here { B.belongs book.now seat.old }
    requires shown { F.shows now }
    requires stand { Stand F.gives F.shows (B.shown seat.old) requests.old }
    ensures stays { B.belongs book.now seat.new }
    ensures goes_on { GoesOn (B.shown seat.old) (B.shown seat.new) }
    ensures stores_nothing { StoresNothing (B.shown seat.old) (B.shown seat.new) }
    ensures stand { Stand F.gives F.shows (B.shown seat.new) requests.new }
    ensures same { AreSame requests.old requests.new }
    ensures others { requests.new ≡ record requests.old {
      ready = filter (has_time now) requests.old.ready;
      ended = requests.new.ended;
    } }
    ensures ends { EndsLate now requests.old.ended requests.new.ended }
{
    'tasks: for _task in 0..requests.ready_len() {
        match requests.next_ready() {
            None => return,
            Some(task) => turn_ready::<B, F>(requests, alloc, book, seat, now, task),
        }
    }
}

/// Ends the requests that are held and whose time is over.
pub(crate) fn expire_held<B: AnswerBook, F: Facts>(
    requests: &mut Requests<B>,
    alloc: Global,
    book: &B,
    seat: &mut B::Seat,
    now: Moment,
)
    requires made_here { B.belongs book.now seat.old }
    requires shown { F.shows now }
    requires stand { Stand F.gives F.shows (B.shown seat.old) requests.old }
    ensures stays { B.belongs book.now seat.new }
    ensures goes_on { GoesOn (B.shown seat.old) (B.shown seat.new) }
    ensures stores_nothing { StoresNothing (B.shown seat.old) (B.shown seat.new) }
    ensures stand { Stand F.gives F.shows (B.shown seat.new) requests.new }
    ensures same { AreSame requests.old requests.new }
    ensures others { requests.new ≡ record requests.old {
      held = filter (has_time now) requests.old.held;
      ended = requests.new.ended;
    } }
    ensures ends { EndsLate now requests.old.ended requests.new.ended }
{
    'tasks: for _task in 0..requests.held_len() {
        match requests.next_held() {
            None => return,
            Some(task) => turn_held::<B, F>(requests, alloc, book, seat, now, task),
        }
    }
}

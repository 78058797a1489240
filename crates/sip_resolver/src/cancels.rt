//! How a request is cancelled.
ghost use Rattle.std.specs.Prelude.{◌≡◌, ◌<◌, [], ◌∷◌, ◌++◌, IsFalse, IsTrue};
ghost use Rattle.sip_resolver.specs.Cancels.{is_awaited, others_by, questions_left};
ghost use Rattle.sip_resolver.specs.Questions.{closed_both};
ghost use Rattle.sip_resolver.specs.Requests.{count_of, number_of_ended, number_of_waiting};

use crate::outcome::Resolved;
use crate::questions::Questions;
use crate::ready::Ready;
use crate::requests::Requests;
use crate::task::Task;

/// Takes all requests of this number out of those that wait, and closes the questions that none
/// waits for any more. All others stay where they are.
pub(crate) fn remove_waiting<B>(requests: &mut Requests<B>, questions: &mut Questions, number: u64)
    ensures requests { requests.new ≡ record requests.old {
      waiting = others_by number_of_waiting number requests.old.waiting;
    } }
    ensures questions { questions.new
        ≡ questions_left requests.old.waiting requests.new.waiting questions.old }
{
    'waits: while let Some(waiting) = requests.next_numbered(number) {
        close_unawaited(requests, questions, waiting.id);
    }
}

/// Closes the question of this id where no request waits for it any more.
fn close_unawaited<B>(requests: &Requests<B>, questions: &mut Questions, id: u16)
    ensures awaited { IsTrue (is_awaited requests.now.waiting id) → questions.new ≡ questions.old }
    ensures left { IsFalse (is_awaited requests.now.waiting id)
        → questions.new ≡ closed_both id questions.old }
{
    if !requests.is_awaited(id) {
        questions.close(id);
    }
}

/// Takes all requests of this number out that do not wait.
pub(crate) fn remove_not_waiting<B>(requests: &mut Requests<B>, number: u64)
    ensures { requests.new ≡ record requests.old {
      ready = others_by (λ task. task.number) number requests.old.ready;
      held = others_by (λ task. task.number) number requests.old.held;
      ended = others_by number_of_ended number requests.old.ended;
    } }
{
    if !requests.has(number) {
        return;
    }
    remove_ready(requests, number);
    remove_held(requests, number);
    remove_ended(requests, number);
}

/// Takes all requests of this number out of those that can go on.
fn remove_ready<B>(requests: &mut Requests<B>, number: u64)
    ensures { requests.new ≡ record requests.old {
      ready = others_by (λ task. task.number) number requests.old.ready;
    } }
{
    'tasks: for _task in 0..requests.ready_len() {
        match requests.next_ready() {
            None => return,
            Some(task) => add_other(requests, task, number),
        }
    }
}

/// One more that can go on, unless it has this number.
fn add_other<B>(requests: &mut Requests<B>, task: Ready<B>, number: u64)
    requires { count_of requests.old < requests.old.limit }
    ensures { requests.new ≡ record requests.old {
      ready = requests.old.ready ++ others_by (λ task. task.number) number (task ∷ []);
    } }
{
    if task.number() != number {
        requests.add(task);
    }
}

/// Takes all requests of this number out of those that are held.
fn remove_held<B>(requests: &mut Requests<B>, number: u64)
    ensures { requests.new ≡ record requests.old {
      held = others_by (λ task. task.number) number requests.old.held;
    } }
{
    'tasks: for _task in 0..requests.held_len() {
        match requests.next_held() {
            None => return,
            Some(task) => hold_other(requests, task, number),
        }
    }
}

/// One more that is held, unless it has this number.
fn hold_other<B>(requests: &mut Requests<B>, task: Task<B>, number: u64)
    requires { count_of requests.old < requests.old.limit }
    ensures { requests.new ≡ record requests.old {
      held = requests.old.held ++ others_by (λ task. task.number) number (task ∷ []);
    } }
{
    if task.number() != number {
        requests.hold(task);
    }
}

/// Takes all requests of this number out of those that ended.
fn remove_ended<B>(requests: &mut Requests<B>, number: u64)
    ensures { requests.new ≡ record requests.old {
      ended = others_by number_of_ended number requests.old.ended;
    } }
{
    'ended: for _ended in 0..requests.ended_len() {
        match requests.next_ended() {
            None => return,
            Some(ended) => put_other(requests, ended, number),
        }
    }
}

/// One more that ended, unless it has this number.
fn put_other<B>(requests: &mut Requests<B>, ended: Resolved<B>, number: u64)
    requires { count_of requests.old < requests.old.limit }
    ensures { requests.new ≡ record requests.old {
      ended = requests.old.ended ++ others_by number_of_ended number (ended ∷ []);
    } }
{
    if ended.number() != number {
        requests.put_ended(ended);
    }
}

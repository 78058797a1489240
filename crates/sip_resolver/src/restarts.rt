//! How requests begin their choices anew.
ghost use Rattle.std.specs.Prelude.{◌≡◌, [], ◌++◌, map};
ghost use Rattle.sip_resolver.specs.Restarts.{anew, restarted, task_of_waiting};

use crate::ready::Ready;
use crate::requests::Requests;
use answer_cache::AnswerBook;

/// Lets each request that has not ended begin its choice anew.
pub(crate) fn restart_all<B: AnswerBook>(requests: &mut Requests<B>)
    ensures { requests.new ≡ restarted requests.old }
{
    restart_ready(requests);
    restart_held(requests);
    restart_waiting(requests);
}

/// Lets each request that can go on begin its choice anew.
fn restart_ready<B: AnswerBook>(requests: &mut Requests<B>)
    ensures { requests.new ≡ record requests.old { ready = map anew requests.old.ready } }
{
    'tasks: for _task in 0..requests.ready_len() {
        match requests.next_ready() {
            None => return,
            Some(task) => requests.add(task.begin_anew()),
        }
    }
}

/// Lets each request that is held begin its choice anew, after those that can go on.
fn restart_held<B: AnswerBook>(requests: &mut Requests<B>)
    ensures { requests.new ≡ record requests.old {
      ready = requests.old.ready ++ map anew requests.old.held;
      held = [];
    } }
{
    'tasks: while let Some(task) = requests.next_held() {
        requests.add(Ready::of(task).begin_anew());
    }
}

/// Lets each request that waits begin its choice anew, after those that can go on.
fn restart_waiting<B: AnswerBook>(requests: &mut Requests<B>)
    ensures { requests.new ≡ record requests.old {
      ready = requests.old.ready ++ map anew (map task_of_waiting requests.old.waiting);
      waiting = [];
    } }
{
    'waits: while let Some(waiting) = requests.next_waiting() {
        requests.add(Ready::of(waiting.task).begin_anew());
    }
}

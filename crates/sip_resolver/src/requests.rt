//! The requests inside a resolver, by how far they are.
ghost use Rattle.std.specs.Prelude.{◌≡◌, ◌↔◌, ◌<◌, ◌≤◌, [], ◌∷◌, ◌++◌, IfOk, IfSome, IsFalse, IsTrue, MatchOption, length, map};
ghost use Rattle.std.specs.List.{All, Contains};
ghost use Rattle.sip_resolver.specs.Cancels.{is_awaited};
ghost use Rattle.sip_resolver.specs.Earliest.{IsEarliest, untils_in};
ghost use Rattle.sip_resolver.specs.Expiries.{HaveTime, untils_of};
ghost use Rattle.sip_resolver.specs.Outcomes.{Ended};
ghost use Rattle.sip_resolver.specs.Questions.{IsLeast};
ghost use Rattle.sip_resolver.specs.Requests.{IsAwaitedBy, IsWithoutEnded, IsWithoutHeld, IsWithoutNumbered, IsWithoutReady, IsWithoutWaiting, IsWithoutWaitingFor, count_of, number_of_ended, number_of_waiting, numbers_of, requests_of, waiting_for};
ghost use Rattle.sip_resolver.specs.Tasks.{sought_of};
ghost use Rattle.sip_resolver.specs.WaitingQueues.{HaveOther};

use crate::earliest::Earliest;
use crate::number_filter::NumberFilter;
use crate::outcome::{Outcome, Resolved};
use crate::queue::{Numbered, Queue, Timed, least_of};
use crate::ready::Ready;
use crate::task::Task;
use crate::waiting_queue::WaitingQueue;
use crate::waiting_slots::Waiting;
use dns_answers::Moment;
use std::alloc::{AllocError, Global};
use std::marker::Model;
use std::snapshot::Snapshot;

/// The requests inside, and those that ended and were not taken.
#[derive(Drop)]
pub(crate) struct Requests<B> {
    /// They can go on.
    ready: Queue<Ready<B>>,
    /// Their questions found as many others out as can be.
    held: Queue<Task<B>>,
    /// They wait for replies.
    waiting: WaitingQueue<B>,
    /// They ended.
    ended: Queue<Resolved<B>>,
    /// How many there can be.
    limit: usize,
    /// The first moment by which one ends that has not ended.
    earliest: Earliest,
    /// The numbers of all, those that ended too.
    numbers: NumberFilter,
}

impl<B> Model for Requests<B> {
    ghost use Rattle.sip_resolver.specs.Requests.{RequestsView, AreKept, requests_of};

    ghost Value = { RequestsView };

    ghost view = { λ it. requests_of it.ready.items it.held.items it.waiting.items
        it.ended.items it.limit };

    ghost invariant = { λ it.
        AreKept it.ready it.held it.waiting it.ended it.limit it.earliest it.numbers };
}

impl<B> Requests<B> {
    /// None, with room for so many.
    pub(crate) fn new(alloc: Global, limit: usize) -> Result<Requests<B>, AllocError>
        requires { limit ≤ 65536 }
        ensures { IfOk result (λ it. it ≡ requests_of [] [] [] [] limit) }
    {
        Ok(Requests {
            ready: Queue::new(alloc, limit)?,
            held: Queue::new(alloc, limit)?,
            waiting: WaitingQueue::new(alloc, limit)?,
            ended: Queue::new(alloc, limit)?,
            limit,
            earliest: Earliest::never(),
            numbers: NumberFilter::new(alloc, limit)?,
        })
    }

    /// Whether there is room for one more.
    pub(crate) fn has_room(&self) -> bool
        ensures { IsTrue result ↔ (count_of self.now < self.now.limit) }
    {
        let others = self.limit - self.ready.len() - self.held.len() - self.waiting.len();
        self.ended.len() < others
    }

    /// How many there are.
    pub(crate) fn len(&self) -> usize
        ensures is { result ≡ count_of self.now }
        ensures few { result ≤ 65536 }
    {
        self.ready.len() + self.held.len() + self.waiting.len() + self.ended.len()
    }

    /// Whether there is none.
    pub(crate) fn is_empty(&self) -> bool
        ensures { IsTrue result ↔ (count_of self.now ≡ 0) }
    {
        self.ready.len() == 0
            && self.held.len() == 0
            && self.waiting.len() == 0
            && self.ended.len() == 0
    }

    /// Whether one of this number is among them.
    pub(crate) fn has(&self, number: u64) -> bool
        ensures { IsTrue result ↔ Contains (numbers_of self.now) number }
    {
        if !self.numbers.may_have(number) {
            return false;
        }
        self.find(number)
    }

    /// Looks for one of this number: first where those that wait are found by their numbers, then
    /// along all others.
    fn find(&self, number: u64) -> bool
        ensures { IsTrue result ↔ Contains (numbers_of self.now) number }
    {
        if self.waiting.has(number) {
            return true;
        }
        if self.ready.has(number) {
            return true;
        }
        if self.held.has(number) {
            return true;
        }
        self.ended.has(number)
    }

    /// Whether one of them waits for the reply to the message of this id.
    pub(crate) fn is_awaited(&self, id: u16) -> bool
        ensures { result ≡ is_awaited self.now.waiting id }
    {
        self.waiting.is_awaited(id)
    }

    /// The id of the message whose reply a request of this number waits for, if one waits.
    pub(crate) fn awaited_id(&self, number: u64) -> Option<u16>
        ensures { MatchOption result
            (All (λ it. it.task.number ≡ number → ⊥) self.now.waiting)
            (λ id. IsAwaitedBy number id self.now.waiting) }
    {
        self.waiting.awaited_id(number)
    }

    /// The first moment by which a request ends that has not ended.
    pub(crate) fn next_until(&self) -> Option<u64>
        ensures { IsLeast (untils_of self.now) result }
    {
        if self.earliest.is_past() {
            return self.find_until();
        }
        self.earliest.moment()
    }

    /// Looks along all that have not ended for the first moment by which one ends.
    fn find_until(&self) -> Option<u64>
        ensures { IsLeast (untils_of self.now) result }
    {
        let can_go_on = least_of(self.ready.next_until(), self.held.next_until());
        least_of(can_go_on, self.waiting.next_until())
    }

    /// The first moment by which one ends, and how many end at it.
    fn find_earliest(&self) -> Earliest
        ensures { IsEarliest (untils_in self.now.ready self.now.held self.now.waiting) result }
    {
        let Some(moment) = self.find_until() else {
            return Earliest::never();
        };
        let can_go_on = self.ready.count_at(moment) + self.held.count_at(moment);
        Earliest::at(moment, can_go_on + self.waiting.count_at(moment))
    }

    /// Looks for the first moment by which one ends, where none ends any more at the one that is
    /// known.
    fn refresh_earliest(&mut self)
        ensures { self.new ≡ self.old }
    {
        if self.earliest.is_past() {
            self.earliest = self.find_earliest();
        }
    }

    /// Whether the time of one that has not ended is over.
    pub(crate) fn has_late(&mut self, now: Moment) -> bool
        ensures late { IsFalse result → HaveTime now self.new }
        ensures unchanged { self.new ≡ self.old }
    {
        self.refresh_earliest();
        self.earliest.has_come(now.get())
    }

    /// How many can go on.
    pub(crate) fn ready_len(&self) -> usize
        ensures { result ≡ length self.now.ready }
    {
        self.ready.len()
    }

    /// How many are held.
    pub(crate) fn held_len(&self) -> usize
        ensures { result ≡ length self.now.held }
    {
        self.held.len()
    }

    /// How many wait.
    pub(crate) fn waiting_len(&self) -> usize
        ensures { result ≡ length self.now.waiting }
    {
        self.waiting.len()
    }

    /// How many ended.
    pub(crate) fn ended_len(&self) -> usize
        ensures { result ≡ length self.now.ended }
    {
        self.ended.len()
    }

    /// One more that can go on.
    pub(crate) fn add(&mut self, task: Ready<B>)
        requires { count_of self.old < self.old.limit }
        ensures { self.new ≡ record self.old { ready = self.old.ready ++ task ∷ [] } }
    {
        self.earliest.add(task.its_until());
        self.numbers.add(task.number());
        self.ready.push(task);
    }

    /// One more that is held.
    pub(crate) fn hold(&mut self, task: Task<B>)
        requires { count_of self.old < self.old.limit }
        ensures { self.new ≡ record self.old { held = self.old.held ++ task ∷ [] } }
    {
        self.earliest.add(task.its_until());
        self.numbers.add(task.number());
        self.held.push(task);
    }

    /// One more that waits for the reply to the message of this id.
    pub(crate) fn wait(&mut self, id: u16, task: Task<B>)
        requires { count_of self.old < self.old.limit }
        ensures { self.new ≡ record self.old {
          waiting = self.old.waiting ++ record { id = id; task = task } ∷ [];
        } }
    {
        self.earliest.add(task.its_until());
        self.numbers.add(task.number());
        self.waiting.push(Waiting { id, task });
    }

    /// One more that ended.
    pub(crate) fn end(&mut self, task: Task<B>, outcome: Outcome)
        requires { count_of self.old < self.old.limit }
        ensures { self.new ≡ record self.old {
          ended = self.old.ended ++ record { sought = sought_of task; outcome = outcome } ∷ [];
        } }
    {
        let (number, ended) = (task.number(), Ready::of(task));
        self.put_ended(Resolved::new(Snapshot::of(&ended), number, outcome));
    }

    /// One more that ended.
    pub(crate) fn put_ended(&mut self, ended: Resolved<B>)
        requires { count_of self.old < self.old.limit }
        ensures { self.new ≡ record self.old { ended = self.old.ended ++ ended ∷ [] } }
    {
        self.numbers.add(ended.number());
        self.ended.push(ended);
    }

    /// Takes the first one out that can go on.
    pub(crate) fn next_ready(&mut self) -> Option<Ready<B>>
        ensures { MatchOption result ((self.old.ready ≡ []) × (self.new ≡ self.old))
            (λ task. IsWithoutReady task self.old self.new) }
    {
        let task = self.ready.pop()?;
        self.earliest.remove(task.its_until());
        self.numbers.remove(task.number());
        Some(task)
    }

    /// Takes the first one out that is held.
    pub(crate) fn next_held(&mut self) -> Option<Task<B>>
        ensures { MatchOption result ((self.old.held ≡ []) × (self.new ≡ self.old))
            (λ task. IsWithoutHeld task self.old self.new) }
    {
        let task = self.held.pop()?;
        self.earliest.remove(task.its_until());
        self.numbers.remove(task.number());
        Some(task)
    }

    /// Takes the first one out that waits.
    pub(crate) fn next_waiting(&mut self) -> Option<Waiting<B>>
        ensures { MatchOption result ((self.old.waiting ≡ []) × (self.new ≡ self.old))
            (λ waiting. IsWithoutWaiting waiting self.old self.new) }
    {
        let waiting = self.waiting.pop()?;
        self.earliest.remove(waiting.its_until());
        self.numbers.remove(waiting.number());
        Some(waiting)
    }

    /// Takes the first one out that waits for the reply to the message of this id. The others stay
    /// in their order.
    pub(crate) fn next_waiting_for(&mut self, id: u16) -> Option<Task<B>>
        ensures { MatchOption result
            ((waiting_for id self.old.waiting ≡ []) × (self.new ≡ self.old))
            (λ task. IsWithoutWaitingFor id task self.old self.new) }
    {
        let waiting = self.waiting.take_first_for(id)?;
        self.earliest.remove(waiting.its_until());
        self.numbers.remove(waiting.number());
        Some(waiting.task)
    }

    /// Takes the first one out that waits and has this number. The others stay in their order.
    pub(crate) fn next_numbered(&mut self, number: u64) -> Option<Waiting<B>>
        ensures { MatchOption result
            (HaveOther number_of_waiting number self.old.waiting × (self.new ≡ self.old))
            (λ waiting. IsWithoutNumbered number waiting self.old self.new) }
    {
        let waiting = self.waiting.take_numbered(number)?;
        self.earliest.remove(waiting.its_until());
        self.numbers.remove(waiting.number());
        Some(waiting)
    }

    /// Takes the first one out that ended.
    pub(crate) fn next_ended(&mut self) -> Option<Resolved<B>>
        ensures { MatchOption result ((self.old.ended ≡ []) × (self.new ≡ self.old))
            (λ ended. IsWithoutEnded ended self.old self.new) }
    {
        let ended = self.ended.pop()?;
        self.numbers.remove(ended.number());
        Some(ended)
    }
}

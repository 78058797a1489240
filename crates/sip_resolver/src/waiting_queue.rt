//! The requests that wait for replies.
ghost use Rattle.std.specs.Prelude.{◌≡◌, ◌↔◌, ◌<◌, ◌≤◌, [], ◌∷◌, ◌++◌, Some, IfOk, IsTrue, MatchOption, length, map};
ghost use Rattle.std.specs.List.{All, Contains, filter_map, sum_by};
ghost use Rattle.sip_resolver.specs.Cancels.{is_awaited};
ghost use Rattle.sip_resolver.specs.Earliest.{ends_at};
ghost use Rattle.sip_resolver.specs.Questions.{IsLeast};
ghost use Rattle.sip_resolver.specs.Requests.{IsAwaitedBy, number_of_waiting, waiting_for};
ghost use Rattle.sip_resolver.specs.WaitingQueues.{HaveOther, IsWithoutFirstFor, IsWithoutFirstNumbered};

use crate::waiting_slots::{Waiting, WaitingSlots};
use std::alloc::{AllocError, Global};
use std::marker::Model;

/// Requests that wait for replies, in the order in which they came, in memory that `new` takes: a
/// push takes none. A request that is taken out leaves its slot empty, until there is no slot left
/// for one that comes. Indexes find those that wait for one reply, and the one of a number.
#[derive(Drop)]
pub(crate) struct WaitingQueue<B> {
    slots: WaitingSlots<B>,
    /// None waits in a slot in front of this place.
    head: usize,
    /// How many wait.
    count: usize,
    /// How many can wait.
    room: usize,
}

impl<B> Model for WaitingQueue<B> {
    ghost use Rattle.sip_resolver.specs.Queues.{Queued};
    ghost use Rattle.sip_resolver.specs.Tasks.{WaitingView};
    ghost use Rattle.sip_resolver.specs.WaitingQueues.{AreQueued, items_of};

    ghost Value = { Queued WaitingView };

    ghost view = { λ it. record { items = items_of it.slots.items; room = it.room } };

    ghost invariant = { λ it. AreQueued it.slots it.head it.count it.room };
}

impl<B> WaitingQueue<B> {
    /// None, with room for so many.
    pub(crate) fn new(alloc: Global, room: usize) -> Result<WaitingQueue<B>, AllocError>
        requires { room ≤ 65536 }
        ensures { IfOk result (λ it. it ≡ record { items = []; room = room }) }
    {
        Ok(WaitingQueue {
            slots: WaitingSlots::new(alloc, room * 2)?,
            head: 0,
            count: 0,
            room,
        })
    }

    /// How many there are.
    pub(crate) fn len(&self) -> usize
        ensures { result ≡ length self.now.items }
    {
        self.count
    }

    /// One more, which comes last.
    pub(crate) fn push(&mut self, waiting: Waiting<B>)
        requires { length self.old.items < self.old.room }
        ensures { self.new ≡ record self.old { items = self.old.items ++ waiting ∷ [] } }
    {
        self.head = self.slots.make_room(self.head);
        self.slots.push(waiting);
        self.count += 1;
    }

    /// Takes the first one out.
    pub(crate) fn pop(&mut self) -> Option<Waiting<B>>
        ensures { MatchOption result ((self.old.items ≡ []) × (self.new ≡ self.old))
            (λ first. (self.old.items ≡ first ∷ self.new.items)
            × (self.new.room ≡ self.old.room)) }
    {
        let place = self.slots.first_from(self.head)?;
        let waiting = self.slots.take(place)?;
        self.head = place;
        self.count -= 1;
        Some(waiting)
    }

    /// Whether one of them waits for the reply to the message of this id.
    pub(crate) fn is_awaited(&self, id: u16) -> bool
        ensures { result ≡ is_awaited self.now.items id }
    {
        self.slots.find(id).is_some()
    }

    /// Takes the first one out that waits for the reply to the message of this id. The others stay
    /// in their order.
    pub(crate) fn take_first_for(&mut self, id: u16) -> Option<Waiting<B>>
        ensures { MatchOption result
            ((waiting_for id self.old.items ≡ []) × (self.new ≡ self.old))
            (λ waiting. IsWithoutFirstFor id waiting self.old self.new) }
    {
        let place = self.slots.find(id)?;
        let waiting = self.slots.take(place)?;
        self.count -= 1;
        Some(waiting)
    }

    /// Takes the first one out that has this number. The others stay in their order.
    pub(crate) fn take_numbered(&mut self, number: u64) -> Option<Waiting<B>>
        ensures { MatchOption result
            (HaveOther number_of_waiting number self.old.items × (self.new ≡ self.old))
            (λ waiting. IsWithoutFirstNumbered number waiting self.old self.new) }
    {
        let place = self.slots.find_number(number)?;
        let waiting = self.slots.take(place)?;
        self.count -= 1;
        Some(waiting)
    }

    /// The id of the message whose reply a request of this number waits for, if one waits.
    pub(crate) fn awaited_id(&self, number: u64) -> Option<u16>
        ensures { MatchOption result
            (All (λ it. it.task.number ≡ number → ⊥) self.now.items)
            (λ id. IsAwaitedBy number id self.now.items) }
    {
        let place = self.slots.find_number(number)?;
        Some(self.slots.id_at(place))
    }

    /// Whether one of them has this number.
    pub(crate) fn has(&self, number: u64) -> bool
        ensures { IsTrue result ↔ Contains (map number_of_waiting self.now.items) number }
    {
        self.awaited_id(number).is_some()
    }

    /// The first moment by which one of them ends.
    pub(crate) fn next_until(&self) -> Option<u64>
        ensures { IsLeast (filter_map (λ it. it.task.until) self.now.items) result }
    {
        self.slots.next_until()
    }

    /// How many of them end at this moment.
    pub(crate) fn count_at(&self, moment: u64) -> usize
        ensures count { result
            ≡ sum_by (λ it. ends_at (Some moment) it.task.until) self.now.items }
        ensures few { result ≤ length self.now.items }
    {
        self.slots.count_at(moment)
    }
}

//! The requests that wait for replies, in slots.
ghost use Rattle.std.specs.Prelude.{◌≡◌, ◌↔◌, ◌<◌, ◌≤◌, [], ◌∷◌, ◌++◌, Some, IfOk, IsSomeAnd, IsTrue, MatchOption, length, slice_get, take};
ghost use Rattle.std.specs.List.{filter, filter_map, sum_by};
ghost use Rattle.std.specs.Option.{is_some};
ghost use Rattle.sip_resolver.specs.Earliest.{ends_at};
ghost use Rattle.sip_resolver.specs.Questions.{IsLeast};
ghost use Rattle.sip_resolver.specs.Requests.{number_of_waiting};
ghost use Rattle.sip_resolver.specs.WaitingQueues.{HaveOther, IsFirst, IsFirstOf, IsTakenAt, IsTakenSlot, id_of, items_of, until_in};

use crate::queue::{Numbered, Queue, Timed};
use crate::slot_index::SlotIndex;
use crate::task::Task;
use std::alloc::{AllocError, Global};
use std::marker::Model;

/// A request that waits for the reply to the message of this id.
#[derive(Drop)]
pub(crate) struct Waiting<B> {
    pub(crate) id: u16,
    pub(crate) task: Task<B>,
}

impl<B> Model for Waiting<B> {
    ghost use Rattle.sip_resolver.specs.Tasks.{WaitingView};

    ghost Value = { WaitingView };

    ghost view = { λ it. record { id = it.id; task = it.task } };
}

impl<B> Numbered for Waiting<B> {
    ghost numbered = { λ it. it.task.number };

    fn number(&self) -> u64 {
        self.task.number()
    }
}

impl<B> Timed for Waiting<B> {
    ghost until_of = { λ it. it.task.until };

    fn its_until(&self) -> Option<u64> {
        self.task.its_until()
    }
}

/// A slot in which a request waits, or waited, for the reply to the message of this id.
#[derive(Drop)]
struct Slot<B> {
    id: u16,
    /// The request, if it waits.
    task: Option<Task<B>>,
}

impl<B> Model for Slot<B> {
    ghost use Rattle.sip_resolver.specs.WaitingQueues.{SlotView};

    ghost Value = { SlotView };

    ghost view = { λ it. record { id = it.id; task = it.task } };
}

impl<B> Slot<B> {
    /// Whether a request waits in it.
    fn is_taken(&self) -> bool
        ensures { result ≡ is_some self.now.task }
    {
        self.task.is_some()
    }
}

impl<B> Timed for Slot<B> {
    ghost until_of = { λ it. until_in it.task };

    fn its_until(&self) -> Option<u64> {
        match &self.task {
            Some(task) => task.its_until(),
            None => None,
        }
    }
}

/// Slots in the order in which their requests came, in memory that `new` takes, and indexes of them
/// by their ids and by the numbers of their requests.
#[derive(Drop)]
pub(crate) struct WaitingSlots<B> {
    slots: Queue<Slot<B>>,
    /// By the ids of the messages for whose replies requests wait.
    ids: SlotIndex,
    /// By the numbers of the requests.
    numbers: SlotIndex,
}

impl<B> Model for WaitingSlots<B> {
    ghost use Rattle.sip_resolver.specs.Queues.{Queued};
    ghost use Rattle.sip_resolver.specs.WaitingQueues.{AreIndexed, SlotView};

    ghost Value = { Queued SlotView };

    ghost view = { λ it. it.slots };

    ghost invariant = { λ it. AreIndexed it.slots it.ids it.numbers };
}

impl<B> WaitingSlots<B> {
    /// None, with room for so many.
    pub(crate) fn new(alloc: Global, room: usize) -> Result<WaitingSlots<B>, AllocError>
        requires { room ≤ 131072 }
        ensures { IfOk result (λ it. it ≡ record { items = []; room = room }) }
    {
        Ok(WaitingSlots {
            slots: Queue::new(alloc, room)?,
            ids: SlotIndex::new(alloc, room)?,
            numbers: SlotIndex::new(alloc, room)?,
        })
    }

    /// One more, which comes last.
    pub(crate) fn push(&mut self, waiting: Waiting<B>)
        requires { length self.old.items < self.old.room }
        ensures { self.new ≡ record self.old {
          items = self.old.items ++ record { id = waiting.id; task = Some waiting.task } ∷ [];
        } }
    {
        let Waiting { id, task } = waiting;
        self.ids.push(u64::from(id));
        self.numbers.push(task.number());
        self.slots.push(Slot {
            id,
            task: Some(task),
        });
    }

    /// The place of the first one in which a request waits for the reply to the message of this id.
    pub(crate) fn find(&self, id: u16) -> Option<usize>
        ensures { MatchOption result (HaveOther id_of id (items_of self.now.items))
            (λ place. IsFirstOf id_of id place self.now.items) }
    {
        self.ids.find(u64::from(id))
    }

    /// The place of the first one in which a request of this number waits.
    pub(crate) fn find_number(&self, number: u64) -> Option<usize>
        ensures { MatchOption result (HaveOther number_of_waiting number (items_of self.now.items))
            (λ place. IsFirstOf number_of_waiting number place self.now.items) }
    {
        self.numbers.find(number)
    }

    /// The id of the message for whose reply a request waits, or waited, in the slot at a place.
    pub(crate) fn id_at(&self, place: usize) -> u16
        requires { place < length self.now.items }
        ensures { IsSomeAnd (slice_get self.now.items place) (λ slot. result ≡ slot.id) }
    {
        self.slots.at(place).id
    }

    /// The place of the first one in which a request waits, where none does in front of the head.
    pub(crate) fn first_from(&self, head: usize) -> Option<usize>
        requires within { head ≤ length self.now.items }
        requires none_before { items_of (take head self.now.items) ≡ [] }
        ensures { MatchOption result (items_of self.now.items ≡ [])
            (λ place. IsFirst place self.now.items) }
    {
        'slots: for place in head..self.slots.len() {
            if self.slots.at(place).is_taken() {
                return Some(place);
            }
        }
        None
    }

    /// The first moment by which one of the requests that wait ends.
    pub(crate) fn next_until(&self) -> Option<u64>
        ensures { IsLeast (filter_map (λ it. it.task.until) (items_of self.now.items)) result }
    {
        self.slots.next_until()
    }

    /// How many of the requests that wait end at this moment.
    pub(crate) fn count_at(&self, moment: u64) -> usize
        ensures count { result
            ≡ sum_by (λ it. ends_at (Some moment) it.task.until) (items_of self.now.items) }
    {
        self.slots.count_at(moment)
    }

    /// Takes the request out that waits in the slot at a place, which stays behind.
    pub(crate) fn take(&mut self, place: usize) -> Option<Waiting<B>>
        requires within { place < length self.old.items }
        requires waits { IsTakenSlot place self.old.items }
        ensures { IsSomeAnd result (λ waiting. IsTakenAt place waiting self.old self.new) }
    {
        let waiting = self.slots.take_waiting(place)?;
        self.ids.leave(place);
        self.numbers.leave(place);
        Some(waiting)
    }

    /// Lets the slots go in which none waits, where there is no room for one more. `head` is a
    /// place that none waits in front of, and so is the result.
    pub(crate) fn make_room(&mut self, head: usize) -> usize
        requires few { length (items_of self.old.items) < self.old.room }
        requires within { head ≤ length self.old.items }
        requires none_before { items_of (take head self.old.items) ≡ [] }
        ensures items { items_of self.new.items ≡ items_of self.old.items }
        ensures slots { (length self.new.items < self.new.room) × (self.new.room ≡ self.old.room) }
        ensures head { (result ≤ length self.new.items)
            × (items_of (take result self.new.items) ≡ []) }
    {
        if self.slots.has_room() {
            return head;
        }
        self.slots.keep_taken();
        self.ids.keep_taken();
        self.numbers.keep_taken();
        0
    }
}

impl<B> Queue<Slot<B>> {
    /// Whether there is room for one more.
    fn has_room(&self) -> bool
        ensures { IsTrue result ↔ (length self.now.items < self.now.room) }
    {
        self.items.len() < self.items.capacity()
    }

    /// Takes the request out that waits in the slot at a place.
    fn take_waiting(&mut self, place: usize) -> Option<Waiting<B>>
        requires within { place < length self.old.items }
        requires waits { IsTakenSlot place self.old.items }
        ensures { IsSomeAnd result (λ waiting. IsTakenAt place waiting self.old self.new) }
    {
        let slot = &mut self.items[place];
        let task = slot.task.take()?;
        Some(Waiting { id: slot.id, task })
    }

    /// Lets the slots go in which none waits.
    fn keep_taken(&mut self)
        ensures { self.new ≡ record self.old {
          items = filter (λ slot. is_some slot.task) self.old.items;
        } }
    {
        self.items.retain(|slot| slot.is_taken());
    }
}

//! A queue whose room is taken once.
ghost use Rattle.std.specs.Prelude.{◌≡◌, ◌↔◌, ◌<◌, ◌≤◌, ℕ, List, [], ◌∷◌, ◌++◌, Option, Some, IfOk, IsTrue, MatchOption, length, map, slice_get};
ghost use Rattle.std.specs.List.{Contains, filter_map, sum_by};
ghost use Rattle.sip_resolver.specs.Earliest.{ends_at};
ghost use Rattle.sip_resolver.specs.Questions.{IsLeast};

use std::alloc::{AllocError, Global};
use std::collections::VecDeque;
use std::marker::Model;

/// Items in the order in which they came, in memory that `new` takes: a push takes none.
#[derive(Drop)]
pub(crate) struct Queue<T> {
    pub(crate) items: VecDeque<T>,
}

impl<T> Model for Queue<T> {
    ghost use Rattle.std.specs.VecDeque.{deque_capacity};
    ghost use Rattle.sip_resolver.specs.Queues.{Queued};

    ghost Value = { Queued T };

    ghost view = { λ it. record { items = it.items.items; room = deque_capacity it.items } };
}

impl<T> Queue<T> {
    /// None, with room for so many.
    pub(crate) fn new(alloc: Global, room: usize) -> Result<Queue<T>, AllocError>
        ensures { IfOk result (λ it. it ≡ record { items = []; room = room }) }
    {
        Ok(Queue {
            items: VecDeque::with_capacity(alloc, room)?,
        })
    }

    /// How many there are.
    pub(crate) fn len(&self) -> usize
        ensures { result ≡ length self.now.items }
    {
        self.items.len()
    }

    /// The one at a place.
    pub(crate) fn at(&self, place: usize) -> &T
        requires { place < length self.now.items }
        ensures { slice_get self.now.items place ≡ Some result.now }
    {
        &self.items[place]
    }

    /// One more, which comes last.
    pub(crate) fn push(&mut self, item: T)
        requires { length self.old.items < self.old.room }
        ensures { self.new ≡ record self.old { items = self.old.items ++ item ∷ [] } }
    {
        self.items.push_back_reserved(item);
    }

    /// Takes the first one out.
    pub(crate) fn pop(&mut self) -> Option<T>
        ensures { MatchOption result ((self.old.items ≡ []) × (self.new ≡ self.old))
            (λ first. (self.old.items ≡ first ∷ self.new.items)
            × (self.new.room ≡ self.old.room)) }
    {
        self.items.pop_front()
    }
}

/// What has a number.
pub(crate) trait Numbered {
    // Its number.
    ghost numbered: { Self → ℕ };

    /// Its number.
    fn number(&self) -> u64
        ensures { result ≡ numbered self.now };
}

impl<T: Numbered> Queue<T> {
    /// Whether one of them has this number.
    pub(crate) fn has(&self, number: u64) -> bool
        ensures { IsTrue result ↔ Contains (map T.numbered self.now.items) number }
    {
        'items: for at in 0..self.items.len() {
            let item = &self.items[at];
            if item.number() == number {
                return true;
            }
        }
        false
    }
}

/// What may have a moment by which it ends.
pub(crate) trait Timed {
    // The moment by which it ends, if it has one.
    ghost until_of: { Self → Option ℕ };

    /// The moment by which it ends, if it has one.
    fn its_until(&self) -> Option<u64>
        ensures { result ≡ until_of self.now };
}

impl<T: Timed> Queue<T> {
    /// The first moment by which one of them ends.
    pub(crate) fn next_until(&self) -> Option<u64>
        ensures { IsLeast (filter_map T.until_of self.now.items) result }
    {
        let mut least = None;
        'items: for at in 0..self.items.len() {
            let item = &self.items[at];
            least = least_of(least, item.its_until());
        }
        least
    }

    /// How many of them end at this moment.
    pub(crate) fn count_at(&self, moment: u64) -> usize
        ensures count { result
            ≡ sum_by (λ it. ends_at (Some moment) (T.until_of it)) self.now.items }
        ensures few { result ≤ length self.now.items }
    {
        let mut count = 0;
        'items: for at in 0..self.items.len() {
            let item = &self.items[at];
            count += one_at(moment, item.its_until());
        }
        count
    }
}

/// 1 where the second moment is the first one, and else 0.
fn one_at(moment: u64, until: Option<u64>) -> usize
    ensures { result ≡ ends_at (Some moment) until }
{
    match until {
        Some(until) if until == moment => 1,
        _ => 0,
    }
}

/// The least of two numbers, if there are any: of the timeouts of two resolvers, say.
#[must_use]
pub fn least_of(one: Option<u64>, other: Option<u64>) -> Option<u64>
    ensures { (ones others : List ℕ) → IsLeast ones one → IsLeast others other
        → IsLeast (ones ++ others) result }
{
    let Some(first) = one else {
        return other;
    };
    let Some(second) = other else {
        return Some(first);
    };
    if first <= second {
        Some(first)
    } else {
        Some(second)
    }
}

//! The seats of a shared cache, and what they tell each other.
ghost use Rattle.std.specs.Prelude.{◌≡◌, ◌<◌, ◌⊎◌};
ghost use Rattle.std.specs.List.{All};
ghost use mathlib.Core.List.{IsPrefix};

use crate::index::Index;
use crate::notes::Notes;
use answer_log::{Handle, SeenLog, law_histories_are_one, law_log_keeps_its_rule};
use std::marker::Model;

/// A seat at a `SharedCache`. One thread uses it at a time, and it may be sent to another.
#[derive(Drop)]
pub struct Seat {
    pub(crate) handle: Handle,
    pub(crate) notes: Notes,
    pub(crate) indexes: Vec<Index>,
}

impl Model for Seat {
    ghost use Rattle.answer_log.specs.Handles.{IsHandle};
    ghost use Rattle.answer_cache.specs.Indexes.{AreIndexes};
    ghost use Rattle.answer_cache.specs.Shared.{SharedView, view_of};

    ghost Value = { SharedView };

    ghost view = { λ it. view_of it.handle it.notes };

    ghost invariant = { λ it. IsHandle it.handle
        × AreIndexes it.handle.groups it.handle.book.book it.indexes.items };
}

impl Seat {
    /// The number of the seat, from 0.
    #[must_use]
    pub fn number(&self) -> usize
        ensures { result ≡ self.now.seat.number }
    {
        self.handle.number as usize
    }

    /// What the seat has seen, for other seats to learn. Takes no memory.
    #[must_use]
    pub fn notice(&self) -> Notice
        ensures { (result.cache ≡ self.now.cache) × (result.seen ≡ self.now.seat.seen) }
    {
        Notice {
            seen: self.handle.book.again(),
        }
    }
}

/// What a seat had seen. It may be sent to other threads.
#[derive(Drop)]
pub struct Notice {
    pub(crate) seen: SeenLog,
}

impl Model for Notice {
    ghost use Rattle.answer_log.specs.Logs.{groups_in, history, seats_in};
    ghost use Rattle.answer_cache.specs.Shared.{NoticeView, cache_view};

    ghost Value = { NoticeView };

    ghost view = { λ it. record {
      cache = cache_view it.seen.book (seats_in it.seen.log) (groups_in it.seen.log);
      seen = history it.seen.log;
    } };
}

impl Notice {
    /// A copy of the notice. Takes no memory.
    #[must_use]
    pub fn again(&self) -> Notice
        ensures { result ≡ self.now }
    {
        Notice {
            seen: self.seen.again(),
        }
    }
}

/// A law: each store that a seat has seen is of one of the seats that the cache was made with.
pub fn law_stores_are_of_the_seats(seat: &Seat)
    ensures { All (λ store. store.seat < seat.now.cache.seats) seat.now.seat.seen }
{
    law_log_keeps_its_rule(&seat.handle.book);
}

/// A law: what two seats of a cache have seen is of one history.
pub fn law_seats_see_one_history(one: &Seat, other: &Seat)
    requires { one.now.cache ≡ other.now.cache }
    ensures { IsPrefix one.now.seat.seen other.now.seat.seen
        ⊎ IsPrefix other.now.seat.seen one.now.seat.seen }
{
    law_histories_are_one(&one.handle.book, &other.handle.book);
}

/// A law: what two notices of a cache say is of one history.
pub fn law_notices_tell_one_history(one: &Notice, other: &Notice)
    requires { one.now.cache ≡ other.now.cache }
    ensures { IsPrefix one.now.seen other.now.seen ⊎ IsPrefix other.now.seen one.now.seen }
{
    law_histories_are_one(&one.seen, &other.seen);
}

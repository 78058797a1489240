//! What a seat has at the log.
ghost use Rattle.std.specs.Prelude.{◌≡◌, ◌+◌, ◌-◌, ◌<◌, ◌∷◌, []};
ghost use Rattle.answer_log.specs.Handles.{AreHandles, IsHandle, IsNew, IsSame, spent_of};
ghost use Rattle.answer_log.specs.Spending.{one_miss};

use crate::spent::Spent;
use crate::steps::SeenLog;
use crate::tally::{Tallies, Tally};

/// What a seat has at the log: its number, how many seats and how many groups there are, the place
/// of its next node, its count, what it has seen, and what its calls have spent.
#[derive(Drop)]
pub struct Handle {
    pub number: u64,
    pub seats: u64,
    pub groups: u32,
    pub node_count: u64,
    pub tally: Tally,
    pub book: SeenLog,
    pub(crate) spent: Spent,
}

impl Handle {
    /// Notes that a cursor of the seat was led to a number whose node was not found.
    pub fn miss(&mut self)
        requires { IsHandle self.old }
        ensures same { IsSame self.old self.new }
        ensures spent { spent_of self.new ≡ one_miss (spent_of self.old) }
    {
        self.spent = self.spent.with_miss();
    }
}

/// What the seats of a new log are given, one after the other.
#[derive(Drop)]
pub struct Handles {
    pub next: u64,
    pub seats: u64,
    pub groups: u32,
    pub tallies: Tallies,
    pub seen: SeenLog,
}

impl Handles {
    /// Deals what the next seat has at the log.
    pub fn deal(&mut self) -> Handle
        requires seats { self.old.next < self.old.seats }
        requires handles { AreHandles self.old }
        ensures handles { AreHandles self.new }
        ensures next { self.new.next ≡ self.old.next + 1 }
        ensures seats { self.new.seats ≡ self.old.seats }
        ensures groups { self.new.groups ≡ self.old.groups }
        ensures book { self.new.seen.book ≡ self.old.seen.book }
        ensures seen { (self.new.seen ≡ self.old.seen) × (result.book ≡ self.old.seen) }
        ensures handle { IsNew result self.old.seen.book self.old.next
            self.old.seats self.old.groups }
    {
        let number = self.next;
        self.next += 1;
        Handle {
            number,
            seats: self.seats,
            groups: self.groups,
            node_count: 0,
            tally: self.tallies.take(),
            book: self.seen.again(),
            spent: Spent::nothing(),
        }
    }
}

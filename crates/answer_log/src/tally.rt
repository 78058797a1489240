//! The counts of the seats, of which the rule and each seat hold parts.
ghost use Rattle.std.specs.Prelude.{◌≡◌, ℕ, ◌+◌, ◌-◌, ◌<◌, [], ◌∷◌, None, Some, Bool, true, false};
ghost use Rattle.answer_log.specs.Logs.{seat_of};
ghost use Rattle.answer_log.specs.declared.event.Event.TheVariants.{Opened};
ghost use Rattle.answer_log.specs.Counts.{first_name, first_seat, first_count, holding, tally_owns};
ghost use Rattle.answer_log.specs.Counts.{tallies_own};

use crate::event::{Counted, Event};
use logbook::{Gain, Gained, Offer, Plain, Rule, Start};
use std::marker::{Model, PhantomData};

/// The rule of the log: what holds of its cells and events, and how the counts of the seats move.
pub struct Law;

impl Rule<Event, Counted> for Law {
    ghost use Rattle.std.specs.Prelude.{[]};
    ghost use Rattle.answer_log.specs.Rules.{IsKept};
    ghost use Rattle.answer_log.specs.Counts.{keeps_counts, Counts};

    ghost holds = { λ cells log. IsKept cells log };

    ghost first = { [] };

    ghost hinted = { λ n log. Unit {0} };

    ghost shows = { λ log. log };

    ghost keeps = { λ names log. keeps_counts names log };

    ghost moves = { λ ask before after counted. Counts ask before after counted };
}

/// A seat has its count back.
pub struct Back;

impl Gain<Event, Counted> for Back {
    ghost use Rattle.answer_log.specs.Counts.{gains_count};

    ghost after = { λ names about counted. gains_count names about counted };
}

/// A seat's count of its events in the log, which is the seat's alone.
pub struct Tally {
    marker: PhantomData<()>,
    pub ghost held: { Bool },
    pub ghost name: { ℕ },
    pub ghost seat: { ℕ },
    pub ghost count: { ℕ },
}

impl Model for Tally {
    ghost also_owns = { λ t. tally_owns t.held t.name t.seat t.count };
}

/// The counts of 0 of `left` seats, from `next` on.
pub struct Tallies {
    marker: PhantomData<()>,
    pub ghost name: { ℕ },
    pub ghost next: { ℕ },
    pub ghost left: { ℕ },
}

impl Model for Tallies {
    ghost also_owns = { λ t. tallies_own t.name t.next t.left };
}

pub(crate) type Deal = Offer<Event, Counted, Law, Back>;

impl Tallies {
    /// The counts of 64 seats, and what the rule keeps of them when a log opens for so many of
    /// them, with so many groups.
    pub(crate) fn open(seats: u64, groups: u32) -> (Start<Event, Counted, Law>, Tallies)
        ensures start { (result.0.names ≡ result.1.name ∷ [])
            × (result.0.shown ≡ Opened seats groups ∷ []) }
        ensures all { (result.1.next ≡ 0) × (result.1.left ≡ 64) }
    {
        let _ = seats;
        let _ = groups;
        (
            Start {
                marker: PhantomData,
            },
            Tallies {
                marker: PhantomData,
            },
        )
    }

    /// The first of them.
    pub(crate) fn take(&mut self) -> Tally
        requires { 0 < self.old.left }
        ensures tally { (result.name ≡ self.old.name) × (result.seat ≡ self.old.next)
            × (result.count ≡ 0)
            × (result.held ≡ true) }
        ensures rest { (self.new.name ≡ self.old.name) × (self.new.next ≡ self.old.next + 1)
            × (self.new.left ≡ self.old.left - 1) }
    {
        Tally {
            marker: PhantomData,
        }
    }
}

impl Tally {
    /// Hands the count to a step, which says what it is and may raise it. What the step asks is
    /// read off `about`.
    pub(crate) fn bid<X, M: Plain<X, Event, Counted>>(&mut self, about: &X) -> Deal
        requires { (self.old.held ≡ true) × (seat_of (M.ask about.now) ≡ self.old.seat) }
        ensures { (result.names ≡ self.old.name ∷ []) × (result.ask ≡ M.ask about.now)
            × (result.about ≡ holding self.old.seat self.old.count) × (result.state ≡ None) }
    {
        Offer {
            marker: PhantomData,
        }
    }

    /// Takes the count back.
    pub(crate) fn back(&mut self, gained: Gained<Event, Counted, Back>)
        ensures tally { (self.new.name ≡ first_name gained.names)
            × (self.new.seat ≡ first_seat gained.about)
            × (self.new.count ≡ gained.answer.after) × (self.new.held ≡ true) }
        ensures told { first_count gained.about ≡ gained.answer.before }
    {
        let Gained { marker: _ } = gained;
    }
}

impl Drop for Tally {
    fn drop(self) {
        let Self { marker: _ } = self;
    }
}

impl Drop for Tallies {
    fn drop(self) {
        let Self { marker: _ } = self;
    }
}

unsafe impl Send for Tally {}

unsafe impl Sync for Tally {}

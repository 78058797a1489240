//! Clocks.
ghost use Rattle.std.specs.Prelude.{ℕ};

use dns_answers::Moment;

/// A clock, whose moments are those at which answers are kept.
pub trait Clock {
    // What it may show.
    ghost shows: { ℕ → Type 0 };

    /// The moment that the clock shows.
    fn now(&self) -> Moment
        ensures { shows result };
}

/// A clock that always shows this moment, for tests and measurements.
#[derive(Clone, Copy, Debug)]
pub struct StandingClock {
    /// What it shows.
    pub moment: Moment,
}

impl Clock for StandingClock {
    ghost use Rattle.std.specs.Prelude.{⊤};

    ghost shows = { λ _. ⊤ };

    fn now(&self) -> Moment {
        self.moment
    }
}

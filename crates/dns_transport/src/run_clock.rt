//! A clock that counts from when it was started.
ghost use Rattle.std.specs.Prelude.{◌≡◌, ◌/◌, ◌^◌, ◌<◌, ◌≤◌};
ghost use Rattle.std.specs.Duration.{as_nanos};
ghost use Rattle.dns_transport.specs.Clocks.{IsMomentOf};

use dns_answers::Moment;
use dns_queries::Clock;
use std::io;
use std::time::{self, Duration, Instant};

/// A timer, which says how much time went by since it was started.
pub trait Timer {
    /// The time since it was started.
    fn elapsed(&self) -> Duration;
}

/// A clock whose moments are the whole seconds since it was started. It never goes back.
#[derive(Drop)]
pub struct RunClock<'a, R> {
    rt: &'a R,
    start: Instant,
}

/// The moment after so much time, which is 0 where its seconds are no moment.
fn moment_after(time: Duration) -> Moment
    ensures { IsMomentOf (as_nanos time) result }
{
    match Moment::new(time.as_secs()) {
        Some(moment) => moment,
        None => Moment::new(0).unwrap(),
    }
}

impl<'a, R: time::Clock> RunClock<'a, R> {
    /// Starts a clock.
    ///
    /// # Errors
    ///
    /// Those of the system's clock.
    pub fn start(rt: &'a R) -> io::Result<RunClock<'a, R>> {
        let start = Instant::now(rt)?;
        Ok(RunClock { rt, start })
    }
}

impl<'a, R: time::Clock> Timer for RunClock<'a, R> {
    /// None where the system's clock can't be read.
    fn elapsed(&self) -> Duration {
        self.start.elapsed(self.rt).unwrap_or(Duration::ZERO)
    }
}

impl<'a, R: time::Clock> Clock for RunClock<'a, R> {
    ghost use Rattle.std.specs.Prelude.{⊤};

    // Nothing is known of what the system says.
    ghost shows = { λ _. ⊤ };

    /// The seconds since the start; 0 where the system's clock can't be read.
    fn now(&self) -> Moment {
        moment_after(self.elapsed())
    }
}

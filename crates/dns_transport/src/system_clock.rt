//! The clock of the system.
ghost use Rattle.std.specs.Prelude.{◌≡◌, IfErr, IfOk};
ghost use Rattle.std.specs.Time.{system_time_nanos};
ghost use Rattle.dns_transport.specs.Clocks.{IsMomentOf};

use dns_answers::Moment;
use dns_queries::Clock;
use std::io;
use std::time::{self, SystemTime};

/// The clock of the system: its moments are seconds since the beginning of 1970.
#[derive(Drop)]
pub struct SystemClock<'a, R> {
    rt: &'a R,
}

impl<'a, R> SystemClock<'a, R> {
    /// The clock of this runtime.
    pub fn new(rt: &'a R) -> SystemClock<'a, R> {
        SystemClock { rt }
    }
}

/// The moment of a time, which is 0 where its seconds are no moment.
fn moment_at(time: SystemTime) -> Moment
    ensures { IsMomentOf (system_time_nanos time) result }
{
    match time.duration_since(SystemTime::UNIX_EPOCH) {
        Ok(since) => Moment::new(since.as_secs()).unwrap_or(beginning()),
        Err(_) => beginning(),
    }
}

/// The moment of a reading, which is 0 where there is none.
fn moment_of(reading: io::Result<SystemTime>) -> Moment
    ensures read { IfOk reading (λ time. IsMomentOf (system_time_nanos time) result) }
    ensures unread { IfErr reading (λ _. result ≡ 0) }
{
    match reading {
        Ok(time) => moment_at(time),
        Err(_) => beginning(),
    }
}

/// The moment 0.
fn beginning() -> Moment
    ensures { result ≡ 0 }
{
    Moment::new(0).unwrap()
}

impl<'a, R: time::Clock> Clock for SystemClock<'a, R> {
    ghost use Rattle.std.specs.Prelude.{⊤};

    // Nothing is known of what the system says.
    ghost shows = { λ _. ⊤ };

    fn now(&self) -> Moment {
        moment_of(SystemTime::now(self.rt))
    }
}

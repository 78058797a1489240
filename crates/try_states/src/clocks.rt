//! The clocks of the system.
use dns_queries::Clock;
use dns_transport::{RunClock, SystemClock, Timer};
use std::test::Fail;
use std::time::Duration;

/// The first second of 2024.
const BEGINNING_OF_2024: u64 = 1_704_067_200;

/// The system's clock goes: it shows seconds since 1970, and not the beginning.
#[test]
fn time_of_the_system(rt: HostRuntime) {
    assert!(rt; SystemClock::new(&rt).now().get() > BEGINNING_OF_2024);
}

/// A clock that was just started shows its first minute, and doesn't go back.
#[test]
fn time_since_a_start(rt: HostRuntime) -> Result<(), Fail> {
    let clock = RunClock::start(&rt)?;
    let first = clock.elapsed();
    let second = clock.elapsed();
    assert!(rt; first <= second && second < Duration::from_secs(60));
    assert!(rt; clock.now().get() < 60);
    Ok(())
}

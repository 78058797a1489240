//! A clock that counts milliseconds, read for a resolver that counts seconds.
ghost use Rattle.std.specs.Prelude.{◌≡◌, ◌↔◌, ◌/◌, ◌≤◌, ◌^◌, IfSome, None};
ghost use Rattle.rolling_resolver.specs.Instants.{IsRoundedUp, left_until};

use dns_answers::Moment;
use sip_resolver::rounded_up;

/// How many milliseconds a second has.
const SECOND: u64 = 1_000;

/// A time of the clock, in whole seconds.
#[derive(Clone, Copy)]
pub struct Instant {
    /// Rounded down: what lives until then lives still.
    pub second: Moment,
    /// Rounded up: what waits from then on waits no less than it should.
    pub asked: Moment,
}

/// The time at this number of milliseconds, unless that is 2^48 seconds or more.
pub fn instant_of(milliseconds: u64) -> Option<Instant>
    ensures second { IfSome result (λ it. it.second ≡ milliseconds / 1000) }
    ensures asked { IfSome result (λ it. IsRoundedUp milliseconds it.asked) }
    ensures none { (result ≡ None) ↔ (2 ^ 48 ≤ milliseconds / 1000) }
{
    let second = Moment::new(milliseconds / SECOND)?;
    let asked = if milliseconds % SECOND == 0 {
        second
    } else {
        rounded_up(second)
    };
    Some(Instant { second, asked })
}

/// How many milliseconds are left until this second; 0 where it is over.
pub fn left_until(second: u64, milliseconds: u64) -> u64
    ensures { result ≡ left_until second milliseconds }
{
    second.saturating_mul(SECOND).saturating_sub(milliseconds)
}

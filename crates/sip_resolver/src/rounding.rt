//! Moments of a clock that gives whole seconds.
ghost use Rattle.std.specs.Prelude.{◌≡◌, ◌+◌, ◌^◌, ◌<◌, ◌≤◌, max};

use dns_answers::Moment;

/// The time rounded up, by a clock that gives it rounded down: the next second. After the last
/// moment, 2^48 - 1 seconds, there is none, and that one stays.
#[must_use]
pub fn rounded_up(now: Moment) -> Moment
    ensures next { now + 1 < 2 ^ 48 → result ≡ now + 1 }
    ensures last { 2 ^ 48 ≤ now + 1 → result ≡ now }
{
    Moment::new(now.get() + 1).unwrap_or(now)
}

/// The later of two moments.
pub(crate) fn later_of(one: Moment, other: Moment) -> Moment
    ensures later { result ≡ max one other }
    ensures behind_one { one ≤ result }
    ensures behind_other { other ≤ result }
{
    if one.is_before(other) { other } else { one }
}

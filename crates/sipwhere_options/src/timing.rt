//! How often each question is sent, and for how long each query is waited for.
ghost use Rattle.std.specs.Prelude.{◌≡◌, ◌≤◌};
ghost use Rattle.sipwhere_options.specs.Timings as spec;

use crate::options::Options;
use dns_queries::Schedule;
use dns_transport::{Attempts, ReplyTimes};

/// The most queries for a question.
const COUNT_LIMIT: u64 = 15;

/// The most milliseconds that a query is waited for.
const TIME_LIMIT: u64 = 60_000;

/// The number that words say, or else the file, or else the usual one; from 1 to the limit.
fn number_by(word: Option<u32>, file: Option<u64>, usual: u64, limit: u64) -> u64
    requires { 1 ≤ limit }
    ensures is { result ≡ spec.number_by word file usual limit }
    ensures range { (1 ≤ result) × (result ≤ limit) }
{
    let number = match word {
        Some(number) => u64::from(number),
        None => file.unwrap_or(usual),
    };
    number.min(limit).max(1)
}

/// The milliseconds of seconds.
fn milliseconds_of(seconds: Option<u32>) -> Option<u64>
    ensures { result ≡ spec.milliseconds_of seconds }
{
    match seconds {
        Some(seconds) => Some(u64::from(seconds) * 1_000),
        None => None,
    }
}

/// How often each question is sent, and for how long each query is waited for: as words say, or
/// else as a file says, its timeout in seconds.
pub fn attempts_by(options: &Options<'_>, timeout: Option<u32>, sends: Option<u64>) -> Attempts
    ensures is { spec.AreAttempts options.now timeout sends result }
    ensures count { (1 ≤ result.count) × (result.count ≤ 15) }
    ensures time { (1 ≤ result.time) × (result.time ≤ 60_000) }
{
    let usual = Attempts::DEFAULT;
    let timing = options.timing;
    let count = number_by(timing.tries, sends, u64::from(usual.count), COUNT_LIMIT);
    let seconds = milliseconds_of(timeout);
    let time = number_by(timing.timeout, seconds, u64::from(usual.time), TIME_LIMIT);
    Attempts {
        count: count as u8,
        time: time as u32,
    }
}

/// How often a question is sent by a file that says how often each of these servers is asked.
pub fn sends_of(attempts: Option<u32>, servers: usize) -> Option<u64>
    ensures { result ≡ spec.sends_of attempts servers }
{
    match attempts {
        Some(count) => Some(u64::from(count).saturating_mul(servers as u64)),
        None => None,
    }
}

/// The schedule of a resolver over a wire that sends queries again by itself: as often, and each
/// time for the whole seconds in which the time of a query is over. So the wire gives a query up
/// first.
pub fn schedule_of(attempts: Attempts) -> Schedule
    ensures { attempts.time ≤ 60_000 → spec.IsScheduleOf attempts result }
{
    Schedule {
        sends: attempts.count,
        wait: attempts.time.div_ceil(1_000).min(60) as u8,
    }
}

/// How many milliseconds a reply is waited for, where queries are sent so: one over TCP for a
/// second more, for which a connection may have to be opened; and a datagram, whose reply may come
/// late, for as long as the query is sent.
pub fn reply_times_of(attempts: Attempts) -> ReplyTimes
    ensures { spec.AreReplyTimes attempts result }
{
    let time = u64::from(attempts.time);
    ReplyTimes {
        over_udp: u64::from(attempts.count) * time,
        over_tcp: time + 1_000,
    }
}

//! Requests of a proxy of four threads over one rolling cache, to 100,000 domains whose answers
//! live for a minute, by a clock that is made up: 100,000 requests a minute, drawn at random.
//!
//! Its word is a number of minutes. It prints lines of a name and a number: the milliseconds of the
//! run, and what was counted (`Counted`). Before these it prints a line for each generation
//! (`Resident`).
//!
//! All threads go through the same second, and each looks for another generation before each of its
//! requests. One reply of eight comes a second late, so that requests are inside as generations
//! change.
ghost use Rattle.std.specs.List.{All};
ghost use Rattle.rolling_cache.specs.Rolling.{IsSeatOf};

mod asked;
mod counted;
mod desk;
mod notes;
mod replies;
mod resident;

use crate::proxy::asked::new_words;
use crate::proxy::counted::Counted;
use crate::proxy::desk::Desk;
use crate::proxy::notes::{Load, QUESTIONS};
use crate::proxy::resident::Resident;
use dns_answers::Moment;
use rolling_cache::{RollingCache, RollingSeat};
use std::alloc::Global;
use std::rt::Files;
use std::sync::Wait;
use std::sync::atomic::AtomicU64;
use std::thread::{Threads, for_each_mut};
use std::time::{Clock, Instant};

/// How many threads there are.
const THREADS: usize = 4;

/// How many groups the cache has.
const GROUPS: u32 = 4_096;

/// How many seconds a minute has.
const MINUTE: u64 = 60;

/// How many requests each thread makes in a minute.
const REQUESTS: u64 = 25_000;

/// The second at which the run begins.
const BEGIN: u64 = 100;

/// How many seconds there are for the last replies: three questions of a request, each with a reply
/// that is late, and what has to be asked again.
const LAST_SECONDS: u64 = 8;

/// How many requests a thread makes in this second.
fn share_of(second: u64) -> u64 {
    let until = |second: u64| second.wrapping_mul(REQUESTS) / MINUTE;
    until(second.wrapping_add(1)).wrapping_sub(until(second))
}

/// A desk for each of these seats.
fn desks_of<'a>(
    alloc: Global,
    cache: &'a RollingCache,
    seats: Vec<RollingSeat>,
) -> Option<Vec<Desk<'a>>>
    requires { All (IsSeatOf cache.now) seats.items }
{
    let mut desks = Vec::new(alloc);
    let mut number = 0_u64;
    'seats: for seat in seats {
        let Some(desk) = Desk::new(alloc, number, cache, seat) else {
            return None;
        };
        if desks.push(desk).is_err() {
            return None;
        }
        number = number.wrapping_add(1);
    }
    Some(desks)
}

/// What a thread does in a second.
trait Second {
    /// Does it at its desk.
    fn pass<R: Wait + Clock + AllocGlobal>(&self, rt: &R, desk: &mut Desk<'_>);
}

impl Second for Load<'_> {
    fn pass<R: Wait + Clock + AllocGlobal>(&self, rt: &R, desk: &mut Desk<'_>) {
        desk.pass(rt, self);
    }
}

/// Lets all threads go through a second.
fn pass_by_all<R: Threads + Wait + Clock + AllocGlobal + Sync, S: Second + Sync>(
    rt: &R,
    second: &S,
    desks: &mut [Desk<'_>],
) {
    let job = |_at: usize, desk: &mut Desk<'_>| second.pass(rt, desk);
    for_each_mut(rt, desks, THREADS, &job);
}

/// The same with this load.
fn pass_second<R: Threads + Wait + Clock + AllocGlobal + Sync>(
    rt: &R,
    load: &Load<'_>,
    desks: &mut [Desk<'_>],
) {
    pass_by_all(rt, load, desks);
}

/// Lets all threads go through so many seconds, in each of which they make as many requests as in a
/// second of a minute, and prints what is resident.
fn pass_with_requests<R: Files + Threads + Wait + Clock + Print + AllocGlobal + Sync>(
    rt: &R,
    words: &[AtomicU64],
    desks: &mut [Desk<'_>],
    seconds: u64,
) -> Option<()> {
    let mut resident = Resident::at(0);
    for second in 0..seconds {
        let load = Load {
            words,
            now: Moment::new(second.wrapping_add(BEGIN))?,
            share: share_of(second),
        };
        pass_second(rt, &load, desks);
        resident = resident.after_second(rt, desks)?;
    }
    resident.print(rt)
}

/// Lets all threads go through the seconds after so many, in which they make no request.
fn pass_last<R: Threads + Wait + Clock + AllocGlobal + Sync>(
    rt: &R,
    words: &[AtomicU64],
    desks: &mut [Desk<'_>],
    seconds: u64,
) -> Option<()> {
    let from = seconds.wrapping_add(BEGIN);
    for second in 0..LAST_SECONDS {
        let load = Load {
            words,
            now: Moment::new(from.wrapping_add(second))?,
            share: 0,
        };
        pass_second(rt, &load, desks);
    }
    Some(())
}

/// Lets threads with these seats go through so many minutes, and gives what they counted.
fn counted_by<R: Files + Threads + Wait + Clock + Print + AllocGlobal + Sync>(
    rt: &R,
    cache: &RollingCache,
    seats: Vec<RollingSeat>,
    minutes: u64,
) -> Option<Counted>
    requires { All (IsSeatOf cache.now) seats.items }
{
    let mut desks = desks_of(rt.alloc(), cache, seats)?;
    let words = new_words(rt.alloc(), QUESTIONS).ok()?;
    let seconds = minutes.wrapping_mul(MINUTE);
    pass_with_requests(rt, words.as_slice(), desks.as_mut_slice(), seconds)?;
    pass_last(rt, words.as_slice(), desks.as_mut_slice(), seconds)?;
    let mut counted = Counted::nothing();
    for desk in desks.iter() {
        counted = counted.with(desk.counted());
    }
    Some(counted)
}

/// The same over a new cache.
fn counted_over_new<R: Files + Threads + Wait + Clock + Print + AllocGlobal + Sync>(
    rt: &R,
    minutes: u64,
) -> Option<Counted> {
    let now = Moment::new(BEGIN)?;
    match RollingCache::with_groups(rt.alloc(), THREADS, GROUPS, now) {
        Ok((cache, seats)) => counted_by(rt, &cache, seats, minutes),
        Err(_) => None,
    }
}

/// Prints what was counted.
fn print_counted<R: Print>(rt: &R, it: Counted) -> Option<()> {
    let lines = [
        ("requests", it.requests),
        ("targets", it.targets),
        ("others", it.others),
        ("queries", it.sent),
        ("sent_again", it.again),
        ("most", it.most),
        ("lost", it.lost),
        ("repeated", it.repeated),
        ("generations", it.begun),
        ("anew", it.anew),
        ("longest_change", it.longest),
    ];
    for (name, number) in lines {
        println!(rt; "{name}\t{number}").ok()?;
    }
    Some(())
}

/// Makes a run of as many minutes as the first word says, and prints what was measured.
pub(crate) fn run_words<R: Files + Threads + Wait + Clock + Print + AllocGlobal + Sync>(
    rt: &R,
    words: &[String],
) -> Option<()> {
    let minutes = words.first()?.as_str().parse::<u64>().ok()?;
    let start = Instant::now(rt).ok()?;
    let counted = counted_over_new(rt, minutes)?;
    let time = start.elapsed(rt).ok()?;
    println!(rt; "milliseconds\t{}", time.as_millis()).ok()?;
    print_counted(rt, counted)
}

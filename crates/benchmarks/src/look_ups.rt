//! How many look-ups threads make over one cache, alone and beside stores.
//!
//! It takes no word, and prints a line for each run: `wokhleas` where a look-up shares its answer,
//! and `wokhleas_lent` where it lends it, its questions, its threads, how many look-ups come before
//! each store (0 where nothing is stored), how many look-ups found an answer, and its microseconds.
ghost use Rattle.std.specs.Prelude.{IfSome};
ghost use Rattle.std.specs.List.{All};
ghost use Rattle.answer_cache.specs.Shared.{Belongs};

mod questions;

use crate::look_ups::questions::{Known, known_of};
use answer_cache::{AnswerBook, Seat, SharedCache, Stores};
use dns_answers::Moment;
use std::sync::Wait;
use std::thread::{Threads, map_vec};
use std::time::{Clock, Instant};

/// How many questions there are, and how many of them at most are in one group.
const QUESTIONS: [(usize, usize); 3] = [(1_000, 64), (4_096, 64), (64, 1)];

/// How many threads there are.
const THREADS: [usize; 3] = [1, 2, 4];

/// How many look-ups come before each store. 0 says that nothing is stored.
const PER_STORE: [usize; 2] = [0, 100];

/// How many look-ups a thread makes.
const LOOKUPS: usize = 64_000;

/// How many times each run is made.
const ROUNDS: usize = 15;

/// What threads look up and store, at one moment.
#[derive(Clone, Copy)]
struct Load<'a> {
    known: &'a [Known],
    now: Moment,
    per_store: usize,
    /// Whether a look-up lends its answer. Else it shares it, and counts that in the answer.
    is_lent: bool,
}

impl<'a> Load<'a> {
    /// What the look-up or the store of this number is of: one goes over all questions, not in
    /// their order.
    fn at(&self, number: usize) -> Option<&'a Known> {
        let place = number.wrapping_mul(7_919).checked_rem(self.known.len())?;
        self.known.get(place)
    }
}

/// Stores an answer.
fn store<R: Wait>(rt: &R, cache: &SharedCache, seat: &mut Seat, it: &Known, now: Moment)
    requires { Belongs cache.now seat.old }
    ensures { Belongs cache.now seat.new }
{
    if it.answer.records().kind() == it.question.kind {
        let _ = cache.store(rt, seat, &it.question, &it.answer, now);
    }
}

/// Stores all answers.
fn fill<R: Wait>(rt: &R, cache: &SharedCache, seat: &mut Seat, load: &Load<'_>)
    requires { Belongs cache.now seat.old }
    ensures { Belongs cache.now seat.new }
{
    'known: for it in load.known {
        store(rt, cache, seat, it, load.now);
    }
}

/// Whether a look-up finds an answer.
fn is_found(cache: &SharedCache, seat: &mut Seat, it: &Known, load: &Load<'_>) -> bool
    requires { Belongs cache.now seat.old }
    ensures { Belongs cache.now seat.new }
{
    if load.is_lent {
        return matches!(cache.look(seat, &it.question, load.now), Ok(Some(_)));
    }
    matches!(cache.lookup(seat, &it.question, load.now), Ok(Some(_)))
}

/// The look-ups of a thread, beside its stores: how many found an answer.
fn work<R: Wait>(rt: &R, cache: &SharedCache, seat: &mut Seat, load: &Load<'_>) -> u64
    requires { Belongs cache.now seat.old }
    ensures { Belongs cache.now seat.new }
{
    let now = load.now;
    let mut found = 0_u64;
    let mut next = seat.number().wrapping_mul(LOOKUPS / 4);
    let mut ahead = load.per_store;
    'lookups: for _lookup in 0..LOOKUPS {
        if let Some(it) = load.at(next) {
            if is_found(cache, seat, it, load) {
                found = found.wrapping_add(1);
            }
            if ahead == 1 {
                store(rt, cache, seat, it, now);
                ahead = load.per_store;
            } else {
                ahead = ahead.wrapping_sub(1);
            }
        }
        next = next.wrapping_add(1);
    }
    found
}

/// What was measured of a run.
#[derive(Clone, Copy)]
struct Measured {
    found: u64,
    microseconds: u128,
}

/// The last of the seats of a cache.
fn last_of(cache: &SharedCache, seats: &mut Vec<Seat>) -> Option<Seat>
    requires { All (Belongs cache.now) seats.old.items }
    ensures left { All (Belongs cache.now) seats.new.items }
    ensures last { IfSome result (Belongs cache.now) }
{
    seats.pop()
}

/// Stores all answers by the last of these seats, and takes that away.
fn fill_by_last<R: Wait>(rt: &R, cache: &SharedCache, seats: &mut Vec<Seat>, load: &Load<'_>)
    requires { All (Belongs cache.now) seats.old.items }
    ensures { All (Belongs cache.now) seats.new.items }
{
    if let Some(mut last) = last_of(cache, seats) {
        fill(rt, cache, &mut last, load);
    }
}

/// Of how many groups the cache is: of most questions there is at most one in a group.
const GROUPS: u32 = 4_096;

/// A cache with so many seats, which one more has filled.
fn filled<R: Wait + AllocGlobal>(
    rt: &R,
    load: &Load<'_>,
    threads: usize,
) -> Option<(SharedCache, Vec<Seat>)>
    ensures { IfSome result (λ made. All (Belongs made.0) made.1.items) }
{
    match SharedCache::with_groups(rt.alloc(), threads.saturating_add(1), GROUPS) {
        Ok((cache, mut seats)) => {
            fill_by_last(rt, &cache, &mut seats, load);
            Some((cache, seats))
        }
        Err(_) => None,
    }
}

/// How many look-ups of threads, each with one of these seats, found an answer.
fn found_by<R: Threads + Wait + Sync>(
    rt: &R,
    cache: &SharedCache,
    seats: Vec<Seat>,
    load: &Load<'_>,
) -> Option<u64>
    requires { All (Belongs cache.now) seats.items }
{
    let job = |seat: Seat| -> u64
        requires { Belongs cache.now seat }
    {
        let mut seat = seat;
        work(rt, cache, &mut seat, load)
    };
    match map_vec(rt, seats, &job) {
        Ok(found) => Some(
            found
                .iter()
                .fold(0_u64, |sum: u64, it| sum.wrapping_add(*it)),
        ),
        Err(_) => None,
    }
}

/// Measures the look-ups of these threads.
fn measure_by<R: Threads + Wait + Clock + Sync>(
    rt: &R,
    cache: &SharedCache,
    seats: Vec<Seat>,
    load: &Load<'_>,
) -> Option<Measured>
    requires { All (Belongs cache.now) seats.items }
{
    match Instant::now(rt) {
        Ok(start) => {
            let found = found_by(rt, cache, seats, load)?;
            let time = start.elapsed(rt).ok()?;
            Some(Measured {
                found,
                microseconds: time.as_micros(),
            })
        }
        Err(_) => None,
    }
}

/// Measures a run of so many threads.
fn measure<R: Threads + Wait + Clock + AllocGlobal + Sync>(
    rt: &R,
    load: &Load<'_>,
    threads: usize,
) -> Option<Measured> {
    match filled(rt, load, threads) {
        Some((cache, seats)) => measure_by(rt, &cache, seats, load),
        None => None,
    }
}

/// Measures a run, and prints it.
fn print_run<R: Threads + Wait + Clock + Print + AllocGlobal + Sync>(
    rt: &R,
    load: &Load<'_>,
    threads: usize,
) -> Option<()> {
    let it = measure(rt, load, threads)?;
    let name = if load.is_lent {
        "wokhleas_lent"
    } else {
        "wokhleas"
    };
    println!(rt;
        "{name} {} {threads} {} {} {}",
        load.known.len(),
        load.per_store,
        it.found,
        it.microseconds
    )
    .ok()
}

/// Measures a run again and again.
fn print_rounds<R: Threads + Wait + Clock + Print + AllocGlobal + Sync>(
    rt: &R,
    load: &Load<'_>,
    threads: usize,
) -> Option<()> {
    for _round in 0..ROUNDS {
        print_run(rt, load, threads)?;
    }
    Some(())
}

/// Measures all runs over the same questions.
fn print_load<R: Threads + Wait + Clock + Print + AllocGlobal + Sync>(
    rt: &R,
    known: &[Known],
    is_lent: bool,
) -> Option<()> {
    let now = Moment::new(100)?;
    for per_store in PER_STORE {
        for threads in THREADS {
            let load = Load {
                known,
                now,
                per_store,
                is_lent,
            };
            print_rounds(rt, &load, threads)?;
        }
    }
    Some(())
}

/// Measures all runs.
pub(crate) fn print_runs<R: Threads + Wait + Clock + Print + AllocGlobal + Sync>(
    rt: &R,
) -> Option<()> {
    for (count, in_group) in QUESTIONS {
        let known = known_of(rt.alloc(), count, in_group)?;
        print_load(rt, known.as_slice(), false)?;
        print_load(rt, known.as_slice(), true)?;
    }
    Some(())
}

//! How long runs of many workers take, over wires in memory to one zone.
//!
//! With a word it prints a line for each run: its requests, its workers, its milliseconds, how many
//! queries were sent, and how many requests have targets. Then come runs over a rolling cache that
//! last a hundred lives of the answers: `rolling`, the threads, the milliseconds, the queries, the
//! most queries of a thread in one life, and the requests with targets.
//!
//! The word `one` runs 10,000 requests by one worker alone, and `ready` makes all that such a run
//! takes and ends in front of it: what the two differ by is what the run itself costs
//! (`bench/compare_workers`).
ghost use Rattle.std.specs.List.{All};
ghost use Rattle.answer_cache.specs.Shared.{Belongs};

pub(crate) mod jobs;
mod rolling;
mod zone_text;

use crate::workers::jobs::jobs_of;
use crate::workers::rolling::resolve_by;
use crate::workers::zone_text::zone_text;
use answer_cache::{Notice, Seat, SharedCache};
use dns_answers::Moment;
use dns_queries::StandingClock;
use dns_zone::{Zone, ZoneWire};
use sip_workers::{Job, OpenGate, Outcome, run_workers};
use std::alloc::Global;
use std::sync::Wait;
use std::sync::atomic::{AtomicU64, Ordering};
use std::thread::Threads;
use std::time::{Clock, Instant};

/// The requests and the workers of each run.
const RUNS: [(u64, usize); 6] = [
    (2_000, 1),
    (2_000, 2),
    (2_000, 4),
    (10_000, 1),
    (10_000, 2),
    (10_000, 4),
];

/// How many jobs are in a batch.
const BATCH: usize = 8;

/// Whether an outcome has targets.
fn has_targets(outcome: &Outcome) -> bool {
    matches!(outcome, Outcome::Targets(_))
}

/// How many of these have targets.
fn with_targets(made: &[(Outcome, Notice)]) -> usize {
    let mut count = 0_usize;
    for (outcome, _) in made {
        if has_targets(outcome) {
            count = count.wrapping_add(1);
        }
    }
    count
}

/// What was measured of a run.
#[derive(Clone, Copy)]
struct Measured {
    milliseconds: u128,
    sent: u64,
    targets: usize,
}

/// What a run takes.
#[derive(Drop)]
struct Load<'a> {
    wires: Vec<ZoneWire<'a>>,
    jobs: Vec<Job>,
}

/// What a run of so many requests by so many workers takes.
fn load_of<'a>(
    alloc: Global,
    zone: &'a Zone,
    sent: &'a AtomicU64,
    requests: u64,
    workers: usize,
) -> Option<Load<'a>> {
    Some(Load {
        wires: ZoneWire::several(alloc, zone, sent, workers).ok()?,
        jobs: jobs_of(alloc, requests)?,
    })
}

/// What a run of these jobs gives with these seats of a cache, if it is not refused.
fn made_with<R: Threads + Wait + AllocGlobal + Sync>(
    rt: &R,
    cache: &SharedCache,
    seats: Vec<Seat>,
    load: Load<'_>,
) -> Option<Vec<(Outcome, Notice)>>
    requires { All (Belongs cache.now) seats.items }
{
    let Load { wires, jobs } = load;
    let clock = StandingClock {
        moment: Moment::new(100).unwrap(),
    };
    match run_workers(
        rt,
        rt.alloc(),
        cache,
        seats,
        wires,
        jobs,
        BATCH,
        &clock,
        &OpenGate,
    ) {
        Ok(made) => Some(made),
        Err(_) => None,
    }
}

/// Runs these jobs with these seats of a cache, and gives how many milliseconds have gone by from
/// the start, and how many of them have targets.
fn run_from<R: Threads + Wait + Clock + AllocGlobal + Sync>(
    rt: &R,
    start: Instant,
    cache: &SharedCache,
    seats: Vec<Seat>,
    load: Load<'_>,
) -> Option<(u128, usize)>
    requires { All (Belongs cache.now) seats.items }
{
    match made_with(rt, cache, seats, load) {
        Some(made) => match start.elapsed(rt) {
            Ok(time) => Some((time.as_millis(), with_targets(made.as_slice()))),
            Err(_) => None,
        },
        None => None,
    }
}

/// Runs these jobs over a new cache, and gives how many milliseconds that takes, and how many of
/// them have targets.
fn run<R: Threads + Wait + Clock + AllocGlobal + Sync>(
    rt: &R,
    load: Load<'_>,
) -> Option<(u128, usize)> {
    match SharedCache::new(rt.alloc(), load.wires.len()) {
        Ok((cache, seats)) => match Instant::now(rt) {
            Ok(start) => run_from(rt, start, &cache, seats, load),
            Err(_) => None,
        },
        Err(_) => None,
    }
}

/// Measures a run over new wires.
fn measure<R: Threads + Wait + Clock + AllocGlobal + Sync>(
    rt: &R,
    zone: &Zone,
    requests: u64,
    workers: usize,
) -> Option<Measured> {
    let alloc = rt.alloc();
    let sent = AtomicU64::new(0);
    let (milliseconds, targets) = run(rt, load_of(alloc, zone, &sent, requests, workers)?)?;
    Some(Measured {
        milliseconds,
        sent: sent.load(Ordering::SeqCst),
        targets,
    })
}

/// Measures a run, and prints it.
fn print_run<R: Threads + Wait + Clock + Print + AllocGlobal + Sync>(
    rt: &R,
    zone: &Zone,
    requests: u64,
    workers: usize,
) -> Option<()> {
    let it = measure(rt, zone, requests, workers)?;
    println!(rt;
        "{requests} {workers} {} {} {}",
        it.milliseconds, it.sent, it.targets
    )
    .ok()
}

/// How many threads there are in each run over a rolling cache.
const ROLLING: [usize; 2] = [1, 4];

/// Measures a run over a rolling cache, and prints it.
fn print_rolling<R: Threads + Wait + Clock + Print + AllocGlobal + Sync>(
    rt: &R,
    zone: &Zone,
    threads: usize,
) -> Option<()> {
    let start = Instant::now(rt).ok()?;
    let it = resolve_by(rt, zone, threads)?;
    let time = start.elapsed(rt).ok()?;
    println!(rt;
        "rolling {threads} {} {} {} {}",
        time.as_millis(),
        it.sent,
        it.most,
        it.targets
    )
    .ok()
}

/// The zone that all requests ask.
fn zone(alloc: Global) -> Option<Zone> {
    let text = zone_text(alloc).ok()?;
    Zone::read(alloc, text.as_str()).ok()
}

/// Makes what a run of 10,000 requests by one worker takes.
fn make_ready(alloc: Global, zone: &Zone) -> Option<()> {
    let sent = AtomicU64::new(0);
    let _load = load_of(alloc, zone, &sent, 10_000, 1)?;
    Some(())
}

/// Measures all runs, and prints them.
fn print_runs<R: Threads + Wait + Clock + Print + AllocGlobal + Sync>(
    rt: &R,
    zone: &Zone,
) -> Option<()> {
    for (requests, workers) in RUNS {
        print_run(rt, zone, requests, workers)?;
    }
    for threads in ROLLING {
        print_rolling(rt, zone, threads)?;
    }
    Some(())
}

/// Does what the word asks for.
fn perform<R: Threads + Wait + Clock + Print + AllocGlobal + Sync>(
    rt: &R,
    word: &str,
) -> Option<()> {
    let zone = zone(rt.alloc())?;
    match word {
        "one" => print_run(rt, &zone, 10_000, 1),
        "ready" => make_ready(rt.alloc(), &zone),
        _ => print_runs(rt, &zone),
    }
}

/// Does what the first word asks for, if there is one.
pub(crate) fn run_words<R: Threads + Wait + Clock + Print + AllocGlobal + Sync>(
    rt: &R,
    words: &[String],
) -> Option<()> {
    perform(rt, words.first()?.as_str())
}

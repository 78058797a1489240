//! Where the system refuses a thread: the run says so, and the next one has all its threads again.
ghost use Rattle.std.specs.List.{All};
ghost use Rattle.answer_cache.specs.Shared.{Belongs};

use crate::worker_jobs::{ZONE, clock_at_100};
use crate::workers_many::{each_goes, jobs_to_ports};
use answer_cache::{Notice, Seat, SharedCache};
use dns_zone::{Zone, ZoneWire};
use sip_workers::{OpenGate, Outcome, RunRefusal, run_workers};
use std::env;
use std::rt::Env;
use std::sync::Wait;
use std::sync::atomic::AtomicU64;
use std::thread::Threads;

/// The variable that says which thread is refused, counted from 1.
const REFUSED: &str = "REFUSE_THREAD";

/// How many workers a run has.
const WORKERS: u64 = 4;

/// Which thread is refused; 0 where none is.
fn refused_thread(rt: &(impl Env + AllocGlobal)) -> u64 {
    match env::var(rt, REFUSED) {
        Ok(text) => text.as_str().parse::<u64>().unwrap_or(0),
        Err(_) => 0,
    }
}

/// Whether this is one of the threads behind so many others.
fn is_behind(thread: u64, others: u64) -> bool {
    thread > others && thread - others <= WORKERS
}

/// How many jobs a run has.
const JOBS: usize = 40;

/// What a run of the jobs, in batches of one, gives with these seats of a cache, by a worker for
/// each wire; none without memory for the jobs.
fn run_with<R: Threads + Wait + AllocGlobal + Sync>(
    rt: &R,
    cache: &SharedCache,
    seats: Vec<Seat>,
    wires: Vec<ZoneWire<'_>>,
) -> Option<Result<Vec<(Outcome, Notice)>, RunRefusal>>
    requires { All (Belongs cache.now) seats.items }
{
    let (alloc, clock) = (rt.alloc(), clock_at_100());
    match jobs_to_ports(alloc, JOBS) {
        Some(jobs) => Some(run_workers(rt, alloc, cache, seats, wires, jobs, 1, &clock, &OpenGate)),
        None => None,
    }
}

/// The same over a new cache; none without memory for it.
fn run_over<R: Threads + Wait + AllocGlobal + Sync>(
    rt: &R,
    wires: Vec<ZoneWire<'_>>,
) -> Option<Result<Vec<(Outcome, Notice)>, RunRefusal>> {
    match SharedCache::new(rt.alloc(), wires.len()) {
        Ok((cache, seats)) => {
            let made = run_with(rt, &cache, seats, wires);
            drop(cache);
            made
        }
        Err(_) => None,
    }
}

/// Whether the jobs each go to their own ports; or whether the run is refused for want of a thread,
/// where one is refused.
fn are_right(made: &Result<Vec<(Outcome, Notice)>, RunRefusal>, refused: bool) -> bool {
    match made {
        Ok(made) => !refused && each_goes(made.as_slice(), JOBS),
        Err(refusal) => refused && *refusal == RunRefusal::NoThread,
    }
}

/// The same of a run over wires to this zone.
fn is_right_over<R: Threads + Wait + AllocGlobal + Sync>(
    rt: &R,
    zone: &Zone,
    refused: bool,
) -> Option<bool> {
    let sent = AtomicU64::new(0);
    match ZoneWire::several(rt.alloc(), zone, &sent, WORKERS as usize) {
        Ok(wires) => match run_over(rt, wires) {
            Some(made) => Some(are_right(&made, refused)),
            None => None,
        },
        Err(_) => None,
    }
}

/// The same of a run over wires to the zone.
fn is_right<R: Threads + Wait + AllocGlobal + Sync>(rt: &R, refused: bool) -> Option<bool> {
    match Zone::read(rt.alloc(), ZONE) {
        Ok(zone) => {
            let right = is_right_over(rt, &zone, refused);
            drop(zone);
            right
        }
        Err(_) => None,
    }
}

#[test]
fn two_runs(rt: HostRuntime) {
    let thread = refused_thread(&rt);
    for others in [0, WORKERS] {
        let refused = is_behind(thread, others);
        let right = is_right(&rt, refused);
        assert_eq!(rt; right, Some(true), "{thread} {others}");
    }
}

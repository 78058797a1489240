//! Workers: where memory is refused, each call says so, or has its answer all the same, and done
//! again it has it.
ghost use Rattle.std.specs.List.{All};
ghost use Rattle.answer_cache.specs.Shared.{Belongs};

use crate::worker_jobs::{TO_ADDRESS, TO_NAME, ZONE, goes_to, rises, two_jobs, zone_with};
use crate::workers::one_worker;
use answer_cache::{Notice, Seat, SharedCache};
use dns_answers::Moment;
use dns_queries::{Clock, Wire};
use dns_zone::{Zone, ZoneWire};
use sip_workers::{
    GatherRefusal, Job, JobResult, OpenGate, Outcome, RunRefusal, Worker, gather, run_workers,
};
use std::alloc::Global;
use std::sync::Wait;
use std::sync::atomic::{AtomicU64, Ordering};
use std::thread::Threads;

/// What a call says.
#[derive(Clone, Copy, Debug, PartialEq, Eq)]
enum Said {
    /// What it says with memory.
    Right,
    /// That memory was refused.
    Memory,
    Wrong,
}

/// Whether two calls, one after the other, say what is right, of which memory was refused to one at
/// most.
fn are_right(first: Said, second: Said) -> bool {
    match first {
        Said::Right => second != Said::Wrong,
        Said::Memory => second == Said::Right,
        Said::Wrong => false,
    }
}

/// What an outcome says.
fn said_by(outcome: &Outcome) -> Said {
    match outcome {
        Outcome::Memory => Said::Memory,
        _ if goes_to(outcome, 5070) => Said::Right,
        _ => Said::Wrong,
    }
}

/// What both of two say.
fn said_by_both(first: &Outcome, second: &Outcome) -> Said {
    match (said_by(first), said_by(second)) {
        (Said::Right, Said::Right) => Said::Right,
        (Said::Wrong, _) | (_, Said::Wrong) => Said::Wrong,
        _ => Said::Memory,
    }
}

/// A clock that moves on by a second with each 1,000 calls, so that a query is sent again whose
/// reply is lost for want of memory.
#[derive(Drop)]
struct CallClock {
    calls: AtomicU64,
}

impl Clock for CallClock {
    ghost use Rattle.std.specs.Prelude.{⊤};

    ghost shows = { λ _. ⊤ };

    fn now(&self) -> Moment {
        let calls = self.calls.fetch_add(1, Ordering::SeqCst);
        match Moment::new(calls / 1_000) {
            Some(moment) => moment,
            None => Moment::new(0).unwrap(),
        }
    }
}

/// Such a clock, which begins now.
fn call_clock() -> CallClock {
    CallClock {
        calls: AtomicU64::new(0),
    }
}

/// The result of a job.
type Made<'a, 'b> = JobResult<'a, ZoneWire<'b>, CallClock>;

/// Whether the copy of a result says the same, where there is memory for it.
fn copy_says_so(alloc: Global, it: &Made<'_, '_>) -> bool {
    match it.try_clone(alloc) {
        Ok(copy) => said_by(copy.outcome()) == said_by(it.outcome()),
        Err(_) => true,
    }
}

/// What the results of two jobs say, and their copies.
fn said_by_results(alloc: Global, made: &[Made<'_, '_>]) -> Said {
    match made {
        [first, second] if copy_says_so(alloc, first) && copy_says_so(alloc, second) => {
            said_by_both(first.outcome(), second.outcome())
        }
        _ => Said::Wrong,
    }
}

/// What a batch of two jobs says.
fn batch_says<R: Wait + AllocGlobal>(
    rt: &R,
    cache: &SharedCache,
    worker: &mut Worker<ZoneWire<'_>>,
    jobs: &[Job],
) -> Said
    requires { Belongs cache.now worker.old }
    ensures { Belongs cache.now worker.new }
{
    match worker.batch(rt, cache, jobs, &call_clock(), &OpenGate) {
        Ok(made) => said_by_results(rt.alloc(), made.as_slice()),
        Err(_) => Said::Memory,
    }
}

/// Whether two batches over this wire, one after the other, say what is right.
fn two_batches<R: Wait + AllocGlobal>(rt: &R, wire: ZoneWire<'_>, jobs: &[Job]) -> Option<bool> {
    match one_worker(rt.alloc(), wire) {
        Some((cache, mut worker)) => {
            let first = batch_says(rt, &cache, &mut worker, jobs);
            let second = batch_says(rt, &cache, &mut worker, jobs);
            drop(worker);
            drop(cache);
            Some(are_right(first, second))
        }
        None => None,
    }
}

/// The zone and the two jobs, where there is memory for both.
fn zone_and_jobs(alloc: Global) -> Option<(Zone, Vec<Job>)> {
    zone_with(alloc, ZONE, two_jobs(alloc, TO_NAME, TO_ADDRESS))
}

/// The same over a wire to the zone, where there is memory for it.
fn batches_are_right<R: Wait + AllocGlobal>(rt: &R) -> Option<bool> {
    match zone_and_jobs(rt.alloc()) {
        Some((zone, jobs)) => {
            let sent = AtomicU64::new(0);
            let right = two_batches(rt, ZoneWire::new(rt.alloc(), &zone, &sent), &jobs);
            drop(jobs);
            drop(zone);
            right
        }
        None => None,
    }
}

#[test]
fn batch_refused(rt: HostRuntime) {
    assert!(rt; batches_are_right(&rt) != Some(false));
}

/// What the parts of the results say that `gather` put in order.
fn said_by_parts(made: &[(Outcome, Notice)]) -> Said {
    match made {
        [first, second] => said_by_both(&first.0, &second.0),
        _ => Said::Wrong,
    }
}

/// What `gather` makes of results.
fn gather_says(alloc: Global, jobs: &[Job], made: Vec<Made<'_, '_>>) -> Said {
    if !rises(jobs) {
        return Said::Wrong;
    }
    match gather(alloc, jobs, made) {
        Ok(made) => said_by_parts(made.as_slice()),
        Err(GatherRefusal::Memory) => Said::Memory,
        Err(_) => Said::Wrong,
    }
}

/// What `gather` makes of the results of these jobs in one batch of a worker.
fn gathered_by<R: Wait + AllocGlobal>(
    rt: &R,
    cache: &SharedCache,
    worker: &mut Worker<ZoneWire<'_>>,
    jobs: &[Job],
) -> Option<Said>
    requires { Belongs cache.now worker.old }
{
    match worker.batch(rt, cache, jobs, &call_clock(), &OpenGate) {
        Ok(made) => Some(gather_says(rt.alloc(), jobs, made)),
        Err(_) => None,
    }
}

/// The same over this wire, where there is memory for a worker.
fn gathered_from<R: Wait + AllocGlobal>(rt: &R, wire: ZoneWire<'_>, jobs: &[Job]) -> Option<Said> {
    match one_worker(rt.alloc(), wire) {
        Some((cache, mut worker)) => {
            let said = gathered_by(rt, &cache, &mut worker, jobs);
            drop(worker);
            drop(cache);
            said
        }
        None => None,
    }
}

/// The same over a wire to the zone.
fn gathered<R: Wait + AllocGlobal>(rt: &R) -> Option<Said> {
    match zone_and_jobs(rt.alloc()) {
        Some((zone, jobs)) => {
            let sent = AtomicU64::new(0);
            let said = gathered_from(rt, ZoneWire::new(rt.alloc(), &zone, &sent), &jobs);
            drop(jobs);
            drop(zone);
            said
        }
        None => None,
    }
}

#[test]
fn gather_refused(rt: HostRuntime) {
    assert!(rt; gathered(&rt) != Some(Said::Wrong));
}

/// What a run of two jobs by two workers says, with these seats of a cache.
fn run_with<R: Threads + Wait + AllocGlobal + Sync>(
    rt: &R,
    cache: &SharedCache,
    seats: Vec<Seat>,
    wires: Vec<ZoneWire<'_>>,
    jobs: Vec<Job>,
) -> Said
    requires { All (Belongs cache.now) seats.items }
{
    let (alloc, clock) = (rt.alloc(), call_clock());
    match run_workers(rt, alloc, cache, seats, wires, jobs, 1, &clock, &OpenGate) {
        Ok(made) => said_by_parts(made.as_slice()),
        Err(RunRefusal::Memory | RunRefusal::NoThread) => Said::Memory,
        Err(_) => Said::Wrong,
    }
}

/// The same over a new cache, where there is memory for it.
fn run_says<R: Threads + Wait + AllocGlobal + Sync>(
    rt: &R,
    wires: Vec<ZoneWire<'_>>,
    jobs: Vec<Job>,
) -> Option<Said> {
    match SharedCache::new(rt.alloc(), 2) {
        Ok((cache, seats)) => {
            let said = run_with(rt, &cache, seats, wires, jobs);
            drop(cache);
            Some(said)
        }
        Err(_) => None,
    }
}

/// The same over wires to this zone.
fn run_over<R: Threads + Wait + AllocGlobal + Sync>(
    rt: &R,
    zone: &Zone,
    jobs: Vec<Job>,
) -> Option<Said> {
    let sent = AtomicU64::new(0);
    match ZoneWire::several(rt.alloc(), zone, &sent, 2) {
        Ok(wires) => run_says(rt, wires, jobs),
        Err(_) => None,
    }
}

/// The same over wires to the zone.
fn run_over_zone<R: Threads + Wait + AllocGlobal + Sync>(rt: &R) -> Option<Said> {
    match zone_and_jobs(rt.alloc()) {
        Some((zone, jobs)) => {
            let said = run_over(rt, &zone, jobs);
            drop(zone);
            said
        }
        None => None,
    }
}

#[test]
fn run_refused(rt: HostRuntime) {
    let first = run_over_zone(&rt).unwrap_or(Said::Memory);
    let second = run_over_zone(&rt).unwrap_or(Said::Memory);
    assert!(rt; are_right(first, second), "{first:?} {second:?}");
}

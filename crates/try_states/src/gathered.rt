//! Results that are put in the order of their jobs: those of two jobs, over a wire in memory.
ghost use Rattle.answer_cache.specs.Shared.{Belongs};

use crate::worker_jobs::{ZONE, clock_at_100, goes_to, rises, two_jobs, zone_with};
use crate::workers::one_worker;
use answer_cache::{Notice, SharedCache};
use dns_queries::StandingClock;
use dns_zone::ZoneWire;
use sip_workers::{GatherRefusal, Job, JobResult, OpenGate, Outcome, Worker, gather};
use std::alloc::Global;
use std::sync::Wait;
use std::sync::atomic::AtomicU64;

/// The result of a job.
type Made<'a, 'b> = JobResult<'a, ZoneWire<'b>, StandingClock>;

/// A copy of the result at a place.
fn copy_at<'a, 'b>(alloc: Global, made: &[Made<'a, 'b>], at: usize) -> Option<Made<'a, 'b>> {
    match made.get(at) {
        Some(it) => it.try_clone(alloc).ok(),
        None => None,
    }
}

/// Adds a copy to others, where there is one and memory for it.
fn push_copy<T: Drop>(all: &mut Vec<T>, copy: Option<T>) -> Option<()> {
    match copy {
        Some(copy) => all.push(copy).ok(),
        None => None,
    }
}

/// Copies of the results at these places.
fn picked<'a, 'b>(
    alloc: Global,
    made: &[Made<'a, 'b>],
    places: &[usize],
) -> Option<Vec<Made<'a, 'b>>> {
    let mut all = Vec::new(alloc);
    for at in places {
        push_copy(&mut all, copy_at(alloc, made, *at))?;
    }
    Some(all)
}

/// Whether these are what became of the two jobs, in order.
fn is_in_order(made: &[(Outcome, Notice)]) -> bool {
    match made {
        [first, second] => goes_to(&first.0, 5070) && goes_to(&second.0, 5080),
        _ => false,
    }
}

/// Whether what was gathered is in order.
fn is_gathered(all: Result<Vec<(Outcome, Notice)>, GatherRefusal>) -> Result<bool, GatherRefusal> {
    match all {
        Ok(all) => Ok(is_in_order(all.as_slice())),
        Err(refusal) => Err(refusal),
    }
}

/// What `gather` makes of copies of the results at these places, for these jobs.
fn gather_picked(
    alloc: Global,
    wanted: &[Job],
    made: &[Made<'_, '_>],
    places: &[usize],
) -> Option<Result<bool, GatherRefusal>> {
    if !rises(wanted) {
        return None;
    }
    match picked(alloc, made, places) {
        Some(results) => Some(is_gathered(gather(alloc, wanted, results))),
        None => None,
    }
}

/// The results of these jobs in one batch of a worker.
fn results_of<'a, 'b, R: Wait + AllocGlobal>(
    rt: &R,
    cache: &SharedCache,
    worker: &mut Worker<ZoneWire<'b>>,
    jobs: &'a [Job],
) -> Option<Vec<Made<'a, 'b>>>
    requires { Belongs cache.now worker.old }
{
    let clock = clock_at_100();
    worker.batch(rt, cache, jobs, &clock, &OpenGate).ok()
}

/// The results of these jobs in one batch over this wire.
fn results_over<'a, 'b, R: Wait + AllocGlobal>(
    rt: &R,
    wire: ZoneWire<'b>,
    jobs: &'a [Job],
) -> Option<Vec<Made<'a, 'b>>> {
    match one_worker(rt.alloc(), wire) {
        Some((cache, mut worker)) => results_of(rt, &cache, &mut worker, jobs),
        None => None,
    }
}

/// What `gather` makes of some of the results of these jobs, for the first so many of them.
fn gathered_over<R: Wait + AllocGlobal>(
    rt: &R,
    wire: ZoneWire<'_>,
    jobs: &[Job],
    count: usize,
    places: &[usize],
) -> Option<Result<bool, GatherRefusal>> {
    let wanted = jobs.get(..count)?;
    match results_over(rt, wire, jobs) {
        Some(made) => gather_picked(rt.alloc(), wanted, made.as_slice(), places),
        None => None,
    }
}

/// What `gather` makes of some of the results of two jobs, for the first so many of the jobs.
fn gathered<R: Wait + AllocGlobal>(
    rt: &R,
    count: usize,
    places: &[usize],
) -> Option<Result<bool, GatherRefusal>> {
    let alloc = rt.alloc();
    let jobs = two_jobs(alloc, "sip:a.example:5070", "sip:192.0.2.7:5080");
    match zone_with(alloc, ZONE, jobs) {
        Some((zone, jobs)) => {
            let sent = AtomicU64::new(0);
            let wire = ZoneWire::new(alloc, &zone, &sent);
            let all = gathered_over(rt, wire, &jobs, count, places);
            drop(jobs);
            drop(zone);
            all
        }
        None => None,
    }
}

#[test]
fn results_in_any_order(rt: HostRuntime) {
    assert_eq!(rt; gathered(&rt, 2, &[1, 0]), Some(Ok(true)));
}

#[test]
fn results_that_do_not_fit(rt: HostRuntime) {
    assert_eq!(rt;
        gathered(&rt, 2, &[0, 1, 0]),
        Some(Err(GatherRefusal::Double))
    );
    assert_eq!(rt; gathered(&rt, 2, &[0]), Some(Err(GatherRefusal::Missing)));
    assert_eq!(rt;
        gathered(&rt, 1, &[0, 1]),
        Some(Err(GatherRefusal::Stranger))
    );
    assert_eq!(rt;
        gathered(&rt, 1, &[0, 0, 1]),
        Some(Err(GatherRefusal::Double))
    );
}

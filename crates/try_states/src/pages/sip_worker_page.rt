//! The example of the page of `sip_worker`: two requests in one batch, over a wire in memory.
ghost use Rattle.std.specs.List.{All};
ghost use Rattle.std.specs.Prelude.{IfSome};
ghost use Rattle.answer_cache.specs.Shared.{Belongs};

use crate::seats::{both, last_of};
use crate::worker_jobs::{ZONE, clock_at_100, two_jobs, zone_with};
use answer_cache::{Seat, SharedCache};
use dns_queries::{StandingClock, Wire};
use dns_zone::{Zone, ZoneWire};
use sip_worker::{Job, JobResult, OpenGate, Outcome, Worker};
use std::alloc::Global;
use std::sync::Wait;
use std::sync::atomic::AtomicU64;

/// A worker over this wire, with its cache.
fn one_worker<W: Wire + Drop>(alloc: Global, wire: W) -> Option<(SharedCache, Worker<W>)>
    ensures { IfSome result (λ made. Belongs made.0 made.1) }
{
    let Ok((cache, mut seats)) = SharedCache::new(alloc, 1) else {
        return None;
    };
    let worker = worker_of(alloc, &cache, &mut seats, wire);
    drop(seats);
    both(Some(cache), worker)
}

/// A worker by the last of the seats of a cache.
fn worker_of<W: Wire + Drop>(
    alloc: Global,
    cache: &SharedCache,
    seats: &mut Vec<Seat>,
    wire: W,
) -> Option<Worker<W>>
    requires { All (Belongs cache.now) seats.old.items }
    ensures { IfSome result (Belongs cache.now) }
{
    // (the toolchain finds no proof of where the seat belongs by `pop`)
    // let worker = Worker::new(alloc, seats.pop()?, wire).ok()?;
    let worker = Worker::new(alloc, last_of(cache, seats)?, wire).ok()?;
    Some(worker)
}

/// Whether the request of this number goes to its port.
fn is_right(number: u64, outcome: &Outcome) -> bool {
    let port = if number == 1 { 5070 } else { 5060 };
    matches!(outcome, Outcome::Targets(list)
        if matches!(list.as_slice(), [target] if target.port == port))
}

/// Whether the copy of a result says that its request goes to its port.
fn copy_goes(alloc: Global, it: &JobResult<'_, ZoneWire<'_>, StandingClock>) -> bool {
    it.try_clone(alloc)
        .is_ok_and(|copy| is_right(copy.job().number, copy.outcome()))
}

/// Whether these requests all go to their ports, in one batch of this worker.
fn batch_goes<R: Wait + AllocGlobal>(
    rt: &R,
    cache: &SharedCache,
    worker: &mut Worker<ZoneWire<'_>>,
    jobs: &[Job],
    clock: StandingClock,
) -> Option<bool>
    requires { Belongs cache.now worker.old }
{
    let made = worker.batch(rt, cache, jobs, &clock, &OpenGate).ok()?;
    // each job has what became of it: its targets, a refusal by name, or why there is no answer
    Some(made.iter().all(|it| copy_goes(rt.alloc(), it)))
}

/// The same of a new worker over this wire.
fn all_go_at_once<R: Wait + AllocGlobal>(
    rt: &R,
    wire: ZoneWire<'_>,
    jobs: &[Job],
    clock: StandingClock,
) -> Option<bool> {
    match one_worker(rt.alloc(), wire) {
        Some((cache, mut worker)) => batch_goes(rt, &cache, &mut worker, jobs, clock),
        None => None,
    }
}

/// The same over the zone.
fn over_zone<R: Wait + AllocGlobal>(rt: &R, zone: &Zone, jobs: &[Job]) -> Option<bool> {
    let sent = AtomicU64::new(0);
    let wire = ZoneWire::new(rt.alloc(), zone, &sent);
    all_go_at_once(rt, wire, jobs, clock_at_100())
}

/// The same of two requests: to a name and to an address.
fn example<R: Wait + AllocGlobal>(rt: &R) -> Option<bool> {
    let jobs = two_jobs(rt.alloc(), "sip:a.example:5070", "sip:192.0.2.7");
    match zone_with(rt.alloc(), ZONE, jobs) {
        Some((zone, jobs)) => {
            let all = over_zone(rt, &zone, jobs.as_slice());
            drop(jobs);
            drop(zone);
            all
        }
        None => None,
    }
}

#[test]
fn both_requests_end(rt: HostRuntime) {
    assert_eq!(rt; example(&rt), Some(true));
}

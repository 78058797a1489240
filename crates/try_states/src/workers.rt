//! What the tests of workers share.
ghost use Rattle.std.specs.List.{All};
ghost use Rattle.std.specs.Prelude.{IfSome};
ghost use Rattle.answer_cache.specs.Shared.{Belongs};

use crate::seats::{both, last_of};
use crate::worker_jobs::{job_of, push_job};
use answer_cache::{Seat, SharedCache};
use dns_queries::Wire;
use sip_workers::{Job, Worker};
use std::alloc::Global;

/// One job over UDP and IPv4 alone.
pub(crate) fn one_job(alloc: Global, text: &str) -> Option<Vec<Job>> {
    let mut jobs = Vec::new(alloc);
    push_job(&mut jobs, job_of(alloc, 1, text))?;
    Some(jobs)
}

/// A worker by a seat, over this wire.
fn worker_of<W: Wire + Drop>(
    alloc: Global,
    cache: &SharedCache,
    seat: Seat,
    wire: W,
) -> Option<Worker<W>>
    requires { Belongs cache.now seat }
    ensures { IfSome result (Belongs cache.now) }
{
    match Worker::new(alloc, seat, wire) {
        Ok(worker) => Some(worker),
        Err(_) => None,
    }
}

/// A worker by the last of the seats of a cache, over this wire.
fn worker_by_last<W: Wire + Drop>(
    alloc: Global,
    cache: &SharedCache,
    mut seats: Vec<Seat>,
    wire: W,
) -> Option<Worker<W>>
    requires { All (Belongs cache.now) seats.items }
    ensures { IfSome result (Belongs cache.now) }
{
    let seat = last_of(cache, &mut seats);
    drop(seats);
    match both(seat, Some(wire)) {
        Some((seat, wire)) => worker_of(alloc, cache, seat, wire),
        None => None,
    }
}

/// A worker over this wire, with its cache.
pub(crate) fn one_worker<W: Wire + Drop>(alloc: Global, wire: W) -> Option<(SharedCache, Worker<W>)>
    ensures { IfSome result (λ made. Belongs made.0 made.1) }
{
    match SharedCache::new(alloc, 1) {
        Ok((cache, seats)) => {
            let worker = worker_by_last(alloc, &cache, seats, wire);
            both(Some(cache), worker)
        }
        Err(_) => None,
    }
}

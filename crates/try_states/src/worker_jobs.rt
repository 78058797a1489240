//! Jobs of workers, runs of these, and where they go.
ghost use Rattle.std.specs.List.{All};
ghost use Rattle.std.specs.Prelude.{Decides};
ghost use Rattle.sip_workers.specs.Runs.{Rises};
ghost use Rattle.answer_cache.specs.Shared.{Belongs};

use crate::seats::both;
use answer_cache::{Notice, Seat, SharedCache};
use dns_answers::Moment;
use dns_queries::{Clock, StandingClock, Wire};
use dns_zone::Zone;
use sip_selection::{Caps, Families, Request, Target};
use sip_uri::Transport::Udp;
use sip_uri::{Address, read_uri};
use sip_workers::{Gate, Job, Outcome, run_workers};
use srv_choice::{WORD_COUNT, Words};
use std::alloc::Global;
use std::sync::Wait;
use std::thread::Threads;

/// A zone with one address.
pub(crate) const ZONE: &str = "a.example. 300 A 192.0.2.7";

/// A request to the name in it, and one to its address.
pub(crate) const TO_NAME: &str = "sip:a.example:5070";

pub(crate) const TO_ADDRESS: &str = "sip:192.0.2.7:5070";

/// Random words, of which a request to a host with a port uses none.
pub(crate) const WORDS: Words = Words([0; WORD_COUNT]);

/// Where these go, at this port.
fn target_at(port: u16) -> Target {
    Target {
        transport: Udp,
        address: Address::V4([192, 0, 2, 7]),
        port,
    }
}

/// Whether a request goes to the one target, at this port.
pub(crate) fn goes_to(outcome: &Outcome, port: u16) -> bool {
    matches!(outcome, Outcome::Targets(list) if list.as_slice() == [target_at(port)].as_slice())
}

/// Whether all of these go to the one target, at this port.
pub(crate) fn all_go_to(made: &[(Outcome, Notice)], port: u16) -> bool {
    made.iter().all(|it| goes_to(&it.0, port))
}

/// A job of a sender, where there is memory for it.
pub(crate) fn job_by(alloc: Global, number: u64, text: &str, caps: Caps) -> Option<Job> {
    match read_uri(alloc, text) {
        Ok(uri) => Some(Job {
            number,
            request: Request::Uri(uri),
            caps,
            words: WORDS,
        }),
        Err(_) => None,
    }
}

/// A job over UDP and IPv4 alone, where there is memory for it.
pub(crate) fn job_of(alloc: Global, number: u64, text: &str) -> Option<Job> {
    job_by(alloc, number, text, Caps::new(&[Udp], Families::V4)?)
}

/// Adds a job to others, where there is one and memory for it.
pub(crate) fn push_job(jobs: &mut Vec<Job>, job: Option<Job>) -> Option<()> {
    match job {
        Some(job) => jobs.push(job).ok(),
        None => None,
    }
}

/// Such a job for each of these texts, numbered from 0.
pub(crate) fn jobs_to(alloc: Global, texts: &[&str]) -> Option<Vec<Job>> {
    let mut jobs = Vec::new(alloc);
    for text in texts {
        let number = jobs.len() as u64;
        push_job(&mut jobs, job_of(alloc, number, text))?;
    }
    Some(jobs)
}

/// Two such jobs, of the numbers 1 and 2.
pub(crate) fn two_jobs(alloc: Global, first: &str, second: &str) -> Option<Vec<Job>> {
    let mut jobs = Vec::new(alloc);
    push_job(&mut jobs, job_of(alloc, 1, first))?;
    push_job(&mut jobs, job_of(alloc, 2, second))?;
    Some(jobs)
}

/// The zone of a text, with these jobs, where there are both.
pub(crate) fn zone_with(
    alloc: Global,
    text: &str,
    jobs: Option<Vec<Job>>,
) -> Option<(Zone, Vec<Job>)> {
    match Zone::read(alloc, text) {
        Ok(zone) => both(Some(zone), jobs),
        Err(_) => None,
    }
}

/// Whether the number of each job is below the number of the next.
pub(crate) fn rises(jobs: &[Job]) -> bool
    ensures { Decides result (Rises jobs.now) }
{
    jobs.is_sorted_by(|first, second| first.number < second.number)
}

/// A clock that stands at the moment 100.
pub(crate) fn clock_at_100() -> StandingClock {
    StandingClock {
        moment: Moment::new(100).unwrap(),
    }
}

/// What a run with these seats of a cache gives, by a worker for each wire, if it is not refused.
pub(crate) fn made_with<
    R: Threads + Wait + AllocGlobal + Sync,
    W: Wire + Drop + Send,
    C: Clock + Sync,
    G: Gate + Sync,
>(
    rt: &R,
    cache: &SharedCache,
    seats: Vec<Seat>,
    wires: Vec<W>,
    jobs: Vec<Job>,
    batch: usize,
    clock: &C,
    gate: &G,
) -> Option<Vec<(Outcome, Notice)>>
    requires { All (Belongs cache.now) seats.items }
{
    match run_workers(
        rt,
        rt.alloc(),
        cache,
        seats,
        wires,
        jobs,
        batch,
        clock,
        gate,
    ) {
        Ok(made) => Some(made),
        Err(_) => None,
    }
}

/// The same over a new cache.
pub(crate) fn made_by<
    R: Threads + Wait + AllocGlobal + Sync,
    W: Wire + Drop + Send,
    C: Clock + Sync,
    G: Gate + Sync,
>(
    rt: &R,
    wires: Vec<W>,
    jobs: Vec<Job>,
    batch: usize,
    clock: &C,
    gate: &G,
) -> Option<Vec<(Outcome, Notice)>> {
    match SharedCache::new(rt.alloc(), wires.len()) {
        Ok((cache, seats)) => made_with(rt, &cache, seats, wires, jobs, batch, clock, gate),
        Err(_) => None,
    }
}

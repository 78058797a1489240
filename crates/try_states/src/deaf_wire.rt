//! A wire that fails at once in each receive.
ghost use Rattle.answer_cache.specs.Shared.{Belongs};

use crate::workers::{one_job, one_worker};
use answer_cache::SharedCache;
use dns_queries::{Clock, DATAGRAM_LIMIT, Wire, WireFault};
use dns_transport::RunClock;
use sip_workers::{Gate, Job, Outcome, Worker};
use std::sync::Wait;
use std::sync::atomic::{AtomicU64, Ordering};
use std::time;

/// A wire that loses what is sent, and fails where something is to be received.
#[derive(Drop)]
struct DeafWire<'a> {
    failures: u64,
    /// How often something was to be received.
    receives: &'a AtomicU64,
}

impl<'a> Wire for DeafWire<'a> {
    ghost gives = { λ _. ⊥ };

    ghost failed = { λ it. it.failures };

    fn send(&mut self, _octets: &[u8]) -> Result<(), WireFault> {
        Ok(())
    }

    fn receive(&mut self, _buffer: &mut [u8; DATAGRAM_LIMIT]) -> Result<Option<usize>, WireFault> {
        self.receives.fetch_add(1, Ordering::SeqCst);
        self.failures += 1;
        Err(WireFault)
    }

    fn failures(&self) -> u64 {
        self.failures
    }
}

/// A gate that counts the calls for the one job.
#[derive(Drop)]
struct Counts {
    begun: AtomicU64,
    answered: AtomicU64,
    /// How many were answered before they had begun.
    early: AtomicU64,
}

/// A gate that has counted nothing.
fn counting_gate() -> Counts {
    Counts {
        begun: AtomicU64::new(0),
        answered: AtomicU64::new(0),
        early: AtomicU64::new(0),
    }
}

impl Gate for Counts {
    fn begun(&self, number: u64) {
        self.begun.fetch_add(number, Ordering::SeqCst);
    }

    fn answered(&self, number: u64) {
        if self.begun.load(Ordering::SeqCst) == 0 {
            self.early.fetch_add(number, Ordering::SeqCst);
        }
        self.answered.fetch_add(number, Ordering::SeqCst);
    }
}

/// Whether the one job has no answer.
fn has_no_answer<R: Wait + AllocGlobal, C: Clock, G: Gate>(
    rt: &R,
    cache: &SharedCache,
    worker: &mut Worker<DeafWire<'_>>,
    jobs: &[Job],
    clock: &C,
    gate: &G,
) -> bool
    requires { Belongs cache.now worker.old }
{
    let Ok(made) = worker.batch(rt, cache, jobs, clock, gate) else {
        return false;
    };
    made.iter()
        .all(|it| matches!(it.outcome(), Outcome::NoAnswer(_)))
}

/// Whether these jobs have no answer over such a wire; false where there is no memory for a worker.
fn have_no_answer<R: Wait + AllocGlobal, C: Clock, G: Gate>(
    rt: &R,
    wire: DeafWire<'_>,
    jobs: &[Job],
    clock: &C,
    gate: &G,
) -> bool {
    match one_worker(rt.alloc(), wire) {
        Some((cache, mut worker)) => has_no_answer(rt, &cache, &mut worker, jobs, clock, gate),
        None => false,
    }
}

/// Whether job 1 over such a wire has no answer, and how often something was to be received.
fn deaf_run<R: Wait + AllocGlobal + time::Clock, G: Gate>(rt: &R, gate: &G) -> Option<(bool, u64)> {
    let clock = RunClock::start(rt).ok()?;
    let jobs = one_job(rt.alloc(), "sip:a.example:5070")?;
    let receives = AtomicU64::new(0);
    let wire = DeafWire {
        failures: 0,
        receives: &receives,
    };
    let ended = have_no_answer(rt, wire, &jobs, &clock, gate);
    Some((ended, receives.load(Ordering::SeqCst)))
}

/// In its six seconds the worker receives some hundreds of times, and not as often as it can. The
/// gate is told once that the job began, and once that it was answered, though it was given up.
#[test]
fn faults_keep_no_processor_at_work(rt: HostRuntime) {
    let gate = counting_gate();
    let seen = deaf_run(&rt, &gate);
    assert!(rt; matches!(seen, Some((true, receives)) if 20 < receives && receives < 1_000));
    assert_eq!(rt; gate.begun.load(Ordering::SeqCst), 1);
    assert_eq!(rt; gate.answered.load(Ordering::SeqCst), 1);
    assert_eq!(rt; gate.early.load(Ordering::SeqCst), 0);
}

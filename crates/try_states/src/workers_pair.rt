//! Two jobs by one worker, and by two at once, over wires in memory to one zone.
use crate::worker_jobs::{TO_ADDRESS, TO_NAME, ZONE, all_go_to, clock_at_100, jobs_to, made_by};
use dns_zone::{Zone, ZoneWire};
use sip_workers::{Gate, Job};
use std::sync::Wait;
use std::sync::atomic::{AtomicU64, Ordering};
use std::thread::Threads;

/// How many turns a request waits for another one.
const TURNS: u32 = 100_000_000;

/// A gate that holds each request until so many have begun, and counts those that saw it.
#[derive(Drop)]
struct Meeting {
    wanted: u64,
    begun: AtomicU64,
    met: AtomicU64,
}

impl Gate for Meeting {
    fn begun(&self, _number: u64) {
        self.begun.fetch_add(1, Ordering::SeqCst);
        for _ in 0..TURNS {
            if self.begun.load(Ordering::SeqCst) >= self.wanted {
                self.met.fetch_add(1, Ordering::SeqCst);
                return;
            }
        }
    }

    fn answered(&self, _number: u64) {}
}

/// A gate that holds each request until so many have begun.
fn gate_for(wanted: u64) -> Meeting {
    Meeting {
        wanted,
        begun: AtomicU64::new(0),
        met: AtomicU64::new(0),
    }
}

/// Whether these jobs, in batches of one, all go to the target.
fn all_go<R: Threads + Wait + AllocGlobal + Sync>(
    rt: &R,
    wires: Vec<ZoneWire<'_>>,
    jobs: Vec<Job>,
    gate: &Meeting,
) -> Option<bool> {
    match made_by(rt, wires, jobs, 1, &clock_at_100(), gate) {
        Some(made) => Some(all_go_to(made.as_slice(), 5070)),
        None => None,
    }
}

/// Whether two jobs do so by so many workers over wires to a zone.
fn both_go<R: Threads + Wait + AllocGlobal + Sync>(
    rt: &R,
    zone: &Zone,
    sent: &AtomicU64,
    workers: usize,
    second: &str,
    gate: &Meeting,
) -> Option<bool> {
    match jobs_to(rt.alloc(), &[TO_NAME, second]) {
        Some(jobs) => match ZoneWire::several(rt.alloc(), zone, sent, workers) {
            Ok(wires) => all_go(rt, wires, jobs, gate),
            Err(_) => None,
        },
        None => None,
    }
}

/// The same, and how many datagrams were sent.
fn run_two<R: Threads + Wait + AllocGlobal + Sync>(
    rt: &R,
    workers: usize,
    second: &str,
    gate: &Meeting,
) -> Option<(bool, u64)> {
    match Zone::read(rt.alloc(), ZONE) {
        Ok(zone) => {
            let sent = AtomicU64::new(0);
            match both_go(rt, &zone, &sent, workers, second, gate) {
                Some(all) => Some((all, sent.load(Ordering::SeqCst))),
                None => None,
            }
        }
        Err(_) => None,
    }
}

#[test]
fn what_one_job_learns_serves_the_next(rt: HostRuntime) {
    assert_eq!(rt; run_two(&rt, 1, TO_NAME, &gate_for(1)), Some((true, 1)));
}

#[test]
fn workers_run_at_once(rt: HostRuntime) {
    let gate = gate_for(2);
    assert_eq!(rt; run_two(&rt, 2, TO_ADDRESS, &gate), Some((true, 1)));
    assert_eq!(rt; gate.met.load(Ordering::SeqCst), 2);
}

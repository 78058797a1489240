//! Many jobs in batches of one, by one worker and by more.
use crate::worker_jobs::{ZONE, clock_at_100, goes_to, job_of, made_by, push_job};
use answer_cache::Notice;
use dns_queries::Wire;
use dns_zone::{Zone, ZoneWire};
use sip_workers::{Gate, Job, OpenGate, Outcome};
use std::alloc::Global;
use std::sync::Wait;
use std::sync::atomic::{AtomicU64, Ordering};
use std::thread::Threads;

/// A gate that counts the calls for eight numbers in a row, in four bits for each number.
#[derive(Drop)]
struct Counts {
    begun: AtomicU64,
    answered: AtomicU64,
    /// How many were answered before they had begun.
    early: AtomicU64,
}

/// A gate that has counted nothing.
fn counting_gate() -> Counts {
    Counts {
        begun: AtomicU64::new(0),
        answered: AtomicU64::new(0),
        early: AtomicU64::new(0),
    }
}

/// One, in the four bits of a number.
fn unit(number: u64) -> u64 {
    1u64.wrapping_shl(4 * (number % 8) as u32)
}

impl Gate for Counts {
    fn begun(&self, number: u64) {
        self.begun.fetch_add(unit(number), Ordering::SeqCst);
    }

    fn answered(&self, number: u64) {
        if self.begun.load(Ordering::SeqCst) & unit(number) == 0 {
            self.early.fetch_add(1, Ordering::SeqCst);
        }
        self.answered.fetch_add(unit(number), Ordering::SeqCst);
    }
}

/// The number of the first request: no number of 32 bits.
const FIRST: u64 = 1 << 40;

/// The port of the request at this place.
fn port_at(place: usize) -> u16 {
    5060 + (place % 100) as u16
}

/// A request to the name in the zone, to this port.
fn job_to_port(alloc: Global, number: u64, port: u16) -> Option<Job> {
    match format!(in alloc; "sip:a.example:{port}") {
        Ok(text) => job_of(alloc, number, text.as_str()),
        Err(_) => None,
    }
}

/// So many requests to the name in the zone, each to a port of its own.
pub(crate) fn jobs_to_ports(alloc: Global, count: usize) -> Option<Vec<Job>> {
    let mut jobs = Vec::new(alloc);
    for place in 0..count {
        push_job(
            &mut jobs,
            job_to_port(alloc, FIRST.wrapping_add(place as u64), port_at(place)),
        )?;
    }
    Some(jobs)
}

/// Whether these are so many, and each goes to its own port.
pub(crate) fn each_goes(made: &[(Outcome, Notice)], count: usize) -> bool {
    made.len() == count
        && made
            .iter()
            .enumerate()
            .all(|(place, it)| goes_to(&it.0, port_at(place)))
}

/// Whether so many requests each go to their own ports in a run with batches of this size, by a
/// worker for each wire.
pub(crate) fn all_go_over<
    R: Threads + Wait + AllocGlobal + Sync,
    W: Wire + Drop + Send,
    G: Gate + Sync,
>(rt: &R, wires: Vec<W>, count: usize, batch: usize, gate: &G) -> Option<bool> {
    match jobs_to_ports(rt.alloc(), count) {
        Some(jobs) => match made_by(rt, wires, jobs, batch, &clock_at_100(), gate) {
            Some(made) => Some(each_goes(made.as_slice(), count)),
            None => None,
        },
        None => None,
    }
}

/// Whether so many requests each go to their own ports, in batches of one, by so many workers that
/// ask a zone.
fn all_go_to<R: Threads + Wait + AllocGlobal + Sync, G: Gate + Sync>(
    rt: &R,
    zone: &Zone,
    workers: usize,
    count: usize,
    gate: &G,
) -> Option<bool> {
    let sent = AtomicU64::new(0);
    match ZoneWire::several(rt.alloc(), zone, &sent, workers) {
        Ok(wires) => all_go_over(rt, wires, count, 1, gate),
        Err(_) => None,
    }
}

/// The same of the zone of one name.
fn all_go_by<R: Threads + Wait + AllocGlobal + Sync, G: Gate + Sync>(
    rt: &R,
    workers: usize,
    count: usize,
    gate: &G,
) -> Option<bool> {
    match Zone::read(rt.alloc(), ZONE) {
        Ok(zone) => {
            let all = all_go_to(rt, &zone, workers, count, gate);
            drop(zone);
            all
        }
        Err(_) => None,
    }
}

#[test]
fn forty_jobs_by_any_workers(rt: HostRuntime) {
    assert_eq!(rt; all_go_by(&rt, 1, 40, &OpenGate), Some(true));
    assert_eq!(rt; all_go_by(&rt, 2, 40, &OpenGate), Some(true));
    assert_eq!(rt; all_go_by(&rt, 4, 40, &OpenGate), Some(true));
}

#[test]
fn each_begins_and_is_answered_once(rt: HostRuntime) {
    let gate = counting_gate();
    assert_eq!(rt; all_go_by(&rt, 2, 8, &gate), Some(true));
    assert_eq!(rt; gate.begun.load(Ordering::SeqCst), 0x1111_1111);
    assert_eq!(rt; gate.answered.load(Ordering::SeqCst), 0x1111_1111);
    assert_eq!(rt; gate.early.load(Ordering::SeqCst), 0);
}

//! The ids of a worker's queries, over a wire that counts along.
ghost use Rattle.answer_cache.specs.Shared.{Belongs};

use crate::worker_jobs::{clock_at_100, goes_to, jobs_to, zone_with};
use crate::workers::one_worker;
use answer_cache::SharedCache;
use dns_queries::{DATAGRAM_LIMIT, Wire, WireFault};
use dns_zone::{Zone, ZoneWire};
use sip_workers::{Job, OpenGate, Worker};
use std::sync::Wait;
use std::sync::atomic::{AtomicU64, Ordering};

/// A request to each of ten names.
const REQUESTS: [&str; 10] = [
    "sip:a0.example:5070",
    "sip:a1.example:5070",
    "sip:a2.example:5070",
    "sip:a3.example:5070",
    "sip:a4.example:5070",
    "sip:a5.example:5070",
    "sip:a6.example:5070",
    "sip:a7.example:5070",
    "sip:a8.example:5070",
    "sip:a9.example:5070",
];

/// Their addresses. An answer of no life is asked for in each batch (RFC 1035 3.2.1).
const ADDRESSES: &str = "\
a0.example. 0 A 192.0.2.7
a1.example. 0 A 192.0.2.7
a2.example. 0 A 192.0.2.7
a3.example. 0 A 192.0.2.7
a4.example. 0 A 192.0.2.7
a5.example. 0 A 192.0.2.7
a6.example. 0 A 192.0.2.7
a7.example. 0 A 192.0.2.7
a8.example. 0 A 192.0.2.7
a9.example. 0 A 192.0.2.7
";

/// A wire to a zone, which compares the id of each query (RFC 1035 4.1.1) with how many were sent
/// before it, modulo 65,536.
#[derive(Drop)]
struct CountingWire<'a> {
    wire: ZoneWire<'a>,
    next: u16,
    /// How many queries have another id.
    others: &'a AtomicU64,
}

impl<'a> Wire for CountingWire<'a> {
    ghost use Rattle.dns_zone.specs.ZoneWires.{IsReply};

    ghost gives = { IsReply };

    ghost failed = { λ _. 0 };

    fn send(&mut self, octets: &[u8]) -> Result<(), WireFault> {
        if !octets.starts_with(&self.next.to_be_bytes()) {
            self.others.fetch_add(1, Ordering::SeqCst);
        }
        self.next = self.next.wrapping_add(1);
        self.wire.send(octets)
    }

    fn receive(&mut self, buffer: &mut [u8; DATAGRAM_LIMIT]) -> Result<Option<usize>, WireFault> {
        self.wire.receive(buffer)
    }

    fn failures(&self) -> u64 {
        0
    }
}

/// Whether all these jobs go to the target in one batch.
fn batch_goes<R: Wait + AllocGlobal>(
    rt: &R,
    cache: &SharedCache,
    worker: &mut Worker<CountingWire<'_>>,
    jobs: &[Job],
) -> bool
    requires { Belongs cache.now worker.old }
    ensures { Belongs cache.now worker.new }
{
    let clock = clock_at_100();
    match worker.batch(rt, cache, jobs, &clock, &OpenGate) {
        Ok(made) => made.iter().all(|it| goes_to(it.outcome(), 5070)),
        Err(_) => false,
    }
}

/// How many of so many batches of these jobs go to the target.
fn batches_go<R: Wait + AllocGlobal>(
    rt: &R,
    cache: &SharedCache,
    worker: &mut Worker<CountingWire<'_>>,
    jobs: &[Job],
    count: u32,
) -> u32
    requires { Belongs cache.now worker.old }
{
    let mut right: u32 = 0;
    'batches: for _batch in 0..count {
        let goes = batch_goes(rt, cache, worker, jobs);
        right = right.saturating_add(u32::from(goes));
    }
    right
}

/// The same by a new worker over this wire.
fn batches_over<R: Wait + AllocGlobal>(
    rt: &R,
    wire: CountingWire<'_>,
    jobs: &[Job],
    count: u32,
) -> Option<u32> {
    match one_worker(rt.alloc(), wire) {
        Some((cache, mut worker)) => {
            let right = batches_go(rt, &cache, &mut worker, jobs, count);
            drop(worker);
            drop(cache);
            Some(right)
        }
        None => None,
    }
}

/// Of so many batches of these jobs: how many go to the target, how many queries are
/// sent, and how many of them have another id.
fn ids_over<R: Wait + AllocGlobal>(
    rt: &R,
    zone: &Zone,
    jobs: &[Job],
    count: u32,
) -> Option<(u32, u64, u64)> {
    let sent = AtomicU64::new(0);
    let others = AtomicU64::new(0);
    let wire = CountingWire {
        wire: ZoneWire::new(rt.alloc(), zone, &sent),
        next: 0,
        others: &others,
    };
    let right = batches_over(rt, wire, jobs, count)?;
    Some((
        right,
        sent.load(Ordering::SeqCst),
        others.load(Ordering::SeqCst),
    ))
}

/// What `ids_over` gives for so many batches of a job to each name.
fn ids_of<R: Wait + AllocGlobal>(rt: &R, count: u32) -> Option<(u32, u64, u64)> {
    match zone_with(rt.alloc(), ADDRESSES, jobs_to(rt.alloc(), &REQUESTS)) {
        Some((zone, jobs)) => {
            let found = ids_over(rt, &zone, jobs.as_slice(), count);
            drop(jobs);
            drop(zone);
            found
        }
        None => None,
    }
}

#[test]
fn ids_count_from_0(rt: HostRuntime) {
    assert_eq!(rt; ids_of(&rt, 30), Some((30, 300, 0)));
}

//! How many queries of a batch are out at once, how often its worker receives, how long the replies
//! may be, and how many jobs are in it.
ghost use Rattle.answer_cache.specs.Shared.{Belongs};

use crate::worker_jobs::{
    TO_ADDRESS, TO_NAME, all_go_to, clock_at_100, goes_to, jobs_to, made_by, zone_with,
};
use crate::workers::one_worker;
use answer_cache::SharedCache;
use dns_queries::{DATAGRAM_LIMIT, Wire, WireFault};
use dns_zone::{Zone, ZoneWire};
use sip_workers::{Job, OpenGate, Worker};
use std::sync::Wait;
use std::sync::atomic::{AtomicU64, Ordering};
use std::thread::Threads;

/// Eight names, each with the one address.
const EIGHT_NAMES: &str = "\
a.example. 300 A 192.0.2.7
b.example. 300 A 192.0.2.7
c.example. 300 A 192.0.2.7
d.example. 300 A 192.0.2.7
e.example. 300 A 192.0.2.7
f.example. 300 A 192.0.2.7
g.example. 300 A 192.0.2.7
h.example. 300 A 192.0.2.7
";

/// Requests to them.
const TO_EIGHT: [&str; 8] = [
    "sip:a.example:5070",
    "sip:b.example:5070",
    "sip:c.example:5070",
    "sip:d.example:5070",
    "sip:e.example:5070",
    "sip:f.example:5070",
    "sip:g.example:5070",
    "sip:h.example:5070",
];

/// A name whose address is not kept.
const LIFELESS: &str = "a.example. 0 A 192.0.2.7";

/// A wire to a zone that counts the queries which are out.
#[derive(Drop)]
struct CountingWire<'a> {
    wire: ZoneWire<'a>,
    out: u64,
    /// The most that were out at once.
    most: &'a AtomicU64,
    /// How often something was to be received.
    receives: &'a AtomicU64,
}

impl<'a> Wire for CountingWire<'a> {
    ghost use Rattle.dns_zone.specs.ZoneWires.{IsReply};

    ghost gives = { IsReply };

    ghost failed = { λ _. 0 };

    fn send(&mut self, octets: &[u8]) -> Result<(), WireFault> {
        self.out = self.out.wrapping_add(1);
        if self.most.load(Ordering::SeqCst) < self.out {
            self.most.store(self.out, Ordering::SeqCst);
        }
        self.wire.send(octets)
    }

    fn receive(&mut self, buffer: &mut [u8; DATAGRAM_LIMIT]) -> Result<Option<usize>, WireFault> {
        self.receives.fetch_add(1, Ordering::SeqCst);
        let given = self.wire.receive(buffer)?;
        if given.is_some() {
            self.out = self.out.wrapping_sub(1);
        }
        Ok(given)
    }

    fn failures(&self) -> u64 {
        0
    }
}

/// A wire to a zone whose replies are of 1,300 octets, with others behind the message.
#[derive(Drop)]
struct LongWire<'a> {
    wire: ZoneWire<'a>,
}

impl<'a> Wire for LongWire<'a> {
    ghost use Rattle.std.specs.Prelude.{⊤};

    ghost gives = { λ _. ⊤ };

    ghost failed = { λ _. 0 };

    fn send(&mut self, octets: &[u8]) -> Result<(), WireFault> {
        self.wire.send(octets)
    }

    fn receive(&mut self, buffer: &mut [u8; DATAGRAM_LIMIT]) -> Result<Option<usize>, WireFault> {
        let given = self.wire.receive(buffer)?;
        Ok(given.map(|_| 1_300))
    }

    fn failures(&self) -> u64 {
        0
    }
}

/// How many of these jobs go to the one target, in one batch.
fn count_right<R: Wait + AllocGlobal, W: Wire + Drop>(
    rt: &R,
    cache: &SharedCache,
    worker: &mut Worker<W>,
    jobs: &[Job],
) -> usize
    requires { Belongs cache.now worker.old }
{
    match worker.batch(rt, cache, jobs, &clock_at_100(), &OpenGate) {
        Ok(made) => made.iter().filter(|it| goes_to(it.outcome(), 5070)).count(),
        Err(_) => 0,
    }
}

/// The same by a worker over this wire; 0 where there is no memory for one.
fn count_over<R: Wait + AllocGlobal, W: Wire + Drop>(rt: &R, wire: W, jobs: &[Job]) -> usize {
    match one_worker(rt.alloc(), wire) {
        Some((cache, mut worker)) => count_right(rt, &cache, &mut worker, jobs),
        None => 0,
    }
}

/// Of a batch of these jobs: how many go to the one target, the most queries that were out at once,
/// and how often something was to be received.
fn counts<R: Wait + AllocGlobal>(rt: &R, zone: &Zone, jobs: &[Job]) -> (usize, u64, u64) {
    let (sent, most, receives) = (AtomicU64::new(0), AtomicU64::new(0), AtomicU64::new(0));
    let wire = CountingWire {
        wire: ZoneWire::new(rt.alloc(), zone, &sent),
        out: 0,
        most: &most,
        receives: &receives,
    };
    let right = count_over(rt, wire, jobs);
    (
        right,
        most.load(Ordering::SeqCst),
        receives.load(Ordering::SeqCst),
    )
}

/// The same of requests to these texts, in one batch.
fn batch_of<R: Wait + AllocGlobal>(rt: &R, texts: &[&str]) -> Option<(usize, u64, u64)> {
    match zone_with(rt.alloc(), EIGHT_NAMES, jobs_to(rt.alloc(), texts)) {
        Some((zone, jobs)) => {
            let counts = counts(rt, &zone, jobs.as_slice());
            drop(jobs);
            drop(zone);
            Some(counts)
        }
        None => None,
    }
}

/// How many of these jobs go to the one target in one batch, where replies are long.
fn count_by_long<R: Wait + AllocGlobal>(rt: &R, zone: &Zone, jobs: &[Job]) -> usize {
    let sent = AtomicU64::new(0);
    let wire = LongWire {
        wire: ZoneWire::new(rt.alloc(), zone, &sent),
    };
    count_over(rt, wire, jobs)
}

/// The same of requests to the eight names.
fn long_replies<R: Wait + AllocGlobal>(rt: &R) -> Option<usize> {
    match zone_with(rt.alloc(), EIGHT_NAMES, jobs_to(rt.alloc(), &TO_EIGHT)) {
        Some((zone, jobs)) => {
            let count = count_by_long(rt, &zone, jobs.as_slice());
            drop(jobs);
            drop(zone);
            Some(count)
        }
        None => None,
    }
}

/// Whether these jobs all go to the one target in a run with batches of eight, and how many queries
/// are sent.
fn run_of<R: Threads + Wait + AllocGlobal + Sync>(
    rt: &R,
    zone: &Zone,
    jobs: Vec<Job>,
) -> Option<(bool, u64)> {
    let sent = AtomicU64::new(0);
    match ZoneWire::several(rt.alloc(), zone, &sent, 1) {
        Ok(wires) => match made_by(rt, wires, jobs, 8, &clock_at_100(), &OpenGate) {
            Some(made) => {
                let all = made.len() == 8 && all_go_to(made.as_slice(), 5070);
                Some((all, sent.load(Ordering::SeqCst)))
            }
            None => None,
        },
        Err(_) => None,
    }
}

/// The same of eight requests to the name whose address is not kept.
fn lifeless_run<R: Threads + Wait + AllocGlobal + Sync>(rt: &R) -> Option<(bool, u64)> {
    match zone_with(rt.alloc(), LIFELESS, jobs_to(rt.alloc(), &[TO_NAME; 8])) {
        Some((zone, jobs)) => {
            let run = run_of(rt, &zone, jobs);
            drop(zone);
            run
        }
        None => None,
    }
}

/// All questions of a batch are out before a reply is waited for.
#[test]
fn eight_questions_are_out_at_once(rt: HostRuntime) {
    let seen = batch_of(&rt, &TO_EIGHT);
    assert!(rt; matches!(seen, Some((8, 8, _))));
}

/// A batch that asks nothing waits for nothing.
#[test]
fn addresses_are_not_waited_for(rt: HostRuntime) {
    assert_eq!(rt; batch_of(&rt, &[TO_ADDRESS; 8]), Some((8, 0, 0)));
}

/// A large batch waits for its last job too.
#[test]
fn the_last_of_many_is_waited_for(rt: HostRuntime) {
    let mut texts = [TO_ADDRESS; 2_001];
    texts[2_000] = TO_NAME;
    let seen = batch_of(&rt, &texts);
    assert!(rt; matches!(seen, Some((2_001, 1, _))));
}

/// A datagram may be as long as the buffer.
#[test]
fn long_replies_are_heard(rt: HostRuntime) {
    assert_eq!(rt; long_replies(&rt), Some(8));
}

/// Eight jobs are one batch, so they ask once also where an answer is not kept.
#[test]
fn a_batch_has_all_its_jobs(rt: HostRuntime) {
    assert_eq!(rt; lifeless_run(&rt), Some((true, 1)));
}

//! Many jobs by four workers, of which one has a slow wire.
use crate::workers_many::all_go_over;
use dns_queries::{DATAGRAM_LIMIT, Wire, WireFault};
use dns_zone::{Zone, ZoneWire};
use sip_workers::Gate;
use std::alloc::{AllocError, Global};
use std::sync::Wait;
use std::sync::atomic::{AtomicU64, Ordering};
use std::thread::Threads;

/// A name whose answer has no life, so that each job has to ask (RFC 1035 3.2.1).
const ZONE: &str = "a.example. 0 A 192.0.2.7";

/// How many jobs there are, and how many in a batch.
const JOBS: u64 = 10_000;

const BATCH: u64 = 8;

/// How many turns a wire waits at most, which takes some seconds.
const TURNS: u64 = 2_000_000_000;

/// How far a run is.
#[derive(Drop)]
struct Course {
    /// How many queries the slow worker has sent.
    asked: AtomicU64,
    /// How many jobs have their outcome.
    answered: AtomicU64,
    /// How many waits ended in vain. After the first of them nobody waits.
    late: AtomicU64,
}

impl Course {
    /// Waits until this count is so high.
    fn wait_for(&self, count: &AtomicU64, wanted: u64) {
        for _ in 0..TURNS {
            if count.load(Ordering::SeqCst) >= wanted || self.late.load(Ordering::SeqCst) > 0 {
                return;
            }
        }
        self.late.fetch_add(1, Ordering::SeqCst);
    }
}

impl Gate for Course {
    fn begun(&self, _number: u64) {}

    fn answered(&self, _number: u64) {
        self.answered.fetch_add(1, Ordering::SeqCst);
    }
}

/// A wire to a zone. A slow one gives nothing until all jobs but a batch are done, and the others
/// nothing until the slow worker has sent a query.
#[derive(Drop)]
struct CourseWire<'a> {
    wire: ZoneWire<'a>,
    course: &'a Course,
    slow: bool,
}

impl<'a> Wire for CourseWire<'a> {
    ghost use Rattle.dns_zone.specs.ZoneWires.{IsReply};

    ghost gives = { IsReply };

    ghost failed = { λ _. 0 };

    fn send(&mut self, octets: &[u8]) -> Result<(), WireFault> {
        if self.slow {
            self.course.asked.fetch_add(1, Ordering::SeqCst);
        }
        self.wire.send(octets)
    }

    fn receive(&mut self, buffer: &mut [u8; DATAGRAM_LIMIT]) -> Result<Option<usize>, WireFault> {
        if self.slow {
            self.course.wait_for(&self.course.answered, JOBS - BATCH);
        } else {
            self.course.wait_for(&self.course.asked, 1);
        }
        self.wire.receive(buffer)
    }

    fn failures(&self) -> u64 {
        0
    }
}

/// A slow wire and three others.
fn four_wires<'a>(
    alloc: Global,
    zone: &'a Zone,
    sent: &'a AtomicU64,
    course: &'a Course,
) -> Result<Vec<CourseWire<'a>>, AllocError> {
    let mut wires = Vec::new(alloc);
    for slow in [true, false, false, false] {
        wires.push(CourseWire {
            wire: ZoneWire::new(alloc, zone, sent),
            course,
            slow,
        })?;
    }
    Ok(wires)
}

/// Whether all jobs go to their ports in a run over such wires to a zone.
fn all_go_to_zone<R: Threads + Wait + AllocGlobal + Sync>(
    rt: &R,
    zone: &Zone,
    course: &Course,
) -> Option<bool> {
    let sent = AtomicU64::new(0);
    match four_wires(rt.alloc(), zone, &sent, course) {
        Ok(wires) => all_go_over(rt, wires, JOBS as usize, BATCH as usize, course),
        Err(_) => None,
    }
}

/// The same over the zone of one name.
fn all_go<R: Threads + Wait + AllocGlobal + Sync>(rt: &R, course: &Course) -> Option<bool> {
    match Zone::read(rt.alloc(), ZONE) {
        Ok(zone) => all_go_to_zone(rt, &zone, course),
        Err(_) => None,
    }
}

/// The slow worker does no more than the batch that it took first.
#[test]
fn others_do_the_rest(rt: HostRuntime) {
    let course = Course {
        asked: AtomicU64::new(0),
        answered: AtomicU64::new(0),
        late: AtomicU64::new(0),
    };
    assert_eq!(rt; all_go(&rt, &course), Some(true));
    assert_eq!(rt; course.late.load(Ordering::SeqCst), 0);
    assert_eq!(rt; course.answered.load(Ordering::SeqCst), JOBS);
    let asked = course.asked.load(Ordering::SeqCst);
    assert!(rt; asked > 0 && asked <= BATCH, "{asked}");
}

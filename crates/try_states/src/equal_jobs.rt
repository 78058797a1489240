//! Equal jobs of one batch, which share questions.
ghost use Rattle.answer_cache.specs.Shared.{Belongs};

use crate::worker_jobs::{clock_at_100, job_by, push_job, zone_with};
use crate::workers::one_worker;
use answer_cache::SharedCache;
use dns_zone::{Zone, ZoneWire};
use sip_selection::{Caps, Families, Target};
use sip_uri::Address::{V4, V6};
use sip_uri::Transport::{Tcp, Tls, Udp};
use sip_uri::{Address, Transport};
use sip_workers::{Job, OpenGate, Outcome, Worker};
use std::alloc::Global;
use std::sync::Wait;
use std::sync::atomic::{AtomicU64, Ordering};

/// A domain with one question for NAPTR, three for SRV and six for addresses.
const ZONE: &str = "\
d.example. 300 NAPTR 10 10 s SIPS+D2T - _sips._tcp.d.example.
d.example. 300 NAPTR 10 20 s SIP+D2T - _sip._tcp.d.example.
d.example. 300 NAPTR 10 30 s SIP+D2U - _sip._udp.d.example.
_sips._tcp.d.example. 300 SRV 10 0 5061 a.d.example.
_sip._tcp.d.example. 300 SRV 10 0 5060 b.d.example.
_sip._udp.d.example. 300 SRV 10 0 5060 c.d.example.
a.d.example. 300 A 192.0.2.1
a.d.example. 300 AAAA 2001:db8::1
b.d.example. 300 A 192.0.2.2
b.d.example. 300 AAAA 2001:db8::2
c.d.example. 300 A 192.0.2.3
c.d.example. 300 AAAA 2001:db8::3
";

/// 2001:db8::1 to 2001:db8::3.
const fn ipv6(last: u8) -> Address {
    V6([0x20, 1, 0x0d, 0xb8, 0, 0, 0, 0, 0, 0, 0, 0, 0, 0, 0, last])
}

/// A target.
const fn target(transport: Transport, address: Address, port: u16) -> Target {
    Target {
        transport,
        address,
        port,
    }
}

/// Whether a request goes to the domain's six targets, in order.
fn goes_to_six(outcome: &Outcome) -> bool {
    let six = [
        target(Tls, V4([192, 0, 2, 1]), 5061),
        target(Tls, ipv6(1), 5061),
        target(Tcp, V4([192, 0, 2, 2]), 5060),
        target(Tcp, ipv6(2), 5060),
        target(Udp, V4([192, 0, 2, 3]), 5060),
        target(Udp, ipv6(3), 5060),
    ];
    matches!(outcome, Outcome::Targets(list) if list.as_slice() == six.as_slice())
}

/// A job to the domain.
fn job_to_domain(alloc: Global, number: u64) -> Option<Job> {
    let caps = Caps::new(&[Udp, Tcp, Tls], Families::V4ThenV6)?;
    job_by(alloc, number, "sip:d.example", caps)
}

/// So many jobs to the domain.
fn jobs_to_domain(alloc: Global, count: u64) -> Option<Vec<Job>> {
    let mut jobs = Vec::new(alloc);
    for number in 0..count {
        push_job(&mut jobs, job_to_domain(alloc, number))?;
    }
    Some(jobs)
}

/// How many of these jobs go to the six targets, in one batch.
fn count_right<R: Wait + AllocGlobal>(
    rt: &R,
    cache: &SharedCache,
    worker: &mut Worker<ZoneWire<'_>>,
    jobs: &[Job],
) -> usize
    requires { Belongs cache.now worker.old }
{
    let clock = clock_at_100();
    match worker.batch(rt, cache, jobs, &clock, &OpenGate) {
        Ok(made) => made.iter().filter(|it| goes_to_six(it.outcome())).count(),
        Err(_) => 0,
    }
}

/// The same by a worker over this wire; 0 where there is no memory for one.
fn count_over<R: Wait + AllocGlobal>(rt: &R, wire: ZoneWire<'_>, jobs: &[Job]) -> usize {
    match one_worker(rt.alloc(), wire) {
        Some((cache, mut worker)) => count_right(rt, &cache, &mut worker, jobs),
        None => 0,
    }
}

/// Of a batch of these jobs: how many go to the six targets, and how many queries are sent.
fn counts<R: Wait + AllocGlobal>(rt: &R, zone: &Zone, jobs: &[Job]) -> (usize, u64) {
    let sent = AtomicU64::new(0);
    let right = count_over(rt, ZoneWire::new(rt.alloc(), zone, &sent), jobs);
    (right, sent.load(Ordering::SeqCst))
}

/// The same of so many equal jobs.
fn equal_jobs<R: Wait + AllocGlobal>(rt: &R, count: u64) -> Option<(usize, u64)> {
    match zone_with(rt.alloc(), ZONE, jobs_to_domain(rt.alloc(), count)) {
        Some((zone, jobs)) => {
            let counts = counts(rt, &zone, jobs.as_slice());
            drop(jobs);
            drop(zone);
            Some(counts)
        }
        None => None,
    }
}

#[test]
fn equal_jobs_ask_once(rt: HostRuntime) {
    assert_eq!(rt; equal_jobs(&rt, 8), Some((8, 10)));
    assert_eq!(rt; equal_jobs(&rt, 1_200), Some((1_200, 10)));
}

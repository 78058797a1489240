//! A run over a cache that begins with what an earlier run has stored, over wires that lose all.
ghost use Rattle.std.specs.Prelude.{IfSome};
ghost use Rattle.std.specs.List.{All};
ghost use Rattle.answer_cache.specs.Shared.{Belongs};

use crate::seats::{both, keep, last_of, two_seats};
use crate::worker_jobs::{TO_NAME, ZONE, all_go_to, clock_at_100, jobs_to, made_with};
use answer_cache::{Carried, Seat, SharedCache};
use dns_answers::Moment;
use dns_queries::{DATAGRAM_LIMIT, StandingClock, Wire, WireFault};
use dns_zone::{Zone, ZoneWire};
use sip_workers::OpenGate;
use std::alloc::Global;
use std::sync::Wait;
use std::sync::atomic::{AtomicU64, Ordering};
use std::thread::Threads;

/// A wire that loses all that is sent, and counts it.
#[derive(Drop)]
struct LostWire<'a> {
    sent: &'a AtomicU64,
}

impl<'a> Wire for LostWire<'a> {
    ghost gives = { λ _. ⊥ };

    ghost failed = { λ _. 0 };

    fn send(&mut self, _octets: &[u8]) -> Result<(), WireFault> {
        self.sent.fetch_add(1, Ordering::SeqCst);
        Ok(())
    }

    fn receive(&mut self, _buffer: &mut [u8; DATAGRAM_LIMIT]) -> Result<Option<usize>, WireFault> {
        Ok(None)
    }

    fn failures(&self) -> u64 {
        0
    }
}

/// Whether a job to the name in the zone goes to the target in a run with these seats and wires, at
/// this moment.
fn run_goes<R: Threads + Wait + AllocGlobal + Sync, W: Wire + Drop + Send>(
    rt: &R,
    cache: &SharedCache,
    seats: Vec<Seat>,
    wires: Vec<W>,
    clock: &StandingClock,
) -> Option<bool>
    requires { All (Belongs cache.now) seats.items }
{
    match jobs_to(rt.alloc(), &[TO_NAME]) {
        Some(jobs) => match made_with(rt, cache, seats, wires, jobs, 1, clock, &OpenGate) {
            Some(made) => Some(all_go_to(made.as_slice(), 5070)),
            None => None,
        },
        None => None,
    }
}

/// One wire.
fn one_wire<W: Wire + Drop>(alloc: Global, wire: W) -> Option<Vec<W>> {
    let mut wires = Vec::new(alloc);
    match wires.push(wire) {
        Ok(()) => Some(wires),
        Err(_) => None,
    }
}

/// The same with this seat and wire.
fn goes<R: Threads + Wait + AllocGlobal + Sync, W: Wire + Drop + Send>(
    rt: &R,
    cache: &SharedCache,
    seat: Seat,
    wire: W,
    clock: &StandingClock,
) -> Option<bool>
    requires { Belongs cache.now seat }
{
    let mut seats = Vec::new(rt.alloc());
    keep(cache, &mut seats, seat);
    match one_wire(rt.alloc(), wire) {
        Some(wires) => run_goes(rt, cache, seats, wires, clock),
        None => None,
    }
}

/// Whether a job goes to the target in a run over the zone with this seat, at the moment 100.
fn goes_over_zone<R: Threads + Wait + AllocGlobal + Sync>(
    rt: &R,
    cache: &SharedCache,
    seat: Seat,
) -> bool
    requires { Belongs cache.now seat }
{
    match Zone::read(rt.alloc(), ZONE) {
        Ok(zone) => {
            let sent = AtomicU64::new(0);
            let wire = ZoneWire::new(rt.alloc(), &zone, &sent);
            goes(rt, cache, seat, wire, &clock_at_100()) == Some(true)
        }
        Err(_) => false,
    }
}

/// What a seat hands on at 107.
fn carried_by(alloc: Global, cache: &SharedCache, seat: &mut Seat) -> Option<Carried>
    requires { Belongs cache.now seat.old }
{
    cache.carry(alloc, seat, Moment::new(107)?).ok()
}

/// What a seat of a cache hands on after a run over the zone with another one.
fn carried_after<R: Threads + Wait + AllocGlobal + Sync>(
    rt: &R,
    cache: &SharedCache,
    first: Seat,
    second: &mut Seat,
) -> Option<Carried>
    requires first { Belongs cache.now first }
    requires second { Belongs cache.now second.old }
{
    if goes_over_zone(rt, cache, first) {
        carried_by(rt.alloc(), cache, second)
    } else {
        None
    }
}

/// What a new cache hands on after a run over the zone.
fn carried_after_a_run<R: Threads + Wait + AllocGlobal + Sync>(rt: &R) -> Option<Carried> {
    match two_seats(rt.alloc()) {
        Some((cache, first, mut second)) => {
            let carried = carried_after(rt, &cache, first, &mut second);
            drop(second);
            drop(cache);
            carried
        }
        None => None,
    }
}

/// The one seat of a cache.
fn only_seat(cache: SharedCache, mut seats: Vec<Seat>) -> Option<(SharedCache, Seat)>
    requires { All (Belongs cache) seats.items }
    ensures { IfSome result (λ made. Belongs made.0 made.1) }
{
    let seat = last_of(&cache, &mut seats);
    drop(seats);
    both(Some(cache), seat)
}

/// A cache that begins with what was carried.
fn successor<R: Wait + AllocGlobal>(rt: &R, carried: &Carried) -> Option<(SharedCache, Seat)>
    ensures { IfSome result (λ made. Belongs made.0 made.1) }
{
    match SharedCache::successor(rt, rt.alloc(), carried, 1) {
        Ok((cache, seats)) => only_seat(cache, seats),
        Err(_) => None,
    }
}

/// Whether the job goes to the target at 110 over that cache and this wire.
fn goes_after<R: Threads + Wait + AllocGlobal + Sync>(
    rt: &R,
    carried: &Carried,
    wire: LostWire<'_>,
) -> Option<bool> {
    let clock = StandingClock {
        moment: Moment::new(110)?,
    };
    match successor(rt, carried) {
        Some((cache, seat)) => {
            let goes = goes(rt, &cache, seat, wire, &clock);
            drop(cache);
            goes
        }
        None => None,
    }
}

/// The same, and how many datagrams were lost.
fn run_with<R: Threads + Wait + AllocGlobal + Sync>(
    rt: &R,
    carried: &Carried,
) -> Option<(bool, u64)> {
    let sent = AtomicU64::new(0);
    let all = goes_after(rt, carried, LostWire { sent: &sent })?;
    Some((all, sent.load(Ordering::SeqCst)))
}

/// The same after a run over the zone.
fn run_after<R: Threads + Wait + AllocGlobal + Sync>(rt: &R) -> Option<(bool, u64)> {
    match carried_after_a_run(rt) {
        Some(carried) => {
            let made = run_with(rt, &carried);
            drop(carried);
            made
        }
        None => None,
    }
}

#[test]
fn carried_answers_serve_a_run(rt: HostRuntime) {
    assert_eq!(rt; run_after(&rt), Some((true, 0)));
}

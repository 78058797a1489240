//! Requests over one `RollingCache`, by a clock that goes on by the life of the answers again and
//! again: each thread has a resolver core, and all share the cache.
ghost use Rattle.std.specs.Prelude.{⊤, IfSome};
ghost use Rattle.std.specs.List.{All};
ghost use Rattle.answer_cache.specs.Seats.{SeatView};
ghost use Rattle.rolling_cache.specs.Rolling.{IsSeatOf, RollingView};
ghost use Rattle.sip_resolver.specs.Requests.{Stand};

use crate::workers::jobs::job_of;
use crate::workers::zone_text::DOMAINS;
use dns_answers::Moment;
use dns_zone::Zone;
use rolling_cache::{RollingCache, RollingSeat};
use sip_resolver::{CountingIds, DnsTransport, Limits, NoFacts, Outcome, Resolver};
use sip_workers::Job;
use srv_choice::RandomWords;
use std::alloc::Global;
use std::sync::Wait;
use std::thread::{Threads, map_vec};

/// How many lives of the answers a run lasts.
const LIVES: u64 = 100;

/// The life of each answer, in seconds.
const LIFE: u64 = 300;

/// How many requests are inside a resolver at once.
const BATCH: u64 = 8;

/// How many queries a batch sends at most.
const QUERIES: usize = 100;

/// The resolver core of a thread.
type Core = Resolver<RollingCache, NoFacts, CountingIds>;

/// What a thread counted: its queries, the most of them in one life of the answers, and its
/// requests with targets.
#[derive(Clone, Copy)]
pub struct Counted {
    pub sent: u64,
    pub most: u64,
    pub targets: u64,
}

impl Counted {
    /// Nothing is counted yet.
    fn nothing() -> Counted {
        Counted {
            sent: 0,
            most: 0,
            targets: 0,
        }
    }

    /// With what was counted beside it.
    fn with(self, other: Counted) -> Counted {
        Counted {
            sent: self.sent.wrapping_add(other.sent),
            most: self.most.max(other.most),
            targets: self.targets.wrapping_add(other.targets),
        }
    }
}

/// The reply of the zone's server to what the resolver sends next; None where it sends nothing.
fn next_reply(
    alloc: Global,
    zone: &Zone,
    resolver: &mut Core,
    cache: &RollingCache,
    seat: &mut RollingSeat,
    now: Moment,
) -> Option<Vec<u8>>
    requires at { IsSeatOf cache.now seat.old }
    requires stand { Stand (λ _. ⊤) (λ _. ⊤) seat.old.seat.seat resolver.old.requests }
    ensures at { IsSeatOf cache.now seat.new }
    ensures stand { Stand (λ _. ⊤) (λ _. ⊤) seat.new.seat.seat resolver.new.requests }
{
    let transmit = resolver.poll_transmit(cache, seat, now, now)?;
    zone.answer_datagram(alloc, transmit.octets).ok()?
}

/// Asks until nothing is left to send, and gives how many queries were sent.
fn drive<R: Wait + AllocGlobal>(
    rt: &R,
    zone: &Zone,
    resolver: &mut Core,
    cache: &RollingCache,
    seat: &mut RollingSeat,
    now: Moment,
) -> Option<u64>
    requires at { IsSeatOf cache.now seat.old }
    requires stand { Stand (λ _. ⊤) (λ _. ⊤) seat.old.seat.seat resolver.old.requests }
    ensures at { IsSeatOf cache.now seat.new }
    ensures stand { Stand (λ _. ⊤) (λ _. ⊤) seat.new.seat.seat resolver.new.requests }
{
    let mut sent = 0_u64;
    'queries: for _query in 0..QUERIES {
        let Some(reply) = next_reply(rt.alloc(), zone, resolver, cache, seat, now) else {
            break;
        };
        sent = sent.wrapping_add(1);
        resolver
            .handle(
                rt,
                cache,
                seat,
                now,
                DnsTransport::Datagram,
                reply.as_slice(),
            )
            .ok()?;
    }
    Some(sent)
}

/// How many of the requests that ended have targets.
fn with_targets(resolver: &mut Core) -> u64 {
    let mut count = 0_u64;
    'ended: for _ended in 0..BATCH {
        let Some(ended) = resolver.poll_outcome() else {
            break;
        };
        count = count.wrapping_add(u64::from(matches!(ended.outcome(), Outcome::Targets(_))));
    }
    count
}

/// A resolver with nothing inside.
fn empty(alloc: Global) -> Option<Core>
    ensures { (seat : SeatView) → IfSome result
        (λ made. Stand (λ _. ⊤) (λ _. ⊤) seat made.requests) }
{
    let limits = Limits {
        requests: BATCH as usize,
        questions: 64,
        streams: false,
    };
    let Ok(resolver) = Resolver::new(alloc, limits, CountingIds::new()) else {
        return None;
    };
    Some(resolver)
}

/// Submits the request of this number.
fn submit(alloc: Global, resolver: &mut Core, number: u64) -> Option<()>
    ensures { (seat : SeatView) → Stand (λ _. ⊤) (λ _. ⊤) seat resolver.old.requests
        → Stand (λ _. ⊤) (λ _. ⊤) seat resolver.new.requests }
{
    let Job {
        number,
        request,
        caps,
        words,
    } = job_of(alloc, number)?;
    let words = RandomWords::Given(&words);
    resolver.submit(number, request, caps, &words, None).ok()
}

/// Submits the requests of a batch, the first of which has this number.
fn submit_batch(alloc: Global, resolver: &mut Core, first: u64) -> Option<()>
    ensures { (seat : SeatView) → Stand (λ _. ⊤) (λ _. ⊤) seat resolver.old.requests
        → Stand (λ _. ⊤) (λ _. ⊤) seat resolver.new.requests }
{
    'numbers: for place in 0..BATCH {
        submit(alloc, resolver, first.wrapping_add(place))?;
    }
    Some(())
}

/// Resolves the requests of a batch with a resolver, and counts.
fn resolve_with<R: Wait + AllocGlobal>(
    rt: &R,
    zone: &Zone,
    resolver: &mut Core,
    cache: &RollingCache,
    seat: &mut RollingSeat,
    now: Moment,
    first: u64,
) -> Option<Counted>
    requires at { IsSeatOf cache.now seat.old }
    requires stand { Stand (λ _. ⊤) (λ _. ⊤) seat.old.seat.seat resolver.old.requests }
    ensures { IsSeatOf cache.now seat.new }
{
    submit_batch(rt.alloc(), resolver, first)?;
    let sent = drive(rt, zone, resolver, cache, seat, now)?;
    let targets = with_targets(resolver);
    Some(Counted {
        sent,
        most: sent,
        targets,
    })
}

/// The same with a new resolver.
fn resolve_batch<R: Wait + AllocGlobal>(
    rt: &R,
    zone: &Zone,
    cache: &RollingCache,
    seat: &mut RollingSeat,
    now: Moment,
    first: u64,
) -> Option<Counted>
    requires { IsSeatOf cache.now seat.old }
    ensures { IsSeatOf cache.now seat.new }
{
    cache.catch_up(rt, seat, now).ok()?;
    match empty(rt.alloc()) {
        Some(mut resolver) => resolve_with(rt, zone, &mut resolver, cache, seat, now, first),
        None => None,
    }
}

/// Resolves a request to each domain at a moment, and counts.
fn resolve_all<R: Wait + AllocGlobal>(
    rt: &R,
    zone: &Zone,
    cache: &RollingCache,
    seat: &mut RollingSeat,
    now: Moment,
) -> Option<Counted>
    requires { IsSeatOf cache.now seat.old }
    ensures { IsSeatOf cache.now seat.new }
{
    let mut counted = Counted::nothing();
    'batches: for batch in 0..DOMAINS / BATCH {
        let it = resolve_batch(rt, zone, cache, seat, now, batch * BATCH)?;
        counted.sent = counted.sent.wrapping_add(it.sent);
        counted.targets = counted.targets.wrapping_add(it.targets);
    }
    counted.most = counted.sent;
    Some(counted)
}

/// The same at one moment after the other, each a life of the answers behind the one before it.
fn resolve_again<R: Wait + AllocGlobal>(
    rt: &R,
    zone: &Zone,
    cache: &RollingCache,
    seat: &mut RollingSeat,
) -> Option<Counted>
    requires { IsSeatOf cache.now seat.old }
{
    let mut counted = Counted::nothing();
    'lives: for life in 0..LIVES {
        let it = resolve_all(rt, zone, cache, seat, Moment::new(100 + life * LIFE)?)?;
        counted = counted.with(it);
    }
    Some(counted)
}

/// What a thread does with its seat.
trait Work {
    // The seats that it works with.
    ghost takes: { Self → RollingView → Type 0 };

    /// What it counted.
    fn work<R: Wait + AllocGlobal>(&self, rt: &R, seat: RollingSeat) -> Option<Counted>
        requires { takes self.now seat };
}

/// A cache, and the zone that is asked.
#[derive(Clone, Copy)]
struct Load<'a> {
    cache: &'a RollingCache,
    zone: &'a Zone,
}

impl Work for Load<'_> {
    ghost use Rattle.rolling_cache.specs.Rolling.{IsSeatOf};

    ghost takes = { λ load seat. IsSeatOf load.cache.now seat };

    fn work<R: Wait + AllocGlobal>(&self, rt: &R, seat: RollingSeat) -> Option<Counted>
        requires { IsSeatOf self.now.cache.now seat }
    {
        let mut seat = seat;
        resolve_again(rt, self.zone, self.cache, &mut seat)
    }
}

/// What all threads counted, each with one of these seats.
fn by_all<R: Threads + Wait + AllocGlobal + Sync, W: Work + Sync>(
    rt: &R,
    load: &W,
    seats: Vec<RollingSeat>,
) -> Option<Counted>
    requires { All (W.takes load.now) seats.items }
{
    let job = |seat: RollingSeat| -> Option<Counted>
        requires { W.takes load.now seat }
    { load.work(rt, seat) };
    let counts = map_vec(rt, seats, &job).ok()?;
    let mut counted = Counted::nothing();
    'threads: for it in counts.iter() {
        counted = counted.with((*it)?);
    }
    Some(counted)
}

/// What all threads counted with this load.
fn by_all_over<R: Threads + Wait + AllocGlobal + Sync>(
    rt: &R,
    load: &Load<'_>,
    seats: Vec<RollingSeat>,
) -> Option<Counted>
    requires { All (IsSeatOf load.now.cache.now) seats.items }
{
    by_all(rt, load, seats)
}

/// What so many threads counted, which share one cache and ask this zone.
pub fn resolve_by<R: Threads + Wait + AllocGlobal + Sync>(
    rt: &R,
    zone: &Zone,
    threads: usize,
) -> Option<Counted> {
    let Ok((cache, seats)) = RollingCache::new(rt.alloc(), threads, Moment::new(100)?) else {
        return None;
    };
    let load = Load {
        cache: &cache,
        zone,
    };
    by_all_over(rt, &load, seats)
}

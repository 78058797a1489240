//! What one thread of the run has, and what it does in a second.
ghost use Rattle.std.specs.Prelude.{◌≡◌, ⊤, [], IfSome, IsTrue};
ghost use Rattle.std.specs.Bool.{OnFalse};
ghost use Rattle.answer_cache.specs.Seats.{SeatView};
ghost use Rattle.rolling_cache.specs.Rolling.{IsSeatOf};
ghost use Rattle.sip_resolver.specs.Requests.{Stand};

use crate::proxy::counted::Counted;
use crate::proxy::notes::{Load, Notes};
use crate::workers::jobs::request_of;
use rolling_cache::{Change, RollingCache, RollingSeat};
use sip_resolver::{CountingIds, DnsTransport, Limits, NoFacts, Resolver, rounded_up};
use sip_selection::{Caps, Families};
use sip_uri::Transport::{Tcp, Tls, Udp};
use srv_choice::RandomWords;
use std::alloc::Global;
use std::marker::Model;
use std::sync::Wait;
use std::time::{Clock, Instant};
use std::{io, mem};

/// How many requests and questions are inside a resolver at most.
const INSIDE: usize = 2_048;

/// The resolver core of a thread.
type Core = Resolver<RollingCache, NoFacts, CountingIds>;

/// A resolver with nothing inside.
fn empty(alloc: Global) -> Option<Core>
    ensures { (seat : SeatView) → IfSome result
        (λ made. Stand (λ _. ⊤) (λ _. ⊤) seat made.requests) }
{
    let limits = Limits {
        requests: INSIDE,
        questions: INSIDE,
        streams: false,
    };
    let Ok(resolver) = Resolver::new(alloc, limits, CountingIds::new()) else {
        return None;
    };
    Some(resolver)
}

/// The reply to what the resolver sends next; None where it sends nothing.
fn next_reply(
    alloc: Global,
    cache: &RollingCache,
    load: &Load<'_>,
    resolver: &mut Core,
    seat: &mut RollingSeat,
    notes: &mut Notes,
) -> Option<Vec<u8>>
    requires at { IsSeatOf cache.now seat.old }
    requires stand { Stand (λ _. ⊤) (λ _. ⊤) seat.old.seat.seat resolver.old.requests }
    ensures at { IsSeatOf cache.now seat.new }
    ensures stand { Stand (λ _. ⊤) (λ _. ⊤) seat.new.seat.seat resolver.new.requests }
{
    let query = resolver.poll_transmit(cache, seat, load.now, rounded_up(load.now))?;
    notes.reply_to(alloc, load, &query)
}

/// Hears a reply.
fn hear<R: Wait>(
    rt: &R,
    cache: &RollingCache,
    load: &Load<'_>,
    resolver: &mut Core,
    seat: &mut RollingSeat,
    notes: &mut Notes,
    reply: &[u8],
)
    requires at { IsSeatOf cache.now seat.old }
    requires stand { Stand (λ _. ⊤) (λ _. ⊤) seat.old.seat.seat resolver.old.requests }
    ensures at { IsSeatOf cache.now seat.new }
    ensures stand { Stand (λ _. ⊤) (λ _. ⊤) seat.new.seat.seat resolver.new.requests }
{
    let over = DnsTransport::Datagram;
    let heard = resolver.handle(rt, cache, seat, load.now, over, reply);
    notes.count_done(heard.is_ok());
}

/// Hears a reply, or notes it where it comes late.
fn hear_in_time<R: Wait>(
    rt: &R,
    cache: &RollingCache,
    load: &Load<'_>,
    resolver: &mut Core,
    seat: &mut RollingSeat,
    notes: &mut Notes,
    reply: Vec<u8>,
)
    requires at { IsSeatOf cache.now seat.old }
    requires stand { Stand (λ _. ⊤) (λ _. ⊤) seat.old.seat.seat resolver.old.requests }
    ensures at { IsSeatOf cache.now seat.new }
    ensures stand { Stand (λ _. ⊤) (λ _. ⊤) seat.new.seat.seat resolver.new.requests }
{
    if notes.is_late() {
        notes.push_late(reply);
    } else {
        hear(rt, cache, load, resolver, seat, notes, reply.as_slice());
    }
}

/// Sends until nothing is left to send, and hears each reply that is not late.
fn drive<R: Wait + AllocGlobal>(
    rt: &R,
    cache: &RollingCache,
    load: &Load<'_>,
    resolver: &mut Core,
    seat: &mut RollingSeat,
    notes: &mut Notes,
)
    requires at { IsSeatOf cache.now seat.old }
    requires stand { Stand (λ _. ⊤) (λ _. ⊤) seat.old.seat.seat resolver.old.requests }
    ensures at { IsSeatOf cache.now seat.new }
    ensures stand { Stand (λ _. ⊤) (λ _. ⊤) seat.new.seat.seat resolver.new.requests }
{
    'queries: for _query in 0..INSIDE {
        let Some(reply) = next_reply(rt.alloc(), cache, load, resolver, seat, notes) else {
            break;
        };
        hear_in_time(rt, cache, load, resolver, seat, notes, reply);
    }
}

/// Hears the replies that come late.
fn hear_late<R: Wait + AllocGlobal>(
    rt: &R,
    cache: &RollingCache,
    load: &Load<'_>,
    resolver: &mut Core,
    seat: &mut RollingSeat,
    notes: &mut Notes,
)
    requires at { IsSeatOf cache.now seat.old }
    requires stand { Stand (λ _. ⊤) (λ _. ⊤) seat.old.seat.seat resolver.old.requests }
    ensures at { IsSeatOf cache.now seat.new }
    ensures stand { Stand (λ _. ⊤) (λ _. ⊤) seat.new.seat.seat resolver.new.requests }
{
    let late = mem::replace(&mut notes.late, Vec::new(rt.alloc()));
    'replies: for reply in late.iter() {
        hear(rt, cache, load, resolver, seat, notes, reply.as_slice());
    }
}

/// Takes what became of a request, and tells whether one had ended.
fn take_outcome(resolver: &mut Core, notes: &mut Notes) -> bool
    ensures stand { (seat : SeatView) → Stand (λ _. ⊤) (λ _. ⊤) seat resolver.old.requests
        → Stand (λ _. ⊤) (λ _. ⊤) seat resolver.new.requests }
    ensures none { OnFalse result (resolver.new.requests.ended ≡ []) }
{
    match resolver.poll_outcome() {
        Some(ended) => {
            notes.count_outcome(ended.outcome());
            true
        }
        None => false,
    }
}

/// Takes what became of requests, and tells whether all of it was taken.
fn take_outcomes(resolver: &mut Core, notes: &mut Notes) -> bool
    ensures stand { (seat : SeatView) → Stand (λ _. ⊤) (λ _. ⊤) seat resolver.old.requests
        → Stand (λ _. ⊤) (λ _. ⊤) seat resolver.new.requests }
    ensures none { IsTrue result → resolver.new.requests.ended ≡ [] }
{
    'outcomes: for _outcome in 0..=INSIDE {
        if !take_outcome(resolver, notes) {
            return true;
        }
    }
    false
}

/// The milliseconds from a start on, if the clock was read.
fn since<R: Clock>(rt: &R, start: io::Result<Instant>) -> Option<u64> {
    let time = start.ok()?.elapsed(rt).ok()?;
    u64::try_from(time.as_millis()).ok()
}

/// Goes over to another generation, where there is one or the present one is to end. Then what is
/// inside begins anew.
fn change<R: Wait + Clock>(
    rt: &R,
    cache: &RollingCache,
    load: &Load<'_>,
    resolver: &mut Core,
    seat: &mut RollingSeat,
    notes: &mut Notes,
)
    requires at { IsSeatOf cache.now seat.old }
    requires stand { Stand (λ _. ⊤) (λ _. ⊤) seat.old.seat.seat resolver.old.requests }
    requires none { resolver.old.requests.ended ≡ [] }
    ensures at { IsSeatOf cache.now seat.new }
    ensures stand { Stand (λ _. ⊤) (λ _. ⊤) seat.new.seat.seat resolver.new.requests }
{
    let start = Instant::now(rt);
    let change = cache.catch_up(rt, seat, load.now);
    if matches!(change, Ok(Change::Stays)) {
        return;
    }
    notes.count_change(change, seat.generation().number(), since(rt, start));
    notes.count_anew(resolver.request_count());
    resolver.restart();
}

/// Takes what became of requests, and goes over to another generation, where there is one or the
/// present one is to end.
fn catch_up<R: Wait + Clock>(
    rt: &R,
    cache: &RollingCache,
    load: &Load<'_>,
    resolver: &mut Core,
    seat: &mut RollingSeat,
    notes: &mut Notes,
)
    requires at { IsSeatOf cache.now seat.old }
    requires stand { Stand (λ _. ⊤) (λ _. ⊤) seat.old.seat.seat resolver.old.requests }
    ensures at { IsSeatOf cache.now seat.new }
    ensures stand { Stand (λ _. ⊤) (λ _. ⊤) seat.new.seat.seat resolver.new.requests }
{
    if take_outcomes(resolver, notes) {
        change(rt, cache, load, resolver, seat, notes);
    }
}

/// Submits a request to this domain.
fn submit_to(alloc: Global, resolver: &mut Core, number: u64, domain: u64) -> Option<()>
    ensures { (seat : SeatView) → Stand (λ _. ⊤) (λ _. ⊤) seat resolver.old.requests
        → Stand (λ _. ⊤) (λ _. ⊤) seat resolver.new.requests }
{
    let request = request_of(alloc, domain)?;
    let caps = Caps::new(&[Udp, Tcp, Tls], Families::V4)?;
    let words = RandomWords::Drawn {
        key: [7; 32],
        number,
    };
    resolver.submit(number, request, caps, &words, None).ok()
}

/// Submits the next request.
fn submit(alloc: Global, resolver: &mut Core, notes: &mut Notes)
    ensures { (seat : SeatView) → Stand (λ _. ⊤) (λ _. ⊤) seat resolver.old.requests
        → Stand (λ _. ⊤) (λ _. ⊤) seat resolver.new.requests }
{
    let number = notes.count_request();
    let submitted = submit_to(alloc, resolver, number, notes.draw());
    notes.count_done(submitted.is_some());
}

/// Makes the next request.
fn resolve<R: Wait + Clock + AllocGlobal>(
    rt: &R,
    cache: &RollingCache,
    load: &Load<'_>,
    resolver: &mut Core,
    seat: &mut RollingSeat,
    notes: &mut Notes,
)
    requires at { IsSeatOf cache.now seat.old }
    requires stand { Stand (λ _. ⊤) (λ _. ⊤) seat.old.seat.seat resolver.old.requests }
    ensures at { IsSeatOf cache.now seat.new }
    ensures stand { Stand (λ _. ⊤) (λ _. ⊤) seat.new.seat.seat resolver.new.requests }
{
    catch_up(rt, cache, load, resolver, seat, notes);
    submit(rt.alloc(), resolver, notes);
    drive(rt, cache, load, resolver, seat, notes);
}

/// Makes the requests of a second.
fn resolve_share<R: Wait + Clock + AllocGlobal>(
    rt: &R,
    cache: &RollingCache,
    load: &Load<'_>,
    resolver: &mut Core,
    seat: &mut RollingSeat,
    notes: &mut Notes,
)
    requires at { IsSeatOf cache.now seat.old }
    requires stand { Stand (λ _. ⊤) (λ _. ⊤) seat.old.seat.seat resolver.old.requests }
    ensures at { IsSeatOf cache.now seat.new }
    ensures stand { Stand (λ _. ⊤) (λ _. ⊤) seat.new.seat.seat resolver.new.requests }
{
    'requests: for _request in 0..load.share {
        resolve(rt, cache, load, resolver, seat, notes);
    }
}

/// What one thread of the run has.
#[derive(Drop)]
pub(crate) struct Desk<'a> {
    cache: &'a RollingCache,
    resolver: Core,
    seat: RollingSeat,
    notes: Notes,
}

impl<'a> Model for Desk<'a> {
    ghost use Rattle.std.specs.Prelude.{⊤};
    ghost use Rattle.rolling_cache.specs.Rolling.{IsSeatOf, RollingView};
    ghost use Rattle.sip_resolver.specs.Requests.{Stand};

    ghost Value = { RollingView };

    ghost view = { λ it. it.seat };

    // The choice of each request inside is one over what its seat has seen.
    ghost invariant = { λ it. IsSeatOf it.cache.now it.seat
        × Stand (λ _. ⊤) (λ _. ⊤) it.seat.seat.seat it.resolver.requests };
}

impl<'a> Desk<'a> {
    /// The desk of the thread of this number, with a seat at this cache.
    pub fn new(
        alloc: Global,
        number: u64,
        cache: &'a RollingCache,
        seat: RollingSeat,
    ) -> Option<Desk<'a>>
        requires { IsSeatOf cache.now seat }
    {
        let notes = Notes::new(alloc, number)?;
        match empty(alloc) {
            Some(resolver) => Some(Desk {
                cache,
                resolver,
                seat,
                notes,
            }),
            None => None,
        }
    }

    /// The number of the generation that its seat is at.
    pub fn generation(&self) -> u64 {
        self.seat.generation().number()
    }

    /// What was counted.
    pub fn counted(&self) -> Counted {
        self.notes.counted
    }

    /// Goes through a second.
    pub fn pass<R: Wait + Clock + AllocGlobal>(&mut self, rt: &R, load: &Load<'_>) {
        let (resolver, seat, notes) = (&mut self.resolver, &mut self.seat, &mut self.notes);
        catch_up(rt, self.cache, load, resolver, seat, notes);
        hear_late(rt, self.cache, load, resolver, seat, notes);
        drive(rt, self.cache, load, resolver, seat, notes);
        resolve_share(rt, self.cache, load, resolver, seat, notes);
    }
}

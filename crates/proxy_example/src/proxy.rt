//! What a proxy keeps from round to round of its loop.
ghost use Rattle.std.specs.Prelude.{◌≡◌, ⊤, true, false, [], IfOk};
ghost use Rattle.answer_cache.specs.Seats.{SeatView};
ghost use Rattle.rolling_cache.specs.Rolling.{IsSeatOf};
ghost use Rattle.sip_resolver.specs.Requests.{Stand};

use crate::tell::tell;
use dns_answers::Moment;
use rolling_cache::{Change, RollingCache, RollingSeat};
use sip_resolver::{DnsTransport, Ids, Limits, NoFacts, Resolver, SubmitRefusal, rounded_up};
use sip_selection::{Caps, Request};
use srv_choice::RandomWords;
use std::alloc::{AllocError, Global};
use std::io;
use std::marker::Model;
use std::net::UdpSocket;
use std::sync::Wait;

/// How many requests are inside at once, and how many questions are out.
const INSIDE: usize = 256;

/// How many octets of a datagram are read: a reply has 512 at most where no EDNS was asked for (RFC
/// 1035 4.2.1), and what is cut off is no message.
const DATAGRAM: usize = 512;

/// How many seconds a request has.
const SECONDS: u64 = 10;

/// A resolver core with nothing inside.
fn new_core<I: Ids + Drop>(
    alloc: Global,
    ids: I,
) -> Result<Resolver<RollingCache, NoFacts, I>, AllocError>
    ensures { (seat : SeatView) → IfOk result
        (λ made. Stand (λ _. ⊤) (λ _. ⊤) seat made.requests) }
{
    let limits = Limits {
        requests: INSIDE,
        questions: INSIDE,
        streams: false,
    };
    let made = Resolver::new(alloc, limits, ids)?;
    Ok(made)
}

/// Sends the query that is to be sent next, and tells whether there was one. What the socket does
/// not take counts as lost, and is sent again in time.
fn send_next<I: Ids + Drop>(
    core: &mut Resolver<RollingCache, NoFacts, I>,
    cache: &RollingCache,
    seat: &mut RollingSeat,
    socket: &UdpSocket,
    now: Moment,
) -> bool
    requires here { IsSeatOf cache.now seat.old }
    requires stand { Stand (λ _. ⊤) (λ _. ⊤) seat.old.seat.seat core.old.requests }
    ensures here { IsSeatOf cache.now seat.new }
    ensures stand { Stand (λ _. ⊤) (λ _. ⊤) seat.new.seat.seat core.new.requests }
{
    match core.poll_transmit(cache, seat, now, rounded_up(now)) {
        Some(query) => {
            let _ = socket.send(query.octets);
            true
        }
        None => false,
    }
}

/// Sends what is to be sent.
fn send_all<I: Ids + Drop>(
    core: &mut Resolver<RollingCache, NoFacts, I>,
    cache: &RollingCache,
    seat: &mut RollingSeat,
    socket: &UdpSocket,
    now: Moment,
)
    requires here { IsSeatOf cache.now seat.old }
    requires stand { Stand (λ _. ⊤) (λ _. ⊤) seat.old.seat.seat core.old.requests }
    ensures here { IsSeatOf cache.now seat.new }
    ensures stand { Stand (λ _. ⊤) (λ _. ⊤) seat.new.seat.seat core.new.requests }
{
    'queries: for _query in 0..INSIDE {
        if !send_next(core, cache, seat, socket, now) {
            return;
        }
    }
}

/// Where a question is out, waits for a datagram as long as the socket does, and hands it to the
/// core.
fn receive<R: Wait, I: Ids + Drop>(
    rt: &R,
    core: &mut Resolver<RollingCache, NoFacts, I>,
    cache: &RollingCache,
    seat: &mut RollingSeat,
    socket: &UdpSocket,
    now: Moment,
)
    requires here { IsSeatOf cache.now seat.old }
    requires stand { Stand (λ _. ⊤) (λ _. ⊤) seat.old.seat.seat core.old.requests }
    ensures here { IsSeatOf cache.now seat.new }
    ensures stand { Stand (λ _. ⊤) (λ _. ⊤) seat.new.seat.seat core.new.requests }
{
    if core.question_count() == 0 {
        return;
    }
    let mut buffer = [0; DATAGRAM];
    let Ok(count) = socket.recv(&mut buffer) else {
        return;
    };
    let octets = &buffer[..count];
    let _ = core.handle(rt, cache, seat, now, DnsTransport::Datagram, octets);
}

/// Prints what became of the request that ended next, and tells whether one had ended.
fn tell_next<R: Print + AllocGlobal, I: Ids + Drop>(
    rt: &R,
    core: &mut Resolver<RollingCache, NoFacts, I>,
) -> io::Result<bool>
    ensures stand { (seat : SeatView) → Stand (λ _. ⊤) (λ _. ⊤) seat core.old.requests
        → Stand (λ _. ⊤) (λ _. ⊤) seat core.new.requests }
    ensures none { IfOk result (λ some. some ≡ false → core.new.requests.ended ≡ []) }
{
    match core.poll_outcome() {
        Some(ended) => {
            tell(rt, ended.number(), ended.outcome())?;
            Ok(true)
        }
        None => Ok(false),
    }
}

/// Prints what became of requests, and tells whether all of it was taken.
fn tell_outcomes<R: Print + AllocGlobal, I: Ids + Drop>(
    rt: &R,
    core: &mut Resolver<RollingCache, NoFacts, I>,
) -> io::Result<bool>
    ensures stand { (seat : SeatView) → Stand (λ _. ⊤) (λ _. ⊤) seat core.old.requests
        → Stand (λ _. ⊤) (λ _. ⊤) seat core.new.requests }
    ensures none { IfOk result (λ all. all ≡ true → core.new.requests.ended ≡ []) }
{
    'outcomes: for _outcome in 0..=INSIDE {
        if !tell_next(rt, core)? {
            return Ok(true);
        }
    }
    Ok(false)
}

/// Goes over to another generation of the cache, where another thread has begun one, or begins it
/// where the present one is to end. What is inside begins anew then. What became of requests was
/// taken before, since it rests on the old generation.
fn catch_up<R: Wait, I: Ids + Drop>(
    rt: &R,
    core: &mut Resolver<RollingCache, NoFacts, I>,
    cache: &RollingCache,
    seat: &mut RollingSeat,
    now: Moment,
)
    requires here { IsSeatOf cache.now seat.old }
    requires stand { Stand (λ _. ⊤) (λ _. ⊤) seat.old.seat.seat core.old.requests }
    requires none { core.old.requests.ended ≡ [] }
    ensures here { IsSeatOf cache.now seat.new }
    ensures stand { Stand (λ _. ⊤) (λ _. ⊤) seat.new.seat.seat core.new.requests }
{
    let changed = cache.catch_up(rt, seat, now);
    if matches!(changed, Ok(Change::Stays)) {
        return;
    }
    core.restart();
}

/// Prints what became of requests, and once all of it was taken goes over to another generation,
/// where there is one.
fn tell_and_catch_up<R: Wait + Print + AllocGlobal, I: Ids + Drop>(
    rt: &R,
    core: &mut Resolver<RollingCache, NoFacts, I>,
    cache: &RollingCache,
    seat: &mut RollingSeat,
    now: Moment,
) -> io::Result<()>
    requires here { IsSeatOf cache.now seat.old }
    requires stand { Stand (λ _. ⊤) (λ _. ⊤) seat.old.seat.seat core.old.requests }
    ensures here { IsSeatOf cache.now seat.new }
    ensures stand { Stand (λ _. ⊤) (λ _. ⊤) seat.new.seat.seat core.new.requests }
{
    if tell_outcomes(rt, core)? {
        catch_up(rt, core, cache, seat, now);
    }
    Ok(())
}

/// A proxy: its resolver core, its seat at the cache that all its threads share, and its socket to
/// a DNS server. Each thread has one.
#[derive(Drop)]
pub(crate) struct Proxy<'a, I> {
    cache: &'a RollingCache,
    seat: RollingSeat,
    core: Resolver<RollingCache, NoFacts, I>,
    socket: UdpSocket,
}

impl<'a, I> Model for Proxy<'a, I> {
    ghost use Rattle.std.specs.Prelude.{⊤};
    ghost use Rattle.rolling_cache.specs.Rolling.{IsSeatOf, RollingView};
    ghost use Rattle.sip_resolver.specs.Requests.{Stand};

    ghost Value = { RollingView };

    ghost view = { λ it. it.seat };

    // What a request inside has used are answers that its seat has seen.
    ghost invariant = { λ it. IsSeatOf it.cache.now it.seat
        × Stand (λ _. ⊤) (λ _. ⊤) it.seat.seat.seat it.core.requests };
}

impl<'a, I: Ids + Drop> Proxy<'a, I> {
    /// A proxy with no request inside.
    pub(crate) fn new(
        alloc: Global,
        cache: &'a RollingCache,
        seat: RollingSeat,
        socket: UdpSocket,
        ids: I,
    ) -> Result<Proxy<'a, I>, AllocError>
        requires { IsSeatOf cache.now seat }
    {
        let core = new_core(alloc, ids)?;
        Ok(Proxy {
            cache,
            seat,
            core,
            socket,
        })
    }

    /// Whether there is room for one more request.
    pub(crate) fn has_room(&self) -> bool {
        self.core.has_room()
    }

    /// Whether no request is inside.
    pub(crate) fn is_empty(&self) -> bool {
        self.core.is_empty()
    }

    /// Takes a request in. It ends within its seconds, whatever the server does.
    pub(crate) fn submit(
        &mut self,
        number: u64,
        request: Request,
        caps: Caps,
        key: [u8; 32],
        now: Moment,
    ) -> Result<(), SubmitRefusal> {
        let words = RandomWords::Drawn { key, number };
        let until = Moment::new(now.get().wrapping_add(SECONDS));
        self.core.submit(number, request, caps, &words, until)
    }

    /// A round: it sends what is to be sent, prints what became of requests, and goes over to
    /// another generation of the cache where there is one. Where a question is out, it waits for a
    /// reply as long as the socket does.
    pub(crate) fn round<R: Wait + Print + AllocGlobal>(
        &mut self,
        rt: &R,
        now: Moment,
    ) -> io::Result<()> {
        let (core, seat) = (&mut self.core, &mut self.seat);
        send_all(core, self.cache, seat, &self.socket, now);
        tell_and_catch_up(rt, core, self.cache, seat, now)?;
        receive(rt, core, self.cache, seat, &self.socket, now);
        Ok(())
    }
}

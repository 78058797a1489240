//! How a resolver is driven over a wire.
ghost use Rattle.std.specs.Prelude.{IfNone, IfSome, OnErr, OnOk, take};
ghost use Rattle.dns_queries.specs.Wires.{IsGiven, received};
ghost use Rattle.sip_resolver.specs.Requests.{AreSame, Stand};
ghost use Rattle.sip_resolver.specs.Works.{Works};
ghost use Rattle.sip_worker.specs.Drives.{Gives, HearsNothing, HearsOne, Loses, Sends, SendsAll, SendsNext};

use crate::wire_facts::WireFacts;
use answer_cache::{AnswerBook, Stores};
use dns_queries::{Clock, DATAGRAM_LIMIT, Wire};
use sip_resolver::{DnsTransport, Ids, Resolver, rounded_up};
use std::alloc::AllocError;
use std::sync::Wait;
use std::thread::Parker;
use std::time::Duration;

/// How many queries are sent in one round at most, before something is received.
const SEND_LIMIT: usize = 1_024;

/// How many milliseconds a worker waits after a fault of its wire.
const PAUSE: u64 = 10;

/// Sends a datagram. One that fails counts as lost, and a wire that cannot count its faults any
/// more is silent.
fn send<W: Wire>(wire: &mut W, octets: &[u8])
    ensures { Sends W.failed W.does octets.now wire.old wire.new }
{
    if wire.failures() == u64::MAX {
        return;
    }
    let _ = wire.send(octets);
}

/// Waits a little, so that a wire that fails at once keeps no processor at work.
fn pause<R: Wait>(rt: &R) {
    Parker::new().park_timeout(rt, Duration::from_millis(PAUSE));
}

/// Receives a datagram, as `send` sends one. After a fault it waits a little.
fn receive<R: Wait, W: Wire>(
    rt: &R,
    wire: &mut W,
    buffer: &mut [u8; DATAGRAM_LIMIT],
) -> Option<usize>
    ensures given { IfSome result (λ count. IsGiven W.gives count buffer.new) }
    ensures came { IfSome result
        (λ count. W.does wire.old (received (take count buffer.new) tt) wire.new) }
    ensures none { IfNone result (HearsNothing W.failed W.does wire.old wire.new) }
{
    if wire.failures() == u64::MAX {
        pause(rt);
        return None;
    }
    match wire.receive(buffer) {
        Ok(given) => given,
        Err(_) => {
            pause(rt);
            None
        }
    }
}

/// Sends the query that is to be sent next, and tells whether there was one.
fn send_next<B: AnswerBook, W: Wire, C: Clock, I: Ids + Drop>(
    resolver: &mut Resolver<B, WireFacts<W, C>, I>,
    book: &B,
    seat: &mut B::Seat,
    wire: &mut W,
    clock: &C,
) -> bool
    requires made_here { B.belongs book.now seat.old }
    requires stand { Stand W.gives C.shows (B.shown seat.old) resolver.old.requests }
    ensures stays { B.belongs book.now seat.new }
    ensures works { Works W.gives C.shows (B.shown seat.old) (B.shown seat.new) }
    ensures stand { Stand W.gives C.shows (B.shown seat.new) resolver.new.requests }
    ensures same { AreSame resolver.old.requests resolver.new.requests }
    ensures sends { SendsNext W.failed W.does (Gives W.gives C.shows I.draws)
        wire.old wire.new resolver.old resolver.new result }
{
    let now = clock.now();
    match resolver.poll_transmit(book, seat, now, rounded_up(now)) {
        Some(query) => {
            send(wire, query.octets);
            true
        }
        None => false,
    }
}

/// Sends what there is to send.
pub(crate) fn send_all<B: AnswerBook, W: Wire, C: Clock, I: Ids + Drop>(
    resolver: &mut Resolver<B, WireFacts<W, C>, I>,
    book: &B,
    seat: &mut B::Seat,
    wire: &mut W,
    clock: &C,
)
    requires made_here { B.belongs book.now seat.old }
    requires stand { Stand W.gives C.shows (B.shown seat.old) resolver.old.requests }
    ensures stays { B.belongs book.now seat.new }
    ensures works { Works W.gives C.shows (B.shown seat.old) (B.shown seat.new) }
    ensures stand { Stand W.gives C.shows (B.shown seat.new) resolver.new.requests }
    ensures same { AreSame resolver.old.requests resolver.new.requests }
    ensures sends { SendsAll SEND_LIMIT W.failed W.does (Gives W.gives C.shows I.draws)
        wire.old wire.new resolver.old resolver.new }
{
    'sends: for _send in 0..SEND_LIMIT {
        if !send_next(resolver, book, seat, wire, clock) {
            break;
        }
    }
}

/// Receives once, and hands on what came. Where memory is refused for that, it is lost.
pub(crate) fn receive_once<R: Wait, B: Stores<R>, W: Wire, C: Clock, I: Ids + Drop>(
    rt: &R,
    resolver: &mut Resolver<B, WireFacts<W, C>, I>,
    book: &B,
    seat: &mut B::Seat,
    wire: &mut W,
    clock: &C,
    buffer: &mut [u8; DATAGRAM_LIMIT],
) -> Result<(), AllocError>
    requires made_here { B.belongs book.now seat.old }
    requires stand { Stand W.gives C.shows (B.shown seat.old) resolver.old.requests }
    ensures stays { B.belongs book.now seat.new }
    ensures works { Works W.gives C.shows (B.shown seat.old) (B.shown seat.new) }
    ensures stand { Stand W.gives C.shows (B.shown seat.new) resolver.new.requests }
    ensures same { AreSame resolver.old.requests resolver.new.requests }
    ensures hears { OnOk result
        (HearsOne W.failed W.does wire.old wire.new resolver.old resolver.new) }
    ensures loses { OnErr result (Loses W.does wire.old wire.new resolver.old resolver.new) }
{
    if let Some(count) = receive(rt, wire, buffer) {
        let octets = &buffer[..count];
        resolver.handle(rt, book, seat, clock.now(), DnsTransport::Datagram, octets)?;
    }
    Ok(())
}

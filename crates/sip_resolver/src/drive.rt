//! The loop that drives a resolver over a wire.
ghost use Rattle.std.specs.Prelude.{◌≡◌, ◌↔◌, ◌⊎◌, ◌+◌, ℕ, [], None, IfSome, IsTrue, MatchOption};
ghost use Rattle.std.specs.List.{Contains, sum_by};
ghost use Rattle.answer_cache.specs.Seats.{SeatView};
ghost use Rattle.sip_resolver.specs.Cancels.{questions_left, requests_with, requests_without};
ghost use Rattle.sip_resolver.specs.Driven.{Drives, Gives, GivesOut, LetsGo, SendsNext};
ghost use Rattle.sip_resolver.specs.Outcomes.{IsOutcome, Sought};
ghost use Rattle.sip_resolver.specs.Questions.{deadlines_of};
ghost use Rattle.sip_resolver.specs.Requests.{AreSame, Stand, numbers_of, weight};
ghost use Rattle.sip_resolver.specs.Works.{Works};

use crate::ids::Ids;
use crate::outcome::Resolved;
use crate::resolver::Resolver;
use crate::rounding::rounded_up;
use crate::transmit::DnsTransport;
use crate::wire_facts::WireFacts;
use answer_cache::{AnswerBook, Stores};
use dns_queries::{Clock, MessageWire, Received};
use std::sync::Wait;

/// How many queries are sent in one round at most, before something is received.
const SEND_LIMIT: usize = 1_024;

/// Sends the query that is to be sent next, and tells whether there was one.
fn send_next<B: AnswerBook, W: MessageWire, C: Clock, I: Ids + Drop>(
    resolver: &mut Resolver<B, WireFacts<W, C>, I>,
    book: &B,
    seat: &mut B::Seat,
    wire: &mut W,
    clock: &C,
) -> bool
    requires made_here { B.belongs book.now seat.old }
    requires stand { Stand W.gives C.shows (B.shown seat.old) resolver.old.requests }
    ensures stays { B.belongs book.now seat.new }
    ensures works { Works W.gives C.shows (B.shown seat.old) (B.shown seat.new) }
    ensures stand { Stand W.gives C.shows (B.shown seat.new) resolver.new.requests }
    ensures same { AreSame resolver.old.requests resolver.new.requests }
    ensures sends { SendsNext W.does (Gives W.gives C.shows I.draws)
        wire.old wire.new resolver.old resolver.new result }
{
    let now = clock.now();
    match resolver.poll_transmit(book, seat, now, rounded_up(now)) {
        Some(query) => {
            wire.send(query.octets);
            true
        }
        None => false,
    }
}

/// Sends what there is to send.
fn send_all<B: AnswerBook, W: MessageWire, C: Clock, I: Ids + Drop>(
    resolver: &mut Resolver<B, WireFacts<W, C>, I>,
    book: &B,
    seat: &mut B::Seat,
    wire: &mut W,
    clock: &C,
)
    requires made_here { B.belongs book.now seat.old }
    requires stand { Stand W.gives C.shows (B.shown seat.old) resolver.old.requests }
    ensures stays { B.belongs book.now seat.new }
    ensures works { Works W.gives C.shows (B.shown seat.old) (B.shown seat.new) }
    ensures stand { Stand W.gives C.shows (B.shown seat.new) resolver.new.requests }
    ensures same { AreSame resolver.old.requests resolver.new.requests }
    ensures drives { Drives W.does wire.old wire.new }
{
    'sends: for _send in 0..SEND_LIMIT {
        if !send_next(resolver, book, seat, wire, clock) {
            break;
        }
    }
}

/// Sends what there is to send, and gives the next request that ended, with what became of it.
fn send_and_poll<B: AnswerBook, W: MessageWire, C: Clock, I: Ids + Drop>(
    resolver: &mut Resolver<B, WireFacts<W, C>, I>,
    book: &B,
    seat: &mut B::Seat,
    wire: &mut W,
    clock: &C,
) -> Option<Resolved<B>>
    requires made_here { B.belongs book.now seat.old }
    requires stand { Stand W.gives C.shows (B.shown seat.old) resolver.old.requests }
    ensures stays { B.belongs book.now seat.new }
    ensures works { Works W.gives C.shows (B.shown seat.old) (B.shown seat.new) }
    ensures stand { Stand W.gives C.shows (B.shown seat.new) resolver.new.requests }
    ensures outcome { IfSome result (λ ended.
        IsOutcome W.gives C.shows (B.shown seat.new) ended.sought ended.outcome) }
    ensures once { GivesOut result resolver.old.requests resolver.new.requests }
    ensures none { result ≡ None → resolver.new.requests.ended ≡ [] }
    ensures drives { Drives W.does wire.old wire.new }
{
    send_all(resolver, book, seat, wire, clock);
    resolver.poll_outcome()
}

/// Receives once, and hands on what came: a message, or that no server takes a query, or that no
/// reply to one came in time. Where memory is refused for a message, it is lost.
fn receive_once<R, B: Stores<R>, W: MessageWire, C: Clock, I: Ids + Drop>(
    rt: &R,
    resolver: &mut Resolver<B, WireFacts<W, C>, I>,
    book: &B,
    seat: &mut B::Seat,
    wire: &mut W,
    clock: &C,
)
    requires made_here { B.belongs book.now seat.old }
    requires stand { Stand W.gives C.shows (B.shown seat.old) resolver.old.requests }
    ensures stays { B.belongs book.now seat.new }
    ensures works { Works W.gives C.shows (B.shown seat.old) (B.shown seat.new) }
    ensures stand { Stand W.gives C.shows (B.shown seat.new) resolver.new.requests }
    ensures same { AreSame resolver.old.requests resolver.new.requests }
    ensures drives { Drives W.does wire.old wire.new }
{
    match wire.receive() {
        Some(Received::Message(message)) => {
            let _heard = resolver.handle(
                rt,
                book,
                seat,
                clock.now(),
                DnsTransport::Datagram,
                message.as_slice(),
            );
        }
        Some(Received::Closed(id)) => {
            let _closed = resolver.close(id);
        }
        Some(Received::TimedOut(id)) => {
            let _given_up = resolver.give_up(id);
        }
        None => {}
    }
}

/// Goes on with a resolver over a wire: sends what there is to send, and gives the next request
/// that ended, with what became of it. Where none did, it receives once, if a question is out, and
/// hands on what came.
///
/// It is what `next_outcome` does again and again, for a caller that submits requests in between,
/// or counts the time of each by itself.
pub fn poll_over<R, B: Stores<R>, W: MessageWire, C: Clock, I: Ids + Drop>(
    rt: &R,
    resolver: &mut Resolver<B, WireFacts<W, C>, I>,
    book: &B,
    seat: &mut B::Seat,
    wire: &mut W,
    clock: &C,
) -> Option<Resolved<B>>
    requires made_here { B.belongs book.now seat.old }
    requires stand { Stand W.gives C.shows (B.shown seat.old) resolver.old.requests }
    ensures stays { B.belongs book.now seat.new }
    ensures works { Works W.gives C.shows (B.shown seat.old) (B.shown seat.new) }
    ensures stand { Stand W.gives C.shows (B.shown seat.new) resolver.new.requests }
    ensures outcome { IfSome result (λ ended.
        IsOutcome W.gives C.shows (B.shown seat.new) ended.sought ended.outcome) }
    ensures once { GivesOut result resolver.old.requests resolver.new.requests }
    // What goes out over the wire is queries of one question, with RD set (RFC 1035 4.1.1).
    ensures drives { Drives W.does wire.old wire.new }
{
    if let Some(ended) = send_and_poll(resolver, book, seat, wire, clock) {
        return Some(ended);
    }
    if resolver.next_timeout().is_none() {
        return None;
    }
    receive_once(rt, resolver, book, seat, wire, clock);
    None
}

/// Drives a resolver over a wire until a request ends, and gives it with what became of it.
///
/// None: no question is out that could end another request, or the time of the wire is over. Then
/// all that ended came out.
pub fn next_outcome<R: Wait, B: Stores<R>, W: MessageWire, C: Clock, I: Ids + Drop>(
    rt: &R,
    resolver: &mut Resolver<B, WireFacts<W, C>, I>,
    book: &B,
    seat: &mut B::Seat,
    wire: &mut W,
    clock: &C,
) -> Option<Resolved<B>>
    requires made_here { B.belongs book.now seat.old }
    requires stand { Stand W.gives C.shows (B.shown seat.old) resolver.old.requests }
    ensures stays { B.belongs book.now seat.new }
    ensures works { Works W.gives C.shows (B.shown seat.old) (B.shown seat.new) }
    ensures stand { Stand W.gives C.shows (B.shown seat.new) resolver.new.requests }
    // What became of it is the choice of RFC 3263 over the book's history and what the wire gave,
    // or the question whose answer is missing.
    ensures outcome { IfSome result (λ ended.
        IsOutcome W.gives C.shows (B.shown seat.new) ended.sought ended.outcome) }
    // Each request that was inside comes out once, or is inside still.
    ensures once { GivesOut result resolver.old.requests resolver.new.requests }
    ensures none { result ≡ None → (resolver.new.requests.ended ≡ [])
        × ((deadlines_of resolver.new.questions ≡ []) ⊎ W.over wire.new) }
    // What goes out over the wire is queries of one question, with RD set (RFC 1035 4.1.1).
    ensures drives { Drives W.does wire.old wire.new }
{
    'rounds: for _ in rt.forever() {
        if let Some(ended) = send_and_poll(resolver, book, seat, wire, clock) {
            return Some(ended);
        }
        if resolver.next_timeout().is_none() || wire.is_over() {
            return None;
        }
        receive_once(rt, resolver, book, seat, wire, clock);
    }
    unreachable!()
}

/// Cancels the request of this number, and says whether there was one (`Resolver::cancel`). Where
/// no other request waits for the reply to its question, the wire lets the query go.
pub fn cancel_over<B: AnswerBook, W: MessageWire, C: Clock, I: Ids + Drop>(
    resolver: &mut Resolver<B, WireFacts<W, C>, I>,
    wire: &mut W,
    number: u64,
) -> bool
    ensures found { IsTrue result ↔ Contains (numbers_of resolver.old.requests) number }
    ensures requests { resolver.new.requests ≡ requests_without number resolver.old.requests }
    ensures questions { resolver.new.questions ≡ questions_left resolver.old.requests.waiting
        resolver.new.requests.waiting resolver.old.questions }
    ensures kept { (h : Sought → ℕ) → weight h resolver.old.requests
        ≡ weight h resolver.new.requests
        + sum_by h (requests_with number resolver.old.requests) }
    ensures stand { (seat : SeatView) → Stand W.gives C.shows seat resolver.old.requests
        → Stand W.gives C.shows seat resolver.new.requests }
    ensures lets_go { LetsGo W.does number resolver.old resolver.new wire.old wire.new }
    ensures drives { Drives W.does wire.old wire.new }
{
    let awaited = resolver.awaited_id(number);
    let was_inside = resolver.cancel(number);
    if let Some(id) = awaited {
        if !resolver.is_out(id) {
            wire.leave(id);
        }
    }
    was_inside
}

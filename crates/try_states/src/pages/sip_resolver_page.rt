//! The example of the page of `sip_resolver`.
ghost use Rattle.std.specs.Prelude.{ℕ, IfSome, List};
ghost use Rattle.answer_cache.specs.Seats.{SeatView};
ghost use Rattle.sip_resolver.specs.Requests.{Stand};

use crate::pages::answers::request;
use answer_cache::{AnswerBook, ListCache, Stores};
use dns_answers::Moment;
use sip_resolver::{
    CountingIds, DnsTransport, Facts, Limits, NoFacts, Outcome, ReplyOutcome, Resolver, rounded_up,
};
use sip_selection::{Caps, Families, Request};
use sip_uri::Transport::Udp;
use srv_choice::RandomWords;
use std::alloc::Global;
use std::sync::Wait;

/// A reply to the query A a.example. of id 0: 192.0.2.7, TTL 300 (RFC 1035 4.1).
const REPLY: [u8; 43] = [
    0, 0, 0x81, 0x80, 0, 1, 0, 1, 0, 0, 0, 0, 1, b'a', 7, b'e', b'x', b'a', b'm', b'p', b'l', b'e',
    0, 0, 1, 0, 1, 0xc0, 12, 0, 1, 0, 1, 0, 0, 0x01, 0x2c, 0, 4, 192, 0, 2, 7,
];

/// A resolver that has the request inside, where there is memory for both.
fn resolver_of<B: AnswerBook, F: Facts>(
    alloc: Global,
    request: Request,
    until: Option<Moment>,
) -> Option<Resolver<B, F, CountingIds>>
    ensures { (seat : SeatView) → IfSome result
        (λ made. Stand F.gives F.shows seat made.requests) }
{
    let caps = Caps::new(&[Udp], Families::V4)?;
    let limits = Limits {
        requests: 8,
        questions: 8,
        streams: false,
    };
    let Ok(mut resolver) = Resolver::new(alloc, limits, CountingIds::new()) else {
        return None;
    };
    let words = RandomWords::Drawn {
        key: [0; 32],
        number: 1,
    };
    resolver.submit(1, request, caps, &words, until).ok()?;
    Some(resolver)
}

/// Whether the octets that are sent next are a query of id 0; None where none are.
fn sends<B: AnswerBook, F: Facts>(
    resolver: &mut Resolver<B, F, CountingIds>,
    book: &B,
    seat: &mut B::Seat,
    now: Moment,
) -> Option<bool>
    requires made_here { B.belongs book.now seat.old }
    requires shown { F.shows now }
    requires stand { Stand F.gives F.shows (B.shown seat.old) resolver.old.requests }
    ensures stays { B.belongs book.now seat.new }
    ensures stand { Stand F.gives F.shows (B.shown seat.new) resolver.new.requests }
{
    // the octets of a query, which begin with its id
    let asked = rounded_up(now);
    let query = resolver.poll_transmit(book, seat, now, asked)?.octets;
    Some(query.starts_with(b"\x00\x00"))
}

/// Hands its reply in; None where memory is refused.
fn hears<R, B: Stores<R>, F: Facts>(
    rt: &R,
    resolver: &mut Resolver<B, F, CountingIds>,
    book: &B,
    seat: &mut B::Seat,
    now: Moment,
) -> Option<ReplyOutcome>
    requires made_here { B.belongs book.now seat.old }
    requires given { (octets : List ℕ) → F.gives octets }
    requires shown { F.shows now }
    requires stand { Stand F.gives F.shows (B.shown seat.old) resolver.old.requests }
    ensures stays { B.belongs book.now seat.new }
    ensures stand { Stand F.gives F.shows (B.shown seat.new) resolver.new.requests }
{
    // the octets of its reply, and what they meant
    let heard = resolver.handle(rt, book, seat, now, DnsTransport::Datagram, &REPLY);
    heard.ok()
}

/// Whether the request that ended next goes to one target; None where none ended.
fn goes<B: AnswerBook, F: Facts>(resolver: &mut Resolver<B, F, CountingIds>) -> Option<bool> {
    // the request's number, and what became of it
    let ended = resolver.poll_outcome()?;
    Some(matches!(ended.outcome(), Outcome::Targets(list) if list.as_slice().len() == 1))
}

/// Whether a query is sent, nothing more after its reply, and the request then goes to a target.
fn sends_and_goes<R, B: Stores<R>, F: Facts>(
    rt: &R,
    resolver: &mut Resolver<B, F, CountingIds>,
    book: &B,
    seat: &mut B::Seat,
    now: Moment,
) -> Option<[bool; 3]>
    requires made_here { B.belongs book.now seat.old }
    requires given { (octets : List ℕ) → F.gives octets }
    requires shown { F.shows now }
    requires stand { Stand F.gives F.shows (B.shown seat.old) resolver.old.requests }
{
    let asks = sends(resolver, book, seat, now)?;
    hears(rt, resolver, book, seat, now)?;
    let rests = sends(resolver, book, seat, now).is_none();
    let goes = goes(resolver)?;
    Some([asks, rests, goes])
}

/// The same of a request, over a book of its own.
fn with_book(rt: &impl Wait, alloc: Global, request: Request) -> Option<[bool; 3]> {
    let now = Moment::new(100)?;
    match resolver_of::<ListCache, NoFacts>(alloc, request, Moment::new(105)) {
        Some(mut resolver) => {
            let (book, mut seat) = ListCache::new(alloc);
            let seen = sends_and_goes(rt, &mut resolver, &book, &mut seat, now);
            drop(seat);
            drop(book);
            drop(resolver);
            seen
        }
        None => None,
    }
}

/// The same of the request to port 5070 of a.example.
fn example(rt: &impl Wait, alloc: Global) -> Option<[bool; 3]> {
    with_book(rt, alloc, request(alloc)?)
}

#[test]
fn request_ends(rt: HostRuntime) {
    assert_eq!(rt; example(&rt, rt.alloc()), Some([true; 3]));
}

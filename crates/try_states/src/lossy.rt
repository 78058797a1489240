//! A thousand requests to a hundred domains, over a wire that loses a third of what it carries.
ghost use Rattle.std.specs.Prelude.{⊤, ℕ, IfSome, List};
ghost use Rattle.answer_cache.specs.Seats.{SeatView};
ghost use Rattle.sip_resolver.specs.Requests.{Stand};

use crate::worker_jobs::WORDS;
use answer_cache::{AnswerBook, ListCache, Stores};
use dns_answers::Moment;
use dns_zone::Zone;
use rand_chacha::ChaCha20Rng;
use rand_core::{Rng, SeedableRng};
use sip_resolver::{
    CountingIds, DnsTransport, Facts, Limits, NoFacts, Outcome, Resolver, TargetList, rounded_up,
};
use sip_selection::{Caps, Families, Request};
use sip_uri::Transport::Udp;
use sip_uri::{Address, SipUri, read_uri};
use srv_choice::RandomWords;
use std::alloc::{AllocError, Global};
use std::sync::Wait;

const DOMAINS: u64 = 100;

const REQUESTS: u64 = 1_000;

/// Room for all requests, and for as many questions as there can be.
const LIMITS: Limits = Limits {
    requests: 1_024,
    questions: 256,
    streams: false,
};

/// Where the datagrams go, and which of them are lost.
#[derive(Drop)]
struct Wire {
    zone: Zone,
    chance: ChaCha20Rng,
}

/// What became of the requests so far.
#[derive(Clone, Copy, Debug, PartialEq, Eq)]
struct Counts {
    /// They go to the one address of their domain.
    right: u64,
    /// Their question was sent three times.
    gave_up: u64,
    /// Something else became of them.
    wrong: u64,
}

/// The line of a domain: it has the address 192.0.2 and its number.
fn zone_line(alloc: Global, domain: u64) -> Result<String, AllocError> {
    format!(in alloc; "d{domain}.example. 300 A 192.0.2.{domain}\n")
}

/// The lines of all domains.
fn zone_text(alloc: Global) -> Result<String, AllocError> {
    let mut text = String::new(alloc);
    for domain in 0..DOMAINS {
        text.push_str(&zone_line(alloc, domain)?)?;
    }
    Ok(text)
}

/// The zone, where there is memory for it.
fn zone(alloc: Global) -> Option<Zone> {
    match zone_text(alloc) {
        Ok(text) => Zone::read(alloc, &text).ok(),
        Err(_) => None,
    }
}

impl Wire {
    /// Whether the next datagram is lost.
    fn loses(&mut self) -> bool {
        self.chance.next_u32() % 3 == 0
    }

    /// The reply to a query, if neither of them is lost.
    fn carries(&mut self, alloc: Global, query: &[u8]) -> Option<Vec<u8>> {
        if self.loses() {
            return None;
        }
        let reply = self.zone.answer_datagram(alloc, query).ok()??;
        if self.loses() { None } else { Some(reply) }
    }
}

/// A resolver in which no request is, where there is memory for it.
fn empty<B: AnswerBook, F: Facts>(alloc: Global) -> Option<Resolver<B, F, CountingIds>>
    ensures { (seat : SeatView) → IfSome result
        (λ made. Stand F.gives F.shows seat made.requests) }
{
    let Ok(resolver) = Resolver::new(alloc, LIMITS, CountingIds::new()) else {
        return None;
    };
    Some(resolver)
}

/// Takes a request to this URI in.
fn submit<B: AnswerBook, F: Facts>(
    resolver: &mut Resolver<B, F, CountingIds>,
    number: u64,
    uri: SipUri,
    caps: Caps,
) -> Option<()>
    ensures { (seat : SeatView) → Stand F.gives F.shows seat resolver.old.requests
        → Stand F.gives F.shows seat resolver.new.requests }
{
    let words = RandomWords::Given(&WORDS);
    let submitted = resolver.submit(number, Request::Uri(uri), caps, &words, None);
    submitted.ok()
}

/// The same of its text.
fn add<B: AnswerBook, F: Facts>(
    resolver: &mut Resolver<B, F, CountingIds>,
    alloc: Global,
    number: u64,
    text: &str,
) -> Option<()>
    ensures { (seat : SeatView) → Stand F.gives F.shows seat resolver.old.requests
        → Stand F.gives F.shows seat resolver.new.requests }
{
    let caps = Caps::new(&[Udp], Families::V4)?;
    match read_uri(alloc, text) {
        Ok(uri) => submit(resolver, number, uri, caps),
        Err(_) => None,
    }
}

/// Takes all requests in: request n to domain n modulo a hundred.
fn add_all<B: AnswerBook, F: Facts>(
    resolver: &mut Resolver<B, F, CountingIds>,
    alloc: Global,
) -> Option<()>
    ensures { (seat : SeatView) → Stand F.gives F.shows seat resolver.old.requests
        → Stand F.gives F.shows seat resolver.new.requests }
{
    'all: for number in 0..REQUESTS {
        let domain = number % DOMAINS;
        let uri = format!(in alloc; "sip:d{domain}.example:5070").ok()?;
        add(resolver, alloc, number, uri.as_str())?;
    }
    Some(())
}

/// Sends what is to be sent next, and hears the reply at once if it comes. Whether anything was
/// sent.
fn sends_one<R, B: Stores<R>, F: Facts>(
    rt: &R,
    alloc: Global,
    resolver: &mut Resolver<B, F, CountingIds>,
    book: &B,
    seat: &mut B::Seat,
    wire: &mut Wire,
    now: Moment,
) -> bool
    requires made_here { B.belongs book.now seat.old }
    requires given { (octets : List ℕ) → F.gives octets }
    requires shown { F.shows now }
    requires stand { Stand F.gives F.shows (B.shown seat.old) resolver.old.requests }
    ensures stays { B.belongs book.now seat.new }
    ensures stand { Stand F.gives F.shows (B.shown seat.new) resolver.new.requests }
{
    let asked = rounded_up(now);
    let Some(query) = resolver.poll_transmit(book, seat, now, asked) else {
        return false;
    };
    if let Some(reply) = wire.carries(alloc, query.octets) {
        let _heard = resolver.handle(
            rt,
            book,
            seat,
            now,
            DnsTransport::Datagram,
            reply.as_slice(),
        );
    }
    true
}

/// Goes on until no question is out.
fn finish<R, B: Stores<R>, F: Facts>(
    rt: &R,
    alloc: Global,
    resolver: &mut Resolver<B, F, CountingIds>,
    book: &B,
    seat: &mut B::Seat,
    wire: &mut Wire,
)
    requires made_here { B.belongs book.now seat.old }
    requires given { (octets : List ℕ) → F.gives octets }
    requires shown { (now : ℕ) → F.shows now }
    requires stand { Stand F.gives F.shows (B.shown seat.old) resolver.old.requests }
{
    let mut second = 100;
    'all: for _turn in 0..10_000 {
        let Some(now) = Moment::new(second) else {
            return;
        };
        if !sends_one(rt, alloc, resolver, book, seat, wire, now) {
            let Some(due) = resolver.next_timeout() else {
                return;
            };
            second = due;
        }
    }
}

impl Counts {
    /// One more request ended so.
    fn count(&mut self, number: u64, outcome: &Outcome) {
        let count = match outcome {
            Outcome::Targets(list) if is_right(number, list) => &mut self.right,
            Outcome::NoAnswer(_) => &mut self.gave_up,
            _ => &mut self.wrong,
        };
        *count = count.saturating_add(1);
    }
}

/// Whether the targets are the one address of the request's domain.
fn is_right(number: u64, list: &TargetList) -> bool {
    let [target] = list.as_slice() else {
        return false;
    };
    let domain = (number % DOMAINS) as u8;
    target.address == Address::V4([192, 0, 2, domain])
}

/// What became of the requests. That none ends twice is proved (`law_requests_are_kept`).
fn counted<B: AnswerBook, F: Facts>(resolver: &mut Resolver<B, F, CountingIds>) -> Counts {
    let mut counts = Counts {
        right: 0,
        gave_up: 0,
        wrong: 0,
    };
    for _request in 0..2_000 {
        let Some(ended) = resolver.poll_outcome() else {
            return counts;
        };
        counts.count(ended.number(), ended.outcome());
    }
    counts
}

/// What becomes of the requests in a resolver over this wire and a new book.
fn outcomes_of(
    rt: &impl Wait,
    alloc: Global,
    resolver: &mut Resolver<ListCache, NoFacts, CountingIds>,
    wire: &mut Wire,
) -> Counts
    requires { (seat : SeatView) → Stand (λ _. ⊤) (λ _. ⊤) seat resolver.old.requests }
{
    let (book, mut seat) = ListCache::new(alloc);
    finish(rt, alloc, resolver, &book, &mut seat, wire);
    drop(seat);
    drop(book);
    counted(resolver)
}

/// The same of all requests in a new resolver.
fn outcomes(rt: &impl Wait, alloc: Global, wire: &mut Wire) -> Option<Counts> {
    let mut resolver = empty::<ListCache, NoFacts>(alloc)?;
    let counts = match add_all(&mut resolver, alloc) {
        Some(()) => Some(outcomes_of(rt, alloc, &mut resolver, wire)),
        None => None,
    };
    drop(resolver);
    counts
}

/// The same over a wire that loses by the key stream of this byte.
fn with_seed(rt: &impl Wait, alloc: Global, seed: u8) -> Option<Counts> {
    let zone = zone(alloc)?;
    let chance = ChaCha20Rng::from_seed([seed; 32]);
    outcomes(rt, alloc, &mut Wire { zone, chance })
}

/// Whether each request ended once: at its domain's address, or as its question was sent in vain,
/// which the ten requests to a domain share.
fn all_end(rt: &impl Wait, alloc: Global, seed: u8) -> Option<bool> {
    let counts = with_seed(rt, alloc, seed)?;
    let all = counts.right.saturating_add(counts.gave_up) == REQUESTS;
    Some(all && counts.wrong == 0 && counts.gave_up % 10 == 0 && counts.gave_up > 0)
}

#[test]
fn each_request_ends_once(rt: HostRuntime) {
    for seed in 0..3 {
        assert_eq!(rt; all_end(&rt, rt.alloc(), seed), Some(true));
    }
}

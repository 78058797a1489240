//! What a resolver is called with, one call at a time.
ghost use Rattle.std.specs.Prelude.{ℕ, IsTrue, List};
ghost use Rattle.answer_cache.specs.Seats.{SeatView};
ghost use Rattle.sip_resolver.specs.Requests.{Stand};

use crate::fields::keep;
use crate::lookups::{push_number_line, push_yes};
use crate::resolver_lines::{push_heard, push_outcome, push_sent, push_sent_octets};
use crate::resolver_steps::{LineIds, Submitted};
use crate::shown::push_debug_line;
use answer_cache::{AnswerBook, Stores};
use dns_answers::Moment;
use dns_zone::Zone;
use row_fields::{Fault, Output};
use sip_resolver::{DnsTransport, Facts, Resolver};
use srv_choice::RandomWords;

/// How many queries are answered at one moment at most.
const SERVE_LIMIT: usize = 1_000;

/// Submits a request.
pub(crate) fn submit<B: AnswerBook, F: Facts>(
    output: &mut Output,
    resolver: &mut Resolver<B, F, LineIds>,
    submitted: Submitted,
)
    ensures { (seat : SeatView) → Stand F.gives F.shows seat resolver.old.requests
        → Stand F.gives F.shows seat resolver.new.requests }
{
    let Submitted {
        number,
        request,
        caps,
        words,
        until,
    } = submitted;
    match resolver.submit(number, request, caps, &RandomWords::Given(&words), until) {
        Ok(()) => output.push_line("taken"),
        Err(refusal) => push_debug_line(output, &refusal),
    }
}

/// Polls what is to be sent.
pub(crate) fn poll<B: AnswerBook, F: Facts>(
    output: &mut Output,
    resolver: &mut Resolver<B, F, LineIds>,
    book: &B,
    seat: &mut B::Seat,
    now: Moment,
    asked: Moment,
)
    requires made_here { B.belongs book.now seat.old }
    requires shown { F.shows now }
    requires stand { Stand F.gives F.shows (B.shown seat.old) resolver.old.requests }
    ensures stays { B.belongs book.now seat.new }
    ensures stand { Stand F.gives F.shows (B.shown seat.new) resolver.new.requests }
{
    match resolver.poll_transmit(book, seat, now, asked) {
        Some(transmit) => push_sent(output, transmit.octets, transmit.over),
        None => output.push_line("nothing"),
    }
}

/// Polls what is to be sent, and shows its octets.
pub(crate) fn poll_octets<B: AnswerBook, F: Facts>(
    output: &mut Output,
    resolver: &mut Resolver<B, F, LineIds>,
    book: &B,
    seat: &mut B::Seat,
    now: Moment,
    asked: Moment,
)
    requires made_here { B.belongs book.now seat.old }
    requires shown { F.shows now }
    requires stand { Stand F.gives F.shows (B.shown seat.old) resolver.old.requests }
    ensures stays { B.belongs book.now seat.new }
    ensures stand { Stand F.gives F.shows (B.shown seat.new) resolver.new.requests }
{
    match resolver.poll_transmit(book, seat, now, asked) {
        Some(transmit) => push_sent_octets(output, transmit.octets, transmit.over),
        None => output.push_line("nothing"),
    }
}

/// Polls what is to be sent, and shows which send of its question it is.
pub(crate) fn poll_send<B: AnswerBook, F: Facts>(
    output: &mut Output,
    resolver: &mut Resolver<B, F, LineIds>,
    book: &B,
    seat: &mut B::Seat,
    now: Moment,
    asked: Moment,
)
    requires made_here { B.belongs book.now seat.old }
    requires shown { F.shows now }
    requires stand { Stand F.gives F.shows (B.shown seat.old) resolver.old.requests }
    ensures stays { B.belongs book.now seat.new }
    ensures stand { Stand F.gives F.shows (B.shown seat.new) resolver.new.requests }
{
    match resolver.poll_transmit(book, seat, now, asked) {
        Some(transmit) => {
            output.push_number(u64::from(transmit.send));
            output.push(" ");
            push_sent(output, transmit.octets, transmit.over);
        }
        None => output.push_line("nothing"),
    }
}

/// Hands octets in.
pub(crate) fn hear<B: Stores<R>, F: Facts, R>(
    rt: &R,
    output: &mut Output,
    resolver: &mut Resolver<B, F, LineIds>,
    book: &B,
    seat: &mut B::Seat,
    now: Moment,
    over: DnsTransport,
    octets: &[u8],
)
    requires made_here { B.belongs book.now seat.old }
    requires given { (octets : List ℕ) → F.gives octets }
    requires shown { F.shows now }
    requires stand { Stand F.gives F.shows (B.shown seat.old) resolver.old.requests }
    ensures stays { B.belongs book.now seat.new }
    ensures stand { Stand F.gives F.shows (B.shown seat.new) resolver.new.requests }
{
    let heard = resolver.handle(rt, book, seat, now, over, octets);
    push_heard(output, heard);
}

/// Cancels the request of a number.
pub(crate) fn cancel<B: AnswerBook, F: Facts>(
    output: &mut Output,
    resolver: &mut Resolver<B, F, LineIds>,
    number: u64,
)
    ensures { (seat : SeatView) → Stand F.gives F.shows seat resolver.old.requests
        → Stand F.gives F.shows seat resolver.new.requests }
{
    push_yes(output, resolver.cancel(number));
}

/// Ends the wait for the reply to the question of an id, which no server takes.
pub(crate) fn close<B: AnswerBook, F: Facts>(
    output: &mut Output,
    resolver: &mut Resolver<B, F, LineIds>,
    id: u16,
)
    ensures { (seat : SeatView) → Stand F.gives F.shows seat resolver.old.requests
        → Stand F.gives F.shows seat resolver.new.requests }
{
    push_yes(output, resolver.close(id));
}

/// Lets the requests begin their choices anew.
pub(crate) fn restart<B: AnswerBook, F: Facts>(
    output: &mut Output,
    resolver: &mut Resolver<B, F, LineIds>,
)
    ensures { (seat : SeatView) → Stand F.gives F.shows seat resolver.old.requests
        → Stand F.gives F.shows seat resolver.new.requests }
{
    resolver.restart();
    output.push_line("restarted");
}

/// Lets the requests begin their choices anew, for another book, and gives whether all outcomes
/// were taken before.
pub(crate) fn leave_book<B: AnswerBook, F: Facts>(
    output: &mut Output,
    resolver: &mut Resolver<B, F, LineIds>,
) -> bool
    ensures { IsTrue result → (seat : SeatView)
        → Stand F.gives F.shows seat resolver.new.requests }
{
    if let Some(ended) = resolver.poll_outcome() {
        drop(ended);
        output.push_line("outcomes are left");
        return false;
    }
    resolver.restart();
    output.push_line("restarted");
    true
}

/// Writes the id of the question that the request of a number waits for.
pub(crate) fn push_awaited<B: AnswerBook, F: Facts>(
    output: &mut Output,
    resolver: &Resolver<B, F, LineIds>,
    number: u64,
) {
    match resolver.awaited_id(number) {
        Some(id) => push_number_line(output, Some(u64::from(id))),
        None => push_number_line(output, None),
    }
}

/// Polls an outcome.
pub(crate) fn outcome<B: AnswerBook, F: Facts>(
    output: &mut Output,
    resolver: &mut Resolver<B, F, LineIds>,
)
    ensures { (seat : SeatView) → Stand F.gives F.shows seat resolver.old.requests
        → Stand F.gives F.shows seat resolver.new.requests }
{
    match resolver.poll_outcome() {
        Some(ended) => {
            push_outcome(output, ended.number(), ended.outcome());
            drop(ended);
        }
        None => output.push_line("none"),
    }
}

/// Writes what is sent, and keeps the zone's reply to it.
fn take_sent(
    output: &mut Output,
    zone: &Zone,
    replies: &mut Vec<(DnsTransport, Vec<u8>)>,
    octets: &[u8],
    over: DnsTransport,
) {
    push_sent(output, octets, over);
    match zone.answer_datagram(output.alloc(), octets) {
        Ok(Some(reply)) => output.end(keep(replies, (over, reply))),
        Ok(None) => {}
        Err(_) => output.fail(Fault::Memory),
    }
}

/// Sends what is to be sent next, and keeps the zone's reply. Gives whether there was anything.
fn send_next<B: AnswerBook, F: Facts>(
    output: &mut Output,
    resolver: &mut Resolver<B, F, LineIds>,
    book: &B,
    seat: &mut B::Seat,
    zone: &Zone,
    now: Moment,
    replies: &mut Vec<(DnsTransport, Vec<u8>)>,
) -> bool
    requires made_here { B.belongs book.now seat.old }
    requires shown { F.shows now }
    requires stand { Stand F.gives F.shows (B.shown seat.old) resolver.old.requests }
    ensures stays { B.belongs book.now seat.new }
    ensures stand { Stand F.gives F.shows (B.shown seat.new) resolver.new.requests }
{
    match resolver.poll_transmit(book, seat, now, now) {
        Some(transmit) => {
            take_sent(output, zone, replies, transmit.octets, transmit.over);
            true
        }
        None => false,
    }
}

/// Sends all that is to be sent at a moment, and keeps the zone's replies.
fn send_all<B: AnswerBook, F: Facts>(
    output: &mut Output,
    resolver: &mut Resolver<B, F, LineIds>,
    book: &B,
    seat: &mut B::Seat,
    zone: &Zone,
    now: Moment,
) -> Vec<(DnsTransport, Vec<u8>)>
    requires made_here { B.belongs book.now seat.old }
    requires shown { F.shows now }
    requires stand { Stand F.gives F.shows (B.shown seat.old) resolver.old.requests }
    ensures stays { B.belongs book.now seat.new }
    ensures stand { Stand F.gives F.shows (B.shown seat.new) resolver.new.requests }
{
    let mut replies = Vec::new(output.alloc());
    'sends: for _ in 0..SERVE_LIMIT {
        if !send_next(output, resolver, book, seat, zone, now, &mut replies) {
            break;
        }
    }
    replies
}

/// Sends all that is to be sent at a moment, and hands in the zone's replies.
pub(crate) fn serve<B: Stores<R>, F: Facts, R>(
    rt: &R,
    output: &mut Output,
    resolver: &mut Resolver<B, F, LineIds>,
    book: &B,
    seat: &mut B::Seat,
    zone: &Zone,
    now: Moment,
)
    requires made_here { B.belongs book.now seat.old }
    requires given { (octets : List ℕ) → F.gives octets }
    requires shown { F.shows now }
    requires stand { Stand F.gives F.shows (B.shown seat.old) resolver.old.requests }
    ensures stays { B.belongs book.now seat.new }
    ensures stand { Stand F.gives F.shows (B.shown seat.new) resolver.new.requests }
{
    let replies = send_all(output, resolver, book, seat, zone, now);
    'replies: for (over, reply) in &replies {
        hear(rt, output, resolver, book, seat, now, *over, reply);
    }
}

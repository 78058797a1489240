//! The example of the page of `sip_locator`.
use crate::pages::answers::{REPLY, request};
use answer_cache::{AnswerBook, ListCache, Stores};
use dns_answers::Moment;
use sip_locator::Locator;
use sip_selection::{Caps, Families, Next, Request};
use sip_uri::Transport::Udp;
use srv_choice::{WORD_COUNT, Words};
use std::alloc::Global;
use std::sync::Wait;

/// Random words, of which a request to a host with a port uses none.
const WORDS: Words = Words([0; WORD_COUNT]);

/// Whether the next step asks a question.
fn asks(next: Next<'_>) -> bool {
    matches!(next, Next::Ask(_))
}

/// Whether the next step gives one target.
fn goes(next: Next<'_>) -> bool {
    matches!(next, Next::Targets([_]))
}

/// Whether a request asks before a reply came in, and goes to a target after that, over a new book.
fn over_new_book(
    rt: &impl Wait,
    alloc: Global,
    mut locator: Locator<ListCache>,
    now: Moment,
    octets: &[u8],
) -> Option<[bool; 2]> {
    let (book, mut seat) = ListCache::new(alloc);
    let seen = asks_and_goes(rt, &mut locator, &book, &mut seat, now, octets);
    drop(seat);
    drop(book);
    drop(locator);
    seen
}

/// A locator of a request.
fn locator_of(
    alloc: Global,
    request: Request,
    caps: Caps,
    words: Words,
) -> Option<Locator<ListCache>> {
    let mut locator = Locator::new(alloc, request, caps, words).ok()?;
    Some(locator)
}

/// Whether the first step asks; None where memory is refused.
fn asks_first<B: AnswerBook>(
    locator: &mut Locator<B>,
    book: &B,
    seat: &mut B::Seat,
    now: Moment,
) -> Option<bool>
    requires { B.belongs book.now seat.old }
    ensures { B.belongs book.now seat.new }
{
    // it asks for A of a.example.
    let asks = asks(locator.step(book, seat, now).ok()?);
    Some(asks)
}

/// Hands a reply in; None where it is not taken.
fn hear<R, B: Stores<R>>(
    rt: &R,
    locator: &mut Locator<B>,
    book: &B,
    seat: &mut B::Seat,
    now: Moment,
    octets: &[u8],
) -> Option<()>
    requires { B.belongs book.now seat.old }
    ensures { B.belongs book.now seat.new }
{
    // the octets that a name server sent: 192.0.2.7 for 300 seconds
    locator.reply(rt, book, seat, now, octets).ok()?;
    Some(())
}

/// Whether the next step gives the target; None where memory is refused.
fn goes_then<B: AnswerBook>(
    locator: &mut Locator<B>,
    book: &B,
    seat: &mut B::Seat,
    now: Moment,
) -> Option<bool>
    requires { B.belongs book.now seat.old }
    ensures { B.belongs book.now seat.new }
{
    let goes = goes(locator.step(book, seat, now).ok()?);
    Some(goes)
}

/// Whether a locator asks before a reply came in, and gives a target after that.
fn asks_and_goes<R, B: Stores<R>>(
    rt: &R,
    locator: &mut Locator<B>,
    book: &B,
    seat: &mut B::Seat,
    now: Moment,
    octets: &[u8],
) -> Option<[bool; 2]>
    requires { B.belongs book.now seat.old }
{
    let asks = asks_first(locator, book, seat, now)?;
    hear(rt, locator, book, seat, now, octets)?;
    let goes = goes_then(locator, book, seat, now)?;
    Some([asks, goes])
}

/// The same of the request to port 5070 of a.example.
fn example(rt: &impl Wait, alloc: Global) -> Option<[bool; 2]> {
    let now = Moment::new(100)?;
    let caps = Caps::new(&[Udp], Families::V4)?;
    match locator_of(alloc, request(alloc)?, caps, WORDS) {
        Some(locator) => over_new_book(rt, alloc, locator, now, REPLY),
        None => None,
    }
}

#[test]
fn reply_gives_target(rt: HostRuntime) {
    assert_eq!(rt; example(&rt, rt.alloc()), Some([true; 2]));
}

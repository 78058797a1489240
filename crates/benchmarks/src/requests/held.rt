//! What takes memory, held until the program ends: what two runs of different counts differ by is
//! what one takes (`bench/run`).
ghost use Rattle.answer_cache.specs.Shared.{Belongs};

use crate::requests::books::{fill, one_seat};
use crate::requests::known::{Domain, Known};
use crate::requests::rows::{self, Row};
use answer_cache::{AnswerBook, ListCache, Seat, SharedCache, Stores};
use dns_answers::Moment;
use sip_locator::Locator;
use sip_selection::Caps;
use sip_uri::Transport::{Sctp, Tcp, Tls, Udp};
use srv_choice::{WORD_COUNT, Words};
use std::alloc::Global;
use std::sync::Wait;

/// The random words of each locator.
const WORDS: Words = Words([7; WORD_COUNT]);

/// What is stored of each domain.
#[derive(Clone, Copy)]
enum Part {
    /// An address of the domain.
    Address,
    /// A list of twelve servers.
    Servers,
    /// All ten answers.
    All,
}

/// The answers of a part of the domain of this number.
fn known_of(alloc: Global, part: Part, number: u64) -> Option<Vec<Known>> {
    let label = format!(in alloc; "d{number}").ok()?;
    let servers = match part {
        Part::Servers => 12,
        Part::Address | Part::All => rows::DOMAIN.servers,
    };
    let domain = Domain {
        label: label.as_str(),
        servers,
        ..rows::DOMAIN
    };
    match part {
        Part::Address => domain.address(alloc),
        Part::Servers => domain.servers(alloc),
        Part::All => domain.known(alloc),
    }
}

/// Looks each question up, as one does after a miss and after its store.
fn look_up<B: AnswerBook>(book: &B, seat: &mut B::Seat, known: &[Known], now: Moment)
    requires { B.belongs book.now seat.old }
    ensures { B.belongs book.now seat.new }
{
    'known: for it in known {
        let _ = book.lookup(seat, &it.question, now);
    }
}

/// Stores a part of so many domains in a book.
fn store_parts<R: AllocGlobal, B: Stores<R>>(
    rt: &R,
    part: Part,
    count: u64,
    book: &B,
    seat: &mut B::Seat,
) -> Option<()>
    requires { B.belongs book.now seat.old }
{
    let now = Moment::new(100)?;
    'domains: for number in 0..count {
        let Some(known) = known_of(rt.alloc(), part, number) else {
            return None;
        };
        look_up(book, seat, known.as_slice(), now);
        fill(rt, book, seat, known.as_slice(), now);
        look_up(book, seat, known.as_slice(), now);
    }
    Some(())
}

/// A locator of a request.
fn new_locator(alloc: Global, row: &Row) -> Option<Locator<SharedCache>> {
    let caps = Caps::new(&[Udp, Tcp, Tls, Sctp], row.families)?;
    let request = row.request(alloc)?;
    Locator::new(alloc, request, caps, WORDS).ok()
}

/// A locator with the answers that a book has.
fn stepped(
    locator: Locator<SharedCache>,
    book: &SharedCache,
    seat: &mut Seat,
    now: Moment,
) -> Option<Locator<SharedCache>>
    requires { Belongs book.now seat.old }
    ensures { Belongs book.now seat.new }
{
    let mut locator = locator;
    if locator.step(book, seat, now).is_err() {
        return None;
    }
    Some(locator)
}

/// A locator of a request, with the answers that a book has.
fn located(
    alloc: Global,
    row: &Row,
    book: &SharedCache,
    seat: &mut Seat,
    now: Moment,
) -> Option<Locator<SharedCache>>
    requires { Belongs book.now seat.old }
    ensures { Belongs book.now seat.new }
{
    match new_locator(alloc, row) {
        Some(locator) => stepped(locator, book, seat, now),
        None => None,
    }
}

/// So many locators of a request, each with the answers that a book has.
fn located_times(
    alloc: Global,
    row: &Row,
    book: &SharedCache,
    seat: &mut Seat,
    count: usize,
) -> Option<Vec<Locator<SharedCache>>>
    requires { Belongs book.now seat.old }
{
    let now = Moment::new(100)?;
    let mut held = Vec::with_capacity(alloc, count).ok()?;
    'locators: for _locator in 0..count {
        let Some(locator) = located(alloc, row, book, seat, now) else {
            return None;
        };
        if held.push(locator).is_err() {
            return None;
        }
    }
    Some(held)
}

/// So many locators of a request, each with these answers out of a shared cache.
fn hold_with<R: Wait + AllocGlobal>(
    rt: &R,
    row: &Row,
    known: &[Known],
    count: usize,
) -> Option<Vec<Locator<SharedCache>>> {
    let now = Moment::new(100)?;
    match one_seat(rt.alloc()) {
        Some((cache, mut seat)) => {
            fill(rt, &cache, &mut seat, known, now);
            located_times(rt.alloc(), row, &cache, &mut seat, count)
        }
        None => None,
    }
}

/// So many locators of the request of ten answers, each with all of them, of which it made 21
/// targets.
fn hold_locators<R: Wait + AllocGlobal>(rt: &R, count: usize) -> Option<Vec<Locator<SharedCache>>> {
    let row = rows::ten_answers();
    match row.domain.known(rt.alloc()) {
        Some(known) => hold_with(rt, &row, known.as_slice(), count),
        None => None,
    }
}

/// Stores a part of so many domains in a shared cache or in a list.
fn hold_part<R: Wait + AllocGlobal>(rt: &R, part: Part, is_shared: bool, count: u64) -> Option<()> {
    if !is_shared {
        let (list, mut seat) = ListCache::new(rt.alloc());
        return store_parts(rt, part, count, &list, &mut seat);
    }
    match one_seat(rt.alloc()) {
        Some((cache, mut seat)) => store_parts(rt, part, count, &cache, &mut seat),
        None => None,
    }
}

/// The part of a domain, or else what is held that no book has.
fn part_of(what: &str) -> Option<Part> {
    match what {
        "address" => Some(Part::Address),
        "servers" => Some(Part::Servers),
        "domain" => Some(Part::All),
        _ => None,
    }
}

/// Holds so many of what a word says: a part of a domain, in a list or else in a shared cache,
/// locators, or seats.
pub fn run<R: Wait + AllocGlobal>(rt: &R, what: &str, book: &str, count: u64) -> Option<()> {
    if let Some(part) = part_of(what) {
        return hold_part(rt, part, book != "list", count);
    }
    let count = usize::try_from(count).ok()?;
    if what == "locators" {
        let _held = hold_locators(rt, count)?;
    } else {
        let _held = SharedCache::new(rt.alloc(), count).ok()?;
    }
    Some(())
}

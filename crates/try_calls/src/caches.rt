//! Calls of `answer_cache`.
ghost use Rattle.std.specs.Prelude.{◌≡◌, IfSome};
ghost use Rattle.std.specs.List.{All};
ghost use Rattle.answer_cache.specs.Shared.{Belongs};

use crate::books::{book_line, last_of, one_seat, push_both, push_seats};
use crate::fields::moment;
use crate::replies::{push_answer, push_question};
use crate::shown::push_debug_line;
use crate::successors::list_successors;
use answer_cache::{CacheRefusal, Carried, ListCache, Notice, Seat, SharedCache, Stores};
use dns_answers::{Answer, Moment};
use dns_message::Question;
use row_fields::{Fault, Output, count, number32, only_line, split_word};
use std::alloc::Global;
use std::sync::Wait;

/// What a call gives for a row's lines.
pub(crate) fn told<R: Wait>(rt: &R, output: &mut Output, call: &str, input: &str) {
    let alloc = output.alloc();
    match call {
        "books" => push_both(
            output,
            over_list(rt, alloc, input),
            over_shared(rt, alloc, input),
        ),
        "seats" => generations(rt, output, input),
        "counts" => counts(rt, output, only_line(input)),
        "successors" => list_successors(rt, output, input),
        _ => output.fail(Fault::Call),
    }
}

/// What a book gives for lines.
fn talk<R, B: Stores<R>>(rt: &R, output: &mut Output, book: &B, seat: &mut B::Seat, input: &str)
    requires { B.belongs book.now seat.old }
{
    'lines: for line in input.lines() {
        book_line(rt, output, book, seat, line);
    }
}

/// The same of a new book of one thread.
fn over_list<R: Wait>(rt: &R, alloc: Global, input: &str) -> Result<String, Fault> {
    let mut output = Output::new(alloc);
    let (book, mut seat) = ListCache::new(alloc);
    talk(rt, &mut output, &book, &mut seat, input);
    output.finish()
}

/// The same of a new book that threads can share.
fn over_shared<R: Wait>(rt: &R, alloc: Global, input: &str) -> Result<String, Fault> {
    let mut output = Output::new(alloc);
    match one_seat(alloc) {
        Some((book, mut seat)) => {
            talk(rt, &mut output, &book, &mut seat, input);
            drop(seat);
            drop(book);
        }
        None => output.fail(Fault::Memory),
    }
    output.finish()
}

/// Writes how many seats there are, or why there is no cache.
fn push_count(output: &mut Output, made: Result<(SharedCache, Vec<Seat>), CacheRefusal>) {
    match made {
        Ok((cache, seats)) => {
            push_seats(output, seats.len());
            drop(seats);
            drop(cache);
        }
        Err(refusal) => push_debug_line(output, &refusal),
    }
}

/// What a new cache hands on in which nothing is stored.
fn nothing_carried(alloc: Global) -> Option<Carried> {
    let now = Moment::new(0)?;
    match one_seat(alloc) {
        Some((cache, mut seat)) => {
            let carried = carry(alloc, &cache, &mut seat, now);
            drop(seat);
            drop(cache);
            carried
        }
        None => None,
    }
}

/// Writes how many seats the successor of a new cache has, or why there is none.
fn push_successor<R: Wait>(rt: &R, output: &mut Output, count: usize) {
    let alloc = output.alloc();
    match nothing_carried(alloc) {
        Some(carried) => {
            push_count(output, SharedCache::successor(rt, alloc, &carried, count));
            drop(carried);
        }
        None => output.fail(Fault::Memory),
    }
}

/// Writes how many seats a new cache has, or why there is none.
fn push_new(output: &mut Output, count: usize) {
    let made = SharedCache::new(output.alloc(), count);
    push_count(output, made);
}

/// Writes how many seats a new cache of a number of groups has, or why there is none.
fn push_with_groups(output: &mut Output, field: &str) {
    let (seats, groups) = split_word(field);
    match (count(seats), number32(groups)) {
        (Ok(seats), Ok(groups)) => {
            let made = SharedCache::with_groups(output.alloc(), seats, groups);
            push_count(output, made);
        }
        _ => output.fail(Fault::Form),
    }
}

/// `new` or `successor` and a number of seats, or `groups`, such a number and one of groups, give
/// how many seats a cache has, or why there is none.
fn counts<R: Wait>(rt: &R, output: &mut Output, line: &str) {
    let (word, field) = split_word(line);
    match (word, count(field)) {
        ("groups", _) => push_with_groups(output, field),
        ("new", Ok(count)) => push_new(output, count),
        ("successor", Ok(count)) => push_successor(rt, output, count),
        _ => output.fail(Fault::Form),
    }
}

/// The two seats among these.
fn two_of(cache: SharedCache, mut seats: Vec<Seat>) -> Option<(SharedCache, Seat, Seat)>
    requires { All (Belongs cache) seats.items }
    ensures first { IfSome result (λ made. Belongs made.0 made.1) }
    ensures second { IfSome result (λ made. Belongs made.0 made.2) }
{
    let second = last_of(&cache, &mut seats);
    let first = last_of(&cache, &mut seats);
    drop(seats);
    match (first, second) {
        (Some(first), Some(second)) => Some((cache, first, second)),
        (first, second) => {
            drop(first);
            drop(second);
            drop(cache);
            None
        }
    }
}

/// A cache with two seats: a new one, or the successor by what is carried.
fn two_seats<R: Wait>(
    rt: &R,
    alloc: Global,
    carried: Option<&Carried>,
) -> Option<(SharedCache, Seat, Seat)>
    ensures first { IfSome result (λ made. Belongs made.0 made.1) }
    ensures second { IfSome result (λ made. Belongs made.0 made.2) }
{
    let made = match carried {
        Some(carried) => SharedCache::successor(rt, alloc, carried, 2),
        None => SharedCache::new(alloc, 2),
    };
    match made {
        Ok((cache, seats)) => two_of(cache, seats),
        Err(_) => None,
    }
}

/// Writes a store that is carried.
fn push_store(output: &mut Output, question: &Question, answer: &Answer, moment: Moment) {
    output.push_number(moment.get());
    output.push(" ");
    push_question(output, question);
    output.push(" ");
    push_answer(output, answer);
    output.push("\n");
}

/// Writes the store at a place of what is carried, or `nothing`.
fn push_store_at(output: &mut Output, carried: &Carried, place: usize) {
    match carried.get(place) {
        Some((question, answer, moment)) => push_store(output, question, answer, moment),
        None => output.push_line("nothing"),
    }
}

/// The same of the place of a field, where something is carried.
fn push_carried(output: &mut Output, carried: Option<&Carried>, place: &str) {
    match (carried, count(place)) {
        (Some(carried), Ok(place)) => push_store_at(output, carried, place),
        _ => output.fail(Fault::Form),
    }
}

/// Writes how many stores are carried.
fn push_size(output: &mut Output, carried: &Carried) {
    if carried.is_empty() {
        output.push_line("nothing carried");
    } else {
        output.push_length(carried.len());
        output.push_line(" carried");
    }
}

/// What a cache hands on.
fn carry(alloc: Global, cache: &SharedCache, seat: &mut Seat, now: Moment) -> Option<Carried>
    requires { Belongs cache.now seat.old }
    ensures { Belongs cache.now seat.new }
{
    match cache.carry(alloc, seat, now) {
        Ok(carried) => Some(carried),
        Err(_) => None,
    }
}

/// Lets a seat learn what another one tells.
fn learn(cache: &SharedCache, seat: &mut Seat, notice: &Notice)
    requires seat { Belongs cache.now seat.old }
    requires notice { notice.now.cache ≡ cache.now }
    ensures { Belongs cache.now seat.new }
{
    cache.learn(seat, notice);
}

/// Keeps what a cache hands on, and writes how much that is.
fn keep(output: &mut Output, carried: &mut Option<Carried>, found: Option<Carried>) {
    match found {
        Some(found) => {
            push_size(output, &found);
            drop(carried.replace(found));
        }
        None => output.fail(Fault::Memory),
    }
}

/// What a cache hands on at a moment.
fn carry_at(
    output: &mut Output,
    cache: &SharedCache,
    seat: &mut Seat,
    now: &str,
    carried: &mut Option<Carried>,
)
    requires { Belongs cache.now seat.old }
    ensures { Belongs cache.now seat.new }
{
    match moment(now) {
        Ok(now) => keep(output, carried, carry(output.alloc(), cache, seat, now)),
        Err(fault) => output.fail(fault),
    }
}

/// Writes the number of a seat.
fn push_number(output: &mut Output, seat: &Seat) {
    output.push_length(seat.number());
    output.push("\n");
}

/// What a seat gives for a line.
fn seat_line<R: Wait>(
    rt: &R,
    output: &mut Output,
    cache: &SharedCache,
    seat: &mut Seat,
    notice: &Notice,
    line: &str,
    carried: &mut Option<Carried>,
)
    requires seat { Belongs cache.now seat.old }
    requires notice { notice.now.cache ≡ cache.now }
    ensures { Belongs cache.now seat.new }
{
    let (word, rest) = split_word(line);
    match word {
        "learn" => learn(cache, seat, notice),
        "number" => push_number(output, seat),
        "carry" => carry_at(output, cache, seat, rest, carried),
        "carried" => push_carried(output, carried.as_ref(), rest),
        _ => book_line(rt, output, cache, seat, line),
    }
}

/// What the seat of a line gives for it: that of number 0 or 1.
fn two_seat_line<R: Wait>(
    rt: &R,
    output: &mut Output,
    cache: &SharedCache,
    first: &mut Seat,
    second: &mut Seat,
    line: &str,
    carried: &mut Option<Carried>,
)
    requires first { Belongs cache.now first.old }
    requires second { Belongs cache.now second.old }
    ensures first { Belongs cache.now first.new }
    ensures second { Belongs cache.now second.new }
{
    let (number, line) = split_word(line);
    match number {
        "0" => seat_line(rt, output, cache, first, &second.notice(), line, carried),
        "1" => seat_line(rt, output, cache, second, &first.notice(), line, carried),
        _ => output.fail(Fault::Form),
    }
}

/// What two seats of a cache give for lines, and what is carried then.
fn two_talk<R: Wait>(
    rt: &R,
    output: &mut Output,
    cache: &SharedCache,
    mut first: Seat,
    mut second: Seat,
    input: &str,
) -> Option<Carried>
    requires first { Belongs cache.now first }
    requires second { Belongs cache.now second }
{
    let mut carried = None;
    'lines: for line in input.lines() {
        two_seat_line(
            rt,
            output,
            cache,
            &mut first,
            &mut second,
            line,
            &mut carried,
        );
    }
    drop(first);
    drop(second);
    carried
}

/// The same of a new cache, or of the successor by what is carried.
fn generation<R: Wait>(
    rt: &R,
    output: &mut Output,
    carried: Option<Carried>,
    input: &str,
) -> Option<Carried> {
    let seats = two_seats(rt, output.alloc(), carried.as_ref());
    drop(carried);
    match seats {
        Some((cache, first, second)) => {
            let carried = two_talk(rt, output, &cache, first, second, input);
            drop(cache);
            carried
        }
        None => {
            output.fail(Fault::Memory);
            None
        }
    }
}

/// Lines of two seats, 0 and 1, of a cache, and after each line `successor` of the cache that
/// follows by what was carried last, give what they give.
fn generations<R: Wait>(rt: &R, output: &mut Output, input: &str) {
    let mut carried = None;
    for lines in input.split("successor\n") {
        carried = generation(rt, output, carried, lines);
    }
    drop(carried);
}

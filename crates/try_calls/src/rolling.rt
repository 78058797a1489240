//! Calls of `rolling_cache`.
ghost use Rattle.std.specs.Prelude.{IfSome};
ghost use Rattle.std.specs.List.{All};
ghost use Rattle.rolling_cache.specs.Rolling.{IsAt, IsSeatOf};

use crate::books::{
    DatedQuestion, book_line, found, lookup_of, push_found, push_seats, reply_stored,
};
use crate::fields::moment;
use crate::replies::{Reply, read_reply};
use crate::shown::push_debug_line;
use answer_cache::CacheRefusal;
use dns_answers::Moment;
use dns_message::Question;
use rolling_cache::{Change, RollingCache, RollingSeat};
use row_fields::{Fault, Output, count, number32, number64, only_line, split_word};
use std::alloc::{AllocError, Global};
use std::sync::Wait;

/// What a call gives for a row's lines.
pub(crate) fn told<R: Wait>(rt: &R, output: &mut Output, call: &str, input: &str) {
    match call {
        "seats" => seats(rt, output, input),
        "asked" => asked(rt, output, only_line(input)),
        "counts" => counts(output, only_line(input)),
        _ => output.fail(Fault::Call),
    }
}

/// The moment at which a cache is made whose row says none.
fn start() -> Option<Moment> {
    Moment::new(100)
}

/// Writes how many seats there are, or why there is no cache.
fn push_count(output: &mut Output, made: Result<(RollingCache, Vec<RollingSeat>), CacheRefusal>) {
    match made {
        Ok((cache, seats)) => {
            push_seats(output, seats.len());
            drop(seats);
            drop(cache);
        }
        Err(refusal) => push_debug_line(output, &refusal),
    }
}

/// Writes how many seats a new cache of a number of groups has, or why there is none.
fn push_with_groups(output: &mut Output, seats: usize, groups: &str, now: Moment) {
    let Ok(groups) = number32(groups) else {
        output.fail(Fault::Form);
        return;
    };
    let made = RollingCache::with_groups(output.alloc(), seats, groups, now);
    push_count(output, made);
}

/// Writes how many seats a new cache has, or why there is none.
fn push_new(output: &mut Output, seats: usize, now: Moment) {
    let made = RollingCache::new(output.alloc(), seats, now);
    push_count(output, made);
}

/// A number of seats, and of groups where they are not 64, gives how many seats a cache has, or why
/// there is none.
fn counts(output: &mut Output, line: &str) {
    let (seats, groups) = split_word(line);
    match (count(seats), start(), groups.is_empty()) {
        (Ok(seats), Some(now), true) => push_new(output, seats, now),
        (Ok(seats), Some(now), false) => push_with_groups(output, seats, groups, now),
        _ => output.fail(Fault::Form),
    }
}

/// The last of the seats of a new cache.
fn last_of(cache: &RollingCache, seats: &mut Vec<RollingSeat>) -> Option<RollingSeat>
    requires { All (IsSeatOf cache.now) seats.old.items }
    ensures left { All (IsSeatOf cache.now) seats.new.items }
    ensures last { IfSome result (IsSeatOf cache.now) }
{
    let _ = cache;
    seats.pop()
}

/// The two seats of a new cache.
fn two_of(
    cache: RollingCache,
    mut seats: Vec<RollingSeat>,
) -> Option<(RollingCache, RollingSeat, RollingSeat)>
    requires { All (IsSeatOf cache) seats.items }
    ensures first { IfSome result (λ made. IsSeatOf made.0 made.1) }
    ensures second { IfSome result (λ made. IsSeatOf made.0 made.2) }
{
    let second = last_of(&cache, &mut seats);
    let first = last_of(&cache, &mut seats);
    drop(seats);
    match (first, second) {
        (Some(first), Some(second)) => Some((cache, first, second)),
        (first, second) => {
            drop(first);
            drop(second);
            drop(cache);
            None
        }
    }
}

/// A cache with two seats, made at a moment.
fn two_seats(alloc: Global, now: Moment) -> Option<(RollingCache, RollingSeat, RollingSeat)>
    ensures first { IfSome result (λ made. IsSeatOf made.0 made.1) }
    ensures second { IfSome result (λ made. IsSeatOf made.0 made.2) }
{
    match RollingCache::new(alloc, 2, now) {
        Ok((cache, seats)) => two_of(cache, seats),
        Err(_) => None,
    }
}

/// Goes over to the present generation, or begins the next one.
fn catch_up<R: Wait>(
    rt: &R,
    cache: &RollingCache,
    seat: &mut RollingSeat,
    now: Moment,
) -> Option<Change>
    requires { IsSeatOf cache.now seat.old }
    ensures { IsSeatOf cache.now seat.new }
{
    match cache.catch_up(rt, seat, now) {
        Ok(change) => Some(change),
        Err(_) => None,
    }
}

/// Begins the next generation.
fn renew<R: Wait>(
    rt: &R,
    cache: &RollingCache,
    seat: &mut RollingSeat,
    now: Moment,
) -> Option<Change>
    requires { IsSeatOf cache.now seat.old }
    ensures { IsSeatOf cache.now seat.new }
{
    match cache.renew(rt, seat, now) {
        Ok(change) => Some(change),
        Err(_) => None,
    }
}

/// Writes what became of a seat.
fn push_change(output: &mut Output, change: Option<Change>) {
    match change {
        Some(change) => push_debug_line(output, &change),
        None => output.fail(Fault::Memory),
    }
}

/// A seat catches up, or renews, at the moment of a field.
fn change<R: Wait>(
    rt: &R,
    output: &mut Output,
    cache: &RollingCache,
    seat: &mut RollingSeat,
    is_renewal: bool,
    now: &str,
)
    requires { IsSeatOf cache.now seat.old }
    ensures { IsSeatOf cache.now seat.new }
{
    match moment(now) {
        Ok(now) if is_renewal => push_change(output, renew(rt, cache, seat, now)),
        Ok(now) => push_change(output, catch_up(rt, cache, seat, now)),
        Err(fault) => output.fail(fault),
    }
}

/// What a seat finds in the cache of its generation, once it is taken apart.
fn push_apart(output: &mut Output, seat: RollingSeat, question: &Question, now: Moment)
    requires { IsAt seat }
{
    let (generation, mut seat) = seat.into_parts();
    push_found(output, found(generation.cache(), &mut seat, question, now));
    drop(seat);
    drop(generation);
}

/// Writes the number of a seat's generation, and whether that is to end.
fn push_generation(output: &mut Output, seat: &RollingSeat) {
    output.push("generation ");
    output.push_number(seat.generation().number());
    if seat.is_ending() {
        output.push(", ending");
    }
    output.push("\n");
}

/// Writes the number of the generation after that of a seat, and what a seat there finds, or
/// `none`.
fn push_after(
    output: &mut Output,
    cache: &RollingCache,
    seat: &RollingSeat,
    lookup: &DatedQuestion,
) {
    match cache.seat_after(seat.generation()) {
        Some(seat) => {
            push_generation(output, &seat);
            push_apart(output, seat, &lookup.question, lookup.now);
        }
        None => output.push_line("none"),
    }
}

/// The same for the moment, the kind and the name of a line.
fn after(output: &mut Output, cache: &RollingCache, seat: &RollingSeat, line: &str) {
    match lookup_of(output.alloc(), line) {
        Ok(lookup) => {
            push_after(output, cache, seat, &lookup);
            drop(lookup);
        }
        Err(fault) => output.fail(fault),
    }
}

/// What a seat gives for a line.
fn seat_line<R: Wait>(
    rt: &R,
    output: &mut Output,
    cache: &RollingCache,
    seat: &mut RollingSeat,
    line: &str,
)
    requires { IsSeatOf cache.now seat.old }
    ensures { IsSeatOf cache.now seat.new }
{
    let (word, rest) = split_word(line);
    match word {
        "catch-up" => change(rt, output, cache, seat, false, rest),
        "renew" => change(rt, output, cache, seat, true, rest),
        "generation" => push_generation(output, seat),
        "after" => after(output, cache, seat, rest),
        _ => book_line(rt, output, cache, seat, line),
    }
}

/// What the seat of a line gives for it: that of number 0 or 1.
fn two_seat_line<R: Wait>(
    rt: &R,
    output: &mut Output,
    cache: &RollingCache,
    first: &mut RollingSeat,
    second: &mut RollingSeat,
    line: &str,
)
    requires first { IsSeatOf cache.now first.old }
    requires second { IsSeatOf cache.now second.old }
    ensures first { IsSeatOf cache.now first.new }
    ensures second { IsSeatOf cache.now second.new }
{
    let (number, line) = split_word(line);
    match number {
        "0" => seat_line(rt, output, cache, first, line),
        "1" => seat_line(rt, output, cache, second, line),
        _ => output.fail(Fault::Form),
    }
}

/// What two seats give for lines.
fn two_talk<R: Wait>(
    rt: &R,
    output: &mut Output,
    cache: &RollingCache,
    mut first: RollingSeat,
    mut second: RollingSeat,
    input: &str,
)
    requires first { IsSeatOf cache.now first }
    requires second { IsSeatOf cache.now second }
{
    'lines: for line in input.lines() {
        two_seat_line(rt, output, cache, &mut first, &mut second, line);
    }
    drop(first);
    drop(second);
}

/// What the two seats of a cache that is made at a moment give for lines.
fn talk<R: Wait>(rt: &R, output: &mut Output, now: Moment, lines: &str) {
    match two_seats(output.alloc(), now) {
        Some((cache, first, second)) => {
            two_talk(rt, output, &cache, first, second, lines);
            drop(cache);
        }
        None => output.fail(Fault::Memory),
    }
}

/// A line with the moment at which a cache is made, and lines of its two seats, 0 and 1, give what
/// they give.
fn seats<R: Wait>(rt: &R, output: &mut Output, input: &str) {
    match input.split_once('\n') {
        Some((now, lines)) => match moment(now) {
            Ok(now) => talk(rt, output, now, lines),
            Err(fault) => output.fail(fault),
        },
        None => output.fail(Fault::Form),
    }
}

/// How many look-ups found an answer and how many did not, how many stores were refused, and how
/// many generations were begun.
#[derive(Clone, Copy)]
struct Tally {
    found: u64,
    missed: u64,
    refused: u64,
    renewed: u64,
}

/// Stores a reply, and counts where the store is refused.
fn count_store<R: Wait>(
    rt: &R,
    cache: &RollingCache,
    seat: &mut RollingSeat,
    reply: &Reply,
    now: Moment,
    counts: &mut Tally,
)
    requires { IsSeatOf cache.now seat.old }
    ensures { IsSeatOf cache.now seat.new }
{
    counts.missed = counts.missed.wrapping_add(1);
    if let Some(Err(_)) = reply_stored(rt, cache, seat, reply, now) {
        counts.refused = counts.refused.wrapping_add(1);
    }
}

/// Counts a generation that was begun.
fn count_change(change: Option<Change>, counts: &mut Tally) {
    if change == Some(Change::Renewed) {
        counts.renewed = counts.renewed.wrapping_add(1);
    }
}

/// Whether a seat finds an answer.
fn is_found(
    cache: &RollingCache,
    seat: &mut RollingSeat,
    question: &Question,
    now: Moment,
) -> Result<bool, AllocError>
    requires { IsSeatOf cache.now seat.old }
    ensures { IsSeatOf cache.now seat.new }
{
    match found(cache, seat, question, now) {
        Ok(answer) => Ok(answer.is_some()),
        Err(refused) => Err(refused),
    }
}

/// Looks a question up, and stores its answer where none is found.
fn ask<R: Wait>(
    rt: &R,
    cache: &RollingCache,
    seat: &mut RollingSeat,
    reply: &Reply,
    now: Moment,
    counts: &mut Tally,
)
    requires { IsSeatOf cache.now seat.old }
    ensures { IsSeatOf cache.now seat.new }
{
    count_change(catch_up(rt, cache, seat, now), counts);
    match is_found(cache, seat, &reply.question, now) {
        Ok(true) => counts.found = counts.found.wrapping_add(1),
        _ => count_store(rt, cache, seat, reply, now, counts),
    }
}

/// The moment of a time, by a clock that goes on from 100 by a second each so many times.
fn moment_of(time: u64, a_second: u64) -> Option<Moment> {
    if a_second == 0 {
        return None;
    }
    Moment::new((time / a_second).saturating_add(100))
}

/// Asks so many times for one answer.
fn ask_all<R: Wait>(
    rt: &R,
    cache: &RollingCache,
    seat: &mut RollingSeat,
    reply: &Reply,
    times: u64,
    a_second: u64,
) -> Tally
    requires { IsSeatOf cache.now seat.old }
{
    let mut counts = Tally {
        found: 0,
        missed: 0,
        refused: 0,
        renewed: 0,
    };
    'times: for time in 0..times {
        if let Some(now) = moment_of(time, a_second) {
            ask(rt, cache, seat, reply, now, &mut counts);
        }
    }
    counts
}

/// Writes how often an answer is found and not found, and how often its store is refused and a
/// generation is begun.
fn push_tally(output: &mut Output, counts: Tally) {
    output.push("found ");
    output.push_number(counts.found);
    output.push(", missed ");
    output.push_number(counts.missed);
    output.push(", refused ");
    output.push_number(counts.refused);
    output.push(", renewed ");
    output.push_number(counts.renewed);
    output.push("\n");
}

/// What is asked how many times, and how many times a second.
#[derive(Drop)]
struct Asking {
    times: u64,
    a_second: u64,
    reply: Reply,
}

/// How many times is asked, how many times a second, and a question with its answer.
fn asking_of(alloc: Global, line: &str) -> Result<Asking, Fault> {
    let (times, rest) = split_word(line);
    let (a_second, rest) = split_word(rest);
    let times = number64(times)?;
    let a_second = number64(a_second)?;
    match read_reply(alloc, rest) {
        Ok(reply) => Ok(Asking {
            times,
            a_second,
            reply,
        }),
        Err(fault) => Err(fault),
    }
}

/// The counts of a cache, of which one answer is asked so many times.
fn tallied<R: Wait>(rt: &R, cache: &RollingCache, mut seat: RollingSeat, asking: &Asking) -> Tally
    requires { IsSeatOf cache.now seat }
{
    let counts = ask_all(
        rt,
        cache,
        &mut seat,
        &asking.reply,
        asking.times,
        asking.a_second,
    );
    drop(seat);
    counts
}

/// A seat of a new cache, with that cache and its other seat.
fn started(alloc: Global) -> Option<(RollingCache, RollingSeat, RollingSeat)>
    ensures { IfSome result (λ made. IsSeatOf made.0 made.1) }
{
    two_seats(alloc, start()?)
}

/// Writes the counts of a new cache, of which one answer is asked so many times.
fn push_asked<R: Wait>(rt: &R, output: &mut Output, asking: &Asking) {
    match started(output.alloc()) {
        Some((cache, seat, other)) => {
            drop(other);
            push_tally(output, tallied(rt, &cache, seat, asking));
            drop(cache);
        }
        None => output.fail(Fault::Memory),
    }
}

/// How many times is asked, how many times a second, and a question with its answer, which is
/// stored where it is not found, give how often that is.
fn asked<R: Wait>(rt: &R, output: &mut Output, line: &str) {
    match asking_of(output.alloc(), line) {
        Ok(asking) => {
            push_asked(rt, output, &asking);
            drop(asking);
        }
        Err(fault) => output.fail(fault),
    }
}

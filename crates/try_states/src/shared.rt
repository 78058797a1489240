//! Stores of several seats at once.
ghost use Rattle.std.specs.Prelude.{◌≡◌, ◌+◌, IfSome, OnErr, OnOk, length};
ghost use Rattle.std.specs.Arc.{arc_value};
ghost use Rattle.std.specs.List.{All};
ghost use Rattle.dns_answers.specs.Records.{kind_of};
ghost use Rattle.answer_cache.specs.Shared.{Belongs};

use crate::seats::{Pair, keep, last_of, learn, life, now, pair_of, question};
use answer_cache::{Seat, SharedCache, StoreRefusal, Stores};
use dns_answers::Moment;
use dns_message::{Kind, Question};
use std::alloc::Global;
use std::sync::Wait;

/// How many questions four seats store at once.
pub(crate) const QUESTIONS: usize = 40;

/// The names of the questions.
pub(crate) const NAMES: &[&str] = &[
    "a", "b", "c", "d", "e", "f", "g", "h", "i", "j", "k", "l", "m", "n", "o", "p",
];

/// The kind of one of 64 questions, of four kinds for each name.
pub(crate) fn kind_at(number: usize) -> Kind {
    match number % 4 {
        0 => Kind::A,
        1 => Kind::Aaaa,
        2 => Kind::Srv,
        _ => Kind::Naptr,
    }
}

/// One of 64 questions.
pub(crate) fn question_at(alloc: Global, number: usize) -> Option<Question> {
    question(alloc, kind_at(number), NAMES.get(number / 4)?)
}

/// The life that a seat finds for one of 64 questions, or 0; none without memory for the question.
pub(crate) fn life_at(
    alloc: Global,
    cache: &SharedCache,
    seat: &mut Seat,
    number: usize,
) -> Option<u32>
    requires { Belongs cache.now seat.old }
    ensures { Belongs cache.now seat.new }
{
    let now = now()?;
    match question_at(alloc, number) {
        Some(question) => Some(life(cache, seat, &question, now)),
        None => None,
    }
}

/// Stores an answer: a store that is taken is one more of the seat's own.
fn store_pair<R: Wait>(
    rt: &R,
    cache: &SharedCache,
    seat: &mut Seat,
    pair: &Pair,
    now: Moment,
) -> Result<(), StoreRefusal>
    requires made_here { Belongs cache.now seat.old }
    requires kind { kind_of (arc_value pair.now.answer).records ≡ pair.now.question.kind }
    ensures made_here { Belongs cache.now seat.new }
    ensures number { seat.new.seat.number ≡ seat.old.seat.number }
    ensures taken { OnOk result (length seat.new.seat.own ≡ length seat.old.seat.own + 1) }
    ensures refused { OnErr result (seat.new.seat.own ≡ seat.old.seat.own) }
{
    cache.store(rt, seat, &pair.question, &pair.answer, now)
}

/// What the store of one of 64 questions with a life says.
pub(crate) fn store_at<R: Wait>(
    rt: &R,
    alloc: Global,
    cache: &SharedCache,
    seat: &mut Seat,
    number: usize,
    life: u32,
) -> Option<Result<(), StoreRefusal>>
    requires { Belongs cache.now seat.old }
    ensures made_here { Belongs cache.now seat.new }
    ensures number { seat.new.seat.number ≡ seat.old.seat.number }
    ensures taken { IfSome result
        (λ said. OnOk said (length seat.new.seat.own ≡ length seat.old.seat.own + 1)) }
    ensures refused { IfSome result (λ said. OnErr said (seat.new.seat.own ≡ seat.old.seat.own)) }
{
    let now = now()?;
    let name = NAMES.get(number / 4)?;
    match pair_of(alloc, kind_at(number), name, life) {
        Some(pair) => {
            let said = store_pair(rt, cache, seat, &pair, now);
            drop(pair);
            Some(said)
        }
        None => None,
    }
}

/// Lets each of the seats store a question of its own, and gives them.
fn store_one_each<R: Wait>(
    rt: &R,
    alloc: Global,
    cache: &SharedCache,
    seats: Vec<Seat>,
) -> Vec<Seat>
    requires { All (Belongs cache.now) seats.items }
    ensures { All (Belongs cache.now) result.items }
{
    let mut left = seats;
    let mut done = Vec::new(alloc);
    'seats: for number in 0..64 {
        if let Some(mut seat) = last_of(cache, &mut left) {
            let _ = store_at(rt, alloc, cache, &mut seat, number, number as u32 + 1);
            keep(cache, &mut done, seat);
        }
    }
    done
}

/// Whether a seat finds the stores of all 64.
fn finds_all(alloc: Global, cache: &SharedCache, seat: &mut Seat) -> Option<bool>
    requires { Belongs cache.now seat.old }
    ensures { Belongs cache.now seat.new }
{
    'questions: for number in 0..64 {
        if life_at(alloc, cache, seat, number)? != number as u32 + 1 {
            return Some(false);
        }
    }
    Some(true)
}

/// 1 where a seat finds them, once it has learned what the last one tells, or else 0.
fn finds_after(alloc: Global, cache: &SharedCache, seat: Seat, last: &Seat) -> usize
    requires seat { Belongs cache.now seat }
    requires last { Belongs cache.now last.now }
{
    let mut seat = seat;
    learn(cache, &mut seat, last);
    usize::from(finds_all(alloc, cache, &mut seat) == Some(true))
}

/// How many of the seats find them, once each has learned what the last one tells, that included.
fn count_that_find(alloc: Global, cache: &SharedCache, last: Seat, seats: Vec<Seat>) -> usize
    requires last { Belongs cache.now last }
    requires seats { All (Belongs cache.now) seats.items }
{
    let mut last = last;
    let mut seats = seats;
    let mut count = usize::from(finds_all(alloc, cache, &mut last) == Some(true));
    'seats: for _seat in 1..64 {
        if let Some(seat) = last_of(cache, &mut seats) {
            count = count.wrapping_add(finds_after(alloc, cache, seat, &last));
        }
    }
    drop(seats);
    drop(last);
    count
}

/// The same of the seats of a cache, each of which stores first.
fn sixty_four<R: Wait>(rt: &R, alloc: Global, cache: &SharedCache, seats: Vec<Seat>) -> usize
    requires { All (Belongs cache.now) seats.items }
{
    let mut seats = store_one_each(rt, alloc, cache, seats);
    match last_of(cache, &mut seats) {
        Some(last) => count_that_find(alloc, cache, last, seats),
        None => 0,
    }
}

#[test]
fn sixty_four_seats(rt: HostRuntime) {
    let count = match SharedCache::new(rt.alloc(), 64) {
        Ok((cache, seats)) => sixty_four(&rt, rt.alloc(), &cache, seats),
        Err(_) => 0,
    };
    assert_eq!(rt; count, 64);
}

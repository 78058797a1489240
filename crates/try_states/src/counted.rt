//! Four seats of one cache that store at once, each in a thread: as many stores are in the history
//! that all have learned as were taken, which the contracts here say of every schedule.
ghost use Rattle.std.specs.Prelude.{◌≡◌, ◌+◌, ◌<◌, IfSome, length, map};
ghost use Rattle.std.specs.List.{range_with_len};
ghost use Rattle.answer_cache.specs.Shared.{Belongs, HasStored, new_seat};

use crate::seats::both;
use crate::shared::{QUESTIONS, life_at, store_at};
use answer_cache::{Seat, SharedCache, StoreRefusal, law_stores_are_of_the_seats};
use std::alloc::Global;
use std::sync::Wait;
use std::thread::{Threads, join};

/// How many stores each seat makes.
const ROUNDS: u32 = 500;

/// What a seat has done: how many of its stores were taken, and the life of the last one for each
/// question, 0 where there was none.
#[derive(Drop)]
struct Work {
    seat: Seat,
    taken: usize,
    lasts: [u32; QUESTIONS],
}

/// Stores the questions in turn, each answer with a life of its own. Each store is taken, or is
/// refused since its group is full or since other seats were faster. Those taken stand in the
/// history once each.
fn store_in_turn<R: Wait + AllocGlobal>(
    rt: &R,
    cache: &SharedCache,
    mut seat: Seat,
    number: u32,
) -> Option<Work>
    requires seat { HasStored cache.now number 0 seat }
    requires number { number < 4 }
    ensures { IfSome result (λ done. HasStored cache.now number done.taken done.seat) }
{
    let mut taken = 0usize;
    let mut lasts = [0; QUESTIONS];
    'rounds: for round in 0..ROUNDS {
        let question = round as usize % QUESTIONS;
        let life = number * 1000 + round + 1;
        match store_at(rt, rt.alloc(), cache, &mut seat, question, life) {
            Some(Ok(())) => {
                taken += 1;
                lasts[question] = life;
            }
            Some(Err(StoreRefusal::GenerationFull | StoreRefusal::Contended)) => {}
            Some(Err(StoreRefusal::Lifeless | StoreRefusal::Memory)) | None => {
                drop(seat);
                return None;
            }
        }
    }
    Some(Work { seat, taken, lasts })
}

/// The four seats of a new cache.
fn four_of(cache: &SharedCache, mut seats: Vec<Seat>) -> Option<((Seat, Seat), (Seat, Seat))>
    requires { seats.items ≡ map (new_seat cache.now) (range_with_len 0 4) }
    ensures left { IfSome result (λ four. HasStored cache.now 0 0 four.0.0
        × HasStored cache.now 1 0 four.0.1) }
    ensures right { IfSome result (λ four. HasStored cache.now 2 0 four.1.0
        × HasStored cache.now 3 0 four.1.1) }
{
    let fourth = seats.pop();
    let third = seats.pop();
    let second = seats.pop();
    let first = seats.pop();
    let left = both(first, second);
    let right = both(third, fourth);
    both(left, right)
}

/// Two seats at once.
fn work_by_two<R: Threads + Wait + AllocGlobal + Sync>(
    rt: &R,
    cache: &SharedCache,
    first: Seat,
    second: Seat,
    number: u32,
) -> Option<(Work, Work)>
    requires first { HasStored cache.now number 0 first }
    requires second { HasStored cache.now (number + 1) 0 second }
    requires number { number < 3 }
    ensures first { IfSome result (λ done. HasStored cache.now number done.0.taken done.0.seat) }
    ensures second { IfSome result
        (λ done. HasStored cache.now (number + 1) done.1.taken done.1.seat) }
{
    let (first, second) = join(
        rt,
        || -> Option<Work>
            requires { HasStored cache.now number 0 first × (number < 3) }
            ensures { IfSome result
                (λ done. HasStored cache.entry.now number done.taken done.seat) }
        { store_in_turn(rt, cache, first, number) },
        || -> Option<Work>
            requires { HasStored cache.now (number + 1) 0 second × (number < 3) }
            ensures { IfSome result
                (λ done. HasStored cache.entry.now (number + 1) done.taken done.seat) }
        { store_in_turn(rt, cache, second, number + 1) },
    );
    both(first, second)
}

/// Four seats at once, each in a thread of its own.
fn work_by_four<R: Threads + Wait + AllocGlobal + Sync>(
    rt: &R,
    cache: &SharedCache,
    left: (Seat, Seat),
    right: (Seat, Seat),
) -> Option<((Work, Work), (Work, Work))>
    requires left { HasStored cache.now 0 0 left.0 × HasStored cache.now 1 0 left.1 }
    requires right { HasStored cache.now 2 0 right.0 × HasStored cache.now 3 0 right.1 }
    ensures first { IfSome result (λ done. HasStored cache.now 0 done.0.0.taken done.0.0.seat) }
    ensures second { IfSome result (λ done. HasStored cache.now 1 done.0.1.taken done.0.1.seat) }
    ensures third { IfSome result (λ done. HasStored cache.now 2 done.1.0.taken done.1.0.seat) }
    ensures fourth { IfSome result (λ done. HasStored cache.now 3 done.1.1.taken done.1.1.seat) }
{
    let (first, second) = left;
    let (third, fourth) = right;
    let (left, right) = join(
        rt,
        || -> Option<(Work, Work)>
            requires { HasStored cache.now 0 0 first × HasStored cache.now 1 0 second }
            ensures { IfSome result (λ done. HasStored cache.entry.now 0 done.0.taken done.0.seat
                × HasStored cache.entry.now 1 done.1.taken done.1.seat) }
        { work_by_two(rt, cache, first, second, 0) },
        || -> Option<(Work, Work)>
            requires { HasStored cache.now 2 0 third × HasStored cache.now 3 0 fourth }
            ensures { IfSome result (λ done. HasStored cache.entry.now 2 done.0.taken done.0.seat
                × HasStored cache.entry.now 3 done.1.taken done.1.seat) }
        { work_by_two(rt, cache, third, fourth, 2) },
    );
    both(left, right)
}

/// A seat that has learned what all have seen, and the last stores of all.
#[derive(Drop)]
struct Joined {
    seat: Seat,
    lasts: [[u32; QUESTIONS]; 4],
}

/// Lets the first seat learn what all have seen, and each other one what that has seen then. The
/// history has as many stores as were taken.
fn join_all(cache: &SharedCache, left: (Work, Work), right: (Work, Work)) -> Joined
    requires four { cache.now.seats ≡ 4 }
    requires first { HasStored cache.now 0 left.0.taken left.0.seat }
    requires second { HasStored cache.now 1 left.1.taken left.1.seat }
    requires third { HasStored cache.now 2 right.0.taken right.0.seat }
    requires fourth { HasStored cache.now 3 right.1.taken right.1.seat }
    ensures made_here { Belongs cache.now result.seat }
    ensures all { length result.seat.seat.seen
        ≡ left.0.taken + left.1.taken + right.0.taken + right.1.taken }
{
    let (first, second) = left;
    let (third, fourth) = right;
    let (firsts, seconds) = (first.lasts, second.lasts);
    let (thirds, fourths) = (third.lasts, fourth.lasts);
    let mut seat = first.seat;
    let mut second = second.seat;
    let mut third = third.seat;
    let mut fourth = fourth.seat;
    cache.learn(&mut seat, &second.notice());
    cache.learn(&mut seat, &third.notice());
    cache.learn(&mut seat, &fourth.notice());
    let notice = seat.notice();
    cache.learn(&mut second, &notice);
    cache.learn(&mut third, &notice);
    cache.learn(&mut fourth, &notice);
    law_stores_are_of_the_seats(&seat);
    drop(second);
    drop(third);
    drop(fourth);
    Joined {
        seat,
        lasts: [firsts, seconds, thirds, fourths],
    }
}

/// Whether the seat finds the last store of some seat for each question.
fn are_found(
    alloc: Global,
    cache: &SharedCache,
    seat: &mut Seat,
    lasts: &[[u32; QUESTIONS]; 4],
) -> Option<bool>
    requires { Belongs cache.now seat.old }
{
    'questions: for number in 0..QUESTIONS {
        let life = life_at(alloc, cache, seat, number)?;
        if !lasts.iter().any(|lasts| lasts[number] == life) {
            return Some(false);
        }
    }
    Some(true)
}

/// The same of the four seats of a new cache, once each has stored and all have learned.
fn four_work<R: Threads + Wait + AllocGlobal + Sync>(
    rt: &R,
    cache: &SharedCache,
    seats: Vec<Seat>,
) -> Option<bool>
    requires cache { cache.now.seats ≡ 4 }
    requires seats { seats.items ≡ map (new_seat cache.now) (range_with_len 0 4) }
{
    match four_of(cache, seats) {
        Some((left, right)) => match work_by_four(rt, cache, left, right) {
            Some((left, right)) => {
                let mut joined = join_all(cache, left, right);
                are_found(rt.alloc(), cache, &mut joined.seat, &joined.lasts)
            }
            None => None,
        },
        None => None,
    }
}

#[test]
fn four_threads(rt: HostRuntime) {
    let found = match SharedCache::new(rt.alloc(), 4) {
        Ok((cache, seats)) => four_work(&rt, &cache, seats),
        Err(_) => None,
    };
    assert_eq!(rt; found, Some(true));
}

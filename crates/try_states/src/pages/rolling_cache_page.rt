//! The example of the page of `rolling_cache`.
ghost use Rattle.std.specs.Prelude.{◌≡◌, IfSome};
ghost use Rattle.std.specs.Arc.{arc_value};
ghost use Rattle.dns_answers.specs.Records.{kind_of};
ghost use Rattle.rolling_cache.specs.Rolling.{IsSeatOf};

use crate::pages::answers::{answer, question};
use answer_cache::{AnswerBook, Stores};
use dns_answers::{Answer, Moment};
use dns_message::Question;
use rolling_cache::{Change, RollingCache, RollingSeat};
use std::alloc::Global;
use std::sync::{Arc, Wait};

/// The life of the answer that a thread finds or stores between two requests.
fn between_requests(
    rt: &impl Wait,
    cache: &RollingCache,
    seat: &mut RollingSeat,
    question: &Question,
    answer: &Arc<Answer>,
    now: Moment,
) -> Option<u32>
    requires at { IsSeatOf cache.now seat.old }
    requires kind { kind_of (arc_value answer.now).records ≡ question.now.kind }
    ensures { IsSeatOf cache.now seat.new }
{
    // before a request: go over to the present generation, or begin the next one
    cache.catch_up(rt, seat, now).ok()?;
    // then the cache is a book of answers like any other
    if let Some(found) = cache.lookup(seat, question, now).ok()? {
        return Some(found.life());
    }
    cache.store(rt, seat, question, answer, now).ok()?;
    None
}

/// Whether the next generation was begun.
fn is_renewed(rt: &impl Wait, cache: &RollingCache, seat: &mut RollingSeat, now: Moment) -> bool
    requires { IsSeatOf cache.now seat.old }
    ensures { IsSeatOf cache.now seat.new }
{
    matches!(cache.renew(rt, seat, now), Ok(Change::Renewed))
}

/// A cache of two seats, and the last of them.
fn one_of_two(alloc: Global, begin: Moment) -> Option<(RollingCache, RollingSeat)>
    ensures { IfSome result (λ made. IsSeatOf made.0 made.1) }
{
    let Ok((cache, mut seats)) = RollingCache::new(alloc, 2, begin) else {
        return None;
    };
    match seats.pop() {
        Some(seat) => Some((cache, seat)),
        None => None,
    }
}

/// What is found at four moments, where the next generation is begun at the second one.
fn found_at(
    rt: &impl Wait,
    cache: &RollingCache,
    seat: &mut RollingSeat,
    question: &Question,
    answer: &Arc<Answer>,
    moments: [Moment; 4],
) -> Option<[Option<u32>; 4]>
    requires at { IsSeatOf cache.now seat.old }
    requires kind { kind_of (arc_value answer.now).records ≡ question.now.kind }
{
    let [first, second, third, fourth] = moments;
    let one = between_requests(rt, cache, seat, question, answer, first);
    let two = between_requests(rt, cache, seat, question, answer, second);
    if !is_renewed(rt, cache, seat, second) {
        return None;
    }
    let three = between_requests(rt, cache, seat, question, answer, third);
    let four = between_requests(rt, cache, seat, question, answer, fourth);
    Some([one, two, three, four])
}

/// The same over a new cache.
fn found_in_new(
    rt: &impl Wait,
    alloc: Global,
    question: &Question,
    answer: &Arc<Answer>,
    moments: [Moment; 4],
) -> Option<[Option<u32>; 4]>
    requires { kind_of (arc_value answer.now).records ≡ question.now.kind }
{
    let [first, ..] = moments;
    match one_of_two(alloc, first) {
        Some((cache, mut seat)) => found_at(rt, &cache, &mut seat, question, answer, moments),
        None => None,
    }
}

/// The moments of the example.
fn moments() -> Option<[Moment; 4]> {
    Some([
        Moment::new(100)?,
        Moment::new(107)?,
        Moment::new(109)?,
        Moment::new(110)?,
    ])
}

/// What is found at 100 and at 107, and, after the next generation was begun then, at 109 and 110.
fn example(rt: &impl Wait, alloc: Global) -> Option<[Option<u32>; 4]> {
    found_in_new(
        rt,
        alloc,
        &question(alloc)?,
        &answer(alloc, 10)?,
        moments()?,
    )
}

#[test]
fn answer_is_carried(rt: HostRuntime) {
    assert_eq!(rt;
        example(&rt, rt.alloc()),
        Some([None, Some(10), Some(10), None])
    );
}

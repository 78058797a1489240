//! The example of the page of `answer_cache`.
ghost use Rattle.std.specs.Prelude.{◌≡◌, IfSome};
ghost use Rattle.std.specs.Arc.{arc_value};
ghost use Rattle.dns_answers.specs.Records.{kind_of};
ghost use Rattle.answer_cache.specs.Shared.{Belongs};

use crate::pages::answers::{answer, question};
use answer_cache::{AnswerBook, Seat, SharedCache, Stores};
use dns_answers::{Answer, Moment};
use dns_message::Question;
use std::alloc::Global;
use std::sync::{Arc, Wait};

/// The life of the answer that was found.
fn life_of(found: Option<Arc<Answer>>) -> Option<u32> {
    match found {
        None => None,
        Some(answer) => Some(answer.life()),
    }
}

/// What the first seat finds when the second one has stored, before it has learned of it and
/// afterwards.
fn found_by_the_first(
    rt: &impl Wait,
    cache: &SharedCache,
    first: &mut Seat,
    second: &mut Seat,
    question: Question,
    answer: Arc<Answer>,
    now: Moment,
) -> Option<[Option<u32>; 2]>
    requires first { Belongs cache.now first.old }
    requires second { Belongs cache.now second.old }
    requires kind { kind_of (arc_value answer).records ≡ question.kind }
{
    // in the thread of the second seat
    cache.store(rt, second, &question, &answer, now).ok()?;
    let notice = second.notice();
    // in the thread of the first seat, which may not have seen the store before
    let before = life_of(cache.lookup(first, &question, now).ok()?);
    cache.learn(first, &notice.again());
    let after = life_of(cache.lookup(first, &question, now).ok()?);
    Some([before, after])
}

/// A cache with two seats, where there is memory for it.
fn two_seats(alloc: Global) -> Option<(SharedCache, Seat, Seat)>
    ensures first { IfSome result (λ made. Belongs made.0 made.1) }
    ensures second { IfSome result (λ made. Belongs made.0 made.2) }
{
    let Ok((cache, mut seats)) = SharedCache::new(alloc, 2) else {
        return None;
    };
    match (seats.pop(), seats.pop()) {
        (Some(second), Some(first)) => Some((cache, first, second)),
        _ => None,
    }
}

/// What the first seat of a new cache finds.
fn found_by_one_of_two(
    rt: &impl Wait,
    alloc: Global,
    question: Question,
    answer: Arc<Answer>,
) -> Option<[Option<u32>; 2]>
    requires { kind_of (arc_value answer).records ≡ question.kind }
{
    let now = Moment::new(100)?;
    match two_seats(alloc) {
        Some((cache, mut first, mut second)) => {
            found_by_the_first(rt, &cache, &mut first, &mut second, question, answer, now)
        }
        None => None,
    }
}

/// The same of A of a.example.
fn example(rt: &impl Wait, alloc: Global) -> Option<[Option<u32>; 2]> {
    found_by_one_of_two(rt, alloc, question(alloc)?, answer(alloc, 10)?)
}

#[test]
fn store_of_another_seat_is_found(rt: HostRuntime) {
    assert_eq!(rt; example(&rt, rt.alloc()), Some([Some(10); 2]));
}

//! Seats of a shared cache, and questions with answers.
ghost use Rattle.std.specs.Prelude.{◌≡◌, IfSome};
ghost use Rattle.std.specs.Arc.{arc_value};
ghost use Rattle.std.specs.List.{All};
ghost use Rattle.dns_answers.specs.Records.{kind_of};
ghost use Rattle.answer_cache.specs.Shared.{Belongs};

use answer_cache::{AnswerBook, Seat, SharedCache, StoreRefusal, Stores};
use dns_answers::{Answer, Moment, Records, Section};
use dns_message::{Kind, Question};
use dns_name::Name;
use std::alloc::Global;
use std::sync::{Arc, Wait};

/// The moment of all calls.
pub(crate) fn now() -> Option<Moment> {
    Moment::new(100)
}

/// The question of a kind for a name.
pub(crate) fn question(alloc: Global, kind: Kind, name: &str) -> Option<Question>
    ensures { IfSome result (λ made. made.kind ≡ kind) }
{
    match Name::from_text(alloc, name) {
        Ok(name) => Some(Question { name, kind }),
        Err(_) => None,
    }
}

/// No records of a kind.
fn none_of(alloc: Global, kind: Kind) -> Records
    ensures { kind_of result ≡ kind }
{
    match kind {
        Kind::A => Records::V4(Section::from_vec(Vec::new(alloc))),
        Kind::Aaaa => Records::V6(Section::from_vec(Vec::new(alloc))),
        Kind::Srv => Records::Srv(Section::from_vec(Vec::new(alloc))),
        Kind::Naptr => Records::Naptr(Section::from_vec(Vec::new(alloc))),
    }
}

/// The answer of a kind that there are no records, with this life.
fn answer(alloc: Global, kind: Kind, life: u32) -> Option<Arc<Answer>>
    ensures { IfSome result (λ made. kind_of (arc_value made).records ≡ kind) }
{
    match Answer::new(none_of(alloc, kind), life) {
        Some(answer) => Arc::new(alloc, answer).ok(),
        None => None,
    }
}

/// A question, and an answer to it.
#[derive(Drop)]
pub(crate) struct Pair {
    pub(crate) question: Question,
    pub(crate) answer: Arc<Answer>,
}

/// The question of a kind for a name, and the answer that there are no records, with this life.
pub(crate) fn pair_of(alloc: Global, kind: Kind, name: &str, life: u32) -> Option<Pair>
    ensures { IfSome result (λ made. kind_of (arc_value made.answer).records ≡ made.question.kind) }
{
    match (question(alloc, kind, name), answer(alloc, kind, life)) {
        (Some(question), Some(answer)) => Some(Pair { question, answer }),
        _ => None,
    }
}

/// Stores an answer.
pub(crate) fn store<R: Wait>(
    rt: &R,
    cache: &SharedCache,
    seat: &mut Seat,
    question: &Question,
    answer: &Arc<Answer>,
    now: Moment,
) -> Result<(), StoreRefusal>
    requires made_here { Belongs cache.now seat.old }
    requires kind { kind_of (arc_value answer.now).records ≡ question.now.kind }
    ensures { Belongs cache.now seat.new }
{
    cache.store(rt, seat, question, answer, now)
}

/// The life of the answer that a look-up finds, or 0.
pub(crate) fn life(cache: &SharedCache, seat: &mut Seat, question: &Question, now: Moment) -> u32
    requires { Belongs cache.now seat.old }
    ensures { Belongs cache.now seat.new }
{
    match cache.lookup(seat, question, now) {
        Ok(Some(answer)) => answer.life(),
        _ => 0,
    }
}

/// Lets a seat learn what another one has seen.
pub(crate) fn learn(cache: &SharedCache, seat: &mut Seat, other: &Seat)
    requires seat { Belongs cache.now seat.old }
    requires other { Belongs cache.now other.now }
    ensures { Belongs cache.now seat.new }
{
    cache.learn(seat, &other.notice());
}

/// The last of the seats of a cache.
pub(crate) fn last_of(cache: &SharedCache, seats: &mut Vec<Seat>) -> Option<Seat>
    requires { All (Belongs cache.now) seats.old.items }
    ensures left { All (Belongs cache.now) seats.new.items }
    ensures last { IfSome result (Belongs cache.now) }
{
    seats.pop()
}

/// The two seats of a cache.
fn two_of(cache: SharedCache, mut seats: Vec<Seat>) -> Option<(SharedCache, Seat, Seat)>
    requires { All (Belongs cache) seats.items }
    ensures first { IfSome result (λ made. Belongs made.0 made.1) }
    ensures second { IfSome result (λ made. Belongs made.0 made.2) }
{
    let second = last_of(&cache, &mut seats);
    let first = last_of(&cache, &mut seats);
    drop(seats);
    match (first, second) {
        (Some(first), Some(second)) => Some((cache, first, second)),
        (first, second) => {
            drop(first);
            drop(second);
            drop(cache);
            None
        }
    }
}

/// A cache with two seats.
pub(crate) fn two_seats(alloc: Global) -> Option<(SharedCache, Seat, Seat)>
    ensures first { IfSome result (λ made. Belongs made.0 made.1) }
    ensures second { IfSome result (λ made. Belongs made.0 made.2) }
{
    match SharedCache::new(alloc, 2) {
        Ok((cache, seats)) => two_of(cache, seats),
        Err(_) => None,
    }
}

/// Adds a seat to the seats of a cache, where there is memory for that.
pub(crate) fn keep(cache: &SharedCache, seats: &mut Vec<Seat>, seat: Seat)
    requires seats { All (Belongs cache.now) seats.old.items }
    requires seat { Belongs cache.now seat }
    ensures { All (Belongs cache.now) seats.new.items }
{
    let _ = seats.push(seat);
}

/// Both of two values, where there are both.
pub(crate) fn both<A: Drop, B: Drop>(first: Option<A>, second: Option<B>) -> Option<(A, B)>
    ensures { IfSome result (λ made. (first ≡ Some made.0) × (second ≡ Some made.1)) }
{
    match (first, second) {
        (Some(first), Some(second)) => Some((first, second)),
        _ => None,
    }
}

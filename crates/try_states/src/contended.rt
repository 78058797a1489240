//! A store against another seat, which stores in its tries.
ghost use Rattle.std.specs.Prelude.{◌≡◌, IfSome};
ghost use Rattle.std.specs.Arc.{arc_value};
ghost use Rattle.std.specs.List.{All};
ghost use Rattle.dns_answers.specs.Records.{kind_of};
ghost use Rattle.answer_cache.specs.Shared.{Belongs, CacheView, cache_view};

use crate::seats::{Pair, both, last_of, learn, life, now, pair_of, store};
use answer_cache::{Rival, Seat, SharedCache, StoreRefusal};
use dns_answers::{Answer, Moment};
use dns_message::{Kind, Question};
use std::alloc::Global;
use std::marker::{Brand, Model, PhantomData};
use std::sync::{Arc, Wait};

/// Which cache the seats of a test are of. Each call of a test picks it.
trait Naming {
    ghost cache: { CacheView };
}

impl Naming for Brand {
    ghost cache = { cache_view (record { number = 0; log_name = 0; cells_name = 0 }) 0 0 };
}

/// Stores through another seat in the tries up to a last one, and counts the tries.
#[derive(Drop)]
struct Other<'a, R: Wait, J: Naming> {
    rt: &'a R,
    cache: &'a SharedCache,
    seat: Seat,
    question: Question,
    answer: Arc<Answer>,
    now: Moment,
    last: u8,
    tries: u8,
    of: PhantomData<J>,
}

impl<'a, R: Wait, J: Naming> Model for Other<'a, R, J> {
    ghost use Rattle.std.specs.Prelude.{◌≡◌};
    ghost use Rattle.std.specs.Arc.{arc_value};
    ghost use Rattle.dns_answers.specs.Records.{kind_of};
    ghost use Rattle.answer_cache.specs.Shared.{Belongs};

    ghost Value = { Unit {0} };

    ghost view = { λ _. tt };

    ghost invariant = { λ it. (it.cache.now ≡ J.cache) × Belongs J.cache it.seat
        × (kind_of (arc_value it.answer).records ≡ it.question.kind) };
}

impl<'a, R: Wait, J: Naming> Rival for Other<'a, R, J> {
    fn between(&mut self, try_number: u8) {
        self.tries = try_number;
        if try_number <= self.last {
            let (question, answer) = (&self.question, &self.answer);
            let _ = store(
                self.rt,
                self.cache,
                &mut self.seat,
                question,
                answer,
                self.now,
            );
        }
    }
}

/// Stores so often.
fn store_often<R: Wait>(
    rt: &R,
    cache: &SharedCache,
    seat: &mut Seat,
    question: &Question,
    answer: &Arc<Answer>,
    now: Moment,
    count: u8,
)
    requires made_here { Belongs cache.now seat.old }
    requires kind { kind_of (arc_value answer.now).records ≡ question.now.kind }
    ensures { Belongs cache.now seat.new }
{
    'stores: for _store in 0..count {
        let _ = store(rt, cache, seat, question, answer, now);
    }
}

/// Stores against the other seat.
fn store_against<R: Wait, J: Naming>(
    rt: &R,
    cache: &SharedCache,
    seat: &mut Seat,
    question: &Question,
    answer: &Arc<Answer>,
    now: Moment,
    rival: &mut Other<'_, R, J>,
) -> Result<(), StoreRefusal>
    requires made_here { Belongs cache.now seat.old }
    requires kind { kind_of (arc_value answer.now).records ≡ question.now.kind }
    ensures { Belongs cache.now seat.new }
{
    cache.store_against(rt, seat, question, answer, now, rival)
}

/// What a seat then finds of both questions, once it has learned what the other one has seen.
fn lives<R: Wait, J: Naming>(
    cache: &SharedCache,
    seat: &mut Seat,
    rival: &Other<'_, R, J>,
    question: &Question,
    now: Moment,
) -> (u32, u32)
    requires cache { cache.now ≡ J.cache }
    requires seat { Belongs cache.now seat.old }
    ensures { Belongs cache.now seat.new }
{
    learn(cache, seat, &rival.seat);
    let own = life(cache, seat, question, now);
    (own, life(cache, seat, &rival.question, now))
}

/// What a store says, how many tries there were, and the lives that are found then of its question
/// and of the other seat's. Before it the seat stores its question so often.
fn said_against<R: Wait, J: Naming>(
    rt: &R,
    alloc: Global,
    cache: &SharedCache,
    seat: &mut Seat,
    rival: &mut Other<'_, R, J>,
    question: &Question,
    answer: &Arc<Answer>,
    before: u8,
) -> Option<String>
    requires cache { cache.now ≡ J.cache }
    requires seat { Belongs cache.now seat.old }
    requires kind { kind_of (arc_value answer.now).records ≡ question.now.kind }
{
    let now = rival.now;
    store_often(rt, cache, seat, question, answer, now, before);
    let said = store_against(rt, cache, seat, question, answer, now, rival);
    let (own, other) = lives(cache, seat, rival, question, now);
    format!(in alloc; "{said:?} in {}, {own} and {other}", rival.tries).ok()
}

/// How many stores the seat makes before, and the last try in which the other one stores.
#[derive(Clone, Copy)]
struct Row {
    before: u8,
    last: u8,
}

/// What comes of it where the seat stores the one pair, and the other seat the other one.
fn said_by_two<R: Wait, J: Naming>(
    rt: &R,
    alloc: Global,
    cache: &SharedCache,
    seat: Seat,
    other: Seat,
    own: &Pair,
    others: Pair,
    now: Moment,
    row: Row,
) -> Option<String>
    requires cache { cache.now ≡ J.cache }
    requires seat { Belongs cache.now seat }
    requires other { Belongs cache.now other }
    requires own { kind_of (arc_value own.now.answer).records ≡ own.now.question.kind }
    requires others { kind_of (arc_value others.answer).records ≡ others.question.kind }
{
    let mut seat = seat;
    let mut rival: Other<'_, R, J> = Other {
        rt,
        cache,
        seat: other,
        question: others.question,
        answer: others.answer,
        now,
        last: row.last,
        tries: 0,
        of: PhantomData,
    };
    let (question, answer) = (&own.question, &own.answer);
    let said = said_against(
        rt, alloc, cache, &mut seat, &mut rival, question, answer, row.before,
    );
    drop(rival);
    drop(seat);
    said
}

/// The same for two of the seats of a cache.
fn said_by_seats<R: Wait>(
    rt: &R,
    alloc: Global,
    cache: &SharedCache,
    seats: Vec<Seat>,
    own: &Pair,
    others: Pair,
    now: Moment,
    row: Row,
) -> Option<String>
    requires seats { All (Belongs cache.now) seats.items }
    requires own { kind_of (arc_value own.now.answer).records ≡ own.now.question.kind }
    requires others { kind_of (arc_value others.answer).records ≡ others.question.kind }
{
    let mut seats = seats;
    let other = last_of(cache, &mut seats);
    let seat = last_of(cache, &mut seats);
    drop(seats);
    match both(seat, other) {
        Some((seat, other)) => said_by_two::<R, Brand>(
            rt, alloc, cache, seat, other, own, others, now, row,
        ),
        None => None,
    }
}

/// The same for a new cache.
fn said_by_pairs<R: Wait>(
    rt: &R,
    alloc: Global,
    own: &Pair,
    others: Pair,
    now: Moment,
    row: Row,
) -> Option<String>
    requires own { kind_of (arc_value own.now.answer).records ≡ own.now.question.kind }
    requires others { kind_of (arc_value others.answer).records ≡ others.question.kind }
{
    match SharedCache::new(alloc, 2) {
        Ok((cache, seats)) => said_by_seats(rt, alloc, &cache, seats, own, others, now, row),
        Err(_) => None,
    }
}

/// The same where the seat stores the question A and an answer of life 20, and the other one a
/// question of a kind and an answer of life 10.
fn said<R: Wait>(rt: &R, alloc: Global, kind: Kind, row: Row) -> Option<String> {
    let now = now()?;
    let own = pair_of(alloc, Kind::A, "a.example", 20);
    let others = pair_of(alloc, kind, "a.example", 10);
    match both(own, others) {
        Some((own, others)) => said_by_pairs(rt, alloc, &own, others, now, row),
        None => None,
    }
}

/// A kind, how many stores are before, the last try with a store of the other seat, and what comes
/// of it.
const ROWS: [(Kind, u8, u8, &str); 7] = [
    (Kind::A, 0, 0, "Ok(()) in 1, 20 and 20"),
    (Kind::A, 0, 15, "Ok(()) in 16, 20 and 20"),
    (Kind::A, 0, 16, "Err(Contended) in 16, 10 and 10"),
    // the history has stores already
    (Kind::A, 3, 15, "Ok(()) in 16, 20 and 20"),
    (Kind::A, 3, 16, "Err(Contended) in 16, 10 and 10"),
    // the group is full after two tries
    (Kind::A, 126, 16, "Err(GenerationFull) in 2, 10 and 10"),
    // a question of another group
    (Kind::Aaaa, 0, 16, "Ok(()) in 1, 20 and 10"),
];

#[test]
fn stores_against_another_seat(rt: HostRuntime) {
    for (kind, before, last, wanted) in ROWS {
        let text = said(&rt, rt.alloc(), kind, Row { before, last });
        assert_eq!(rt; text.as_deref(), Some(wanted));
    }
}

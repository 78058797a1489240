//! A seat that goes over from one generation to the next.
ghost use Rattle.std.specs.Prelude.{◌≡◌, ◌++◌, ◌∷◌, [], IfErr, IfOk, OnOk, false, true};
ghost use Rattle.std.specs.Arc.{arc_value};
ghost use Rattle.std.specs.List.{All, Contains};
ghost use Rattle.std.specs.Option.{option_map};
ghost use Rattle.dns_answers.specs.Records.{kind_of};
ghost use Rattle.answer_log.specs.Histories.{cached};
ghost use Rattle.answer_cache.specs.Seats.{GoesOn, GroupHas, IsRefused, IsStored, StoresNothing};
ghost use Rattle.answer_cache.specs.Seats.{offer_of};
ghost use Rattle.answer_cache.specs.declared.refusal.StoreRefusal.TheVariants.{GenerationFull};
ghost use Rattle.rolling_cache.specs.Rolling.{AddsIfLives, IsAt, IsFresh, IsLater, IsStoredAgain};
ghost use Rattle.rolling_cache.specs.Rolling.{MovesOn, TellsEnd, Waits, rolling_view, stores_to_end};

use crate::generation::Generation;
use crate::late_store::LateStore;
use answer_cache::{AnswerBook, Seat, StoreRefusal, Stores};
use dns_answers::{Answer, Moment};
use dns_message::Question;
use std::alloc::AllocError;
use std::marker::Model;
use std::mem;
use std::sync::{Arc, Wait};

/// A seat at a `RollingCache`: a seat at one of its generations. One thread uses it at a time, and
/// it may be sent to another.
#[derive(Drop)]
pub struct RollingSeat {
    pub(crate) generation: Arc<Generation>,
    pub(crate) seat: Seat,
    pub(crate) late: Vec<LateStore>,
    pub(crate) ending: bool,
}

/// How many late stores a seat keeps.
const LATE_STORES: usize = 1_024;

/// How many stores that a group has end its generation: seven eighths of what it can have.
const STORES_TO_END: usize = 112;

impl Model for RollingSeat {
    ghost use Rattle.std.specs.Arc.{arc_value};
    ghost use Rattle.std.specs.List.{All, Contains};
    ghost use Rattle.rolling_cache.specs.Rolling.{RollingView, rolling_view};

    ghost Value = { RollingView };

    ghost view = { λ it. rolling_view (arc_value it.generation) it.seat it.ending };

    // Its late stores were handed in.
    ghost invariant = { λ it. All (Contains it.seat.seat.offered) it.late.items };
}

impl RollingSeat {
    /// The generation that the seat is at.
    #[must_use]
    pub fn generation(&self) -> &Generation
        ensures { result.now ≡ self.now.generation }
    {
        &self.generation
    }

    /// Whether its generation is to end: one of its groups has 112 of the 128 stores that it can
    /// have, or was full. A seat notes that when it stores, for all seats of the generation.
    #[must_use]
    pub fn is_ending(&self) -> bool
        ensures { self.now.ending ≡ true → result ≡ true }
    {
        self.ending || self.generation.is_ending()
    }

    /// The generation of the seat, and its seat there, for what owns its seat, as a worker does.
    /// The generation is not freed before both are dropped.
    #[must_use]
    pub fn into_parts(self) -> (Arc<Generation>, Seat)
        ensures generation { arc_value result.0 ≡ self.generation }
        ensures seat { result.1 ≡ self.seat }
    {
        (self.generation, self.seat)
    }

    /// The answer that its generation has for a question.
    pub(crate) fn lookup(
        &mut self,
        question: &Question,
        now: Moment,
    ) -> Result<Option<Arc<Answer>>, AllocError>
        requires { IsAt self.old }
        ensures waits { Waits self.old self.new }
        ensures at { IsAt self.new }
        ensures found { IfOk result (λ found. option_map arc_value found
            ≡ cached self.new.seat.seat.seen question.now now) }
    {
        let cache = &self.generation.cache;
        cache.lookup(&mut self.seat, question, now)
    }

    /// Stores an answer in its generation, and keeps it where it may not be carried.
    pub(crate) fn store<R: Wait>(
        &mut self,
        rt: &R,
        question: &Question,
        answer: &Arc<Answer>,
        now: Moment,
    ) -> Result<(), StoreRefusal>
        requires at { IsAt self.old }
        requires kind { kind_of (arc_value answer.now).records ≡ question.now.kind }
        ensures at { IsAt self.new }
        ensures generation { self.new.generation ≡ self.old.generation }
        ensures goes_on { GoesOn self.old.seat.seat self.new.seat.seat }
        ensures offered { self.new.seat.seat.offered ≡ self.old.seat.seat.offered
            ++ offer_of question.now (arc_value answer.now) now ∷ [] }
        ensures stored { OnOk result (IsStored self.old.seat.seat self.new.seat.seat
            (offer_of question.now (arc_value answer.now) now)) }
        ensures refused { IfErr result (IsRefused self.old.seat.seat self.new.seat.seat
            (offer_of question.now (arc_value answer.now) now)) }
        ensures ends { TellsEnd question.now self.old self.new }
        ensures full { IfErr result
            (λ refusal. refusal ≡ GenerationFull → self.new.ending ≡ true) }
    {
        let stored = self.store_noting(rt, question, answer, now);
        if self.generation.is_handed_on() {
            self.keep(question, answer, now);
        }
        stored
    }

    /// Stores an answer in its generation, and notes whether that is to end.
    fn store_noting<R: Wait>(
        &mut self,
        rt: &R,
        question: &Question,
        answer: &Arc<Answer>,
        now: Moment,
    ) -> Result<(), StoreRefusal>
        requires at { IsAt self.old }
        requires kind { kind_of (arc_value answer.now).records ≡ question.now.kind }
        ensures at { IsAt self.new }
        ensures generation { self.new.generation ≡ self.old.generation }
        ensures goes_on { GoesOn self.old.seat.seat self.new.seat.seat }
        ensures offered { self.new.seat.seat.offered ≡ self.old.seat.seat.offered
            ++ offer_of question.now (arc_value answer.now) now ∷ [] }
        ensures stored { OnOk result (IsStored self.old.seat.seat self.new.seat.seat
            (offer_of question.now (arc_value answer.now) now)) }
        ensures refused { IfErr result (IsRefused self.old.seat.seat self.new.seat.seat
            (offer_of question.now (arc_value answer.now) now)) }
        ensures ends { TellsEnd question.now self.old self.new }
        ensures full { IfErr result
            (λ refusal. refusal ≡ GenerationFull → self.new.ending ≡ true) }
    {
        self.note_end(question);
        let stored = self.store_here(rt, question, answer, now);
        self.note_full(stored);
        stored
    }

    /// Stores an answer in its generation.
    fn store_here<R: Wait>(
        &mut self,
        rt: &R,
        question: &Question,
        answer: &Arc<Answer>,
        now: Moment,
    ) -> Result<(), StoreRefusal>
        requires at { IsAt self.old }
        requires kind { kind_of (arc_value answer.now).records ≡ question.now.kind }
        ensures at { IsAt self.new }
        ensures generation { self.new.generation ≡ self.old.generation }
        ensures goes_on { GoesOn self.old.seat.seat self.new.seat.seat }
        ensures ending { self.new.ending ≡ self.old.ending }
        ensures offered { self.new.seat.seat.offered ≡ self.old.seat.seat.offered
            ++ offer_of question.now (arc_value answer.now) now ∷ [] }
        ensures stored { OnOk result (IsStored self.old.seat.seat self.new.seat.seat
            (offer_of question.now (arc_value answer.now) now)) }
        ensures refused { IfErr result (IsRefused self.old.seat.seat self.new.seat.seat
            (offer_of question.now (arc_value answer.now) now)) }
    {
        let cache = &self.generation.cache;
        cache.store(rt, &mut self.seat, question, answer, now)
    }

    /// Notes that its generation is to end, where the group of a question has so many stores.
    fn note_end(&mut self, question: &Question)
        requires { IsAt self.old }
        ensures at { IsAt self.new }
        ensures generation { self.new.generation ≡ self.old.generation }
        ensures goes_on { GoesOn self.old.seat.seat self.new.seat.seat }
        ensures stores_nothing { StoresNothing self.old.seat.seat self.new.seat.seat }
        ensures ends { TellsEnd question.now self.old self.new }
    {
        if self.has_many(question) {
            self.end();
        }
    }

    /// Whether the group of a question has so many stores.
    fn has_many(&mut self, question: &Question) -> bool
        requires { IsAt self.old }
        ensures waits { Waits self.old self.new }
        ensures at { IsAt self.new }
        ensures few { result ≡ false
            → GroupHas stores_to_end self.new.seat.seat question.now → ⊥ }
    {
        let cache = &self.generation.cache;
        let has = cache.group_has(&mut self.seat, question, STORES_TO_END);
        !matches!(has, Ok(false))
    }

    /// Notes that its generation is to end, where a group was full.
    fn note_full(&mut self, stored: Result<(), StoreRefusal>)
        ensures generation { self.new.generation ≡ self.old.generation }
        ensures seat { self.new.seat ≡ self.old.seat }
        ensures still { self.old.ending ≡ true → self.new.ending ≡ true }
        ensures full { IfErr stored
            (λ refusal. refusal ≡ GenerationFull → self.new.ending ≡ true) }
    {
        if stored == Err(StoreRefusal::GenerationFull) {
            self.end();
        }
    }

    /// Notes that its generation is to end.
    fn end(&mut self)
        ensures { self.new ≡ rolling_view self.old.generation self.old.seat true }
    {
        self.ending = true;
        self.generation.end();
    }

    /// Keeps a late store, where there is room and memory.
    fn keep(&mut self, question: &Question, answer: &Arc<Answer>, now: Moment)
        requires kind { kind_of (arc_value answer.now).records ≡ question.now.kind }
        requires offered { Contains self.old.seat.seat.offered
            (offer_of question.now (arc_value answer.now) now) }
        ensures { self.new ≡ self.old }
    {
        if self.late.len() >= LATE_STORES {
            return;
        }
        let Ok(store) = LateStore::new(question, answer, now) else {
            return;
        };
        let _ = self.late.push(store);
    }

    /// Goes over to a seat at a later generation, and stores there again what lives of its late
    /// stores.
    pub(crate) fn go_over<R: Wait>(&mut self, rt: &R, next: RollingSeat, now: Moment)
        requires fresh { IsFresh next }
        requires later { IsLater self.old.generation next.generation }
        ensures { MovesOn now self.old self.new }
    {
        let before = mem::replace(self, next);
        self.store_again(rt, &before, now);
    }

    /// Stores again what lives of the late stores of another seat.
    fn store_again<R: Wait>(&mut self, rt: &R, before: &RollingSeat, now: Moment)
        requires { IsFresh self.old }
        ensures at { IsAt self.new }
        ensures generation { self.new.generation ≡ self.old.generation }
        ensures goes_on { GoesOn self.old.seat.seat self.new.seat.seat }
        ensures again { All (IsStoredAgain now before.now.seat.seat.offered)
            self.new.seat.seat.offered }
    {
        'stores: for store in before.late.iter() {
            self.store_late(rt, store, now);
        }
    }

    /// Stores a late store of another seat, if it lives, and there is no later answer that lives.
    fn store_late<R: Wait>(&mut self, rt: &R, store: &LateStore, now: Moment)
        requires { IsAt self.old }
        ensures at { IsAt self.new }
        ensures generation { self.new.generation ≡ self.old.generation }
        ensures goes_on { GoesOn self.old.seat.seat self.new.seat.seat }
        ensures offered { AddsIfLives now store.now self.old.seat.seat.offered
            self.new.seat.seat.offered }
    {
        if store.lives_at(now) && self.lacks(store, now) {
            // Where it is refused, it is asked for again.
            let _ = self.store(rt, &store.question, &store.answer, store.moment);
        }
    }

    /// Whether its generation has no answer that lives and was stored when this was, or later.
    fn lacks(&mut self, store: &LateStore, now: Moment) -> bool
        requires { IsAt self.old }
        ensures waits { Waits self.old self.new }
        ensures at { IsAt self.new }
    {
        let life = match self.lookup(&store.question, now) {
            Ok(Some(found)) => found.life(),
            Ok(None) => return true,
            Err(_) => return false,
        };
        // An answer of that life lives then exactly where it was stored no earlier than this.
        match store.end_of(life) {
            Some(end) => matches!(self.lookup(&store.question, end), Ok(None)),
            None => false,
        }
    }
}

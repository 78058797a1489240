//! The cache that goes over from one generation to the next.
ghost use Rattle.std.specs.Prelude.{◌≡◌, ◌<◌, ◌++◌, ◌∷◌, [], IfErr, IfOk, IfSome, OnErr};
ghost use Rattle.std.specs.Prelude.{OnOk, length, true};
ghost use Rattle.std.specs.Arc.{arc_value};
ghost use Rattle.std.specs.List.{All};
ghost use Rattle.std.specs.Option.{option_map};
ghost use Rattle.dns_answers.specs.Records.{kind_of};
ghost use Rattle.answer_log.specs.Histories.{cached};
ghost use Rattle.dns_answers.specs.Found.{answer_in};
ghost use Rattle.answer_cache.specs.Seats.{GoesOn, IsRefused, IsStored, StoresNothing, offer_of};
ghost use Rattle.answer_cache.specs.Shared.{Refuses, RefusesGroups};
ghost use Rattle.answer_cache.specs.declared.refusal.StoreRefusal.TheVariants.{GenerationFull};
ghost use Rattle.rolling_cache.specs.Rolling.{Changes, IsFirst, IsFreshAfter, IsFreshAt, IsOf};
ghost use Rattle.rolling_cache.specs.Rolling.{HandsOver, IsAt, IsFresh, IsOfGroups, IsSeatOf};
ghost use Rattle.rolling_cache.specs.Rolling.{TellsEnd, Waits};

use crate::change::Change;
use crate::generation::Generation;
use crate::present::{Present, PresentSlot};
use crate::seat::RollingSeat;
use answer_cache::{AnswerBook, CacheRefusal, StoreRefusal, Stores};
use answer_log::LEAST_GROUPS;
use dns_answers::{Answer, FoundAnswer, Moment};
use dns_message::Question;
use std::alloc::{AllocError, Global};
use std::marker::Model;
use std::sync::atomic::{AtomicU64, Ordering};
use std::sync::{Arc, Wait};

/// A cache for an element that runs for long: one `SharedCache` after the other, each of which
/// begins with what lives of the one before it.
#[derive(Drop)]
pub struct RollingCache {
    alloc: Global,
    seats: usize,
    number: AtomicU64,
    present: PresentSlot,
}

impl Model for RollingCache {
    ghost use Rattle.answer_cache.specs.Shared.{CacheView, cache_coded};

    ghost Value = { CacheView };

    ghost coded = { cache_coded };

    // The cache of its first generation.
    ghost view = { λ it. it.present };
}

/// Takes so many seats of the present generation.
fn take_seats(
    alloc: Global,
    present: &mut Present,
    seats: usize,
) -> Result<Vec<RollingSeat>, AllocError>
    ensures fresh { IfOk result (λ made. All (IsFreshAt present.old.generation) made.items) }
    ensures count { IfOk result (λ made. length made.items ≡ seats) }
    ensures same { present.new.generation ≡ present.old.generation }
{
    let mut made = Vec::new(alloc);
    'seats: for _seat in 0..seats {
        let Some(seat) = present.take() else {
            return Err(AllocError);
        };
        made.push(seat)?;
    }
    Ok(made)
}

impl RollingCache {
    /// A cache of 64 groups in which nothing is stored, and its seats.
    ///
    /// # Errors
    /// `BadCount` outside 1 to 64 seats, and then `Memory`.
    pub fn new(
        alloc: Global,
        seats: usize,
        now: Moment,
    ) -> Result<(RollingCache, Vec<RollingSeat>), CacheRefusal>
        ensures first { IfOk result (λ made. All IsFirst made.1.items) }
        ensures of { IfOk result (λ made. All (IsSeatOf made.0) made.1.items) }
        ensures groups { IfOk result (λ made. All (IsOfGroups 64) made.1.items) }
        ensures count { IfOk result (λ made. length made.1.items ≡ seats) }
        ensures refused { IfErr result (Refuses seats) }
    {
        RollingCache::with_groups(alloc, seats, LEAST_GROUPS, now)
    }

    /// A cache of so many groups in which nothing is stored, and its seats. Each generation has as
    /// many groups.
    ///
    /// # Errors
    /// `BadCount` outside 1 to 64 seats, and where the number of groups is no power of two from 64
    /// to 65,536; and then `Memory`.
    pub fn with_groups(
        alloc: Global,
        seats: usize,
        groups: u32,
        now: Moment,
    ) -> Result<(RollingCache, Vec<RollingSeat>), CacheRefusal>
        ensures first { IfOk result (λ made. All IsFirst made.1.items) }
        ensures of { IfOk result (λ made. All (IsSeatOf made.0) made.1.items) }
        ensures groups { IfOk result (λ made. All (IsOfGroups groups) made.1.items) }
        ensures count { IfOk result (λ made. length made.1.items ≡ seats) }
        ensures refused { IfErr result (RefusesGroups seats groups) }
    {
        let mut present = Generation::first(alloc, seats, groups, now)?;
        let Ok(made) = take_seats(alloc, &mut present, seats) else {
            return Err(CacheRefusal::Memory);
        };
        let Ok(first) = Arc::try_clone(&present.generation) else {
            return Err(CacheRefusal::Memory);
        };
        let cache = RollingCache {
            alloc,
            seats,
            number: AtomicU64::new(0),
            present: PresentSlot::new(present, &first.cache),
        };
        Ok((cache, made))
    }

    /// A seat at the present generation, where that is a later one than this, no thread changes it
    /// just now, and a seat is left. Each seat that the cache was made with may take one in each
    /// generation.
    #[must_use]
    pub fn seat_after(&self, generation: &Generation) -> Option<RollingSeat>
        ensures { IfSome result (IsFreshAfter self.now generation.now) }
    {
        if self.number.load(Ordering::SeqCst) <= generation.number {
            return None;
        }
        let mut present = self.present.take()?;
        let next = present.seat_after(generation);
        self.present.give(present);
        next
    }

    /// Goes over to the present generation, where that is a later one, and begins the next one
    /// where its own is to end, and began at an earlier moment. Call it between requests, and
    /// before replies are heard: before each, or before each batch. What the seat had stored while
    /// its generation was handed on, and lives, is stored again.
    ///
    /// It waits for no other thread: where one changes the generation just now, the seat stays.
    ///
    /// # Errors
    /// Where memory is refused. The seat stays at its generation.
    pub fn catch_up<R: Wait>(
        &self,
        rt: &R,
        seat: &mut RollingSeat,
        now: Moment,
    ) -> Result<Change, AllocError>
        requires { IsSeatOf self.now seat.old }
        ensures at { IsSeatOf self.now seat.new }
        ensures changed { IfOk result (Changes now seat.old seat.new) }
        ensures waits { OnErr result (Waits seat.old seat.new) }
    {
        if let Some(next) = self.seat_after(&seat.generation) {
            seat.go_over(rt, next, now);
            return Ok(Change::Moved);
        }
        if seat.is_ending() && seat.generation.began < now {
            return self.renew(rt, seat, now);
        }
        Ok(Change::Stays)
    }

    /// Begins the next generation with what lives at this moment, whether or not the present one is
    /// to end. Where another thread has begun one, the seat goes over to that.
    ///
    /// # Errors
    /// Where memory is refused. The seat stays at its generation.
    pub fn renew<R: Wait>(
        &self,
        rt: &R,
        seat: &mut RollingSeat,
        now: Moment,
    ) -> Result<Change, AllocError>
        requires { IsSeatOf self.now seat.old }
        ensures at { IsSeatOf self.now seat.new }
        ensures changed { IfOk result (Changes now seat.old seat.new) }
        ensures waits { OnErr result (Waits seat.old seat.new) }
    {
        let Some(mut present) = self.present.take() else {
            return Ok(Change::Stays);
        };
        let changed = self.change(rt, &mut present, seat, now);
        self.present.give(present);
        changed
    }

    /// The same, where the present generation was taken out.
    fn change<R: Wait>(
        &self,
        rt: &R,
        present: &mut Present,
        seat: &mut RollingSeat,
        now: Moment,
    ) -> Result<Change, AllocError>
        requires seat { IsSeatOf self.now seat.old }
        requires present { IsOf self.now present.old.generation }
        ensures at { IsSeatOf self.now seat.new }
        ensures present { IsOf self.now present.new.generation }
        ensures changed { IfOk result (Changes now seat.old seat.new) }
        ensures waits { OnErr result (Waits seat.old seat.new) }
    {
        if seat.generation.number != present.generation.number {
            return Ok(match present.seat_after(&seat.generation) {
                Some(next) => {
                    seat.go_over(rt, next, now);
                    Change::Moved
                }
                None => Change::Stays,
            });
        }
        let (made, next) = seat.next(rt, self.alloc, self.seats, now)?;
        self.number.store(made.generation.number, Ordering::SeqCst);
        *present = made;
        *seat = next;
        Ok(Change::Renewed)
    }
}

impl RollingSeat {
    /// The generation after its own, and a seat there.
    fn next<R: Wait>(
        &mut self,
        rt: &R,
        alloc: Global,
        seats: usize,
        now: Moment,
    ) -> Result<(Present, RollingSeat), AllocError>
        requires { IsAt self.old }
        ensures at { IsAt self.new }
        ensures waits { Waits self.old self.new }
        ensures next { IfOk result (λ made. IsFresh made.1 × HandsOver now self.old made.1) }
        ensures present { IfOk result (λ made. made.0.generation ≡ made.1.generation) }
    {
        let mut made = self
            .generation
            .hand_on(rt, alloc, &mut self.seat, seats, now)?;
        match made.take() {
            None => Err(AllocError),
            Some(next) => Ok((made, next)),
        }
    }
}

impl AnswerBook for RollingCache {
    type Seat = RollingSeat;

    ghost use Rattle.rolling_cache.specs.Rolling.{IsSeatOf};

    ghost belongs = { λ cache seat. IsSeatOf cache seat };

    ghost shown = { λ seat. seat.seat.seat };

    ghost holds = { λ cache seat at. at.at.here.is };

    // The seat has the generation, and may leave it, so no answer is lent.
    fn look<'a>(
        &'a self,
        seat: &mut RollingSeat,
        question: &Question,
        now: Moment,
    ) -> Result<Option<FoundAnswer<'a>>, AllocError>
        requires { IsSeatOf self.now seat.old }
        ensures stays { IsSeatOf self.now seat.new }
        ensures generation { seat.new.generation ≡ seat.old.generation }
        ensures goes_on { GoesOn seat.old.seat.seat seat.new.seat.seat }
        ensures stores_nothing { StoresNothing seat.old.seat.seat seat.new.seat.seat }
        ensures ending { seat.new.ending ≡ seat.old.ending }
        ensures found { IfOk result (λ found. option_map answer_in found
            ≡ cached seat.new.seat.seat.seen question.now now) }
    {
        match self.lookup(seat, question, now)? {
            Some(answer) => Ok(Some(FoundAnswer::Owned(answer))),
            None => Ok(None),
        }
    }

    fn lookup(
        &self,
        seat: &mut RollingSeat,
        question: &Question,
        now: Moment,
    ) -> Result<Option<Arc<Answer>>, AllocError>
        requires { IsSeatOf self.now seat.old }
        ensures stays { IsSeatOf self.now seat.new }
        ensures generation { seat.new.generation ≡ seat.old.generation }
        ensures goes_on { GoesOn seat.old.seat.seat seat.new.seat.seat }
        ensures stores_nothing { StoresNothing seat.old.seat.seat seat.new.seat.seat }
        ensures ending { seat.new.ending ≡ seat.old.ending }
        ensures found { IfOk result (λ found. option_map arc_value found
            ≡ cached seat.new.seat.seat.seen question.now now) }
    {
        seat.lookup(question, now)
    }
}

impl<R: Wait> Stores<R> for RollingCache {
    fn store(
        &self,
        rt: &R,
        seat: &mut RollingSeat,
        question: &Question,
        answer: &Arc<Answer>,
        now: Moment,
    ) -> Result<(), StoreRefusal>
        requires made_here { IsSeatOf self.now seat.old }
        requires kind { kind_of (arc_value answer.now).records ≡ question.now.kind }
        ensures stays { IsSeatOf self.now seat.new }
        ensures generation { seat.new.generation ≡ seat.old.generation }
        ensures goes_on { GoesOn seat.old.seat.seat seat.new.seat.seat }
        ensures offered { seat.new.seat.seat.offered ≡ seat.old.seat.seat.offered
            ++ offer_of question.now (arc_value answer.now) now ∷ [] }
        ensures stored { OnOk result (IsStored seat.old.seat.seat seat.new.seat.seat
            (offer_of question.now (arc_value answer.now) now)) }
        ensures refused { IfErr result (IsRefused seat.old.seat.seat seat.new.seat.seat
            (offer_of question.now (arc_value answer.now) now)) }
        ensures ends { TellsEnd question.now seat.old seat.new }
        ensures full { IfErr result
            (λ refusal. refusal ≡ GenerationFull → seat.new.ending ≡ true) }
    {
        seat.store(rt, question, answer, now)
    }
}

//! A generation.
ghost use Rattle.std.specs.Prelude.{◌≡◌, ◌+◌, ◌<◌, ◌≤◌, ℕ, [], IfErr, IfOk, OnOk, length};
ghost use Rattle.answer_cache.specs.Lists.{IsGroupCount};
ghost use Rattle.answer_cache.specs.Shared.{RefusesGroups};
ghost use Rattle.rolling_cache.specs.Eras.{Descends};
ghost use Rattle.rolling_cache.specs.Rolling.{AreLeft, HandsOver, IsAt, Waits};
ghost use Rattle.rolling_cache.specs.Rolling.{generation_of, rolling_of};

use crate::lineage::Lineage;
use crate::present::Present;
use answer_cache::{CacheRefusal, Seat, SharedCache};
use dns_answers::Moment;
use std::alloc::{AllocError, Global};
use std::marker::Model;
use std::sync::atomic::{AtomicBool, Ordering};
use std::sync::{Arc, Wait};

/// A generation: a cache, which begins with what the one before it handed on.
#[derive(Drop)]
pub struct Generation {
    pub(crate) cache: SharedCache,
    pub(crate) number: u64,
    pub(crate) lineage: Lineage,
    pub(crate) began: Moment,
    ending: AtomicBool,
    handing_on: AtomicBool,
}

impl Model for Generation {
    ghost use Rattle.std.specs.Prelude.{◌≡◌, length};
    ghost use Rattle.rolling_cache.specs.Eras.{Descends};
    ghost use Rattle.rolling_cache.specs.Rolling.{GenerationView, generation_of};

    ghost Value = { GenerationView };

    ghost view = { λ it. generation_of it.cache it.lineage };

    ghost invariant = { λ it. Descends it.lineage × (it.number ≡ length it.lineage) };
}

impl Generation {
    /// The number of the generation, from 0: how many came before it.
    #[must_use]
    pub fn number(&self) -> u64
        ensures { result ≡ length self.now.past }
    {
        self.number
    }

    /// The cache of the generation.
    #[must_use]
    pub fn cache(&self) -> &SharedCache
        ensures { result.now ≡ self.now.cache }
    {
        &self.cache
    }

    /// A law: each generation before it began with what the one before that handed on.
    pub fn law_descends(&self)
        ensures { Descends self.now.past }
    {
        let _ = &self.lineage;
    }

    /// Whether one of its seats has noted that it is to end (`RollingSeat::is_ending`).
    pub(crate) fn is_ending(&self) -> bool {
        self.ending.load(Ordering::SeqCst)
    }

    /// Notes that it is to end.
    pub(crate) fn end(&self) {
        self.ending.store(true, Ordering::SeqCst);
    }

    /// A generation that begins, with all of its seats.
    fn open(
        alloc: Global,
        cache: SharedCache,
        seats: Vec<Seat>,
        number: u64,
        began: Moment,
        lineage: Lineage,
    ) -> Result<Present, AllocError>
        requires law_descends { Descends lineage }
        requires number { number ≡ length lineage }
        requires left { AreLeft (generation_of cache lineage) seats.items }
        ensures { IfOk result (λ made. made.generation ≡ generation_of cache lineage) }
    {
        let generation = Generation {
            cache,
            number,
            lineage,
            began,
            ending: AtomicBool::new(false),
            handing_on: AtomicBool::new(false),
        };
        let generation = Arc::new(alloc, generation)?;
        Ok(Present { generation, seats })
    }

    /// The first generation, of so many groups.
    pub(crate) fn first(
        alloc: Global,
        seats: usize,
        groups: u32,
        now: Moment,
    ) -> Result<Present, CacheRefusal>
        ensures past { IfOk result (λ made. made.generation.past ≡ []) }
        ensures groups { IfOk result (λ made. made.generation.cache.groups ≡ groups) }
        ensures count { OnOk result ((0 < seats) × (seats ≤ 64) × IsGroupCount groups) }
        ensures refused { IfErr result (RefusesGroups seats groups) }
    {
        let (cache, seats) = SharedCache::with_groups(alloc, seats, groups)?;
        let opened = Generation::open(alloc, cache, seats, 0, now, Lineage::none());
        let Ok(made) = opened else {
            return Err(CacheRefusal::Memory);
        };
        Ok(made)
    }

    /// Whether it is being handed on, or was: a store in it may not be carried.
    pub(crate) fn is_handed_on(&self) -> bool {
        self.handing_on.load(Ordering::SeqCst)
    }

    /// The next generation, to which it hands on what lives at this moment.
    pub(crate) fn hand_on<R: Wait>(
        &self,
        rt: &R,
        alloc: Global,
        seat: &mut Seat,
        seats: usize,
        now: Moment,
    ) -> Result<Present, AllocError>
        requires at { IsAt (rolling_of self.now seat.old) }
        ensures waits { Waits (rolling_of self.now seat.old) (rolling_of self.now seat.new) }
        ensures at { IsAt (rolling_of self.now seat.new) }
        ensures over { IfOk result (λ made. HandsOver now (rolling_of self.now seat.old)
            (rolling_of made.generation seat.new)) }
    {
        self.handing_on.store(true, Ordering::SeqCst);
        let made = self.successor(rt, alloc, seat, seats, now);
        if made.is_err() {
            self.handing_on.store(false, Ordering::SeqCst);
        }
        made
    }

    /// The same, once it is told that it is handed on.
    fn successor<R: Wait>(
        &self,
        rt: &R,
        alloc: Global,
        seat: &mut Seat,
        seats: usize,
        now: Moment,
    ) -> Result<Present, AllocError>
        requires at { IsAt (rolling_of self.now seat.old) }
        ensures waits { Waits (rolling_of self.now seat.old) (rolling_of self.now seat.new) }
        ensures at { IsAt (rolling_of self.now seat.new) }
        ensures over { IfOk result (λ made. HandsOver now (rolling_of self.now seat.old)
            (rolling_of made.generation seat.new)) }
    {
        let Some(number) = self.number.checked_add(1) else {
            return Err(AllocError);
        };
        let carried = self.cache.carry(alloc, seat, now)?;
        let lineage = self.lineage.with(&seat.notice(), &carried);
        let Ok((cache, seats)) = SharedCache::successor(rt, alloc, &carried, seats) else {
            return Err(AllocError);
        };
        let made = Generation::open(alloc, cache, seats, number, now, lineage)?;
        Ok(made)
    }
}

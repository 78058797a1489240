//! The generation that is present, and where it lies.
ghost use Rattle.std.specs.Prelude.{◌≡◌, ◌<◌, IfNone, IfSome, length};
ghost use Rattle.rolling_cache.specs.Rolling.{GivesOut, IsOf};

use crate::generation::Generation;
use crate::seat::RollingSeat;
use answer_cache::{Seat, SharedCache};
use counted_slot::{Counted, FREE, Fits, PRESENT, TAKEN};
use std::marker::Model;
use std::sync::Arc;

/// The present generation, and its seats that are still to be taken.
#[derive(Drop)]
pub(crate) struct Present {
    pub generation: Arc<Generation>,
    pub seats: Vec<Seat>,
}

impl Model for Present {
    ghost use Rattle.std.specs.Prelude.{length};
    ghost use Rattle.std.specs.Arc.{arc_value};
    ghost use Rattle.rolling_cache.specs.Rolling.{AreLeft, PresentView, present_of};

    ghost Value = { PresentView };

    ghost view = { λ it. present_of (arc_value it.generation) (length it.seats.items) };

    ghost invariant = { λ it. AreLeft (arc_value it.generation) it.seats.items };
}

impl Present {
    /// One of its seats, where one is left.
    pub(crate) fn take(&mut self) -> Option<RollingSeat>
        ensures given { IfSome result (GivesOut self.old self.new) }
        ensures none { IfNone result (self.new ≡ self.old) }
        ensures same { self.new.generation ≡ self.old.generation }
    {
        let Ok(generation) = Arc::try_clone(&self.generation) else {
            return None;
        };
        let late = Vec::new(*self.seats.allocator());
        let seat = self.seats.pop()?;
        Some(RollingSeat {
            generation,
            seat,
            late,
            ending: false,
        })
    }

    /// One of its seats, where this generation is later than the other one, and one is left.
    pub(crate) fn seat_after(&mut self, generation: &Generation) -> Option<RollingSeat>
        ensures given { IfSome result (GivesOut self.old self.new) }
        ensures later { IfSome result
            (λ it. length generation.now.past < length it.generation.past) }
        ensures none { IfNone result (self.new ≡ self.old) }
        ensures same { self.new.generation ≡ self.old.generation }
    {
        if self.generation.number <= generation.number {
            return None;
        }
        self.take()
    }
}

/// The present generation is one of the cache in whose slot it lies.
impl Fits for Present {
    type Tag = SharedCache;

    ghost use Rattle.rolling_cache.specs.Rolling.{IsOf};

    ghost fits = { λ root present. IsOf root present.generation };
}

/// Where the present generation lies. A thread takes it out to use it, and no other thread waits
/// for it meanwhile. Contracts see the cache of the first generation, of which each comes that lies
/// there.
#[derive(Drop)]
pub(crate) struct PresentSlot {
    slot: Counted<Option<Present>>,
}

/// The word of a slot from which the present generation was taken.
const AWAY: u64 = PRESENT;

impl Model for PresentSlot {
    ghost use Rattle.answer_cache.specs.Shared.{CacheView, cache_coded};

    ghost Value = { CacheView };

    ghost coded = { cache_coded };

    ghost view = { λ it. it.slot };
}

impl PresentSlot {
    /// A slot in which this lies, where the first generation has this cache.
    pub(crate) fn new(present: Present, root: &SharedCache) -> PresentSlot
        requires { IsOf root.now present.generation }
        ensures { result ≡ root.now }
    {
        PresentSlot {
            slot: Counted::new(Some(present), root),
        }
    }

    /// Takes out what lies there, where no other thread has it.
    pub(crate) fn take(&self) -> Option<Present>
        ensures { IfSome result (λ present. IsOf self.now present.generation) }
    {
        let (found, claim) = self.slot.turn(FREE, TAKEN);
        if found != FREE {
            claim.done();
            return None;
        }
        claim.put(None, AWAY)
    }

    /// Puts back what was taken, or what comes after it.
    pub(crate) fn give(&self, present: Present)
        requires { IsOf self.now present.generation }
    {
        let (found, claim) = self.slot.turn(AWAY, TAKEN);
        if found != AWAY {
            claim.done();
            return;
        }
        drop(claim.put(Some(present), FREE));
    }
}

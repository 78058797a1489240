//! A filter of numbers: most numbers that no request has are known not to be inside without a
//! search.
ghost use Rattle.std.specs.Prelude.{◌≡◌, ◌↔◌, ◌<◌, ◌+◌, ◌-◌, ◌^◌, ℕ, bit_and, length, IfOk, IsTrue};
ghost use Rattle.std.specs.List.{All};
ghost use Rattle.sip_resolver.specs.NumberFilters.{Counts, count_at};

use std::alloc::{AllocError, Global};
use std::marker::Model;

/// How many requests have a number of each slot.
#[derive(Drop)]
pub(crate) struct NumberFilter {
    counts: Vec<u64>,
    /// The bits of a number that are its slot.
    mask: u64,
}

impl Model for NumberFilter {
    ghost use Rattle.std.specs.Prelude.{◌<◌, length};
    ghost use Rattle.sip_resolver.specs.NumberFilters.{FilterView};

    ghost Value = { FilterView };

    ghost view = { λ it. record { counts = it.counts.items; mask = it.mask } };

    ghost invariant = { λ it. it.mask < length it.counts.items };
}

/// How many slots a filter has for so many requests: a power of two, and twice as many or more.
fn slot_count(limit: usize) -> usize
    ensures { 0 < result }
{
    limit
        .saturating_mul(2)
        .checked_next_power_of_two()
        .unwrap_or(1)
}

impl NumberFilter {
    /// No request has a number, and there are slots for so many requests.
    pub(crate) fn new(alloc: Global, limit: usize) -> Result<NumberFilter, AllocError>
        ensures { IfOk result (Counts (λ h. 0)) }
    {
        let size = slot_count(limit);
        Ok(NumberFilter {
            counts: vec![in alloc; 0; size]?,
            mask: size as u64 - 1,
        })
    }

    /// The slot of a number.
    fn slot_of(&self, number: u64) -> usize
        ensures is { result ≡ bit_and number self.now.mask }
        ensures within { result < length self.now.counts }
    {
        (number & self.mask) as usize
    }

    /// Whether a request may have this number. Where none may, none has.
    pub(crate) fn may_have(&self, number: u64) -> bool
        ensures { IsTrue result ↔ (0 < count_at number self.now) }
    {
        self.counts[self.slot_of(number)] > 0
    }

    /// One request more has this number.
    pub(crate) fn add(&mut self, number: u64)
        requires { All (λ count. count < 2 ^ 64 - 1) self.old.counts }
        ensures { (total : (ℕ → ℕ) → ℕ) → Counts total self.old
            → Counts (λ h. total h + h number) self.new }
    {
        let slot = self.slot_of(number);
        self.counts[slot] += 1;
    }

    /// One request of this number is gone.
    pub(crate) fn remove(&mut self, number: u64)
        requires { 0 < count_at number self.old }
        ensures { (total : (ℕ → ℕ) → ℕ) → Counts (λ h. total h + h number) self.old
            → Counts total self.new }
    {
        let slot = self.slot_of(number);
        self.counts[slot] -= 1;
    }
}

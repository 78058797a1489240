//! Links of slots by the keys that they have.
ghost use Rattle.std.specs.Prelude.{◌≡◌, ◌<◌, ◌≤◌, ◌+◌, ℕ, List, [], ◌∷◌, ◌++◌, Bool, Some, true, false, IfOk, length, map, slice_get, slice_set};
ghost use Rattle.std.specs.List.{All};
ghost use Rattle.sip_resolver.specs.SlotIndexes.{IsTakenUnder, LinkSlots, class_of, end_of, first_of, is_under};
ghost use Rattle.sip_resolver.specs.declared.slot_links.KeyedSlot.{KeyedSlot as keyed};

use std::alloc::{AllocError, Global};
use std::marker::Model;

/// The most classes of keys.
const CLASS_LIMIT: usize = 65_536;

/// A slot with a key, which it has also once it is not taken any more.
#[derive(Clone, Copy)]
pub(crate) struct KeyedSlot {
    pub(crate) key: u64,
    pub(crate) is_taken: bool,
}

impl KeyedSlot {
    /// Whether it is taken, under this key.
    pub(crate) fn is_under(&self, key: u64) -> bool
        ensures { result ≡ is_under key self.now }
    {
        self.is_taken && self.key == key
    }
}

/// Where slots stand by the classes of their keys. A few of the last bits of a key are its class.
#[derive(Drop)]
pub(crate) struct SlotLinks {
    /// Of each class a place that no slot is taken in front of under a key of it.
    firsts: Vec<u32>,
    /// Of each class the place behind its last slot, or 0 where it has none.
    ends: Vec<u32>,
    /// By the place behind each slot a place that no later slot of its class stands in front of.
    nexts: Vec<u32>,
    /// The bits of a key that are its class.
    mask: u64,
}

impl Model for SlotLinks {
    ghost use Rattle.std.specs.Prelude.{◌<◌, ◌≤◌, length};
    ghost use Rattle.sip_resolver.specs.SlotIndexes.{LinksView};

    ghost Value = { LinksView };

    ghost view = { λ it. record {
      firsts = it.firsts.items;
      ends = it.ends.items;
      nexts = it.nexts.items;
      mask = it.mask;
    } };

    ghost invariant = { λ it.
        (it.mask < length it.firsts.items) × (it.mask < length it.ends.items)
        × (length it.nexts.items ≤ 131073) };
}

/// How many classes there are for so many slots: a power of two.
fn class_count(room: usize) -> usize
    ensures { 0 < result }
{
    room.min(CLASS_LIMIT)
        .checked_next_power_of_two()
        .unwrap_or(1)
}

/// The first place of a class of which a slot comes at this place.
fn first_with(first: u32, end: u32, place: u32) -> u32
    ensures begun { end ≤ first → result ≡ place }
    ensures kept { first < end → result ≡ first }
{
    if first < end { first } else { place }
}

/// The first place of a class of which the slot at this place is not taken any more.
fn first_without(first: u32, place: u32, next: u32) -> u32
    ensures passed { first ≡ place → result ≡ next }
    ensures kept { (first ≡ place → ⊥) → result ≡ first }
{
    if first == place { next } else { first }
}

impl SlotLinks {
    /// No slot, with room for so many.
    pub(crate) fn new(alloc: Global, room: usize) -> Result<SlotLinks, AllocError>
        requires { room ≤ 131072 }
        ensures { IfOk result (λ it. LinkSlots [] it × (length it.nexts ≡ room + 1)) }
    {
        let size = class_count(room);
        Ok(SlotLinks {
            firsts: vec![in alloc; 0; size]?,
            ends: vec![in alloc; 0; size]?,
            nexts: vec![in alloc; 0; room + 1]?,
            mask: size as u64 - 1,
        })
    }

    /// The class of a key.
    fn class_of(&self, key: u64) -> usize
        ensures is { result ≡ class_of key self.now }
        ensures of_firsts { result < length self.now.firsts }
        ensures of_ends { result < length self.now.ends }
    {
        (key & self.mask) as usize
    }

    /// A place that no slot is taken in front of under a key of the class of this one.
    pub(crate) fn first(&self, key: u64) -> usize
        ensures { result ≡ first_of key self.now }
    {
        self.firsts[self.class_of(key)] as usize
    }

    /// The place behind the last slot of the class of this key.
    pub(crate) fn end(&self, key: u64) -> usize
        ensures { result ≡ end_of key self.now }
    {
        self.ends[self.class_of(key)] as usize
    }

    /// The place at which to look next for a key, behind the slot of another one at this place.
    pub(crate) fn next(&self, place: usize, other: u64, key: u64) -> usize
        requires { place + 1 < length self.now.nexts }
        ensures later { place < result }
        ensures none { (slots : List keyed) → LinkSlots slots self.now
            → slice_get (map (λ slot. slot.key) slots) place ≡ Some other
            → ((at : ℕ) → IsTakenUnder slots at key → place + 1 ≤ at)
            → (at : ℕ) → IsTakenUnder slots at key → result ≤ at }
    {
        if self.class_of(other) == self.class_of(key) {
            (self.nexts[place + 1] as usize).max(place + 1)
        } else {
            place + 1
        }
    }

    /// One slot more, at this place behind all, of this key.
    pub(crate) fn add(&mut self, place: usize, key: u64)
        requires room { place + 1 < length self.old.nexts }
        requires within { All (λ end. end ≤ place) self.old.ends }
        ensures links { (slots : List keyed) (is_taken : Bool) → length slots ≡ place
            → LinkSlots slots self.old
            → LinkSlots (slots ++ record { key = key; is_taken = is_taken } ∷ []) self.new }
        ensures room { length self.new.nexts ≡ length self.old.nexts }
    {
        let class = self.class_of(key);
        let end = self.ends[class];
        self.firsts[class] = first_with(self.firsts[class], end, place as u32);
        self.nexts[end as usize] = place as u32;
        self.nexts[place + 1] = place as u32 + 1;
        self.ends[class] = place as u32 + 1;
    }

    /// The slot at this place, which has this key, is not taken any more.
    pub(crate) fn pass(&mut self, place: usize, key: u64)
        requires { place + 1 < length self.old.nexts }
        ensures links { (slots : List keyed) (is_taken : Bool)
            → slice_get slots place ≡ Some (record { key = key; is_taken = is_taken })
            → LinkSlots slots self.old
            → LinkSlots (slice_set slots place (record { key = key; is_taken = false })) self.new }
        ensures room { length self.new.nexts ≡ length self.old.nexts }
    {
        let class = self.class_of(key);
        let next = self.nexts[place + 1];
        self.firsts[class] = first_without(self.firsts[class], place as u32, next);
    }

    /// There is no slot any more.
    pub(crate) fn clear(&mut self)
        ensures links { LinkSlots [] self.new }
        ensures room { length self.new.nexts ≡ length self.old.nexts }
    {
        self.ends.fill(0);
    }

    /// Links these slots, and no others.
    pub(crate) fn link_all(&mut self, slots: &[KeyedSlot])
        requires { length slots.now < length self.old.nexts }
        ensures links { LinkSlots slots.now self.new }
        ensures room { length self.new.nexts ≡ length self.old.nexts }
    {
        self.clear();
        'slots: for place in 0..slots.len() {
            let slot = slots[place];
            self.add(place, slot.key);
        }
    }
}

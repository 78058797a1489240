//! Slots that are found by a key.
ghost use Rattle.std.specs.Prelude.{◌≡◌, ◌<◌, ◌≤◌, [], ◌∷◌, ◌++◌, Some, None, IfOk, MatchOption, length, slice_set};
ghost use Rattle.std.specs.List.{filter};
ghost use Rattle.std.specs.Option.{is_some};
ghost use Rattle.sip_resolver.specs.SlotIndexes.{IsFirstWith, NoneBefore};

use crate::slot_links::{KeyedSlot, SlotLinks};
use std::alloc::{AllocError, Global};
use std::marker::Model;

/// Slots in their order, each taken under a key until it is left, in memory that `new` takes. The
/// first one that is taken under a key is found without a look at those of other classes of keys.
#[derive(Drop)]
pub(crate) struct SlotIndex {
    slots: Vec<KeyedSlot>,
    links: SlotLinks,
}

impl Model for SlotIndex {
    ghost use Rattle.std.specs.Prelude.{ℕ, Option, map};
    ghost use Rattle.std.specs.Vec.{vec_capacity};
    ghost use Rattle.sip_resolver.specs.Queues.{Queued};
    ghost use Rattle.sip_resolver.specs.SlotIndexes.{AreFound, key_in};

    ghost Value = { Queued (Option ℕ) };

    ghost view = { λ it. record {
      items = map key_in it.slots.items;
      room = vec_capacity it.slots;
    } };

    ghost invariant = { λ it. AreFound it.slots.items (vec_capacity it.slots) it.links };
}

impl SlotIndex {
    /// No slot, with room for so many.
    pub(crate) fn new(alloc: Global, room: usize) -> Result<SlotIndex, AllocError>
        requires { room ≤ 131072 }
        ensures { IfOk result (λ it. it ≡ record { items = []; room = room }) }
    {
        Ok(SlotIndex {
            slots: Vec::with_capacity(alloc, room)?,
            links: SlotLinks::new(alloc, room)?,
        })
    }

    /// One slot more, which comes last and is taken under this key.
    pub(crate) fn push(&mut self, key: u64)
        requires { length self.old.items < self.old.room }
        ensures { self.new ≡ record self.old { items = self.old.items ++ Some key ∷ [] } }
    {
        self.links.add(self.slots.len(), key);
        self.slots.push_reserved(KeyedSlot {
            key,
            is_taken: true,
        });
    }

    /// The place of the first slot that is taken under this key.
    pub(crate) fn find(&self, key: u64) -> Option<usize>
        ensures { MatchOption result (NoneBefore key (length self.now.items) self.now.items)
            (λ place. IsFirstWith key place self.now.items) }
    {
        let end = self.links.end(key);
        let mut place = self.links.first(key);
        'places: while place < end {
            let slot = self.slots[place];
            if slot.is_under(key) {
                return Some(place);
            }
            place = self.links.next(place, slot.key, key);
        }
        None
    }

    /// The slot at a place is not taken any more, and stays.
    pub(crate) fn leave(&mut self, place: usize)
        requires { place < length self.old.items }
        ensures { self.new ≡ record self.old {
          items = slice_set self.old.items place None;
        } }
    {
        let key = self.slots[place].key;
        self.links.pass(place, key);
        self.slots[place] = KeyedSlot {
            key,
            is_taken: false,
        };
    }

    /// Lets the slots go that are not taken.
    pub(crate) fn keep_taken(&mut self)
        ensures { self.new ≡ record self.old {
          items = filter (λ key. is_some key) self.old.items;
        } }
    {
        self.slots.retain(|slot| slot.is_taken);
        self.links.link_all(self.slots.as_slice());
    }
}

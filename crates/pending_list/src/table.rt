//! The table that leads from the place of an id to its node.
ghost use Rattle.std.specs.Prelude.{◌≡◌, ◌<◌, ◌+◌, None, Some, IfOk, IsSome, length, set, slice_get, replicate};
ghost use Rattle.pending_list.specs.Slots.{leads_at, next_free};

use crate::nodes::Link;
use std::alloc::{AllocError, Global};
use std::marker::Model;

/// As many places as a list may have entries. Each is free, or has the node of its entry.
///
/// The free places are a stack, so that one is found and given back without a search.
#[derive(Drop)]
pub struct Table<E> {
    slots: Vec<Option<Link<E>>>,
    free: Vec<usize>,
}

impl<E> Model for Table<E> {
    ghost use Rattle.pending_list.specs.Slots.{Slots};

    ghost Value = { Slots E };

    ghost use Rattle.pending_list.specs.TableKept.{IsKept, slots_of};

    ghost view = { λ it. slots_of it };

    ghost invariant = { λ it. IsKept it };
}

impl<E> Table<E> {
    /// So many places, all of them free.
    pub(crate) fn new(alloc: Global, limit: usize) -> Result<Table<E>, AllocError>
        ensures slots { IfOk result (λ it. it.slots ≡ replicate limit None) }
        ensures free { IfOk result (λ it. length it.free ≡ limit) }
    {
        let slots = Vec::from_elem(alloc, None, limit)?;
        let free = (0..limit).collect::<Vec<usize>>(alloc)?;
        Ok(Table { slots, free })
    }

    /// The node at a place, if there is one.
    pub(crate) fn get(&self, place: usize) -> Option<Link<E>>
        ensures { result ≡ leads_at self.now.slots place }
    {
        match self.slots.get(place) {
            Some(slot) => *slot,
            None => None,
        }
    }

    /// The free place that is taken next.
    pub(crate) fn next_free(&self) -> usize
        requires { 0 < length self.now.free }
        ensures next { result ≡ next_free self.now.free }
        ensures free { slice_get self.now.slots result ≡ Some None }
    {
        self.free[self.free.len() - 1]
    }

    /// Takes the next free place for a node.
    pub(crate) fn take(&mut self, link: Link<E>)
        requires { 0 < length self.old.free }
        ensures slots { self.new.slots ≡ set self.old.slots (next_free self.old.free) (Some link) }
        ensures free { length self.new.free + 1 ≡ length self.old.free }
    {
        match self.free.pop() {
            Some(place) => self.slots[place] = Some(link),
            None => unreachable!(),
        }
    }

    /// Makes the place of a node free.
    pub(crate) fn clear(&mut self, place: usize)
        requires { IsSome (leads_at self.old.slots place) }
        ensures slots { self.new.slots ≡ set self.old.slots place None }
        ensures free { length self.new.free ≡ length self.old.free + 1 }
    {
        self.slots[place] = None;
        match self.free.push(place) {
            Ok(()) => {}
            Err(_) => unreachable!(),
        }
    }

    /// Another node has the place of one from now on.
    pub(crate) fn replace(&mut self, place: usize, link: Link<E>)
        requires { IsSome (leads_at self.old.slots place) }
        ensures { self.new ≡ record self.old { slots = set self.old.slots place (Some link) } }
    {
        self.slots[place] = Some(link);
    }
}

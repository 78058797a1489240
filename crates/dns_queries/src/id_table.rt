//! Where the tickets of open ids stand.
ghost use Rattle.std.specs.Prelude.{◌≡◌, ℕ, ◌<◌, ◌≤◌, None, Some, nat_eq, IfOk, OnOk};
ghost use Rattle.std.specs.Map.{update};
ghost use Rattle.dns_queries.specs.IdTables.{place_in};

use pending_list::PendingId;
use std::alloc::{AllocError, Global};
use std::collections::HashMap;
use std::marker::Model;

/// The place of each open id, found by the hash of the id.
///
/// It begins with room for twice as many ids as are open at once. While no more are open, making
/// room arranges what is there anew, and takes no memory.
#[derive(Drop)]
pub(crate) struct IdTable {
    places: HashMap<u16, PendingId>,
}

impl Model for IdTable {
    ghost use Rattle.std.specs.HashMap.{spare};
    ghost use Rattle.dns_queries.specs.IdTables.{Places};

    ghost Value = { Places };

    ghost view = { λ it. record { entries = it.places.entries; room = spare it.places } };
}

impl IdTable {
    /// No ids; so many will be open at once at most.
    pub(crate) fn new(alloc: Global, limit: usize) -> Result<IdTable, AllocError>
        requires { limit ≤ 4096 }
        ensures { IfOk result (λ it. (id : ℕ) → place_in it id ≡ None) }
    {
        Ok(IdTable {
            places: HashMap::with_capacity(alloc, 2 * limit)?,
        })
    }

    /// The place of an id.
    pub(crate) fn get(&self, id: u16) -> Option<PendingId>
        ensures { result ≡ place_in self.now id }
    {
        self.places.get(&id).copied()
    }

    /// Makes room for one id more.
    pub(crate) fn reserve(&mut self) -> Result<(), AllocError>
        ensures room { OnOk result (0 < self.new.room) }
        ensures same { (id : ℕ) → place_in self.new id ≡ place_in self.old id }
    {
        self.places.reserve(1)
    }

    /// Gives an id a place, where there is room for it.
    pub(crate) fn insert(&mut self, id: u16, place: PendingId)
        requires { 0 < self.old.room }
        ensures { (other : ℕ) → place_in self.new other
            ≡ update nat_eq (place_in self.old) id (Some place) other }
    {
        match self.places.insert(id, place) {
            Ok(_) => {}
            Err(_) => unreachable!(),
        }
    }

    /// Takes an id out.
    pub(crate) fn remove(&mut self, id: u16)
        ensures { (other : ℕ) → place_in self.new other
            ≡ update nat_eq (place_in self.old) id None other }
    {
        self.places.remove(&id);
    }
}

//! The entries of a list, one after the other.
ghost use Rattle.std.specs.Iterator.{YieldsFirstBy, item_count};

use crate::entry::Entry;
use crate::id::PendingId;
use crate::linked_list::LinkedList;
use crate::nodes::Link;
use std::marker::Model;

/// The entries that are left, seen as their list: the id, the deadline and the item of each.
#[derive(Drop)]
pub struct Iter<'a, T> {
    pub(crate) entries: &'a LinkedList<Entry<T>>,
    pub(crate) next: Option<Link<Entry<T>>>,
}

impl<'a, T> Model for Iter<'a, T> {
    ghost use Rattle.std.specs.Prelude.{List};
    ghost use Rattle.pending_list.specs.Entries.{Entry};

    ghost Value = { List (Entry T) };

    ghost use Rattle.pending_list.specs.Iters.{IsIter, left_of};

    ghost view = { λ it. left_of it };

    ghost invariant = { λ it. IsIter it };
}

impl<'a, T> Iterator for Iter<'a, T> {
    type Item = (PendingId, u64, &'a T);

    ghost next_gives = { YieldsFirstBy
        (λ it. record { id = it.0; deadline = it.1; item = it.2.now }) (λ rest. rest) };

    ghost remaining = { item_count (λ rest. rest) };

    fn next(&mut self) -> Option<(PendingId, u64, &'a T)> {
        let link = self.next?;
        let entries = self.entries;
        let entry = entries.entry(link);
        self.next = entries.behind(link);
        Some((entry.id, entry.deadline, &entry.item))
    }
}

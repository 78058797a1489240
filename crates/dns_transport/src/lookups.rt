//! The queries of the caller that are open.
ghost use Rattle.std.specs.Prelude.{◌≡◌, ◌<◌, ◌≤◌, [], MatchOption, length};
ghost use Rattle.std.specs.List.{All};
ghost use Rattle.dns_transport.specs.Attempts.{late_from};

use crate::boxed::Boxed;
use crate::lookup::Lookup;
use std::alloc::Global;

/// How many are open at most: the last ones that something became of.
pub(crate) const LOOKUP_LIMIT: usize = 512;

/// The queries of the caller that are open, in the order in which something became of them.
#[derive(Drop)]
pub(crate) struct Lookups {
    alloc: Global,
    items: Vec<Boxed<Lookup>>,
}

impl Lookups {
    /// None is open.
    pub(crate) fn new(alloc: Global) -> Lookups {
        Lookups {
            alloc,
            items: Vec::new(alloc),
        }
    }

    /// Whether one has these octets.
    pub(crate) fn has(&self, query: &[u8]) -> bool {
        self.items
            .iter()
            .any(|it| it.as_ref().query.as_slice() == query)
    }

    /// Takes one out whose time is over by now, where each send is waited for so long, if there is
    /// one.
    pub(crate) fn take_late(&mut self, now: u64, time: u64) -> Option<Lookup>
        ensures { MatchOption result
            ((self.new.items.items ≡ self.old.items.items)
            × All (λ it. now < late_from it.asked_at time) self.old.items.items)
            (λ it. late_from it.asked_at time ≤ now) }
    {
        let at = self
            .items
            .iter()
            .position(|it| it.as_ref().late_at(time) <= now)?;
        Some(self.items.remove(at).into_inner())
    }

    /// The first millisecond at which the time of one is over, where each send is waited for so
    /// long.
    pub(crate) fn next_late(&self, time: u64) -> Option<u64>
        ensures { MatchOption result (self.now.items.items ≡ [])
            (λ first. All (λ it. first ≤ late_from it.asked_at time) self.now.items.items) }
    {
        self.items.iter().map(|it| it.as_ref().late_at(time)).min()
    }

    /// Takes the one of an id out, if there is one.
    fn take_id(&mut self, id: u16) -> Option<Lookup> {
        let at = self.items.iter().position(|it| it.as_ref().id() == id)?;
        Some(self.items.remove(at).into_inner())
    }

    /// Lets the one of an id go, if there is one, and gives its number.
    pub(crate) fn leave_id(&mut self, id: u16) -> Option<u64> {
        let lookup = self.take_id(id)?;
        Some(lookup.let_go())
    }

    /// Takes the one of a number out, if there is one.
    pub(crate) fn take_number(&mut self, number: u64) -> Option<Lookup> {
        let at = self
            .items
            .iter()
            .position(|it| it.as_ref().number == number)?;
        Some(self.items.remove(at).into_inner())
    }

    /// Lets the first one go where as many are open as can be, and gives its number.
    fn make_room(&mut self) -> Option<u64>
        ensures room { length self.old.items.items ≤ 512 → length self.new.items.items < 512 }
    {
        if self.items.len() >= LOOKUP_LIMIT {
            return Some(self.items.remove(0).into_inner().let_go());
        }
        None
    }

    /// Puts one behind the others. Where as many are open as can be, the first one leaves, and its
    /// number is given; so does this one where memory is refused.
    pub(crate) fn put(&mut self, lookup: Lookup) -> Option<u64>
        ensures bound { length self.old.items.items ≤ 512 → length self.new.items.items ≤ 512 }
    {
        let left = self.make_room();
        let boxed = match Boxed::new(self.alloc, lookup) {
            Ok(boxed) => boxed,
            Err(lookup) => return Some(lookup.let_go()),
        };
        match self.items.push(boxed) {
            Ok(()) => left,
            Err(refused) => Some(refused.value.into_inner().let_go()),
        }
    }
}

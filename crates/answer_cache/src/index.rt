//! What a seat remembers of the nodes of a group.
ghost use Rattle.std.specs.Prelude.{◌≡◌, ℕ, IfOk};
ghost use Rattle.answer_cache.specs.Indexes.{AreIndexes, IsIndex, top_of};

use answer_log::SeenLog;
use std::alloc::{AllocError, Global};

/// A placed node: the hash of its question, and its number.
#[derive(Clone, Copy)]
pub(crate) struct IndexEntry {
    pub hash: u32,
    pub node: u64,
}

/// The nodes that a group had at some moment, the oldest first, as its seat has passed them. They
/// stay what they are, so a seat walks along each node once.
#[derive(Drop)]
pub(crate) struct Index {
    pub seen: SeenLog,
    pub entries: Vec<IndexEntry>,
}

impl Index {
    /// One without nodes. Takes no memory.
    pub(crate) fn empty(alloc: Global, seen: &SeenLog) -> Index
        ensures { (groups : ℕ) → IsIndex groups seen.now.book result }
    {
        Index {
            seen: seen.again(),
            entries: Vec::new(alloc),
        }
    }

    /// An index without nodes for each of so many groups.
    fn empty_ones(alloc: Global, groups: u32, seen: &SeenLog) -> Result<Vec<Index>, AllocError>
        ensures { IfOk result (λ made. AreIndexes groups seen.now.book made.items) }
    {
        let mut made = Vec::with_capacity(alloc, groups as usize)?;
        'groups: for _group in 0..groups {
            made.push(Index::empty(alloc, seen))?;
        }
        Ok(made)
    }

    /// Makes an index without nodes for each of so many groups, where there is none yet, and there
    /// is memory.
    pub(crate) fn make_ones(indexes: &mut Vec<Index>, groups: u32, seen: &SeenLog)
        requires { AreIndexes groups seen.now.book indexes.old.items }
        ensures { AreIndexes groups seen.now.book indexes.new.items }
    {
        if !indexes.is_empty() {
            return;
        }
        if let Ok(made) = Index::empty_ones(*indexes.allocator(), groups, seen) {
            *indexes = made;
        }
    }

    /// The number of its node placed last, 0 where there is none.
    pub(crate) fn top(&self) -> u64
        ensures { result ≡ top_of self.now.entries.items }
    {
        match self.entries.as_slice() {
            [.., last] => last.node,
            [] => 0,
        }
    }
}

//! Lists of indexes of records.
ghost use Rattle.std.specs.Prelude.{◌≡◌, ◌↔◌, [], length, IsTrue};

use crate::next_index::RECORD_LIMIT;
use arrayvec::ArrayVec;
use std::marker::Model;

/// Indexes of records, from 0, in the order in which the records are to be tried.
#[derive(Debug, Drop)]
pub struct Indexes {
    items: ArrayVec<u8, RECORD_LIMIT>,
}

impl Model for Indexes {
    ghost use Rattle.std.specs.Prelude.{ℕ, List};

    ghost Value = { List ℕ };

    ghost view = { λ indexes. indexes.items.items };
}

impl Indexes {
    /// These indexes.
    pub(crate) fn from_items(items: ArrayVec<u8, RECORD_LIMIT>) -> Indexes
        ensures { result ≡ items.items }
    {
        Indexes { items }
    }

    /// The indexes, as a slice.
    pub fn as_slice(&self) -> &[u8]
        ensures { result.now ≡ self.now }
    {
        self.items.as_slice()
    }

    /// How many indexes there are.
    pub fn len(&self) -> usize
        ensures { result ≡ length self.now }
    {
        self.items.len()
    }

    /// Whether there are no indexes.
    pub fn is_empty(&self) -> bool
        ensures { IsTrue result ↔ (self.now ≡ []) }
    {
        self.items.is_empty()
    }
}

//! Lists of questions and of records.
ghost use Rattle.std.specs.Prelude.{◌≡◌, ◌↔◌, List, [], length, IsTrue};

use std::marker::Model;

/// A section of a message (RFC 1035 4.1): its questions or records, in the order of the message.
///
/// It is made from a `Vec` and gives it back, and takes no memory for either.
#[derive(Debug, Drop)]
pub struct Section<T> {
    items: Vec<T>,
}

impl<T> Model for Section<T> {
    ghost use Rattle.std.specs.Prelude.{List};

    ghost Value = { List T };

    ghost view = { λ section. section.items.items };
}

impl<T> Section<T> {
    /// The section of these questions or records.
    pub fn from_vec(items: Vec<T>) -> Section<T>
        ensures { result ≡ items.items }
    {
        Section { items }
    }

    /// The questions or records of the section.
    pub fn into_vec(self) -> Vec<T>
        ensures { result.items ≡ self }
    {
        let Section { items } = self;
        items
    }

    /// The questions or records of the section.
    pub fn as_slice(&self) -> &[T]
        ensures { result.now ≡ self.now }
    {
        self.items.as_slice()
    }

    /// How many questions or records the section has.
    pub fn len(&self) -> usize
        ensures { result ≡ length self.now }
    {
        self.items.len()
    }

    /// Whether the section has no question and no record.
    pub fn is_empty(&self) -> bool
        ensures { IsTrue result ↔ (self.now ≡ []) }
    {
        self.items.is_empty()
    }
}

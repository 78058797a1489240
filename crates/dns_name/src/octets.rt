//! The octets of a name, which lie in the value itself where they are few.
ghost use Rattle.std.specs.Prelude.{◌≡◌, ◌↔◌, ◌≤◌, ◌<◌, ◌+◌, ◌++◌, length, take, vec_len, IfOk, OnOk, OnErr, IsTrue};
ghost use Rattle.dns_name.specs.Octets as spec;

use std::alloc::{AllocError, Global};
use std::marker::Model;

/// The most octets that lie in the value itself: most names of hosts and of services have no more,
/// and so take no memory of their own.
pub(crate) const INLINE_LIMIT: usize = 31;

/// Octets: in memory of their own, or, where there are none, in the value. Those of the value that
/// are not in use are 0, so that two values can be compared as a whole.
#[derive(Debug, Drop)]
pub(crate) struct Octets {
    pub heap: Vec<u8>,
    pub inline: [u8; INLINE_LIMIT],
    /// How many lie in the value.
    pub length: u8,
}

impl Model for Octets {
    ghost use Rattle.std.specs.Prelude.{List, ℕ};

    ghost Value = { List ℕ };

    ghost use Rattle.dns_name.specs.Octets.{octets_in, IsPadded};

    ghost view = { λ it. octets_in it.heap.items it.inline it.length };

    ghost invariant = { λ it. IsPadded it.inline it.length };
}

/// Copies octets, and those behind them, over others, as many.
fn copy_both(octets: &mut [u8], front: &[u8], behind: &[u8])
    requires { length octets.old ≡ length front.now + length behind.now }
    ensures { octets.new ≡ front.now ++ behind.now }
{
    let (first, others) = octets.split_at_mut(front.len());
    first.copy_from_slice(front);
    others.copy_from_slice(behind);
}

/// Eight octets from an offset on, as one number.
fn word_from(octets: &[u8; INLINE_LIMIT], offset: usize) -> u64
    requires { offset + 8 ≤ 31 }
    ensures { result ≡ spec.word_from octets.now offset }
{
    let mut word = [0; 8];
    word.copy_from_slice(&octets[offset..offset + 8]);
    u64::from_le_bytes(word)
}

/// All octets, as four numbers. One octet is in two of them.
fn words_of(octets: &[u8; INLINE_LIMIT]) -> [u64; 4]
    ensures { result ≡ spec.words_of octets.now }
{
    [
        word_from(octets, 0),
        word_from(octets, 8),
        word_from(octets, 16),
        word_from(octets, 23),
    ]
}

/// Whether all octets are the same.
fn are_same(octets: &[u8; INLINE_LIMIT], others: &[u8; INLINE_LIMIT]) -> bool
    ensures { IsTrue result ↔ (octets.now ≡ others.now) }
{
    words_of(octets) == words_of(others)
}

impl Octets {
    /// The first octets of these, so many. The others are 0.
    pub(crate) fn inline(alloc: Global, octets: [u8; INLINE_LIMIT], length: usize) -> Octets
        requires { spec.IsPadded octets length }
        ensures { result ≡ take length octets }
    {
        Octets {
            heap: Vec::new(alloc),
            inline: octets,
            length: length as u8,
        }
    }

    /// The octets of a list that has some, which stay where they lie.
    pub(crate) fn from_vec(octets: Vec<u8>) -> Octets
        requires { 0 < vec_len octets }
        ensures { result ≡ octets.items }
    {
        Octets {
            heap: octets,
            inline: [0; INLINE_LIMIT],
            length: 0,
        }
    }

    /// A copy of octets and of those behind them. Memory is taken for more than 31.
    pub(crate) fn joined(alloc: Global, front: &[u8], behind: &[u8]) -> Result<Octets, AllocError>
        requires { length front.now + length behind.now ≤ 255 }
        ensures { IfOk result (λ it. it ≡ front.now ++ behind.now) }
    {
        let count = front.len() + behind.len();
        if count > INLINE_LIMIT {
            let mut octets = Vec::with_capacity(alloc, count)?;
            octets.extend_from_slice(front)?;
            octets.extend_from_slice(behind)?;
            return Ok(Octets::from_vec(octets));
        }
        let mut octets = [0; INLINE_LIMIT];
        copy_both(&mut octets[..count], front, behind);
        Ok(Octets::inline(alloc, octets, count))
    }

    /// A copy. Memory is taken for more than 31.
    pub(crate) fn try_clone(&self) -> Result<Octets, AllocError>
        ensures { IfOk result (λ copy. copy ≡ self.now) }
    {
        let heap = if self.heap.is_empty() {
            Vec::new(self.allocator())
        } else {
            Vec::from_slice(self.allocator(), self.heap.as_slice())?
        };
        Ok(Octets {
            heap,
            inline: self.inline,
            length: self.length,
        })
    }

    /// Makes these a copy of others. After an error they are as before.
    pub(crate) fn copy_from(&mut self, other: &Octets) -> Result<(), AllocError>
        ensures ok { OnOk result (self.new ≡ other.now) }
        ensures err { OnErr result (self.new ≡ self.old) }
    {
        if other.heap.is_empty() {
            self.heap = Vec::new(self.allocator());
        } else {
            self.heap = Vec::from_slice(self.allocator(), other.heap.as_slice())?;
        }
        self.inline = other.inline;
        self.length = other.length;
        Ok(())
    }

    /// What memory is taken from.
    pub(crate) fn allocator(&self) -> Global {
        *self.heap.allocator()
    }

    /// Whether the octets are the same.
    #[inline(always)]
    pub(crate) fn is_same(&self, other: &Octets) -> bool
        ensures { IsTrue result ↔ (self.now ≡ other.now) }
    {
        if self.heap.is_empty() && other.heap.is_empty() {
            return self.length == other.length && are_same(&self.inline, &other.inline);
        }
        self.is_same_long(other)
    }

    /// Whether the octets are the same, wherever they lie. By itself, so that what compares names
    /// stays small.
    #[inline(never)]
    fn is_same_long(&self, other: &Octets) -> bool
        ensures { IsTrue result ↔ (self.now ≡ other.now) }
    {
        self.as_slice() == other.as_slice()
    }

    /// The octets.
    pub(crate) fn as_slice(&self) -> &[u8]
        ensures { result.now ≡ self.now }
    {
        if self.heap.is_empty() {
            &self.inline[..usize::from(self.length)]
        } else {
            self.heap.as_slice()
        }
    }
}

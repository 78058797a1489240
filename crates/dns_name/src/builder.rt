//! A name of which not all labels are there yet.
ghost use Rattle.std.specs.Prelude.{◌≡◌, ◌+◌, ◌≤◌, ◌<◌, List, [], ◌∷◌, ◌++◌, ℕ, length, MatchBool, IfOk};
ghost use Rattle.dns_name.specs.Labels.{small_letters, wire_of, IsName};

use crate::name::Name;
use crate::octets::Octets;
use arrayvec::ArrayVec;
use std::alloc::{AllocError, Global};

/// The most octets of a name on the wire (RFC 1035 2.3.4).
pub(crate) const NAME_LIMIT: usize = 255;

/// The octets of the labels so far, with room left for the closing 0.
#[derive(Drop)]
pub(crate) struct NameBuilder {
    octets: ArrayVec<u8, NAME_LIMIT>,
    ghost has_room: { length octets.items ≤ 254 },
}

/// Adds octets, with capitals as small letters.
fn push_small(octets: &mut ArrayVec<u8, NAME_LIMIT>, label: &[u8])
    requires { length octets.old.items + length label.now ≤ 255 }
    ensures { octets.new.items ≡ octets.old.items ++ small_letters label.now }
{
    for octet in label {
        octets.push(octet.to_ascii_lowercase());
    }
}

impl NameBuilder {
    /// A draft with no label.
    pub(crate) fn new() -> NameBuilder
        ensures { result.octets.items ≡ [] }
    {
        let mut octets = ArrayVec::from_array_in((), [0; NAME_LIMIT]);
        octets.clear();
        NameBuilder { octets }
    }

    /// Whether a further label of so many octets leaves room for the closing 0.
    pub(crate) fn has_room(&self, label: usize) -> bool
        requires { label ≤ 63 }
        ensures { MatchBool result (length self.now.octets.items + label + 2 ≤ 255)
            (255 < length self.now.octets.items + label + 2) }
    {
        self.octets.len() + label + 2 <= NAME_LIMIT
    }

    /// Adds a label, with capitals as small letters.
    pub(crate) fn push(&mut self, label: &[u8])
        requires short { length label.now ≤ 63 }
        requires room { length self.old.octets.items + length label.now + 2 ≤ 255 }
        ensures { self.new.octets.items
            ≡ self.old.octets.items ++ (length label.now ∷ small_letters label.now) }
    {
        self.octets.push(label.len() as u8);
        push_small(&mut self.octets, label);
    }

    /// The name of the labels so far and those of `others`, the octets of a name.
    pub(crate) fn finish(&self, alloc: Global, others: &[u8]) -> Result<Name, AllocError>
        requires { (labels : List (List ℕ)) × IsName labels
            × (self.now.octets.items ++ others.now ≡ wire_of labels) }
        ensures { IfOk result (λ name. wire_of name ≡ self.now.octets.items ++ others.now) }
    {
        let octets = Octets::joined(alloc, self.octets.as_slice(), others)?;
        Ok(Name::from_wire(octets))
    }
}

//! A domain name, and its octets.
ghost use Rattle.std.specs.Prelude.{◌≡◌, ◌↔◌, ◌<◌, List, [], ◌∷◌, ℕ, length, IsTrue, IfOk, OnOk, OnErr, IfSome, IsSomeAnd, Ok, None};
ghost use Rattle.dns_name.specs.Labels.{wire_of, same_name, parent_of, IsLabel, IsName};

use crate::octets::{INLINE_LIMIT, Octets};
use std::alloc::{AllocError, Global};
use std::hash::{Hash, Hasher};
use std::marker::Model;

/// A domain name (RFC 1035 2.3): labels of 1 to 63 octets, with capitals of ASCII as small letters,
/// and at most 255 octets in all. The root has no label.
///
/// It is kept as its octets on the wire, so that reading, writing and comparing need no work on
/// labels: each label after its length, and a closing 0.
#[derive(Debug, Drop)]
pub struct Name {
    pub(crate) octets: Octets,
}

impl Model for Name {
    ghost use Rattle.std.specs.Prelude.{List, ℕ};

    ghost Value = { List (List ℕ) };

    ghost use Rattle.dns_name.specs.Labels.{labels_of, IsWire};

    ghost view = { λ name. labels_of name.octets };

    ghost invariant = { λ name. IsWire name.octets };
}

/// The first label of the octets of a name and the octets after it, or None at the root.
pub(crate) fn first_label(octets: &[u8]) -> Option<(&[u8], &[u8])>
    ensures shorter { IfSome result (λ parts. length parts.1.now < length octets.now) }
    ensures none { octets.now ≡ wire_of [] → result ≡ None }
    ensures some { (label : List ℕ) (labels : List (List ℕ)) → IsLabel label
        → octets.now ≡ wire_of (label ∷ labels)
        → IsSomeAnd result (λ parts. (parts.0.now ≡ label) × (parts.1.now ≡ wire_of labels)) }
{
    let (length, behind) = octets.split_first()?;
    if *length == 0 {
        return None;
    }
    behind.split_at_checked(usize::from(*length))
}

impl Name {
    /// The root (RFC 1034 3.1), for which no memory is taken.
    pub fn root(alloc: Global) -> Name
        ensures { result ≡ [] }
    {
        Name::from_wire(Octets::inline(alloc, [0; INLINE_LIMIT], 1))
    }

    /// The name that these octets spell.
    pub(crate) fn from_wire(octets: Octets) -> Name
        requires { (labels : List (List ℕ)) × IsName labels × (octets ≡ wire_of labels) }
        ensures { wire_of result ≡ octets }
    {
        Name { octets }
    }

    /// What memory for its octets is taken from.
    pub(crate) fn allocator(&self) -> Global {
        self.octets.allocator()
    }

    /// The octets of the name without pointers (RFC 1035 3.1).
    pub fn wire(&self) -> &[u8]
        ensures value { result.now ≡ wire_of self.now }
        ensures name { IsName self.now }
    {
        self.octets.as_slice()
    }

    /// Whether the name is the root, which has no label.
    pub fn is_root(&self) -> bool
        ensures { IsTrue result ↔ (self.now ≡ []) }
    {
        self.wire().len() == 1
    }

    /// A copy of the name.
    pub fn try_clone(&self) -> Result<Name, AllocError>
        ensures { IfOk result (λ copy. copy ≡ self.now) }
    {
        let octets = self.octets.try_clone()?;
        Ok(Name { octets })
    }

    /// Makes the name a copy of another one. After an error it is as before.
    pub fn copy_from(&mut self, other: &Name) -> Result<(), AllocError>
        ensures ok { OnOk result (self.new ≡ other.now) }
        ensures err { OnErr result (self.new ≡ self.old) }
    {
        self.octets.copy_from(&other.octets)
    }

    /// The name without its first label, as the domain of a host (RFC 1034 3.1). The root has none,
    /// and no memory is asked for there.
    pub fn parent(&self) -> Result<Option<Name>, AllocError>
        ensures value { IfOk result (λ parent. parent ≡ parent_of self.now) }
        ensures root { self.now ≡ [] → result ≡ Ok None }
    {
        let Some((_, others)) = first_label(self.wire()) else {
            return Ok(None);
        };
        let octets = Octets::joined(self.allocator(), others, &[])?;
        Ok(Some(Name::from_wire(octets)))
    }
}

impl PartialEq for Name {
    ghost use Rattle.std.specs.Cmp.Rules.{comparing};
    ghost use Rattle.std.proofs.Common.{rules};

    ghost eq = { same_name };

    ghost laws = { Prim.search (comparing, rules) };

    /// Names are equal exactly where their labels are (RFC 1035 2.3.3: in any case of letters).
    #[inline(always)]
    fn eq(&self, other: &Name) -> bool
        ensures value { result ≡ same_name self.now other.now }
        ensures same { IsTrue result ↔ (self.now ≡ other.now) }
    {
        self.octets.is_same(&other.octets)
    }
}

impl Eq for Name {
    ghost use Rattle.std.specs.Cmp.Rules.{comparing};
    ghost use Rattle.std.proofs.Common.{rules};

    ghost laws = { Prim.search (comparing, rules) };
}

/// By all its octets at once, so that equal names have one hash.
impl Hash for Name {
    ghost use Rattle.std.specs.Hash as fed;
    ghost use Rattle.std.specs.Prelude.{◌∷◌, []};
    ghost use Rattle.std.specs.Cmp.Lexicographic.{pointwise_decides, bytes_decides};

    ghost hash_input = { λ name. wire_of name ∷ [] };

    ghost respects_eq = { (fed.same_Alike (λ name. wire_of name ∷ [])
        (pointwise_decides bytes_decides)).fed };

    fn hash<H: Hasher>(&self, state: &mut H) {
        state.write(self.wire());
    }
}

//! Character strings (RFC 1035 3.3).
ghost use Rattle.std.specs.Prelude.{◌≡◌, ◌↔◌, ◌≤◌, ◌<◌, ℕ, List, length, IsSome, IfSome, IfOk, IfErr, MatchResult, ◌+◌, ◌++◌, OnOk, OnErr};
ghost use Rattle.dns_message.specs.Layouts.{CharStringAt};
ghost use Rattle.dns_message.specs.Written.{string_octets};

use crate::datagram::{Datagram, TooLong, push_octets};
use crate::refusal::EntryRefusal;
use std::alloc::{AllocError, Global};
use std::marker::Model;

/// The most octets of a character string.
const CHAR_STRING_LIMIT: usize = 255;

/// A character string (RFC 1035 3.3): at most 255 octets.
#[derive(Debug, Drop)]
pub struct CharString {
    octets: Vec<u8>,
}

impl Model for CharString {
    ghost use Rattle.std.specs.Prelude.{◌≤◌, ℕ, List, length};

    ghost Value = { List ℕ };

    ghost view = { λ string. string.octets.items };

    ghost invariant = { λ string. length string.octets.items ≤ 255 };
}

impl CharString {
    /// The string of these octets, unless there are more than 255.
    pub fn new(octets: Vec<u8>) -> Option<CharString>
        ensures made { IsSome result ↔ (length octets.items ≤ 255) }
        ensures is { IfSome result (λ string. string ≡ octets.items) }
    {
        if octets.len() <= CHAR_STRING_LIMIT {
            Some(CharString { octets })
        } else {
            None
        }
    }

    /// The string without octets.
    pub(crate) fn empty(alloc: Global) -> CharString {
        CharString {
            octets: Vec::new(alloc),
        }
    }

    /// The octets of the string.
    pub fn octets(&self) -> &[u8]
        ensures octets { result.now ≡ self.now }
        ensures short { length self.now ≤ 255 }
    {
        self.octets.as_slice()
    }

    /// A copy of the string.
    pub fn try_clone(&self) -> Result<CharString, AllocError>
        ensures { IfOk result (λ copy. copy ≡ self.now) }
    {
        let octets = Vec::from_slice(*self.octets.allocator(), self.octets.as_slice())?;
        Ok(CharString { octets })
    }
}

impl PartialEq for CharString {
    ghost use Rattle.std.specs.Prelude.{nat_eq};
    ghost use Rattle.std.specs.Cmp.Lexicographic.{pointwise};
    ghost use Rattle.std.specs.Cmp.Rules.{comparing};
    ghost use Rattle.std.proofs.Common.{rules};

    ghost eq = { λ a b. pointwise nat_eq a b };

    ghost laws = { Prim.search (comparing, rules) };

    fn eq(&self, other: &CharString) -> bool {
        self.octets() == other.octets()
    }
}

impl Eq for CharString {
    ghost use Rattle.std.specs.Cmp.Rules.{comparing};
    ghost use Rattle.std.proofs.Common.{rules};

    ghost laws = { Prim.search (comparing, rules) };
}

/// Reads the character string at an offset, and gives the offset after it.
pub(crate) fn char_string_at(
    alloc: Global,
    bytes: &[u8],
    offset: usize,
) -> Result<(CharString, usize), EntryRefusal>
    requires { offset ≤ length bytes.now }
    ensures found { IfOk result (λ found. CharStringAt bytes.now offset found.0 found.1) }
    ensures read { (string : List ℕ) (end : ℕ) → CharStringAt bytes.now offset string end
        → MatchResult result (λ found. (found.0 ≡ string) × (found.1 ≡ end))
        (λ refusal. refusal ≡ EntryRefusal.Memory) }
    ensures memory { IfErr result (λ refusal. refusal ≡ EntryRefusal.Memory
        → (string : List ℕ) × (end : ℕ) × CharStringAt bytes.now offset string end) }
{
    let size = usize::from(*bytes.get(offset).ok_or(EntryRefusal::Malformed)?);
    let start = offset + 1;
    let end = start + size;
    let octets = bytes.get(start..end).ok_or(EntryRefusal::Malformed)?;
    let octets = Vec::from_slice(alloc, octets)?;
    Ok((CharString { octets }, end))
}

/// Appends a character string.
#[tactic(auto, unfolding(crate::specs::Written::string_octets))]
pub(crate) fn push_string(string: &CharString, out: &mut Datagram) -> Result<(), TooLong>
    ensures ok { OnOk result (out.new.items ≡ out.old.items ++ string_octets string.now) }
    ensures fits { length string.now ≤ 255 }
    ensures too_long { OnErr result
        (512 < length out.old.items + length (string_octets string.now)) }
{
    let octets = string.octets();
    push_octets(&[octets.len() as u8], out)?;
    push_octets(octets, out)
}

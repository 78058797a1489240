//! How far a text can go on as a URI or a Via.
ghost use Rattle.std.specs.Prelude.{◌≡◌, ◌↔◌, ◌<◌, ◌++◌, IfSome, IsTrue, None, length, map};
ghost use Rattle.sip_fault.specs.Faults.{is_in_user, HasEnd, IsFault, IsReach};
ghost use Rattle.sip_fault.specs.Readers as spec;

use arrayvec::ArrayVec;
use sip_uri::{view_uri, view_via};

/// The most octets of a URI or a Via.
const TEXT_LIMIT: usize = 1024;

/// What a text is read as.
#[derive(Clone, Copy)]
pub(crate) enum Grammar {
    /// A SIP URI.
    Uri,
    /// A Via.
    Via,
}

/// Whether a beginning ends in front of the first `@` of its text.
fn is_in_user(front: &[u8], rest: &[u8]) -> bool
    ensures { result ≡ is_in_user front.now rest.now }
{
    rest.contains(&b'@') && !front.contains(&b'@')
}

/// Three parts, one behind the other, if there is room for them.
fn joined(front: &[u8], end: &[u8], tail: &[u8]) -> Option<ArrayVec<u8, TEXT_LIMIT>>
    ensures text { IfSome result (λ text. text.items ≡ front.now ++ (end.now ++ tail.now)) }
    ensures long { result ≡ None → 1024 < length (front.now ++ (end.now ++ tail.now)) }
{
    let mut text = ArrayVec::new();
    text.try_extend_from_slice(front).ok()?;
    text.try_extend_from_slice(end).ok()?;
    text.try_extend_from_slice(tail).ok()?;
    Some(text)
}

impl Grammar {
    /// Whether octets are a text of the grammar.
    fn spells(self, octets: &[u8]) -> bool
        ensures { IsTrue result ↔ spec.Spells self octets.now }
    {
        match self {
            Grammar::Uri => view_uri(octets).is_ok(),
            Grammar::Via => view_via(octets).is_ok(),
        }
    }

    /// Whether a beginning is a text of the grammar with this end and this tail behind it.
    fn is_completed_by(self, front: &[u8], end: &[u8], tail: &[u8]) -> bool
        ensures { IsTrue result ↔ spec.Spells self (front.now ++ (end.now ++ tail.now)) }
    {
        match joined(front, end, tail) {
            Some(text) => self.spells(text.as_slice()),
            None => false,
        }
    }

    /// Whether an end of a word, with a tail behind it, completes a beginning.
    fn has_end(self, front: &[u8], word: &[u8], tail: &[u8]) -> bool
        ensures { IsTrue result ↔ HasEnd (spec.Spells self) word.now tail.now front.now }
    {
        for dropped in (0..word.len() + 1).rev() {
            if self.is_completed_by(front, &word[dropped..], tail) {
                return true;
            }
        }
        false
    }

    /// The words whose ends are what a beginning may lack.
    fn words(self) -> [&'static [u8]; 5]
        ensures { map (λ word. word.now) result ≡ spec.words_of self }
    {
        match self {
            Grammar::Uri => [b"11", b"11=", b"sips:a.a", b"::]", b"1.1.1]"],
            Grammar::Via => [b"1", b"a\"", b"SIP/2.0/UDP a.a", b"::]", b"1.1.1]"],
        }
    }

    /// What has to stand behind the end: of a URI `@` and a host, where a user is not yet over.
    fn tail(self, front: &[u8], rest: &[u8]) -> &'static [u8]
        ensures { result.now ≡ spec.tail_of self front.now rest.now }
    {
        match self {
            Grammar::Uri if is_in_user(front, rest) => b"@a",
            _ => b"",
        }
    }

    /// Whether a beginning of a text can go on.
    fn goes_on(self, front: &[u8], rest: &[u8]) -> bool
        ensures { IsTrue result ↔ spec.GoesOn self front.now rest.now }
    {
        let tail = self.tail(front, rest);
        for word in self.words() {
            if self.has_end(front, word, tail) {
                return true;
            }
        }
        false
    }

    /// How far a text can go on.
    fn reach(self, octets: &[u8]) -> usize
        ensures { IsReach (spec.GoesOn self) octets.now result }
    {
        for at in 0..octets.len() {
            let (front, rest) = octets.split_at(at + 1);
            if !self.goes_on(front, rest) {
                return at;
            }
        }
        octets.len()
    }

    /// Where the leftmost fault of octets stands that are no text of the grammar.
    pub(crate) fn fault_at(self, octets: &[u8]) -> Option<usize>
        ensures none { result ≡ None ↔ spec.Spells self octets.now }
        ensures at { IfSome result (IsFault (spec.GoesOn self) octets.now) }
    {
        if self.spells(octets) {
            None
        } else if octets.len() > TEXT_LIMIT {
            Some(TEXT_LIMIT)
        } else {
            Some(self.reach(octets))
        }
    }
}

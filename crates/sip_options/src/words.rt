//! Words in texts (RFC 3261 7.3.1).
ghost use Rattle.std.specs.Prelude.{◌≡◌, ◌↔◌, ◌++◌, ◌∷◌, ℕ, List, IsTrue, IfSome, IfNone};
ghost use Rattle.sip_options.specs.Readers.Words.{BeginsWord};
ghost use Rattle.sip_options.specs.Texts.{Ends, IsAlone, IsOctet, is_white as is_white_octet};

use crate::class::{Class, is_white};
use crate::pieces::cut;

/// What follows an octet, where it stands in front.
pub(crate) fn behind_octet(text: &[u8], octet: u8) -> Option<&[u8]>
    ensures found { IfSome result (λ rest. text.now ≡ octet ∷ rest.now) }
    ensures none { IfNone result ((rest : List ℕ) → text.now ≡ octet ∷ rest → ⊥) }
{
    match text {
        [first, rest @ ..] if *first == octet => Some(rest),
        _ => None,
    }
}

/// What follows a word in front, in letters of any case.
pub(crate) fn behind_word<'a>(text: &'a [u8], word: &[u8]) -> Option<&'a [u8]>
    ensures found { IfSome result (λ rest. BeginsWord word.now text.now rest.now) }
    ensures none { IfNone result ((rest : List ℕ) → BeginsWord word.now text.now rest → ⊥) }
{
    if text.len() < word.len() {
        return None;
    }
    let (front, rest) = text.split_at(word.len());
    if front.eq_ignore_ascii_case(word) {
        Some(rest)
    } else {
        None
    }
}

/// What follows a word in front, as it stands.
pub(crate) fn behind_exactly<'a>(text: &'a [u8], word: &[u8]) -> Option<&'a [u8]>
    ensures found { IfSome result (λ rest. text.now ≡ word.now ++ rest.now) }
    ensures none { IfNone result ((rest : List ℕ) → text.now ≡ word.now ++ rest → ⊥) }
{
    text.strip_prefix(word)
}

/// Whether a text is a word as it stands, with white space around it.
pub(crate) fn is_alone(text: &[u8], word: &[u8]) -> bool
    // The word does not begin with white space.
    requires { (rest : List ℕ) → Ends (IsOctet is_white_octet) (word.now ++ rest) }
    ensures { IsTrue result ↔ IsAlone word.now text.now }
{
    match behind_exactly(cut(Class::White, text).1, word) {
        Some(back) => is_white(back),
        None => false,
    }
}

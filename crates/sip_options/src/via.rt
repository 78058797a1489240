//! The branch of the first Via in a value (RFC 3261 17.1.3, 20.42, 25.1).
ghost use Rattle.std.specs.Prelude.{◌≡◌, ◌↔◌, ◌++◌, ℕ, List, IsTrue, IfSome, IfNone};
ghost use Rattle.sip_options.specs.Readers.Vias.{ends_part, BeginsPart, BeginsParam};
ghost use Rattle.sip_options.specs.Readers.Words.{BeginsWhiteWord};
ghost use Rattle.sip_options.specs.Readers.Pieces.{quoted_piece, plain_piece, IsQuotedLength};
ghost use Rattle.sip_options.specs.Texts.{Ends, IsOctet, IsWord, is_white as is_white_octet};
ghost use Rattle.sip_options.specs.Vias.{IsNamedBranch, IsBranchValue, HasBranch, FirstHasBranch, is_mark as is_mark_octet};

use crate::class::Class;
use crate::pieces::{Piece, cut};
use crate::words::{behind_octet, behind_word};

/// The pieces of a quoted string: octets other than `"` and `\`, and `\` with any octet.
#[derive(Clone, Copy)]
struct QuotedPiece;

/// The number of octets of the piece of a quoted string in front of a text.
fn quoted_piece(text: &[u8]) -> Option<usize>
    ensures { result ≡ quoted_piece text.now }
{
    match text {
        [b'\\', _, ..] => Some(2),
        [octet, ..] if *octet != b'"' && *octet != b'\\' => Some(1),
        _ => None,
    }
}

impl Piece for QuotedPiece {
    ghost use Rattle.sip_options.specs.Vias.{IsQuotedPiece};

    ghost is_one = { λ piece text. IsQuotedPiece text };

    fn length_in_front(self, text: &[u8]) -> Option<usize> {
        quoted_piece(text)
    }
}

/// The pieces of a part: octets other than `"`, `,` and `;`, and quoted strings.
#[derive(Clone, Copy)]
struct PartPiece;

/// Whether an octet parts two Vias, or two parameters of one.
fn is_mark(octet: u8) -> bool
    ensures { result ≡ is_mark_octet octet }
{
    octet == b',' || octet == b';'
}

/// The number of octets between two quotes, of which the first is passed.
fn quoted_length(text: &[u8]) -> Option<usize>
    ensures found { IfSome result (λ count. IsQuotedLength text.now count) }
    ensures none { IfNone result ((count : ℕ) → IsQuotedLength text.now count → ⊥) }
{
    let (inner, rest) = cut(QuotedPiece, text);
    behind_octet(rest, b'"')?;
    Some(inner.len())
}

/// One, where an octet other than `,` and `;` is in front of a text.
fn plain_piece(text: &[u8]) -> Option<usize>
    ensures { result ≡ plain_piece text.now }
{
    match text {
        [octet, ..] if !is_mark(*octet) => Some(1),
        _ => None,
    }
}

impl Piece for PartPiece {
    ghost use Rattle.sip_options.specs.Vias.{IsPartPiece};

    ghost is_one = { λ piece text. IsPartPiece text };

    fn length_in_front(self, text: &[u8]) -> Option<usize> {
        match behind_octet(text, b'"') {
            Some(inner) => Some(quoted_length(inner)? + 2),
            None => plain_piece(text),
        }
    }
}

/// Whether a part ends in front of a text.
fn ends_part(text: &[u8]) -> bool
    ensures { result ≡ ends_part text.now }
{
    match text {
        [] => true,
        [octet, ..] => is_mark(*octet),
    }
}

/// The part in front, and what follows it.
fn part_in_front(text: &[u8]) -> Option<(&[u8], &[u8])>
    ensures found { IfSome result (λ found. BeginsPart text.now found.0.now found.1.now) }
    ensures none { IfNone result ((part rest : List ℕ) → BeginsPart text.now part rest → ⊥) }
{
    let (part, rest) = cut(PartPiece, text);
    if ends_part(rest) {
        Some((part, rest))
    } else {
        None
    }
}

/// What follows the word in front and the white space around it.
fn behind_white_word<'a>(text: &'a [u8], word: &[u8]) -> Option<&'a [u8]>
    requires { (front rest : List ℕ) → IsWord word.now front
        → Ends (IsOctet is_white_octet) (front ++ rest) }
    ensures found { IfSome result (λ rest. BeginsWhiteWord word.now text.now rest.now) }
    ensures none { IfNone result ((rest : List ℕ) → BeginsWhiteWord word.now text.now rest → ⊥) }
{
    let rest = behind_word(cut(Class::White, text).1, word)?;
    Some(cut(Class::White, rest).1)
}

/// What follows the `=` of the parameter `branch` in front.
fn branch_value(text: &[u8]) -> Option<&[u8]>
    ensures found { IfSome result (λ value. IsNamedBranch text.now value.now) }
    ensures none { IfNone result ((value : List ℕ) → IsNamedBranch text.now value → ⊥) }
{
    behind_octet(behind_white_word(text, b"branch")?, b'=')
}

/// Whether a text is a branch with white space around it.
fn is_branch_value(text: &[u8], branch: &[u8]) -> bool
    requires { (front rest : List ℕ) → IsWord branch.now front
        → Ends (IsOctet is_white_octet) (front ++ rest) }
    ensures { IsTrue result ↔ IsBranchValue branch.now text.now }
{
    match behind_white_word(text, branch) {
        Some(rest) => rest.is_empty(),
        None => false,
    }
}

/// Whether the first Via of a value has this branch.
pub(crate) fn first_has_branch(value: &[u8], branch: &[u8]) -> bool
    requires { (front rest : List ℕ) → IsWord branch.now front
        → Ends (IsOctet is_white_octet) (front ++ rest) }
    ensures { IsTrue result ↔ FirstHasBranch branch.now value.now }
{
    match part_in_front(value) {
        Some((_, params)) => has_branch(params, branch),
        None => false,
    }
}

/// Whether the first of the parameters in front that is named `branch` is this one.
fn has_branch(params: &[u8], branch: &[u8]) -> bool
    requires { (front rest : List ℕ) → IsWord branch.now front
        → Ends (IsOctet is_white_octet) (front ++ rest) }
    ensures { IsTrue result ↔ HasBranch branch.now params.now }
{
    let mut rest = params;
    while let Some((param, behind)) = param_in_front(rest) {
        if let Some(value) = branch_value(param) {
            return is_branch_value(value, branch);
        }
        rest = behind;
    }
    false
}

/// The parameter in front, without the `;` in front of it, and what follows it.
fn param_in_front(text: &[u8]) -> Option<(&[u8], &[u8])>
    ensures found { IfSome result (λ found. BeginsParam text.now found.0.now found.1.now) }
    ensures none { IfNone result ((param rest : List ℕ) → BeginsParam text.now param rest → ⊥) }
{
    part_in_front(behind_octet(text, b';')?)
}

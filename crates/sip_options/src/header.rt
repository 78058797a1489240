//! Headers in a text (RFC 3261 7.3.1, 25.1).
ghost use Rattle.std.specs.Prelude.{◌≡◌, ◌++◌, ◌∷◌, ℕ, List, IfSome, IfNone};
ghost use Rattle.sip_options.specs.Heads.{Header as spec_header, IsHeader, IsHeaderPiece};
ghost use Rattle.sip_options.specs.Readers.Headers.{BeginsHeader, header_of};
ghost use Rattle.sip_options.specs.Readers.Pieces.{header_piece};
ghost use Rattle.sip_options.specs.Texts.{Many};

use crate::class::{Class, is_blank};
use crate::pieces::{Piece, cut};
use crate::words::behind_octet;

/// A header, its lines as they stand.
#[derive(Clone, Copy)]
pub(crate) struct Header<'a> {
    /// The name.
    pub(crate) name: &'a [u8],
    /// What follows the colon.
    pub(crate) value: &'a [u8],
}

/// The pieces of a header: octets other than CR and LF, and line breaks with a space or a tab
/// behind them.
#[derive(Clone, Copy)]
pub(crate) struct HeaderPiece;

/// The number of octets of the piece in front of a text.
fn header_piece(text: &[u8]) -> Option<usize>
    ensures { result ≡ header_piece text.now }
{
    match text {
        [b'\r', b'\n', blank, ..] if is_blank(*blank) => Some(3),
        [octet, ..] if *octet != b'\r' && *octet != b'\n' => Some(1),
        _ => None,
    }
}

impl Piece for HeaderPiece {
    ghost use Rattle.sip_options.specs.Heads.{IsHeaderPiece};

    ghost is_one = { λ piece text. IsHeaderPiece text };

    fn length_in_front(self, text: &[u8]) -> Option<usize> {
        header_piece(text)
    }
}

/// What follows a line break in front.
pub(crate) fn behind_break(text: &[u8]) -> Option<&[u8]>
    ensures found { IfSome result (λ rest. text.now ≡ 13 ∷ 10 ∷ rest.now) }
    ensures none { IfNone result ((rest : List ℕ) → text.now ≡ 13 ∷ 10 ∷ rest → ⊥) }
{
    match text {
        [b'\r', b'\n', rest @ ..] => Some(rest),
        _ => None,
    }
}

/// The header that a text is.
fn read_header(line: &[u8]) -> Option<Header<'_>>
    requires { Many IsHeaderPiece line.now }
    ensures found { IfSome result (λ header. IsHeader line.now (header_of header)) }
    ensures none { IfNone result ((header : spec_header) → IsHeader line.now header → ⊥) }
{
    let (name, rest) = cut(Class::Token, line);
    if name.is_empty() {
        return None;
    }
    let value = behind_octet(cut(Class::White, rest).1, b':')?;
    Some(Header { name, value })
}

/// The header in front, and what follows its line break.
pub(crate) fn header_in_front(text: &[u8]) -> Option<(Header<'_>, &[u8])>
    ensures found { IfSome result (λ found. BeginsHeader text.now (header_of found.0) found.1.now) }
    ensures none { IfNone result ((header : spec_header) (rest : List ℕ)
        → BeginsHeader text.now header rest → ⊥) }
{
    let (line, behind) = cut(HeaderPiece, text);
    let rest = behind_break(behind)?;
    Some((read_header(line)?, rest))
}

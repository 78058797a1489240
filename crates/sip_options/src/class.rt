//! Classes of octets (RFC 3261 25.1).
ghost use Rattle.std.specs.Prelude.{◌≡◌, ◌↔◌, IsTrue};
ghost use Rattle.sip_options.specs.Readers.Octets.{octets_of};
ghost use Rattle.sip_options.specs.Texts.{is_blank, IsWhite};

use crate::pieces::{Piece, cut};

/// A class of octets.
#[derive(Clone, Copy)]
pub(crate) enum Class {
    /// Linear white space: spaces and tabs, and the line breaks of a header.
    White,
    /// All but CR and LF.
    InLine,
    /// Of a token.
    Token,
    /// The digit 0.
    Zero,
    /// Digits.
    Digit,
}

/// Whether an octet is a space or a tab.
pub(crate) fn is_blank(octet: u8) -> bool
    ensures { result ≡ is_blank octet }
{
    octet == b' ' || octet == b'\t'
}

/// Whether an octet is of a class.
fn has(class: Class, octet: u8) -> bool
    ensures { result ≡ octets_of class octet }
{
    match class {
        Class::White => is_blank(octet) || octet == b'\r' || octet == b'\n',
        Class::InLine => !(octet == b'\r' || octet == b'\n'),
        Class::Token => octet.is_ascii_alphanumeric() || b"-.!%*_+`'~".contains(&octet),
        Class::Zero => octet == b'0',
        Class::Digit => octet.is_ascii_digit(),
    }
}

impl Piece for Class {
    ghost use Rattle.sip_options.specs.Readers.Octets.{octets_of};
    ghost use Rattle.sip_options.specs.Texts.{IsOctet};

    ghost is_one = { λ class text. IsOctet (octets_of class) text };

    fn length_in_front(self, text: &[u8]) -> Option<usize> {
        match text {
            [octet, ..] if has(self, *octet) => Some(1),
            _ => None,
        }
    }
}

/// Whether a text is linear white space, or nothing.
pub(crate) fn is_white(text: &[u8]) -> bool
    ensures { IsTrue result ↔ IsWhite text.now }
{
    cut(Class::White, text).1.is_empty()
}

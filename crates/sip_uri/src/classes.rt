//! Classes of octets, and runs of them (RFC 3261 25.1).
ghost use Rattle.std.specs.Prelude.{◌≡◌, ◌++◌, true};
ghost use Rattle.std.specs.Option.{option_map};
ghost use Rattle.sip_uri.specs.Readers.Runs as spec;

use crate::runs::{OctetClass, cut};

/// A class of octets that may stand unescaped.
#[derive(Clone, Copy)]
pub(crate) enum Class {
    /// Of a user.
    User,
    /// Of a password.
    Password,
    /// Of the name or value of a parameter.
    Param,
    /// Of the name or value of a header.
    Header,
    /// Of a label of a hostname.
    Label,
}

/// For each octet the classes that it is of: the sum of their bits.
const CLASSES: [u8; 256] = [
    0, 0, 0, 0, 0, 0, 0, 0, 0, 0, 0, 0, 0, 0, 0, 0, 0, 0, 0, 0, 0, 0, 0, 0, 0, 0, 0, 0, 0, 0, 0, 0,
    0, 15, 0, 0, 15, 0, 7, 15, 15, 15, 15, 15, 3, 31, 15, 13, 31, 31, 31, 31, 31, 31, 31, 31, 31,
    31, 12, 1, 0, 3, 0, 9, 0, 31, 31, 31, 31, 31, 31, 31, 31, 31, 31, 31, 31, 31, 31, 31, 31, 31,
    31, 31, 31, 31, 31, 31, 31, 31, 31, 12, 0, 12, 0, 15, 0, 31, 31, 31, 31, 31, 31, 31, 31, 31,
    31, 31, 31, 31, 31, 31, 31, 31, 31, 31, 31, 31, 31, 31, 31, 31, 31, 0, 0, 0, 15, 0, 0, 0, 0, 0,
    0, 0, 0, 0, 0, 0, 0, 0, 0, 0, 0, 0, 0, 0, 0, 0, 0, 0, 0, 0, 0, 0, 0, 0, 0, 0, 0, 0, 0, 0, 0, 0,
    0, 0, 0, 0, 0, 0, 0, 0, 0, 0, 0, 0, 0, 0, 0, 0, 0, 0, 0, 0, 0, 0, 0, 0, 0, 0, 0, 0, 0, 0, 0, 0,
    0, 0, 0, 0, 0, 0, 0, 0, 0, 0, 0, 0, 0, 0, 0, 0, 0, 0, 0, 0, 0, 0, 0, 0, 0, 0, 0, 0, 0, 0, 0, 0,
    0, 0, 0, 0, 0, 0, 0, 0, 0, 0, 0, 0, 0, 0, 0, 0, 0, 0, 0, 0, 0, 0, 0, 0, 0, 0, 0, 0,
];

/// The bit that stands for a class.
fn bit(class: Class) -> u8
    ensures { result ≡ spec.bit class }
{
    match class {
        Class::User => 1,
        Class::Password => 2,
        Class::Param => 4,
        Class::Header => 8,
        Class::Label => 16,
    }
}

impl OctetClass for Class {
    ghost use Rattle.sip_uri.specs.Readers.Runs as spec;

    ghost octets = { λ class octet. spec.octets_of class octet };

    fn has(self, octet: u8) -> bool {
        CLASSES[usize::from(octet)] & bit(self) != 0
    }
}

/// What follows an escaped octet: `%` and two hexadecimal digits.
fn behind_escaped(text: &[u8]) -> Option<&[u8]>
    ensures { option_map (λ rest. rest.now) result ≡ spec.behind_escaped text.now }
{
    match text {
        [b'%', high, low, rest @ ..] if high.is_ascii_hexdigit() && low.is_ascii_hexdigit() => {
            Some(rest)
        }
        _ => None,
    }
}

/// Whether a text is a run of octets of a class and of escaped ones.
pub(crate) fn is_run(class: Class, text: &[u8]) -> bool
    ensures { result ≡ spec.is_run (spec.octets_of class) text.now }
{
    let mut rest = text;
    loop {
        let (_, behind) = cut(class, rest);
        if behind.is_empty() {
            return true;
        }
        match behind_escaped(behind) {
            None => return false,
            Some(behind) => rest = behind,
        }
    }
}

/// The run of octets of a class and of escaped ones in front, and what follows it.
#[inline(always)]
pub(crate) fn run_in_front(class: Class, text: &[u8]) -> (&[u8], &[u8])
    ensures joined { result.0.now ++ result.1.now ≡ text.now }
    ensures run { spec.is_run (spec.octets_of class) result.0.now ≡ true }
    ensures ends { spec.RunEnds (spec.octets_of class) result.1.now }
{
    let mut rest = text;
    loop {
        let (_, behind) = cut(class, rest);
        match behind_escaped(behind) {
            None => return (&text[..text.len() - behind.len()], behind),
            Some(behind) => rest = behind,
        }
    }
}

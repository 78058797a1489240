//! Octets of a class in a row, as a Via has them (RFC 3261 25.1).
ghost use Rattle.std.specs.Prelude.{◌≡◌};
ghost use Rattle.std.specs.Option.{option_map};
ghost use Rattle.sip_uri.specs.ViaClasses as octets;
ghost use Rattle.sip_uri.specs.Readers.Vias as spec;

use crate::runs::{OctetClass, cut};

/// A class of octets of a Via.
#[derive(Clone, Copy)]
pub(crate) enum Row {
    /// Blanks and tabs.
    Blank,
    /// Of a token.
    Token,
    /// What does not end a host.
    Host,
    /// What does not end a port.
    Port,
    /// Of the value of a parameter.
    Value,
}

/// Whether an octet is a blank or a tab.
fn is_blank(octet: u8) -> bool
    ensures { result ≡ octets.is_blank octet }
{
    octet == b' ' || octet == b'\t'
}

impl OctetClass for Row {
    ghost use Rattle.sip_uri.specs.Readers.Vias as spec;

    ghost octets = { λ class octet. spec.octets_of class octet };

    fn has(self, octet: u8) -> bool {
        match self {
            Row::Blank => is_blank(octet),
            Row::Token => octet.is_ascii_alphanumeric() || b"-.!%*_+`'~".contains(&octet),
            Row::Host => !(is_blank(octet) || octet == b':' || octet == b';'),
            Row::Port => !(is_blank(octet) || octet == b';'),
            Row::Value => {
                octet >= 33 && octet <= 126 && !(octet == b';' || octet == b',' || octet == b'"')
            }
        }
    }
}

/// What follows blanks and tabs.
pub(crate) fn behind_blanks(text: &[u8]) -> &[u8]
    ensures { result.now ≡ octets.behind_row octets.is_blank text.now }
{
    cut(Row::Blank, text).1
}

/// What follows an octet with blanks and tabs around it.
#[tactic(auto, unfolding(crate::specs::Readers::Vias::behind_mark))]
pub(crate) fn behind_mark(text: &[u8], mark: u8) -> Option<&[u8]>
    ensures { option_map (λ rest. rest.now) result ≡ spec.behind_mark mark text.now }
{
    match behind_blanks(text) {
        [first, rest @ ..] if *first == mark => Some(behind_blanks(rest)),
        _ => None,
    }
}

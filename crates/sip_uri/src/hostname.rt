//! Hostnames (RFC 3261 25.1).
ghost use Rattle.std.specs.Prelude.{◌≡◌, true};
ghost use Rattle.std.specs.List.{list_all};
ghost use Rattle.sip_uri.specs.Hosts as host;
ghost use Rattle.ip_text.specs.Parts.{parted};
ghost use Rattle.sip_uri.specs.Readers.Hostnames as spec;
ghost use Rattle.dns_name.specs.Texts.{without_closing_dot};

use crate::classes::Class;
use crate::runs::cut;
use ip_text::behind_front;

/// Whether letters, digits and hyphens are a label: with a letter or digit in front and at the end.
fn is_label(octets: &[u8]) -> bool
    requires { list_all host.is_label_octet octets.now ≡ true }
    ensures { result ≡ spec.is_label octets.now }
{
    if octets.is_empty() || octets.len() > 63 {
        return false;
    }
    octets[0].is_ascii_alphanumeric() && octets[octets.len() - 1].is_ascii_alphanumeric()
}

/// Whether they are labels with dots between them, the last of which begins with a letter.
fn are_labels(text: &[u8]) -> bool
    ensures { result ≡ spec.are_labels (parted 46 text.now) }
{
    let mut rest = text;
    loop {
        let (label, behind) = cut(Class::Label, rest);
        if !is_label(label) {
            return false;
        }
        if behind.is_empty() {
            return label[0].is_ascii_alphabetic();
        }
        match behind_front(behind, b'.') {
            None => return false,
            Some(behind) => rest = behind,
        }
    }
}

/// A text without its closing dot, if it has one.
fn without_dot(text: &[u8]) -> &[u8]
    ensures { result.now ≡ without_closing_dot text.now }
{
    match text {
        [front @ .., b'.'] => front,
        _ => text,
    }
}

/// Whether a text is a hostname.
pub(crate) fn is_hostname(text: &[u8]) -> bool
    ensures { result ≡ spec.is_hostname text.now }
{
    let dotted = without_dot(text);
    dotted.len() <= 253 && are_labels(dotted)
}

//! Headers of a URI (RFC 3261 19.1.1, 25.1).
ghost use Rattle.std.specs.Prelude.{◌≡◌, ◌&&◌, true};
ghost use Rattle.std.specs.List.{list_all};
ghost use Rattle.std.specs.Option.{option_map};
ghost use Rattle.ip_text.specs.Parts.{parted};
ghost use Rattle.sip_uri.specs.Classes.{is_header_octet};
ghost use Rattle.sip_uri.specs.Readers.Pairs.{is_value_run};
ghost use Rattle.sip_uri.specs.Readers.Runs.{is_run, is_some_run};
ghost use Rattle.sip_uri.specs.Readers.Uris as spec;

use crate::classes::Class;
use crate::pairs::{Pair, pair_in_front};

/// Whether a name and a value, or none, are a header. Both are runs.
fn is_header(name: &[u8], value: Option<&[u8]>) -> bool
    requires name { is_run is_header_octet name.now ≡ true }
    requires value { is_value_run is_header_octet (option_map (λ text. text.now) value) ≡ true }
    ensures { result ≡ is_some_run is_header_octet name.now
        && spec.is_header_value (option_map (λ text. text.now) value.entry) }
{
    !name.is_empty() && value.is_some()
}

/// Whether a text is one or more headers with `&` between them.
pub(crate) fn are_headers(text: &[u8]) -> bool
    ensures { result ≡ list_all spec.is_header (parted 38 text.now) }
{
    let mut rest = text;
    loop {
        let Some(
            Pair {
                name,
                value,
                behind,
            },
        ) = pair_in_front(Class::Header, b'&', rest)
        else {
            return false;
        };
        if !is_header(name, value) {
            return false;
        }
        match behind {
            None => return true,
            Some(behind) => rest = behind,
        }
    }
}

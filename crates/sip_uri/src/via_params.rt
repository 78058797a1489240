//! Parameters of a Via (RFC 3261 7.3.1, 20.42, 25.1).
ghost use Rattle.std.specs.Prelude.{◌≡◌, ◌⊎◌, OnOk, OnErr, IfErr};
ghost use Rattle.std.specs.Option.{option_map};
ghost use Rattle.sip_uri.specs.Readers.Vias as spec;
ghost use Rattle.sip_uri.specs.Vias.{ViaParams};

use crate::params::is_same;
use crate::refusal::UriRefusal;
use crate::runs::cut;
use crate::via_classes::{Row, behind_blanks, behind_mark};
use ip_text::behind_front;

/// What follows a quoted string, of which the first `"` is passed.
fn behind_quoted(text: &[u8]) -> Option<&[u8]>
    ensures { option_map (λ rest. rest.now) result ≡ spec.behind_quoted text.now }
{
    let mut escaped = false;
    for (at, octet) in text.iter().enumerate() {
        if *octet == b'\r' || *octet == b'\n' {
            return None;
        }
        if escaped {
            if *octet >= 128 {
                return None;
            }
            escaped = false;
        } else if *octet == b'\\' {
            escaped = true;
        } else if *octet == b'"' {
            return Some(&text[at + 1..]);
        }
    }
    None
}

/// What follows the value of a parameter.
#[tactic(auto, unfolding(crate::specs::Readers::Vias::behind_value))]
pub(crate) fn behind_value(text: &[u8]) -> Option<&[u8]>
    ensures { option_map (λ rest. rest.now) result ≡ spec.behind_value text.now }
{
    match behind_front(text, b'"') {
        Some(quoted) => behind_quoted(quoted),
        None => {
            let (value, rest) = cut(Row::Value, text);
            if value.is_empty() { None } else { Some(rest) }
        }
    }
}

/// What follows the value, where `=` stands in front.
#[tactic(auto, unfolding(crate::specs::Readers::Vias::behind_valued))]
pub(crate) fn behind_valued(text: &[u8]) -> Option<&[u8]>
    ensures { option_map (λ rest. rest.now) result ≡ spec.behind_valued text.now }
{
    match behind_mark(text, b'=') {
        None => Some(text),
        Some(value) => behind_value(value),
    }
}

/// The name of the parameter in front, and what follows it.
#[tactic(auto, unfolding(crate::specs::Readers::Vias::next_param))]
pub(crate) fn next_param(text: &[u8]) -> Option<(&[u8], &[u8])>
    ensures { option_map (λ found. (found.0.now, found.1.now)) result ≡ spec.next_param text.now }
{
    let (name, rest) = cut(Row::Token, behind_mark(text, b';')?);
    if name.is_empty() {
        return None;
    }
    Some((name, behind_valued(rest)?))
}

/// Whether one of the first parameters has a name.
fn stands_before(params: &[u8], count: usize, name: &[u8]) -> bool
    ensures { result ≡ spec.stands_in (spec.names count params.now) name.now }
{
    let mut rest = params;
    for _ in 0..count {
        match next_param(rest) {
            None => return false,
            Some((earlier, behind)) => {
                if is_same(earlier, name) {
                    return true;
                }
                rest = behind;
            }
        }
    }
    false
}

/// Refuses what are no parameters, or two of one name.
pub(crate) fn check_via_params(params: &[u8]) -> Result<(), UriRefusal>
    ensures ok { OnOk result (ViaParams params.now) }
    ensures err { OnErr result (ViaParams params.now → ⊥) }
    // A fault is a repeated name where two of the parameters that stand in front have one name, and
    // a bad parameter else.
    ensures fault { IfErr result
        (λ refusal. ((refusal ≡ UriRefusal.BadParam) × spec.AreNamesApart params.now)
        ⊎ ((refusal ≡ UriRefusal.RepeatedParam) × (spec.AreNamesApart params.now → ⊥))) }
{
    let mut rest = params;
    let mut count = 0;
    loop {
        if behind_blanks(rest).is_empty() {
            return Ok(());
        }
        match next_param(rest) {
            None => return Err(UriRefusal::BadParam),
            Some((name, behind)) => {
                if stands_before(params, count, name) {
                    return Err(UriRefusal::RepeatedParam);
                }
                rest = behind;
            }
        }
        count += 1;
    }
}

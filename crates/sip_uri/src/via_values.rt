//! The parameters of a Via with their values (RFC 3261 20.42, 25.1).
ghost use Rattle.std.specs.Prelude.{◌≡◌, List};
ghost use Rattle.std.specs.Option.{option_map};
ghost use Rattle.sip_uri.specs.Readers.ViaRoutes as spec;
ghost use Rattle.sip_uri.specs.Uris.{Param};
ghost use Rattle.sip_uri.specs.ViaRoutes.{ListText, found_at};

use crate::params::is_same;
use crate::runs::cut;
use crate::via_classes::{Row, behind_mark};
use crate::via_params::behind_value;

/// A parameter in front.
#[derive(Clone, Copy)]
struct ParamFront<'a> {
    /// The name.
    name: &'a [u8],
    /// The value, where it has one.
    value: Option<&'a [u8]>,
    /// What follows it.
    behind: &'a [u8],
}

/// The value in front, and what follows it.
#[tactic(auto, unfolding(crate::specs::Readers::ViaRoutes::value_in_front))]
fn value_in_front(text: &[u8]) -> Option<(&[u8], &[u8])>
    ensures { option_map (λ found. (found.0.now, found.1.now)) result
        ≡ spec.value_in_front text.now }
{
    let behind = behind_value(text)?;
    Some((&text[..text.len() - behind.len()], behind))
}

/// The value behind a name, where it has one, and what follows it.
#[tactic(auto, unfolding(crate::specs::Readers::ViaRoutes::value_behind_name))]
fn value_behind_name(text: &[u8]) -> Option<(Option<&[u8]>, &[u8])>
    ensures { option_map
        (λ found. (option_map (λ value. value.now) found.0, found.1.now)) result
        ≡ spec.value_behind_name text.now }
{
    match behind_mark(text, b'=') {
        None => Some((None, text)),
        Some(inner) => {
            let (value, behind) = value_in_front(inner)?;
            Some((Some(value), behind))
        }
    }
}

/// The parameter in front.
#[tactic(auto, unfolding(crate::specs::Readers::ViaRoutes::param_in_front))]
fn param_in_front(text: &[u8]) -> Option<ParamFront<'_>>
    ensures { option_map spec.front_of result ≡ spec.param_in_front text.now }
{
    let (name, rest) = cut(Row::Token, behind_mark(text, b';')?);
    if name.is_empty() {
        return None;
    }
    let (value, behind) = value_behind_name(rest)?;
    Some(ParamFront {
        name,
        value,
        behind,
    })
}

/// The value of the first parameter of a name, in letters of any case, where there is such a
/// parameter.
pub(crate) fn param_value<'a>(params: &'a [u8], name: &[u8]) -> Option<Option<&'a [u8]>>
    ensures { (list : List Param) → ListText params.now list
        → option_map (λ value. option_map (λ text. text.now) value) result
        ≡ found_at name.now list }
{
    let mut rest = params;
    loop {
        let Some(
            ParamFront {
                name: found,
                value,
                behind,
            },
        ) = param_in_front(rest)
        else {
            return None;
        };
        if is_same(found, name) {
            return Some(value);
        }
        rest = behind;
    }
}

//! Names and their values in front of a text (RFC 3261 25.1).
ghost use Rattle.std.specs.Prelude.{◌≡◌, false, MatchOption};
ghost use Rattle.std.specs.Option.{option_map};
ghost use Rattle.ip_text.specs.Parts.{before};
ghost use Rattle.sip_uri.specs.Readers.Pairs as spec;
ghost use Rattle.sip_uri.specs.Readers.Runs.{octets_of};

use crate::classes::{Class, run_in_front};
use ip_text::behind_front;

/// A name and its value in front of a text.
#[derive(Clone, Copy)]
pub(crate) struct Pair<'a> {
    /// The name.
    pub(crate) name: &'a [u8],
    /// The value, where `=` stands behind the name.
    pub(crate) value: Option<&'a [u8]>,
    /// What follows the mark behind them, where it stands there.
    pub(crate) behind: Option<&'a [u8]>,
}

/// What follows a mark in front, or nothing at the end of the text; no other octet may stand there.
pub(crate) fn behind_end(text: &[u8], mark: u8) -> Option<Option<&[u8]>>
    ensures { option_map (λ found. option_map (λ rest. rest.now) found) result
        ≡ spec.behind_end mark text.now }
{
    match text {
        [] => Some(None),
        [first, rest @ ..] if *first == mark => Some(Some(rest)),
        _ => None,
    }
}

/// The name in front, its value where `=` stands between them, and what follows the mark behind
/// them. Both are runs.
#[inline(always)]
pub(crate) fn pair_in_front(class: Class, mark: u8, text: &[u8]) -> Option<Pair<'_>>
    requires { spec.IsMark (octets_of class) mark }
    ensures { MatchOption result
        (spec.are_runs (octets_of class) (before mark text.now) ≡ false)
        (λ pair. spec.IsPair (octets_of class) mark text.now pair) }
{
    let (name, rest) = run_in_front(class, text);
    match behind_front(rest, b'=') {
        None => {
            let behind = behind_end(rest, mark)?;
            Some(Pair {
                name,
                value: None,
                behind,
            })
        }
        Some(valued) => {
            let (value, rest) = run_in_front(class, valued);
            let behind = behind_end(rest, mark)?;
            Some(Pair {
                name,
                value: Some(value),
                behind,
            })
        }
    }
}

//! Status lines (RFC 3261 7.2, 25.1).
ghost use Rattle.std.specs.Prelude.{◌≡◌, ◌++◌, ◌∷◌, ℕ, List, IfSome, IfNone};
ghost use Rattle.std.specs.Option.{option_map};
ghost use Rattle.sip_options.specs.Readers.Numbers.{status_of, status_in_front};
ghost use Rattle.sip_options.specs.Readers.Words.{BeginsLine};
ghost use Rattle.sip_options.specs.Replies.{StatusLine};

use crate::class::Class;
use crate::header::behind_break;
use crate::pieces::cut;
use crate::words::behind_word;

/// What follows a line and the line break at its end.
pub(crate) fn behind_line(text: &[u8]) -> Option<&[u8]>
    ensures found { IfSome result (λ rest. BeginsLine text.now rest.now) }
    ensures none { IfNone result ((rest : List ℕ) → BeginsLine text.now rest → ⊥) }
{
    behind_break(cut(Class::InLine, text).1)
}

/// The number of three digits, where it is from 100 to 699.
fn status_of(first: u8, second: u8, third: u8) -> Option<u16>
    ensures { result ≡ status_of first second third }
{
    if first < b'1' || first > b'6' || !second.is_ascii_digit() || !third.is_ascii_digit() {
        return None;
    }
    let tens = 10 * u16::from(first - b'0') + u16::from(second - b'0');
    Some(10 * tens + u16::from(third - b'0'))
}

/// The status between two spaces in front, and what follows the second.
fn status_in_front(text: &[u8]) -> Option<(u16, &[u8])>
    ensures { option_map (λ found. (found.0, found.1.now)) result ≡ status_in_front text.now }
{
    match text {
        [b' ', first, second, third, b' ', reason @ ..] => {
            Some((status_of(*first, *second, *third)?, reason))
        }
        _ => None,
    }
}

/// The status of the status line in front, and what follows the line.
pub(crate) fn status_line(text: &[u8]) -> Option<(u16, &[u8])>
    ensures found { IfSome result (λ found. StatusLine text.now found.0 found.1.now) }
    ensures none { IfNone result ((status : ℕ) (rest : List ℕ)
        → StatusLine text.now status rest → ⊥) }
{
    let (status, reason) = status_in_front(behind_word(text, b"SIP/2.0")?)?;
    Some((status, behind_line(reason)?))
}

//! Texts of somebody else, as they are shown.
ghost use Rattle.std.specs.Prelude.{◌≡◌, ◌++◌, ◌<◌, All, IfOk, OnOk};
ghost use Rattle.std.specs.String.{string_bytes};
ghost use Rattle.sip_report.specs.Escapes as spec;

use std::alloc::{AllocError, Global};

/// A hexadecimal digit, in small letters.
fn hexadecimal_character(digit: u8) -> char
    requires { digit < 16 }
    ensures { result ≡ spec.hexadecimal_character digit }
{
    if digit < 10 {
        char::from(b'0' + digit)
    } else {
        char::from(b'a' + digit - 10)
    }
}

/// Adds an octet as it is shown.
fn push_octet(shown: &mut String, octet: u8) -> Result<(), AllocError>
    ensures { OnOk result
        (string_bytes shown.new ≡ string_bytes shown.old ++ spec.shown_octet octet) }
{
    if octet > 31 && octet < 127 && octet != b'\\' {
        return shown.push(char::from(octet));
    }
    shown.push('\\')?;
    shown.push('x')?;
    shown.push(hexadecimal_character(octet / 16))?;
    shown.push(hexadecimal_character(octet % 16))
}

/// A text as it is shown: what is no printable character of ASCII, and each backslash, is `\x` and
/// two hexadecimal digits. So a text ends no line that it stands in, and commands no terminal.
pub fn shown_text(alloc: Global, text: &str) -> Result<String, AllocError>
    ensures shown { IfOk result (λ shown. string_bytes shown ≡ spec.shown text.now) }
    ensures printable { IfOk result (λ shown. All spec.IsPrintable (string_bytes shown)) }
{
    let mut shown = String::new(alloc);
    for octet in text.as_bytes() {
        push_octet(&mut shown, *octet)?;
    }
    Ok(shown)
}

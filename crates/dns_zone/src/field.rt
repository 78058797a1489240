//! The fields of a zone's line.
ghost use Rattle.std.specs.Prelude.{◌≡◌, ◌<◌, List, ℕ, length, Some, None, IfOk, MatchOption, MatchResult};
ghost use Rattle.std.specs.List.{list_all};
ghost use Rattle.dns_zone.specs.Lines as spec;
ghost use Rattle.dns_zone.specs.Views.{texts};

use crate::refusal::LineRefusal;
use arrayvec::ArrayVec;
use dns_message::CharString;
use ip_text::decimal;
use std::alloc::Global;

/// The most fields of a line: those of SOA.
const FIELD_LIMIT: usize = 10;

/// The most octets of a character string (RFC 1035 3.3).
const STRING_LIMIT: usize = 255;

/// The fields of a line, between blanks, unless there are more than ten.
pub(crate) fn fields_of(line: &str) -> Option<ArrayVec<&str, 10>>
    ensures { MatchOption result (10 < length (spec.fields_of line.now))
        (λ fields. texts fields.items ≡ spec.fields_of line.now) }
{
    let mut fields = ArrayVec::new();
    for field in line.split(' ') {
        if !field.is_empty() {
            if fields.is_full() {
                return None;
            }
            fields.push(field);
        }
    }
    Some(fields)
}

/// The number of decimal digits, up to 4294967295.
pub(crate) fn number_of_32_bits(text: &str) -> Result<u32, LineRefusal>
    ensures { MatchResult result (λ number. spec.number_of 4294967295 text.now ≡ Some number)
        (λ refusal. (refusal ≡ LineRefusal.Bad) × (spec.number_of 4294967295 text.now ≡ None)) }
{
    match decimal(text.as_bytes(), u32::MAX) {
        Some(number) => Ok(number),
        None => Err(LineRefusal::Bad),
    }
}

/// The number of decimal digits, up to 65535.
pub(crate) fn number_of_16_bits(text: &str) -> Result<u16, LineRefusal>
    ensures { MatchResult result (λ number. spec.number_of 65535 text.now ≡ Some number)
        (λ refusal. (refusal ≡ LineRefusal.Bad) × (spec.number_of 65535 text.now ≡ None)) }
{
    match decimal(text.as_bytes(), 65_535) {
        Some(number) => Ok(number as u16),
        None => Err(LineRefusal::Bad),
    }
}

/// Whether an octet may stand in a character string.
fn is_graphic(octet: u8) -> bool
    ensures { result ≡ spec.is_graphic octet }
{
    octet >= 33 && octet <= 126
}

/// Whether all of these octets may.
fn are_graphic(octets: &[u8]) -> bool
    ensures { result ≡ list_all spec.is_graphic octets.now }
{
    octets.iter().all(|octet| is_graphic(*octet))
}

/// The character string of a field: `-` is the empty one.
pub(crate) fn char_string(alloc: Global, text: &str) -> Result<CharString, LineRefusal>
    ensures found { IfOk result (λ string. spec.string_of text.now ≡ Some string) }
    ensures read { (string : List ℕ) → spec.string_of text.now ≡ Some string
        → MatchResult result (λ found. found ≡ string) (λ refusal. refusal ≡ LineRefusal.Memory) }
{
    if text == "-" {
        return CharString::new(Vec::new(alloc)).ok_or(LineRefusal::Bad);
    }
    if text.len() > STRING_LIMIT || !are_graphic(text.as_bytes()) {
        return Err(LineRefusal::Bad);
    }
    let octets = Vec::from_slice(alloc, text.as_bytes())?;
    CharString::new(octets).ok_or(LineRefusal::Bad)
}

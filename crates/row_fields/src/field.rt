//! Fields of a line, and what they stand for.
use crate::fault::Fault;
use std::alloc::Global;

/// The value of a hexadecimal digit.
fn digit(octet: u8) -> Option<u8> {
    match octet {
        b'0'..=b'9' => Some(octet.wrapping_sub(b'0')),
        b'a'..=b'f' => Some(octet.wrapping_sub(b'a').wrapping_add(10)),
        _ => None,
    }
}

/// The octet of two hexadecimal digits.
fn octet_of(high: u8, low: u8) -> Result<u8, Fault> {
    match (digit(high), digit(low)) {
        (Some(high), Some(low)) => Ok(high.wrapping_mul(16).wrapping_add(low)),
        _ => Err(Fault::Form),
    }
}

/// The first octet that a text in a field stands for, and what is left of the text.
fn first_octet(text: &[u8]) -> Result<(u8, &[u8]), Fault> {
    match text {
        [b'\\', b'\\', rest @ ..] => Ok((b'\\', rest)),
        [b'\\', b'x', high, low, rest @ ..] => Ok((octet_of(*high, *low)?, rest)),
        [b'\\', ..] | [] => Err(Fault::Form),
        [octet, rest @ ..] => Ok((*octet, rest)),
    }
}

/// The octets of a field.
pub fn octets(alloc: Global, field: &str) -> Result<Vec<u8>, Fault> {
    let mut octets = Vec::new(alloc);
    let mut rest = field.as_bytes();
    if field == "\"\"" {
        return Ok(octets);
    }
    for _ in 0..field.len() {
        if rest.is_empty() {
            break;
        }
        let (octet, behind) = first_octet(rest)?;
        octets.push(octet).map_err(|_| Fault::Memory)?;
        rest = behind;
    }
    Ok(octets)
}

/// The text of a field.
pub fn text(alloc: Global, field: &str) -> Result<String, Fault> {
    String::from_utf8(octets(alloc, field)?).map_err(|_| Fault::Form)
}

/// A line without the end of the input behind it.
pub fn only_line(input: &str) -> &str {
    input.strip_suffix("\n").unwrap_or(input)
}

/// The first line of an input, and the lines behind it.
pub fn first_line(input: &str) -> Result<(&str, &str), Fault> {
    input.split_once('\n').ok_or(Fault::Form)
}

/// The first word of a line, and what stands behind it.
pub fn split_word(line: &str) -> (&str, &str) {
    line.split_once(' ').unwrap_or((line, ""))
}

/// The number of a field.
pub fn number16(field: &str) -> Result<u16, Fault> {
    field.parse::<u16>().map_err(|_| Fault::Form)
}

/// The number of a field, of up to 32 bits.
pub fn number32(field: &str) -> Result<u32, Fault> {
    field.parse::<u32>().map_err(|_| Fault::Form)
}

/// The number of a field, of up to 64 bits.
pub fn number64(field: &str) -> Result<u64, Fault> {
    field.parse::<u64>().map_err(|_| Fault::Form)
}

/// The number of a field, as an index or a length.
pub fn count(field: &str) -> Result<usize, Fault> {
    field.parse::<usize>().map_err(|_| Fault::Form)
}

//! Calls of `ip_text`.
use crate::shown::push_address;
use ip_text::{
    Address, address_from_text, behind_front, decimal, ipv4_octets, ipv6_octets, next_part,
};
use row_fields::{Fault, Output, number32, octets, only_line, split_word, text};
use std::alloc::Global;

/// What a call gives for a row's lines.
pub(crate) fn told(output: &mut Output, call: &str, input: &str) -> Result<(), Fault> {
    let line = only_line(input);
    match call {
        "address_from_text" => from_text(output, line),
        "ipv4_octets" => four(output, line),
        "ipv6_octets" => six(output, line),
        "decimal" => number(output, line),
        "next_part" => part(output, line),
        "behind_front" => behind(output, line),
        _ => Err(Fault::Call),
    }
}

/// Writes an address, or `none`.
fn push_found(output: &mut Output, address: Option<Address>) {
    match address {
        Some(address) => push_address(output, address),
        None => output.push("none"),
    }
    output.push("\n");
}

/// A field with a text gives its address, or `none`.
fn from_text(output: &mut Output, line: &str) -> Result<(), Fault> {
    let text = text(output.alloc(), line)?;
    push_found(output, address_from_text(&text));
    Ok(())
}

/// A field gives the octets of its IPv4 address, or `none`.
fn four(output: &mut Output, line: &str) -> Result<(), Fault> {
    match ipv4_octets(&octets(output.alloc(), line)?) {
        Some(octets) => output.push_octets_line(&octets),
        None => output.push_line("none"),
    }
    Ok(())
}

/// A field gives the octets of its IPv6 address, or `none`.
fn six(output: &mut Output, line: &str) -> Result<(), Fault> {
    match ipv6_octets(&octets(output.alloc(), line)?) {
        Some(octets) => output.push_octets_line(&octets),
        None => output.push_line("none"),
    }
    Ok(())
}

/// Writes the number of digits, up to a limit, or `none`.
fn push_decimal(output: &mut Output, digits: &[u8], limit: u32) {
    match decimal(digits, limit) {
        Some(number) => output.push_number(u64::from(number)),
        None => output.push("none"),
    }
    output.push("\n");
}

/// Fields with digits and a limit give the number, or `none`.
fn number(output: &mut Output, line: &str) -> Result<(), Fault> {
    let (digits, limit) = split_word(line);
    let limit = number32(limit)?;
    let digits = octets(output.alloc(), digits)?;
    push_decimal(output, &digits, limit);
    Ok(())
}

/// The one octet of a field.
fn one_octet(alloc: Global, field: &str) -> Result<u8, Fault> {
    match octets(alloc, field)?.as_slice() {
        [octet] => Ok(*octet),
        _ => Err(Fault::Form),
    }
}

/// Writes what stands before the first of an octet in a text and what behind, or `none`.
fn push_parts(output: &mut Output, text: &[u8], octet: u8) {
    let (front, back) = next_part(text, octet);
    output.push_octets(front);
    output.push(" ");
    match back {
        Some(back) => output.push_octets_line(back),
        None => output.push_line("none"),
    }
}

/// Fields with a text and an octet give what stands before the first of it and what behind, or
/// `none`.
fn part(output: &mut Output, line: &str) -> Result<(), Fault> {
    let (text, octet) = split_word(line);
    let octet = one_octet(output.alloc(), octet)?;
    let text = octets(output.alloc(), text)?;
    push_parts(output, &text, octet);
    Ok(())
}

/// Writes what follows an octet in front of a text, or `none`.
fn push_behind(output: &mut Output, text: &[u8], octet: u8) {
    match behind_front(text, octet) {
        Some(rest) => output.push_octets_line(rest),
        None => output.push_line("none"),
    }
}

/// Fields with a text and an octet give what follows it in front of the text, or `none`.
fn behind(output: &mut Output, line: &str) -> Result<(), Fault> {
    let (text, octet) = split_word(line);
    let octet = one_octet(output.alloc(), octet)?;
    let text = octets(output.alloc(), text)?;
    push_behind(output, &text, octet);
    Ok(())
}

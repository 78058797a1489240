//! Addresses, and how texts have them (RFC 3261 25.1, RFC 4291 2.2).
ghost use Rattle.std.specs.Prelude.{◌≡◌, ◌∷◌, ◌++◌, ℕ, List, IfSome, IfOk, OnOk, Some};
ghost use Rattle.std.specs.String.{string_bytes};
ghost use Rattle.ip_text.specs.Addresses.{AddressText, V4Text, V6Text};
ghost use Rattle.ip_text.specs.Shown as spec;
ghost use Rattle.ip_text.specs.declared.address.Address.{Address};

use crate::ipv4::ipv4;
use crate::ipv6::ipv6;
use std::alloc::{AllocError, Global};

/// An address without a port.
#[derive(Clone, Copy, Debug, PartialEq, Eq)]
pub enum Address {
    /// An IPv4 address.
    V4([u8; 4]),
    /// An IPv6 address.
    V6([u8; 16]),
}

/// The address of a text: an IPv4 address, or an IPv6 address without brackets.
pub fn address_from_text(text: &str) -> Option<Address>
    // What is read is the address of the text.
    ensures found { IfSome result (λ address. AddressText text.now address) }
    // The address of a text is read.
    ensures read { (address : Address) → AddressText text.now address → result ≡ Some address }
{
    let text = text.as_bytes();
    match ipv4(text) {
        Some(octets) => Some(Address::V4(octets)),
        None => Some(Address::V6(ipv6(text)?)),
    }
}

/// The octets of an IPv4 address: four numbers with dots between them.
pub fn ipv4_octets(text: &[u8]) -> Option<[u8; 4]>
    // What is read is what the text spells.
    ensures found { IfSome result (λ octets. V4Text text.now octets) }
    // What the text spells is read.
    ensures read { (octets : List ℕ) → V4Text text.now octets → result ≡ Some octets }
{
    ipv4(text)
}

/// The octets of an IPv6 address, without brackets.
pub fn ipv6_octets(text: &[u8]) -> Option<[u8; 16]>
    // What is read is what the text spells.
    ensures found { IfSome result (λ octets. V6Text text.now octets) }
    // What the text spells is read.
    ensures read { (octets : List ℕ) → V6Text text.now octets → result ≡ Some octets }
{
    ipv6(text)
}

/// Adds a number in decimal digits, without leading zeros.
fn push_decimal(text: &mut String, number: u8) -> Result<(), AllocError>
    ensures { OnOk result
        (string_bytes text.new ≡ string_bytes text.old ++ spec.decimal_text number) }
{
    if number >= 100 {
        text.push(char::from(b'0' + number / 100))?;
    }
    if number >= 10 {
        text.push(char::from(b'0' + number / 10 % 10))?;
    }
    text.push(char::from(b'0' + number % 10))
}

/// A hexadecimal digit, as a small letter from ten on.
fn hexadecimal_character(number: u16) -> char
    ensures { result ≡ spec.hexadecimal_character number }
{
    let digit = (number % 16) as u8;
    if digit < 10 {
        char::from(b'0' + digit)
    } else {
        char::from(b'a' + digit - 10)
    }
}

/// Adds the last two hexadecimal digits of a number.
fn push_two(text: &mut String, number: u16) -> Result<(), AllocError>
    ensures { OnOk result
        (string_bytes text.new ≡ string_bytes text.old ++ spec.two_digits number) }
{
    text.push(hexadecimal_character(number / 0x10))?;
    text.push(hexadecimal_character(number))
}

/// Adds a number in hexadecimal digits, without leading zeros.
fn push_hexadecimal(text: &mut String, number: u16) -> Result<(), AllocError>
    ensures { OnOk result
        (string_bytes text.new ≡ string_bytes text.old ++ spec.hexadecimal_text number) }
{
    if number < 0x10 {
        return text.push(hexadecimal_character(number));
    }
    if number < 0x100 {
        return push_two(text, number);
    }
    if number < 0x1000 {
        text.push(hexadecimal_character(number / 0x100))?;
    } else {
        push_two(text, number / 0x100)?;
    }
    push_two(text, number)
}

/// Adds a dot and a number.
fn push_dotted(text: &mut String, number: u8) -> Result<(), AllocError>
    ensures { OnOk result
        (string_bytes text.new ≡ string_bytes text.old ++ 46 ∷ spec.decimal_text number) }
{
    text.push('.')?;
    push_decimal(text, number)
}

/// Adds four numbers with dots between them.
fn push_ipv4(text: &mut String, octets: [u8; 4]) -> Result<(), AllocError>
    ensures { OnOk result (string_bytes text.new ≡ string_bytes text.old ++ spec.ipv4_text octets) }
{
    let [first, second, third, fourth] = octets;
    push_decimal(text, first)?;
    push_dotted(text, second)?;
    push_dotted(text, third)?;
    push_dotted(text, fourth)
}

/// Adds groups of two octets with colons between them.
fn push_groups(text: &mut String, octets: &[u8]) -> Result<(), AllocError>
    ensures { OnOk result
        (string_bytes text.new ≡ string_bytes text.old ++ spec.groups_text octets.now) }
{
    let mut rest = octets;
    while let [high, low, others @ ..] = rest {
        push_hexadecimal(text, u16::from(*high) * 256 + u16::from(*low))?;
        if !others.is_empty() {
            text.push(':')?;
        }
        rest = others;
    }
    Ok(())
}

/// The text of an address: four decimal numbers with dots between them, or eight groups with colons
/// between them, in small hexadecimal digits; none with leading zeros, and no group left out.
pub fn address_text(alloc: Global, address: Address) -> Result<String, AllocError>
    ensures { IfOk result (λ text. string_bytes text ≡ spec.address_text address) }
{
    let mut text = String::new(alloc);
    match address {
        Address::V4(octets) => push_ipv4(&mut text, octets)?,
        Address::V6(octets) => push_groups(&mut text, &octets)?,
    }
    Ok(text)
}

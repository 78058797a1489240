//! Records in words, as the files of a zone have them (RFC 1035 5.1).
ghost use Rattle.std.specs.Prelude.{◌≡◌, ◌++◌, OnOk};
ghost use Rattle.std.specs.String.{string_bytes};
ghost use Rattle.dns_name.specs.Texts.{text_of};
ghost use Rattle.sip_report.specs.RecordLines as spec;

use crate::address::{AddressForm, address_words};
use dns_message::{CharString, NaptrRecord, OtherData, Rdata, SoaRecord, SrvRecord};
use dns_name::Name;
use sip_uri::Address;
use std::alloc::{AllocError, Global};

/// Adds a number and a space.
pub fn push_number(alloc: Global, number: u64, words: &mut String) -> Result<(), AllocError>
    ensures { OnOk result (string_bytes words.new
        ≡ string_bytes words.old ++ spec.number_word number) }
{
    words.push_str(&format!(in alloc; "{number} ")?)
}

/// Adds a name.
pub fn push_name(name: &Name, words: &mut String) -> Result<(), AllocError>
    ensures { OnOk result (string_bytes words.new ≡ string_bytes words.old ++ text_of name.now) }
{
    words.push_str(&name.text()?)
}

/// Adds an octet of a character string: itself, or `\` and three decimal digits.
fn push_octet(octet: u8, words: &mut String) -> Result<(), AllocError>
    ensures { OnOk result (string_bytes words.new
        ≡ string_bytes words.old ++ spec.quoted_octet octet) }
{
    if octet >= 32 && octet <= 126 && octet != 34 && octet != 92 {
        return words.push(char::from(octet));
    }
    words.push('\\')?;
    words.push(char::from(b'0' + octet / 100))?;
    words.push(char::from(b'0' + octet / 10 % 10))?;
    words.push(char::from(b'0' + octet % 10))
}

/// Adds octets of a character string, and what stands behind it.
fn push_octets(octets: &[u8], words: &mut String) -> Result<(), AllocError>
    ensures { OnOk result (string_bytes words.new
        ≡ string_bytes words.old ++ spec.quoted_octets octets.now) }
{
    for octet in octets {
        push_octet(*octet, words)?;
    }
    words.push_str("\" ")
}

/// Adds a character string in quotes, and a space.
fn push_string(string: &CharString, words: &mut String) -> Result<(), AllocError>
    ensures { OnOk result (string_bytes words.new
        ≡ string_bytes words.old ++ spec.string_word string.now) }
{
    words.push_str("\"")?;
    push_octets(string.octets(), words)
}

/// Adds the data of a server.
pub fn push_srv(alloc: Global, server: &SrvRecord, words: &mut String) -> Result<(), AllocError>
    ensures { OnOk result (string_bytes words.new
        ≡ string_bytes words.old ++ spec.srv_words server.now) }
{
    push_number(alloc, u64::from(server.priority), words)?;
    push_number(alloc, u64::from(server.weight), words)?;
    push_number(alloc, u64::from(server.port), words)?;
    push_name(&server.target, words)
}

/// Adds the data of a rule.
pub fn push_naptr(alloc: Global, rule: &NaptrRecord, words: &mut String) -> Result<(), AllocError>
    ensures { OnOk result (string_bytes words.new
        ≡ string_bytes words.old ++ spec.naptr_words rule.now) }
{
    push_number(alloc, u64::from(rule.order), words)?;
    push_number(alloc, u64::from(rule.preference), words)?;
    push_string(&rule.flags, words)?;
    push_string(&rule.services, words)?;
    push_string(&rule.regexp, words)?;
    push_name(&rule.replacement, words)
}

/// Adds a name and a space.
pub fn push_name_word(name: &Name, words: &mut String) -> Result<(), AllocError>
    ensures { OnOk result (string_bytes words.new
        ≡ string_bytes words.old ++ spec.name_word name.now) }
{
    push_name(name, words)?;
    words.push_str(" ")
}

/// Adds the times of a start of authority.
fn push_times(alloc: Global, authority: &SoaRecord, words: &mut String) -> Result<(), AllocError>
    ensures { OnOk result (string_bytes words.new
        ≡ string_bytes words.old ++ spec.time_words authority.now) }
{
    push_number(alloc, u64::from(authority.refresh), words)?;
    push_number(alloc, u64::from(authority.retry), words)?;
    push_number(alloc, u64::from(authority.expire), words)?;
    let minimum = authority.minimum;
    words.push_str(&format!(in alloc; "{minimum}")?)
}

/// Adds the data of a start of authority.
fn push_soa(alloc: Global, authority: &SoaRecord, words: &mut String) -> Result<(), AllocError>
    ensures { OnOk result (string_bytes words.new
        ≡ string_bytes words.old ++ spec.soa_words authority.now) }
{
    push_name_word(&authority.mname, words)?;
    push_name_word(&authority.rname, words)?;
    push_number(alloc, u64::from(authority.serial), words)?;
    push_times(alloc, authority, words)
}

/// Adds the class and type of other data, and how many octets it has.
fn push_other(alloc: Global, other: &OtherData, words: &mut String) -> Result<(), AllocError>
    ensures { OnOk result (string_bytes words.new
        ≡ string_bytes words.old ++ spec.other_words other.now) }
{
    words.push_str("CLASS")?;
    push_number(alloc, u64::from(other.class_number()), words)?;
    words.push_str("TYPE")?;
    push_number(alloc, u64::from(other.type_number()), words)?;
    push_number(alloc, other.octets().len() as u64, words)?;
    words.push_str("octets")
}

/// Adds an address.
fn push_address(
    alloc: Global,
    form: AddressForm,
    address: Address,
    words: &mut String,
) -> Result<(), AllocError>
    ensures { OnOk result (string_bytes words.new
        ≡ string_bytes words.old ++ spec.typed_address form address) }
{
    words.push_str(match address {
        Address::V4(_) => "A ",
        Address::V6(_) => "AAAA ",
    })?;
    words.push_str(&address_words(alloc, form, address)?)
}

/// Adds data, with its type.
pub fn push_rdata(
    alloc: Global,
    form: AddressForm,
    rdata: &Rdata,
    words: &mut String,
) -> Result<(), AllocError>
    ensures { OnOk result (string_bytes words.new
        ≡ string_bytes words.old ++ spec.rdata_words form rdata.now) }
{
    match rdata {
        Rdata::Addr4(octets) => push_address(alloc, form, Address::V4(*octets), words),
        Rdata::Addr6(octets) => push_address(alloc, form, Address::V6(*octets), words),
        Rdata::Srv(server) => {
            words.push_str("SRV ")?;
            push_srv(alloc, server, words)
        }
        Rdata::Naptr(rule) => {
            words.push_str("NAPTR ")?;
            push_naptr(alloc, rule, words)
        }
        Rdata::Cname(name) => {
            words.push_str("CNAME ")?;
            push_name(name, words)
        }
        Rdata::Soa(authority) => {
            words.push_str("SOA ")?;
            push_soa(alloc, authority, words)
        }
        Rdata::Other(other) => push_other(alloc, other, words),
    }
}

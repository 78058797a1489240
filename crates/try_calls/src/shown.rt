//! Values as text: names, addresses, questions and records as in a zone file.
use dns_message::{Asked, CharString, NaptrRecord, OtherData, Rdata, Record, SoaRecord, SrvRecord};
use dns_name::Name;
use ip_text::{Address, address_text};
use row_fields::Output;
use std::fmt::Debug;

/// Writes the name that a value has in the sources, as that of a refusal.
pub(crate) fn push_debug<T: Debug>(output: &mut Output, value: &T) {
    let alloc = output.alloc();
    output.push_made(format!(in alloc; "{value:?}"));
}

/// The same as a line.
pub(crate) fn push_debug_line<T: Debug>(output: &mut Output, value: &T) {
    push_debug(output, value);
    output.push("\n");
}

/// Writes a name as text.
pub(crate) fn push_name(output: &mut Output, name: &Name) {
    output.push_made(name.text());
}

/// Writes an address, one of IPv6 with all its groups.
pub(crate) fn push_address(output: &mut Output, address: Address) {
    let text = address_text(output.alloc(), address);
    output.push_made(text);
}

/// The word of a type that has one here.
fn type_word(type_number: u16) -> Option<&'static str> {
    match type_number {
        1 => Some("A"),
        5 => Some("CNAME"),
        6 => Some("SOA"),
        28 => Some("AAAA"),
        33 => Some("SRV"),
        35 => Some("NAPTR"),
        _ => None,
    }
}

/// Writes the word of a type, or `TYPE` and its number (RFC 3597 5).
pub(crate) fn push_type(output: &mut Output, type_number: u16) {
    match type_word(type_number) {
        Some(word) => output.push(word),
        None => push_counted(output, "TYPE", type_number),
    }
}

/// Writes a word and a number.
pub(crate) fn push_counted(output: &mut Output, word: &str, number: u16) {
    output.push(word);
    output.push_number(u64::from(number));
}

/// Writes a number and a blank.
pub(crate) fn push_number(output: &mut Output, number: u32) {
    output.push_number(u64::from(number));
    output.push(" ");
}

/// Writes `IN`, or `CLASS` and the number of another class (RFC 3597 5), and a type.
fn push_class_and_type(output: &mut Output, class: u16, type_number: u16) {
    match class {
        1 => output.push("IN"),
        _ => push_counted(output, "CLASS", class),
    }
    output.push(" ");
    push_type(output, type_number);
}

/// Writes a question of a message: its name, class and type.
pub(crate) fn push_asked(output: &mut Output, asked: &Asked) {
    push_name(output, &asked.name);
    output.push(" ");
    push_class_and_type(output, asked.class_number, asked.type_number);
}

/// Writes an octet of a string between quotes (RFC 1035 5.1).
fn push_string_octet(output: &mut Output, octet: u8) {
    let alloc = output.alloc();
    match octet {
        b'"' => output.push("\\\""),
        b'\\' => output.push("\\\\"),
        b' '..=b'~' => output.push_char(char::from(octet)),
        _ => output.push_made(format!(in alloc; "\\{octet:03}")),
    }
}

/// Writes a character string between quotes.
fn push_string(output: &mut Output, string: &CharString) {
    output.push("\"");
    for octet in string.octets() {
        push_string_octet(output, *octet);
    }
    output.push("\" ");
}

/// Writes what a server says.
pub(crate) fn push_srv(output: &mut Output, server: &SrvRecord) {
    push_number(output, u32::from(server.priority));
    push_number(output, u32::from(server.weight));
    push_number(output, u32::from(server.port));
    push_name(output, &server.target);
}

/// Writes addresses of IPv4, each between two texts.
pub(crate) fn push_v4(output: &mut Output, before: &str, addresses: &[[u8; 4]], behind: &str) {
    for octets in addresses {
        output.push(before);
        push_address(output, Address::V4(*octets));
        output.push(behind);
    }
}

/// Writes addresses of IPv6, each between two texts.
pub(crate) fn push_v6(output: &mut Output, before: &str, addresses: &[[u8; 16]], behind: &str) {
    for octets in addresses {
        output.push(before);
        push_address(output, Address::V6(*octets));
        output.push(behind);
    }
}

/// Writes servers, each between two texts.
pub(crate) fn push_servers(output: &mut Output, before: &str, servers: &[SrvRecord], behind: &str) {
    for server in servers {
        output.push(before);
        push_srv(output, server);
        output.push(behind);
    }
}

/// Writes what a rule says.
pub(crate) fn push_naptr(output: &mut Output, rule: &NaptrRecord) {
    push_number(output, u32::from(rule.order));
    push_number(output, u32::from(rule.preference));
    push_string(output, &rule.flags);
    push_string(output, &rule.services);
    push_string(output, &rule.regexp);
    push_name(output, &rule.replacement);
}

/// Writes what the start of a zone says.
fn push_soa(output: &mut Output, start: &SoaRecord) {
    push_name(output, &start.mname);
    output.push(" ");
    push_name(output, &start.rname);
    output.push(" ");
    push_number(output, start.serial);
    push_number(output, start.refresh);
    push_number(output, start.retry);
    push_number(output, start.expire);
    output.push_number(u64::from(start.minimum));
}

/// Writes other data: its length, and its octets by hexadecimal digits (RFC 3597 5).
fn push_other(output: &mut Output, other: &OtherData) {
    let octets = other.octets();
    output.push("\\# ");
    output.push_length(octets.len());
    if !octets.is_empty() {
        output.push(" ");
    }
    for octet in octets {
        output.push_hexadecimal(*octet);
    }
}

/// Writes the class, the type and the data of a record.
pub(crate) fn push_rdata(output: &mut Output, data: &Rdata) {
    push_class_and_type(output, data.class_number(), data.type_number());
    output.push(" ");
    match data {
        Rdata::Addr4(octets) => push_address(output, Address::V4(*octets)),
        Rdata::Addr6(octets) => push_address(output, Address::V6(*octets)),
        Rdata::Srv(server) => push_srv(output, server),
        Rdata::Naptr(rule) => push_naptr(output, rule),
        Rdata::Cname(name) => push_name(output, name),
        Rdata::Soa(start) => push_soa(output, start),
        Rdata::Other(other) => push_other(output, other),
    }
}

/// Writes a record: its owner, its TTL, its class, its type and its data.
pub(crate) fn push_record(output: &mut Output, entry: &Record) {
    push_name(output, &entry.owner);
    output.push(" ");
    push_number(output, entry.ttl);
    push_rdata(output, &entry.rdata);
}

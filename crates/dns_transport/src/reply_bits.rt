//! What the header of a reply says (RFC 1035 4.1.1), and its OPT record (RFC 6891 6.1.3).
ghost use Rattle.std.specs.Prelude.{◌≡◌, ◌↔◌, ◌/◌, ◌%◌, ◌^◌, IfOk, IsTrue, slice_get};
ghost use Rattle.std.specs.List.{list_any, position};
ghost use Rattle.std.specs.Option.{unwrap_or};
ghost use Rattle.dns_transport.specs.ReplyBits as spec;

use dns_message::{Record, law_one_message_in_front, message_in};
use std::alloc::{AllocError, Global};

/// The octets of a header.
const HEADER_LENGTH: usize = 12;

/// The RCODE of a server that can't read a query.
const FORMAT_ERROR: u8 = 1;

/// The RCODE of a server that can't answer.
const SERVER_FAILURE: u8 = 2;

/// The RCODE of a server that has no such kind of query.
const NOT_IMPLEMENTED: u8 = 4;

/// The RCODE of a server that won't answer.
const REFUSED: u8 = 5;

/// The number of the type OPT.
const TYPE_OPT: u16 = 41;

/// Whether a message has a header, and QR is set in it.
fn is_reply(message: &[u8]) -> bool
    ensures { result ≡ spec.is_reply message.now }
{
    message.len() >= HEADER_LENGTH && message[2] >= 128
}

/// Whether a message is a reply with this RCODE in its header.
fn has_rcode(message: &[u8], rcode: u8) -> bool
    ensures { result ≡ spec.has_rcode rcode message.now }
{
    is_reply(message) && message[3] % 16 == rcode
}

/// Whether a message is a reply that was cut.
pub(crate) fn is_cut(message: &[u8]) -> bool
    ensures { result ≡ spec.is_cut message.now }
{
    is_reply(message) && message[2] / 2 % 2 == 1
}

/// Whether a message is a reply that another server may better: its server does not take the query,
/// or can't or won't answer.
pub(crate) fn tells_failure(message: &[u8]) -> bool
    ensures { result ≡ spec.tells_failure message.now }
{
    has_rcode(message, FORMAT_ERROR)
        || has_rcode(message, SERVER_FAILURE)
        || has_rcode(message, NOT_IMPLEMENTED)
        || has_rcode(message, REFUSED)
}

/// Whether the number of the type CNAME and that of the class IN stand in octets, one behind the
/// other, as they do in each CNAME record (RFC 1035 3.2.1).
fn has_cname_type(octets: &[u8]) -> bool {
    'places: for at in 0..octets.len() {
        if let [0, 5, 0, 1, ..] = &octets[at..] {
            return true;
        }
    }
    false
}

/// Whether a message may have a CNAME record that answers: its header counts answers (RFC 1035
/// 4.1.1), and the type of one stands in it.
pub(crate) fn may_have_cname(message: &[u8]) -> bool {
    match message {
        [_, _, _, _, _, _, 0, 0, ..] => false,
        _ => has_cname_type(message),
    }
}

/// Whether a record is an OPT record.
fn is_opt(entry: &Record) -> bool
    ensures { result ≡ spec.is_opt entry.now }
{
    entry.rdata.type_number() == TYPE_OPT
}

/// Whether a record is an OPT record that has upper bits of RCODE.
fn has_upper_bits(entry: &Record) -> bool
    ensures { result ≡ spec.has_upper_bits entry.now }
{
    is_opt(entry) && entry.ttl >= 1 << 24
}

/// Whether one of these records does.
fn have_upper_bits(entries: &[Record]) -> bool
    ensures { result ≡ list_any spec.has_upper_bits entries.now }
{
    entries.iter().any(has_upper_bits)
}

/// Whether the RCODE of a message has more bits than its header holds.
fn has_long_rcode(alloc: Global, message: &[u8]) -> Result<bool, AllocError>
    ensures { IfOk result (λ is. IsTrue is ↔ spec.HasLongRcode message.now) }
{
    law_one_message_in_front();
    match message_in(alloc, message)? {
        Some(message) => Ok(have_upper_bits(message.additional.as_slice())),
        None => Ok(false),
    }
}

/// Whether a message is a reply of a server that does not take EDNS as it was asked for.
pub(crate) fn refuses_edns(alloc: Global, message: &[u8]) -> Result<bool, AllocError>
    ensures { IfOk result (λ is. IsTrue is ↔ spec.RefusesEdns message.now) }
{
    if has_rcode(message, FORMAT_ERROR) || has_rcode(message, NOT_IMPLEMENTED) {
        return Ok(true);
    }
    Ok(is_reply(message) && has_long_rcode(alloc, message)?)
}

/// The upper bits of RCODE in the TTL of an OPT record.
fn upper_bits_in(ttl: u32) -> u8
    ensures { result ≡ ttl / 2 ^ 24 }
{
    ttl.to_be_bytes()[0]
}

/// The place of the first OPT record.
fn opt_place(entries: &[Record]) -> Option<usize>
    ensures { result ≡ position spec.is_opt entries.now }
{
    entries.iter().position(is_opt)
}

/// The upper bits of RCODE that the first OPT record of these has; none where there is none.
fn upper_bits(entries: &[Record]) -> u8
    ensures { result ≡ spec.upper_bits entries.now }
{
    match opt_place(entries) {
        Some(at) => upper_bits_in(entries[at].ttl),
        None => 0,
    }
}

/// The upper bits of the RCODE of a message.
fn upper_bits_of(alloc: Global, message: &[u8]) -> Result<u8, AllocError>
    ensures { IfOk result (spec.AreUpperBits message.now) }
{
    law_one_message_in_front();
    match message_in(alloc, message)? {
        Some(message) => Ok(upper_bits(message.additional.as_slice())),
        None => Ok(0),
    }
}

/// The lower bits of the RCODE of a message; none where it has no fourth octet.
fn lower_bits_of(message: &[u8]) -> u8
    ensures { result ≡ unwrap_or (slice_get message.now 3) 0 % 16 }
{
    match message {
        [_, _, _, octet, ..] => octet % 16,
        _ => 0,
    }
}

/// The RCODE of a message, with its upper bits.
pub(crate) fn rcode_of(alloc: Global, message: &[u8]) -> Result<u16, AllocError>
    ensures { IfOk result (spec.IsRcode message.now) }
{
    let upper = upper_bits_of(alloc, message)?;
    Ok(u16::from(upper) * 16 + u16::from(lower_bits_of(message)))
}

//! What a word of a resolver file says.
ghost use Rattle.std.specs.Prelude.{◌≡◌};
ghost use Rattle.std.specs.Char.{is_ascii_digit};
ghost use Rattle.std.specs.List.{list_all};
ghost use Rattle.resolver_file.specs.ResolverLines as spec;
ghost use Rattle.resolver_file.specs.declared.resolver_fact.Fact.{Fact};

use crate::warning::LineFault;
use sip_uri::{Address, address_from_text, decimal};
use std::str;

/// The most seconds that a reply is waited for.
const TIMEOUT_LIMIT: u32 = 30;

/// How often a question is sent to a server at most.
const ATTEMPTS_LIMIT: u32 = 5;

/// What a word says.
#[derive(Clone, Copy, Debug, PartialEq, Eq)]
pub(crate) enum Fact {
    /// There is a name server of this address.
    Server(Address),
    /// A reply is waited for so many seconds.
    Timeout(u32),
    /// A question is sent so often to each server.
    Attempts(u32),
    /// Questions go over TCP alone.
    OverTcp,
    /// Each question begins with the next server.
    Rotate,
    /// It can't be read.
    Fault(LineFault),
}

/// The address of a word.
fn address_of(word: &[u8]) -> Option<Address>
    ensures { spec.ReadsAddress word.now result }
{
    match str::from_utf8(word) {
        Ok(text) => address_from_text(text),
        Err(_) => None,
    }
}

/// What a word behind `nameserver` says.
pub(crate) fn server_fact(word: &[u8]) -> Fact
    ensures said { spec.ServerSays word.now result }
    ensures only { (fact : Fact) → spec.ServerSays word.now fact → fact ≡ result }
{
    match address_of(word) {
        Some(address) => Fact::Server(address),
        None if word.contains(&b'%') => Fact::Fault(LineFault::ScopedAddress),
        None => Fact::Fault(LineFault::BadAddress),
    }
}

/// Whether all octets are decimal digits.
fn are_digits(text: &[u8]) -> bool
    ensures { result ≡ list_all is_ascii_digit text.now }
{
    text.iter().all(|octet| octet.is_ascii_digit())
}

/// The number of decimal digits, at least 1 and at most the limit.
fn capped(limit: u32, text: &[u8]) -> Option<u32>
    ensures { result ≡ spec.capped limit text.now }
{
    if text.is_empty() || !are_digits(text) {
        return None;
    }
    let number = decimal(text, limit).unwrap_or(limit);
    Some(number.max(1))
}

/// What an option says.
pub(crate) fn option_fact(word: &[u8]) -> Option<Fact>
    ensures { result ≡ spec.option_fact word.now }
{
    if let Some(text) = word.strip_prefix(b"timeout:") {
        return match capped(TIMEOUT_LIMIT, text) {
            Some(seconds) => Some(Fact::Timeout(seconds)),
            None => Some(Fact::Fault(LineFault::BadNumber)),
        };
    }
    if let Some(text) = word.strip_prefix(b"attempts:") {
        return match capped(ATTEMPTS_LIMIT, text) {
            Some(count) => Some(Fact::Attempts(count)),
            None => Some(Fact::Fault(LineFault::BadNumber)),
        };
    }
    if word == b"use-vc".as_slice() {
        return Some(Fact::OverTcp);
    }
    if word == b"rotate".as_slice() {
        return Some(Fact::Rotate);
    }
    None
}

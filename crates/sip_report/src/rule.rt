//! Which rule of RFC 3263 asks a question.
ghost use Rattle.std.specs.Prelude.{◌≡◌, ◌<◌, IfOk, MatchOption, length};
ghost use Rattle.std.specs.List.{before_first, position_or_len};
ghost use Rattle.std.specs.String.{string_bytes};
ghost use Rattle.sip_report.specs.Rules as spec;

use dns_message::Asked;
use std::alloc::{AllocError, Global};

/// What stands before the first colon of a text.
fn before_colon(text: &str) -> Option<&str>
    ensures { MatchOption result (position_or_len spec.is_colon text.now ≡ length text.now)
        (λ word. (word.now ≡ before_first spec.is_colon text.now)
        × (position_or_len spec.is_colon text.now < length text.now)) }
{
    let (word, _) = text.split_once(':')?;
    Some(word)
}

/// Whether a word is `via`, in letters of any case.
fn is_via_word(word: &str) -> bool
    ensures { result ≡ spec.is_via_word word.now }
{
    word.eq_ignore_ascii_case("via")
}

/// Whether a text is that of a Via.
pub fn is_via(text: &str) -> bool
    ensures { result ≡ spec.is_via text.now }
{
    match before_colon(text) {
        Some(word) => is_via_word(word),
        None => false,
    }
}

/// The section that says where a response goes, or a request.
fn section_word(via: bool) -> &'static str
    ensures { result.now ≡ spec.section_word via }
{
    if via { "5" } else { "4.2" }
}

/// Whether this stands in front of a name.
fn stands_in_front(front: &str, name: &str) -> bool
    ensures { result ≡ spec.stands_in_front front.now name.now }
{
    name.as_bytes().starts_with(front.as_bytes())
}

/// Whose servers are asked for.
fn servers_word(name: &str) -> &'static str
    ensures { result.now ≡ spec.servers_word name.now }
{
    if stands_in_front("_sip._udp.", name) {
        "servers for udp"
    } else if stands_in_front("_sip._tcp.", name) {
        "servers for tcp"
    } else if stands_in_front("_sip._sctp.", name) {
        "servers for sctp"
    } else if stands_in_front("_sips._tcp.", name) {
        "servers for tls"
    } else {
        "servers"
    }
}

/// The rule, where it says where a request or a response goes.
pub fn place_rule(alloc: Global, via: bool, wanted: &str) -> Result<String, AllocError>
    ensures { IfOk result (λ words. string_bytes words ≡ spec.place_rule via wanted.now) }
{
    let mut words = String::from_str(alloc, wanted)?;
    words.push_str(", RFC 3263 ")?;
    words.push_str(section_word(via))?;
    Ok(words)
}

/// The rule that asks for records of this type, for a URI or a Via.
fn rule_words(alloc: Global, via: bool, type_number: u16, name: &str) -> Result<String, AllocError>
    ensures { IfOk result (λ words. string_bytes words ≡ spec.rule_words via type_number name.now) }
{
    match type_number {
        35 => String::from_str(alloc, "services, RFC 3263 4.1"),
        33 => place_rule(alloc, via, servers_word(name)),
        1 | 28 => place_rule(alloc, via, "addresses"),
        _ => place_rule(alloc, via, "records"),
    }
}

/// The rule of RFC 3263 that asks a question, for a URI or a Via.
pub fn rule_of(alloc: Global, via: bool, asked: &Asked) -> Result<String, AllocError>
    ensures { IfOk result (λ words. string_bytes words ≡ spec.rule_of via asked.now) }
{
    let name = asked.name.text()?;
    rule_words(alloc, via, asked.type_number, &name)
}

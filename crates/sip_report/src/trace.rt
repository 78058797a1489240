//! The lines of what went over the wire.
ghost use Rattle.std.specs.Prelude.{◌≡◌, ◌++◌, IfOk, OnOk};
ghost use Rattle.std.specs.List.{flat_map};
ghost use Rattle.std.specs.String.{string_bytes};
ghost use Rattle.sip_report.specs.Traces as spec;

use crate::address::AddressForm;
use crate::record_lines::push_message;
use crate::record_words::push_name;
use crate::rule::rule_of;
use dns_message::{Asked, Message};
use dns_transport::{TryRoute, WireReply, WireTry};
use std::alloc::{AllocError, Global};
use std::time::Duration;

/// The word of a type of records (RFC 1035 3.2.2, 3596 2.1, 2782, 3403 4.1); for others RFC 3597 5.
fn type_word(alloc: Global, type_number: u16) -> Result<String, AllocError>
    ensures { IfOk result (λ word. string_bytes word ≡ spec.type_word type_number) }
{
    match type_number {
        1 => String::from_str(alloc, "A"),
        28 => String::from_str(alloc, "AAAA"),
        33 => String::from_str(alloc, "SRV"),
        35 => String::from_str(alloc, "NAPTR"),
        _ => format!(in alloc; "TYPE{type_number}"),
    }
}

/// What is asked, and by which rule.
fn asked_words(alloc: Global, via: bool, asked: &Asked) -> Result<String, AllocError>
    ensures { IfOk result (λ words. string_bytes words ≡ spec.asked_words via asked.now) }
{
    let mut words = type_word(alloc, asked.type_number)?;
    words.push_str(" ")?;
    push_name(&asked.name, &mut words)?;
    words.push_str(" (")?;
    words.push_str(&rule_of(alloc, via, asked)?)?;
    words.push_str(")")?;
    Ok(words)
}

/// How a query went.
fn route_words(alloc: Global, route: TryRoute) -> Result<String, AllocError>
    ensures { IfOk result (λ words. string_bytes words ≡ spec.route_words route) }
{
    let server = route.server;
    let mut words = format!(in alloc; "{server}")?;
    words.push_str(if route.over_tcp { " tcp" } else { " udp" })?;
    words.push_str(if route.has_edns { " edns" } else { "" })?;
    Ok(words)
}

/// How many milliseconds there are from a time to a later one.
fn milliseconds(from: Duration, until: Duration) -> u128
    ensures { result ≡ spec.milliseconds from until }
{
    until.saturating_sub(from).as_millis()
}

/// What came back, and after how many milliseconds.
fn came_words(alloc: Global, sent_at: Duration, reply: &WireReply) -> Result<String, AllocError>
    ensures { IfOk result (λ words. string_bytes words ≡ spec.came_words sent_at reply.now) }
{
    let rcode = reply.rcode;
    let octets = reply.octets;
    let time = milliseconds(sent_at, reply.came_at);
    let mut words = format!(in alloc; "rcode {rcode}, ")?;
    words.push_str(&format!(in alloc; "{octets} octets, ")?)?;
    words.push_str(&format!(in alloc; "{time} ms")?)?;
    Ok(words)
}

/// What came back, if anything did.
fn reply_words(
    alloc: Global,
    sent_at: Duration,
    reply: &Option<WireReply>,
) -> Result<String, AllocError>
    ensures { IfOk result (λ words. string_bytes words ≡ spec.reply_words sent_at reply.now) }
{
    match reply {
        None => String::from_str(alloc, "no reply"),
        Some(reply) => came_words(alloc, sent_at, reply),
    }
}

/// What is asked, if anything is.
fn question_words(alloc: Global, via: bool, asked: &Option<Asked>) -> Result<String, AllocError>
    ensures { IfOk result (λ words. string_bytes words ≡ spec.question_words via asked.now) }
{
    match asked {
        Some(asked) => asked_words(alloc, via, asked),
        None => String::from_str(alloc, "nothing"),
    }
}

/// What stands in front of the reply: what was asked, how it went, and its id.
fn sent_words(alloc: Global, via: bool, one: &WireTry) -> Result<String, AllocError>
    ensures { IfOk result (λ words. string_bytes words ≡ spec.sent_words via one.now) }
{
    let id = one.id;
    let mut words = question_words(alloc, via, &one.asked)?;
    words.push_str(" to ")?;
    words.push_str(&route_words(alloc, one.route)?)?;
    words.push_str(&format!(in alloc; " id {id}")?)?;
    Ok(words)
}

/// The line of a query that went out.
fn trace_line(alloc: Global, via: bool, one: &WireTry) -> Result<String, AllocError>
    ensures { IfOk result (λ line. string_bytes line ≡ spec.trace_line via one.now) }
{
    let mut line = String::from_str(alloc, "; ")?;
    line.push_str(&sent_words(alloc, via, one)?)?;
    line.push_str(": ")?;
    line.push_str(&reply_words(alloc, one.sent_at, &one.reply)?)?;
    line.push_str("\n")?;
    Ok(line)
}

/// Adds the lines of the message that came back to what was asked.
fn push_lines_in(
    alloc: Global,
    form: AddressForm,
    asked: &Option<Asked>,
    message: &Option<Message>,
    lines: &mut String,
) -> Result<(), AllocError>
    ensures { OnOk result (string_bytes lines.new
        ≡ string_bytes lines.old ++ spec.lines_in form asked.now message.now) }
{
    match (asked, message) {
        (Some(asked), Some(message)) => push_message(alloc, form, asked, message, lines),
        _ => Ok(()),
    }
}

/// Adds the lines of what came back, if anything did.
fn push_reply(
    alloc: Global,
    form: AddressForm,
    one: &WireTry,
    lines: &mut String,
) -> Result<(), AllocError>
    ensures { OnOk result (string_bytes lines.new
        ≡ string_bytes lines.old ++ spec.reply_lines form one.now.asked one.now.reply) }
{
    match &one.reply {
        Some(reply) => push_lines_in(alloc, form, &one.asked, &reply.message, lines),
        None => Ok(()),
    }
}

/// Adds the lines of a query that went out, and of what came back.
fn push_try(
    alloc: Global,
    form: AddressForm,
    via: bool,
    one: &WireTry,
    lines: &mut String,
) -> Result<(), AllocError>
    ensures { OnOk result (string_bytes lines.new
        ≡ string_bytes lines.old ++ spec.try_lines form via one.now) }
{
    lines.push_str(&trace_line(alloc, via, one)?)?;
    push_reply(alloc, form, one, lines)
}

/// The lines of queries that went out for a URI or a Via, each with what came back.
pub fn trace_lines(
    alloc: Global,
    form: AddressForm,
    via: bool,
    tries: &[WireTry],
) -> Result<String, AllocError>
    ensures { IfOk result (λ lines.
        string_bytes lines ≡ flat_map (spec.try_lines form via) tries.now) }
{
    let mut lines = String::new(alloc);
    'tries: for one in tries {
        push_try(alloc, form, via, one, &mut lines)?;
    }
    Ok(lines)
}

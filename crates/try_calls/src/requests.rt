//! Requests of a row, and what is next for them.
//!
//! `sip:b.example udp,tcp v4 2 1` is a request, the caller's transports in order of preference, its
//! families of addresses (`v4`, `v6`, `v4-v6` or `v6-v4`), and random words, which go on with 0.
ghost use Rattle.std.specs.Prelude.{IfOk};
ghost use Rattle.sip_selection.specs.Requests.{IsRequestView};

use crate::fields::{Part, parts};
use crate::replies::push_question;
use crate::shown::{push_address, push_debug_line};
use dns_message::Question;
use row_fields::{Fault, Output, count, number16, number64, split_word, text};
use sip_selection::{Caps, Families, Next, Reason, Request, RequestView, Target};
use sip_uri::{Transport, read_uri, read_via, view_uri, view_via};
use srv_choice::{WORD_COUNT, Words};
use std::alloc::Global;

/// A request, what its sender can do, and random words.
#[derive(Drop)]
pub(crate) struct Sending {
    pub(crate) request: Request,
    pub(crate) caps: Caps,
    pub(crate) words: Words,
}

/// The Via of a text.
pub(crate) fn via(alloc: Global, text: &str) -> Result<Request, Fault> {
    match read_via(alloc, text) {
        Ok(via) => Ok(Request::Via(via)),
        Err(_) => Err(Fault::Form),
    }
}

/// The URI of a text.
pub(crate) fn uri(alloc: Global, text: &str) -> Result<Request, Fault> {
    match read_uri(alloc, text) {
        Ok(uri) => Ok(Request::Uri(uri)),
        Err(_) => Err(Fault::Form),
    }
}

/// The URI or Via of a field.
fn request(alloc: Global, field: &str) -> Result<Request, Fault> {
    let text = text(alloc, field)?;
    if text.starts_with("SIP/") {
        via(alloc, &text)
    } else {
        uri(alloc, &text)
    }
}

/// The view of a request of a text.
pub(crate) fn view(text: &[u8]) -> Result<RequestView<'_>, Fault>
    ensures { IfOk result IsRequestView }
{
    if text.starts_with(b"SIP/") {
        match view_via(text) {
            Ok(parts) => Ok(RequestView::Via(parts)),
            Err(_) => Err(Fault::Form),
        }
    } else {
        match view_uri(text) {
            Ok(parts) => Ok(RequestView::Uri(parts)),
            Err(_) => Err(Fault::Form),
        }
    }
}

impl Part for Transport {
    /// The transport of a word.
    fn read(_alloc: Global, part: &str) -> Result<Transport, Fault> {
        transport(part)
    }
}

/// A transport.
pub(crate) fn transport(word: &str) -> Result<Transport, Fault> {
    match word {
        "udp" => Ok(Transport::Udp),
        "tcp" => Ok(Transport::Tcp),
        "sctp" => Ok(Transport::Sctp),
        "tls" => Ok(Transport::Tls),
        _ => Err(Fault::Form),
    }
}

/// The word of a transport.
pub(crate) fn transport_word(transport: Transport) -> &'static str {
    match transport {
        Transport::Udp => "udp",
        Transport::Tcp => "tcp",
        Transport::Sctp => "sctp",
        Transport::Tls => "tls",
    }
}

/// Transports, of which a comma parts two; `none` where there are none.
fn transports(alloc: Global, field: &str) -> Result<Vec<Transport>, Fault> {
    if field == "none" {
        return Ok(Vec::new(alloc));
    }
    parts(alloc, field, ",")
}

/// Families of addresses.
fn families(field: &str) -> Result<Families, Fault> {
    match field {
        "v4" => Ok(Families::V4),
        "v6" => Ok(Families::V6),
        "v4-v6" => Ok(Families::V4ThenV6),
        "v6-v4" => Ok(Families::V6ThenV4),
        _ => Err(Fault::Form),
    }
}

/// What a caller can do for a request of a length, with the path's MTU behind a slash where that is
/// known.
fn caps_for_length(caps: &Caps, field: &str) -> Result<Option<Caps>, Fault> {
    match field.split_once('/') {
        Some((octets, mtu)) => Ok(caps.for_length(count(octets)?, Some(number16(mtu)?))),
        None => Ok(caps.for_length(count(field)?, None)),
    }
}

/// What a caller can do that has these transports and families, if there is such a caller. Behind a
/// slash stands the length of its request, where that is given.
fn caps_of(
    alloc: Global,
    transport_field: &str,
    families: Families,
) -> Result<Option<Caps>, Fault> {
    let Some((transport_field, length)) = transport_field.split_once('/') else {
        return Ok(Caps::new(&transports(alloc, transport_field)?, families));
    };
    match Caps::new(&transports(alloc, transport_field)?, families) {
        Some(caps) => caps_for_length(&caps, length),
        None => Ok(None),
    }
}

/// The same, where behind the families `/fixed` stands if the caller wants one fixed order.
pub(crate) fn caps(
    alloc: Global,
    transport_field: &str,
    family_field: &str,
) -> Result<Option<Caps>, Fault> {
    match family_field.strip_suffix("/fixed") {
        Some(family_field) => {
            let caps = caps_of(alloc, transport_field, families(family_field)?)?;
            Ok(caps.map(Caps::with_fixed_order))
        }
        None => caps_of(alloc, transport_field, families(family_field)?),
    }
}

/// These words from an index on; other words are 0.
pub(crate) fn words_from(from: usize, fields: &str) -> Result<Words, Fault> {
    let mut all = [0; WORD_COUNT];
    if fields.is_empty() {
        return Ok(Words(all));
    }
    for (slot, field) in all.iter_mut().skip(from).zip(fields.split(' ')) {
        *slot = number64(field)?;
    }
    Ok(Words(all))
}

/// The request of a line, with what stands behind it.
pub(crate) fn read_sending(alloc: Global, line: &str) -> Result<Sending, Fault> {
    let (request_field, rest) = split_word(line);
    let (transports, rest) = split_word(rest);
    let (families, rest) = split_word(rest);
    let words = words_from(0, rest)?;
    let caps = caps(alloc, transports, families)?.ok_or(Fault::Form)?;
    match request(alloc, request_field) {
        Ok(request) => Ok(Sending {
            request,
            caps,
            words,
        }),
        Err(fault) => Err(fault),
    }
}

/// Writes a target: its transport, its address and its port.
pub(crate) fn push_target(output: &mut Output, target: &Target) {
    output.push(transport_word(target.transport));
    output.push(" ");
    push_address(output, target.address);
    output.push(" ");
    output.push_number(u64::from(target.port));
}

/// Writes a line for each target.
pub(crate) fn push_targets(output: &mut Output, targets: &[Target]) {
    for target in targets {
        push_target(output, target);
        output.push("\n");
    }
}

/// Writes `ask` with a question.
fn push_ask(output: &mut Output, question: &Question) {
    output.push("ask ");
    push_question(output, question);
    output.push("\n");
}

/// Writes `refused` with the reason.
fn push_refused(output: &mut Output, reason: Reason) {
    output.push("refused ");
    push_debug_line(output, &reason);
}

/// Writes what is next: `ask` with a question, a line for each target, or `refused` with the
/// reason.
pub(crate) fn push_next(output: &mut Output, next: Next<'_>) {
    match next {
        Next::Ask(question) => push_ask(output, question),
        Next::Targets(targets) => push_targets(output, targets),
        Next::Refused(reason) => push_refused(output, reason),
    }
}

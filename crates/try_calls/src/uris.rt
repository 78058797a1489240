//! Calls of `sip_uri`.
use crate::routes::via_route;
use crate::shown::{push_address, push_debug_line, push_name};
use row_fields::{Fault, Output, only_line, split_word, text};
use sip_uri::{
    Address, Host, SipUri, Spoken, Transport, UriRefusal, Via, read_uri, read_via, view_uri,
    view_via,
};
use std::alloc::{AllocError, Global};

/// What a call gives for a row's lines.
pub(crate) fn told(output: &mut Output, call: &str, input: &str) -> Result<(), Fault> {
    let line = only_line(input);
    match call {
        "same_uri" => same_uri(output, line),
        _ => {
            let text = text(output.alloc(), line)?;
            told_of_text(output, call, &text)
        }
    }
}

/// What a call gives for the text of a field.
fn told_of_text(output: &mut Output, call: &str, text: &str) -> Result<(), Fault> {
    match call {
        "read_uri" => uri(output, text),
        "read_via" => via(output, text),
        "view_via_route" => via_route(output, text),
        _ => Err(Fault::Call),
    }
}

/// Writes a host.
pub(crate) fn push_host(output: &mut Output, host: &Host) {
    match host {
        Host::V4(octets) => push_address(output, Address::V4(*octets)),
        Host::V6(octets) => push_address(output, Address::V6(*octets)),
        Host::Domain(name) => push_name(output, name),
    }
}

/// The word of a transport that a text names.
pub(crate) fn transport_word(transport: Spoken) -> &'static str {
    match transport {
        Spoken::Known(Transport::Udp) => "UDP",
        Spoken::Known(Transport::Tcp) => "TCP",
        Spoken::Known(Transport::Sctp) => "SCTP",
        Spoken::Known(Transport::Tls) => "TLS",
        Spoken::Other => "other",
    }
}

/// Writes a port, where one is written.
pub(crate) fn push_port(output: &mut Output, port: Option<u16>) {
    if let Some(port) = port {
        output.push(" port ");
        output.push_number(u64::from(port));
    }
}

/// Writes the transport that a URI names, where it names one.
fn push_transport(output: &mut Output, transport: Option<Spoken>) {
    if let Some(transport) = transport {
        output.push(" transport ");
        output.push(transport_word(transport));
    }
}

/// Writes the `maddr` of a URI, where it has one.
fn push_maddr(output: &mut Output, maddr: Option<&Host>) {
    if let Some(maddr) = maddr {
        output.push(" maddr ");
        push_host(output, maddr);
    }
}

/// Writes a URI: its scheme and its host, and what else is written.
fn push_uri(output: &mut Output, uri: &SipUri) {
    output.push(if uri.secure { "sips " } else { "sip " });
    push_host(output, &uri.host);
    push_port(output, uri.port);
    push_transport(output, uri.transport);
    push_maddr(output, uri.maddr.as_ref());
    output.push("\n");
}

/// Writes that a view does not say what was read, where it does not.
fn push_seen(output: &mut Output, is_seen: Result<bool, Fault>) {
    match is_seen {
        Ok(true) => {}
        Ok(false) => output.push("another view "),
        Err(fault) => output.fail(fault),
    }
}

/// Writes the copy of a URI, which has to be equal.
fn push_uri_copy(output: &mut Output, uri: &SipUri, copy: &SipUri) {
    if copy != uri {
        output.push("another ");
    }
    push_uri(output, copy);
}

/// Writes what was read of a text: the copy of a URI, or the refusal.
fn push_uri_read(output: &mut Output, read: &Result<SipUri, UriRefusal>) -> Result<(), Fault> {
    match read {
        Ok(uri) => {
            let copy = uri.try_clone()?;
            push_uri_copy(output, uri, &copy);
            drop(copy);
        }
        Err(refusal) => push_debug_line(output, refusal),
    }
    Ok(())
}

/// Whether what a view means is what was read.
fn is_read<T: PartialEq + Drop>(
    meant: Result<T, AllocError>,
    read: &Result<T, UriRefusal>,
) -> Result<bool, Fault> {
    match meant {
        Ok(meant) => {
            let is_read = matches!(read, Ok(read) if meant == *read);
            drop(meant);
            Ok(is_read)
        }
        Err(_) => Err(Fault::Memory),
    }
}

/// Whether the view of a text means what was read, or has its refusal.
fn is_uri_seen(
    alloc: Global,
    text: &str,
    read: &Result<SipUri, UriRefusal>,
) -> Result<bool, Fault> {
    match view_uri(text.as_bytes()) {
        Ok(parts) => is_read(parts.to_uri(alloc), read),
        Err(refusal) => Ok(matches!(read, Err(other) if *other == refusal)),
    }
}

/// A text gives its URI, or the refusal, which its view has to have too.
fn uri(output: &mut Output, text: &str) -> Result<(), Fault> {
    let read = read_uri(output.alloc(), text);
    push_seen(output, is_uri_seen(output.alloc(), text, &read));
    let done = push_uri_read(output, &read);
    drop(read);
    done
}

/// Writes a Via: its transport and its host, and its port where one is written.
fn push_via(output: &mut Output, via: &Via) {
    output.push(transport_word(via.transport));
    output.push(" ");
    push_host(output, &via.host);
    push_port(output, via.port);
    output.push("\n");
}

/// Writes the copy of a Via, which has to be equal.
fn push_via_copy(output: &mut Output, via: &Via, copy: &Via) {
    if copy != via {
        output.push("another ");
    }
    push_via(output, copy);
}

/// Writes what was read of a text: the copy of a Via, or the refusal.
fn push_via_read(output: &mut Output, read: &Result<Via, UriRefusal>) -> Result<(), Fault> {
    match read {
        Ok(via) => {
            let copy = via.try_clone()?;
            push_via_copy(output, via, &copy);
            drop(copy);
        }
        Err(refusal) => push_debug_line(output, refusal),
    }
    Ok(())
}

/// Whether the view of a text means what was read, or has its refusal.
fn is_via_seen(alloc: Global, text: &str, read: &Result<Via, UriRefusal>) -> Result<bool, Fault> {
    match view_via(text.as_bytes()) {
        Ok(parts) => is_read(parts.to_via(alloc), read),
        Err(refusal) => Ok(matches!(read, Err(other) if *other == refusal)),
    }
}

/// A text gives its Via, or the refusal, which its view has to have too.
fn via(output: &mut Output, text: &str) -> Result<(), Fault> {
    let read = read_via(output.alloc(), text);
    push_seen(output, is_via_seen(output.alloc(), text, &read));
    let done = push_via_read(output, &read);
    drop(read);
    done
}

/// The URI of a field.
fn uri_of(alloc: Global, field: &str) -> Result<SipUri, Fault> {
    let text = text(alloc, field)?;
    match read_uri(alloc, &text) {
        Ok(uri) => Ok(uri),
        Err(_) => Err(Fault::Form),
    }
}

/// Writes whether the URI of a field says the same as another of where a request goes.
fn push_same(output: &mut Output, first: &SipUri, second: &str) {
    match uri_of(output.alloc(), second) {
        Ok(second) => {
            output.push_line(if *first == second { "true" } else { "false" });
            drop(second);
        }
        Err(fault) => output.fail(fault),
    }
}

/// Fields with two URIs give whether they say the same of where a request goes.
fn same_uri(output: &mut Output, line: &str) -> Result<(), Fault> {
    let (first, second) = split_word(line);
    let first = uri_of(output.alloc(), first)?;
    push_same(output, &first, second);
    drop(first);
    Ok(())
}

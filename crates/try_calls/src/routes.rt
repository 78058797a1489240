//! What `sip_uri` reads of where a response goes, and calls of `sip_response`.
use crate::shown::{push_address, push_debug_line};
use crate::uris::{push_port, transport_word};
use row_fields::{Fault, Output, number16, only_line, split_word, text};
use sip_response::{Endpoint, ResponseRoute, Step, response_route, with_source};
use sip_uri::{
    Address, HostPart, RouteParams, Rport, Transport, ViaParts, address_from_text, view_via_route,
};

/// What a call of `sip_response` gives for a row's lines.
pub(crate) fn told(output: &mut Output, call: &str, input: &str) -> Result<(), Fault> {
    let (over, rest) = split_word(only_line(input));
    let over = transport_of(over)?;
    match call {
        "response_route" => route_of_via(output, over, rest),
        "with_source" => answered(output, over, rest),
        _ => Err(Fault::Call),
    }
}

/// The transport of a word.
fn transport_of(word: &str) -> Result<Transport, Fault> {
    match word {
        "UDP" => Ok(Transport::Udp),
        "TCP" => Ok(Transport::Tcp),
        "SCTP" => Ok(Transport::Sctp),
        "TLS" => Ok(Transport::Tls),
        _ => Err(Fault::Form),
    }
}

/// Writes the octets of a name.
fn push_name(output: &mut Output, name: &[u8]) {
    for octet in name {
        output.push_char(char::from(*octet));
    }
}

/// Writes a host.
fn push_host(output: &mut Output, host: HostPart<'_>) {
    match host {
        HostPart::V4(address) => push_address(output, Address::V4(address.octets)),
        HostPart::V6(address) => push_address(output, Address::V6(address.octets)),
        HostPart::Domain(name) => push_name(output, name),
    }
}

/// Writes what `received` says, where it says something.
fn push_received(output: &mut Output, received: Option<Address>) {
    if let Some(address) = received {
        output.push(" received ");
        push_address(output, address);
    }
}

/// Writes what `rport` says, where it is there.
fn push_rport(output: &mut Output, rport: Rport) {
    match rport {
        Rport::Absent => {}
        Rport::Empty => output.push(" rport"),
        Rport::Port(port) => {
            output.push(" rport ");
            output.push_number(u64::from(port));
        }
    }
}

/// Writes a TTL, where there is one.
fn push_ttl(output: &mut Output, ttl: Option<u8>) {
    if let Some(ttl) = ttl {
        output.push(" ttl ");
        output.push_number(u64::from(ttl));
    }
}

/// Writes what `maddr` says, where it says something.
fn push_maddr(output: &mut Output, maddr: Option<HostPart<'_>>) {
    if let Some(host) = maddr {
        output.push(" maddr ");
        push_host(output, host);
    }
}

/// Writes a Via, and what its parameters say of where a response goes.
fn push_via(output: &mut Output, parts: &ViaParts<'_>, params: &RouteParams<'_>) {
    output.push(transport_word(parts.transport));
    output.push(" ");
    push_host(output, parts.host);
    push_port(output, parts.port);
    push_received(output, params.received);
    push_rport(output, params.rport);
    push_maddr(output, params.maddr);
    push_ttl(output, params.ttl);
    output.push("\n");
}

/// A text gives its Via and what its parameters say, or the refusal.
pub(crate) fn via_route(output: &mut Output, text: &str) -> Result<(), Fault> {
    match view_via_route(text.as_bytes()) {
        Ok((parts, params)) => push_via(output, &parts, &params),
        Err(refusal) => push_debug_line(output, &refusal),
    }
    Ok(())
}

/// Writes an address and a port.
fn push_endpoint(output: &mut Output, to: Endpoint) {
    push_address(output, to.address);
    output.push(" ");
    output.push_number(u64::from(to.port));
}

/// Writes what a datagram to a name needs.
fn push_maddr_name(output: &mut Output, name: &[u8], port: u16) {
    output.push("maddr ");
    push_name(output, name);
    output.push(" ");
    output.push_number(u64::from(port));
}

/// Writes one way.
fn push_step(output: &mut Output, step: Step<'_>) {
    match step {
        Step::Connection => output.push("connection"),
        Step::Opened(to) => {
            output.push("opened ");
            push_endpoint(output, to);
        }
        Step::Maddr { to, ttl } => {
            output.push("maddr ");
            push_endpoint(output, to);
            push_ttl(output, ttl);
        }
        Step::MaddrName { name, port } => push_maddr_name(output, name, port),
        Step::Received { to, symmetric } => {
            output.push(if symmetric { "symmetric " } else { "received " });
            push_endpoint(output, to);
        }
        Step::SentBy => output.push("sent-by"),
    }
    output.push("\n");
}

/// Writes the ways of a route, in their order.
fn push_route(output: &mut Output, route: ResponseRoute<'_>) {
    push_step(output, route.first);
    if let Some(step) = route.second {
        push_step(output, step);
    }
    if let Some(step) = route.third {
        push_step(output, step);
    }
}

/// Writes where a response goes by the text of a Via.
fn push_route_of(output: &mut Output, over: Transport, via: &str) {
    match view_via_route(via.as_bytes()) {
        Ok((parts, params)) => push_route(output, response_route(&parts, &params, over)),
        Err(_) => output.fail(Fault::Form),
    }
}

/// Fields with a transport and a Via give where a response goes, a way to a line.
fn route_of_via(output: &mut Output, over: Transport, via: &str) -> Result<(), Fault> {
    let via = text(output.alloc(), via)?;
    push_route_of(output, over, &via);
    Ok(())
}

/// Writes what a server says of a Via, and where the response goes then.
fn push_answered(output: &mut Output, over: Transport, source: Endpoint, via: &str) {
    match view_via_route(via.as_bytes()) {
        Ok((parts, params)) => {
            let params = with_source(&parts, &params, source);
            push_via(output, &parts, &params);
            push_route(output, response_route(&parts, &params, over));
        }
        Err(_) => output.fail(Fault::Form),
    }
}

/// The address of a field.
fn address_of(field: &str) -> Result<Address, Fault> {
    match address_from_text(field) {
        Some(address) => Ok(address),
        None => Err(Fault::Form),
    }
}

/// Fields with a transport, the address and port of a source, and a Via give what its server says
/// of it, and where the response goes then, a way to a line.
fn answered(output: &mut Output, over: Transport, line: &str) -> Result<(), Fault> {
    let (address, rest) = split_word(line);
    let (port, via) = split_word(rest);
    let source = Endpoint {
        address: address_of(address)?,
        port: number16(port)?,
    };
    let via = text(output.alloc(), via)?;
    push_answered(output, over, source, &via);
    Ok(())
}

//! The numbers that stand for choices in C. `wokhleas.h` names them.
ghost use Rattle.std.specs.Prelude.{◌≡◌, ◌≤◌, IfNone, IfSome, List, length, map, take};
ghost use Rattle.sip_resolver.specs.declared.transmit.DnsTransport as over;
ghost use Rattle.sip_selection.specs.declared.caps.Families as families;
ghost use Rattle.sip_uri.specs.declared.transport.Transport as transports;
ghost use Rattle.wokhleas.specs.Numbers as spec;
ghost use Rattle.wokhleas.specs.Told as told;

use sip_resolver::DnsTransport;
use sip_selection::{Caps, Families, Reason};
use sip_uri::Transport;

/// The number of a transport.
pub(crate) fn number_of(transport: Transport) -> u8
    ensures { result ≡ spec.number_of transport }
{
    match transport {
        Transport::Udp => 1,
        Transport::Tcp => 2,
        Transport::Tls => 3,
        Transport::Sctp => 4,
    }
}

/// The transport of a number.
fn transport_of(number: u8) -> Option<Transport>
    ensures is { IfSome result (λ transport. spec.number_of transport ≡ number) }
    ensures none { IfNone result ((it : transports.Transport) → spec.number_of it ≡ number → ⊥) }
{
    match number {
        1 => Some(Transport::Udp),
        2 => Some(Transport::Tcp),
        3 => Some(Transport::Tls),
        4 => Some(Transport::Sctp),
        _ => None,
    }
}

/// The families of a number.
fn families_of(number: u8) -> Option<Families>
    ensures is { IfSome result (λ families. spec.number_of_families families ≡ number) }
    ensures none { IfNone result ((it : families.Families) → spec.number_of_families it ≡ number
        → ⊥) }
{
    match number {
        1 => Some(Families::V4),
        2 => Some(Families::V6),
        3 => Some(Families::V4ThenV6),
        4 => Some(Families::V6ThenV4),
        _ => None,
    }
}

/// What a message goes over, by its number.
pub(crate) fn over_of(number: u8) -> Option<DnsTransport>
    ensures is { IfSome result (λ over. spec.number_of_over over ≡ number) }
    ensures none { IfNone result ((it : over.DnsTransport) → spec.number_of_over it ≡ number → ⊥) }
{
    match number {
        1 => Some(DnsTransport::Datagram),
        2 => Some(DnsTransport::Stream),
        _ => None,
    }
}

/// The number of what a message goes over.
pub(crate) fn number_of_over(over: DnsTransport) -> u8
    ensures { result ≡ spec.number_of_over over }
{
    match over {
        DnsTransport::Datagram => 1,
        DnsTransport::Stream => 2,
    }
}

/// The number of a reason.
pub(crate) fn number_of_reason(reason: Reason) -> u32
    ensures { result ≡ told.number_of_reason reason }
{
    match reason {
        Reason::TransportUnsupported => 1,
        Reason::TransportNotSecure => 2,
        Reason::NotOffered => 3,
        Reason::NoAddress => 4,
    }
}

/// The transports of these numbers, in their order, in front of four.
fn transports_of(numbers: &[u8]) -> Option<[Transport; 4]>
    requires few { length numbers.now ≤ 4 }
    ensures are { IfSome result
        (λ it. map spec.number_of (take (length numbers.now) it) ≡ numbers.now) }
    ensures none { IfNone result ((list : List transports.Transport)
        → map spec.number_of list ≡ numbers.now → ⊥) }
{
    let mut transports = [Transport::Udp; 4];
    for (at, number) in numbers.iter().enumerate() {
        transports[at] = transport_of(*number)?;
    }
    Some(transports)
}

/// What the caller can do, by the numbers of its transports, most wanted first, and of its
/// families.
pub(crate) fn caps_of(transports: &[u8], families: u8) -> Option<Caps>
    ensures are { IfSome result (spec.AreCapsOf transports.now families) }
    ensures none { IfNone result (spec.CannotBe transports.now families) }
{
    let families = families_of(families)?;
    if transports.len() > 4 {
        return None;
    }
    let list = transports_of(transports)?;
    Caps::new(&list[..transports.len()], families)
}

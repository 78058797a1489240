//! Whether the server at one target is there.
use crate::answer::Answer;
use crate::datagrams::ping_by_datagrams;
use crate::sockets::{DatagramFlow, StreamFlow};
use crate::streams::ping_by_stream;
use sip_options::{Address, OptionsRequest, Transport};
use std::alloc::{AllocError, Global};
use std::io::{self, ErrorKind};
use std::net::{IpAddr, Net, SocketAddr};
use std::sync::Wait;
use std::time::Clock;

/// A target, and the request that is sent to it.
#[derive(Clone, Copy, Debug)]
pub struct Probe<'a> {
    /// The address and port of the server.
    pub server: SocketAddr,
    /// The transport that it is asked over.
    pub transport: Transport,
    /// The Request-URI, as `OptionsRequest` has it.
    pub uri: &'a str,
    /// The number of the Via's branch, which is to be random, as the next two.
    pub branch: u64,
    /// The number of the From tag.
    pub from_tag: u64,
    /// The number of the Call-ID.
    pub call_id: u64,
    /// How often the request may be sent on: 0 where the server itself is to answer.
    pub max_forwards: u8,
    /// How long a final reply is waited for, in milliseconds.
    pub deadline: u32,
}

/// An address of a socket.
fn address_of(address: IpAddr) -> Address {
    match address {
        IpAddr::V4(address) => Address::V4(address.octets()),
        IpAddr::V6(address) => Address::V6(address.octets()),
    }
}

impl<'a> Probe<'a> {
    /// The request, as it is sent from a socket of this address and port.
    fn request_from(&self, local: SocketAddr) -> OptionsRequest<'a> {
        OptionsRequest {
            transport: self.transport,
            address: address_of(local.ip()),
            port: local.port(),
            uri: self.uri,
            branch: self.branch,
            from_tag: self.from_tag,
            call_id: self.call_id,
            max_forwards: self.max_forwards,
        }
    }
}

/// What becomes of a request whose flow could not be opened.
fn unopened(kind: ErrorKind) -> Result<Answer, AllocError> {
    match kind {
        ErrorKind::OutOfMemory => Err(AllocError),
        ErrorKind::TimedOut => Ok(Answer::Silent),
        _ => Ok(Answer::Refused),
    }
}

/// Opens a flow over UDP, and tells where it sends from.
fn open_datagrams<'a, R: Net + Clock>(
    rt: &'a R,
    alloc: Global,
    server: SocketAddr,
) -> io::Result<(DatagramFlow<'a, R>, SocketAddr)> {
    let flow = DatagramFlow::open(rt, alloc, server)?;
    let local = flow.local_address()?;
    Ok((flow, local))
}

/// Opens a flow over TCP, and tells where it sends from.
fn open_stream<'a, R: Net + Clock>(
    rt: &'a R,
    server: SocketAddr,
    most: u32,
) -> io::Result<(StreamFlow<'a, R>, SocketAddr)> {
    let flow = StreamFlow::open(rt, server, most)?;
    let local = flow.local_address()?;
    Ok((flow, local))
}

/// Whether a server is there over UDP.
fn ping_udp<R: Net + Clock + Wait>(
    rt: &R,
    alloc: Global,
    probe: &Probe<'_>,
) -> Result<Answer, AllocError> {
    match open_datagrams(rt, alloc, probe.server) {
        Ok((mut flow, local)) => {
            ping_by_datagrams(
                rt,
                alloc,
                &mut flow,
                &probe.request_from(local),
                probe.deadline,
            )
        }
        Err(error) => unopened(error.kind()),
    }
}

/// Whether a server is there over TCP.
fn ping_tcp<R: Net + Clock + Wait>(
    rt: &R,
    alloc: Global,
    probe: &Probe<'_>,
) -> Result<Answer, AllocError> {
    match open_stream(rt, probe.server, probe.deadline) {
        Ok((mut flow, local)) => {
            ping_by_stream(
                rt,
                alloc,
                &mut flow,
                &probe.request_from(local),
                probe.deadline,
            )
        }
        Err(error) => unopened(error.kind()),
    }
}

/// Whether a server is there: sends it the request from a socket of this host, whose address and
/// port stand in Via and Contact, and waits for a final reply until the deadline. Over TCP the
/// connection has to be open by then, too.
pub fn ping<R: Net + Clock + Wait>(
    rt: &R,
    alloc: Global,
    probe: &Probe<'_>,
) -> Result<Answer, AllocError> {
    match probe.transport {
        Transport::Udp => ping_udp(rt, alloc, probe),
        Transport::Tcp => ping_tcp(rt, alloc, probe),
    }
}

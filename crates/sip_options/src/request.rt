//! OPTIONS requests (RFC 3261 7.1, 8.1.1, 11.1).
ghost use Rattle.std.specs.Prelude.{◌≡◌, ◌++◌, ℕ, IfOk, IfSome, Some, codes};
ghost use Rattle.std.specs.Fmt.{decimal};
ghost use Rattle.std.specs.List.{flat_map};
ghost use Rattle.std.specs.String.{string_bytes};
ghost use Rattle.sip_options.specs.Readers.Written.{written};
ghost use Rattle.sip_options.specs.Replies.{IsReply};
ghost use Rattle.sip_options.specs.Requests.{host_text, via_transport, contact_transport, contact_scheme, request_text};

use crate::reply::reply_status;
use crate::tokens::{branch, token};
use crate::transport::Transport;
use crate::words::behind_word;
use ip_text::{Address, address_text};
use std::alloc::{AllocError, Global};

/// An OPTIONS request outside of a dialog, which asks whether a server is there.
///
/// Its numbers are to be random, so that no one can guess them who has not seen the request. A
/// request that is sent again keeps them.
#[derive(Clone, Copy, Debug)]
pub struct OptionsRequest<'a> {
    /// The transport that it is sent over.
    pub transport: Transport,
    /// The address that it is sent from, where the sender can be reached.
    pub address: Address,
    /// The port that it is sent from.
    pub port: u16,
    /// The Request-URI: a SIP or SIPS URI, as `sip_uri` reads it, without headers.
    pub uri: &'a str,
    /// The number of the Via's branch.
    pub branch: u64,
    /// The number of the From tag.
    pub from_tag: u64,
    /// The number of the Call-ID.
    pub call_id: u64,
    /// How often it may be sent on: 70, or 0 where the next server is to answer (RFC 3261 11).
    pub max_forwards: u8,
}

/// An address as a host: one of IPv6 stands in brackets.
fn host(alloc: Global, address: Address) -> Result<String, AllocError>
    ensures { IfOk result (λ text. string_bytes text ≡ host_text address) }
{
    let text = address_text(alloc, address)?;
    match address {
        Address::V4(_) => Ok(text),
        Address::V6(_) => bracketed(alloc, &text),
    }
}

/// A text in brackets.
fn bracketed(alloc: Global, text: &str) -> Result<String, AllocError>
    ensures { IfOk result (λ all. string_bytes all ≡ codes "[" ++ (text.now ++ codes "]")) }
{
    let mut all = String::new(alloc);
    all.push('[')?;
    all.push_str(text)?;
    all.push(']')?;
    Ok(all)
}

/// A number in decimal digits, without leading zeros.
fn decimal(alloc: Global, number: u16) -> Result<String, AllocError>
    ensures { IfOk result (λ text. string_bytes text ≡ decimal number) }
{
    format!(in alloc; "{number}")
}

/// All parts, one after the other.
fn joined(alloc: Global, parts: &[&[u8]]) -> Result<Vec<u8>, AllocError>
    ensures { IfOk result (λ all. all.items ≡ flat_map (λ part. part.now) parts.now) }
{
    let mut all = Vec::new(alloc);
    for part in parts {
        all.extend_from_slice(part)?;
    }
    Ok(all)
}

/// The transport as a Via names it.
fn via_transport(transport: Transport) -> &'static [u8]
    ensures { result.now ≡ via_transport transport }
{
    match transport {
        Transport::Udp => b"UDP",
        Transport::Tcp => b"TCP",
    }
}

/// The parameter that a Contact has for the transport.
fn contact_transport(transport: Transport) -> &'static [u8]
    ensures { result.now ≡ contact_transport transport }
{
    match transport {
        Transport::Udp => b"",
        Transport::Tcp => b";transport=tcp",
    }
}

/// The scheme of the Contact, and the colon: SIPS where the Request-URI is one of SIPS.
fn contact_scheme(uri: &[u8]) -> &'static [u8]
    ensures { result.now ≡ contact_scheme uri.now }
{
    match behind_word(uri, b"sips:") {
        Some(_) => b"sips:",
        None => b"sip:",
    }
}

/// What differs between requests, in octets.
#[derive(Clone, Copy)]
struct Parts<'a> {
    uri: &'a [u8],
    transport: &'a [u8],
    host: &'a [u8],
    port: &'a [u8],
    branch: &'a [u8],
    max_forwards: &'a [u8],
    from_tag: &'a [u8],
    call_id: &'a [u8],
    contact_scheme: &'a [u8],
    contact_transport: &'a [u8],
}

/// The octets of the request that has these parts.
fn written<'a>(alloc: Global, parts: &Parts<'a>) -> Result<Vec<u8>, AllocError>
    ensures { IfOk result (λ octets. octets.items ≡ written parts.now) }
{
    let all: [&'a [u8]; 27] = [
        b"OPTIONS ",
        parts.uri,
        b" SIP/2.0\r\nVia: SIP/2.0/",
        parts.transport,
        b" ",
        parts.host,
        b":",
        parts.port,
        b";branch=",
        parts.branch,
        b";rport\r\nMax-Forwards: ",
        parts.max_forwards,
        b"\r\nFrom: <sip:",
        parts.host,
        b">;tag=",
        parts.from_tag,
        b"\r\nTo: <",
        parts.uri,
        b">\r\nCall-ID: ",
        parts.call_id,
        b"\r\nCSeq: 1 OPTIONS\r\nContact: <",
        parts.contact_scheme,
        parts.host,
        b":",
        parts.port,
        parts.contact_transport,
        b">\r\nAccept: application/sdp\r\nContent-Length: 0\r\n\r\n",
    ];
    joined(alloc, &all)
}

impl OptionsRequest<'_> {
    /// The octets of the request, which has no body.
    pub fn octets(&self, alloc: Global) -> Result<Vec<u8>, AllocError>
        ensures { IfOk result (λ octets. octets.items ≡ request_text self.now) }
    {
        let host = host(alloc, self.address)?;
        let port = decimal(alloc, self.port)?;
        let max_forwards = decimal(alloc, u16::from(self.max_forwards))?;
        let uri = self.uri.as_bytes();
        let parts = Parts {
            uri,
            transport: via_transport(self.transport),
            host: host.as_bytes(),
            port: port.as_bytes(),
            branch: &branch(self.branch),
            max_forwards: max_forwards.as_bytes(),
            from_tag: &token(self.from_tag),
            call_id: &token(self.call_id),
            contact_scheme: contact_scheme(uri),
            contact_transport: contact_transport(self.transport),
        };
        written(alloc, &parts)
    }

    /// The status of a message, where it is a reply to the request, provisional or final: its
    /// first Via has the branch, its only Call-ID and CSeq are those of the request, and its body
    /// has as many octets as Content-Length says (RFC 3261 8.1.3.3, 17.1.3, 18.3). Anything else
    /// has none, and so have more than 65,535 octets.
    pub fn reply_status(&self, message: &[u8]) -> Option<u16>
        // What has a status is a reply.
        ensures found { IfSome result
            (λ status. IsReply self.now.branch self.now.call_id message.now status) }
        // A reply has its status.
        ensures read { (status : ℕ)
            → IsReply self.now.branch self.now.call_id message.now status
            → result ≡ Some status }
    {
        reply_status(message, self.branch, self.call_id)
    }
}

//! Requests, and what they say of where they go (RFC 3263 4, 5).
ghost use Rattle.std.specs.Prelude.{◌≡◌, IfOk, OnErr};
ghost use Rattle.sip_selection.specs.Requests as spec;

use sip_uri::{Host, SipUri, Spoken, Via};
use std::alloc::AllocError;

/// What is located: a request or a response.
#[derive(Debug, PartialEq, Eq, Drop)]
pub enum Request {
    /// A request to this URI.
    Uri(SipUri),
    /// A response to the request with this top Via (RFC 3263 5).
    Via(Via),
}

impl Request {
    /// A copy of the request. Memory is needed for the names of hosts alone.
    pub fn try_clone(&self) -> Result<Request, AllocError>
        ensures copy { IfOk result (λ copy. copy ≡ self.now) }
        ensures memory { OnErr result (spec.IsNamed self.now) }
    {
        Ok(match self {
            Request::Uri(uri) => Request::Uri(uri.try_clone()?),
            Request::Via(via) => Request::Via(via.try_clone()?),
        })
    }

    /// The host whose addresses are needed: of a URI the parameter `maddr`, where there is one (RFC
    /// 3263 4).
    pub fn target(&self) -> &Host
        ensures { result.now ≡ spec.target_of self.now }
    {
        match self {
            Request::Uri(uri) => uri.maddr.as_ref().unwrap_or(&uri.host),
            Request::Via(via) => &via.host,
        }
    }

    /// The port that the request writes, if it writes one.
    pub fn port(&self) -> Option<u16>
        ensures { result ≡ spec.port_of self.now }
    {
        match self {
            Request::Uri(uri) => uri.port,
            Request::Via(via) => via.port,
        }
    }

    /// The transport that the request names, if it names one.
    pub fn spoken(&self) -> Option<Spoken>
        ensures { result ≡ spec.spoken_of self.now }
    {
        match self {
            Request::Uri(uri) => uri.transport,
            Request::Via(via) => Some(via.transport),
        }
    }

    /// Whether it is a request to a SIPS URI.
    pub fn is_secure(&self) -> bool
        ensures { result ≡ spec.is_secure self.now }
    {
        match self {
            Request::Uri(uri) => uri.secure,
            Request::Via(_) => false,
        }
    }
}

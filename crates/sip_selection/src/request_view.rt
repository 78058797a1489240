//! Requests, read or as they stand in their text (RFC 3263 4, 5).
ghost use Rattle.std.specs.Prelude.{◌≡◌, IfOk, OnErr};
ghost use Rattle.sip_uri.specs.Views.{IsHostView, host_of};
ghost use Rattle.sip_selection.specs.Requests as spec;

use crate::request::Request;
use dns_name::Name;
use sip_uri::{Host, HostPart, Spoken, UriParts, V4Octets, V6Octets, ViaParts};
use std::alloc::{AllocError, Global};

/// What is located: a request that was read, or one as it stands in its text.
#[derive(Clone, Copy)]
pub enum RequestView<'a> {
    /// One that was read.
    Read(&'a Request),
    /// A request to the URI of a text.
    Uri(UriParts<'a>),
    /// A response to the request with the top Via of a text (RFC 3263 5).
    Via(ViaParts<'a>),
}

/// The host whose addresses are needed.
#[derive(Clone, Copy)]
pub(crate) enum TargetView<'a> {
    V4(V4Octets),
    V6(V6Octets),
    /// A name.
    Name(&'a Name),
    /// A name as it stands in a text.
    Hostname(&'a [u8]),
}

/// The view of a host that was read.
fn host_view(host: &Host) -> TargetView<'_>
    ensures host { spec.host_in result ≡ host.now }
    ensures view { spec.IsTargetView result }
{
    match host {
        Host::V4(octets) => TargetView::V4(V4Octets::new(*octets)),
        Host::V6(octets) => TargetView::V6(V6Octets::new(*octets)),
        Host::Domain(name) => TargetView::Name(name),
    }
}

/// The view of a host of a text.
#[inline(always)]
fn part_view(host: HostPart<'_>) -> TargetView<'_>
    requires { IsHostView host }
    ensures host { spec.host_in result ≡ host_of host.entry }
    ensures view { spec.IsTargetView result }
{
    match host {
        HostPart::V4(address) => TargetView::V4(address),
        HostPart::V6(address) => TargetView::V6(address),
        HostPart::Domain(hostname) => TargetView::Hostname(hostname),
    }
}

impl<'a> RequestView<'a> {
    /// The host whose addresses are needed: of a URI the parameter `maddr`, where there is one (RFC
    /// 3263 4).
    #[inline(always)]
    pub(crate) fn target(&self) -> TargetView<'a>
        requires { spec.IsRequestView self.now }
        ensures host { spec.host_in result ≡ spec.target_of (spec.request_of self.now) }
        ensures view { spec.IsTargetView result }
    {
        match self {
            RequestView::Read(request) => host_view(request.target()),
            RequestView::Uri(parts) => part_view(parts.target()),
            RequestView::Via(parts) => part_view(parts.host),
        }
    }

    /// The port that the request writes, if it writes one.
    pub fn port(&self) -> Option<u16>
        ensures { result ≡ spec.port_of (spec.request_of self.now) }
    {
        match self {
            RequestView::Read(request) => request.port(),
            RequestView::Uri(parts) => parts.port,
            RequestView::Via(parts) => parts.port,
        }
    }

    /// The transport that the request names, if it names one.
    pub fn spoken(&self) -> Option<Spoken>
        ensures { result ≡ spec.spoken_of (spec.request_of self.now) }
    {
        match self {
            RequestView::Read(request) => request.spoken(),
            RequestView::Uri(parts) => parts.transport,
            RequestView::Via(parts) => Some(parts.transport),
        }
    }

    /// Whether it is a request to a SIPS URI.
    pub fn is_secure(&self) -> bool
        ensures { result ≡ spec.is_secure (spec.request_of self.now) }
    {
        match self {
            RequestView::Read(request) => request.is_secure(),
            RequestView::Uri(parts) => parts.secure,
            RequestView::Via(_) => false,
        }
    }

    /// The request, with memory for the names of its hosts.
    pub fn to_request(&self, alloc: Global) -> Result<Request, AllocError>
        requires { spec.IsRequestView self.now }
        ensures request { IfOk result (λ request. request ≡ spec.request_of self.now) }
        // Memory is needed for the names of hosts alone.
        ensures memory { OnErr result (spec.IsNamed (spec.request_of self.now)) }
    {
        Ok(match self {
            RequestView::Read(request) => request.try_clone()?,
            RequestView::Uri(parts) => Request::Uri(parts.to_uri(alloc)?),
            RequestView::Via(parts) => Request::Via(parts.to_via(alloc)?),
        })
    }
}

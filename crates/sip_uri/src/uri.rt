//! SIP and SIPS URIs (RFC 3261 19.1).
ghost use Rattle.std.specs.Prelude.{◌≡◌, ◌↔◌, IsTrue, IfOk, OnErr};
ghost use Rattle.sip_uri.specs.Uris.{IsNamedUri};
ghost use Rattle.sip_uri.specs.Same.{same_uri};

use crate::host::Host;
use crate::transport::Spoken;
use std::alloc::AllocError;

/// What a SIP or SIPS URI says of where a request goes (RFC 3261 19.1.1).
#[derive(Debug, Drop)]
pub struct SipUri {
    /// Whether it is a SIPS URI.
    pub secure: bool,
    /// The host.
    pub host: Host,
    /// The port, where it is written.
    pub port: Option<u16>,
    /// The parameter `transport`, where it is written.
    pub transport: Option<Spoken>,
    /// The parameter `maddr`, where it is written.
    pub maddr: Option<Host>,
}

impl SipUri {
    /// A copy of the URI. Memory is needed for the names of hosts alone.
    pub fn try_clone(&self) -> Result<SipUri, AllocError>
        ensures copy { IfOk result (λ copy. copy ≡ self.now) }
        ensures memory { OnErr result (IsNamedUri self.now) }
    {
        let host = self.host.try_clone()?;
        let maddr = match &self.maddr {
            None => None,
            Some(maddr) => Some(maddr.try_clone()?),
        };
        Ok(SipUri {
            secure: self.secure,
            host,
            port: self.port,
            transport: self.transport,
            maddr,
        })
    }
}

impl PartialEq for SipUri {
    ghost use Rattle.std.specs.Cmp.{decided, partial_equiv_from_equiv};
    ghost use Rattle.sip_uri.specs.Same.Decided.{uri_decides};

    ghost eq = { same_uri };

    ghost laws = { partial_equiv_from_equiv (decided same_uri uri_decides) };

    /// URIs are equal exactly where they are in each part. RFC 3261 19.1.4 compares users, all
    /// parameters and headers too.
    fn eq(&self, other: &SipUri) -> bool
        ensures value { result ≡ same_uri self.now other.now }
        ensures same { IsTrue result ↔ (self.now ≡ other.now) }
    {
        self.secure == other.secure
            && self.host == other.host
            && self.port == other.port
            && self.transport == other.transport
            && self.maddr == other.maddr
    }
}

impl Eq for SipUri {
    ghost use Rattle.std.specs.Cmp.{decided};
    ghost use Rattle.sip_uri.specs.Same.Decided.{uri_decides};

    ghost laws = { decided same_uri uri_decides };
}

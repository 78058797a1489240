//! What a Via says (RFC 3261 20.42).
ghost use Rattle.std.specs.Prelude.{◌≡◌, ◌↔◌, IsTrue, IfOk, OnErr};
ghost use Rattle.sip_uri.specs.Hosts.{IsNamed};
ghost use Rattle.sip_uri.specs.Same.{same_via};

use crate::host::Host;
use crate::transport::Spoken;
use std::alloc::AllocError;

/// What a Via says of where a response goes (RFC 3261 18.2.2, 20.42).
#[derive(Debug, Drop)]
pub struct Via {
    /// The transport.
    pub transport: Spoken,
    /// The host.
    pub host: Host,
    /// The port, where it is written.
    pub port: Option<u16>,
}

impl Via {
    /// A copy of the Via. Memory is needed for the name of the host alone.
    pub fn try_clone(&self) -> Result<Via, AllocError>
        ensures copy { IfOk result (λ copy. copy ≡ self.now) }
        ensures memory { OnErr result (IsNamed self.now.host) }
    {
        let host = self.host.try_clone()?;
        Ok(Via {
            transport: self.transport,
            host,
            port: self.port,
        })
    }
}

impl PartialEq for Via {
    ghost use Rattle.std.specs.Cmp.{decided, partial_equiv_from_equiv};
    ghost use Rattle.sip_uri.specs.Same.Decided.{via_decides};

    ghost eq = { same_via };

    ghost laws = { partial_equiv_from_equiv (decided same_via via_decides) };

    /// Vias are equal exactly where they are in each part. RFC 3261 20.42 compares parameters too.
    fn eq(&self, other: &Via) -> bool
        ensures value { result ≡ same_via self.now other.now }
        ensures same { IsTrue result ↔ (self.now ≡ other.now) }
    {
        self.transport == other.transport && self.host == other.host && self.port == other.port
    }
}

impl Eq for Via {
    ghost use Rattle.std.specs.Cmp.{decided};
    ghost use Rattle.sip_uri.specs.Same.Decided.{via_decides};

    ghost laws = { decided same_via via_decides };
}

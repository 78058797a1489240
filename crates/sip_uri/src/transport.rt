//! Transports, and how a text names them.
ghost use Rattle.std.specs.Prelude.{◌≡◌};
ghost use Rattle.sip_uri.specs.Transports.{spoken_of};

/// A transport that SIP goes over (RFC 3261 18, RFC 4168).
#[derive(Clone, Copy, Debug, PartialEq, Eq)]
pub enum Transport {
    /// UDP.
    Udp,
    /// TCP.
    Tcp,
    /// SCTP.
    Sctp,
    /// TLS over TCP.
    Tls,
}

/// The transport that a text names.
#[derive(Clone, Copy, Debug, PartialEq, Eq)]
pub enum Spoken {
    /// A transport that SIP goes over, by its name in letters of any case.
    Known(Transport),
    /// Any other transport.
    Other,
}

/// The transport of a name, as the parameter `transport` or a Via has it (RFC 3261 25.1).
pub(crate) fn spoken_of(name: &[u8]) -> Spoken
    ensures { result ≡ spoken_of name.now }
{
    if name.eq_ignore_ascii_case(b"udp") {
        Spoken::Known(Transport::Udp)
    } else if name.eq_ignore_ascii_case(b"tcp") {
        Spoken::Known(Transport::Tcp)
    } else if name.eq_ignore_ascii_case(b"sctp") {
        Spoken::Known(Transport::Sctp)
    } else if name.eq_ignore_ascii_case(b"tls") {
        Spoken::Known(Transport::Tls)
    } else {
        Spoken::Other
    }
}

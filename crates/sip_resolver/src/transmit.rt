//! What is sent, and over what.

/// What octets go over: a datagram or a stream.
#[derive(Clone, Copy, Debug, PartialEq, Eq)]
pub enum DnsTransport {
    /// A datagram, which is these octets (RFC 1035 4.2.1).
    Datagram,
    /// A stream. In front of these octets are two with their length, which the caller writes and
    /// takes away (RFC 1035 4.2.2, RFC 7766 8).
    Stream,
}

/// A message to send.
#[derive(Debug, Drop)]
pub struct Transmit<'a> {
    /// The message, which begins with its id.
    pub octets: &'a [u8],
    /// Its id (RFC 1035 4.1.1), under which its question is out.
    pub id: u16,
    /// What the message goes over.
    pub over: DnsTransport,
    /// Which send of its question it is over this: 1 for the first.
    pub send: u8,
}

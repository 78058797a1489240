//! What becomes of a request.

/// A final reply.
#[derive(Clone, Copy, Debug, PartialEq, Eq)]
pub struct Reply {
    /// Its status, from 200 to 699 (RFC 3261 7.2).
    pub status: u16,
    /// When it was there, in milliseconds since the flow began to open.
    pub after: u64,
}

/// Whether a server is there.
#[derive(Clone, Copy, Debug, PartialEq, Eq)]
pub enum Answer {
    /// A final reply came, of any status: the server is there.
    Replied(Reply),
    /// No final reply came until the deadline.
    Silent,
    /// The port is closed, the connection failed or was cut before a final reply came, or the
    /// system refuses to send.
    Refused,
    /// What came over the connection is no message, or one of more than 65,535 octets.
    Unreadable,
}

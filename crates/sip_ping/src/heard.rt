//! What octets are that came.
ghost use Rattle.sip_ping.specs.Datagrams.{IsHeard};

use sip_options::OptionsRequest;

/// The first status of a final reply (RFC 3261 7.2).
const FINAL: u16 = 200;

/// What octets are that came.
#[derive(Clone, Copy, Debug, PartialEq, Eq)]
pub(crate) enum Heard {
    /// A final reply to the request, with this status.
    Final(u16),
    /// A provisional reply to the request.
    Provisional,
    /// No reply to the request.
    Other,
}

/// What octets are, for a request.
pub(crate) fn judged(request: &OptionsRequest<'_>, octets: &[u8]) -> Heard
    ensures { IsHeard request.now octets.now result }
{
    match request.reply_status(octets) {
        Some(status) if status >= FINAL => Heard::Final(status),
        Some(_) => Heard::Provisional,
        None => Heard::Other,
    }
}

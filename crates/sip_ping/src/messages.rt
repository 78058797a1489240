//! What stands in front of the octets that a connection gave (RFC 3261 7.5, 18.3).
ghost use Rattle.std.specs.Prelude.{ℕ, List};
ghost use Rattle.sip_options.specs.Frames.{IsFrame};
ghost use Rattle.sip_ping.specs.Messages.{IsFront};
ghost use Rattle.sip_ping.specs.Streams.{IsBehind};

use crate::heard::{Heard, judged};
use sip_options::{OptionsRequest, behind_empty_lines, frame};

/// What stands in front of octets, behind empty lines.
#[derive(Clone, Copy)]
pub(crate) enum Front<'a> {
    /// A final reply to the request, with this status.
    Final(u16),
    /// A message that is no final reply to the request. This follows it.
    Passed(&'a [u8]),
    /// This part of a message, or nothing.
    Part(&'a [u8]),
    /// What is no message, and never becomes one.
    Unreadable,
}

/// What a whole message is, which this follows.
fn front_with<'a>(request: &OptionsRequest<'_>, octets: &'a [u8], size: usize) -> Front<'a>
    requires frame { IsFrame octets.now size }
    ensures { (all : List ℕ) → IsBehind all octets.now → IsFront request.now all result }
{
    match judged(request, &octets[..size]) {
        Heard::Final(status) => Front::Final(status),
        Heard::Provisional => Front::Passed(&octets[size..]),
        Heard::Other => Front::Passed(&octets[size..]),
    }
}

/// What stands in front of octets.
pub(crate) fn front_of<'a>(request: &OptionsRequest<'_>, octets: &'a [u8]) -> Front<'a>
    ensures { IsFront request.now octets.now result }
{
    let octets = behind_empty_lines(octets);
    match frame(octets) {
        Ok(Some(size)) => front_with(request, octets, size),
        Ok(None) => Front::Part(octets),
        Err(_) => Front::Unreadable,
    }
}

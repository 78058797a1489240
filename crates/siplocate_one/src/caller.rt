//! What the program can do as a sender of requests, and its random words.
ghost use Rattle.std.specs.Prelude.{◌≡◌, replicate};
ghost use Rattle.sip_resolver.specs.Draws.{drawn};
ghost use Rattle.siplocate_one.specs.Talks as spec;

use sip_resolver::draw_words;
use sip_selection::{Caps, Families};
use sip_uri::Transport;
use srv_choice::Words;

/// The transports of the program, in order of preference, with these families of addresses.
pub fn own_caps(families: Families) -> Caps
    ensures { result ≡ spec.own_caps families }
{
    let transports = [
        Transport::Udp,
        Transport::Tcp,
        Transport::Tls,
        Transport::Sctp,
    ];
    Caps::new(&transports, families).unwrap()
}

/// The random words of the program for the request of a number: it has no randomness of its own, so
/// that each run gives the same.
pub fn own_words(number: u64) -> Words
    ensures { result.0 ≡ drawn (replicate 32 0) number }
{
    draw_words([0; 32], number)
}

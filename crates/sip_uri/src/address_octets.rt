//! The octets of addresses in views of hosts.
//!
//! They begin at a place in memory whose number is a multiple of eight, as the parts of a text
//! beside them do. So a host is moved word by word; from an odd place it would be moved in pieces,
//! for which a processor waits. That took a fifth of the time of reading a URI.
ghost use Rattle.std.specs.Prelude.{◌≡◌};

/// The octets of an IPv4 address.
#[derive(Clone, Copy, Debug)]
pub struct V4Octets {
    /// The octets.
    pub octets: [u8; 4],
    place: [u64; 0],
}

impl V4Octets {
    /// These octets.
    #[inline(always)]
    pub fn new(octets: [u8; 4]) -> V4Octets
        ensures { result.octets ≡ octets }
    {
        V4Octets { octets, place: [] }
    }
}

/// The octets of an IPv6 address.
#[derive(Clone, Copy, Debug)]
pub struct V6Octets {
    /// The octets.
    pub octets: [u8; 16],
    place: [u64; 0],
}

impl V6Octets {
    /// These octets.
    #[inline(always)]
    pub fn new(octets: [u8; 16]) -> V6Octets
        ensures { result.octets ≡ octets }
    {
        V6Octets { octets, place: [] }
    }
}

//! The example of the page of `dns_zone`.
use dns_zone::{Zone, ZoneRefusal};
use std::alloc::Global;
use std::test::Fail;

/// A query for A of a.example. (RFC 1035 4.1).
const QUERY: &[u8] =
    b"\x12\x34\x01\x00\x00\x01\x00\x00\x00\x00\x00\x00\x01a\x07example\x00\x00\x01\x00\x01";

/// The zone of the example.
fn zone_of(alloc: Global) -> Result<Zone, ZoneRefusal> {
    let zone = Zone::read(
        alloc,
        "a.example. 60 CNAME b.example.\nb.example. 300 A 192.0.2.7",
    )?;
    Ok(zone)
}

#[test]
fn query_is_answered(rt: HostRuntime) -> Result<(), Fail> {
    let alloc = rt.alloc();
    let octets = QUERY;
    let zone = zone_of(alloc)?;
    // octets that ask for A of a.example.
    if let Some(reply) = zone.answer_datagram(alloc, octets)? {
        assert!(rt; reply.ends_with(b"\xc0\x00\x02\x07"));
    }
    Ok(())
}

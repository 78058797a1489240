//! The example of the page of `sip_uri`.
use sip_uri::{HostPart, SipUri, Spoken, Transport, UriParts, UriRefusal, read_uri, view_uri};
use std::alloc::Global;
use std::test::Fail;

/// The URI of the example.
fn uri_of(alloc: Global) -> Result<SipUri, UriRefusal> {
    let uri = read_uri(alloc, "sips:alice@c.example:5061;transport=tcp")?;
    Ok(uri)
}

#[test]
fn uri_is_read(rt: HostRuntime) -> Result<(), Fail> {
    let uri = uri_of(rt.alloc())?;
    assert!(rt; uri.secure);
    assert_eq!(rt; uri.port, Some(5061));
    assert_eq!(rt; uri.transport, Some(Spoken::Known(Transport::Tcp)));
    Ok(())
}

/// The view of the example.
fn parts_of() -> Result<UriParts<'static>, UriRefusal> {
    let parts = view_uri(b"sip:b.example:5070;maddr=192.0.2.7")?;
    Ok(parts)
}

/// Whether a host is this address of IPv4.
fn is_v4(host: HostPart<'_>, octets: [u8; 4]) -> bool {
    match host {
        HostPart::V4(found) => found.octets == octets,
        HostPart::V6(_) | HostPart::Domain(_) => false,
    }
}

#[test]
fn uri_is_seen(rt: HostRuntime) -> Result<(), Fail> {
    let parts = parts_of()?;
    assert_eq!(rt; parts.port, Some(5070));
    // the same, by a call:
    // assert!(rt; matches!(parts.target(), HostPart::V4(it) if it.octets == [192, 0, 2, 7]));
    assert!(rt; is_v4(parts.target(), [192, 0, 2, 7]));
    Ok(())
}

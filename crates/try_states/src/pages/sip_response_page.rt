//! The example of the page of `sip_response`.
use sip_response::{
    Address, Endpoint, RouteParams, Rport, Step, Transport, ViaParts, response_route,
    view_via_route, with_source,
};
use sip_uri::UriRefusal;
use std::test::Fail;

/// The Via of the example, and what its parameters say.
fn via_of() -> Result<(ViaParts<'static>, RouteParams<'static>), UriRefusal> {
    let (parts, params) = view_via_route(b"SIP/2.0/UDP 10.1.1.1:4540;rport;branch=z9hG4bK1")?;
    Ok((parts, params))
}

#[test]
fn response_goes_to_the_source(rt: HostRuntime) -> Result<(), Fail> {
    let (parts, params) = via_of()?;
    let source = Endpoint {
        address: Address::V4([192, 0, 2, 1]),
        port: 9988,
    };
    let params = with_source(&parts, &params, source);
    assert_eq!(rt; params.received, Some(source.address));
    assert_eq!(rt; params.rport, Rport::Port(9988));
    let route = response_route(&parts, &params, Transport::Udp);
    assert!(rt; matches!(&route.first, Step::Received { .. }));
    assert!(rt; matches!(&route.second, Some(Step::SentBy)));
    Ok(())
}

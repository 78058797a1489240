//! Where a SIP response goes (RFC 3261 18.2, RFC 3581 4).
//!
//! A server that has read the top Via of a request (`sip_uri::view_via_route`) calls `with_source`
//! when the request comes in: it says what `received` and `rport` have to be, which the server
//! writes into that Via. To send a response, `response_route` gives what to try, in order. Nothing
//! here sends, and no memory is taken.
//!
//! ```
//! let (parts, params) = view_via_route(b"SIP/2.0/UDP 10.1.1.1:4540;rport;branch=z9hG4bK1")?;
//! let source = Endpoint {
//!     address: Address::V4([192, 0, 2, 1]),
//!     port: 9988,
//! };
//! let params = with_source(&parts, &params, source);
//! assert_eq!(rt; params.received, Some(source.address));
//! assert_eq!(rt; params.rport, Rport::Port(9988));
//! let route = response_route(&parts, &params, Transport::Udp);
//! assert!(rt; matches!(route.first, Step::Received { .. }));
//! assert!(rt; matches!(route.second, Some(Step::SentBy)));
//! ```
//!
//! # What the caller does
//!
//! - `Step::Connection` and `Step::SentBy` are the caller's: it knows its connections, and
//!   `sip_selection` locates a Via (`Request::Via`, RFC 3263 5).
//! - A name in `maddr` needs addresses first: they are those of its A and AAAA records, and
//!   `Step::MaddrName` has the port. `multicast_ttl` says with which TTL a datagram goes to one.
//! - The next step is tried where one fails, as by a refused connection or an ICMP message.
//! - `maddr` leads wherever the client likes, as RFC 3261 18.2.2 asks. A server that has nothing to
//!   do with multicast can set it to `None`.
//! - The source of an IPv4 packet is an IPv4 address, also where a socket shows it as IPv4-mapped.
#![tactic(auto)]

mod endpoint;
mod laws;
mod multicast;
mod route;
mod source;

pub use endpoint::Endpoint;
pub use laws::{law_one_route, law_own_address_leads_to_sent_by, law_rport_leads_to_the_source};
pub use multicast::multicast_ttl;
pub use route::{ResponseRoute, Step, response_route};
pub use sip_uri::{Address, RouteParams, Rport, Transport, ViaParts, view_via_route};
pub use source::with_source;

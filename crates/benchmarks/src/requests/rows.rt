//! The requests that are located, and the domains that they go to.
ghost use Rattle.std.specs.Prelude.{IfSome};
ghost use Rattle.sip_selection.specs.Requests.{IsRequestView};

use crate::requests::known::Domain;
use sip_selection::{Families, Request, RequestView};
use sip_uri::{read_uri, read_via, view_uri, view_via};
use std::alloc::Global;

/// A request, and the answers that a book has for it.
#[derive(Clone, Copy)]
pub struct Row {
    /// What the row is called.
    pub name: &'static str,
    /// A URI, or a Via.
    pub text: &'static str,
    /// Which addresses the sender can reach.
    pub families: Families,
    pub domain: Domain<'static>,
}

/// A domain with a service over UDP, TCP and TLS, three servers, of which the first one has two
/// addresses of IPv4, and no more.
pub const DOMAIN: Domain<'static> = Domain {
    label: "d",
    services: &[
        ("SIP+D2U", "_sip._udp"),
        ("SIP+D2T", "_sip._tcp"),
        ("SIPS+D2T", "_sips._tcp"),
    ],
    servers: 3,
    are_apart: false,
    addresses: [1, 1],
    more: 1,
};

/// The same with two servers of one address.
const TWO_SERVERS: Domain<'static> = Domain {
    label: "d",
    services: &[("SIP+D2T", "_sip._tcp")],
    servers: 2,
    are_apart: false,
    addresses: [1, 1],
    more: 0,
};

/// The same with one service.
const ONE_SERVICE: Domain<'static> = Domain {
    label: "d",
    services: &[("SIP+D2U", "_sip._udp")],
    servers: 3,
    are_apart: false,
    addresses: [1, 1],
    more: 1,
};

/// As many services as a choice takes, each with 32 servers of its own, and as many addresses of
/// both families as an answer has.
const LARGE: Domain<'static> = Domain {
    label: "d",
    services: &[
        ("SIP+D2U", "l0"),
        ("SIP+D2U", "l1"),
        ("SIP+D2U", "l2"),
        ("SIP+D2U", "l3"),
        ("SIP+D2U", "l4"),
        ("SIP+D2U", "l5"),
        ("SIP+D2U", "l6"),
        ("SIP+D2U", "l7"),
    ],
    servers: 32,
    are_apart: true,
    addresses: [32, 32],
    more: 0,
};

/// A request to a domain.
fn row_of(
    name: &'static str,
    text: &'static str,
    families: Families,
    domain: Domain<'static>,
) -> Row {
    Row {
        name,
        text,
        families,
        domain,
    }
}

/// The requests of which all that is asked is a few answers.
pub fn small_rows() -> [Row; 7] {
    use Families::V4;
    [
        row_of("address", "sip:192.0.2.7:5080", V4, ONE_SERVICE),
        row_of("name and port", "sip:d.example:5070", V4, ONE_SERVICE),
        row_of("transport", "sip:d.example;transport=tcp", V4, TWO_SERVERS),
        row_of("NAPTR", "sip:user@d.example", V4, ONE_SERVICE),
        row_of("SIPS", "sips:user@d.example", V4, DOMAIN),
        row_of(
            "Via",
            "SIP/2.0/UDP d.example;branch=z9hG4bK1",
            V4,
            ONE_SERVICE,
        ),
        ten_answers(),
    ]
}

/// The request that ten answers lead to 21 targets.
pub fn ten_answers() -> Row {
    let families = Families::V4ThenV6;
    row_of("ten answers", "sip:user@d.example", families, DOMAIN)
}

/// The request that asks the most, with so many servers of each service.
pub fn large_row(servers: usize) -> Row {
    let domain = Domain { servers, ..LARGE };
    row_of("most", "sip:user@d.example", Families::V4ThenV6, domain)
}

impl Row {
    /// The request, as it stands in its text.
    pub fn view(&self) -> Option<RequestView<'static>>
        ensures { IfSome result IsRequestView }
    {
        let text = self.text.as_bytes();
        if text.starts_with(b"SIP/") {
            match view_via(text) {
                Ok(parts) => Some(RequestView::Via(parts)),
                Err(_) => None,
            }
        } else {
            match view_uri(text) {
                Ok(parts) => Some(RequestView::Uri(parts)),
                Err(_) => None,
            }
        }
    }

    /// The request.
    pub fn request(&self, alloc: Global) -> Option<Request> {
        match read_uri(alloc, self.text) {
            Ok(uri) => Some(Request::Uri(uri)),
            Err(_) => Some(Request::Via(read_via(alloc, self.text).ok()?)),
        }
    }
}

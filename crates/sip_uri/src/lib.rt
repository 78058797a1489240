//! SIP URIs and Vias of RFC 3261, and the hosts in them.
//!
//! `read_uri` gives the URI that a text spells, and `read_via` the Via: exactly where the text is
//! one by the profile of RFC 3261 25.1 below, and of one text at most one. Else the first fault
//! from the left is named. Escapes are checked and never undone; parameters and headers that say
//! nothing of where a request goes are checked and dropped. Memory is taken for the names of hosts
//! alone. `view_uri` and `view_via` do the same over octets and take no memory: what they give has
//! a hostname as it stands in the text, and `to_uri`, `to_via` and `to_host` make names of it.
//! `view_via_route` says too what the parameters of a Via say of where a response goes. What
//! `ip_text` has of addresses and numbers is exported here too.
//!
//! ```
//! let uri = read_uri(alloc, "sips:alice@c.example:5061;transport=tcp")?;
//! assert!(rt; uri.secure);
//! assert_eq!(rt; uri.port, Some(5061));
//! assert_eq!(rt; uri.transport, Some(Spoken::Known(Transport::Tcp)));
//!
//! let parts = view_uri(b"sip:b.example:5070;maddr=192.0.2.7")?;
//! assert_eq!(rt; parts.port, Some(5070));
//! assert!(rt; matches!(parts.target(), HostPart::V4(it) if it.octets == [192, 0, 2, 7]));
//! ```
//!
//! # The profile
//!
//! Narrower than RFC 3261 25.1:
//!
//! - A text has at most 1,024 octets.
//! - A port is a number from 1 to 65535, and a number of an IPv4 address at most 255. Both may have
//!   leading zeros, an IPv4 number up to three digits in all.
//! - An IPv6 address is one by RFC 4291 2.2: eight groups, or `::` for those that lack. The three
//!   colons of RFC 5118 4.10 (`[2001:db8:::192.0.2.1]`), which the grammar derives, are refused.
//! - A label of a hostname has at most 63 octets, and its name at most 255 (RFC 1035 2.3.4).
//! - No parameter is repeated (RFC 3261 19.1.1, 7.3.1), and `transport` and `maddr` of a URI need
//!   values. That of `maddr` is a host.
//! - The value of a URI's parameter has the octets of `pvalue` alone: a token with `` ` `` or with
//!   a `%` that escapes nothing is none.
//! - A user is one by the rule `user`: other characters of a telephone number have to be escaped.
//! - A Via is a single one, of `SIP/2.0`, on one line: it has no CR and no LF.
//!
//! Wider:
//!
//! - An IPv4 address may follow `::` in one of IPv6, as RFC 4291 2.2 has it
//!   (`[2001:db8::192.0.2.1]`).
//! - Of the parameters that RFC 3261 knows, the values of `transport` and `maddr` of a URI alone
//!   mean anything. Of others, and of all those of a Via, only the octets are checked (`ttl=999`):
//!   `view_via_route` takes a value of another kind as none.
//! - The value of a Via's parameter is a quoted string, or octets from 33 to 126 other than `;`,
//!   `,` and `"`, so that `received` may have brackets around an IPv6 address (RFC 5118 4.5).
//! - A quoted string may hold any control character but CR and LF without a `\` in front.
//!
//! Names and values are taken as they are written: `%74ransport` is not `transport`, and `%74cp` is
//! no name of TCP.
#![tactic(auto)]

mod address_octets;
mod classes;
mod headers;
mod host;
mod host_part;
mod hostname;
mod laws;
mod pairs;
mod params;
mod place;
mod refusal;
mod route_params;
mod runs;
mod transport;
mod uri;
mod uri_parts;
mod uri_text;
mod userinfo;
mod via;
mod via_classes;
mod via_params;
mod via_parts;
mod via_text;
mod via_values;

pub use address_octets::{V4Octets, V6Octets};
pub use host::Host;
pub use host_part::{HostPart, name_of_hostname};
pub use ip_text::{Address, address_from_text, address_text, decimal, law_written_address_is_read};
pub use laws::{
    law_one_route_of_a_text, law_one_uri_of_a_text, law_one_via_of_a_text,
    law_same_exactly_where_equal,
};
pub use refusal::UriRefusal;
pub use route_params::{RouteParams, Rport};
pub use transport::{Spoken, Transport};
pub use uri::SipUri;
pub use uri_parts::UriParts;
pub use uri_text::{read_uri, view_uri};
pub use via::Via;
pub use via_parts::ViaParts;
pub use via_text::{read_via, view_via, view_via_route};

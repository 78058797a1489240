//! The text of the zone that all requests ask.
use std::alloc::{AllocError, Global};

/// How many domains it has.
pub const DOMAINS: u64 = 200;

/// The services of each domain, in its order, and where their servers are listed.
const SERVICES: [(&str, &str); 3] = [
    ("SIP+D2U", "_sip._udp"),
    ("SIP+D2T", "_sip._tcp"),
    ("SIPS+D2T", "_sips._tcp"),
];

/// The lines of a service of a domain: its NAPTR record and its three servers.
fn service_lines(
    alloc: Global,
    domain: u64,
    service: &str,
    list: &str,
) -> Result<String, AllocError> {
    format!(in alloc;
        "\
d{domain}.example. 300 NAPTR 10 50 s {service} - {list}.d{domain}.example.
{list}.d{domain}.example. 300 SRV 10 60 5060 s0.d{domain}.example.
{list}.d{domain}.example. 300 SRV 10 40 5060 s1.d{domain}.example.
{list}.d{domain}.example. 300 SRV 20 0 5070 s2.d{domain}.example.
"
    )
}

/// The lines of a server of a domain: its addresses.
fn server_lines(alloc: Global, domain: u64, server: u64) -> Result<String, AllocError> {
    format!(in alloc;
        "\
s{server}.d{domain}.example. 300 A 192.0.2.{server}
s{server}.d{domain}.example. 300 AAAA 2001:db8::{server}
"
    )
}

/// The text of the zone.
pub fn zone_text(alloc: Global) -> Result<String, AllocError> {
    let mut text = String::new(alloc);
    for domain in 0..DOMAINS {
        for (service, list) in SERVICES {
            text.push_str(service_lines(alloc, domain, service, list)?.as_str())?;
        }
        for server in 0..3 {
            text.push_str(server_lines(alloc, domain, server)?.as_str())?;
        }
    }
    Ok(text)
}

//! Paths from the host of a request to addresses.
ghost use Rattle.std.specs.Prelude.{◌≡◌, map};
ghost use Rattle.std.specs.Arc.{arc_value};
ghost use Rattle.std.specs.Option.{option_map};
ghost use Rattle.resolution_paths.specs.Paths as spec;

use dns_answers::{Answer, Records};
use dns_message::{NaptrRecord, SrvRecord};
use dns_name::Name;
use sip_selection::Target;
use sip_uri::{Address, Transport};
use std::sync::Arc;

/// An SRV record of a service (RFC 2782), and how the service is named (RFC 3263 4.1).
#[derive(Debug, Drop)]
pub struct ServiceRecord {
    /// The transport of the service.
    pub transport: Transport,
    /// The name of its SRV records.
    pub service: Name,
    /// The NAPTR record that names them, where one does.
    pub rule: Option<NaptrRecord>,
    /// The SRV record.
    pub server: SrvRecord,
    /// For how many seconds the answers may be kept that both stand in.
    pub life: u32,
}

/// A path from the host of a request to addresses (RFC 3263 4.2, 5).
#[derive(Debug, Drop)]
pub struct ResolutionPath {
    /// The SRV record of the server whose addresses these are; none where they are the host's own.
    pub service: Option<ServiceRecord>,
    /// The answers that have the addresses.
    pub addresses: Vec<Arc<Answer>>,
}

/// A path that leads to a target.
#[derive(Clone, Copy, Debug)]
pub struct PathFound<'a> {
    /// The path.
    pub path: &'a ResolutionPath,
    /// For how many seconds all its answers may be kept.
    pub life: u32,
}

/// Whether octets of an IPv4 address are among these.
fn has_v4(octets: [u8; 4], addresses: &[[u8; 4]]) -> bool
    ensures { result ≡ spec.has_address (Address.V4 octets) (Records.V4 addresses.now) }
{
    addresses.iter().any(|it| *it == octets)
}

/// Whether octets of an IPv6 address are among these.
fn has_v6(octets: [u8; 16], addresses: &[[u8; 16]]) -> bool
    ensures { result ≡ spec.has_address (Address.V6 octets) (Records.V6 addresses.now) }
{
    addresses.iter().any(|it| *it == octets)
}

/// Whether records have an address.
fn has_address(address: Address, records: &Records) -> bool
    ensures { result ≡ spec.has_address address records.now }
{
    match (address, records) {
        (Address::V4(octets), Records::V4(addresses)) => has_v4(octets, addresses.as_slice()),
        (Address::V6(octets), Records::V6(addresses)) => has_v6(octets, addresses.as_slice()),
        (_, Records::V4(_) | Records::V6(_)) => false,
        (_, Records::Srv(_) | Records::Naptr(_)) => false,
    }
}

/// The life of the first of these answers that has an address.
fn life_of(address: Address, answers: &[Arc<Answer>]) -> Option<u32>
    ensures { result ≡ spec.life_of address (map arc_value answers.now) }
{
    'answers: for answer in answers {
        if has_address(address, answer.records()) {
            return Some(answer.life());
        }
    }
    None
}

impl ServiceRecord {
    /// Whether a target is over the transport of the service, and at the port of the server.
    fn fits(&self, target: &Target) -> bool
        ensures { result ≡ spec.fits target.now (Some self.now) }
    {
        self.transport == target.transport && self.server.port == target.port
    }
}

impl ResolutionPath {
    /// For how many seconds all answers of the path may be kept, if it leads to a target.
    pub fn life_to(&self, target: &Target) -> Option<u32>
        ensures { result ≡ spec.life_to target.now self.now }
    {
        match &self.service {
            None => life_of(target.address, self.addresses.as_slice()),
            Some(record) if record.fits(target) => {
                let life = life_of(target.address, self.addresses.as_slice())?;
                Some(record.life.min(life))
            }
            Some(_) => None,
        }
    }
}

/// The first of these paths that leads to a target.
pub fn path_to<'a>(paths: &'a [ResolutionPath], target: &Target) -> Option<PathFound<'a>>
    ensures { option_map spec.found_in result ≡ spec.first_to target.now paths.now }
{
    'paths: for path in paths {
        if let Some(life) = path.life_to(target) {
            return Some(PathFound { path, life });
        }
    }
    None
}

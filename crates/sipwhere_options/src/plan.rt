//! Whom to ask.
ghost use Rattle.std.specs.Prelude.{◌≡◌, IfErr, IfOk};
ghost use Rattle.sipwhere_options.specs.Plans as plans;
ghost use Rattle.sipwhere_options.specs.Servers as spec;

use crate::options::Options;
use crate::run_fault::RunFault;
use crate::timing::{attempts_by, sends_of};
use dns_transport::Attempts;
use resolver_file::{ResolverFile, SERVER_PORT};
use sip_uri::Address;
use std::alloc::{AllocError, Global};
use std::fs;
use std::io::{self, ErrorKind};
use std::net::{IpAddr, SocketAddr};
use std::rt::Files;

/// Which servers to ask, and how.
#[derive(Debug, Drop)]
pub struct Plan {
    /// The name servers.
    pub servers: Vec<SocketAddr>,
    /// Whether the servers are asked over TCP alone.
    pub over_tcp: bool,
    /// How often each question is sent, and for how long each query is waited for.
    pub attempts: Attempts,
    /// Whether each question begins with the server after the one that the question before it began
    /// with.
    pub rotates: bool,
}

/// The server of an address in a resolver file.
fn server_at(address: Address) -> SocketAddr
    ensures { plans.IsServerAt address result }
{
    let address = match address {
        Address::V4(octets) => IpAddr::from(octets),
        Address::V6(octets) => IpAddr::from(octets),
    };
    SocketAddr::new(address, SERVER_PORT)
}

/// The system's resolver file (resolv.conf(5)).
const SYSTEM_FILE: &str = "/etc/resolv.conf";

/// The resolver file that is read where no servers are named.
pub fn resolver_path<'a>(options: &Options<'a>) -> &'a str {
    options.resolver_file.unwrap_or(SYSTEM_FILE)
}

/// The octets of the system's resolver file; none where it is not there.
fn octets_of_system<R: Files + AllocGlobal>(rt: &R, alloc: Global) -> io::Result<Vec<u8>> {
    match fs::read(rt, SYSTEM_FILE) {
        Ok(octets) => Ok(octets),
        Err(error) if error.kind() == ErrorKind::NotFound => Ok(Vec::new(alloc)),
        Err(error) => Err(error),
    }
}

/// The octets of the resolver file that is named, or else of the system's.
fn octets_of<R: Files + AllocGlobal>(
    rt: &R,
    alloc: Global,
    named: Option<&str>,
) -> io::Result<Vec<u8>> {
    match named {
        Some(path) => fs::read(rt, path),
        None => octets_of_system(rt, alloc),
    }
}

/// The plan of a resolver file.
fn plan_of(alloc: Global, options: &Options<'_>, file: &ResolverFile) -> Result<Plan, AllocError>
    ensures { IfOk result (plans.IsOfFile options.now file.now) }
{
    let mut servers = Vec::new(alloc);
    'addresses: for address in file.servers() {
        servers.push(server_at(*address))?;
    }
    let sends = sends_of(file.attempts_option(), file.servers().len());
    Ok(Plan {
        servers,
        over_tcp: options.over_tcp || file.is_over_tcp(),
        attempts: attempts_by(options, file.timeout_option(), sends),
        rotates: file.rotates(),
    })
}

/// Whether a server has the family of a local address.
fn is_of_family(local: IpAddr, server: SocketAddr) -> bool
    ensures { result ≡ spec.is_of_family local server }
{
    server.is_ipv4() == local.is_ipv4()
}

/// The servers that can be asked from this local address: those of its family.
fn servers_from(
    alloc: Global,
    local: IpAddr,
    servers: &[SocketAddr],
) -> Result<Vec<SocketAddr>, AllocError>
    ensures { IfOk result (λ kept. kept.items ≡ spec.servers_from local servers.now) }
{
    let mut kept = Vec::new(alloc);
    'servers: for server in servers {
        if is_of_family(local, *server) {
            kept.push(*server)?;
        }
    }
    Ok(kept)
}

/// The same plan from a local address: datagrams to servers of its family.
fn plan_from(alloc: Global, local: IpAddr, plan: Plan) -> Result<Plan, RunFault>
    ensures kept { IfOk result (plans.IsFrom local plan) }
    ensures refused { IfErr result (plans.IsNotFrom local plan) }
{
    if plan.over_tcp {
        return Err(RunFault::LocalOverTcp);
    }
    let servers = servers_from(alloc, local, plan.servers.as_slice())?;
    if servers.is_empty() {
        return Err(RunFault::Family);
    }
    Ok(Plan {
        servers,
        over_tcp: false,
        attempts: plan.attempts,
        rotates: plan.rotates,
    })
}

/// Tells on standard error which lines of the resolver file can't be read.
fn warn<R: Eprint>(rt: &R, path: &str, file: &ResolverFile) {
    'warnings: for warning in file.warnings() {
        let _ = eprintln!(rt; "sipwhere: {path}: {warning}");
    }
}

/// The servers that the options name, or those of the resolver file.
fn read_servers<R: Files + Eprint + AllocGlobal>(
    rt: &R,
    options: &Options<'_>,
) -> Result<Plan, RunFault>
    ensures { IfOk result (plans.IsWhole options.now) }
{
    let alloc = rt.alloc();
    if !options.servers.is_empty() {
        return Ok(Plan {
            servers: Vec::from_slice(alloc, options.servers.as_slice())?,
            over_tcp: options.over_tcp,
            attempts: attempts_by(options, None, None),
            rotates: false,
        });
    }
    let octets = match octets_of(rt, alloc, options.resolver_file) {
        Ok(octets) => octets,
        Err(error) => return Err(RunFault::ResolverFile(error)),
    };
    let file = ResolverFile::read(alloc, octets.as_slice())?;
    warn(rt, resolver_path(options), &file);
    Ok(plan_of(alloc, options, &file)?)
}

/// The plan of the options: the servers that they name, or those of the resolver file; where they
/// name a local address, those of its family.
pub fn read_plan<R: Files + Eprint + AllocGlobal>(
    rt: &R,
    options: &Options<'_>,
) -> Result<Plan, RunFault>
    ensures { IfOk result (plans.IsPlan options.now) }
{
    let plan = read_servers(rt, options)?;
    match options.local {
        Some(local) => plan_from(rt.alloc(), local, plan),
        None => Ok(plan),
    }
}

//! A run over UDP, to a server on this host that answers from a zone.
ghost use Rattle.std.specs.Prelude.{◌≡◌, ◌≢◌, ◌≤◌, IfErr, IfOk, length};
ghost use Rattle.std.specs.IoError.{error_kind};
ghost use Rattle.std.specs.Str.Lines.{lines};
ghost use Rattle.std.specs.String.{string_bytes};
ghost use Rattle.siplocate.specs.Jobs as spec;
ghost use Rattle.siplocate.specs.Served.{Faults, IsAsked, IsBadZone, IsCountOfWorkers, IsOverfull, IsServed, of_cache, of_io, of_run};
ghost use Rattle.siplocate.specs.declared.server.RunFault.TheVariants as faults;
ghost use Rattle.dns_zone.specs.Refusals.{RefusedFor};

use crate::job::JobOutput;
use crate::requests::parts;
use crate::run::run_text;
use answer_cache::{CacheRefusal, SharedCache};
use dns_queries::PeerWire;
use dns_transport::{
    Attempts, BufferWire, HostWire, QueryForm, ReplyTimes, SystemClock, UdpServerWire, WireOptions,
    open_wire,
};
use dns_zone::{Zone, ZoneRefusal, serve};
use sip_resolver::random_key;
use sip_workers::{OpenGate, RunRefusal};
use std::alloc::{AllocError, AllocFailed, Global};
use std::io::{self, ErrorKind};
use std::net::{Ipv4Addr, Net, SocketAddr};
use std::random::RandomSource;
use std::sync::Wait;
use std::sync::atomic::{AtomicBool, Ordering};
use std::thread::{self, Threads};
use std::time::{Clock, Duration};
use thiserror::Error;

/// The status where the zone is none.
const BAD_ZONE_STATUS: u8 = 3;

/// Why there is no run.
#[derive(Clone, Copy, Debug, PartialEq, Eq, Error)]
pub enum RunFault {
    /// A run can't have this number of workers.
    #[error("a run has 1 to 64 workers")]
    Workers,
    /// There are too many requests.
    #[error("a run has 10,000 requests at most")]
    Requests,
    /// Memory was refused.
    #[error("out of memory")]
    Memory,
    /// A thread could not be made.
    #[error("a thread could not be made")]
    Thread,
    /// The results were not those of the requests.
    #[error("the results were not those of the requests")]
    Gathering,
    /// A socket could not be opened.
    #[error("a socket could not be opened")]
    Net,
}

impl From<AllocError> for RunFault {
    ghost from_gives = { λ _ fault. fault ≡ faults.Memory };

    fn from(_: AllocError) -> RunFault {
        RunFault::Memory
    }
}

impl<T: Drop> From<AllocFailed<T>> for RunFault {
    ghost from_gives = { λ _ fault. fault ≡ faults.Memory };

    fn from(_: AllocFailed<T>) -> RunFault {
        RunFault::Memory
    }
}

impl From<io::Error> for RunFault {
    ghost from_gives = { λ error fault. fault ≡ of_io (error_kind error) };

    fn from(error: io::Error) -> RunFault {
        match error.kind() {
            ErrorKind::OutOfMemory => RunFault::Memory,
            _ => RunFault::Net,
        }
    }
}

impl From<CacheRefusal> for RunFault {
    ghost from_gives = { λ refusal fault. fault ≡ of_cache refusal };

    fn from(refusal: CacheRefusal) -> RunFault {
        match refusal {
            CacheRefusal::BadCount => RunFault::Workers,
            CacheRefusal::Memory => RunFault::Memory,
        }
    }
}

impl From<RunRefusal> for RunFault {
    ghost from_gives = { λ refusal fault. fault ≡ of_run refusal };

    fn from(refusal: RunRefusal) -> RunFault {
        match refusal {
            RunRefusal::BadCount => RunFault::Requests,
            RunRefusal::NoThread => RunFault::Thread,
            RunRefusal::Memory => RunFault::Memory,
            RunRefusal::Gathering(_) => RunFault::Gathering,
        }
    }
}

/// What it is that a thread could not be made, whatever the system says of it.
fn no_thread<E: Drop>(_refused: E) -> RunFault
    ensures { result ≡ faults.Thread }
{
    RunFault::Thread
}

/// A wire of this host's own, for a server that this host alone can reach.
///
/// # Errors
///
/// Those of the system, where no port is left.
pub(crate) fn local_wire<R: Net>(rt: &R) -> io::Result<UdpServerWire>
    ensures { IfOk result (λ wire. ⟦<UdpServerWire as PeerWire>⟧.failed wire ≡ 0) }
{
    UdpServerWire::bind(rt, SocketAddr::from((Ipv4Addr::LOCALHOST, 0)))
}

/// How a worker's wire asks: a query goes out over UDP as it was made, and over TCP where its reply
/// was cut.
const WIRE_OPTIONS: WireOptions = WireOptions {
    over_tcp: false,
    form: QueryForm::PLAIN,
    attempts: Attempts::DEFAULT,
    reply_times: ReplyTimes::DEFAULT,
    rotates: false,
    keeps_tries: false,
    total: Duration::MAX,
};

/// A worker's wire to a server, over the sockets of this host.
type WorkerWire<'a, R> = BufferWire<HostWire<'a, R>>;

/// A wire to a server. Its ids and ports are drawn of a key of its own.
fn wire_to<'a, R: Net + Clock + RandomSource>(
    rt: &'a R,
    alloc: Global,
    server: SocketAddr,
) -> io::Result<WorkerWire<'a, R>> {
    let key = random_key(rt)?;
    let wire = open_wire(rt, alloc, &[server], None, WIRE_OPTIONS, key)?;
    Ok(BufferWire::new(wire))
}

/// So many wires to a server.
fn wires_to<'a, R: Net + Clock + RandomSource>(
    rt: &'a R,
    alloc: Global,
    server: SocketAddr,
    count: usize,
) -> Result<Vec<WorkerWire<'a, R>>, RunFault>
    ensures all { IfOk result (λ wires. length wires.items ≡ count) }
    ensures refused { IfErr result (λ fault. fault ≢ faults.Workers × fault ≢ faults.Requests) }
{
    let mut wires = Vec::new(alloc);
    'wires: for _wire in 0..count {
        wires.push(wire_to(rt, alloc, server)?)?;
    }
    Ok(wires)
}

/// What is printed of the requests of a text, and the status, where so many workers ask a server.
pub(crate) fn run_to_server<
    R: Net<Stream: Send, Listener: Send> + Threads + Wait + Clock + RandomSource + Sync,
>(
    rt: &R,
    alloc: Global,
    server: SocketAddr,
    workers: usize,
    requests: &str,
) -> Result<(String, u8), RunFault>
    ensures asked { IfOk result (λ told. IsAsked requests.now (string_bytes told.0) told.1) }
    ensures refused { IfErr result (Faults workers requests.now) }
    ensures range { IfOk result (λ told. told.1 ≤ 5) }
{
    let (cache, seats) = SharedCache::new(alloc, workers)?;
    let wires = wires_to(rt, alloc, server, workers)?;
    let clock = SystemClock::new(rt);
    Ok(run_text(rt, alloc, requests, &cache, seats, wires, &clock, &OpenGate)?)
}

/// What is printed of the requests of a text, and the status, where so many workers ask a server
/// on this host, which answers from a zone as long as they run.
fn run_over_zone<
    R: Net<Stream: Send, Listener: Send> + Threads + Wait + Clock + RandomSource + Sync,
>(
    rt: &R,
    alloc: Global,
    workers: usize,
    zone: &Zone,
    requests: &str,
) -> Result<(String, u8), RunFault>
    ensures asked { IfOk result (λ told. IsAsked requests.now (string_bytes told.0) told.1) }
    ensures refused { IfErr result (Faults workers requests.now) }
    ensures range { IfOk result (λ told. told.1 ≤ 5) }
{
    let mut wire = local_wire(rt)?;
    let address = wire.address()?;
    let stop = AtomicBool::new(false);
    thread::scope(
        thread::scope_env(),
        rt,
        |scope| -> Result<(String, u8), RunFault>
            ensures asked { IfOk result (λ told.
                IsAsked requests.entry.now (string_bytes told.0) told.1) }
            ensures refused { IfErr result (Faults workers requests.entry.now) }
            ensures range { IfOk result (λ told. told.1 ≤ 5) }
        {
            let _server = scope
                .spawn(|| serve(rt, alloc, &mut wire, zone, &stop))
                .map_err(no_thread)?;
            let told = run_to_server(rt, alloc, address, workers, requests);
            stop.store(true, Ordering::SeqCst);
            told
        },
    )
}

/// What the program prints for a text that is no zone.
fn bad_zone_output(
    alloc: Global,
    zone: &str,
    refusal: ZoneRefusal,
) -> Result<(String, u8), RunFault>
    requires refused { RefusedFor refusal (lines zone.now) }
    ensures bad { IfOk result (λ told. (told.1 ≡ 3) × IsBadZone zone.now (string_bytes told.0)) }
    ensures refused { IfErr result (λ fault. fault ≡ RunFault.Memory) }
    ensures range { IfOk result (λ told. told.1 ≤ 5) }
{
    let line = match refusal {
        ZoneRefusal::BadLine(number) => format!(in alloc; "bad zone {number}\n")?,
        ZoneRefusal::TooMany => String::from_str(alloc, "bad zone TooMany\n")?,
        ZoneRefusal::Memory => return Err(RunFault::Memory),
    };
    Ok((line, BAD_ZONE_STATUS))
}

/// What is printed of a zone and requests, and the status, with so many workers.
fn run_both<R: Net<Stream: Send, Listener: Send> + Threads + Wait + Clock + RandomSource + Sync>(
    rt: &R,
    alloc: Global,
    workers: usize,
    text: &str,
) -> Result<(String, u8), RunFault>
    ensures served { IfOk result (λ told. IsServed text.now (string_bytes told.0) told.1) }
    ensures workers { IfErr result (λ fault.
        fault ≡ faults.Workers → IsCountOfWorkers workers → ⊥) }
    ensures requests { IfErr result (λ fault. fault ≡ faults.Requests → IsOverfull text.now) }
    ensures range { IfOk result (λ told. told.1 ≤ 5) }
{
    let (zone, requests) = parts(text);
    match Zone::read(alloc, zone) {
        Ok(records) => run_over_zone(rt, alloc, workers, &records, requests),
        Err(refusal) => bad_zone_output(alloc, zone, refusal),
    }
}

/// What the program prints where there is no run.
fn fault_output(fault: RunFault) -> JobOutput
    ensures { result ≡ spec.faulted fault }
{
    match fault {
        RunFault::Workers => JobOutput::Usage,
        RunFault::Requests => JobOutput::NoInput,
        RunFault::Memory => JobOutput::NoMemory,
        RunFault::Thread => JobOutput::NoThread,
        RunFault::Gathering => JobOutput::NotGathered,
        RunFault::Net => JobOutput::NoNet,
    }
}

/// What the program prints for a zone and requests, with this number of workers, and its status.
pub fn run_output<
    R: Net<Stream: Send, Listener: Send> + Threads + Wait + Clock + RandomSource + Sync,
>(rt: &R, alloc: Global, workers: usize, text: &str) -> JobOutput
    ensures told { spec.IsRunOutput workers text.now result }
    ensures range { spec.status result ≤ 5 }
{
    match run_both(rt, alloc, workers, text) {
        Ok((printed, status)) => JobOutput::Text(printed, status),
        Err(fault) => fault_output(fault),
    }
}

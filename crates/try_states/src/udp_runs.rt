//! Runs over UDP to the server that the environment names, and to one to which the first query is
//! lost.
use crate::udp::wire_to;
use crate::worker_jobs::{ZONE, goes_to, jobs_to, made_by};
use answer_cache::Notice;
use dns_queries::{DATAGRAM_LIMIT, PeerWire};
use dns_transport::{BufferWire, HostWire, SystemClock, UdpServerWire};
use dns_zone::{Zone, serve};
use sip_selection::Reason;
use sip_workers::{OpenGate, Outcome};
use std::alloc::Global;
use std::env::{self, VarError};
use std::net::{Ipv4Addr, Ipv6Addr, Net, SocketAddr};
use std::rt::Env;
use std::sync::atomic::{AtomicBool, Ordering};
use std::sync::{Arc, Wait};
use std::test::Fail;
use std::thread::{self, JoinHandle, Threads};
use std::time::Clock;

/// Requests to the name in the zone, to an address, and to another name.
const REQUESTS: [&str; 3] = [
    "sip:a.example:5070",
    "sip:192.0.2.7",
    "sip:nowhere.example:5060",
];

/// Whether they end as they should.
fn are_right(made: &[(Outcome, Notice)]) -> bool {
    match made {
        [name, address, nowhere] => {
            goes_to(&name.0, 5070)
                && goes_to(&address.0, 5060)
                && matches!(nowhere.0, Outcome::Refused(Reason::NoAddress))
        }
        _ => false,
    }
}

/// So many wires to a server, each with a key of its own.
fn wires_to<'a, R: Net + Clock + AllocGlobal>(
    rt: &'a R,
    server: SocketAddr,
    count: u8,
) -> Option<Vec<BufferWire<HostWire<'a, R>>>> {
    let mut wires = Vec::new(rt.alloc());
    for number in 0..count {
        wires.push(wire_to(rt, server, [number; 32]).ok()?).ok()?;
    }
    Some(wires)
}

/// Whether the requests end as they should, by a worker for each wire.
fn run_over_is_right<
    R: Net<Stream: Send, Listener: Send> + Threads + Wait + Clock + AllocGlobal + Sync,
>(rt: &R, wires: Vec<BufferWire<HostWire<'_, R>>>) -> Option<bool> {
    match jobs_to(rt.alloc(), &REQUESTS) {
        Some(jobs) => match made_by(rt, wires, jobs, 8, &SystemClock::new(rt), &OpenGate) {
            Some(made) => Some(are_right(made.as_slice())),
            None => None,
        },
        None => None,
    }
}

/// The same by so many workers that ask a server.
fn run_is_right<R: Net<Stream: Send, Listener: Send> + Threads + Wait + Clock + AllocGlobal + Sync>(
    rt: &R,
    server: SocketAddr,
    workers: u8,
) -> Option<bool> {
    match wires_to(rt, server, workers) {
        Some(wires) => run_over_is_right(rt, wires),
        None => None,
    }
}

/// Names a DNS server that answers from the same zone, by its address and port.
const SERVER: &str = "TRY_STATES_SERVER";

/// The server that the environment names, if it does.
fn named_server<R: Env + AllocGlobal>(rt: &R) -> Result<Option<SocketAddr>, Fail> {
    match env::var(rt, SERVER) {
        Ok(text) => match text.as_str().parse::<SocketAddr>() {
            Ok(server) => Ok(Some(server)),
            Err(_) => Err(Fail::new(format_args!("{text} is no address and port"))),
        },
        Err(VarError::NotPresent) => Ok(None),
        Err(_) => Err(Fail::new(format_args!("{SERVER} could not be read"))),
    }
}

#[test]
fn requests_to_a_named_server(rt: HostRuntime) -> Result<(), Fail> {
    if let Some(server) = named_server(&rt)? {
        let right = run_is_right(&rt, server, 2) == Some(true);
        assert!(rt; right, "{server}");
    }
    Ok(())
}

/// How often a server waits for the datagram that it loses, at most.
const WAITS: u64 = 100;

/// Receives one datagram and loses it; whether one came.
fn loses_one(wire: &mut UdpServerWire) -> bool {
    let mut buffer = [0; DATAGRAM_LIMIT];
    for _ in 0..WAITS {
        if wire.failures() > WAITS {
            break;
        }
        if let Ok(Some(_)) = wire.receive(&mut buffer) {
            return true;
        }
    }
    false
}

/// Loses the first datagram, and answers the others from a zone; how many it answered, if one was
/// lost.
fn serve_from_the_second<R: Wait>(
    rt: &R,
    alloc: Global,
    wire: &mut UdpServerWire,
    zone: &Zone,
    stop: &AtomicBool,
) -> Option<u64> {
    if loses_one(wire) {
        Some(serve(rt, alloc, wire, zone, stop))
    } else {
        None
    }
}

/// A server on another thread, which loses the first query, and answers the others from a zone
/// until it is to stop.
fn start_server<R: Threads + Wait + AllocGlobal + Copy + Send + Sync + 'static>(
    rt: R,
    mut wire: UdpServerWire,
    stop: Arc<AtomicBool>,
) -> Result<JoinHandle<Option<u64>>, Fail> {
    let Ok(zone) = Zone::read(rt.alloc(), ZONE) else {
        return Err(Fail::new(format_args!("the zone was not read")));
    };
    let server = thread::spawn(&rt, move || {
        serve_from_the_second(&rt, rt.alloc(), &mut wire, &zone, &stop)
    })?;
    Ok(server)
}

/// How many queries such a server over this wire answers, and whether the requests to it end as
/// they should.
fn ended<
    R: Net<Stream: Send, Listener: Send>
        + Threads
        + Wait
        + Clock
        + AllocGlobal
        + Copy
        + Send
        + Sync
        + 'static,
>(rt: R, wire: UdpServerWire) -> Result<(Option<u64>, Option<bool>), Fail> {
    let address = wire.address()?;
    let stop = Arc::new(rt.alloc(), AtomicBool::new(false))?;
    let server = start_server(rt, wire, Arc::try_clone(&stop)?)?;
    let right = run_is_right(&rt, address, 1);
    stop.store(true, Ordering::SeqCst);
    Ok((server.join(&rt), right))
}

/// What is lost is sent again, and answered then, by a server over each family of addresses.
#[test]
fn first_query_lost(rt: HostRuntime) -> Result<(), Fail> {
    let fourth = SocketAddr::from((Ipv4Addr::LOCALHOST, 0));
    let sixth = SocketAddr::from((Ipv6Addr::LOCALHOST, 0));
    for (local, may_lack) in [(fourth, false), (sixth, true)] {
        let wire = match UdpServerWire::bind(&rt, local) {
            Ok(wire) => wire,
            // A host without IPv6 has no such address.
            Err(_) if may_lack => continue,
            Err(error) => return Err(error.into()),
        };
        let (count, right) = ended(rt, wire)?;
        // two names are asked for, of which one was asked for twice
        assert!(rt; count.is_some_and(|count| count >= 2), "{local}");
        assert_eq!(rt; right, Some(true), "{local}");
    }
    Ok(())
}

//! An example: the loop of a proxy, over a resolver core and a cache that serves for months.
//!
//! `proxy_example SERVER`, as `proxy_example 192.0.2.53:53`, reads SIP URIs from standard input,
//! one a line: each stands for a request that comes to the proxy. It has all of them inside at
//! once, as far as there is room, asks a DNS server over UDP, and prints a line for each as it
//! ends: its number and the first target to try (RFC 3263).
//!
//! `Proxy::round` is what a proxy does again and again; `RollingCache` is what its threads share.
//! A proxy also has a socket and a port of its own for each query (RFC 5452 9.2), and asks over TCP
//! what was cut, as a wire of `dns_transport` does. It waits for its SIP sockets too, until
//! `Resolver::next_timeout` at most, and tries the next target where one fails (RFC 3263 4.3).
#![tactic(auto)]

ghost use Rattle.rolling_cache.specs.Rolling.{IsSeatOf};

mod proxy;
mod tell;

use dns_answers::Moment;
use proxy::Proxy;
use rolling_cache::{RollingCache, RollingSeat};
use sip_resolver::{Ids, random_ids, random_key};
use sip_selection::{Caps, Families, Request};
use sip_uri::Transport::{Tcp, Tls, Udp};
use sip_uri::read_uri;
use std::net::{Net, SocketAddr, UdpSocket};
use std::process::ExitCode;
use std::random::RandomSource;
use std::rt::Env;
use std::sync::Wait;
use std::time::{Clock, Duration, Instant};
use std::{env, io};

/// How many threads share the cache: this one.
const SEATS: usize = 1;

/// How many milliseconds a round waits for a reply.
const WAIT: u64 = 100;

/// How many rounds there are at most: those of an hour.
const ROUNDS: u32 = 36_000;

/// The seconds since the start, as a moment.
fn moment_since<R: Clock>(rt: &R, start: Instant) -> io::Result<Moment> {
    let seconds = start.elapsed(rt)?.as_secs();
    Moment::new(seconds).ok_or(io::ErrorKind::InvalidData.into())
}

/// Takes a request in, by its URI and the number of its line.
fn submit_line<R: Print + AllocGlobal, I: Ids + Drop>(
    rt: &R,
    proxy: &mut Proxy<'_, I>,
    number: u64,
    line: &str,
    key: [u8; 32],
    now: Moment,
) -> io::Result<()> {
    let caps = Caps::new(&[Udp, Tcp, Tls], Families::V4ThenV6).unwrap();
    let Ok(uri) = read_uri(rt.alloc(), line) else {
        return println!(rt; "{number} no SIP URI");
    };
    match proxy.submit(number, Request::Uri(uri), caps, key, now) {
        Ok(()) => Ok(()),
        Err(refusal) => println!(rt; "{number} {refusal}"),
    }
}

/// Takes in what comes after so many lines, as far as there is room, and gives how many lines were
/// taken by then.
fn submit_after<R: Print + AllocGlobal, I: Ids + Drop>(
    rt: &R,
    proxy: &mut Proxy<'_, I>,
    lines: &[String],
    taken: usize,
    key: [u8; 32],
    now: Moment,
) -> io::Result<usize> {
    let mut number = taken;
    'lines: for line in lines.iter().skip(taken) {
        if !proxy.has_room() {
            break;
        }
        number = number.wrapping_add(1);
        submit_line(rt, proxy, number as u64, line.as_str(), key, now)?;
    }
    Ok(number)
}

/// Goes from round to round until each request has ended.
fn serve<R: Wait + Print + Clock + AllocGlobal, I: Ids + Drop>(
    rt: &R,
    proxy: &mut Proxy<'_, I>,
    lines: &[String],
    key: [u8; 32],
    start: Instant,
) -> io::Result<()> {
    let mut taken = 0;
    'rounds: for _round in 0..ROUNDS {
        let now = moment_since(rt, start)?;
        taken = submit_after(rt, proxy, lines, taken, key, now)?;
        proxy.round(rt, now)?;
        if taken >= lines.len() && proxy.is_empty() {
            break;
        }
    }
    Ok(())
}

/// A socket to this server, which waits for a round.
fn socket_to<R: Net>(rt: &R, server: SocketAddr) -> io::Result<UdpSocket> {
    let local = if server.is_ipv4() {
        "0.0.0.0:0"
    } else {
        "[::]:0"
    };
    let socket = UdpSocket::bind(rt, local)?;
    socket.connect(server)?;
    socket.set_read_timeout(Some(Duration::from_millis(WAIT)))?;
    Ok(socket)
}

/// Serves these lines with a seat at the cache that is shared.
fn serve_at<R: Wait + Print + Net + Clock + RandomSource + AllocGlobal>(
    rt: &R,
    cache: &RollingCache,
    seat: RollingSeat,
    server: SocketAddr,
    lines: &[String],
    start: Instant,
) -> io::Result<()>
    requires { IsSeatOf cache.now seat }
{
    let key = random_key(rt)?;
    let socket = socket_to(rt, server)?;
    let mut proxy = Proxy::new(rt.alloc(), cache, seat, socket, random_ids(key, 1))?;
    serve(rt, &mut proxy, lines, key, start)
}

/// Serves these lines over a new cache.
fn serve_lines<R: Wait + Print + Net + Clock + RandomSource + AllocGlobal>(
    rt: &R,
    server: SocketAddr,
    lines: &[String],
) -> io::Result<()> {
    let start = Instant::now(rt)?;
    let now = moment_since(rt, start)?;
    let Ok((cache, mut seats)) = RollingCache::new(rt.alloc(), SEATS, now) else {
        return Err(io::ErrorKind::OutOfMemory.into());
    };
    match seats.pop() {
        Some(seat) => serve_at(rt, &cache, seat, server, lines, start),
        None => Ok(()),
    }
}

/// Prints how the program is called, and gives the status.
fn usage<R: Print>(rt: &R) -> io::Result<u8> {
    println!(rt; "usage: proxy_example SERVER <URIS")?;
    Ok(2)
}

/// Does what the words ask for, and gives the status.
fn perform<R: Wait + Env + Input + Print + Net + Clock + RandomSource + AllocGlobal>(
    rt: &R,
) -> io::Result<u8> {
    let words = env::args(rt)?.collect::<Vec<String>>(rt.alloc())?;
    let [_, server] = words.as_slice() else {
        return usage(rt);
    };
    let Ok(server) = server.as_str().parse() else {
        return usage(rt);
    };
    let mut lines = Vec::new(rt.alloc());
    'lines: for line in rt.lines(rt.alloc()) {
        lines.push(line?)?;
    }
    serve_lines(rt, server, lines.as_slice())?;
    Ok(0)
}

fn main(rt: HostRuntime) -> ExitCode {
    match perform(&rt) {
        Ok(status) => ExitCode::from(status),
        Err(_) => ExitCode::FAILURE,
    }
}

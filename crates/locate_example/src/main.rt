//! An example: where a request to a SIP URI is sent (RFC 3263), by a DNS server that is asked over
//! UDP.
//!
//! `locate_example SERVER URI`, as `locate_example 192.0.2.53:53 sip:user@example.com`, prints a
//! line for each target, in the order in which they are to be tried.
#![tactic(auto)]

use answer_cache::{ListCache, Stores};
use dns_queries as queries;
use dns_queries::MessageWire;
use dns_transport::{Attempts, QueryForm, ReplyTimes, RunClock, WireOptions, open_wire};
use sip_resolver::{
    Limits, Outcome, Resolved, Resolver, WireFacts, next_outcome, random_ids, random_key,
};
use sip_selection::{Caps, Families, Request};
use sip_uri::Transport::{Tcp, Tls, Udp};
use sip_uri::{SipUri, address_text, read_uri};
use srv_choice::RandomWords;
use std::net::{Net, SocketAddr};
use std::process::ExitCode;
use std::random::RandomSource;
use std::rt::Env;
use std::sync::Wait;
use std::time::{Clock, Duration};
use std::{env, io};

/// One request at a time.
const LIMITS: Limits = Limits {
    requests: 1,
    questions: 8,
    streams: false,
};

/// The number of the one request.
const NUMBER: u64 = 1;

/// Asks for a request over a wire, with a key of its random ids and words, until it ends.
fn resolve<R: Wait + AllocGlobal, B: Stores<R> + Drop, W: MessageWire, C: queries::Clock>(
    rt: &R,
    request: Request,
    key: [u8; 32],
    book: &B,
    seat: &mut B::Seat,
    wire: &mut W,
    clock: &C,
) -> Option<Resolved<B>>
    requires made_here { B.belongs book.now seat.old }
{
    let caps = Caps::new(&[Udp, Tcp, Tls], Families::V4ThenV6)?;
    let ids = random_ids(key, NUMBER);
    let Ok(mut resolver) = Resolver::<B, WireFacts<W, C>, _>::new(rt.alloc(), LIMITS, ids) else {
        return None;
    };
    let words = RandomWords::Drawn {
        key,
        number: NUMBER,
    };
    let ended = match resolver.submit(NUMBER, request, caps, &words, None) {
        Ok(()) => next_outcome(rt, &mut resolver, book, seat, wire, clock),
        Err(_) => None,
    };
    drop(resolver);
    ended
}

/// The same with a book of its own.
fn resolve_over<R: Wait + AllocGlobal, W: MessageWire, C: queries::Clock>(
    rt: &R,
    request: Request,
    key: [u8; 32],
    wire: &mut W,
    clock: &C,
) -> Option<Outcome> {
    let (book, mut seat) = ListCache::new(rt.alloc());
    let ended = resolve(rt, request, key, &book, &mut seat, wire, clock)?;
    Some(ended.into_outcome())
}

/// What becomes of a request at a server, if anything does within five seconds.
fn resolve_at<R: Wait + Net + Clock + RandomSource + AllocGlobal>(
    rt: &R,
    server: SocketAddr,
    request: Request,
) -> io::Result<Option<Outcome>> {
    let options = WireOptions {
        over_tcp: false,
        form: QueryForm::PLAIN,
        attempts: Attempts::DEFAULT,
        reply_times: ReplyTimes::DEFAULT,
        rotates: false,
        keeps_tries: false,
        total: Duration::from_secs(5),
    };
    let key = random_key(rt)?;
    let clock = RunClock::start(rt)?;
    let mut wire = open_wire(rt, rt.alloc(), &[server], None, options, key)?;
    let outcome = resolve_over(rt, request, key, &mut wire, &clock);
    drop(wire);
    Ok(outcome)
}

/// Prints what became of a request, and gives the status.
fn tell<R: Print + AllocGlobal>(rt: &R, outcome: &Outcome) -> io::Result<u8> {
    match outcome {
        Outcome::Targets(targets) => {
            for target in targets.as_slice() {
                let address = address_text(rt.alloc(), target.address)?;
                println!(rt; "{:?} {address} {}", target.transport, target.port)?;
            }
            Ok(0)
        }
        other => {
            println!(rt; "no targets: {other:?}")?;
            Ok(1)
        }
    }
}

/// Prints a line for one who asks for what cannot be done, and gives the status.
fn refuse<R: Print>(rt: &R, line: &str) -> io::Result<u8> {
    println!(rt; "{line}")?;
    Ok(2)
}

/// Locates a URI by a server, prints what became of it, and gives the status.
fn locate<R: Wait + Print + Net + Clock + RandomSource + AllocGlobal>(
    rt: &R,
    server: SocketAddr,
    uri: SipUri,
) -> io::Result<u8> {
    match resolve_at(rt, server, Request::Uri(uri))? {
        Some(outcome) => tell(rt, &outcome),
        None => {
            println!(rt; "no reply in time")?;
            Ok(1)
        }
    }
}

/// Does so with the words of a server and of a URI.
fn locate_words<R: Wait + Print + Net + Clock + RandomSource + AllocGlobal>(
    rt: &R,
    server: &str,
    uri: &str,
) -> io::Result<u8> {
    let Ok(server) = server.parse() else {
        return refuse(rt, "no address with a port");
    };
    match read_uri(rt.alloc(), uri) {
        Ok(uri) => locate(rt, server, uri),
        Err(_) => refuse(rt, "no SIP URI"),
    }
}

/// Does what the words ask for, and gives the status.
fn perform<R: Wait + Env + Print + Net + Clock + RandomSource + AllocGlobal>(
    rt: &R,
) -> io::Result<u8> {
    let words = env::args(rt)?.collect::<Vec<String>>(rt.alloc())?;
    match words.as_slice() {
        [_, server, uri] => locate_words(rt, server.as_str(), uri.as_str()),
        _ => refuse(rt, "usage: locate_example SERVER URI"),
    }
}

fn main(rt: HostRuntime) -> ExitCode {
    match perform(&rt) {
        Ok(status) => ExitCode::from(status),
        Err(_) => ExitCode::FAILURE,
    }
}

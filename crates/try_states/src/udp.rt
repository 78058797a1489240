//! A question over UDP, to a server on another thread.
ghost use Rattle.std.specs.Prelude.{◌≤◌};

use crate::seats::question;
use crate::worker_jobs::ZONE;
use dns_answers::{Answer, Records, answer_of};
use dns_message::{Kind, Message, Question, read_message};
use dns_queries::{DATAGRAM_LIMIT, PeerWire, Wire};
use dns_transport::{
    Attempts, BufferWire, HostWire, QueryForm, ReplyTimes, UdpServerWire, WireOptions, open_wire,
};
use dns_zone::{Zone, serve};
use std::alloc::Global;
use std::io;
use std::net::{Ipv4Addr, Ipv6Addr, Net, SocketAddr};
use std::sync::atomic::{AtomicBool, Ordering};
use std::sync::{Arc, Wait};
use std::test::Fail;
use std::thread::{self, JoinHandle, Threads};
use std::time::{Clock, Duration};

/// The query for the addresses of a.example.
const QUERY: &[u8; 27] =
    b"\x12\x34\x01\x00\x00\x01\x00\x00\x00\x00\x00\x00\x01a\x07example\x00\x00\x01\x00\x01";

/// The reply of a zone where that address lives for 300 seconds (RFC 1035 4.1): its owner is
/// written out.
const REPLY: &[u8; 52] = b"\x12\x34\x85\x00\x00\x01\x00\x01\x00\x00\x00\x00\
    \x01a\x07example\x00\x00\x01\x00\x01\
    \x01a\x07example\x00\x00\x01\x00\x01\x00\x00\x01\x2c\x00\x04\xc0\x00\x02\x07";

/// How often it is sent, at most, until a reply comes.
const TRIES: u64 = 50;

/// Whether an answer is the address 192.0.2.7, which lives for 300 seconds.
fn is_answer_right(answer: &Answer) -> bool {
    match answer.records() {
        Records::V4(addresses) => {
            addresses.as_slice() == [[192, 0, 2, 7]].as_slice() && answer.life() == 300
        }
        _ => false,
    }
}

/// Whether a message is an authoritative reply to a question with that answer; none of a message
/// without an answer.
fn is_reply_right(alloc: Global, question: &Question, message: &Message) -> Option<bool> {
    let header = message.header.id == 0x1234 && message.header.authoritative;
    match answer_of(alloc, question, message) {
        Ok(answer) => Some(header && is_answer_right(&answer)),
        Err(_) => None,
    }
}

/// Whether octets are an authoritative reply to the query with the address 192.0.2.7, which lives
/// for 300 seconds; if there is memory.
fn is_right(alloc: Global, octets: &[u8]) -> Option<bool> {
    let question = question(alloc, Kind::A, "a.example")?;
    match read_message(alloc, octets) {
        Ok(message) => is_reply_right(alloc, &question, &message),
        Err(_) => None,
    }
}

/// A wire that asks in the form of a query as it is made.
const OPTIONS: WireOptions = WireOptions {
    over_tcp: false,
    form: QueryForm::PLAIN,
    attempts: Attempts::DEFAULT,
    reply_times: ReplyTimes::DEFAULT,
    rotates: false,
    keeps_tries: false,
    total: Duration::MAX,
};

/// A wire to a server, over the sockets of this host. Its ids, its ports and its letters are drawn
/// of this key.
pub(crate) fn wire_to<'a, R: Net + Clock + AllocGlobal>(
    rt: &'a R,
    server: SocketAddr,
    key: [u8; 32],
) -> io::Result<BufferWire<HostWire<'a, R>>> {
    let wire = open_wire(rt, rt.alloc(), &[server], None, OPTIONS, key)?;
    Ok(BufferWire::new(wire))
}

/// Sends the query until a reply comes, and puts that in front of the buffer. The result is the
/// number of its octets, or 0 where none came.
fn receive_reply<W: Wire>(wire: &mut W, buffer: &mut [u8; DATAGRAM_LIMIT]) -> usize
    ensures { result ≤ 4096 }
{
    for _ in 0..TRIES {
        if wire.failures() > TRIES {
            break;
        }
        let _ = wire.send(QUERY);
        if let Ok(Some(count)) = wire.receive(buffer) {
            return count;
        }
    }
    0
}

/// Asks a server until a reply comes, and gives that; of no reply no octets.
fn reply_of<R: Net + Clock + AllocGlobal>(rt: &R, server: SocketAddr) -> io::Result<Vec<u8>> {
    let mut wire = wire_to(rt, server, [1; 32])?;
    let mut buffer = [0; DATAGRAM_LIMIT];
    let count = receive_reply(&mut wire, &mut buffer);
    drop(wire);
    Ok(Vec::from_slice(rt.alloc(), &buffer[..count])?)
}

/// A server on another thread, which answers from a zone until it is to stop.
fn start_server<R: Threads + Wait + AllocGlobal + Copy + Send + Sync + 'static>(
    rt: R,
    mut wire: UdpServerWire,
    stop: Arc<AtomicBool>,
) -> Result<JoinHandle<u64>, Fail> {
    let Ok(zone) = Zone::read(rt.alloc(), ZONE) else {
        return Err(Fail::new(format_args!("the zone was not read")));
    };
    let server = thread::spawn(&rt, move || {
        serve(&rt, rt.alloc(), &mut wire, &zone, &stop)
    })?;
    Ok(server)
}

/// How many queries such a server over this wire answers, and the reply that is asked for.
fn served<R: Net + Threads + Wait + Clock + AllocGlobal + Copy + Send + Sync + 'static>(
    rt: R,
    wire: UdpServerWire,
) -> Result<(u64, io::Result<Vec<u8>>), Fail> {
    let own = wire.address()?;
    let stop = Arc::new(rt.alloc(), AtomicBool::new(false))?;
    let server = start_server(rt, wire, Arc::try_clone(&stop)?)?;
    let reply = reply_of(&rt, own);
    stop.store(true, Ordering::SeqCst);
    Ok((server.join(&rt), reply))
}

#[test]
fn answer_over_udp(rt: HostRuntime) -> Result<(), Fail> {
    let fourth = SocketAddr::from((Ipv4Addr::LOCALHOST, 0));
    let sixth = SocketAddr::from((Ipv6Addr::LOCALHOST, 0));
    for local in [fourth, sixth] {
        // A host without IPv6 has no such address.
        if let Ok(wire) = UdpServerWire::bind(&rt, local) {
            let (count, reply) = served(rt, wire)?;
            let reply = reply?;
            assert!(rt; count >= 1);
            assert_eq!(rt; reply.as_slice(), REPLY.as_slice(), "{local}");
            assert_eq!(rt; is_right(rt.alloc(), &reply), Some(true));
        }
    }
    Ok(())
}

/// What a wire gives of a datagram that another one sends again and again until it is given.
fn first_given(
    wire: &mut UdpServerWire,
    own: SocketAddr,
    sender: &mut UdpServerWire,
    octets: &[u8],
) -> Option<(usize, SocketAddr)> {
    let mut buffer = [0; DATAGRAM_LIMIT];
    for _ in 0..TRIES {
        if wire.failures() > TRIES || sender.failures() > TRIES {
            break;
        }
        let _ = sender.send(octets, own);
        if let Ok(Some(given)) = wire.receive(&mut buffer) {
            return Some(given);
        }
    }
    None
}

/// A server is given how long a datagram is, and who sent it; a long one is cut.
#[test]
fn datagrams_and_their_senders(rt: HostRuntime) -> Result<(), Fail> {
    let local = SocketAddr::from((Ipv4Addr::LOCALHOST, 0));
    let mut server = UdpServerWire::bind(&rt, local)?;
    let mut sender = UdpServerWire::bind(&rt, local)?;
    let (own, peer) = (server.address()?, sender.address()?);
    let long = [7; 5000];
    for (octets, count) in [(b"".as_slice(), 0), (b"server", 6), (&long, DATAGRAM_LIMIT)] {
        let given = first_given(&mut server, own, &mut sender, octets);
        assert_eq!(rt; given, Some((count, peer)));
    }
    Ok(())
}

/// Two servers of this host can run at once.
#[test]
fn ports_of_two_servers(rt: HostRuntime) -> Result<(), Fail> {
    let local = SocketAddr::from((Ipv4Addr::LOCALHOST, 0));
    let one = UdpServerWire::bind(&rt, local)?;
    let other = UdpServerWire::bind(&rt, local)?;
    assert!(rt; one.address()? != other.address()?);
    Ok(())
}

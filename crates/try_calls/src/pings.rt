//! Calls of `sip_ping`, over a flow whose arrivals are lines.
use row_fields::{Fault, Output, first_line, number32, number64, octets, only_line, split_word};
use sip_options::{Address, OptionsRequest, Transport};
use sip_ping::{Answer, Fault as FlowFault, Flow, Received, ping_by_datagrams, ping_by_stream};
use std::alloc::{AllocError, Global};
use std::sync::Wait;

/// What a call gives for a row's lines.
pub(crate) fn told<R: Wait>(
    rt: &R,
    output: &mut Output,
    call: &str,
    input: &str,
) -> Result<(), Fault> {
    match call {
        "ping_by_datagrams" => pinged(rt, output, Transport::Udp, input),
        "ping_by_stream" => pinged(rt, output, Transport::Tcp, input),
        _ => Err(Fault::Call),
    }
}

/// What a flow gives.
#[derive(Drop)]
enum Arrival {
    Octets(Vec<u8>),
    Closed,
    NoMemory,
}

impl Arrival {
    /// The same, as a flow gives it.
    fn received(&self, alloc: Global) -> Received {
        match self {
            Arrival::Octets(octets) => match Vec::from_slice(alloc, octets.as_slice()) {
                Ok(octets) => Received::Octets(octets),
                Err(AllocError) => Received::Failed(FlowFault::Memory),
            },
            Arrival::Closed => Received::Failed(FlowFault::Closed),
            Arrival::NoMemory => Received::Failed(FlowFault::Memory),
        }
    }
}

/// A flow that gives these arrivals at their times, and whose clock goes on as it waits.
#[derive(Drop)]
struct Script {
    now: u64,
    arrivals: Vec<(u64, Arrival)>,
    next: usize,
    /// When the request was sent.
    sent: Vec<u64>,
}

impl Flow for Script {
    ghost use Rattle.std.specs.Prelude.{⊤};

    ghost does = { λ _ _ _. ⊤ };

    fn now(&mut self) -> u64 {
        self.now
    }

    fn send(&mut self, _octets: &[u8]) -> Result<(), FlowFault> {
        self.sent.push(self.now).map_err(|_| FlowFault::Memory)
    }

    fn receive(&mut self, alloc: Global, most: u64) -> Received {
        let until = self.now.saturating_add(most);
        match self.arrivals.get(self.next) {
            Some((at, arrival)) if *at <= until => {
                self.now = self.now.max(*at);
                self.next = self.next.saturating_add(1);
                arrival.received(alloc)
            }
            _ => {
                self.now = until;
                Received::Nothing
            }
        }
    }
}

/// What a line says that arrives, behind its time.
fn arrival_of(alloc: Global, rest: &str) -> Result<Arrival, Fault> {
    match split_word(rest) {
        ("octets", field) => Ok(Arrival::Octets(octets(alloc, field)?)),
        ("closed", "") => Ok(Arrival::Closed),
        ("memory", "") => Ok(Arrival::NoMemory),
        _ => Err(Fault::Form),
    }
}

/// What lines say that arrives.
fn arrivals(alloc: Global, lines: &str) -> Result<Vec<(u64, Arrival)>, Fault> {
    let mut arrivals = Vec::new(alloc);
    if lines.is_empty() {
        return Ok(arrivals);
    }
    for line in lines.split('\n') {
        let (at, rest) = split_word(line);
        let arrival = (number64(at)?, arrival_of(alloc, rest)?);
        arrivals.push(arrival).map_err(|_| Fault::Memory)?;
    }
    Ok(arrivals)
}

/// The request.
fn request(transport: Transport) -> OptionsRequest<'static> {
    OptionsRequest {
        transport,
        address: Address::V4([192, 0, 2, 1]),
        port: 5070,
        uri: "sip:b.example",
        branch: 1,
        from_tag: 2,
        call_id: 3,
        max_forwards: 70,
    }
}

/// Writes what becomes of the request.
fn push_answer(output: &mut Output, answer: Answer) {
    match answer {
        Answer::Replied(reply) => {
            output.push_number(reply.after);
            output.push(" replied ");
            output.push_number(u64::from(reply.status));
            output.push("\n");
        }
        Answer::Silent => output.push_line("silent"),
        Answer::Refused => output.push_line("refused"),
        Answer::Unreadable => output.push_line("unreadable"),
    }
}

/// Writes when the request was sent, and what became of it.
fn push_ping(output: &mut Output, sent: &[u64], answer: Result<Answer, AllocError>) {
    for at in sent {
        output.push_number(*at);
        output.push(" sent\n");
    }
    match answer {
        Ok(answer) => push_answer(output, answer),
        Err(AllocError) => output.push_line("out of memory"),
    }
}

/// A request over a flow until a deadline.
fn ping<R: Wait>(
    rt: &R,
    alloc: Global,
    flow: &mut Script,
    transport: Transport,
    deadline: u32,
) -> Result<Answer, AllocError> {
    match transport {
        Transport::Udp => ping_by_datagrams(rt, alloc, flow, &request(transport), deadline),
        Transport::Tcp => ping_by_stream(rt, alloc, flow, &request(transport), deadline),
    }
}

/// A line with a deadline, and lines with arrivals, give when the request was sent, and what became
/// of it.
fn pinged<R: Wait>(
    rt: &R,
    output: &mut Output,
    transport: Transport,
    input: &str,
) -> Result<(), Fault> {
    let alloc = output.alloc();
    let (line, lines) = first_line(input)?;
    let mut flow = Script {
        now: 0,
        arrivals: arrivals(alloc, only_line(lines))?,
        next: 0,
        sent: Vec::new(alloc),
    };
    let answer = ping(rt, alloc, &mut flow, transport, number32(line)?);
    push_ping(output, flow.sent.as_slice(), answer);
    drop(flow);
    Ok(())
}

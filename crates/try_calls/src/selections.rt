//! Calls of `sip_selection`.
use crate::fields::{Part, parts};
use crate::replies::{Reply, read_reply};
use crate::request_lines::request_line;
use crate::requests::{
    Sending, caps, push_next, push_target, push_targets, read_sending, transport, transport_word,
};
use crate::shown::{push_debug, push_debug_line};
use ip_text::address_from_text;
use row_fields::{Fault, Output, first_line, number16, only_line, split_word};
use sip_selection::{
    Caps, Event, Failover, Failure, GiveRefusal, Selection, Target, with_udp_last,
};
use sip_uri::Transport;
use std::alloc::Global;

/// What a call gives for a row's lines.
pub(crate) fn told(output: &mut Output, call: &str, input: &str) -> Result<(), Fault> {
    match call {
        "next" | "random" => conversation(output, input),
        "caps" => caps_line(output, only_line(input)),
        "failover" => tries(output, input),
        "with_udp_last" => udp_last(output, input),
        "read_request" => request_line(output, only_line(input)),
        _ => Err(Fault::Call),
    }
}

/// The choice of a request.
fn selection_of(alloc: Global, sending: Sending) -> Result<Selection, Fault> {
    let Sending {
        request,
        caps,
        words,
    } = sending;
    match Selection::new(alloc, request, caps, words) {
        Ok(selection) => Ok(selection),
        Err(_) => Err(Fault::Memory),
    }
}

/// The choice of the request of a line.
fn selection(alloc: Global, line: &str) -> Result<Selection, Fault> {
    match read_sending(alloc, line) {
        Ok(sending) => selection_of(alloc, sending),
        Err(fault) => Err(fault),
    }
}

/// Hands a question and its answer to a choice.
fn given(alloc: Global, selection: &mut Selection, reply: Reply) -> Result<(), GiveRefusal> {
    let Reply { question, answer } = reply;
    selection.give(alloc, &question, answer)
}

/// Writes why a reply is not taken.
fn push_given(output: &mut Output, given: Result<(), GiveRefusal>) {
    if let Err(refusal) = given {
        push_debug_line(output, &refusal);
    }
}

/// Hands the question and the answer of a line to a choice, and writes why they are not taken.
fn give(output: &mut Output, selection: &mut Selection, line: &str) {
    match read_reply(output.alloc(), line) {
        Ok(reply) => push_given(output, given(output.alloc(), selection, reply)),
        Err(fault) => output.fail(fault),
    }
}

/// What is next for a choice, before lines with questions and their answers, and after each of
/// them.
fn talk(output: &mut Output, selection: &mut Selection, answers: &str) {
    push_next(output, selection.next());
    for line in answers.lines() {
        give(output, selection, line);
        push_next(output, selection.next());
    }
}

/// The same of this choice.
fn talk_once(output: &mut Output, selection: Selection, answers: &str) {
    let mut selection = selection;
    talk(output, &mut selection, answers);
    drop(selection);
}

/// The same of the choice of a request.
fn talk_of(output: &mut Output, request: &str, answers: &str) {
    match selection(output.alloc(), request) {
        Ok(selection) => talk_once(output, selection, answers),
        Err(fault) => output.fail(fault),
    }
}

/// A line with a request, and lines with questions and their answers, give what is next after each.
fn conversation(output: &mut Output, input: &str) -> Result<(), Fault> {
    let (request, answers) = first_line(input)?;
    talk_of(output, request, answers);
    Ok(())
}

/// Writes which transports a caller has, and its families of addresses.
fn push_caps(output: &mut Output, caps: &Caps) {
    for transport in [
        Transport::Udp,
        Transport::Tcp,
        Transport::Sctp,
        Transport::Tls,
    ] {
        if caps.offers(transport) {
            output.push(transport_word(transport));
            output.push(" ");
        }
    }
    push_debug_line(output, &caps.families());
}

/// Fields with transports and families give those of their caller, or `none` where there is none.
fn caps_line(output: &mut Output, line: &str) -> Result<(), Fault> {
    let (transports, families) = split_word(line);
    match caps(output.alloc(), transports, families)? {
        Some(caps) => push_caps(output, &caps),
        None => output.push_line("none"),
    }
    Ok(())
}

impl Part for Target {
    /// A target: its transport, its address and its port.
    fn read(_alloc: Global, part: &str) -> Result<Target, Fault> {
        let (transport_field, rest) = split_word(part);
        let (address, port) = split_word(rest);
        Ok(Target {
            transport: transport(transport_field)?,
            address: address_from_text(address).ok_or(Fault::Form)?,
            port: number16(port)?,
        })
    }
}

/// Targets, of which ` | ` parts two; `none` where there are none.
fn targets(alloc: Global, line: &str) -> Result<Vec<Target>, Fault> {
    if line == "none" {
        return Ok(Vec::new(alloc));
    }
    parts(alloc, line, " | ")
}

/// How the try of a target went.
fn event(line: &str) -> Result<Event, Fault> {
    match line {
        "503" => Ok(Event::Failed(Failure::Status503)),
        "transport error" => Ok(Event::Failed(Failure::Transport)),
        "timeout" => Ok(Event::Failed(Failure::Timeout)),
        "response" => Ok(Event::Responded),
        _ => Err(Fault::Form),
    }
}

/// Writes targets that were tried.
fn push_tried(output: &mut Output, targets: &[Target]) {
    for target in targets {
        output.push(" | ");
        push_target(output, target);
    }
}

/// Writes the current target.
fn push_current(output: &mut Output, target: Option<&Target>) {
    if let Some(target) = target {
        output.push(" ");
        push_target(output, target);
    }
}

/// Writes how far the tries are, the current target, and those that were tried.
fn push_tries(output: &mut Output, failover: &Failover) {
    push_debug(output, &failover.progress());
    push_current(output, failover.current());
    push_tried(output, failover.tried());
    output.push("\n");
}

/// Tells of a try, and writes how far the tries are then.
fn tell(output: &mut Output, failover: &mut Failover, event: Event) {
    if failover.event(event) != failover.progress() {
        output.fail(Fault::Form);
    }
    push_tries(output, failover);
}

/// A line of targets, and lines with how their tries went, give how far the tries are after each.
fn tries(output: &mut Output, input: &str) -> Result<(), Fault> {
    let (first, events) = first_line(input)?;
    let mut failover = Failover::new(targets(output.alloc(), first)?);
    push_tries(output, &failover);
    for line in events.lines() {
        tell(output, &mut failover, event(line)?);
    }
    drop(failover);
    Ok(())
}

/// Targets, and those over TCP once more.
fn with_last(alloc: Global, line: &str) -> Result<Vec<Target>, Fault> {
    Ok(with_udp_last(targets(alloc, line)?)?)
}

/// A line with targets gives all that are to be tried, a line each.
fn udp_last(output: &mut Output, input: &str) -> Result<(), Fault> {
    let all = with_last(output.alloc(), only_line(input))?;
    push_targets(output, all.as_slice());
    Ok(())
}

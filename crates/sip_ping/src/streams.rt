//! A request over TCP (RFC 3261 18.3).
ghost use Rattle.std.specs.Prelude.{◌≡◌, ◌≤◌, ◌+◌, ℕ, List, [], IfOk};
ghost use Rattle.sip_options.specs.Requests.{request_text};
ghost use Rattle.sip_ping.specs.Messages.{GoesOn, ReadsAt};
ghost use Rattle.sip_ping.specs.Streams.{Ends, IsPart};

use crate::answer::{Answer, Reply};
use crate::flow::{Flow, Received, refused};
use crate::messages::{Front, front_of};
use crate::sending::Sending;
use sip_options::OptionsRequest;
use std::alloc::{AllocError, Global};
use std::sync::Wait;

/// Sends the request, unless the deadline is there.
fn send_once<F: Flow>(flow: &mut F, sending: &Sending<'_>) -> Result<Option<Answer>, AllocError>
    requires octets { sending.now.octets.now ≡ request_text sending.now.request.now }
    ensures { IfOk result (λ it. GoesOn F.does sending.now flow.old it [] flow.new) }
{
    let now = flow.now();
    if now >= sending.deadline {
        return Ok(Some(Answer::Silent));
    }
    match flow.send(sending.octets) {
        Ok(()) => Ok(None),
        Err(fault) => refused(fault),
    }
}

/// Waits until more comes, or so many milliseconds are over.
fn read_more<F: Flow>(
    alloc: Global,
    flow: &mut F,
    sending: &Sending<'_>,
    kept: &mut Vec<u8>,
    most: u64,
) -> Result<Option<Answer>, AllocError>
    ensures { IfOk result (λ it. (first : F) (all : List ℕ) (time : ℕ)
        → ReadsAt F.does sending.now first all time flow.old
        → IsPart all kept.old.items
        → time + most ≤ sending.now.deadline
        → GoesOn F.does sending.now first it kept.new.items flow.new) }
{
    match flow.receive(alloc, most) {
        Received::Octets(octets) => {
            kept.extend_from_slice(&octets)?;
            Ok(None)
        }
        Received::Nothing => Ok(None),
        Received::Failed(fault) => refused(fault),
    }
}

/// Takes the message in front of what came, or waits until more comes.
fn read<F: Flow>(
    alloc: Global,
    flow: &mut F,
    sending: &Sending<'_>,
    kept: &mut Vec<u8>,
) -> Result<Option<Answer>, AllocError>
    ensures { IfOk result (λ it. (first : F) (old : ℕ)
        → ReadsAt F.does sending.now first kept.old.items old flow.old
        → GoesOn F.does sending.now first it kept.new.items flow.new) }
{
    let now = flow.now();
    if now >= sending.deadline {
        return Ok(Some(Answer::Silent));
    }
    match front_of(sending.request, kept.as_slice()) {
        Front::Final(status) => Ok(Some(Answer::Replied(Reply { status, after: now }))),
        Front::Passed(rest) => {
            *kept = Vec::from_slice(alloc, rest)?;
            Ok(None)
        }
        Front::Part(rest) => {
            *kept = Vec::from_slice(alloc, rest)?;
            read_more(alloc, flow, sending, kept, sending.deadline - now)
        }
        Front::Unreadable => Ok(Some(Answer::Unreadable)),
    }
}

/// Sends the request once over a connection, and reads messages of it until a final reply is there,
/// the connection fails, or its clock shows the deadline, in milliseconds.
pub fn ping_by_stream<R: Wait, F: Flow>(
    rt: &R,
    alloc: Global,
    flow: &mut F,
    request: &OptionsRequest<'_>,
    deadline: u32,
) -> Result<Answer, AllocError>
    ensures { IfOk result (λ answer. Ends F.does request.now deadline flow.old answer flow.new) }
{
    let octets = request.octets(alloc)?;
    let sending = Sending {
        request,
        octets: octets.as_slice(),
        deadline: u64::from(deadline),
    };
    if let Some(answer) = send_once(flow, &sending)? {
        return Ok(answer);
    }
    let mut kept = Vec::new(alloc);
    'rounds: for _round in rt.forever() {
        if let Some(answer) = read(alloc, flow, &sending, &mut kept)? {
            return Ok(answer);
        }
    }
    unreachable!()
}

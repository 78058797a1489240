//! A request over UDP (RFC 3261 17.1.2.2).
ghost use Rattle.std.specs.Prelude.{◌≡◌, ◌≤◌, ◌<◌, ◌^◌, ℕ, IfErr, IfOk, OnOk, Some};
ghost use Rattle.sip_options.specs.Requests.{request_text};
ghost use Rattle.sip_ping.specs.Datagrams.{Pings};
ghost use Rattle.sip_ping.specs.Transactions.{AsksAt, FailsWith, GoesOn, IsShort};

use crate::answer::{Answer, Reply};
use crate::flow::{Fault, Flow, Received, refused};
use crate::heard::{Heard, judged};
use crate::sending::Sending;
use crate::timer::Timer;
use sip_options::OptionsRequest;
use std::alloc::{AllocError, Global};
use std::sync::Wait;

/// Sends the request, where Timer E fires.
fn send_due<F: Flow>(
    flow: &mut F,
    sending: &Sending<'_>,
    timer: &mut Timer,
    now: u64,
) -> Result<(), Fault>
    requires octets { sending.now.octets.now ≡ request_text sending.now.request.now }
    requires deadline { sending.now.deadline < 2 ^ 32 }
    requires early { now < sending.now.deadline }
    ensures later { OnOk result (now ≤ timer.new.due) }
    ensures sent { OnOk result ((first : F)
        → AsksAt F.does sending.now first timer.old now flow.old
        → AsksAt F.does sending.now first timer.new now flow.new) }
    ensures failed { IfErr result (λ fault. (first : F)
        → AsksAt F.does sending.now first timer.old now flow.old
        → FailsWith F.does sending.now first fault flow.new) }
{
    if timer.due > now {
        return Ok(());
    }
    flow.send(sending.octets)?;
    timer.set(now);
    Ok(())
}

/// Waits until something comes, Timer E fires, or the deadline is there.
fn hear<F: Flow>(
    alloc: Global,
    flow: &mut F,
    sending: &Sending<'_>,
    timer: &mut Timer,
    most: u64,
) -> Result<Option<Answer>, AllocError>
    ensures { IfOk result (λ it. (first : F) (time : ℕ)
        → IsShort sending.now timer.old time most
        → AsksAt F.does sending.now first timer.old time flow.old
        → GoesOn F.does sending.now first it timer.new flow.new) }
{
    match flow.receive(alloc, most) {
        Received::Octets(octets) => match judged(sending.request, &octets) {
            Heard::Final(status) => {
                let after = flow.now();
                Ok(Some(Answer::Replied(Reply { status, after })))
            }
            Heard::Provisional => {
                timer.slow_down();
                Ok(None)
            }
            Heard::Other => Ok(None),
        },
        Received::Nothing => Ok(None),
        Received::Failed(fault) => refused(fault),
    }
}

/// Sends the request if it is due, and waits.
fn round<F: Flow>(
    alloc: Global,
    flow: &mut F,
    sending: &Sending<'_>,
    timer: &mut Timer,
) -> Result<Option<Answer>, AllocError>
    requires octets { sending.now.octets.now ≡ request_text sending.now.request.now }
    requires deadline { sending.now.deadline < 2 ^ 32 }
    ensures { IfOk result (λ it. (first : F) (old : ℕ)
        → AsksAt F.does sending.now first timer.old old flow.old
        → GoesOn F.does sending.now first it timer.new flow.new) }
{
    let now = flow.now();
    if now >= sending.deadline {
        return Ok(Some(Answer::Silent));
    }
    match send_due(flow, sending, timer, now) {
        Ok(()) => {
            let most = timer.due.min(sending.deadline) - now;
            hear(alloc, flow, sending, timer, most)
        }
        Err(fault) => refused(fault),
    }
}

/// Sends the request over UDP, and again by RFC 3261 17.1.2.2, until a final reply is there, the
/// flow fails, or its clock shows the deadline.
pub fn ping_by_datagrams<R: Wait, F: Flow>(
    rt: &R,
    alloc: Global,
    flow: &mut F,
    request: &OptionsRequest<'_>,
    deadline: u32,
) -> Result<Answer, AllocError>
    ensures { IfOk result (λ answer. Pings F.does request.now deadline flow.old answer flow.new) }
{
    let octets = request.octets(alloc)?;
    let sending = Sending {
        request,
        octets: octets.as_slice(),
        deadline: u64::from(deadline),
    };
    let mut timer = Timer::new();
    'rounds: for _round in rt.forever() {
        if let Some(answer) = round(alloc, flow, &sending, &mut timer)? {
            return Ok(answer);
        }
    }
    unreachable!()
}

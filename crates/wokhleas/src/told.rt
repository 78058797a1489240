//! What C is told of a request that ended.
ghost use Rattle.std.specs.Prelude.{◌≡◌, None, Some, MatchOption};
ghost use Rattle.ip_text.specs.declared.address.Address.TheVariants as address;
ghost use Rattle.wokhleas.specs.Told as spec;

use crate::numbers::{number_of, number_of_reason};
use dns_answers::ReplyRefusal;
use dns_message::Question;
use rolling_resolver::Ended;
use sip_resolver::Outcome;
use sip_selection::Target;
use sip_uri::Address;

/// What became of a request, in numbers.
#[repr(C)]
#[derive(Drop)]
pub struct ToldOutcome {
    /// The number of the request.
    pub number: u64,
    /// How many targets it has.
    pub targets: usize,
    /// Which outcome it is.
    pub kind: u32,
    /// The reason of a refusal, or the RCODE of a bad reply.
    pub detail: u32,
}

/// A target, in numbers.
#[repr(C)]
#[derive(Drop)]
pub struct ToldTarget {
    /// The octets of the address: 4 or 16, and zeros behind them.
    pub address: [u8; 16],
    /// Its port.
    pub port: u16,
    /// Its transport.
    pub transport: u8,
    /// Its family, which is 4 or 6.
    pub family: u8,
}

/// An IPv4 address with zeros behind it.
fn widened(octets: [u8; 4]) -> [u8; 16]
    ensures { result ≡ spec.octets_of (address.V4 octets) }
{
    let [a, b, c, d] = octets;
    [a, b, c, d, 0, 0, 0, 0, 0, 0, 0, 0, 0, 0, 0, 0]
}

/// A target, in numbers.
pub(crate) fn told_target(target: &Target) -> ToldTarget
    ensures { result ≡ spec.target_told target.now }
{
    let (family, address) = match target.address {
        Address::V4(octets) => (4, widened(octets)),
        Address::V6(octets) => (6, octets),
    };
    ToldTarget {
        address,
        port: target.port,
        transport: number_of(target.transport),
        family,
    }
}

/// The RCODE of a bad reply; 0 where it was cut.
fn rcode_of(refusal: ReplyRefusal) -> u32
    ensures { result ≡ spec.rcode_of refusal }
{
    match refusal {
        ReplyRefusal::ServerFault(rcode) => u32::from(rcode),
        _ => 0,
    }
}

/// What became of a request, in numbers.
pub(crate) fn told_outcome(ended: &Ended) -> ToldOutcome
    ensures { result ≡ spec.outcome_told ended.now }
{
    let (kind, detail, targets) = match ended.outcome() {
        Outcome::Targets(list) => (1, 0, list.as_slice().len()),
        Outcome::Refused(reason) => (2, number_of_reason(*reason), 0),
        Outcome::NoAnswer(_) => (3, 0, 0),
        Outcome::BadReply(_, refusal) => (4, rcode_of(*refusal), 0),
        Outcome::NoServer(_) => (5, 0, 0),
        Outcome::Memory => (6, 0, 0),
    };
    ToldOutcome {
        number: ended.number(),
        targets,
        kind,
        detail,
    }
}

/// The target at an index, if there is one.
pub(crate) fn target_at(ended: &Ended, index: usize) -> Option<ToldTarget>
    ensures { result ≡ spec.target_at ended.now index }
{
    match ended.outcome() {
        Outcome::Targets(list) => Some(told_target(list.as_slice().get(index)?)),
        _ => None,
    }
}

/// The question whose answer is missing, if one is.
pub(crate) fn question_of(ended: &Ended) -> Option<&Question>
    ensures { MatchOption result (spec.question_of ended.now.outcome ≡ None)
        (λ question. spec.question_of ended.now.outcome ≡ Some question.now) }
{
    match ended.outcome() {
        Outcome::NoAnswer(question)
        | Outcome::NoServer(question)
        | Outcome::BadReply(question, _) => Some(question),
        _ => None,
    }
}

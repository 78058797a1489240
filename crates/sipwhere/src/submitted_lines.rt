//! What becomes of a text, from what becomes of its request.
ghost use Rattle.std.specs.Prelude.{◌≡◌, ℕ, IfErr, IfOk, IfSome, IsFalse, IsTrue, None, Option};
ghost use Rattle.std.specs.Str.Pattern.{FindsChar};
ghost use Rattle.answer_cache.specs.Seats.{SeatView};
ghost use Rattle.sip_resolver.specs.Outcomes.{Sought};
ghost use Rattle.sip_resolver.specs.Requests.{Stand, weight};
ghost use Rattle.sip_resolver.specs.declared.outcome.Outcome.TheVariants.{Refused};
ghost use Rattle.sip_tries.specs.declared.tries.Extent.{Extent};
ghost use Rattle.sipwhere.specs.LineOutcomes as spec;
ghost use Rattle.sipwhere.specs.LineOutcomes.{EndsAs, EndsSo, IsMissing, IsOfLine, NeedsNoReply, without_address};

use crate::destination::{Destination, destination_of, law_one_destination_of_a_text};
use crate::line::Line;
use crate::locate_settings::LocateSettings;
use crate::noting_wire::NameNotes;
use crate::request_fault::request_fault_at;
use answer_cache::AnswerBook;
use dns_name::Name;
use sip_report::{LineOutcome, RequestFault};
use sip_resolver::{Facts, Ids, Outcome, Resolver, TargetList};
use sip_selection::{Reason, Request, Target, read_request};
use sip_tries::{Extent, Pinger, try_targets};
use sip_uri::{Host, UriRefusal};
use srv_choice::RandomWords;
use std::alloc::Global;

/// Whether a text has the character that stands for octets that are no UTF-8.
fn has_replacement(text: &str) -> bool
    ensures has { IsTrue result → spec.HasReplacement text.now }
    ensures whole { IsFalse result → FindsChar 65533 text.now None }
{
    text.contains('\u{FFFD}')
}

/// The request of a text, or what became of the text: it is none, or memory was refused for it.
fn request_of(alloc: Global, text: &str) -> Result<Request, LineOutcome>
    ensures found { IfOk result (spec.IsOnly text.now) }
    ensures unread { IfErr result (spec.IsUnread text.now) }
{
    match read_request(alloc, text) {
        Ok(request) => Ok(request),
        Err(refusal) => match refusal {
            UriRefusal::Memory => Err(LineOutcome::Memory),
            _ if has_replacement(text) => Err(LineOutcome::NotText),
            _ => match request_fault_at(text) {
                Some(at) => Err(LineOutcome::Bad(RequestFault { refusal, at })),
                None => Err(LineOutcome::Memory),
            },
        },
    }
}

/// What became of a text that asks for this target, whose certificate has to be of this host.
fn named(alloc: Global, target: Target, host: Host) -> LineOutcome
    ensures { spec.IsNamedAs target host result }
{
    match Vec::from_slice(alloc, &[target]) {
        Ok(targets) => LineOutcome::Became(Outcome::Targets(TargetList::new(targets, host))),
        Err(_) => LineOutcome::Memory,
    }
}

/// The request that is located for a text, or what became of the text already: it is none, it asks
/// for a target that the parameters of its Via name, or memory was refused for it.
pub fn located_of(
    alloc: Global,
    settings: &LocateSettings,
    text: &str,
) -> Result<Request, LineOutcome>
    ensures found { IfOk result (spec.IsOnlyLocated settings.now text.now) }
    ensures ready { IfErr result (spec.IsReady settings.now text.now) }
{
    law_one_destination_of_a_text();
    let request = request_of(alloc, text)?;
    match destination_of(alloc, settings, text, request) {
        Ok(Destination::Located(request)) => Ok(request),
        Ok(Destination::Named(target, host)) => Err(named(alloc, target, host)),
        Err(_) => Err(LineOutcome::Memory),
    }
}

/// Hands the request of a text to a resolver, under this number, or gives what became of the text
/// already: it is no request, it asks for a target that its Via names, or memory was refused.
pub fn submit<B: AnswerBook, F: Facts, I: Ids + Drop>(
    alloc: Global,
    resolver: &mut Resolver<B, F, I>,
    number: u64,
    settings: &LocateSettings,
    line: &Line<'_>,
) -> Option<LineOutcome>
    ensures stand { (seat : SeatView) → Stand F.gives F.shows seat resolver.old.requests
        → Stand F.gives F.shows seat resolver.new.requests }
    // The request that is inside after it is that of the text.
    ensures weighs { (h : Sought → ℕ)
        → ((sought : Sought) → sought.number ≡ number → IsOfLine settings.now line.now sought
        → h sought ≡ 0)
        → weight h resolver.new.requests ≡ weight h resolver.old.requests }
    ensures line_outcome { IfSome result (NeedsNoReply settings.now line.now.text.now) }
{
    let request = match located_of(alloc, settings, line.text) {
        Ok(request) => request,
        Err(line_outcome) => return Some(line_outcome),
    };
    let words = RandomWords::Drawn {
        key: settings.key,
        number: line.number,
    };
    match resolver.submit(number, request, settings.caps, &words, None) {
        Ok(()) => None,
        Err(_) => Some(LineOutcome::Memory),
    }
}

/// The name of the host of a request, where the wire knows that it does not exist. `None` also
/// where memory is refused.
fn denied_host<W: NameNotes>(wire: &W, request: &Request) -> Option<Name>
    ensures { IfSome result (IsMissing W.gives request.now) }
{
    match request.target() {
        Host::Domain(name) if wire.is_denied(name) => name.try_clone().ok(),
        _ => None,
    }
}

/// What became of a text whose request has no address.
fn without_address<W: NameNotes>(wire: &W, request: &Request) -> LineOutcome
    ensures { (extent : Option Extent)
        → EndsSo W.gives extent request.now without_address result }
{
    match denied_host(wire, request) {
        Some(name) => LineOutcome::NoSuchName(name),
        None => LineOutcome::Became(Outcome::Refused(Reason::NoAddress)),
    }
}

/// What became of a text whose request goes nowhere.
fn refused<W: NameNotes>(wire: &W, request: &Request, reason: Reason) -> LineOutcome
    ensures { (extent : Option Extent)
        → EndsSo W.gives extent request.now (Refused reason) result }
{
    match reason {
        Reason::NoAddress => without_address(wire, request),
        _ => LineOutcome::Became(Outcome::Refused(reason)),
    }
}

/// How far the targets of a request are tried, if they are: those of a response are not.
fn extent_for(extent: Option<Extent>, request: &Request) -> Option<Extent>
    ensures { result ≡ spec.extent_for extent request.now }
{
    match request {
        Request::Uri(_) => extent,
        Request::Via(_) => None,
    }
}

/// What became of a text whose targets are tried.
fn tried<P: Pinger>(
    alloc: Global,
    pinger: &mut P,
    extent: Extent,
    targets: TargetList,
) -> LineOutcome
    ensures { spec.IsTriedOf extent targets result }
{
    let (targets, host) = targets.into_parts();
    match try_targets(alloc, pinger, extent, targets, host) {
        Ok(tries) => LineOutcome::Tried(tries),
        Err(_) => LineOutcome::Memory,
    }
}

/// What became of a text whose request has targets.
fn with_targets<P: Pinger>(
    alloc: Global,
    pinger: &mut P,
    extent: Option<Extent>,
    targets: TargetList,
) -> LineOutcome
    ensures { spec.HasTargets extent targets result }
{
    match extent {
        Some(extent) => tried(alloc, pinger, extent, targets),
        None => LineOutcome::Became(Outcome::Targets(targets)),
    }
}

/// What became of a text, by the outcome of its request.
fn became<W: NameNotes, P: Pinger>(
    alloc: Global,
    wire: &W,
    pinger: &mut P,
    extent: Option<Extent>,
    request: &Request,
    outcome: Outcome,
) -> LineOutcome
    ensures { EndsSo W.gives extent request.now outcome result }
{
    match outcome {
        Outcome::Refused(reason) => refused(wire, request, reason),
        Outcome::Targets(targets) => {
            with_targets(alloc, pinger, extent_for(extent, request), targets)
        }
        outcome => LineOutcome::Became(outcome),
    }
}

/// What became of a text, by the outcome of its request. The text is read again, since the request
/// is not kept.
pub fn line_outcome_of<W: NameNotes, P: Pinger>(
    alloc: Global,
    wire: &W,
    pinger: &mut P,
    settings: &LocateSettings,
    text: &str,
    outcome: Outcome,
) -> LineOutcome
    ensures { EndsAs W.gives settings.now text.now outcome result }
{
    match located_of(alloc, settings, text) {
        Ok(request) => became(alloc, wire, pinger, settings.extent, &request, outcome),
        Err(line_outcome) => line_outcome,
    }
}

/// What became of a text whose time is over.
pub fn timed_out(alloc: Global, settings: &LocateSettings, text: &str) -> LineOutcome
    ensures { NeedsNoReply settings.now text.now result }
{
    match located_of(alloc, settings, text) {
        Ok(_) => LineOutcome::TimeOver,
        Err(line_outcome) => line_outcome,
    }
}

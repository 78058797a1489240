//! Where what a text asks for goes: a request by its URI, and a response by its Via (RFC 3261
//! 18.2.2, RFC 3581 4, RFC 3263 5).
ghost use Rattle.std.specs.Prelude.{◌≡◌, ◌<◌, ◌==◌, ℕ, IfOk, IfSome, List, MatchOption, Some, length};
ghost use Rattle.std.specs.List.{after_first, before_first, position_or_len};
ghost use Rattle.std.specs.Option.{option_map};
ghost use Rattle.sip_selection.specs.RequestLines.{BeginsVia, RequestText};
ghost use Rattle.sip_selection.specs.declared.request.Request.TheVariants as request;
ghost use Rattle.sip_uri.specs.declared.via.Via.{Via};
ghost use Rattle.sipwhere.specs.Destinations as spec;
ghost use Rattle.sipwhere.specs.declared.destination.Destination.{Destination};
ghost use Rattle.sipwhere.specs.declared.locate_settings.LocateSettings.{LocateSettings};

use crate::locate_settings::LocateSettings;
use sip_response::{Endpoint, Step, response_route};
use sip_selection::{Caps, Request, Target};
use sip_uri::{
    Host, Spoken, Transport, Via, law_one_route_of_a_text, law_one_uri_of_a_text,
    law_one_via_of_a_text, name_of_hostname, view_via_route,
};
use std::alloc::{AllocError, Global};

/// Where what a text asks for goes.
#[derive(Debug, Drop)]
pub enum Destination {
    /// To the targets of this request, which DNS servers are asked for.
    Located(Request),
    /// To this target, which the parameters of a Via name. A certificate has to be of the host in
    /// front of them.
    Named(Target, Host),
}

/// A transport that a Via names, where it is among the sender's.
fn offered_in(caps: &Caps, spoken: Spoken) -> Option<Transport>
    ensures { result ≡ spec.offered_in caps.now spoken }
{
    match spoken {
        Spoken::Known(transport) if caps.offers(transport) => Some(transport),
        _ => None,
    }
}

/// The transport over which a response goes where the parameters of its Via say: the one that the
/// Via names, where it is among the sender's and parameters count.
fn transport_for(settings: &LocateSettings, spoken: Spoken) -> Option<Transport>
    ensures { result ≡ spec.transport_for settings.now spoken }
{
    if settings.by_sent_by {
        return None;
    }
    offered_in(&settings.caps, spoken)
}

/// What stands before and behind the first colon of a line.
fn at_colon(line: &str) -> Option<(&str, &str)>
    ensures { MatchOption result (position_or_len (λ b. b == 58) line.now ≡ length line.now)
        (λ parts. (parts.0.now ≡ before_first (λ b. b == 58) line.now)
        × (parts.1.now ≡ after_first (λ b. b == 58) line.now)
        × (position_or_len (λ b. b == 58) line.now < length line.now)) }
{
    line.split_once(':')
}

/// What stands behind `Via:`, where a line begins with it.
fn behind_colon(line: &str) -> Option<&str>
    ensures { (rest : List ℕ) → BeginsVia line.now rest
        → option_map (λ found. found.now) result ≡ Some rest }
{
    let (_, rest) = at_colon(line)?;
    Some(rest)
}

/// How the response by a Via goes over this transport where its connection is not used.
fn step_of(text: &str, over: Transport) -> Option<Step<'_>>
    ensures step { (via : Via) → RequestText text.now (request.Via via)
        → spec.IsStep text.now via over result }
    ensures name { IfSome result spec.NamesHost }
{
    let rest = behind_colon(text)?;
    match view_via_route(rest.as_bytes()) {
        Ok((parts, params)) => response_route(&parts, &params, over).past_connection(),
        Err(_) => None,
    }
}

/// The target of an endpoint, whose certificate has to be of this host.
fn target_at(over: Transport, host: Host, to: Endpoint) -> Destination
    ensures { result ≡ spec.target_at over host to }
{
    let target = Target {
        transport: over,
        address: to.address,
        port: to.port,
    };
    Destination::Named(target, host)
}

/// The addresses of a name at a port.
fn named_host(
    alloc: Global,
    spoken: Spoken,
    name: &[u8],
    port: u16,
) -> Result<Destination, AllocError>
    requires { spec.IsNameText name.now }
    ensures { IfOk result (λ it. it ≡ spec.named_host spoken name.now port) }
{
    let name = name_of_hostname(alloc, name)?;
    Ok(Destination::Located(Request::Via(Via {
        transport: spoken,
        host: Host::Domain(name),
        port: Some(port),
    })))
}

/// Where the response by a Via goes over this transport, by this step.
fn by_step(
    alloc: Global,
    via: Via,
    over: Transport,
    step: Step<'_>,
) -> Result<Destination, AllocError>
    requires { spec.NamesHost step }
    ensures { IfOk result (λ it. it ≡ spec.by_step via over step.entry) }
{
    match step {
        Step::Opened(to) | Step::Maddr { to, .. } | Step::Received { to, .. } => {
            Ok(target_at(over, via.host, to))
        }
        Step::MaddrName { name, port } => named_host(alloc, via.transport, name, port),
        Step::Connection | Step::SentBy => Ok(Destination::Located(Request::Via(via))),
    }
}

/// Where the response by the Via of a text goes.
fn of_via(
    alloc: Global,
    settings: &LocateSettings,
    text: &str,
    via: Via,
) -> Result<Destination, AllocError>
    requires { RequestText text.now (request.Via via) }
    ensures { IfOk result (spec.IsOfVia text.now via
        (spec.transport_for settings.now via.transport)) }
{
    let Some(over) = transport_for(settings, via.transport) else {
        return Ok(Destination::Located(Request::Via(via)));
    };
    match step_of(text, over) {
        Some(step) => by_step(alloc, via, over, step),
        None => Ok(Destination::Located(Request::Via(via))),
    }
}

/// Where what a text asks for goes, whose request this is.
pub fn destination_of(
    alloc: Global,
    settings: &LocateSettings,
    text: &str,
    request: Request,
) -> Result<Destination, AllocError>
    requires { RequestText text.now request }
    ensures { IfOk result (spec.IsOfRequest settings.now text.now request) }
{
    match request {
        Request::Uri(uri) => Ok(Destination::Located(Request::Uri(uri))),
        Request::Via(via) => of_via(alloc, settings, text, via),
    }
}

/// What a text asks for goes to one destination.
pub fn law_one_destination_of_a_text()
    ensures { (settings : LocateSettings) (text : List ℕ) (it other : Destination)
        → spec.IsDestination settings text it → spec.IsDestination settings text other
        → it ≡ other }
{
    law_one_uri_of_a_text();
    law_one_via_of_a_text();
    law_one_route_of_a_text();
}

//! The paths of a request, as a source of answers has them.
ghost use Rattle.std.specs.Prelude.{◌≡◌, map, None, Some, IfOk, OnOk};
ghost use Rattle.std.specs.Arc.{arc_value};
ghost use Rattle.std.specs.List.{All};
ghost use Rattle.std.specs.Option.{option_map};
ghost use Rattle.sip_selection.specs.Known.{rules_in, servers_in};
ghost use Rattle.resolution_paths.specs.Paths as spec;
ghost use Rattle.resolution_paths.specs.Sources.{Said, Went};

use crate::path::{ResolutionPath, ServiceRecord};
use crate::source::answer_to;
use dns_answers::{Answer, Records};
use dns_message::{Kind, NaptrRecord, SrvRecord};
use dns_name::Name;
use sip_selection::{AnswerSource, Request, service_name, service_transport};
use sip_uri::{Host, Transport};
use std::alloc::{AllocError, Global};
use std::sync::Arc;

/// The transports that name a service of their own (RFC 3263 4.1).
const TRANSPORTS: [Transport; 4] = [
    Transport::Udp,
    Transport::Tcp,
    Transport::Sctp,
    Transport::Tls,
];

/// The NAPTR record that names a service, and for how many seconds its answer may be kept.
#[derive(Clone, Copy)]
pub(crate) struct NamedBy<'a> {
    rule: &'a NaptrRecord,
    life: u32,
}

/// The servers of an answer.
fn servers_in(answer: &Answer) -> &[SrvRecord]
    ensures { result.now ≡ servers_in answer.now.records }
{
    match answer.records() {
        Records::Srv(servers) => servers.as_slice(),
        Records::V4(_) | Records::V6(_) | Records::Naptr(_) => &[],
    }
}

/// The rules of an answer.
fn rules_in(answer: &Answer) -> &[NaptrRecord]
    ensures { result.now ≡ rules_in answer.now.records }
{
    match answer.records() {
        Records::Naptr(rules) => rules.as_slice(),
        Records::V4(_) | Records::V6(_) | Records::Srv(_) => &[],
    }
}

/// Adds the answer of a source to a question about a name, if the source has one.
fn push_answer<S: AnswerSource>(
    answers: &mut Vec<Arc<Answer>>,
    source: &S,
    seat: &mut S::Seat,
    name: &Name,
    kind: Kind,
) -> Result<(), AllocError>
    requires { S.ready source.now seat.old }
    ensures ready { S.ready source.now seat.new }
    ensures went { (start : S.Seat) → Went S.goes start seat.old → Went S.goes start seat.new }
    ensures answer { (start : S.Seat) → Went S.goes start seat.old
        → OnOk result (spec.Adds
        (spec.IsAnswerTo (Said S.goes (S.says source.now) start) name.now kind)
        (map arc_value answers.old.items) (map arc_value answers.new.items)) }
{
    if let Some(answer) = answer_to(source, seat, name, kind)? {
        answers.push(answer)?;
    }
    Ok(())
}

/// The answers that a source has about the addresses of a name.
fn addresses_of<S: AnswerSource>(
    alloc: Global,
    source: &S,
    seat: &mut S::Seat,
    name: &Name,
) -> Result<Vec<Arc<Answer>>, AllocError>
    requires { S.ready source.now seat.old }
    ensures ready { S.ready source.now seat.new }
    ensures went { (start : S.Seat) → Went S.goes start seat.old → Went S.goes start seat.new }
    ensures addresses { (start : S.Seat) → Went S.goes start seat.old
        → IfOk result (λ answers. spec.AreAddressesOf
        (Said S.goes (S.says source.now) start) name.now (map arc_value answers.items)) }
{
    let mut answers = Vec::new(alloc);
    push_answer(&mut answers, source, seat, name, Kind::A)?;
    push_answer(&mut answers, source, seat, name, Kind::Aaaa)?;
    Ok(answers)
}

/// The rule by which a service is named, to keep.
fn rule_by(by: Option<NamedBy<'_>>) -> Result<Option<NaptrRecord>, AllocError>
    ensures { IfOk result (λ rule.
        rule ≡ option_map (λ it. it.0) (option_map spec.naming_of by.entry)) }
{
    match by {
        Some(by) => Ok(Some(by.rule.try_clone()?)),
        None => Ok(None),
    }
}

/// The least of a life and that of the rule by which a service is named.
fn shared_life(by: Option<NamedBy<'_>>, life: u32) -> u32
    ensures { result ≡ spec.shared_life (option_map spec.naming_of by.entry) life }
{
    match by {
        Some(by) => by.life.min(life),
        None => life,
    }
}

/// Adds the path by an SRV record of a service.
fn push_path<S: AnswerSource>(
    paths: &mut Vec<ResolutionPath>,
    alloc: Global,
    source: &S,
    seat: &mut S::Seat,
    service: ServiceRecord,
) -> Result<(), AllocError>
    requires { S.ready source.now seat.old }
    ensures ready { S.ready source.now seat.new }
    ensures went { (start : S.Seat) → Went S.goes start seat.old → Went S.goes start seat.new }
    ensures path { (start : S.Seat) → Went S.goes start seat.old
        → OnOk result (spec.Adds (spec.IsOne (spec.IsPathTo
        (Said S.goes (S.says source.now) start) service.server.target (Some service)))
        paths.old.items paths.new.items) }
{
    let addresses = addresses_of(alloc, source, seat, &service.server.target)?;
    paths.push(ResolutionPath {
        service: Some(service),
        addresses,
    })?;
    Ok(())
}

/// Adds the paths by the SRV records of a service, which is named by its transport alone, or by a
/// rule.
fn push_service<S: AnswerSource>(
    paths: &mut Vec<ResolutionPath>,
    alloc: Global,
    source: &S,
    seat: &mut S::Seat,
    transport: Transport,
    service: &Name,
    by: Option<NamedBy<'_>>,
) -> Result<(), AllocError>
    requires { S.ready source.now seat.old }
    ensures ready { S.ready source.now seat.new }
    ensures went { (start : S.Seat) → Went S.goes start seat.old → Went S.goes start seat.new }
    ensures paths { (start : S.Seat) → Went S.goes start seat.old
        → OnOk result (spec.Adds (spec.ByService (Said S.goes (S.says source.now) start) transport
        service.now (option_map spec.naming_of by.entry)) paths.old.items paths.new.items) }
{
    let Some(answer) = answer_to(source, seat, service, Kind::Srv)? else {
        return Ok(());
    };
    let life = shared_life(by, answer.life());
    'servers: for server in servers_in(&answer) {
        let found = ServiceRecord {
            transport,
            service: service.try_clone()?,
            rule: rule_by(by)?,
            server: server.try_clone()?,
            life,
        };
        push_path(paths, alloc, source, seat, found)?;
    }
    Ok(())
}

/// Adds the paths by the service that a NAPTR record of a domain names, if it names one of SIP.
fn push_by_rule<S: AnswerSource>(
    paths: &mut Vec<ResolutionPath>,
    alloc: Global,
    source: &S,
    seat: &mut S::Seat,
    by: NamedBy<'_>,
) -> Result<(), AllocError>
    requires { S.ready source.now seat.old }
    ensures ready { S.ready source.now seat.new }
    ensures went { (start : S.Seat) → Went S.goes start seat.old → Went S.goes start seat.new }
    ensures paths { (start : S.Seat) → Went S.goes start seat.old
        → OnOk result (spec.Adds (spec.ByRule (Said S.goes (S.says source.now) start) by.entry.life
        by.entry.rule.now) paths.old.items paths.new.items) }
{
    let Some(transport) = service_transport(by.rule) else {
        return Ok(());
    };
    let service = &by.rule.replacement;
    push_service(paths, alloc, source, seat, transport, service, Some(by))
}

/// Adds the paths by the services that the NAPTR records of a domain name (RFC 3263 4.1).
fn push_by_rules<S: AnswerSource>(
    paths: &mut Vec<ResolutionPath>,
    alloc: Global,
    source: &S,
    seat: &mut S::Seat,
    domain: &Name,
) -> Result<(), AllocError>
    requires { S.ready source.now seat.old }
    ensures ready { S.ready source.now seat.new }
    ensures went { (start : S.Seat) → Went S.goes start seat.old → Went S.goes start seat.new }
    ensures paths { (start : S.Seat) → Went S.goes start seat.old
        → OnOk result (spec.Adds (spec.ByRules (Said S.goes (S.says source.now) start) domain.now)
        paths.old.items paths.new.items) }
{
    let Some(answer) = answer_to(source, seat, domain, Kind::Naptr)? else {
        return Ok(());
    };
    let life = answer.life();
    'rules: for rule in rules_in(&answer) {
        push_by_rule(paths, alloc, source, seat, NamedBy { rule, life })?;
    }
    Ok(())
}

/// Adds the paths by the service of a domain that a transport alone names (RFC 3263 4.1).
fn push_by_transport<S: AnswerSource>(
    paths: &mut Vec<ResolutionPath>,
    alloc: Global,
    source: &S,
    seat: &mut S::Seat,
    domain: &Name,
    transport: Transport,
) -> Result<(), AllocError>
    requires { S.ready source.now seat.old }
    ensures ready { S.ready source.now seat.new }
    ensures went { (start : S.Seat) → Went S.goes start seat.old → Went S.goes start seat.new }
    ensures paths { (start : S.Seat) → Went S.goes start seat.old
        → OnOk result (spec.Adds (spec.ByTransport (Said S.goes (S.says source.now) start)
        domain.now transport) paths.old.items paths.new.items) }
{
    let Some(service) = service_name(domain, transport)? else {
        return Ok(());
    };
    push_service(paths, alloc, source, seat, transport, &service, None)
}

/// Adds the paths by the services of a domain that a transport alone names.
fn push_by_transports<S: AnswerSource>(
    paths: &mut Vec<ResolutionPath>,
    alloc: Global,
    source: &S,
    seat: &mut S::Seat,
    domain: &Name,
) -> Result<(), AllocError>
    requires { S.ready source.now seat.old }
    ensures ready { S.ready source.now seat.new }
    ensures went { (start : S.Seat) → Went S.goes start seat.old → Went S.goes start seat.new }
    ensures paths { (start : S.Seat) → Went S.goes start seat.old
        → OnOk result (spec.Adds (spec.ByTransports (Said S.goes (S.says source.now) start)
        domain.now) paths.old.items paths.new.items) }
{
    'transports: for transport in TRANSPORTS {
        push_by_transport(paths, alloc, source, seat, domain, transport)?;
    }
    Ok(())
}

/// Adds the path to the own addresses of a domain.
fn push_own<S: AnswerSource>(
    paths: &mut Vec<ResolutionPath>,
    alloc: Global,
    source: &S,
    seat: &mut S::Seat,
    domain: &Name,
) -> Result<(), AllocError>
    requires { S.ready source.now seat.old }
    ensures ready { S.ready source.now seat.new }
    ensures went { (start : S.Seat) → Went S.goes start seat.old → Went S.goes start seat.new }
    ensures path { (start : S.Seat) → Went S.goes start seat.old
        → OnOk result (spec.Adds (spec.IsOne (spec.IsPathTo
        (Said S.goes (S.says source.now) start) domain.now None))
        paths.old.items paths.new.items) }
{
    let addresses = addresses_of(alloc, source, seat, domain)?;
    paths.push(ResolutionPath {
        service: None,
        addresses,
    })?;
    Ok(())
}

/// Adds the paths by the services of a domain: those that its NAPTR records name first, where these
/// count.
fn push_services<S: AnswerSource>(
    paths: &mut Vec<ResolutionPath>,
    alloc: Global,
    source: &S,
    seat: &mut S::Seat,
    domain: &Name,
    has_rules: bool,
) -> Result<(), AllocError>
    requires { S.ready source.now seat.old }
    ensures ready { S.ready source.now seat.new }
    ensures went { (start : S.Seat) → Went S.goes start seat.old → Went S.goes start seat.new }
    ensures paths { (start : S.Seat) → Went S.goes start seat.old
        → OnOk result (spec.Adds (spec.ByServices (Said S.goes (S.says source.now) start)
        domain.now has_rules) paths.old.items paths.new.items) }
{
    if !has_rules {
        return push_by_transports(paths, alloc, source, seat, domain);
    }
    push_by_rules(paths, alloc, source, seat, domain)?;
    push_by_transports(paths, alloc, source, seat, domain)
}

/// Adds the paths of a domain: those by its services first, where these count.
fn push_all<S: AnswerSource>(
    paths: &mut Vec<ResolutionPath>,
    alloc: Global,
    source: &S,
    seat: &mut S::Seat,
    domain: &Name,
    has_services: bool,
    has_rules: bool,
) -> Result<(), AllocError>
    requires { S.ready source.now seat.old }
    ensures ready { S.ready source.now seat.new }
    ensures went { (start : S.Seat) → Went S.goes start seat.old → Went S.goes start seat.new }
    ensures paths { (start : S.Seat) → Went S.goes start seat.old
        → OnOk result (spec.Adds (spec.ArePaths (Said S.goes (S.says source.now) start) domain.now
        has_services has_rules) paths.old.items paths.new.items) }
{
    if !has_services {
        return push_own(paths, alloc, source, seat, domain);
    }
    push_services(paths, alloc, source, seat, domain, has_rules)?;
    push_own(paths, alloc, source, seat, domain)
}

/// All paths of a request, in the order in which they count. Where the request asks for an address,
/// there is none.
pub fn paths_of<S: AnswerSource>(
    alloc: Global,
    source: &S,
    seat: &mut S::Seat,
    request: &Request,
) -> Result<Vec<ResolutionPath>, AllocError>
    requires { S.ready source.now seat.old }
    ensures ready { S.ready source.now seat.new }
    ensures went { Went S.goes seat.old seat.new }
    ensures whole { IfOk result (λ paths. spec.ArePathsBy
        (Said S.goes (S.says source.now) seat.old) request.now paths.items) }
    ensures paths { IfOk result (λ paths. All (spec.IsPathOf
        (Said S.goes (S.says source.now) seat.old) request.now) paths.items) }
{
    let mut paths = Vec::new(alloc);
    let Host::Domain(domain) = request.target() else {
        return Ok(paths);
    };
    let has_services = request.port().is_none();
    let has_rules = request.spoken().is_none();
    push_all(
        &mut paths,
        alloc,
        source,
        seat,
        domain,
        has_services,
        has_rules,
    )?;
    Ok(paths)
}

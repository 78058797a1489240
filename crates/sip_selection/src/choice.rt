//! Where a request goes, as far as its questions are answered (RFC 3263 4.1, 4.2, 5).
ghost use Rattle.std.specs.Prelude.{◌≡◌, ◌*◌, ◌≤◌, ◌∷◌, ◌++◌, [], ℕ, Bool, List, IfOk, OnErr, OnOk, length, Ok};
ghost use Rattle.std.specs.Arc.{arc_value};
ghost use Rattle.sip_selection.specs.Callers.{CapsValue};
ghost use Rattle.sip_selection.specs.Choice as spec;
ghost use Rattle.sip_selection.specs.Consulting as consult;
ghost use Rattle.sip_selection.specs.Known as known_as;
ghost use Rattle.sip_selection.specs.Known.{made};
ghost use Rattle.sip_uri.specs.Hosts.{DomainText};
ghost use Rattle.sip_uri.specs.Views.{name_of};
ghost use Rattle.sip_uri.specs.declared.host.Host.TheVariants as host;
ghost use Rattle.sip_selection.specs.Requests.{IsRequestView, is_secure, request_of, target_of};
ghost use Rattle.sip_selection.specs.Rules as rules;
ghost use Rattle.sip_selection.specs.Stages as left_of;
ghost use Rattle.sip_selection.specs.declared.target.Target as target;
ghost use Rattle.srv_choice.specs.Draws.{words_of};

use crate::boxed::Boxed;
use crate::caps::Caps;
use crate::position::{push_from, push_services};
use crate::reason::Reason;
use crate::request_view::{RequestView, TargetView};
use crate::rules::usable_services;
use crate::service::{Service, service_at};
use crate::source::{AnswerSource, Stop, answer_from};
use crate::stage::{Candidates, Context, Position, ServiceStage, ServiceStep, Stage, Step, Walk};
use crate::target::Target;
use crate::targets::push_kinds;
use crate::transports::{default_port, offered_default, refused_at_once, transport_offered};
use dns_answers::{Answer, Records};
use dns_message::{Kind, NaptrRecord};
use dns_name::Name;
use sip_uri::{Address, Spoken, Transport, name_of_hostname};
use srv_choice::RandomWords;
use std::alloc::{AllocError, Global};
use std::snapshot::Snapshot;
use std::sync::Arc;

/// The addresses of the domain by a transport at a port, from a kind on.
#[inline(always)]
fn to_domain<'s, S: AnswerSource>(
    walk: &mut Walk<'s>,
    seat: &mut S::Seat,
    context: &Context<'_, 's, S>,
    transport: Transport,
    port: u16,
    from: usize,
) -> Result<Step, AllocError>
    requires needs { consult.Needs (consult.inquiry context.now) walk.old.known
        (λ all. left_of.kinds_left context.now.caps.now all transport port context.now.name.now
        from) }
    requires consulted { consult.Consulted (S.ready context.now.source.now) S.goes
        (S.says context.now.source.now) (consult.inquiry context.now) context.now.start.value
        seat.old walk.old.known }
    ensures consulted { consult.Consulted (S.ready context.now.source.now) S.goes
        (S.says context.now.source.now) (consult.inquiry context.now) context.now.start.value
        seat.new walk.new.known }
    ensures extends { IfOk result (λ _. left_of.Extends walk.old.known walk.new.known) }
    ensures goes { IfOk result (λ step. left_of.Goes context.now walk.new.known
        (λ found all. made
        (λ more. Ok (found ++ more))
        (left_of.kinds_left context.now.caps.now all transport port context.now.name.now from))
        step walk.old.targets.items walk.new.targets.items) }
    ensures lacks { IfOk result
        (consult.StepLacks (S.says context.now.source.now seat.new)) }
{
    let stop = push_kinds(walk, seat, context, transport, port, context.name, from)?;
    Ok(match stop {
        None => Step::Found,
        Some((kind, question)) => {
            let stage = Stage::Domain(transport, port, kind);
            Step::Ask(question, Boxed::new(context.alloc, stage)?)
        }
    })
}

/// Where all services are done: the targets of those that are listed; where none is, and none
/// denied, those of the domain.
fn ended<'s, S: AnswerSource>(
    walk: &mut Walk<'s>,
    seat: &mut S::Seat,
    context: &Context<'_, 's, S>,
    fallback: Result<Transport, Reason>,
    position: Position,
) -> Result<Step, AllocError>
    requires needs { consult.Needs (consult.inquiry context.now) walk.old.known
        (λ all. left_of.ended context.now.caps.now context.now.name.now all fallback position
        walk.old.targets.items []) }
    requires consulted { consult.Consulted (S.ready context.now.source.now) S.goes
        (S.says context.now.source.now) (consult.inquiry context.now) context.now.start.value
        seat.old walk.old.known }
    ensures consulted { consult.Consulted (S.ready context.now.source.now) S.goes
        (S.says context.now.source.now) (consult.inquiry context.now) context.now.start.value
        seat.new walk.new.known }
    ensures extends { IfOk result (λ _. left_of.Extends walk.old.known walk.new.known) }
    ensures goes { IfOk result (λ step. left_of.Goes context.now walk.new.known
        (λ found all. left_of.ended context.now.caps.now
        context.now.name.now all fallback position found [])
        step walk.old.targets.items walk.new.targets.items) }
    ensures lacks { IfOk result
        (consult.StepLacks (S.says context.now.source.now seat.new)) }
{
    if position.is_listed {
        return Ok(Step::Found);
    }
    if position.is_denied {
        return Ok(Step::Refused(Reason::NotOffered));
    }
    match fallback {
        Ok(transport) => to_domain(walk, seat, context, transport, default_port(transport), 0),
        Err(reason) => Ok(Step::Refused(reason)),
    }
}

/// The stage of services at which a question comes up, once more.
fn stage_along(
    alloc: Global,
    candidates: &Arc<Candidates>,
    service_stage: Boxed<ServiceStage>,
) -> Result<Boxed<Stage>, AllocError>
    requires few { left_of.CandidatesFits (arc_value candidates.now) }
    requires words { (left_of.position_of service_stage).word ≤ 32 *
        (left_of.position_of service_stage).service }
    ensures fits { IfOk result left_of.StageFits }
    ensures left { IfOk result (λ stage. (secure : Bool) (caps : CapsValue) (words : List ℕ)
        (name : List (List ℕ)) (found : List target.Target) (all : List known_as.Given)
        → left_of.stage_left secure caps words name stage found all
        ≡ left_of.service_stage_left caps words name all (arc_value candidates.now).services.items
        (arc_value candidates.now).fallback service_stage found) }
{
    let candidates = Arc::try_clone(candidates)?;
    Boxed::new(alloc, Stage::Along(candidates, service_stage))
}

/// The services that are looked for, from a stage on.
fn along<'s, S: AnswerSource>(
    walk: &mut Walk<'s>,
    seat: &mut S::Seat,
    context: &Context<'_, 's, S>,
    candidates: &Arc<Candidates>,
    service_stage: &ServiceStage,
) -> Result<Step, AllocError>
    requires few { left_of.CandidatesFits (arc_value candidates.now) }
    requires words { (left_of.position_of service_stage.now).word ≤ 32 *
        (left_of.position_of service_stage.now).service }
    requires needs { consult.Needs (consult.inquiry context.now) walk.old.known
        (λ all. left_of.service_stage_left context.now.caps.now (words_of context.now.words.now)
        context.now.name.now all
        (arc_value candidates.now).services.items (arc_value candidates.now).fallback
        service_stage.now walk.old.targets.items) }
    requires consulted { consult.Consulted (S.ready context.now.source.now) S.goes
        (S.says context.now.source.now) (consult.inquiry context.now) context.now.start.value
        seat.old walk.old.known }
    ensures consulted { consult.Consulted (S.ready context.now.source.now) S.goes
        (S.says context.now.source.now) (consult.inquiry context.now) context.now.start.value
        seat.new walk.new.known }
    ensures extends { IfOk result (λ _. left_of.Extends walk.old.known walk.new.known) }
    ensures goes { IfOk result (λ step. left_of.Goes context.now walk.new.known
        (λ found all. left_of.service_stage_left context.now.caps.now
        (words_of context.now.words.now)
        context.now.name.now all
        (arc_value candidates.now).services.items (arc_value candidates.now).fallback
        service_stage.now found)
        step walk.old.targets.items walk.new.targets.items) }
    ensures lacks { IfOk result
        (consult.StepLacks (S.says context.now.source.now seat.new)) }
{
    match push_from(walk, seat, context, &candidates.services, service_stage)? {
        ServiceStep::Position(position) => {
            ended(walk, seat, context, candidates.fallback, position)
        }
        ServiceStep::Stop(service_stage, question) => {
            let stage = stage_along(context.alloc, candidates, service_stage)?;
            Ok(Step::Ask(question, stage))
        }
    }
}

/// The stage of services at which a question comes up first.
fn first_stage_along(
    alloc: Global,
    candidates: Candidates,
    service_stage: Boxed<ServiceStage>,
) -> Result<Boxed<Stage>, AllocError>
    requires few { left_of.CandidatesFits candidates }
    requires words { (left_of.position_of service_stage).word ≤ 32 *
        (left_of.position_of service_stage).service }
    ensures fits { IfOk result left_of.StageFits }
    ensures left { IfOk result (λ stage. (secure : Bool) (caps : CapsValue) (words : List ℕ)
        (name : List (List ℕ)) (found : List target.Target) (all : List known_as.Given)
        → left_of.stage_left secure caps words name stage found all
        ≡ left_of.service_stage_left caps words name all candidates.services.items
        candidates.fallback service_stage found) }
{
    let candidates = Arc::new(alloc, candidates)?;
    Boxed::new(alloc, Stage::Along(candidates, service_stage))
}

/// The services that are looked for, from the first on.
fn along_all<'s, S: AnswerSource>(
    walk: &mut Walk<'s>,
    seat: &mut S::Seat,
    context: &Context<'_, 's, S>,
    candidates: Candidates,
) -> Result<Step, AllocError>
    requires few { left_of.CandidatesFits candidates }
    requires needs { consult.Needs (consult.inquiry context.now) walk.old.known
        (λ all. spec.along context.now.caps.now (words_of context.now.words.now) all
        context.now.name.now
        candidates.fallback candidates.services.items) }
    requires consulted { consult.Consulted (S.ready context.now.source.now) S.goes
        (S.says context.now.source.now) (consult.inquiry context.now) context.now.start.value
        seat.old walk.old.known }
    ensures consulted { consult.Consulted (S.ready context.now.source.now) S.goes
        (S.says context.now.source.now) (consult.inquiry context.now) context.now.start.value
        seat.new walk.new.known }
    ensures extends { IfOk result (λ _. left_of.Extends walk.old.known walk.new.known) }
    ensures goes { IfOk result (λ step. left_of.Goes context.now walk.new.known
        (λ found all. made (left_of.in_front found)
        (spec.along context.now.caps.now (words_of context.now.words.now) all context.now.name.now
        candidates.fallback
        candidates.services.items))
        step walk.old.targets.items walk.new.targets.items) }
    ensures lacks { IfOk result
        (consult.StepLacks (S.says context.now.source.now seat.new)) }
{
    match push_services(walk, seat, context, &candidates.services, Position::start())? {
        ServiceStep::Position(position) => {
            ended(walk, seat, context, candidates.fallback, position)
        }
        ServiceStep::Stop(service_stage, question) => {
            let stage = first_stage_along(context.alloc, candidates, service_stage)?;
            Ok(Step::Ask(question, stage))
        }
    }
}

/// Whether a service of the domain is tried without NAPTR records.
fn is_tried(secure: bool, transport: Transport) -> bool
    ensures { result ≡ spec.is_tried secure transport }
{
    (transport == Transport::Tls) == secure
}

/// Adds the service of a domain by the transport of a slot, where that is tried.
fn push_tried(
    services: &mut Vec<Service>,
    secure: bool,
    slot: Option<Transport>,
    name: &Name,
) -> Result<(), AllocError>
    ensures { OnOk result
        (services.new.items ≡ services.old.items ++ spec.tried_services secure name.now
        (slot ∷ [])) }
{
    match slot {
        Some(transport) if is_tried(secure, transport) => {
            services.push(service_at(name, transport)?)?;
            Ok(())
        }
        _ => Ok(()),
    }
}

/// The services of a domain by the caller's transports.
fn own_services(
    alloc: Global,
    secure: bool,
    caps: &Caps,
    name: &Name,
) -> Result<Vec<Service>, AllocError>
    ensures services { IfOk result (λ services. services.items
        ≡ spec.own_services secure caps.now name.now) }
    ensures few { IfOk result (λ services. length services.items ≤ 8) }
{
    let mut services = Vec::new(alloc);
    for slot in caps.slots() {
        push_tried(&mut services, secure, *slot, name)?;
    }
    Ok(services)
}

/// The rules of an answer.
fn rules_in(answer: &Answer) -> &[NaptrRecord]
    ensures rules { result.now ≡ known_as.rules_in answer.now.records }
    ensures few { length result.now ≤ 32 }
{
    match answer.records() {
        Records::Naptr(rules) => rules.as_slice(),
        Records::V4(_) | Records::V6(_) | Records::Srv(_) => &[],
    }
}

/// Where rules lead; without one that is kept, to the services of the domain.
fn candidates_by<'s, S: AnswerSource>(
    context: &Context<'_, 's, S>,
    rules: &[NaptrRecord],
) -> Result<Candidates, AllocError>
    requires { length rules.now ≤ 32 }
    ensures few { IfOk result left_of.CandidatesFits }
    ensures is { IfOk result (λ candidates. (all : List known_as.Given)
        → spec.by_rules context.now.secure context.now.caps.now (words_of context.now.words.now) all
        context.now.name.now rules.now
        ≡ spec.along context.now.caps.now (words_of context.now.words.now) all context.now.name.now
        candidates.fallback
        candidates.services.items) }
{
    let services = usable_services(context.alloc, context.secure, context.caps, rules)?;
    match services.first() {
        Some(first) => {
            let fallback = Ok(first.transport);
            Ok(Candidates { services, fallback })
        }
        None => Ok(Candidates {
            services: own_services(context.alloc, context.secure, context.caps, context.name)?,
            fallback: offered_default(context.secure, context.caps),
        }),
    }
}

/// Where the NAPTR records of the domain lead.
fn by_naptr<'s, S: AnswerSource>(
    walk: &mut Walk<'s>,
    seat: &mut S::Seat,
    context: &Context<'_, 's, S>,
) -> Result<Step, AllocError>
    requires needs { consult.Needs (consult.inquiry context.now) walk.old.known
        (λ all. spec.by_naptr context.now.secure context.now.caps.now
        (words_of context.now.words.now) all
        context.now.name.now) }
    requires consulted { consult.Consulted (S.ready context.now.source.now) S.goes
        (S.says context.now.source.now) (consult.inquiry context.now) context.now.start.value
        seat.old walk.old.known }
    ensures consulted { consult.Consulted (S.ready context.now.source.now) S.goes
        (S.says context.now.source.now) (consult.inquiry context.now) context.now.start.value
        seat.new walk.new.known }
    ensures extends { IfOk result (λ _. left_of.Extends walk.old.known walk.new.known) }
    ensures goes { IfOk result (λ step. left_of.Goes context.now walk.new.known
        (λ found all. made (left_of.in_front found)
        (spec.by_naptr context.now.secure context.now.caps.now (words_of context.now.words.now) all
        context.now.name.now))
        step walk.old.targets.items walk.new.targets.items) }
    ensures lacks { IfOk result
        (consult.StepLacks (S.says context.now.source.now seat.new)) }
{
    match answer_from(walk, seat, context, context.name, Kind::Naptr) {
        Ok(answer) => {
            let candidates = candidates_by(context, rules_in(answer.as_arc()))?;
            along_all(walk, seat, context, candidates)
        }
        Err(Stop::Need(question)) => {
            Ok(Step::Ask(question, Boxed::new(context.alloc, Stage::Rules)?))
        }
        Err(Stop::Memory) => Err(AllocError),
    }
}

/// The service of the domain by the transport that is named.
fn to_service<'s, S: AnswerSource>(
    walk: &mut Walk<'s>,
    seat: &mut S::Seat,
    context: &Context<'_, 's, S>,
    transport: Transport,
) -> Result<Step, AllocError>
    requires needs { consult.Needs (consult.inquiry context.now) walk.old.known
        (λ all. spec.to_service context.now.caps.now (words_of context.now.words.now) all
        context.now.name.now (Ok transport)) }
    requires consulted { consult.Consulted (S.ready context.now.source.now) S.goes
        (S.says context.now.source.now) (consult.inquiry context.now) context.now.start.value
        seat.old walk.old.known }
    ensures consulted { consult.Consulted (S.ready context.now.source.now) S.goes
        (S.says context.now.source.now) (consult.inquiry context.now) context.now.start.value
        seat.new walk.new.known }
    ensures extends { IfOk result (λ _. left_of.Extends walk.old.known walk.new.known) }
    ensures goes { IfOk result (λ step. left_of.Goes context.now walk.new.known
        (λ found all. made (left_of.in_front found)
        (spec.to_service context.now.caps.now (words_of context.now.words.now) all
        context.now.name.now
        (Ok transport)))
        step walk.old.targets.items walk.new.targets.items) }
    ensures lacks { IfOk result
        (consult.StepLacks (S.says context.now.source.now seat.new)) }
{
    let services = vec![in context.alloc; service_at(context.name, transport)?]?;
    let fallback = Ok(transport);
    let candidates = Candidates { services, fallback };
    along_all(walk, seat, context, candidates)
}

/// An address, at the port that is written or the usual one.
fn to_address(
    targets: &mut Vec<Target>,
    address: Address,
    port: Option<u16>,
    transport: Result<Transport, Reason>,
) -> Result<Step, AllocError>
    requires { targets.old.items ≡ [] }
    ensures settles { IfOk result
        (λ step. left_of.Settles step targets.new.items (spec.to_address address port transport)) }
    ensures memory { OnErr result
        (spec.IsNotRefused (spec.resolved (spec.to_address address port transport))) }
{
    let transport = match transport {
        Ok(transport) => transport,
        Err(reason) => return Ok(Step::Refused(reason)),
    };
    let port = port.unwrap_or(default_port(transport));
    targets.push(Target {
        transport,
        address,
        port,
    })?;
    Ok(Step::Found)
}

/// Where the domain leads without a transport that is named. For SIPS, TLS has to be one of the
/// caller's.
#[inline(always)]
fn discovered<'s, S: AnswerSource>(
    walk: &mut Walk<'s>,
    seat: &mut S::Seat,
    context: &Context<'_, 's, S>,
) -> Result<Step, AllocError>
    requires needs { consult.Needs (consult.inquiry context.now) walk.old.known
        (λ all. spec.discovered context.now.secure context.now.caps.now
        (words_of context.now.words.now) all
        context.now.name.now (spec.offered_default context.now.secure context.now.caps.now)) }
    requires consulted { consult.Consulted (S.ready context.now.source.now) S.goes
        (S.says context.now.source.now) (consult.inquiry context.now) context.now.start.value
        seat.old walk.old.known }
    ensures consulted { consult.Consulted (S.ready context.now.source.now) S.goes
        (S.says context.now.source.now) (consult.inquiry context.now) context.now.start.value
        seat.new walk.new.known }
    ensures extends { IfOk result (λ _. left_of.Extends walk.old.known walk.new.known) }
    ensures goes { IfOk result (λ step. left_of.Goes context.now walk.new.known
        (λ found all. made (left_of.in_front found)
        (spec.discovered context.now.secure context.now.caps.now (words_of context.now.words.now)
        all
        context.now.name.now
        (spec.offered_default context.now.secure context.now.caps.now)))
        step walk.old.targets.items walk.new.targets.items) }
    ensures memory { OnErr result (spec.IsNotRefused (spec.resolved
        (spec.discovered context.now.secure context.now.caps.now (words_of context.now.words.now) []
        context.now.name.now
        (spec.offered_default context.now.secure context.now.caps.now)))) }
    ensures lacks { IfOk result
        (consult.StepLacks (S.says context.now.source.now seat.new)) }
{
    match offered_default(context.secure, context.caps) {
        Ok(_) => by_naptr(walk, seat, context),
        Err(_) if !context.secure => by_naptr(walk, seat, context),
        Err(reason) => Ok(Step::Refused(reason)),
    }
}

/// The choice for a domain, from the beginning.
#[inline(always)]
fn for_domain<'s, S: AnswerSource>(
    walk: &mut Walk<'s>,
    seat: &mut S::Seat,
    context: &Context<'_, 's, S>,
    port: Option<u16>,
    spoken: Option<Spoken>,
    transport: Result<Transport, Reason>,
) -> Result<Step, AllocError>
    requires empty { walk.old.targets.items ≡ [] }
    requires needs { consult.Needs (consult.inquiry context.now) walk.old.known
        (λ all. left_of.domain_choice context.now.secure context.now.caps.now
        (words_of context.now.words.now) context.now.name.now all port spoken transport) }
    requires consulted { consult.Consulted (S.ready context.now.source.now) S.goes
        (S.says context.now.source.now) (consult.inquiry context.now) context.now.start.value
        seat.old walk.old.known }
    ensures consulted { consult.Consulted (S.ready context.now.source.now) S.goes
        (S.says context.now.source.now) (consult.inquiry context.now) context.now.start.value
        seat.new walk.new.known }
    ensures extends { IfOk result (λ _. left_of.Extends walk.old.known walk.new.known) }
    ensures comes { IfOk result (λ step. left_of.Comes context.now walk.new.known
        (λ all. left_of.domain_choice context.now.secure context.now.caps.now
        (words_of context.now.words.now)
        context.now.name.now all port spoken transport)
        step walk.new.targets.items) }
    ensures memory { OnErr result (spec.IsNotRefused (spec.resolved
        (left_of.domain_choice context.now.secure context.now.caps.now
        (words_of context.now.words.now)
        context.now.name.now [] port spoken transport))) }
    ensures lacks { IfOk result
        (consult.StepLacks (S.says context.now.source.now seat.new)) }
{
    match (port, spoken, transport) {
        (Some(_), _, Err(reason)) => Ok(Step::Refused(reason)),
        (Some(port), _, Ok(transport)) => to_domain(walk, seat, context, transport, port, 0),
        (None, Some(_), Err(reason)) => Ok(Step::Refused(reason)),
        (None, Some(_), Ok(transport)) => to_service(walk, seat, context, transport),
        (None, None, _) => discovered(walk, seat, context),
    }
}

/// The choice for a request to a name, from the beginning.
#[inline(always)]
fn for_name<'s, S: AnswerSource>(
    walk: &mut Walk<'s>,
    seat: &mut S::Seat,
    source: &'s S,
    alloc: Global,
    request: &RequestView<'_>,
    caps: &Caps,
    words: &RandomWords<'_>,
    name: &Name,
) -> Result<Step, AllocError>
    requires empty { walk.old.targets.items ≡ [] }
    requires ready { S.ready source.now seat.old }
    requires target { target_of (request_of request.now) ≡ host.Domain name.now }
    ensures consulted { consult.Consulted (S.ready source.now) S.goes (S.says source.now)
        (consult.asked_with (request_of request.now) caps.now (words_of words.now) walk.old.known)
        seat.old
        seat.new walk.new.known }
    ensures comes { IfOk result
        (λ step. left_of.ComesTo (is_secure (request_of request.now)) caps.now (words_of words.now)
        (left_of.name_of (target_of (request_of request.now))) walk.new.known
        (spec.chosen (request_of request.now) caps.now (words_of words.now)) step
        walk.new.targets.items) }
    ensures memory { OnErr result
        (spec.IsNotRefused
        (spec.locate (request_of request.now) caps.now (words_of words.now) [])) }
    ensures lacks { IfOk result (consult.StepLacks (S.says source.now seat.new)) }
{
    let context = Context {
        alloc,
        request,
        secure: request.is_secure(),
        caps,
        words,
        name,
        source,
        start: Snapshot::of(seat),
        given: Snapshot::of(&walk.known),
    };
    let transport = transport_offered(request, caps);
    for_domain(
        walk,
        seat,
        &context,
        request.port(),
        request.spoken(),
        transport,
    )
}

/// The choice for a request to a hostname of its text, from the beginning.
#[inline(always)]
fn for_hostname<'s, S: AnswerSource>(
    walk: &mut Walk<'s>,
    seat: &mut S::Seat,
    source: &'s S,
    alloc: Global,
    request: &RequestView<'_>,
    caps: &Caps,
    words: &RandomWords<'_>,
    hostname: &[u8],
) -> Result<Step, AllocError>
    requires empty { walk.old.targets.items ≡ [] }
    requires ready { S.ready source.now seat.old }
    requires hostname { DomainText hostname.now (name_of hostname.now) }
    requires target { target_of (request_of request.now) ≡ host.Domain (name_of hostname.now) }
    ensures consulted { consult.Consulted (S.ready source.now) S.goes (S.says source.now)
        (consult.asked_with (request_of request.now) caps.now (words_of words.now) walk.old.known)
        seat.old
        seat.new walk.new.known }
    ensures comes { IfOk result
        (λ step. left_of.ComesTo (is_secure (request_of request.now)) caps.now (words_of words.now)
        (left_of.name_of (target_of (request_of request.now))) walk.new.known
        (spec.chosen (request_of request.now) caps.now (words_of words.now)) step
        walk.new.targets.items) }
    ensures memory { OnErr result
        (spec.IsNotRefused
        (spec.locate (request_of request.now) caps.now (words_of words.now) [])) }
    ensures lacks { IfOk result (consult.StepLacks (S.says source.now seat.new)) }
{
    let (secure, port, spoken) = (request.is_secure(), request.port(), request.spoken());
    let transport = transport_offered(request, caps);
    if let Some(reason) = refused_at_once(secure, caps, port, spoken, transport) {
        return Ok(Step::Refused(reason));
    }
    let name = name_of_hostname(alloc, hostname)?;
    for_name(walk, seat, source, alloc, request, caps, words, &name)
}

/// The choice for a request, from the beginning.
#[inline(always)]
pub(crate) fn begin<'s, S: AnswerSource>(
    walk: &mut Walk<'s>,
    seat: &mut S::Seat,
    source: &'s S,
    alloc: Global,
    request: &RequestView<'_>,
    caps: &Caps,
    words: &RandomWords<'_>,
) -> Result<Step, AllocError>
    requires empty { walk.old.targets.items ≡ [] }
    requires ready { S.ready source.now seat.old }
    requires view { IsRequestView request.now }
    ensures consulted { consult.Consulted (S.ready source.now) S.goes (S.says source.now)
        (consult.asked_with (request_of request.now) caps.now (words_of words.now) walk.old.known)
        seat.old
        seat.new walk.new.known }
    ensures comes { IfOk result
        (λ step. left_of.ComesTo (is_secure (request_of request.now)) caps.now (words_of words.now)
        (left_of.name_of (target_of (request_of request.now))) walk.new.known
        (spec.chosen (request_of request.now) caps.now (words_of words.now)) step
        walk.new.targets.items) }
    ensures memory { OnErr result
        (spec.IsNotRefused
        (spec.locate (request_of request.now) caps.now (words_of words.now) [])) }
    ensures lacks { IfOk result (consult.StepLacks (S.says source.now seat.new)) }
{
    let targets = &mut walk.targets;
    match request.target() {
        TargetView::V4(it) => {
            let transport = transport_offered(request, caps);
            to_address(targets, Address::V4(it.octets), request.port(), transport)
        }
        TargetView::V6(it) => {
            let transport = transport_offered(request, caps);
            to_address(targets, Address::V6(it.octets), request.port(), transport)
        }
        TargetView::Name(name) => {
            for_name(walk, seat, source, alloc, request, caps, words, name)
        }
        TargetView::Hostname(hostname) => {
            for_hostname(walk, seat, source, alloc, request, caps, words, hostname)
        }
    }
}

/// The choice for a domain, from a stage on.
pub(crate) fn resume<'s, S: AnswerSource>(
    walk: &mut Walk<'s>,
    seat: &mut S::Seat,
    context: &Context<'_, 's, S>,
    stage: &Stage,
) -> Result<Step, AllocError>
    requires fits { left_of.StageFits stage.now }
    requires needs { consult.Needs (consult.inquiry context.now) walk.old.known
        (left_of.stage_left context.now.secure context.now.caps.now (words_of context.now.words.now)
        context.now.name.now stage.now walk.old.targets.items) }
    requires consulted { consult.Consulted (S.ready context.now.source.now) S.goes
        (S.says context.now.source.now) (consult.inquiry context.now) context.now.start.value
        seat.old walk.old.known }
    ensures consulted { consult.Consulted (S.ready context.now.source.now) S.goes
        (S.says context.now.source.now) (consult.inquiry context.now) context.now.start.value
        seat.new walk.new.known }
    ensures extends { IfOk result (λ _. left_of.Extends walk.old.known walk.new.known) }
    ensures goes { IfOk result (λ step. left_of.Goes context.now walk.new.known
        (left_of.stage_left context.now.secure context.now.caps.now (words_of context.now.words.now)
        context.now.name.now stage.now)
        step walk.old.targets.items walk.new.targets.items) }
    ensures lacks { IfOk result
        (consult.StepLacks (S.says context.now.source.now seat.new)) }
{
    match stage {
        Stage::Rules => by_naptr(walk, seat, context),
        Stage::Along(candidates, service_stage) => {
            along(walk, seat, context, candidates, service_stage.as_ref())
        }
        Stage::Domain(transport, port, from) => {
            to_domain(walk, seat, context, *transport, *port, *from)
        }
    }
}

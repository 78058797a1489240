//! What services offer, one after the other (RFC 3263 4.1, 4.2, RFC 2782).
ghost use Rattle.std.specs.Prelude.{◌≡◌, ◌+◌, ◌*◌, ◌<◌, ◌≤◌, ◌∷◌, ◌++◌, drop, length, List, IfOk};
ghost use Rattle.std.specs.Arc.{arc_value};
ghost use Rattle.dns_answers.specs.Found.{answer_in};
ghost use Rattle.sip_selection.specs.Callers.{kinds_of};
ghost use Rattle.sip_selection.specs.Consulting as consult;
ghost use Rattle.sip_selection.specs.FixedOrders.{order_by};
ghost use Rattle.sip_selection.specs.Known.{after, servers_in};
ghost use Rattle.sip_selection.specs.Services.{offer_along, offer_by};
ghost use Rattle.sip_selection.specs.Stages as spec;
ghost use Rattle.sip_selection.specs.declared.service.Service.{Service};
ghost use Rattle.srv_choice.specs.Draws.{words_of};

use crate::boxed::Boxed;
use crate::caps::Caps;
use crate::service::Service;
use crate::source::{AnswerSource, Stop, answer_from};
use crate::stage::{Context, Cursor, Listing, Position, ServiceStage, ServiceStep, Walk};
use crate::targets::push_indexes;
use dns_answers::{Answer, FoundAnswer, Records};
use dns_message::{Kind, SrvRecord};
use sip_uri::Transport;
use srv_choice::{Indexes, RandomWords, SrvOutcome, fixed_order, random_order};
use std::alloc::AllocError;
use std::sync::Arc;

/// The servers of an answer.
fn servers_in(answer: &Answer) -> &[SrvRecord]
    ensures servers { result.now ≡ servers_in answer.now.records }
    ensures few { length result.now ≤ 32 }
{
    match answer.records() {
        Records::Srv(servers) => servers.as_slice(),
        Records::V4(_) | Records::V6(_) | Records::Naptr(_) => &[],
    }
}

/// What SRV records say of a service: ordered by the words from an index on, or in the fixed order.
#[inline(always)]
fn order_by(caps: &Caps, servers: &[SrvRecord], words: &RandomWords<'_>, from: usize) -> SrvOutcome
    requires few { length servers.now ≤ 32 }
    requires enough_words { from + length servers.now ≤ 256 }
    ensures { result ≡ order_by caps.now.is_fixed servers.now (words_of words.now) from }
{
    if caps.is_fixed() {
        fixed_order(servers, from)
    } else {
        random_order(servers, words, from)
    }
}

/// Adds the addresses of the servers of a listed service, from a cursor on. After them goes this
/// walk.
fn push_listing<'s, S: AnswerSource>(
    walk: &mut Walk<'s>,
    seat: &mut S::Seat,
    context: &Context<'_, 's, S>,
    listing: &Arc<Listing>,
    from: Cursor,
    position: Position,
) -> Result<ServiceStep, AllocError>
    requires fits { position.word ≤ 32 * position.service }
    requires needs { consult.Needs (consult.inquiry context.now) walk.old.known
        (λ all. spec.listing_left context.now.caps.now all (arc_value listing.now) from) }
    requires consulted { consult.Consulted (S.ready context.now.source.now) S.goes
        (S.says context.now.source.now) (consult.inquiry context.now) context.now.start.value
        seat.old walk.old.known }
    ensures consulted { consult.Consulted (S.ready context.now.source.now) S.goes
        (S.says context.now.source.now) (consult.inquiry context.now) context.now.start.value
        seat.new walk.new.known }
    ensures extends { IfOk result (λ _. spec.Extends walk.old.known walk.new.known) }
    ensures left { IfOk result (λ service_step. (services : List Service)
        → spec.Walks context.now walk.new.known services
        (λ all fallback found. spec.servers_first context.now.caps.now
        (words_of context.now.words.now)
        context.now.name.now all services fallback
        (arc_value listing.now) from position found)
        service_step walk.old.targets.items walk.new.targets.items) }
    ensures fits { IfOk result spec.ServiceStepFits }
    ensures goes_on { IfOk result (spec.GoesOnAt position.service) }
    ensures lacks { IfOk result
        (consult.ServiceStepLacks (S.says context.now.source.now seat.new)) }
{
    let servers = servers_in(&listing.answer);
    let (transport, indexes) = (listing.transport, listing.indexes.as_slice());
    match push_indexes(walk, seat, context, transport, servers, indexes, from)? {
        None => Ok(ServiceStep::Position(position)),
        Some((cursor, question)) => {
            let listing = Arc::try_clone(listing)?;
            let service_stage = ServiceStage::Server(listing, cursor, position);
            Ok(ServiceStep::Stop(Boxed::new(context.alloc, service_stage)?, question))
        }
    }
}

/// Adds the addresses of the servers of a listed service, from the first on. After them goes this
/// walk.
fn push_listed<'s, S: AnswerSource>(
    walk: &mut Walk<'s>,
    seat: &mut S::Seat,
    context: &Context<'_, 's, S>,
    transport: Transport,
    answer: FoundAnswer<'s>,
    indexes: Indexes,
    position: Position,
) -> Result<ServiceStep, AllocError>
    requires fits { position.word ≤ 32 * position.service }
    requires needs { consult.Needs (consult.inquiry context.now) walk.old.known
        (λ all. spec.servers_left context.now.caps.now all transport
        (servers_in (answer_in answer).records) indexes spec.first_server) }
    requires consulted { consult.Consulted (S.ready context.now.source.now) S.goes
        (S.says context.now.source.now) (consult.inquiry context.now) context.now.start.value
        seat.old walk.old.known }
    ensures consulted { consult.Consulted (S.ready context.now.source.now) S.goes
        (S.says context.now.source.now) (consult.inquiry context.now) context.now.start.value
        seat.new walk.new.known }
    ensures extends { IfOk result (λ _. spec.Extends walk.old.known walk.new.known) }
    ensures left { IfOk result (λ service_step. (services : List Service)
        → spec.Walks context.now walk.new.known services
        (λ all fallback found. after (λ more. spec.position_left context.now.caps.now
        (words_of context.now.words.now) context.now.name.now all services fallback position (found
        ++ more))
        (spec.servers_left context.now.caps.now all transport
        (servers_in (answer_in answer.entry).records) indexes spec.first_server))
        service_step walk.old.targets.items walk.new.targets.items) }
    ensures fits { IfOk result spec.ServiceStepFits }
    ensures goes_on { IfOk result (spec.GoesOnAt position.service) }
    ensures lacks { IfOk result
        (consult.ServiceStepLacks (S.says context.now.source.now seat.new)) }
{
    let servers = servers_in(answer.as_arc());
    let from = Cursor { server: 0, kind: 0 };
    match push_indexes(
        walk,
        seat,
        context,
        transport,
        servers,
        indexes.as_slice(),
        from,
    )? {
        None => Ok(ServiceStep::Position(position)),
        Some((cursor, question)) => {
            let listing = Listing {
                transport,
                answer: answer.into_arc()?,
                indexes,
            };
            let listing = Arc::new(context.alloc, listing)?;
            let service_stage = ServiceStage::Server(listing, cursor, position);
            Ok(ServiceStep::Stop(Boxed::new(context.alloc, service_stage)?, question))
        }
    }
}

/// What the SRV records of an answer offer.
fn push_answer<'s, S: AnswerSource>(
    walk: &mut Walk<'s>,
    seat: &mut S::Seat,
    context: &Context<'_, 's, S>,
    transport: Transport,
    answer: FoundAnswer<'s>,
    position: Position,
) -> Result<ServiceStep, AllocError>
    requires few { position.service < 8 }
    requires words { position.word ≤ 32 * position.service }
    requires needs { consult.Needs (consult.inquiry context.now) walk.old.known
        (λ all. offer_by all (kinds_of context.now.caps.now.families)
        context.now.caps.now.is_fixed (words_of context.now.words.now)
        transport position.word (answer_in answer)) }
    requires consulted { consult.Consulted (S.ready context.now.source.now) S.goes
        (S.says context.now.source.now) (consult.inquiry context.now) context.now.start.value
        seat.old walk.old.known }
    ensures consulted { consult.Consulted (S.ready context.now.source.now) S.goes
        (S.says context.now.source.now) (consult.inquiry context.now) context.now.start.value
        seat.new walk.new.known }
    ensures extends { IfOk result (λ _. spec.Extends walk.old.known walk.new.known) }
    ensures left { IfOk result (λ service_step. (services : List Service)
        → spec.Walks context.now walk.new.known services
        (λ all fallback found. spec.offer_left context.now.caps.now (words_of context.now.words.now)
        context.now.name.now all services fallback position found
        (offer_by all
        (kinds_of context.now.caps.now.families) context.now.caps.now.is_fixed
        (words_of context.now.words.now) transport position.word
        (answer_in answer.entry)))
        service_step walk.old.targets.items walk.new.targets.items) }
    ensures fits { IfOk result spec.ServiceStepFits }
    ensures goes_on { IfOk result (spec.GoesOnAt (position.service + 1)) }
    ensures lacks { IfOk result
        (consult.ServiceStepLacks (S.says context.now.source.now seat.new)) }
{
    let servers = servers_in(answer.as_arc());
    let outcome = order_by(context.caps, servers, context.words, position.word);
    let behind = position.behind(&outcome);
    match outcome {
        SrvOutcome::Absent | SrvOutcome::Denied => Ok(ServiceStep::Position(behind)),
        SrvOutcome::Listed(indexes, _) => {
            push_listed(walk, seat, context, transport, answer, indexes, behind)
        }
    }
}

/// What the next service offers. Without a name it offers nothing.
fn push_service<'s, S: AnswerSource>(
    walk: &mut Walk<'s>,
    seat: &mut S::Seat,
    context: &Context<'_, 's, S>,
    service: &Service,
    position: Position,
) -> Result<ServiceStep, AllocError>
    requires few { position.service < 8 }
    requires words { position.word ≤ 32 * position.service }
    requires needs { consult.Needs (consult.inquiry context.now) walk.old.known
        (λ all. offer_along all (kinds_of context.now.caps.now.families)
        context.now.caps.now.is_fixed (words_of context.now.words.now)
        service.now position.word) }
    requires consulted { consult.Consulted (S.ready context.now.source.now) S.goes
        (S.says context.now.source.now) (consult.inquiry context.now) context.now.start.value
        seat.old walk.old.known }
    ensures consulted { consult.Consulted (S.ready context.now.source.now) S.goes
        (S.says context.now.source.now) (consult.inquiry context.now) context.now.start.value
        seat.new walk.new.known }
    ensures extends { IfOk result (λ _. spec.Extends walk.old.known walk.new.known) }
    ensures left { IfOk result
        (λ service_step. (services : List Service) → drop position.service services
        ≡ service.now ∷ drop (position.service + 1) services
        → spec.Walks context.now walk.new.known services
        (λ all fallback found. spec.position_left context.now.caps.now
        (words_of context.now.words.now)
        context.now.name.now all services fallback position found)
        service_step walk.old.targets.items walk.new.targets.items) }
    ensures fits { IfOk result spec.ServiceStepFits }
    ensures goes_on { IfOk result (spec.GoesOnAt (position.service + 1)) }
    ensures lacks { IfOk result
        (consult.ServiceStepLacks (S.says context.now.source.now seat.new)) }
{
    let Some(name) = &service.name else {
        return Ok(ServiceStep::Position(position.behind(&SrvOutcome::Absent)));
    };
    match answer_from(walk, seat, context, name, Kind::Srv) {
        Ok(answer) => push_answer(walk, seat, context, service.transport, answer, position),
        Err(Stop::Need(question)) => Ok(ServiceStep::Stop(
            Boxed::new(context.alloc, ServiceStage::ServiceRecords(position))?,
            question,
        )),
        Err(Stop::Memory) => Err(AllocError),
    }
}

/// What the services offer, one after the other, from a position on: all, or up to the first
/// question without an answer.
pub(crate) fn push_services<'s, S: AnswerSource>(
    walk: &mut Walk<'s>,
    seat: &mut S::Seat,
    context: &Context<'_, 's, S>,
    services: &[Service],
    from: Position,
) -> Result<ServiceStep, AllocError>
    requires few { length services.now ≤ 8 }
    requires words { from.word ≤ 32 * from.service }
    requires needs { consult.NeedsAlong (consult.inquiry context.now) walk.old.known
        (λ all fallback. spec.position_left context.now.caps.now (words_of context.now.words.now)
        context.now.name.now all services.now fallback from walk.old.targets.items) }
    requires consulted { consult.Consulted (S.ready context.now.source.now) S.goes
        (S.says context.now.source.now) (consult.inquiry context.now) context.now.start.value
        seat.old walk.old.known }
    ensures consulted { consult.Consulted (S.ready context.now.source.now) S.goes
        (S.says context.now.source.now) (consult.inquiry context.now) context.now.start.value
        seat.new walk.new.known }
    ensures extends { IfOk result (λ _. spec.Extends walk.old.known walk.new.known) }
    ensures left { IfOk result (λ service_step. spec.Walks context.now walk.new.known services.now
        (λ all fallback found. spec.position_left context.now.caps.now
        (words_of context.now.words.now)
        context.now.name.now all services.now fallback from found)
        service_step walk.old.targets.items walk.new.targets.items) }
    ensures fits { IfOk result spec.ServiceStepFits }
    ensures all { IfOk result (spec.IsPast (length services.now)) }
    ensures lacks { IfOk result
        (consult.ServiceStepLacks (S.says context.now.source.now seat.new)) }
{
    let mut position = from;
    for at in from.service..services.len() {
        match push_service(walk, seat, context, &services[at], position)? {
            ServiceStep::Position(behind) => position = behind,
            stop => return Ok(stop),
        }
    }
    Ok(ServiceStep::Position(position))
}

/// What the services offer from a stage on.
pub(crate) fn push_from<'s, S: AnswerSource>(
    walk: &mut Walk<'s>,
    seat: &mut S::Seat,
    context: &Context<'_, 's, S>,
    services: &[Service],
    service_stage: &ServiceStage,
) -> Result<ServiceStep, AllocError>
    requires few { length services.now ≤ 8 }
    requires words { (spec.position_of service_stage.now).word ≤ 32 *
        (spec.position_of service_stage.now).service }
    requires needs { consult.NeedsAlong (consult.inquiry context.now) walk.old.known
        (λ all fallback. spec.service_stage_left context.now.caps.now
        (words_of context.now.words.now)
        context.now.name.now all services.now fallback service_stage.now
        walk.old.targets.items) }
    requires consulted { consult.Consulted (S.ready context.now.source.now) S.goes
        (S.says context.now.source.now) (consult.inquiry context.now) context.now.start.value
        seat.old walk.old.known }
    ensures consulted { consult.Consulted (S.ready context.now.source.now) S.goes
        (S.says context.now.source.now) (consult.inquiry context.now) context.now.start.value
        seat.new walk.new.known }
    ensures extends { IfOk result (λ _. spec.Extends walk.old.known walk.new.known) }
    ensures left { IfOk result (λ service_step. spec.Walks context.now walk.new.known services.now
        (λ all fallback found. spec.service_stage_left context.now.caps.now
        (words_of context.now.words.now)
        context.now.name.now all services.now fallback service_stage.now found)
        service_step walk.old.targets.items walk.new.targets.items) }
    ensures fits { IfOk result spec.ServiceStepFits }
    ensures all { IfOk result (spec.IsPast (length services.now)) }
    ensures lacks { IfOk result
        (consult.ServiceStepLacks (S.says context.now.source.now seat.new)) }
{
    match service_stage {
        ServiceStage::ServiceRecords(position) => {
            push_services(walk, seat, context, services, *position)
        }
        ServiceStage::Server(listing, cursor, position) => {
            match push_listing(walk, seat, context, listing, *cursor, *position)? {
                ServiceStep::Position(position) => {
                    push_services(walk, seat, context, services, position)
                }
                stop => Ok(stop),
            }
        }
    }
}

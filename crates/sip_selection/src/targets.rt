//! The targets of the addresses of names (RFC 3263 4.2).
ghost use Rattle.std.specs.Prelude.{◌≡◌, ◌≤◌, ◌++◌, List, None, IfOk, IfSome, OnOk, map, true};
ghost use Rattle.dns_answers.specs.Records.{count_of};
ghost use Rattle.sip_selection.specs.Consulting as consult;
ghost use Rattle.sip_selection.specs.FixedOrders.{addresses_by};
ghost use Rattle.sip_selection.specs.Services as spec;
ghost use Rattle.sip_selection.specs.Stages as stage;
ghost use Rattle.sip_selection.specs.declared.target.Target as target;

use crate::boxed::Boxed;
use crate::caps::kinds_of;
use crate::source::{AnswerSource, Stop, answer_from};
use crate::stage::{Context, Cursor, Walk};
use crate::target::Target;
use dns_answers::Records;
use dns_message::{Question, SrvRecord};
use dns_name::Name;
use record_order::in_order;
use sip_uri::{Address, Transport};
use std::alloc::AllocError;

/// How many targets there is room for once there is one.
const FIRST_ROOM: usize = 8;

/// Makes room for the first targets.
fn make_room(targets: &mut Vec<Target>) -> Result<(), AllocError>
    ensures { targets.new.items ≡ targets.old.items }
{
    if targets.is_empty() {
        targets.reserve(FIRST_ROOM)?;
    }
    Ok(())
}

/// Adds these addresses of IPv4 at a port.
fn push_v4(
    targets: &mut Vec<Target>,
    transport: Transport,
    port: u16,
    addresses: &[[u8; 4]],
) -> Result<(), AllocError>
    ensures { OnOk result (targets.new.items ≡ targets.old.items
        ++ map (spec.target_at transport port) (map Address.V4 addresses.now)) }
{
    make_room(targets)?;
    for octets in addresses {
        targets.push(Target {
            transport,
            address: Address::V4(*octets),
            port,
        })?;
    }
    Ok(())
}

/// Adds these addresses of IPv6 at a port.
fn push_v6(
    targets: &mut Vec<Target>,
    transport: Transport,
    port: u16,
    addresses: &[[u8; 16]],
) -> Result<(), AllocError>
    ensures { OnOk result (targets.new.items ≡ targets.old.items
        ++ map (spec.target_at transport port) (map Address.V6 addresses.now)) }
{
    make_room(targets)?;
    for octets in addresses {
        targets.push(Target {
            transport,
            address: Address::V6(*octets),
            port,
        })?;
    }
    Ok(())
}

/// Adds the addresses that records have at a port, in the fixed order. By itself, since room for
/// them is filled with zeros where a function begins.
#[inline(never)]
fn push_in_order(
    targets: &mut Vec<Target>,
    transport: Transport,
    port: u16,
    records: &Records,
) -> Result<(), AllocError>
    requires { count_of records.now ≤ 32 }
    ensures { OnOk result (targets.new.items ≡ targets.old.items
        ++ map (spec.target_at transport port) (addresses_by true records.now)) }
{
    match records {
        Records::V4(addresses) => {
            let addresses = in_order(addresses.as_slice());
            push_v4(targets, transport, port, addresses.as_slice())
        }
        Records::V6(addresses) => {
            let addresses = in_order(addresses.as_slice());
            push_v6(targets, transport, port, addresses.as_slice())
        }
        Records::Srv(_) | Records::Naptr(_) => Ok(()),
    }
}

/// Adds the addresses that records have at a port, as they stand or in the fixed order.
fn push_addresses(
    targets: &mut Vec<Target>,
    transport: Transport,
    port: u16,
    records: &Records,
    is_fixed: bool,
) -> Result<(), AllocError>
    requires { count_of records.now ≤ 32 }
    ensures { OnOk result (targets.new.items ≡ targets.old.items
        ++ map (spec.target_at transport port) (addresses_by is_fixed records.now)) }
{
    if is_fixed {
        return push_in_order(targets, transport, port, records);
    }
    match records {
        Records::V4(addresses) => push_v4(targets, transport, port, addresses.as_slice()),
        Records::V6(addresses) => push_v6(targets, transport, port, addresses.as_slice()),
        Records::Srv(_) | Records::Naptr(_) => Ok(()),
    }
}

/// Adds the addresses of a name at a port, from a kind on: all, or up to the kind whose question
/// has no answer.
pub(crate) fn push_kinds<'s, S: AnswerSource>(
    walk: &mut Walk<'s>,
    seat: &mut S::Seat,
    context: &Context<'_, 's, S>,
    transport: Transport,
    port: u16,
    name: &Name,
    from: usize,
) -> Result<Option<(usize, Boxed<Question>)>, AllocError>
    requires needs { consult.Needs (consult.inquiry context.now) walk.old.known
        (λ all. stage.kinds_left context.now.caps.now all transport port name.now from) }
    requires consulted { consult.Consulted (S.ready context.now.source.now) S.goes
        (S.says context.now.source.now) (consult.inquiry context.now) context.now.start.value
        seat.old walk.old.known }
    ensures consulted { consult.Consulted (S.ready context.now.source.now) S.goes
        (S.says context.now.source.now) (consult.inquiry context.now) context.now.start.value
        seat.new walk.new.known }
    ensures extends { IfOk result (λ _. stage.Extends walk.old.known walk.new.known) }
    ensures reaches { IfOk result
        (λ stop. (found : List target.Target)
        × (walk.new.targets.items ≡ walk.old.targets.items ++ found)
        × stage.Reaches walk.new.known
        (λ all. stage.kinds_left context.now.caps.now all transport port name.now) from stop
        found) }
    ensures lacks { IfOk result (λ stop. IfSome stop
        (λ it. S.says context.now.source.now seat.new it.1 None)) }
{
    let kinds = kinds_of(context.caps.families());
    for at in from..kinds.len() {
        match answer_from(walk, seat, context, name, kinds[at]) {
            Ok(answer) => {
                let records = answer.as_arc().records();
                let is_fixed = context.caps.is_fixed();
                push_addresses(&mut walk.targets, transport, port, records, is_fixed)?;
            }
            Err(Stop::Need(question)) => return Ok(Some((at, question))),
            Err(Stop::Memory) => return Err(AllocError),
        }
    }
    Ok(None)
}

/// Adds the addresses of a server at its port, from a kind on, unless its target is the root.
fn push_server<'s, S: AnswerSource>(
    walk: &mut Walk<'s>,
    seat: &mut S::Seat,
    context: &Context<'_, 's, S>,
    transport: Transport,
    server: &SrvRecord,
    from: usize,
) -> Result<Option<(usize, Boxed<Question>)>, AllocError>
    requires needs { consult.Needs (consult.inquiry context.now) walk.old.known
        (λ all. stage.server_left context.now.caps.now all transport server.now from) }
    requires consulted { consult.Consulted (S.ready context.now.source.now) S.goes
        (S.says context.now.source.now) (consult.inquiry context.now) context.now.start.value
        seat.old walk.old.known }
    ensures consulted { consult.Consulted (S.ready context.now.source.now) S.goes
        (S.says context.now.source.now) (consult.inquiry context.now) context.now.start.value
        seat.new walk.new.known }
    ensures extends { IfOk result (λ _. stage.Extends walk.old.known walk.new.known) }
    ensures reaches { IfOk result
        (λ stop. (found : List target.Target)
        × (walk.new.targets.items ≡ walk.old.targets.items ++ found)
        × stage.Reaches walk.new.known
        (λ all. stage.server_left context.now.caps.now all transport server.now) from stop
        found) }
    ensures lacks { IfOk result (λ stop. IfSome stop
        (λ it. S.says context.now.source.now seat.new it.1 None)) }
{
    if server.target.is_root() {
        return Ok(None);
    }
    let (port, name) = (server.port, &server.target);
    push_kinds(walk, seat, context, transport, port, name, from)
}

/// Adds the addresses of the server at an index, if there is one, from a kind on.
fn push_index<'s, S: AnswerSource>(
    walk: &mut Walk<'s>,
    seat: &mut S::Seat,
    context: &Context<'_, 's, S>,
    transport: Transport,
    servers: &[SrvRecord],
    index: usize,
    from: usize,
) -> Result<Option<(usize, Boxed<Question>)>, AllocError>
    requires needs { consult.Needs (consult.inquiry context.now) walk.old.known
        (λ all. stage.index_left context.now.caps.now all transport servers.now index from) }
    requires consulted { consult.Consulted (S.ready context.now.source.now) S.goes
        (S.says context.now.source.now) (consult.inquiry context.now) context.now.start.value
        seat.old walk.old.known }
    ensures consulted { consult.Consulted (S.ready context.now.source.now) S.goes
        (S.says context.now.source.now) (consult.inquiry context.now) context.now.start.value
        seat.new walk.new.known }
    ensures extends { IfOk result (λ _. stage.Extends walk.old.known walk.new.known) }
    ensures reaches { IfOk result
        (λ stop. (found : List target.Target)
        × (walk.new.targets.items ≡ walk.old.targets.items ++ found)
        × stage.Reaches walk.new.known
        (λ all. stage.index_left context.now.caps.now all transport servers.now index) from stop
        found) }
    ensures lacks { IfOk result (λ stop. IfSome stop
        (λ it. S.says context.now.source.now seat.new it.1 None)) }
{
    match servers.get(index) {
        Some(server) => push_server(walk, seat, context, transport, server, from),
        None => Ok(None),
    }
}

/// Adds the addresses of the servers at these indexes, in this order, from a cursor on: all, or up
/// to the first question without an answer.
pub(crate) fn push_indexes<'s, S: AnswerSource>(
    walk: &mut Walk<'s>,
    seat: &mut S::Seat,
    context: &Context<'_, 's, S>,
    transport: Transport,
    servers: &[SrvRecord],
    indexes: &[u8],
    from: Cursor,
) -> Result<Option<(Cursor, Boxed<Question>)>, AllocError>
    requires needs { consult.Needs (consult.inquiry context.now) walk.old.known
        (λ all. stage.servers_left context.now.caps.now all transport servers.now
        indexes.now from) }
    requires consulted { consult.Consulted (S.ready context.now.source.now) S.goes
        (S.says context.now.source.now) (consult.inquiry context.now) context.now.start.value
        seat.old walk.old.known }
    ensures consulted { consult.Consulted (S.ready context.now.source.now) S.goes
        (S.says context.now.source.now) (consult.inquiry context.now) context.now.start.value
        seat.new walk.new.known }
    ensures extends { IfOk result (λ _. stage.Extends walk.old.known walk.new.known) }
    ensures reaches { IfOk result
        (λ stop. (found : List target.Target)
        × (walk.new.targets.items ≡ walk.old.targets.items ++ found)
        × stage.Reaches walk.new.known
        (λ all. stage.servers_left context.now.caps.now all transport servers.now
        indexes.now) from stop
        found) }
    ensures lacks { IfOk result (λ stop. IfSome stop
        (λ it. S.says context.now.source.now seat.new it.1 None)) }
{
    let mut kind = from.kind;
    for server in from.server..indexes.len() {
        let index = usize::from(indexes[server]);
        if let Some((kind, question)) = push_index(
            walk, seat, context, transport, servers, index, kind,
        )? {
            return Ok(Some((Cursor { server, kind }, question)));
        }
        kind = 0;
    }
    Ok(None)
}

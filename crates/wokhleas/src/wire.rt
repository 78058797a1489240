//! What goes out, what comes in, and when.
ghost use Rattle.std.specs.Prelude.{◌≡◌, ◌≢◌, ◌/◌, [], IfErr, IfOk, IsSomeAnd, OnErr, OnOk, Some, length, pos};
ghost use Rattle.dns_queries.specs.declared.incoming.Why.{Why};
ghost use Rattle.sip_resolver.specs.Questions.{IsLeast};
ghost use Rattle.sip_resolver.specs.declared.resolver.ReplyOutcome.TheVariants.{Ignored};
ghost use Rattle.rolling_resolver.specs.Inside.{SameInside};
ghost use Rattle.rolling_resolver.specs.Rests.{GainsFrom, KeepsAnswers};
ghost use Rattle.rolling_resolver.specs.Rolling.{AreQuiet, GivesUpOf, IsQueryOut, IsWrittenOf, SameSeats, dues_in};
ghost use Rattle.wokhleas.specs.Handles.{GoesBy, StaysBy, WhyNothing};
ghost use Rattle.wokhleas.specs.Numbers.{number_of_over};
ghost use Rattle.wokhleas.specs.Wires.{IsLeft, IsReceived, IsTransmitted, WhyNotHeard, WhyNotReceived, WhyNotTransmitted};
ghost use Rattle.wokhleas.specs.Statuses.{IsRefused};

use crate::handle::Handle;
use crate::numbers::{number_of_over, over_of};
use crate::status::{DONE, Status};
use rolling_resolver::{Instant, QueryIds, Sent, instant_of, left_until};
use sip_resolver::{DnsTransport, Ids, ReplyOutcome};
use std::alloc::Global;

/// So many octets a buffer for a query has at least, as C is told.
const QUERY_ROOM: usize = 512;

/// A message that was written into a buffer.
#[repr(C)]
#[derive(Drop)]
pub struct ToldMessage {
    /// Its length.
    pub length: usize,
    /// What names its query for `wokhleas_raw_give_up`.
    pub query: u32,
    /// Over what it goes.
    pub over: u8,
    /// Which send of its question it is.
    pub send: u8,
}

/// Writes what a resolver sends next into a buffer.
fn transmit(
    alloc: Global,
    handle: &mut Handle,
    at: Instant,
    octets: &mut [u8],
) -> Result<Sent, Status>
    ensures query { IfOk result (λ sent. GoesBy (λ old new. IsWrittenOf sent octets.new new)
        handle.old.held.state handle.new.held.state) }
    ensures refused { IfErr result
        (WhyNothing (AreQuiet ⟦<QueryIds as Ids>⟧.draws at.second (length octets.old))
        handle.new.held.state) }
    ensures seats { StaysBy SameSeats handle.old.held.state handle.new.held.state }
    ensures inside { StaysBy SameInside handle.old.held.state handle.new.held.state }
    ensures answers { StaysBy KeepsAnswers handle.old.held.state handle.new.held.state }
{
    let mut resolver = handle.take(alloc)?;
    let sent = resolver.transmit(&at, octets);
    handle.put(resolver);
    match sent {
        Some(sent) => Ok(sent),
        None => Err(Status::Nothing),
    }
}

/// Hands octets that came in to a resolver.
fn receive(
    alloc: Global,
    handle: &mut Handle,
    at: Instant,
    over: DnsTransport,
    octets: &[u8],
) -> Result<(), Status>
    ensures received { OnOk result (GoesBy (IsReceived (number_of_over over) octets.now at.second)
        handle.old.held.state handle.new.held.state) }
    ensures unchanged { OnErr result (handle.new.held.state ≡ handle.old.held.state) }
    ensures refused { IfErr result
        (WhyNotHeard over octets.now at.second handle.old.held.state) }
    ensures inside { StaysBy SameInside handle.old.held.state handle.new.held.state }
    ensures answers { StaysBy (GainsFrom octets.now)
        handle.old.held.state handle.new.held.state }
{
    let mut resolver = handle.take(alloc)?;
    let heard = resolver.receive(&at, over, octets);
    handle.put(resolver);
    match heard {
        Ok(heard) => is_reply(heard),
        Err(_) => Err(Status::Memory),
    }
}

/// Whether octets were a reply: `Nothing` where they were ignored.
fn is_reply(heard: ReplyOutcome) -> Result<(), Status>
    ensures reply { OnOk result ((why : Why) → heard ≢ Ignored why) }
    ensures ignored { OnErr result ((why : Why) × (heard ≡ Ignored why)) }
    ensures told { IfErr result (λ status. status ≡ Status.Nothing) }
{
    match heard {
        ReplyOutcome::Ignored(_) => Err(Status::Nothing),
        ReplyOutcome::Reply | ReplyOutcome::Cut => Ok(()),
    }
}

/// Says that no server takes a query.
fn give_up(alloc: Global, handle: &mut Handle, query: u32) -> Result<(), Status>
    ensures gives_up { OnOk result
        (GoesBy (GivesUpOf query) handle.old.held.state handle.new.held.state) }
    ensures refused { IfErr result
        (WhyNothing (λ state. IsQueryOut query state → ⊥) handle.old.held.state) }
    ensures seats { StaysBy SameSeats handle.old.held.state handle.new.held.state }
    ensures inside { StaysBy SameInside handle.old.held.state handle.new.held.state }
    ensures answers { StaysBy KeepsAnswers handle.old.held.state handle.new.held.state }
    ensures unchanged { OnErr result (handle.new.held.state ≡ handle.old.held.state) }
{
    let mut resolver = handle.take(alloc)?;
    let found = resolver.give_up(query);
    handle.put(resolver);
    if found { Ok(()) } else { Err(Status::Nothing) }
}

/// The second at which a resolver has something to do next.
fn deadline(alloc: Global, handle: &mut Handle) -> Result<u64, Status>
    ensures first { IfOk result (λ second.
        IsSomeAnd handle.old.held.state (λ state. IsLeast (dues_in state) (Some second))) }
    ensures refused { IfErr result
        (WhyNothing (λ state. dues_in state ≡ []) handle.old.held.state) }
    ensures same { handle.new.held.state ≡ handle.old.held.state }
{
    let resolver = handle.take(alloc)?;
    let second = resolver.deadline();
    handle.put(resolver);
    match second {
        Some(second) => Ok(second),
        None => Err(Status::Nothing),
    }
}

/// See `c/wokhleas.h`.
#[unsafe(no_mangle)]
pub extern "C" fn wokhleas_raw_transmit(
    alloc: Global,
    handle: &mut Handle,
    milliseconds: u64,
    octets: &mut [u8],
    message: &mut ToldMessage,
) -> i32
    ensures transmitted { result ≡ pos 0 → GoesBy
        (λ old new. IsTransmitted message.new octets.new new)
        handle.old.held.state handle.new.held.state }
    ensures refused { result ≢ pos 0
        → IsRefused (WhyNotTransmitted ⟦<QueryIds as Ids>⟧.draws milliseconds (length octets.old)
        handle.new.held.state) result }
    ensures unchanged { result ≢ pos 0 → message.new ≡ message.old }
    ensures seats { StaysBy SameSeats handle.old.held.state handle.new.held.state }
    ensures inside { StaysBy SameInside handle.old.held.state handle.new.held.state }
    ensures answers { StaysBy KeepsAnswers handle.old.held.state handle.new.held.state }
{
    let Some(at) = instant_of(milliseconds) else {
        return Status::Argument.code();
    };
    if octets.len() < QUERY_ROOM {
        return Status::Room.code();
    }
    match transmit(alloc, handle, at, octets) {
        Ok(sent) => {
            message.length = sent.length;
            message.query = sent.query;
            message.over = number_of_over(sent.over);
            message.send = sent.send;
            DONE
        }
        Err(status) => status.code(),
    }
}

/// See `c/wokhleas.h`.
#[unsafe(no_mangle)]
pub extern "C" fn wokhleas_raw_receive(
    alloc: Global,
    handle: &mut Handle,
    milliseconds: u64,
    over: u8,
    octets: &[u8],
) -> i32
    ensures received { result ≡ pos 0
        → GoesBy (IsReceived over octets.now (milliseconds / 1000))
        handle.old.held.state handle.new.held.state }
    ensures refused { result ≢ pos 0
        → IsRefused (WhyNotReceived over octets.now milliseconds handle.old.held.state) result }
    ensures unchanged { result ≢ pos 0 → handle.new.held.state ≡ handle.old.held.state }
    ensures inside { StaysBy SameInside handle.old.held.state handle.new.held.state }
    ensures answers { StaysBy (GainsFrom octets.now)
        handle.old.held.state handle.new.held.state }
{
    let Some(at) = instant_of(milliseconds) else {
        return Status::Argument.code();
    };
    let Some(way) = over_of(over) else {
        return Status::Argument.code();
    };
    match receive(alloc, handle, at, way, octets) {
        Ok(()) => DONE,
        Err(status) => status.code(),
    }
}

/// See `c/wokhleas.h`.
#[unsafe(no_mangle)]
pub extern "C" fn wokhleas_raw_give_up(alloc: Global, handle: &mut Handle, query: u32) -> i32
    ensures gives_up { result ≡ pos 0
        → GoesBy (GivesUpOf query) handle.old.held.state handle.new.held.state }
    ensures refused { result ≢ pos 0
        → IsRefused (WhyNothing (λ state. IsQueryOut query state → ⊥) handle.old.held.state)
        result }
    ensures seats { StaysBy SameSeats handle.old.held.state handle.new.held.state }
    ensures unchanged { result ≢ pos 0 → handle.new.held.state ≡ handle.old.held.state }
    ensures inside { StaysBy SameInside handle.old.held.state handle.new.held.state }
    ensures answers { StaysBy KeepsAnswers handle.old.held.state handle.new.held.state }
{
    match give_up(alloc, handle, query) {
        Ok(()) => DONE,
        Err(status) => status.code(),
    }
}

/// See `c/wokhleas.h`.
#[unsafe(no_mangle)]
pub extern "C" fn wokhleas_raw_timeout(
    alloc: Global,
    handle: &mut Handle,
    milliseconds: u64,
    left: &mut u64,
) -> i32
    ensures left { result ≡ pos 0 → IsSomeAnd handle.old.held.state
        (λ state. IsLeft (dues_in state) milliseconds left.new) }
    ensures refused { result ≢ pos 0
        → IsRefused (WhyNothing (λ state. dues_in state ≡ []) handle.old.held.state) result }
    ensures unchanged { result ≢ pos 0 → left.new ≡ left.old }
    ensures same { handle.new.held.state ≡ handle.old.held.state }
{
    match deadline(alloc, handle) {
        Ok(second) => {
            *left = left_until(second, milliseconds);
            DONE
        }
        Err(status) => status.code(),
    }
}

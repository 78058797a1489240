//! Requests come in.
ghost use Rattle.std.specs.Prelude.{◌≡◌, ◌≢◌, ◌-◌, ◌/◌, ◌≤◌, ◌^◌, IfErr, IfOk, OnErr, OnOk, pos};
ghost use Rattle.sip_selection.specs.declared.request.Request.TheVariants.{Uri};
ghost use Rattle.sip_uri.specs.Views.{IsUriView, uri_of};
ghost use Rattle.rolling_resolver.specs.Inside.{GainsOne, SameInside};
ghost use Rattle.rolling_resolver.specs.Rests.{KeepsAnswers};
ghost use Rattle.rolling_resolver.specs.Rolling.{HasRequest, Renews, TakesIn};
ghost use Rattle.wokhleas.specs.Handles.{GoesBy, StaysBy, WhyNothing};
ghost use Rattle.wokhleas.specs.Requests.{Cancels, IsSubmitted, IsTakenIn, IsUntil, WhyNoVia, WhyNotSubmitted, WhyNotTaken};
ghost use Rattle.wokhleas.specs.Statuses.{IsRefused};

use crate::handle::Handle;
use crate::numbers::caps_of;
use crate::status::{DONE, Status};
use dns_answers::Moment;
use rolling_resolver::instant_of;
use sip_selection::{Caps, Request};
use sip_uri::{UriParts, view_uri, view_via};
use std::alloc::Global;

/// A request has no moment by which it ends, in C.
const NEVER: u64 = u64::MAX;

/// The moment by which a request ends, which C has in milliseconds; none where it says never.
fn until_of(milliseconds: u64) -> Result<Option<Moment>, Status>
    ensures until { IfOk result (IsUntil milliseconds) }
    ensures refused { IfErr result (λ status. (status ≡ Status.Argument)
        × (milliseconds ≢ 2 ^ 64 - 1) × (2 ^ 48 ≤ milliseconds / 1000)) }
{
    if milliseconds == NEVER {
        return Ok(None);
    }
    match instant_of(milliseconds) {
        Some(instant) => Ok(Some(instant.asked)),
        None => Err(Status::Argument),
    }
}

/// Hands a request to a resolver.
fn submit(
    alloc: Global,
    handle: &mut Handle,
    number: u64,
    request: Request,
    caps: Caps,
    until: Option<Moment>,
) -> Result<(), Status>
    ensures taken_in { OnOk result (GoesBy (λ old new. TakesIn number request caps until new)
        handle.old.held.state handle.new.held.state) }
    ensures gains { OnOk result (GoesBy (GainsOne number request caps until)
        handle.old.held.state handle.new.held.state) }
    ensures refused { IfErr result (WhyNotTaken number handle.new.held.state) }
    ensures inside { OnErr result
        (StaysBy SameInside handle.old.held.state handle.new.held.state) }
    ensures renews { StaysBy Renews handle.old.held.state handle.new.held.state }
    ensures answers { StaysBy KeepsAnswers handle.old.held.state handle.new.held.state }
{
    let mut resolver = handle.take(alloc)?;
    let submitted = resolver.submit(alloc, number, request, caps, until);
    handle.put(resolver);
    match submitted {
        Ok(()) => Ok(()),
        Err(refusal) => Err(Status::from(refusal)),
    }
}

/// Why a request of this number is not taken in where memory is refused for it.
#[cold]
fn why_not_taken(alloc: Global, handle: &mut Handle, number: u64) -> Status
    ensures why { WhyNotTaken number handle.new.held.state result }
    ensures same { handle.new.held.state ≡ handle.old.held.state }
{
    match handle.take(alloc) {
        Ok(resolver) => {
            let refusal = resolver.refusal(number);
            handle.put(resolver);
            Status::from(refusal)
        }
        Err(status) => status,
    }
}

/// Hands a request to the URI of a text to a resolver.
#[inline(always)]
fn submit_uri(
    alloc: Global,
    handle: &mut Handle,
    number: u64,
    parts: UriParts<'_>,
    caps: Caps,
    until: Option<Moment>,
) -> Result<(), Status>
    requires { IsUriView parts }
    ensures taken_in { OnOk result
        (GoesBy (λ old new. TakesIn number (Uri (uri_of parts.entry)) caps until new)
        handle.old.held.state handle.new.held.state) }
    ensures gains { OnOk result (GoesBy (GainsOne number (Uri (uri_of parts.entry)) caps until)
        handle.old.held.state handle.new.held.state) }
    ensures refused { IfErr result (WhyNotTaken number handle.new.held.state) }
    ensures inside { OnErr result
        (StaysBy SameInside handle.old.held.state handle.new.held.state) }
    ensures renews { StaysBy Renews handle.old.held.state handle.new.held.state }
    ensures answers { StaysBy KeepsAnswers handle.old.held.state handle.new.held.state }
{
    let Ok(uri) = parts.to_uri(alloc) else {
        return Err(why_not_taken(alloc, handle, number));
    };
    submit(alloc, handle, number, Request::Uri(uri), caps, until)
}

/// Hands the request of a text that is no URI to a resolver: a response to the Via of the text.
#[inline(never)]
fn submit_via(
    alloc: Global,
    handle: &mut Handle,
    number: u64,
    text: &[u8],
    caps: Caps,
    until: Option<Moment>,
) -> Result<(), Status>
    ensures taken_in { OnOk result (GoesBy (IsTakenIn number text.now caps until)
        handle.old.held.state handle.new.held.state) }
    ensures refused { IfErr result (WhyNoVia number text.now handle.new.held.state) }
    ensures inside { OnErr result
        (StaysBy SameInside handle.old.held.state handle.new.held.state) }
    ensures renews { StaysBy Renews handle.old.held.state handle.new.held.state }
    ensures answers { StaysBy KeepsAnswers handle.old.held.state handle.new.held.state }
{
    let Ok(parts) = view_via(text) else {
        return Err(Status::Syntax);
    };
    let Ok(via) = parts.to_via(alloc) else {
        return Err(why_not_taken(alloc, handle, number));
    };
    submit(alloc, handle, number, Request::Via(via), caps, until)
}

/// Hands the request of a text to a resolver: the text is a URI, or else the value of a Via header
/// field.
fn submit_text(
    alloc: Global,
    handle: &mut Handle,
    number: u64,
    text: &[u8],
    transports: &[u8],
    families: u8,
    until: u64,
) -> Result<(), Status>
    ensures submitted { OnOk result
        (GoesBy (IsSubmitted number text.now transports.now families until)
        handle.old.held.state handle.new.held.state) }
    ensures refused { IfErr result (WhyNotSubmitted number text.now transports.now families until
        handle.new.held.state) }
    ensures inside { OnErr result
        (StaysBy SameInside handle.old.held.state handle.new.held.state) }
    ensures renews { StaysBy Renews handle.old.held.state handle.new.held.state }
    ensures answers { StaysBy KeepsAnswers handle.old.held.state handle.new.held.state }
{
    let Some(caps) = caps_of(transports, families) else {
        return Err(Status::Argument);
    };
    let until = until_of(until)?;
    match view_uri(text) {
        Ok(parts) => submit_uri(alloc, handle, number, parts, caps, until),
        Err(_) => submit_via(alloc, handle, number, text, caps, until),
    }
}

/// Cancels the request of a number.
fn cancel(alloc: Global, handle: &mut Handle, number: u64) -> Result<(), Status>
    ensures cancelled { OnOk result
        (GoesBy (Cancels number) handle.old.held.state handle.new.held.state) }
    ensures unchanged { OnErr result (handle.new.held.state ≡ handle.old.held.state) }
    ensures refused { IfErr result
        (WhyNothing (λ state. HasRequest number state → ⊥) handle.old.held.state) }
    ensures answers { StaysBy KeepsAnswers handle.old.held.state handle.new.held.state }
{
    let mut resolver = handle.take(alloc)?;
    let found = resolver.cancel(number);
    handle.put(resolver);
    if found { Ok(()) } else { Err(Status::Nothing) }
}

/// See `c/wokhleas.h`.
#[unsafe(no_mangle)]
pub extern "C" fn wokhleas_raw_submit(
    alloc: Global,
    handle: &mut Handle,
    number: u64,
    text: &[u8],
    transports: &[u8],
    families: u8,
    until: u64,
) -> i32
    ensures submitted { result ≡ pos 0
        → GoesBy (IsSubmitted number text.now transports.now families until)
        handle.old.held.state handle.new.held.state }
    ensures refused { result ≢ pos 0
        → IsRefused (WhyNotSubmitted number text.now transports.now families until
        handle.new.held.state) result }
    ensures inside { result ≢ pos 0
        → StaysBy SameInside handle.old.held.state handle.new.held.state }
    ensures renews { StaysBy Renews handle.old.held.state handle.new.held.state }
    ensures answers { StaysBy KeepsAnswers handle.old.held.state handle.new.held.state }
{
    match submit_text(alloc, handle, number, text, transports, families, until) {
        Ok(()) => DONE,
        Err(status) => status.code(),
    }
}

/// See `c/wokhleas.h`.
#[unsafe(no_mangle)]
pub extern "C" fn wokhleas_raw_cancel(alloc: Global, handle: &mut Handle, number: u64) -> i32
    ensures cancelled { result ≡ pos 0
        → GoesBy (Cancels number) handle.old.held.state handle.new.held.state }
    ensures unchanged { result ≢ pos 0 → handle.new.held.state ≡ handle.old.held.state }
    ensures refused { result ≢ pos 0
        → IsRefused (WhyNothing (λ state. HasRequest number state → ⊥) handle.old.held.state)
        result }
    ensures answers { StaysBy KeepsAnswers handle.old.held.state handle.new.held.state }
{
    match cancel(alloc, handle, number) {
        Ok(()) => DONE,
        Err(status) => status.code(),
    }
}

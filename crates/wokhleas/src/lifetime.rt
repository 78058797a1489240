//! A resolver begins and ends.
ghost use Rattle.std.specs.Prelude.{◌≡◌, ◌≢◌, ◌≤◌, ◌/◌, [], None, Some, IfErr, IfNone, IfSome, OnErr, OnOk, pos};
ghost use Rattle.sip_resolver.specs.declared.resolver.Limits as limits;
ghost use Rattle.rolling_resolver.specs.Rests.{AllRestOn};
ghost use Rattle.answer_cache.specs.Lists.{IsGroupCount};
ghost use Rattle.rolling_resolver.specs.Rolling.{AreInRange, begun_rolling};
ghost use Rattle.wokhleas.specs.Limits.{AreCounts, AreLimits, WhyNotBegun, WhyNotOpened};
ghost use Rattle.wokhleas.specs.Statuses.{IsRefused};

use crate::handle::Handle;
use crate::status::{DONE, Status};
use rolling_resolver::{RollingResolver, is_group_count};
use sip_resolver::Limits;
use std::alloc::{AllocError, Global};

/// The limits of a generation, of which there can be two at once: each has half of the questions.
/// None where one of the numbers is out of its range.
fn limits_of(requests: usize, questions: usize, streams: bool) -> Option<Limits>
    ensures requests { IfSome result (λ it. (1 ≤ it.requests) × (it.requests ≤ 65536)) }
    ensures questions { IfSome result (λ it. (1 ≤ it.questions) × (it.questions ≤ 4096)) }
    ensures are { IfSome result (λ it. it ≡ record {
      requests = requests;
      questions = questions / 2;
      streams = streams;
    }) }
    ensures in_range { IfSome result (λ _. AreCounts requests questions) }
    ensures none { IfNone result (AreCounts requests questions → ⊥) }
{
    if requests < 1 || 65_536 < requests {
        return None;
    }
    if questions < 2 || 8_192 < questions {
        return None;
    }
    Some(Limits {
        requests,
        questions: questions / 2,
        streams,
    })
}

/// Of how many groups a book is; None where it can't be of so many.
fn groups_of(groups: usize) -> Option<u32>
    ensures is { IfSome result (λ it. it ≡ groups) }
    ensures valid { IfSome result (λ it. IsGroupCount it × IsGroupCount groups) }
    ensures none { IfNone result (IsGroupCount groups → ⊥) }
{
    let groups = u32::try_from(groups).ok()?;
    is_group_count(groups).then_some(groups)
}

/// Opens a resolver with these limits and this seed, over a book of so many groups.
fn open(
    alloc: Global,
    handle: &mut Handle,
    limits: Limits,
    groups: u32,
    seed: [u8; 32],
) -> Result<(), Status>
    requires requests { (1 ≤ limits.requests) × (limits.requests ≤ 65536) }
    requires questions { (1 ≤ limits.questions) × (limits.questions ≤ 4096) }
    requires groups { IsGroupCount groups }
    ensures was_closed { OnOk result (handle.old.held.state ≡ None) }
    ensures begun { OnOk result (handle.new.held.state ≡ Some (begun_rolling groups limits)) }
    ensures refused { IfErr result (WhyNotBegun handle.old.held.state) }
    ensures answers { OnOk result (IfSome handle.new.held.state (λ state. AllRestOn [] state)) }
    ensures unchanged { OnErr result (handle.new.held.state ≡ handle.old.held.state) }
{
    if handle.is_open() {
        return Err(Status::Open);
    }
    match RollingResolver::boxed(alloc, limits, groups, seed) {
        Ok(resolver) => {
            handle.put(resolver);
            Ok(())
        }
        Err(AllocError) => Err(Status::Memory),
    }
}

/// See `c/wokhleas.h`.
#[unsafe(no_mangle)]
pub extern "C" fn wokhleas_raw_open(
    alloc: Global,
    handle: &mut Handle,
    requests: usize,
    questions: usize,
    streams: bool,
    groups: usize,
    seed: &[u8; 32],
) -> i32
    ensures was_closed { result ≡ pos 0 → handle.old.held.state ≡ None }
    ensures begun { result ≡ pos 0 → (limits : limits.Limits) × AreInRange limits
        × (limits.requests ≡ requests) × (limits.questions ≡ questions / 2)
        × (limits.streams ≡ streams)
        × (handle.new.held.state ≡ Some (begun_rolling groups limits)) }
    ensures in_range { result ≡ pos 0 → AreLimits requests questions groups }
    ensures refused { result ≢ pos 0
        → IsRefused (WhyNotOpened requests questions groups handle.old.held.state) result }
    ensures answers { result ≡ pos 0
        → IfSome handle.new.held.state (λ state. AllRestOn [] state) }
    ensures unchanged { result ≢ pos 0 → handle.new.held.state ≡ handle.old.held.state }
{
    let Some(limits) = limits_of(requests, questions, streams) else {
        return Status::Argument.code();
    };
    let Some(count) = groups_of(groups) else {
        return Status::Argument.code();
    };
    match open(alloc, handle, limits, count, *seed) {
        Ok(()) => DONE,
        Err(status) => status.code(),
    }
}

/// See `c/wokhleas.h`.
#[unsafe(no_mangle)]
pub extern "C" fn wokhleas_raw_close(alloc: Global, handle: &mut Handle)
    ensures { handle.new.held.state ≡ None }
{
    let _ended = handle.take(alloc);
}

//! What is counted of a resolver.
ghost use Rattle.std.specs.Prelude.{◌≡◌, ◌≢◌, IfErr, IfOk, IsSomeAnd, pos};
ghost use Rattle.rolling_resolver.specs.Stats.{AreCounted};
ghost use Rattle.wokhleas.specs.Handles.{WhyNothing};
ghost use Rattle.wokhleas.specs.Statuses.{IsRefused};

use crate::handle::Handle;
use crate::status::{DONE, Status};
use rolling_resolver::Stats;
use std::alloc::Global;

/// What is counted of the resolver of a handle.
fn counted(alloc: Global, handle: &mut Handle) -> Result<Stats, Status>
    ensures counted { IfOk result
        (λ stats. IsSomeAnd handle.old.held.state (AreCounted stats)) }
    ensures refused { IfErr result (WhyNothing (λ _. ⊥) handle.old.held.state) }
    ensures same { handle.new.held.state ≡ handle.old.held.state }
{
    let resolver = handle.take(alloc)?;
    let stats = resolver.stats();
    handle.put(resolver);
    Ok(stats)
}

/// See `c/wokhleas.h`.
#[unsafe(no_mangle)]
pub extern "C" fn wokhleas_raw_stats(
    alloc: Global,
    handle: &mut Handle,
    stats_told: &mut Stats,
) -> i32
    ensures counted { result ≡ pos 0
        → IsSomeAnd handle.old.held.state (AreCounted stats_told.new) }
    ensures refused { result ≢ pos 0
        → IsRefused (WhyNothing (λ _. ⊥) handle.old.held.state) result }
    ensures unchanged { result ≢ pos 0 → stats_told.new ≡ stats_told.old }
    ensures same { handle.new.held.state ≡ handle.old.held.state }
{
    match counted(alloc, handle) {
        Ok(stats) => {
            *stats_told = stats;
            DONE
        }
        Err(status) => status.code(),
    }
}

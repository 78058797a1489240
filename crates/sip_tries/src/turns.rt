//! Targets that are tried in turn.
ghost use Rattle.std.specs.Prelude.{◌≡◌, IfOk};
ghost use Rattle.sip_tries.specs.Turns as spec;

use crate::found::{Found, TargetTry};
use crate::pinger::{Pinger, over_of};
use crate::tries::{Extent, Tries};
use sip_selection::{Event, Target};
use sip_uri::Host;
use std::alloc::{AllocError, Global};

/// Tries a target.
fn try_one<P: Pinger>(
    alloc: Global,
    pinger: &mut P,
    target: &Target,
) -> Result<TargetTry, AllocError>
    ensures target { IfOk result (λ it. it.target ≡ target.now) }
    ensures asked { IfOk result (λ it. spec.IsAsked P.asks pinger.old it pinger.new) }
{
    let found = match over_of(target.transport) {
        Some(over) => Found::Asked(pinger.ask(alloc, over, target)?),
        None => Found::Untried,
    };
    Ok(TargetTry {
        target: *target,
        found,
    })
}

/// Tries targets in turn, until a server is there.
fn try_until_there<P: Pinger>(
    alloc: Global,
    pinger: &mut P,
    targets: &[Target],
) -> Result<Vec<TargetTry>, AllocError>
    ensures tried { IfOk result (λ tries. spec.AreTriedUntilThere targets.now tries.items) }
    ensures asked { IfOk result (λ tries.
        spec.AreAsked P.asks pinger.old tries.items pinger.new) }
{
    let mut tries = Vec::new(alloc);
    'targets: for target in targets {
        let one = try_one(alloc, pinger, target)?;
        tries.push(one)?;
        if one.found.is_there() {
            return Ok(tries);
        }
    }
    Ok(tries)
}

/// Tries each target, in turn.
fn try_each<P: Pinger>(
    alloc: Global,
    pinger: &mut P,
    targets: &[Target],
) -> Result<Vec<TargetTry>, AllocError>
    ensures tried { IfOk result (λ tries. spec.targets_of tries.items ≡ targets.now) }
    ensures asked { IfOk result (λ tries.
        spec.AreAsked P.asks pinger.old tries.items pinger.new) }
{
    let mut tries = Vec::with_capacity(alloc, targets.len())?;
    'targets: for target in targets {
        tries.push(try_one(alloc, pinger, target)?)?;
    }
    Ok(tries)
}

/// Tries the targets of a request in turn, and asks the server at each that goes over UDP or TCP:
/// until one is there (RFC 3263 4.3), or each. The host that certificates have to be of is kept.
///
/// # Errors
///
/// Memory was refused. What was asked until then was asked.
pub fn try_targets<P: Pinger>(
    alloc: Global,
    pinger: &mut P,
    extent: Extent,
    targets: Vec<Target>,
    certificate_host: Host,
) -> Result<Tries, AllocError>
    ensures extent { IfOk result (λ it. it.extent ≡ extent) }
    ensures targets { IfOk result (λ it. it.targets.items ≡ targets.items) }
    ensures host { IfOk result (λ it. it.certificate_host ≡ certificate_host) }
    ensures tried { IfOk result (λ it. spec.AreTried it.extent it.targets.items it.tries.items) }
    ensures asked { IfOk result (λ it.
        spec.AreAsked P.asks pinger.old it.tries.items pinger.new) }
{
    let tries = match extent {
        Extent::UntilThere => try_until_there(alloc, pinger, targets.as_slice())?,
        Extent::All => try_each(alloc, pinger, targets.as_slice())?,
    };
    Ok(Tries {
        extent,
        targets,
        certificate_host,
        tries,
    })
}

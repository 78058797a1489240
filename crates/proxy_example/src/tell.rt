//! What is printed of a request.
use sip_resolver::Outcome;
use sip_selection::Target;
use sip_uri::address_text;
use std::io;

/// Prints a target behind the number of its request.
fn tell_target<R: Print + AllocGlobal>(rt: &R, number: u64, target: &Target) -> io::Result<()> {
    let address = address_text(rt.alloc(), target.address)?;
    println!(rt; "{number} {:?} {address} {}", target.transport, target.port)
}

/// Prints what became of the request of a number: the first target to try, or why there is none.
pub(crate) fn tell<R: Print + AllocGlobal>(
    rt: &R,
    number: u64,
    outcome: &Outcome,
) -> io::Result<()> {
    match outcome {
        Outcome::Targets(targets) => match targets.as_slice().first() {
            Some(target) => tell_target(rt, number, target),
            None => println!(rt; "{number} no targets"),
        },
        other => println!(rt; "{number} {other:?}"),
    }
}

//! The tries of the targets of a request.
ghost use Rattle.std.specs.Prelude.{◌≡◌, not};
ghost use Rattle.std.specs.List.{list_all, list_any};
ghost use Rattle.std.specs.Option.{option_or};
ghost use Rattle.sip_tries.specs.Turns as spec;

use crate::found::TargetTry;
use sip_selection::Target;
use sip_uri::Host;

/// Whether one of the servers is there.
fn is_one_there(tries: &[TargetTry]) -> bool
    ensures { result ≡ list_any (λ it. spec.is_there it.found) tries.now }
{
    tries.iter().any(|it| it.found.is_there())
}

/// Whether none of those that were asked is missing.
fn is_none_missing(tries: &[TargetTry]) -> bool
    ensures { result ≡ list_all (λ it. not (spec.is_missing it.found)) tries.now }
{
    tries.iter().all(|it| !it.found.is_missing())
}

/// The first of two values that is there.
fn first_of(time: Option<u64>, other: Option<u64>) -> Option<u64>
    ensures { result ≡ option_or time other }
{
    match time {
        Some(_) => time,
        None => other,
    }
}

/// How far targets are tried.
#[derive(Clone, Copy, Debug, PartialEq, Eq)]
pub enum Extent {
    /// Until a server is there (RFC 3263 4.3).
    UntilThere,
    /// Each target, in turn.
    All,
}

/// The tries of the targets of a request.
#[derive(Debug, Drop)]
pub struct Tries {
    /// How far they are tried.
    pub extent: Extent,
    /// The targets.
    pub targets: Vec<Target>,
    /// The host that the certificate of a server over TLS has to be of (RFC 3263 4.1).
    pub certificate_host: Host,
    /// The tries, in their order.
    pub tries: Vec<TargetTry>,
}

impl Tries {
    /// Whether all is well: a server is there, and where each target is tried, none of those that
    /// were asked is missing.
    pub fn succeeded(&self) -> bool
        ensures { result ≡ spec.succeeded self.now.extent self.now.tries.items }
    {
        let tries = self.tries.as_slice();
        match self.extent {
            Extent::UntilThere => is_one_there(tries),
            Extent::All => is_one_there(tries) && is_none_missing(tries),
        }
    }

    /// The milliseconds after which the final reply of the first server was there that is there.
    pub fn first_time(&self) -> Option<u64>
        ensures { result ≡ spec.first_time self.now.tries.items }
    {
        let mut time = None;
        'tries: for it in &self.tries {
            time = first_of(time, it.found.time());
        }
        time
    }
}

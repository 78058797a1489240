//! How targets are pinged.
ghost use Rattle.std.specs.Prelude.{◌≡◌, codes};
ghost use Rattle.clap.specs.Matches.{found_of, one_text};
ghost use Rattle.sipwhere_options.specs.Pings as spec;

use crate::options::is_set;
use clap::ArgMatches;
use sip_tries::{Extent, PingForm};

/// How long a final reply is waited for where the words don't say, in milliseconds.
const WAIT: u32 = 4_000;

/// How often a request may be sent on (RFC 3261 8.1.1.6).
const MAX_FORWARDS: u8 = 70;

/// How targets are pinged.
#[derive(Clone, Copy, Debug, PartialEq, Eq)]
pub struct Pinging {
    /// How far targets are tried.
    pub extent: Extent,
    /// How servers are asked.
    pub form: PingForm,
}

/// How far targets are tried, by whether all are.
fn extent_for(all: bool) -> Extent
    ensures { result ≡ spec.extent_for all }
{
    if all { Extent::All } else { Extent::UntilThere }
}

/// How often a request may be sent on, by whether the server itself is to answer.
fn max_forwards_for(hop: bool) -> u8
    ensures { result ≡ spec.max_forwards_for hop }
{
    if hop { 0 } else { MAX_FORWARDS }
}

/// The milliseconds that a final reply is waited for.
fn wait_of(matches: &ArgMatches<'_>) -> u32
    ensures { spec.IsWait (one_text (found_of matches.now) (codes "wait")) result }
{
    match matches.get_one::<u32>("wait") {
        Some(wait) => wait,
        None => WAIT,
    }
}

/// How targets are pinged, by the options beside `--ping`.
fn pings_of(matches: &ArgMatches<'_>) -> Pinging
    ensures { spec.ArePings matches.now result }
{
    Pinging {
        extent: extent_for(is_set(matches, "all")),
        form: PingForm {
            max_forwards: max_forwards_for(is_set(matches, "hop")),
            wait: wait_of(matches),
        },
    }
}

/// How targets are pinged, if they are.
pub(crate) fn pinging_of(matches: &ArgMatches<'_>) -> Option<Pinging>
    ensures { spec.IsPinging matches.now result }
{
    if is_set(matches, "ping") {
        Some(pings_of(matches))
    } else {
        None
    }
}

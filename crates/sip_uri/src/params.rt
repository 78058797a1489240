//! Parameters of a URI (RFC 3261 19.1.1, 25.1).
ghost use Rattle.std.specs.Prelude.{◌≡◌, true, take, IfOk, IfSome, Some, is_some};
ghost use Rattle.std.specs.Option.{option_map, option_and_then};
ghost use Rattle.std.specs.Result.{result_err};
ghost use Rattle.ip_text.specs.Parts.{parted};
ghost use Rattle.sip_uri.specs.Classes.{is_param_octet};
ghost use Rattle.sip_uri.specs.Readers.Hosts as host;
ghost use Rattle.sip_uri.specs.Readers.Pairs.{is_value_run};
ghost use Rattle.sip_uri.specs.Readers.Runs.{is_run};
ghost use Rattle.sip_uri.specs.Readers.Params as spec;
ghost use Rattle.sip_uri.specs.Views.{host_of};

use crate::classes::Class;
use crate::host_part::{HostPart, host_part};
use crate::pairs::{Pair, pair_in_front};
use crate::refusal::UriRefusal;
use ip_text::next_part;

/// What parameters say of where a request goes, as it stands in a text.
#[derive(Clone, Copy)]
pub(crate) struct Values<'a> {
    /// The value of `transport`.
    pub(crate) transport: Option<&'a [u8]>,
    /// The host of `maddr`.
    pub(crate) maddr: Option<HostPart<'a>>,
}

/// The name of a parameter.
fn name_of(param: &[u8]) -> &[u8]
    ensures { result.now ≡ spec.name_of param.now }
{
    next_part(param, b'=').0
}

/// Whether two names are equal but for the case of letters.
pub(crate) fn is_same(name: &[u8], other: &[u8]) -> bool
    ensures { result ≡ spec.is_same name.now other.now }
{
    name.eq_ignore_ascii_case(other)
}

/// The host that a value spells, where its name is `maddr`.
#[inline(always)]
fn maddr_of<'a>(name: &[u8], value: Option<&'a [u8]>) -> Option<HostPart<'a>>
    ensures host { option_map host_of result
        ≡ spec.maddr_of name.now (option_map (λ text. text.now) value.entry) }
    ensures hostname { IfSome result host.IsHostPart }
{
    if !is_same(name, b"maddr") {
        return None;
    }
    host_part(value?)
}

/// Whether a value, which is a run, may stand after a name. That of `maddr` has to be a host.
#[tactic(auto, unfolding(crate::specs::Readers::Params::is_value_of))]
fn is_value_of(name: &[u8], value: &[u8], is_hosted: bool) -> bool
    requires hosted { is_hosted ≡ is_some (spec.maddr_of name.now (Some value.now)) }
    requires run { is_run is_param_octet value.now ≡ true }
    ensures { result ≡ spec.is_value_of name.now value.now }
{
    if value.is_empty() {
        return false;
    }
    !is_same(name, b"maddr") || is_hosted
}

/// Whether a name and a value, or none, are a parameter. Both are runs. The value of `maddr` has to
/// be a host.
fn is_param(name: &[u8], value: Option<&[u8]>, is_hosted: bool) -> bool
    requires hosted { is_hosted
        ≡ is_some (spec.maddr_of name.now (option_map (λ text. text.now) value)) }
    requires name { is_run is_param_octet name.now ≡ true }
    requires value { is_value_run is_param_octet (option_map (λ text. text.now) value) ≡ true }
    ensures { result ≡ spec.is_param_of name.now (option_map (λ text. text.now) value.entry) }
{
    if name.is_empty() {
        return false;
    }
    match value {
        None => !is_same(name, b"transport") && !is_same(name, b"maddr"),
        Some(value) => is_value_of(name, value, is_hosted),
    }
}

/// Whether one of the first parameters has a name.
fn stands_before(params: &[u8], count: usize, name: &[u8]) -> bool
    ensures { result ≡ spec.has_name (take count (parted 59 params.now)) name.now }
{
    let mut rest = params;
    for _ in 0..count {
        let (earlier, behind) = next_part(rest, b';');
        if is_same(name_of(earlier), name) {
            return true;
        }
        match behind {
            None => return false,
            Some(behind) => rest = behind,
        }
    }
    false
}

/// Whether one of the first parameters has a name. The lengths are those of their names, modulo 64:
/// so most names are told apart without a look at the parameters.
fn is_repeated(lengths: &[bool; 64], params: &[u8], count: usize, name: &[u8]) -> bool
    requires { spec.AreMarked lengths.now (take count (parted 59 params.now)) }
    ensures { result ≡ spec.has_name (take count (parted 59 params.now)) name.now }
{
    if !lengths[name.len() % 64] {
        return false;
    }
    stands_before(params, count, name)
}

/// The value that was found before, or else that of this parameter, if it has the name.
fn value_so_far<'a>(
    found: Option<&'a [u8]>,
    wanted: &[u8],
    name: &[u8],
    value: Option<&'a [u8]>,
) -> Option<&'a [u8]>
    ensures { option_map (λ text. text.now) result
        ≡ spec.value_so_far (option_map (λ text. text.now) found.entry) wanted.now name.now
        (option_map (λ text. text.now) value.entry) }
{
    match found {
        Some(found) => Some(found),
        None => { if is_same(name, wanted) { value } else { None } }
    }
}

/// The values of parameters with `;` between them. Refuses what are none.
#[inline(always)]
pub(crate) fn check_params(params: &[u8]) -> Result<Values<'_>, UriRefusal>
    ensures fault { result_err result ≡ spec.params_fault (parted 59 params.now) }
    ensures transport { IfOk result (λ values. option_map (λ text. text.now) values.transport
        ≡ spec.value_of spec.transport_name (parted 59 params.now)) }
    ensures maddr { IfOk result (λ values. option_map host_of values.maddr
        ≡ option_and_then host.host (spec.value_of spec.maddr_name (parted 59 params.now))) }
    ensures hostname { IfOk result (λ values. IfSome values.maddr host.IsHostPart) }
{
    let mut transport = None;
    let mut maddr = None;
    let mut lengths = [false; 64];
    let mut rest = params;
    let mut count = 0;
    loop {
        let Some(
            Pair {
                name,
                value,
                behind,
            },
        ) = pair_in_front(Class::Param, b';', rest)
        else {
            return Err(UriRefusal::BadParam);
        };
        let host = maddr_of(name, value);
        if !is_param(name, value, host.is_some()) {
            return Err(UriRefusal::BadParam);
        }
        if is_repeated(&lengths, params, count, name) {
            return Err(UriRefusal::RepeatedParam);
        }
        lengths[name.len() % 64] = true;
        transport = value_so_far(transport, b"transport", name, value);
        maddr = maddr.or(host);
        match behind {
            None => return Ok(Values { transport, maddr }),
            Some(behind) => rest = behind,
        }
        count += 1;
    }
}

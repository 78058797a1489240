//! Hosts in words, as a certificate names them.
ghost use Rattle.std.specs.Prelude.{◌≡◌, IfOk};
ghost use Rattle.std.specs.String.{string_bytes};
ghost use Rattle.dns_name.specs.Texts.{without_closing_dot};
ghost use Rattle.sip_report.specs.Hosts as spec;

use crate::address::{AddressForm, address_words};
use dns_name::Name;
use sip_uri::{Address, Host};
use std::alloc::{AllocError, Global};

/// Takes the dot from the end of a text, if it has one.
fn drop_closing_dot(text: &mut String)
    ensures { string_bytes text.new ≡ without_closing_dot (string_bytes text.old) }
{
    if matches!(text.as_bytes(), [.., b'.']) {
        text.pop();
    }
}

/// The text of a name, without the dot at its end.
fn name_words(name: &Name) -> Result<String, AllocError>
    ensures { IfOk result (λ text. string_bytes text ≡ spec.name_words name.now) }
{
    let mut text = name.text()?;
    drop_closing_dot(&mut text);
    Ok(text)
}

/// The text of a host, as a certificate is compared with it: a name without the dot at its end, or
/// an address in a form.
pub(crate) fn host_words(
    alloc: Global,
    form: AddressForm,
    host: &Host,
) -> Result<String, AllocError>
    ensures { IfOk result (λ text. string_bytes text ≡ spec.host_words form host.now) }
{
    match host {
        Host::V4(octets) => address_words(alloc, form, Address::V4(*octets)),
        Host::V6(octets) => address_words(alloc, form, Address::V6(*octets)),
        Host::Domain(name) => name_words(name),
    }
}

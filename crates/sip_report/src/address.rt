//! Addresses in words.
ghost use Rattle.std.specs.Prelude.{◌≡◌, IfOk};
ghost use Rattle.std.specs.String.{string_bytes};
ghost use Rattle.sip_report.specs.Addresses as spec;

use sip_uri::{Address, address_text};
use std::alloc::{AllocError, Global};
use std::net::Ipv6Addr;

/// The form in which an address is printed.
#[derive(Clone, Copy, Debug, PartialEq, Eq)]
pub enum AddressForm {
    /// An IPv6 address has eight groups (RFC 4291 2.2).
    Full,
    /// An IPv6 address has the form that is recommended (RFC 5952 4 and 5).
    Short,
}

/// The short form of an address of IPv6.
fn short_ipv6(alloc: Global, octets: [u8; 16]) -> Result<String, AllocError>
    ensures { IfOk result (λ text. string_bytes text ≡ spec.short_ipv6 octets) }
{
    let address = Ipv6Addr::from(octets);
    format!(in alloc; "{address}")
}

/// The text of an address.
pub fn address_words(
    alloc: Global,
    form: AddressForm,
    address: Address,
) -> Result<String, AllocError>
    ensures { IfOk result (λ text. string_bytes text ≡ spec.address_words form address) }
{
    match address {
        Address::V4(_) => address_text(alloc, address),
        Address::V6(octets) => match form {
            AddressForm::Full => address_text(alloc, address),
            AddressForm::Short => short_ipv6(alloc, octets),
        },
    }
}

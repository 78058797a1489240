//! Addresses of IPv4 and IPv6 as texts, and numbers in digits.
//!
//! `address_from_text` gives the address that a text spells: exactly where the text is one of IPv4
//! by RFC 3261 25.1, or one of IPv6 by RFC 4291 2.2, without brackets. `address_text` writes an
//! address, and what it writes is read as the same address. `ipv4_octets` and `ipv6_octets` read
//! one kind alone, and `decimal` a decimal number up to a limit. `next_part` and `behind_front` cut
//! a text at an octet. Memory is taken for the text of an address alone.
//!
//! ```
//! let address = Address::V6([0, 0, 0, 0, 0, 0, 0, 0, 0, 0, 0, 0, 0, 0, 0, 1]);
//! assert!(rt; address_from_text("::1") == Some(address));
//! assert_eq!(rt; address_text(alloc, address)?.as_str(), "0:0:0:0:0:0:0:1");
//! assert_eq!(rt; decimal(b"5061", 65535), Some(5061));
//! ```
//!
//! # The profile
//!
//! - A number of an IPv4 address is at most 255, and may have leading zeros, up to three digits in
//!   all.
//! - An IPv6 address has eight groups, or `::` for those that lack. The three colons of RFC 5118
//!   4.10 (`2001:db8:::192.0.2.1`), which the grammar of RFC 3261 25.1 derives, are refused.
//! - An IPv4 address may stand for the last two groups, behind `::` too, as RFC 4291 2.2 has it
//!   (`2001:db8::192.0.2.1`).
#![tactic(auto)]

mod address;
mod ipv4;
mod ipv6;
mod laws;
mod numbers;
mod parts;

pub use address::{Address, address_from_text, address_text, ipv4_octets, ipv6_octets};
pub use laws::law_written_address_is_read;
pub use numbers::decimal;
pub use parts::{behind_front, next_part};

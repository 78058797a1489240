//! The numbers of types and classes (RFC 1035 3.2.2, 3.2.4).

/// The class of the internet (RFC 1035 3.2.4).
pub const CLASS_IN: u16 = 1;

/// Addresses of IPv4 (RFC 1035 3.2.2).
pub(crate) const TYPE_A: u16 = 1;

/// Canonical names of aliases (RFC 1035 3.2.2).
pub(crate) const TYPE_CNAME: u16 = 5;

/// Starts of zones of authority (RFC 1035 3.2.2).
pub(crate) const TYPE_SOA: u16 = 6;

/// Addresses of IPv6 (RFC 3596 2.1).
pub(crate) const TYPE_AAAA: u16 = 28;

/// Servers of a service (RFC 2782).
pub(crate) const TYPE_SRV: u16 = 33;

/// Rules that lead to a service (RFC 3403 4.1).
pub(crate) const TYPE_NAPTR: u16 = 35;

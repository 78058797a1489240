//! The form in which queries go out.
ghost use Rattle.std.specs.Prelude.{◌≡◌, ◌++◌, ◌↔◌, IfOk, IsTrue, OnOk, length};
ghost use Rattle.dns_transport.specs.QueryForms.{form_octets, has_room_for_opt, opt_record, with_opt, with_recursion};

use std::alloc::{AllocError, Global};

/// The octets of a header (RFC 1035 4.1.1).
const HEADER_LENGTH: usize = 12;

/// The number of the type OPT (RFC 6891 6.1.2).
const TYPE_OPT: u8 = 41;

/// The form in which queries go out.
#[derive(Clone, Copy, Debug, PartialEq, Eq)]
pub struct QueryForm {
    /// Whether recursion is desired: RD (RFC 1035 4.1.1).
    pub recursion: bool,
    /// The most octets of a datagram that may come back, where the query has an OPT record (RFC
    /// 6891 6.2.3).
    pub edns: Option<u16>,
}

/// Clears RD, if it is not desired.
fn set_recursion(recursion: bool, query: &mut [u8])
    ensures { query.new ≡ with_recursion recursion query.old }
{
    if !recursion && query.len() > 2 {
        query[2] -= query[2] % 2;
    }
}

/// Whether a query has a whole header that counts no additional records.
fn has_room(query: &[u8]) -> bool
    ensures { result ≡ has_room_for_opt query.now }
{
    query.len() >= HEADER_LENGTH && query[10] == 0 && query[11] == 0
}

/// Appends the OPT record of a size.
fn push_opt(size: u16, query: &mut Vec<u8>) -> Result<(), AllocError>
    ensures { OnOk result (query.new.items ≡ query.old.items ++ opt_record size) }
{
    query.extend_from_slice(&[0, 0, TYPE_OPT])?;
    query.extend_from_slice(&size.to_be_bytes())?;
    query.extend_from_slice(&[0; 6])
}

/// Puts the OPT record of a size behind a query, and counts it.
fn add_opt(size: u16, query: &mut Vec<u8>) -> Result<(), AllocError>
    ensures { OnOk result (query.new.items ≡ with_opt size query.old.items) }
{
    if has_room(query.as_slice()) {
        query[11] = 1;
        push_opt(size, query)?;
    }
    Ok(())
}

impl QueryForm {
    /// The form of a query as it is made: recursion is desired, and there is no OPT record.
    pub const PLAIN: QueryForm = QueryForm {
        recursion: true,
        edns: None,
    };

    /// The octets that go out for a query.
    pub fn octets(self, alloc: Global, query: &[u8]) -> Result<Vec<u8>, AllocError>
        ensures { IfOk result (λ octets. octets.items ≡ form_octets self query.now) }
    {
        let mut octets = Vec::from_slice(alloc, query)?;
        set_recursion(self.recursion, octets.as_mut_slice());
        if let Some(size) = self.edns {
            add_opt(size, &mut octets)?;
        }
        Ok(octets)
    }

    /// The form without an OPT record.
    pub fn without_edns(self) -> QueryForm
        ensures { result ≡ record self { edns = None } }
    {
        QueryForm { edns: None, ..self }
    }
}

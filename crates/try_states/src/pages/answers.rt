//! Questions and answers that examples share.
ghost use Rattle.std.specs.Prelude.{◌≡◌, IfSome};
ghost use Rattle.std.specs.Arc.{arc_value};
ghost use Rattle.dns_answers.specs.Records.{kind_of};
ghost use Rattle.dns_message.specs.declared.kind.Kind.TheVariants.{A};

use dns_answers::{Answer, Records, Section};
use dns_message::{Kind, Question};
use dns_name::Name;
use sip_selection::Request;
use sip_uri::read_uri;
use std::alloc::Global;
use std::sync::Arc;

/// A reply to A of a.example.: 192.0.2.7, TTL 300, with a pointer to the question (RFC 1035 4.1.4).
pub(crate) const REPLY: &[u8] =
    b"\x12\x34\x81\x80\x00\x01\x00\x01\x00\x00\x00\x00\x01a\x07example\x00\x00\x01\x00\x01\xc0\x0c\
    \x00\x01\x00\x01\x00\x00\x01\x2c\x00\x04\xc0\x00\x02\x07";

/// The question A of a.example., where there is memory for its name.
pub(crate) fn question(alloc: Global) -> Option<Question>
    ensures { IfSome result (λ made. made.kind ≡ A) }
{
    match Name::from_text(alloc, "a.example") {
        Ok(name) => Some(Question {
            name,
            kind: Kind::A,
        }),
        Err(_) => None,
    }
}

/// The records of one address, where there is memory for them.
fn one_address(alloc: Global) -> Option<Records>
    ensures { IfSome result (λ made. kind_of made ≡ A) }
{
    match Vec::from_slice(alloc, &[[192, 0, 2, 7]]) {
        Ok(addresses) => Some(Records::V4(Section::from_vec(addresses))),
        Err(_) => None,
    }
}

/// The answer 192.0.2.7, with this life, where there is memory for it.
pub(crate) fn answer(alloc: Global, life: u32) -> Option<Arc<Answer>>
    ensures { IfSome result (λ made. kind_of (arc_value made).records ≡ A) }
{
    let answer = Answer::new(one_address(alloc)?, life)?;
    Arc::new(alloc, answer).ok()
}

/// The request to port 5070 of a.example, where there is memory for it.
pub(crate) fn request(alloc: Global) -> Option<Request> {
    Some(Request::Uri(read_uri(alloc, "sip:a.example:5070").ok()?))
}

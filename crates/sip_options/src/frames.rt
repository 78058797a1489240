//! Messages in front of a stream (RFC 3261 7.5, 18.3).
ghost use Rattle.std.specs.Prelude.{◌≡◌, ◌↔◌, ◌++◌, ◌≤◌, ℕ, List, length, IfOk, IfSome, IfNone, Ok, Err, Some};
ghost use Rattle.sip_options.specs.Frames.{HasHead, IsFrame, HasBadLength, IsTooLong, IsEmptyLine};
ghost use Rattle.sip_options.specs.Heads.{Header as spec_header, values_at};
ghost use Rattle.sip_options.specs.Readers.Headers.{Are};
ghost use Rattle.sip_options.specs.Readers.Numbers.{sized};
ghost use Rattle.sip_options.specs.Texts.{Many, Ends};
ghost use Rattle.sip_options.specs.declared.field.Field.TheVariants as field;

use crate::field::Field;
use crate::lines::behind_line;
use crate::numbers::{MESSAGE_LIMIT, length_said};
use crate::pieces::{Piece, cut};
use crate::values::{Values, values_of};
use thiserror::Error;

/// Why no message can stand in front of a stream.
#[derive(Clone, Copy, Debug, PartialEq, Eq, Error)]
pub enum FrameRefusal {
    /// It has more than 65,535 octets.
    #[error("the message has more than 65,535 octets")]
    TooLong,
    /// Its Content-Length is no number, or stands twice.
    #[error("the Content-Length is no number, or stands twice")]
    BadLength,
}

/// An empty line.
#[derive(Clone, Copy)]
struct EmptyLine;

impl Piece for EmptyLine {
    ghost use Rattle.sip_options.specs.Frames.{IsEmptyLine};

    ghost is_one = { λ piece text. IsEmptyLine text };

    fn length_in_front(self, text: &[u8]) -> Option<usize> {
        match text {
            [b'\r', b'\n', ..] => Some(2),
            _ => None,
        }
    }
}

/// What follows the empty lines in front of a stream, which are no part of a message (RFC 3261
/// 7.5).
pub fn behind_empty_lines(octets: &[u8]) -> &[u8]
    ensures found { (front : List ℕ) × Many IsEmptyLine front
        × (octets.now ≡ front ++ result.now) }
    ensures all { Ends IsEmptyLine result.now }
{
    cut(EmptyLine, octets).1
}

/// The values of Content-Length in the head in front, and what follows the head.
fn head(octets: &[u8]) -> Option<(Values<'_>, &[u8])>
    ensures found { IfSome result (λ found. (headers : List spec_header)
        × HasHead octets.now headers found.1.now
        × Are found.0 (values_at field.ContentLength headers)) }
    ensures none { IfNone result ((headers : List spec_header) (rest : List ℕ)
        → HasHead octets.now headers rest → ⊥) }
{
    values_of(behind_line(octets)?, Field::ContentLength)
}

/// The length of a message, where so many octets are there.
fn sized(available: usize, size: usize) -> Result<Option<usize>, FrameRefusal>
    ensures { result ≡ sized available size }
{
    if size > MESSAGE_LIMIT {
        Err(FrameRefusal::TooLong)
    } else if size > available {
        Ok(None)
    } else {
        Ok(Some(size))
    }
}

/// The length of the message in front of the octets that a stream gave so far, or `None` where more
/// of them are needed. A message without Content-Length has no body here.
///
/// Octets that are no message at all, and never become one, are told from a part of one at 65,535
/// octets. Empty lines in front of a message have to be cut off before (`behind_empty_lines`).
pub fn frame(octets: &[u8]) -> Result<Option<usize>, FrameRefusal>
    // A length is that of a whole message.
    ensures whole { IfOk result (λ found. IfSome found (λ size. IsFrame octets.now size)) }
    // The length of a whole message is found.
    ensures found { (size : ℕ) → IsFrame octets.now size → result ≡ Ok (Some size) }
    // The refusals come where they have to, and nowhere else.
    ensures bad_length { result ≡ Err FrameRefusal.BadLength ↔ HasBadLength octets.now }
    ensures too_long { result ≡ Err FrameRefusal.TooLong ↔ IsTooLong octets.now }
{
    match head(octets) {
        None => {
            if octets.len() >= MESSAGE_LIMIT {
                Err(FrameRefusal::TooLong)
            } else {
                Ok(None)
            }
        }
        Some((values, rest)) => match length_said(values) {
            None => Err(FrameRefusal::BadLength),
            Some(body) => sized(octets.len(), octets.len() - rest.len() + body as usize),
        },
    }
}

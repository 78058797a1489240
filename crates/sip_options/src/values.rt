//! The values that headers of one name have (RFC 3261 7.3.1).
ghost use Rattle.std.specs.Prelude.{◌≡◌, ℕ, List, IfSome, IfNone};
ghost use Rattle.sip_options.specs.Heads.{Header as spec_header, HeadersText, values_at};
ghost use Rattle.sip_options.specs.Readers.Fits.{HasOnly, HasFirst};
ghost use Rattle.sip_options.specs.Readers.Headers.{Are, IsOnly, IsFirst, header_of, with_header};

use crate::field::Field;
use crate::header::{Header, behind_break, header_in_front};

/// The values of headers of one name.
#[derive(Clone, Copy)]
pub(crate) enum Values<'a> {
    /// There is no such header.
    Nothing,
    /// There is one.
    One(&'a [u8]),
    /// There are several: that of the first.
    Several(&'a [u8]),
}

/// Values, with that of a header behind them where it has the name.
fn with_header<'a>(values: Values<'a>, field: Field, header: Header<'a>) -> Values<'a>
    ensures { (all : List (List ℕ)) → Are values.entry all
        → Are result (with_header field all (header_of header.entry)) }
{
    if !field.is_named(header.name) {
        return values;
    }
    match values {
        Values::Nothing => Values::One(header.value),
        Values::One(first) => Values::Several(first),
        Values::Several(first) => Values::Several(first),
    }
}

/// The values of the headers of one name in a text of headers and an empty line, and what follows
/// these.
pub(crate) fn values_of(text: &[u8], field: Field) -> Option<(Values<'_>, &[u8])>
    ensures found { IfSome result (λ found. (headers : List spec_header)
        × HeadersText text.now headers found.1.now × Are found.0 (values_at field headers)) }
    ensures none { IfNone result ((headers : List spec_header) (body : List ℕ)
        → HeadersText text.now headers body → ⊥) }
{
    let mut values = Values::Nothing;
    let mut rest = text;
    loop {
        if let Some(body) = behind_break(rest) {
            return Some((values, body));
        }
        let (header, behind) = header_in_front(rest)?;
        values = with_header(values, field, header);
        rest = behind;
    }
}

/// The value, where there is one.
fn only(values: Values<'_>) -> Option<&[u8]>
    ensures { (all : List (List ℕ)) → Are values.entry all → IsOnly all result }
{
    match values {
        Values::One(value) => Some(value),
        Values::Nothing => None,
        Values::Several(_) => None,
    }
}

/// The first value, where there are some.
fn first(values: Values<'_>) -> Option<&[u8]>
    ensures { (all : List (List ℕ)) → Are values.entry all → IsFirst all result }
{
    match values {
        Values::One(value) => Some(value),
        Values::Nothing => None,
        Values::Several(value) => Some(value),
    }
}

/// The value of the only header of a name.
pub(crate) fn only_value(text: &[u8], field: Field) -> Option<&[u8]>
    ensures found { IfSome result (λ value. HasOnly field text.now value.now) }
    ensures none { IfNone result ((value : List ℕ) → HasOnly field text.now value → ⊥) }
{
    let (values, _) = values_of(text, field)?;
    only(values)
}

/// The value of the first header of a name.
pub(crate) fn first_value(text: &[u8], field: Field) -> Option<&[u8]>
    ensures found { IfSome result (λ value. HasFirst field text.now value.now) }
    ensures none { IfNone result ((value : List ℕ) → HasFirst field text.now value → ⊥) }
{
    let (values, _) = values_of(text, field)?;
    first(values)
}

//! The texts that are located, with their numbers.
ghost use Rattle.std.specs.Prelude.{◌≡◌, IfOk, map};
ghost use Rattle.std.specs.String.{string_bytes};
ghost use Rattle.sipwhere.specs.LineInputs as spec;

use std::alloc::{AllocError, Global};

/// A text, and its number.
#[derive(Clone, Copy, Debug)]
pub struct Line<'a> {
    /// The number of the line, by which its random words are drawn.
    pub number: u64,
    /// A URI, or `Via: ..`.
    pub text: &'a str,
}

/// These texts as lines, numbered from this number on.
pub fn numbered<'a>(
    alloc: Global,
    first: u64,
    texts: &[&'a str],
) -> Result<Vec<Line<'a>>, AllocError>
    ensures { IfOk result (λ lines. map spec.said lines.items
        ≡ spec.numbered_from first (map (λ text. text.now) texts.now)) }
{
    let mut lines = Vec::with_capacity(alloc, texts.len())?;
    'texts: for (at, text) in texts.iter().enumerate() {
        let number = first.saturating_add(at as u64);
        lines.push(Line { number, text })?;
    }
    Ok(lines)
}

/// The texts of strings.
fn texts_of<'a>(alloc: Global, strings: &'a [String]) -> Result<Vec<&'a str>, AllocError>
    ensures { IfOk result
        (λ texts. map (λ text. text.now) texts.items ≡ map string_bytes strings.now) }
{
    let mut texts = Vec::with_capacity(alloc, strings.len())?;
    'strings: for string in strings {
        texts.push(string.as_str())?;
    }
    Ok(texts)
}

/// These strings as lines, numbered from this number on.
pub fn lines_of<'a>(
    alloc: Global,
    first: u64,
    strings: &'a [String],
) -> Result<Vec<Line<'a>>, AllocError>
    ensures { IfOk result (λ lines. map spec.said lines.items
        ≡ spec.numbered_from first (map string_bytes strings.now)) }
{
    let texts = texts_of(alloc, strings)?;
    numbered(alloc, first, texts.as_slice())
}

//! What a line of a resolver file is.
ghost use Rattle.std.specs.Prelude.{◌≡◌};
ghost use Rattle.resolver_file.specs.ResolverLines as spec;
ghost use Rattle.resolver_file.specs.Views.{form_value};

use crate::warning::LineFault;
use crate::words::{is_indented, next_word};

/// What a line is.
#[derive(Clone, Copy)]
pub(crate) enum LineForm<'a> {
    /// One that says nothing.
    Nothing,
    /// A name server of this word.
    Server(&'a [u8]),
    /// Options, which stand here.
    Options(&'a [u8]),
    /// One that can't be read.
    Faulty(LineFault),
}

/// Whether `#` or `;` stands in the first column.
fn is_comment(line: &[u8]) -> bool
    ensures { result ≡ spec.is_comment line.now }
{
    match line {
        [first, ..] => *first == b'#' || *first == b';',
        [] => false,
    }
}

/// Whether a line of this keyword says nothing that matters here.
fn is_unused(keyword: &[u8]) -> bool
    ensures { result ≡ spec.is_unused keyword.now }
{
    keyword == b"domain".as_slice()
        || keyword == b"search".as_slice()
        || keyword == b"sortlist".as_slice()
}

/// What a line is.
pub(crate) fn line_form(line: &[u8]) -> LineForm<'_>
    ensures { form_value result ≡ spec.line_form line.now }
{
    if is_comment(line) {
        return LineForm::Nothing;
    }
    let Some((keyword, behind)) = next_word(line) else {
        return LineForm::Nothing;
    };
    if is_indented(line) {
        return LineForm::Faulty(LineFault::Indented);
    }
    if keyword == b"nameserver".as_slice() {
        return match next_word(behind) {
            Some((word, _)) => LineForm::Server(word),
            None => LineForm::Faulty(LineFault::NoAddress),
        };
    }
    if keyword == b"options".as_slice() {
        return LineForm::Options(behind);
    }
    if is_unused(keyword) {
        return LineForm::Nothing;
    }
    LineForm::Faulty(LineFault::NoKeyword)
}

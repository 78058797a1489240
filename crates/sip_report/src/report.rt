//! What is printed of a text.
ghost use Rattle.std.specs.Prelude.{◌≡◌, ◌≤◌, IfOk};
ghost use Rattle.std.specs.String.{string_bytes};
ghost use Rattle.sip_report.specs.Reports as spec;

use crate::account::Account;
use crate::address::AddressForm;
use crate::check_limits::CheckLimits;
use crate::check_line::{check_line, check_status};
use crate::explanation::{account_lines, targets_in};
use crate::json::json_line;
use crate::line_outcome::{LineOutcome, status_of};
use crate::metrics::metrics_of;
use crate::output::{lines_of, verbose_lines};
use crate::rule::is_via;
use crate::shown_text::shown_text;
use crate::trace::trace_lines;
use crate::verdict::Verdict;
use dns_transport::WireTry;
use std::alloc::{AllocError, Global};

/// The form of report of a text.
#[derive(Clone, Copy, Debug, PartialEq, Eq)]
pub enum Report {
    /// A line for each target, or why there is none.
    Lines,
    /// An object of JSON, in one line.
    Json,
    /// One line for a monitoring system.
    Check,
    /// Metrics in the text format of Prometheus.
    Metrics,
}

/// The style in which what became of texts is printed.
#[derive(Clone, Copy, Debug)]
pub struct Style<'a> {
    /// What is printed.
    pub report: Report,
    /// What a check holds targets to.
    pub limits: CheckLimits<'a>,
    /// The form of addresses.
    pub form: AddressForm,
    /// Whether each line begins with the text and a space.
    pub several: bool,
    /// Whether the lines of what went over the wire come first.
    pub traced: bool,
    /// Whether a line has the name that does not exist.
    pub verbose: bool,
    /// Whether lines of how each target came are in front.
    pub explains: bool,
}

/// What stands in front of the lines of a text: the text as it is shown, where there are several.
fn front_of(alloc: Global, several: bool, text: &str) -> Result<String, AllocError>
    ensures { IfOk result (λ front. string_bytes front ≡ spec.front_of several text.now) }
{
    let mut front = String::new(alloc);
    if several {
        front.push_str(&shown_text(alloc, text)?)?;
        front.push_str(" ")?;
    }
    Ok(front)
}

/// The lines of what became of a text.
fn lines_in(
    alloc: Global,
    style: Style<'_>,
    text: &str,
    line_outcome: &LineOutcome,
) -> Result<String, AllocError>
    ensures { IfOk result (λ lines. string_bytes lines ≡ spec.lines_in style.entry.verbose
        style.entry.form (spec.front_of style.entry.several text.now) line_outcome.now) }
{
    let front = front_of(alloc, style.several, text)?;
    if style.verbose {
        return verbose_lines(alloc, style.form, &front, line_outcome);
    }
    lines_of(alloc, style.form, &front, line_outcome)
}

/// What is printed of a text, by what became of it after so many milliseconds.
pub fn report_of(
    alloc: Global,
    style: Style<'_>,
    text: &str,
    took: u64,
    verdict: Verdict,
    account: &Account,
    line_outcome: &LineOutcome,
) -> Result<String, AllocError>
    ensures { IfOk result (λ report. string_bytes report
        ≡ spec.report_of style.entry text.now took verdict account.now line_outcome.now) }
{
    match style.report {
        Report::Lines => lines_in(alloc, style, text, line_outcome),
        Report::Json => json_line(alloc, style.form, text, took, account, line_outcome),
        Report::Check => {
            check_line(alloc, style.form, style.limits, took, verdict, line_outcome)
        }
        Report::Metrics => metrics_of(alloc, text, took, line_outcome),
    }
}

/// The lines of what went over the wire, where they are asked for.
fn trace_of(
    alloc: Global,
    style: Style<'_>,
    text: &str,
    tries: &[WireTry],
) -> Result<String, AllocError>
    ensures { IfOk result (λ lines. string_bytes lines
        ≡ spec.trace_of style.entry.traced style.entry.form text.now tries.now) }
{
    if style.traced {
        trace_lines(alloc, style.form, is_via(text), tries)
    } else {
        Ok(String::new(alloc))
    }
}

/// The lines of the account of a text.
fn account_of(
    alloc: Global,
    style: Style<'_>,
    text: &str,
    account: &Account,
    line_outcome: &LineOutcome,
) -> Result<String, AllocError>
    ensures { IfOk result (λ lines. string_bytes lines
        ≡ spec.account_of style.entry text.now account.now line_outcome.now) }
{
    let targets = targets_in(line_outcome);
    account_lines(
        alloc,
        style.form,
        is_via(text),
        style.explains,
        account,
        targets,
    )
}

/// What is printed of a text, by what went over the wire for it, by the account of it, and by what
/// became of it after so many milliseconds.
pub fn traced_report(
    alloc: Global,
    style: Style<'_>,
    tries: &[WireTry],
    text: &str,
    took: u64,
    verdict: Verdict,
    account: &Account,
    line_outcome: &LineOutcome,
) -> Result<String, AllocError>
    ensures { IfOk result (λ report. string_bytes report ≡ spec.traced_report style.entry
        tries.now text.now took verdict account.now line_outcome.now) }
{
    let mut lines = trace_of(alloc, style, text, tries)?;
    lines.push_str(&account_of(alloc, style, text, account, line_outcome)?)?;
    lines.push_str(&report_of(alloc, style, text, took, verdict, account, line_outcome)?)?;
    Ok(lines)
}

/// The exit status of a text, by what became of it, in a form of report.
pub fn status_in(report: Report, verdict: Verdict, line_outcome: &LineOutcome) -> u8
    ensures status { result ≡ spec.status_in report verdict line_outcome.now }
    ensures range { result ≤ 5 }
{
    match report {
        Report::Lines => status_of(line_outcome),
        Report::Json => status_of(line_outcome),
        Report::Metrics => status_of(line_outcome),
        Report::Check => check_status(verdict, line_outcome),
    }
}

//! One line for a monitoring system, as the plugins of Nagios print it.
ghost use Rattle.std.specs.Prelude.{◌≡◌, ◌≤◌, ◌++◌, IfOk, OnOk, option_map};
ghost use Rattle.std.specs.String.{string_bytes};
ghost use Rattle.sip_report.specs.declared.line_outcome.LineOutcome.TheVariants.{Tried};
ghost use Rattle.sip_report.specs.Checks as spec;
ghost use Rattle.sip_report.specs.Lines.{target_words};

use crate::address::AddressForm;
use crate::check_limits::CheckLimits;
use crate::line_outcome::LineOutcome;
use crate::output::{lines_of, outcome_lines, target_words, verbose_lines};
use crate::shown_text::shown_text;
use crate::verdict::{Shortfall, Verdict};
use sip_resolver::Outcome;
use sip_selection::Target;
use sip_tries::{Extent, Tries};
use std::alloc::{AllocError, Global};

/// The status of a check that could not be made: what a plugin calls UNKNOWN.
pub const UNKNOWN_STATUS: u8 = 3;

/// The status of a check of targets: 0 OK, 1 WARNING or 2 CRITICAL.
fn verdict_status(verdict: Verdict) -> u8
    ensures status { result ≡ spec.verdict_status verdict }
    ensures range { result ≤ 3 }
{
    match verdict {
        Verdict::Well => 0,
        Verdict::Warning(_) => 1,
        Verdict::Critical(_) => 2,
    }
}

/// The status of a check of targets that were tried.
fn tries_status(verdict: Verdict, tries: &Tries) -> u8
    ensures status { result ≡ spec.check_status verdict (Tried tries.now) }
    ensures range { result ≤ 3 }
{
    if tries.succeeded() {
        verdict_status(verdict)
    } else {
        2
    }
}

/// The status of a check: 0 OK, 1 WARNING, 2 CRITICAL or 3 UNKNOWN.
pub fn check_status(verdict: Verdict, line_outcome: &LineOutcome) -> u8
    ensures status { result ≡ spec.check_status verdict line_outcome.now }
    ensures range { result ≤ 3 }
{
    match line_outcome {
        LineOutcome::Became(Outcome::Targets(_)) => verdict_status(verdict),
        LineOutcome::Became(Outcome::Refused(_)) => 2,
        LineOutcome::Became(Outcome::NoAnswer(_)) | LineOutcome::Became(Outcome::NoServer(_)) => 2,
        LineOutcome::Became(Outcome::BadReply(_, _)) => 2,
        LineOutcome::Tried(tries) => tries_status(verdict, tries),
        LineOutcome::NoSuchName(_) | LineOutcome::TimeOver => 2,
        LineOutcome::Became(Outcome::Memory) => 3,
        LineOutcome::Bad(_) | LineOutcome::NotText | LineOutcome::Memory => 3,
    }
}

/// The target that is expected and missing, as it is shown.
fn missing_words(alloc: Global, expected: Option<&str>) -> Result<String, AllocError>
    ensures { IfOk result (λ words. string_bytes words
        ≡ spec.missing_words (option_map (λ word. word.now) expected.entry)) }
{
    match expected {
        None => Ok(String::new(alloc)),
        Some(word) => {
            let mut words = String::from_str(alloc, "missing ")?;
            words.push_str(&shown_text(alloc, word)?)?;
            words.push_str(", ")?;
            Ok(words)
        }
    }
}

/// In what targets fall short.
fn shortfall_words(
    alloc: Global,
    expected: Option<&str>,
    shortfall: Shortfall,
) -> Result<String, AllocError>
    ensures { IfOk result (λ words. string_bytes words
        ≡ spec.shortfall_words (option_map (λ word. word.now) expected.entry) shortfall) }
{
    match shortfall {
        Shortfall::Missing => missing_words(alloc, expected),
        Shortfall::TooFew => String::from_str(alloc, "too few, "),
        Shortfall::TooLate => String::from_str(alloc, "too late, "),
    }
}

/// A state, and in what targets fall short.
fn state_words(
    alloc: Global,
    state: &str,
    expected: Option<&str>,
    shortfall: Shortfall,
) -> Result<String, AllocError>
    ensures { IfOk result (λ words. string_bytes words ≡ state.now
        ++ spec.shortfall_words (option_map (λ word. word.now) expected.entry) shortfall) }
{
    let mut words = String::from_str(alloc, state)?;
    words.push_str(&shortfall_words(alloc, expected, shortfall)?)?;
    Ok(words)
}

/// What stands in front of targets: the verdict on them.
fn verdict_words(
    alloc: Global,
    expected: Option<&str>,
    verdict: Verdict,
) -> Result<String, AllocError>
    ensures { IfOk result (λ words. string_bytes words
        ≡ spec.verdict_words (option_map (λ word. word.now) expected.entry) verdict) }
{
    match verdict {
        Verdict::Well => String::from_str(alloc, "SIP OK - "),
        Verdict::Warning(shortfall) => state_words(alloc, "SIP WARNING - ", expected, shortfall),
        Verdict::Critical(shortfall) => state_words(alloc, "SIP CRITICAL - ", expected, shortfall),
    }
}

/// How many targets there are, and the first one.
fn first_words(
    alloc: Global,
    form: AddressForm,
    front: &str,
    first: &Target,
) -> Result<String, AllocError>
    ensures { IfOk result (λ words.
        string_bytes words ≡ front.now ++ target_words form first.now) }
{
    let mut words = String::from_str(alloc, front)?;
    words.push_str(&target_words(alloc, form, first)?)?;
    Ok(words)
}

/// How many targets there are, where there are several.
fn many_words(alloc: Global, count: usize) -> Result<String, AllocError>
    ensures { IfOk result (λ words. string_bytes words ≡ spec.many_words count) }
{
    format!(in alloc; "{count} targets, first ")
}

/// Targets in words: how many there are, and the first one.
fn targets_words(alloc: Global, form: AddressForm, targets: &[Target]) -> Result<String, AllocError>
    ensures { IfOk result (λ words.
        string_bytes words ≡ spec.targets_words form targets.now) }
{
    match targets {
        [] => String::from_str(alloc, "0 targets"),
        [only] => first_words(alloc, form, "1 target: ", only),
        [first, ..] => {
            let front = many_words(alloc, targets.len())?;
            first_words(alloc, form, &front, first)
        }
    }
}

/// Adds a bound, where there is one, and what stands behind it.
fn push_bound(
    alloc: Global,
    text: &mut String,
    bound: Option<u32>,
    behind: &str,
) -> Result<(), AllocError>
    ensures { OnOk result (string_bytes text.new
        ≡ string_bytes text.old ++ spec.bound_words bound behind.now) }
{
    match bound {
        None => Ok(()),
        Some(bound) => {
            text.push_str(&format!(in alloc; "{bound}")?)?;
            text.push_str(behind)
        }
    }
}

/// Adds the bounds of a value, what stands behind each, and its least value.
fn push_bounds(
    alloc: Global,
    text: &mut String,
    warning: Option<u32>,
    critical: Option<u32>,
    behind: &str,
) -> Result<(), AllocError>
    ensures { OnOk result (string_bytes text.new
        ≡ string_bytes text.old ++ spec.bounds_words warning critical behind.now) }
{
    push_bound(alloc, text, warning, behind)?;
    text.push_str(";")?;
    push_bound(alloc, text, critical, behind)?;
    text.push_str(";0")
}

/// Adds a value, with what stands in front of it and behind it.
fn push_value(
    alloc: Global,
    text: &mut String,
    front: &str,
    value: u64,
    behind: &str,
) -> Result<(), AllocError>
    ensures { OnOk result (string_bytes text.new
        ≡ string_bytes text.old ++ spec.value_words front.now value behind.now) }
{
    text.push_str(front)?;
    text.push_str(&format!(in alloc; "{value}")?)?;
    text.push_str(behind)
}

/// Adds the performance data of a check: the time and the number of targets, each with its bounds.
fn push_performance(
    alloc: Global,
    text: &mut String,
    limits: CheckLimits<'_>,
    took: u64,
    count: usize,
) -> Result<(), AllocError>
    ensures { OnOk result (string_bytes text.new
        ≡ string_bytes text.old ++ spec.performance limits.entry took count) }
{
    let CheckLimits {
        warning,
        critical,
        ..
    } = limits;
    push_value(alloc, text, " | time=", took, "ms;")?;
    push_bounds(alloc, text, warning.time, critical.time, "")?;
    push_value(alloc, text, " targets=", count as u64, ";")?;
    push_bounds(alloc, text, warning.targets, critical.targets, ":")
}

/// The line of targets: the verdict on them, how many they are, the first one, and the performance
/// data.
fn targets_line(
    alloc: Global,
    form: AddressForm,
    limits: CheckLimits<'_>,
    took: u64,
    verdict: Verdict,
    targets: &[Target],
) -> Result<String, AllocError>
    ensures { IfOk result (λ line.
        string_bytes line ≡ spec.targets_line form limits.entry took verdict targets.now) }
{
    let mut line = verdict_words(alloc, limits.expected, verdict)?;
    line.push_str(&targets_words(alloc, form, targets)?)?;
    push_performance(alloc, &mut line, limits, took, targets.len())?;
    line.push_str("\n")?;
    Ok(line)
}

/// What stands in front of targets that were tried: that no server, or not each, is there, or else
/// the verdict on them.
fn tries_words(
    alloc: Global,
    expected: Option<&str>,
    verdict: Verdict,
    tries: &Tries,
) -> Result<String, AllocError>
    ensures { IfOk result (λ words. string_bytes words
        ≡ spec.tries_words (option_map (λ word. word.now) expected.entry) verdict tries.now) }
{
    if tries.succeeded() {
        return verdict_words(alloc, expected, verdict);
    }
    match tries.extent {
        Extent::UntilThere => String::from_str(alloc, "SIP CRITICAL - no server answered, "),
        Extent::All => String::from_str(alloc, "SIP CRITICAL - a server is missing, "),
    }
}

/// Adds the milliseconds until the final reply was there, where one was.
fn push_rtt(alloc: Global, text: &mut String, time: Option<u64>) -> Result<(), AllocError>
    ensures { OnOk result (string_bytes text.new
        ≡ string_bytes text.old ++ spec.rtt_words time) }
{
    match time {
        None => Ok(()),
        Some(after) => push_value(alloc, text, " rtt=", after, "ms"),
    }
}

/// The line of targets that were tried.
fn tries_line(
    alloc: Global,
    form: AddressForm,
    limits: CheckLimits<'_>,
    took: u64,
    verdict: Verdict,
    tries: &Tries,
) -> Result<String, AllocError>
    ensures { IfOk result (λ line.
        string_bytes line ≡ spec.tries_line form limits.entry took verdict tries.now) }
{
    let targets = tries.targets.as_slice();
    let mut line = tries_words(alloc, limits.expected, verdict, tries)?;
    line.push_str(&targets_words(alloc, form, targets)?)?;
    push_performance(alloc, &mut line, limits, took, targets.len())?;
    push_rtt(alloc, &mut line, tries.first_time())?;
    line.push_str("\n")?;
    Ok(line)
}

/// The line of what became of a request.
fn outcome_line(
    alloc: Global,
    form: AddressForm,
    limits: CheckLimits<'_>,
    took: u64,
    verdict: Verdict,
    outcome: &Outcome,
) -> Result<String, AllocError>
    ensures { IfOk result (λ line.
        string_bytes line ≡ spec.outcome_line form limits.entry took verdict outcome.now) }
{
    match outcome {
        Outcome::Targets(list) => {
            targets_line(alloc, form, limits, took, verdict, list.as_slice())
        }
        Outcome::Refused(_) => outcome_lines(alloc, form, "SIP CRITICAL - ", outcome),
        Outcome::NoAnswer(_) => outcome_lines(alloc, form, "SIP CRITICAL - ", outcome),
        Outcome::NoServer(_) => outcome_lines(alloc, form, "SIP CRITICAL - ", outcome),
        Outcome::BadReply(_, _) => outcome_lines(alloc, form, "SIP CRITICAL - ", outcome),
        Outcome::Memory => outcome_lines(alloc, form, "SIP UNKNOWN - ", outcome),
    }
}

/// The line of what became of a text after so many milliseconds, with the verdict on its targets.
pub fn check_line(
    alloc: Global,
    form: AddressForm,
    limits: CheckLimits<'_>,
    took: u64,
    verdict: Verdict,
    line_outcome: &LineOutcome,
) -> Result<String, AllocError>
    ensures { IfOk result (λ line. string_bytes line
        ≡ spec.check_line form limits.entry took verdict line_outcome.now) }
{
    match line_outcome {
        LineOutcome::Became(outcome) => outcome_line(alloc, form, limits, took, verdict, outcome),
        LineOutcome::Tried(tries) => tries_line(alloc, form, limits, took, verdict, tries),
        LineOutcome::NoSuchName(_) => verbose_lines(alloc, form, "SIP CRITICAL - ", line_outcome),
        LineOutcome::TimeOver => lines_of(alloc, form, "SIP CRITICAL - ", line_outcome),
        LineOutcome::Bad(_) => lines_of(alloc, form, "SIP UNKNOWN - ", line_outcome),
        LineOutcome::NotText => lines_of(alloc, form, "SIP UNKNOWN - ", line_outcome),
        LineOutcome::Memory => lines_of(alloc, form, "SIP UNKNOWN - ", line_outcome),
    }
}

//! How a check judges targets.
ghost use Rattle.std.specs.Prelude.{◌≡◌, ◌↔◌, ℕ, List, IfOk, option_map};
ghost use Rattle.sip_selection.specs.declared.target.Target.{Target};
ghost use Rattle.sip_report.specs.declared.check_limits.CheckLimits.{CheckLimits};
ghost use Rattle.sip_report.specs.declared.verdict.Verdict.TheVariants.{Well};
ghost use Rattle.sip_report.specs.Verdicts as spec;

use crate::address::AddressForm;
use crate::check_limits::{Bounds, CheckLimits};
use crate::line_outcome::LineOutcome;
use crate::output::target_words;
use sip_resolver::Outcome;
use sip_selection::Target;
use std::alloc::{AllocError, Global};

/// In what targets fall short of what a check holds them to.
#[derive(Clone, Copy, Debug, PartialEq, Eq)]
pub enum Shortfall {
    /// The target that is expected is none of them.
    Missing,
    /// There are fewer than there have to be.
    TooFew,
    /// It took longer than it may to find them.
    TooLate,
}

/// How a check judges targets.
#[derive(Clone, Copy, Debug, PartialEq, Eq)]
pub enum Verdict {
    /// They are within all limits.
    Well,
    /// They are beyond a bound of a warning.
    Warning(Shortfall),
    /// They are beyond a critical bound, or the one that is expected is missing.
    Critical(Shortfall),
}

/// Whether so many milliseconds are no more than a bound, where there is one.
fn is_in_time(most: Option<u32>, took: u64) -> bool
    ensures { result ≡ spec.is_in_time most took }
{
    match most {
        None => true,
        Some(most) => took <= u64::from(most),
    }
}

/// Whether so many targets are as many as there have to be, where a number is given.
fn are_enough(least: Option<u32>, count: usize) -> bool
    ensures { result ≡ spec.are_enough least count }
{
    match least {
        None => true,
        Some(least) => count as u64 >= u64::from(least),
    }
}

/// In what so many targets, after so many milliseconds, fall short of bounds.
fn shortfall_of(bounds: Bounds, took: u64, count: usize) -> Option<Shortfall>
    ensures { result ≡ spec.shortfall_of bounds took count }
{
    if !are_enough(bounds.targets, count) {
        return Some(Shortfall::TooFew);
    }
    if !is_in_time(bounds.time, took) {
        return Some(Shortfall::TooLate);
    }
    None
}

/// Whether a word shows a target in this form of addresses.
fn is_shown_in(
    alloc: Global,
    form: AddressForm,
    word: &str,
    target: &Target,
) -> Result<bool, AllocError>
    ensures { IfOk result (λ it. it ≡ spec.is_shown_in form word.now target.now) }
{
    let words = target_words(alloc, form, target)?;
    Ok(words.as_str() == word)
}

/// Whether a word shows a target, in one of the forms of addresses.
fn is_shown(alloc: Global, word: &str, target: &Target) -> Result<bool, AllocError>
    ensures { IfOk result (λ it. it ≡ spec.is_shown word.now target.now) }
{
    let is_full = is_shown_in(alloc, AddressForm::Full, word, target)?;
    let is_short = is_shown_in(alloc, AddressForm::Short, word, target)?;
    Ok(is_full || is_short)
}

/// Whether a word shows one of these targets.
fn is_among(alloc: Global, word: &str, targets: &[Target]) -> Result<bool, AllocError>
    ensures { IfOk result (λ it. it ≡ spec.is_among word.now targets.now) }
{
    let mut is_found = false;
    'targets: for target in targets {
        let is_this = is_shown(alloc, word, target)?;
        is_found = is_found || is_this;
    }
    Ok(is_found)
}

/// Whether the target that is expected is none of these.
fn is_missing(alloc: Global, expected: Option<&str>, targets: &[Target]) -> Result<bool, AllocError>
    ensures { IfOk result (λ it.
        it ≡ spec.is_missing (option_map (λ word. word.now) expected.entry) targets.now) }
{
    match expected {
        None => Ok(false),
        Some(word) => Ok(!is_among(alloc, word, targets)?),
    }
}

/// The verdict on so many targets, after so many milliseconds, of which none is missing.
fn verdict_by_bounds(limits: CheckLimits<'_>, took: u64, count: usize) -> Verdict
    ensures { result ≡ spec.verdict_by_bounds limits.entry took count }
{
    if let Some(shortfall) = shortfall_of(limits.critical, took, count) {
        return Verdict::Critical(shortfall);
    }
    match shortfall_of(limits.warning, took, count) {
        Some(shortfall) => Verdict::Warning(shortfall),
        None => Verdict::Well,
    }
}

/// The verdict on targets, which were found after so many milliseconds.
fn verdict_on(
    alloc: Global,
    limits: CheckLimits<'_>,
    took: u64,
    targets: &[Target],
) -> Result<Verdict, AllocError>
    ensures { IfOk result (λ verdict. verdict ≡ spec.verdict_on limits.entry took targets.now) }
{
    if is_missing(alloc, limits.expected, targets)? {
        return Ok(Verdict::Critical(Shortfall::Missing));
    }
    Ok(verdict_by_bounds(limits, took, targets.len()))
}

/// The verdict on what became of a text after so many milliseconds: where it has no targets,
/// nothing is wrong with them.
pub fn verdict_of(
    alloc: Global,
    limits: CheckLimits<'_>,
    took: u64,
    line_outcome: &LineOutcome,
) -> Result<Verdict, AllocError>
    ensures { IfOk result (λ verdict.
        verdict ≡ spec.verdict_of limits.entry took line_outcome.now) }
{
    match line_outcome {
        LineOutcome::Became(Outcome::Targets(list)) => {
            verdict_on(alloc, limits, took, list.as_slice())
        }
        LineOutcome::Tried(tries) => { verdict_on(alloc, limits, took, tries.targets.as_slice()) }
        _ => Ok(Verdict::Well),
    }
}

/// A law: targets are well exactly where they are within all bounds and the one that is expected is
/// among them; and the state is below CRITICAL exactly where no critical bound is passed and that
/// one is there. A call does nothing; its contract states this.
pub fn law_verdicts()
    ensures well { (limits : CheckLimits) (took : ℕ) (targets : List Target)
        → (spec.verdict_on limits took targets ≡ Well) ↔ spec.IsWell limits took targets }
    ensures critical { (limits : CheckLimits) (took : ℕ) (targets : List Target)
        → spec.IsBelowCritical (spec.verdict_on limits took targets)
        ↔ spec.IsNotCritical limits took targets }
{}

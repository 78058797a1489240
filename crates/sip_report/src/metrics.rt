//! What became of a text as metrics, in the text format of Prometheus, as a file that its node
//! exporter reads.
ghost use Rattle.std.specs.Prelude.{◌≡◌, ◌+◌, ◌++◌, ◌<◌, IfOk, OnOk};
ghost use Rattle.std.specs.Fmt.{decimal};
ghost use Rattle.std.specs.List.{flat_map};
ghost use Rattle.std.specs.String.{string_bytes};
ghost use Rattle.sip_report.specs.Metrics as spec;

use crate::line_outcome::{LineOutcome, status_of};
use crate::shown_text::shown_text;
use sip_resolver::Outcome;
use std::alloc::{AllocError, Global};

/// Adds an octet of the value of a label.
fn push_label_octet(label: &mut String, octet: u8) -> Result<(), AllocError>
    requires { octet < 128 }
    ensures { OnOk result
        (string_bytes label.new ≡ string_bytes label.old ++ spec.label_octet octet) }
{
    if octet == b'"' || octet == b'\\' {
        label.push('\\')?;
    }
    label.push(char::from(octet))
}

/// A text as the value of a label.
fn label_of(alloc: Global, text: &str) -> Result<String, AllocError>
    ensures { IfOk result (λ label. string_bytes label ≡ spec.label_of text.now) }
{
    let shown = shown_text(alloc, text)?;
    let mut label = String::new(alloc);
    for octet in shown.as_bytes() {
        push_label_octet(&mut label, *octet)?;
    }
    Ok(label)
}

/// The decimal digit of a number below ten.
fn digit(number: u64) -> char
    requires { number < 10 }
    ensures { result ≡ 48 + number }
{
    char::from(b'0' + number as u8)
}

/// Milliseconds as seconds.
fn seconds(alloc: Global, milliseconds: u64) -> Result<String, AllocError>
    ensures { IfOk result (λ words. string_bytes words ≡ spec.seconds milliseconds) }
{
    let whole = milliseconds / 1_000;
    let part = milliseconds % 1_000;
    let mut words = format!(in alloc; "{whole}")?;
    words.push('.')?;
    words.push(digit(part / 100))?;
    words.push(digit(part / 10 % 10))?;
    words.push(digit(part % 10))?;
    Ok(words)
}

/// Adds the lines that say what a gauge counts, and that it is one.
fn push_head(metrics: &mut String, name: &str, help: &str) -> Result<(), AllocError>
    ensures { OnOk result (string_bytes metrics.new
        ≡ string_bytes metrics.old ++ spec.head name.now help.now) }
{
    metrics.push_str("# HELP ")?;
    metrics.push_str(name)?;
    metrics.push_str(" ")?;
    metrics.push_str(help)?;
    metrics.push_str("\n# TYPE ")?;
    metrics.push_str(name)?;
    metrics.push_str(" gauge\n")
}

/// Adds the line of a gauge's value.
fn push_sample(metrics: &mut String, name: &str, label: &str, value: &str) -> Result<(), AllocError>
    ensures { OnOk result (string_bytes metrics.new
        ≡ string_bytes metrics.old ++ spec.sample name.now label.now value.now) }
{
    metrics.push_str(name)?;
    metrics.push_str("{uri=\"")?;
    metrics.push_str(label)?;
    metrics.push_str("\"} ")?;
    metrics.push_str(value)?;
    metrics.push_str("\n")
}

/// Adds a gauge of a text, with what it counts, and its value.
fn push_gauge(
    metrics: &mut String,
    name: &str,
    help: &str,
    label: &str,
    value: &str,
) -> Result<(), AllocError>
    ensures { OnOk result (string_bytes metrics.new ≡ string_bytes metrics.old
        ++ spec.gauge name.now help.now label.now value.now) }
{
    push_head(metrics, name, help)?;
    push_sample(metrics, name, label, value)
}

/// How many targets a text has.
fn count_of(line_outcome: &LineOutcome) -> usize
    ensures { result ≡ spec.count_of line_outcome.now }
{
    match line_outcome {
        LineOutcome::Became(Outcome::Targets(list)) => list.as_slice().len(),
        LineOutcome::Tried(tries) => tries.targets.as_slice().len(),
        _ => 0,
    }
}

/// A number in words.
fn number_words(alloc: Global, number: u64) -> Result<String, AllocError>
    ensures { IfOk result (λ words. string_bytes words ≡ decimal number) }
{
    format!(in alloc; "{number}")
}

/// The metrics of a text, by what became of it after so many milliseconds.
pub fn metrics_of(
    alloc: Global,
    text: &str,
    took: u64,
    line_outcome: &LineOutcome,
) -> Result<String, AllocError>
    ensures { IfOk result (λ metrics.
        string_bytes metrics ≡ spec.metrics_of text.now took line_outcome.now) }
{
    let label = label_of(alloc, text)?;
    let mut metrics = String::new(alloc);
    push_gauge(
        &mut metrics,
        "sipwhere_status",
        "The exit status: 0 with targets.",
        &label,
        &number_words(alloc, u64::from(status_of(line_outcome)))?,
    )?;
    push_gauge(
        &mut metrics,
        "sipwhere_targets",
        "How many targets there are.",
        &label,
        &number_words(alloc, count_of(line_outcome) as u64)?,
    )?;
    push_gauge(
        &mut metrics,
        "sipwhere_duration_seconds",
        "How long it took.",
        &label,
        &seconds(alloc, took)?,
    )?;
    Ok(metrics)
}

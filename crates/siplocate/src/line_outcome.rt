//! What becomes of the lines of the requests, and what is printed of it.
ghost use Rattle.std.specs.Prelude.{◌≡◌, ◌≤◌, IfOk};
ghost use Rattle.std.specs.List.{flat_map, list_all, list_any};
ghost use Rattle.std.specs.String.{string_bytes};
ghost use Rattle.siplocate.specs.Outcomes as spec;
ghost use Rattle.siplocate.specs.Runs.{line_outcomes_of};
ghost use Rattle.siplocate_one.specs.Words.{target_line};

use crate::requests::RequestLine;
use answer_cache::Notice;
use sip_report::{question_words, reason_word, request_word};
use sip_selection::Target;
use sip_uri::UriRefusal;
use sip_workers::Outcome;
use siplocate_one::{refusal_word, target_line};
use std::alloc::{AllocError, Global};

/// What becomes of a line of the requests.
#[derive(Debug, Drop)]
pub enum LineOutcome {
    /// The line is a request, and this became of it.
    Became(Outcome),
    /// The line is no request, for this reason.
    Bad(UriRefusal),
}

impl LineOutcome {
    /// Whether it has targets.
    fn has_targets(&self) -> bool
        ensures { result ≡ spec.has_targets self.now }
    {
        matches!(self, LineOutcome::Became(Outcome::Targets(_)))
    }

    /// Whether memory was refused for it.
    fn lacks_memory(&self) -> bool
        ensures { result ≡ spec.lacks_memory self.now }
    {
        matches!(self, LineOutcome::Became(Outcome::Memory))
    }
}

/// What becomes of each line, by what became of the requests among them, in order.
pub fn line_outcomes_of(
    alloc: Global,
    entries: Vec<RequestLine>,
    made: Vec<(Outcome, Notice)>,
) -> Result<Vec<LineOutcome>, AllocError>
    ensures { IfOk result (λ line_outcomes. line_outcomes.items
        ≡ line_outcomes_of entries.items made.items) }
{
    let mut line_outcomes = Vec::with_capacity(alloc, entries.len())?;
    let mut made = made.into_iter();
    'entries: for entry in entries {
        let line_outcome = match entry {
            RequestLine::Bad(refusal) => LineOutcome::Bad(refusal),
            RequestLine::Request => match made.next() {
                Some((outcome, _)) => LineOutcome::Became(outcome),
                None => break,
            },
        };
        line_outcomes.push(line_outcome)?;
    }
    Ok(line_outcomes)
}

/// The lines of targets, each behind the number of their request.
fn numbered_targets(alloc: Global, number: usize, targets: &[Target]) -> Result<String, AllocError>
    ensures { IfOk result (λ lines. string_bytes lines
        ≡ flat_map (λ target. spec.numbered number (target_line target)) targets.now) }
{
    let mut lines = String::new(alloc);
    'targets: for target in targets {
        let line = target_line(alloc, target)?;
        lines.push_str(&format!(in alloc; "{number} {line}")?)?;
    }
    Ok(lines)
}

/// The lines of what became of the request of a number.
fn outcome_lines(alloc: Global, number: usize, outcome: &Outcome) -> Result<String, AllocError>
    ensures { IfOk result (λ lines. string_bytes lines ≡ spec.outcome_lines number outcome.now) }
{
    match outcome {
        Outcome::Targets(list) => numbered_targets(alloc, number, list.as_slice()),
        Outcome::Refused(reason) => {
            let reason = reason_word(*reason);
            format!(in alloc; "{number} refused {reason}\n")
        }
        Outcome::NoAnswer(question) | Outcome::NoServer(question) => {
            let question = question_words(alloc, question)?;
            format!(in alloc; "{number} gaveup {question}\n")
        }
        Outcome::BadReply(question, refusal) => {
            let question = question_words(alloc, question)?;
            let refusal = refusal_word(*refusal);
            format!(in alloc; "{number} badreply {question} {refusal}\n")
        }
        Outcome::Memory => format!(in alloc; "{number} fault memory\n"),
    }
}

/// The lines of what became of the line of a number.
fn line_outcome_lines(
    alloc: Global,
    number: usize,
    line_outcome: &LineOutcome,
) -> Result<String, AllocError>
    ensures { IfOk result (λ lines. string_bytes lines
        ≡ spec.line_outcome_lines number line_outcome.now) }
{
    match line_outcome {
        LineOutcome::Became(outcome) => outcome_lines(alloc, number, outcome),
        LineOutcome::Bad(refusal) => {
            let refusal = request_word(*refusal);
            format!(in alloc; "{number} bad {refusal}\n")
        }
    }
}

/// The lines of what became of all lines, which are numbered from 1.
pub fn printed(alloc: Global, line_outcomes: &[LineOutcome]) -> Result<String, AllocError>
    ensures { IfOk result (λ lines. string_bytes lines ≡ spec.shown_from 1 line_outcomes.now) }
{
    let mut lines = String::new(alloc);
    let mut number = 0;
    'line_outcomes: for line_outcome in line_outcomes {
        number += 1;
        lines.push_str(&line_outcome_lines(alloc, number, line_outcome)?)?;
    }
    Ok(lines)
}

/// Whether memory was refused for one of these lines.
fn one_lacks_memory(line_outcomes: &[LineOutcome]) -> bool
    ensures { result ≡ list_any spec.lacks_memory line_outcomes.now }
{
    line_outcomes
        .iter()
        .any(|line_outcome| line_outcome.lacks_memory())
}

/// Whether each of these lines has targets.
fn all_have_targets(line_outcomes: &[LineOutcome]) -> bool
    ensures { result ≡ list_all spec.has_targets line_outcomes.now }
{
    line_outcomes
        .iter()
        .all(|line_outcome| line_outcome.has_targets())
}

/// The status of what became of all lines: 0 where each request has targets, 5 where memory was
/// refused for one, and else 2.
pub fn status(line_outcomes: &[LineOutcome]) -> u8
    ensures status { result ≡ spec.status_of_all line_outcomes.now }
    ensures range { result ≤ 5 }
{
    if one_lacks_memory(line_outcomes) {
        5
    } else if all_have_targets(line_outcomes) {
        0
    } else {
        2
    }
}

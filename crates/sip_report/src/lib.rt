//! What is printed of what became of a SIP URI, or of a Via, and the exit status of a program that
//! prints it.
//!
//! `LineOutcome` is what became of a text. `traced_report` gives what is printed of it, in a
//! `Style`: lines of words (a line for each target, or why there is none), an object of JSON (RFC
//! 8259), one line for a monitoring system, or metrics; behind what went over the wire for it, and
//! how its targets came (`Account`), where that is asked for. `status_in` gives its exit status,
//! and `graver_of` the one of two that counts. `verdict_of` is how a check judges targets by its
//! `CheckLimits`.
//!
//! `target_words`, `question_words`, `reason_word` and `request_word` are the words of the parts. A
//! text of somebody else is shown so that it ends no line and commands no terminal
//! (`specs/Escapes.antt`).
//!
//! Read `specs/Lines.antt` first: the lines of words. `specs/Jsons.antt` says the objects of JSON,
//! `specs/Checks.antt` the line of a check, `specs/Metrics.antt` the metrics, `specs/Traces.antt`
//! the lines of the wire, `specs/Explanations.antt` those of how targets came, and
//! `specs/Reports.antt` which of them is printed.
#![tactic(auto)]

mod account;
mod address;
mod check_limits;
mod check_line;
mod explanation;
mod host;
mod json;
mod line_outcome;
mod metrics;
mod output;
mod record_lines;
mod record_words;
mod report;
mod rule;
mod shown_text;
mod trace;
mod verdict;

pub use account::{Account, FirstCount};
pub use address::AddressForm;
pub use check_limits::{Bounds, CheckLimits};
pub use check_line::UNKNOWN_STATUS;
pub use line_outcome::{FAULT_STATUS, LineOutcome, RequestFault, graver_of};
pub use output::{question_words, reason_word, request_word, target_words};
pub use report::{Report, Style, status_in, traced_report};
pub use verdict::{Shortfall, Verdict, law_verdicts, verdict_of};

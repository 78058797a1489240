//! What is printed of a text, and its status.
ghost use Rattle.std.specs.Prelude.{◌≡◌, ◌⊎◌, ◌≤◌, ◌||◌, IsFalse, IsTrue, OnOk};
ghost use Rattle.std.specs.Io.KnownBytes.{Appends};
ghost use Rattle.sip_report.specs.Lines.{graver_of};
ghost use Rattle.sipwhere.specs.Runs.{IsTold, IsToldWhole};

use dns_transport::WireTry;
use sip_report::{
    Account, FAULT_STATUS, LineOutcome, Style, graver_of, status_in, traced_report, verdict_of,
};
use std::alloc::Global;
use std::io::{self, Write};

/// What came of printing texts.
#[derive(Clone, Copy, Debug)]
pub struct Told {
    /// The gravest status of them, or 5 where one could not be printed.
    pub status: u8,
    /// Whether the output takes no more, so that nothing else need be located.
    pub is_closed: bool,
}

/// No text was printed.
pub const NOTHING_TOLD: Told = Told {
    status: 0,
    is_closed: false,
};

/// Memory or the input failed.
pub const FAULT_TOLD: Told = Told {
    status: FAULT_STATUS,
    is_closed: false,
};

impl Told {
    /// What came of printing these texts, and then others.
    pub fn and(self, others: Told) -> Told
        ensures status { result.status ≡ graver_of self.status others.status }
        ensures range { self.status ≤ 5 → others.status ≤ 5 → result.status ≤ 5 }
        ensures closed { result.is_closed ≡ self.is_closed || others.is_closed }
        ensures fault { (self.status ≡ 5 ⊎ others.status ≡ 5)
            → self.status ≤ 5 → others.status ≤ 5 → result.status ≡ 5 }
        // Where an output that is closed has status 5, so it has afterwards.
        ensures ended { (IsTrue self.is_closed → self.status ≡ 5)
            → (IsTrue others.is_closed → others.status ≡ 5)
            → self.status ≤ 5 → others.status ≤ 5
            → IsTrue result.is_closed → result.status ≡ 5 }
    {
        Told {
            status: graver_of(self.status, others.status),
            is_closed: self.is_closed || others.is_closed,
        }
    }
}

/// Writes a text.
fn write_text<W: Write>(output: &mut W, text: &str) -> io::Result<()>
    ensures { OnOk result (Appends (W.contents output.old) (W.contents output.new) text.now) }
{
    output.write_all(text.as_bytes())?;
    output.flush()
}

/// A text, and how long it took.
#[derive(Clone, Copy, Debug)]
pub struct TimedText<'a> {
    /// The text.
    pub text: &'a str,
    /// How many milliseconds it took.
    pub took: u64,
}

/// Prints what went over the wire for a text, and what became of it.
pub fn tell<O: Write>(
    alloc: Global,
    output: &mut O,
    style: Style<'_>,
    tries: &[WireTry],
    timed: TimedText<'_>,
    account: &Account,
    line_outcome: &LineOutcome,
) -> Told
    ensures told { IsTold (O.contents output.old) (O.contents output.new) style.entry tries.now
        timed.entry.text.now timed.entry.took account.now line_outcome.now result.status }
    ensures range { result.status ≤ 5 }
    ensures closed { IsTrue result.is_closed → result.status ≡ 5 }
    ensures open { IsFalse result.is_closed → IsToldWhole (O.contents output.old)
        (O.contents output.new) style.entry tries.now timed.entry.text.now timed.entry.took
        account.now line_outcome.now result.status }
{
    let TimedText { text, took } = timed;
    let Ok(verdict) = verdict_of(alloc, style.limits, took, line_outcome) else {
        return FAULT_TOLD;
    };
    let report = traced_report(
        alloc,
        style,
        tries,
        text,
        took,
        verdict,
        account,
        line_outcome,
    );
    let Ok(report) = report else {
        return FAULT_TOLD;
    };
    match write_text(output, &report) {
        Ok(()) => Told {
            status: status_in(style.report, verdict, line_outcome),
            is_closed: false,
        },
        Err(_) => Told {
            status: FAULT_STATUS,
            is_closed: true,
        },
    }
}

//! What becomes of a text.
ghost use Rattle.std.specs.Prelude.{◌≡◌, ◌≤◌};
ghost use Rattle.sip_report.specs.Lines as spec;

use dns_name::Name;
use sip_resolver::Outcome;
use sip_tries::Tries;
use sip_uri::UriRefusal;

/// The status of a text that has targets.
pub const TARGETS_STATUS: u8 = 0;

/// The status of a text for which a question has no answer, whose time was over, or of whose
/// targets none is there.
pub const GAVEUP_STATUS: u8 = 1;

/// The status of a text whose request goes nowhere.
pub const REFUSED_STATUS: u8 = 2;

/// The status of a text that is no request.
pub const BAD_STATUS: u8 = 3;

/// The status where memory, input, output, a clock or a socket failed.
pub const FAULT_STATUS: u8 = 5;

/// Why a text is no request, and where.
#[derive(Clone, Copy, Debug, PartialEq, Eq)]
pub struct RequestFault {
    /// Why it is none.
    pub refusal: UriRefusal,
    /// How many octets of it stand in front of its leftmost fault.
    pub at: usize,
}

/// What becomes of a text.
#[derive(Debug, Drop)]
pub enum LineOutcome {
    /// The text is a request, and this became of it.
    Became(Outcome),
    /// The text is a request, and its targets were tried.
    Tried(Tries),
    /// The text is a request that goes nowhere, as no server has an address; and the name of its
    /// host, which is this one, does not exist.
    NoSuchName(Name),
    /// The text is a request, and its time was over.
    TimeOver,
    /// The text is no request, for this reason.
    Bad(RequestFault),
    /// The text is no request: it has octets that are no text (UTF-8, RFC 3629).
    NotText,
    /// Memory was refused for the text.
    Memory,
}

/// How grave a status is. That a question has no answer is graver than that a request goes nowhere.
fn gravity(status: u8) -> u8
    ensures { result ≡ spec.gravity status }
{
    match status {
        1 => 2,
        2 => 1,
        _ => status,
    }
}

/// The graver one of two statuses: 5 (a fault), 4, 3 (no request), 1 (a question without an
/// answer), 2 (a request that goes nowhere) and 0, in this order.
pub fn graver_of(status: u8, other: u8) -> u8
    ensures graver { result ≡ spec.graver_of status other }
    ensures range { status ≤ 5 → other ≤ 5 → result ≤ 5 }
{
    if gravity(status) < gravity(other) {
        other
    } else {
        status
    }
}

/// The status of a text whose targets were tried.
pub(crate) fn status_of_tries(tries: &Tries) -> u8
    ensures status { result ≡ spec.status_of_tries tries.now }
    ensures range { result ≤ 5 }
{
    if tries.succeeded() {
        TARGETS_STATUS
    } else {
        GAVEUP_STATUS
    }
}

/// The exit status of a text, by what became of it.
pub fn status_of(line_outcome: &LineOutcome) -> u8
    ensures status { result ≡ spec.status_of line_outcome.now }
    ensures range { result ≤ 5 }
{
    match line_outcome {
        LineOutcome::Became(Outcome::Targets(_)) => TARGETS_STATUS,
        LineOutcome::Became(Outcome::NoAnswer(_)) => GAVEUP_STATUS,
        LineOutcome::Became(Outcome::NoServer(_)) => GAVEUP_STATUS,
        LineOutcome::Became(Outcome::BadReply(_, _)) => GAVEUP_STATUS,
        LineOutcome::TimeOver => GAVEUP_STATUS,
        LineOutcome::Tried(tries) => status_of_tries(tries),
        LineOutcome::Became(Outcome::Refused(_)) | LineOutcome::NoSuchName(_) => REFUSED_STATUS,
        LineOutcome::Bad(_) | LineOutcome::NotText => BAD_STATUS,
        LineOutcome::Became(Outcome::Memory) | LineOutcome::Memory => FAULT_STATUS,
    }
}

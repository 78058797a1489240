//! A zone and many requests: the input of a run.
ghost use Rattle.std.specs.Prelude.{◌≡◌, ◌<◌, ◌≤◌, ◌≢◌, ◌==◌, ◌⊎◌, ◌∷◌, [], ℕ, List, Decides, IfErr, IfOk, MatchOption, length};
ghost use Rattle.std.specs.List.{after_first, before_first, position_or_len};
ghost use Rattle.std.specs.Str.Lines.{lines};
ghost use Rattle.siplocate.specs.Parts.{AreParts};
ghost use Rattle.siplocate.specs.Runs.{AreRequestLines, HasTooMany, IsRequestLine, IsJob, IsRequest};
ghost use Rattle.sip_selection.specs.RequestLines.{RequestText};
ghost use Rattle.sip_workers.specs.declared.refusal.RunRefusal.TheVariants.{BadCount, NoThread};

use sip_selection::{Families, Request, read_request};
use sip_uri::UriRefusal;
use sip_workers::{Job, RunRefusal};
use siplocate_one::{own_caps, own_words};
use std::alloc::Global;

/// The most requests of a run.
const REQUEST_LIMIT: usize = 10_000;

/// What stands before and after the first line feed.
fn at_line_feed(text: &str) -> Option<(&str, &str)>
    ensures { MatchOption result (position_or_len (λ b. b == 10) text.now ≡ length text.now)
        (λ parts. (parts.0.now ≡ before_first (λ b. b == 10) text.now)
        × (parts.1.now ≡ after_first (λ b. b == 10) text.now)
        × (position_or_len (λ b. b == 10) text.now < length text.now)) }
{
    text.split_once('\n')
}

/// Whether nothing stands in a line, whose line end may have a carriage return.
fn is_blank(line: &str) -> bool
    ensures { Decides result ((line.now ≡ []) ⊎ (line.now ≡ 13 ∷ [])) }
{
    line.is_empty() || line == "\r"
}

/// The zone and the requests of a text, which its first empty line parts.
pub fn parts(text: &str) -> (&str, &str)
    ensures { AreParts text.now result.0.now result.1.now }
{
    let mut rest = text;
    'lines: while let Some((line, later)) = at_line_feed(rest) {
        if is_blank(line) {
            return (&text[..text.len() - rest.len()], later);
        }
        rest = later;
    }
    (text, "")
}

/// What a line of the requests is.
#[derive(Clone, Copy, Debug, PartialEq, Eq)]
pub enum RequestLine {
    /// A request: the next one of the jobs.
    Request,
    /// No request.
    Bad(UriRefusal),
}

/// The requests of a text.
#[derive(Drop)]
pub struct Requests {
    /// What each line is.
    pub entries: Vec<RequestLine>,
    /// The jobs of the lines that are requests.
    pub jobs: Vec<Job>,
}

/// The job of a request, whose number is that of its line.
fn job_of(number: u64, request: Request) -> Job
    ensures { (line : List ℕ) → RequestText line request → IsJob number line result }
{
    Job {
        number,
        request,
        caps: own_caps(Families::V4ThenV6),
        words: own_words(number),
    }
}

/// What stands in the line of this number. The job of a request is added to the others.
fn read_request_line(
    alloc: Global,
    number: u64,
    line: &str,
    jobs: &mut Vec<Job>,
) -> Result<RequestLine, RunRefusal>
    ensures entry { IfOk result (IsRequestLine number line.now jobs.old.items jobs.new.items) }
    ensures limit { IfOk result (λ _.
        length jobs.old.items ≤ 10000 → length jobs.new.items ≤ 10000) }
    ensures refused { IfErr result (λ refusal. refusal ≢ NoThread) }
    ensures full { IfErr result (λ refusal. refusal ≡ BadCount →
        (10000 ≤ length jobs.old.items) × IsRequest line.now) }
{
    match read_request(alloc, line) {
        Ok(request) if jobs.len() < REQUEST_LIMIT => {
            jobs.push(job_of(number, request))?;
            Ok(RequestLine::Request)
        }
        Ok(_) => Err(RunRefusal::BadCount),
        Err(UriRefusal::Memory) => Err(RunRefusal::Memory),
        Err(refusal) => Ok(RequestLine::Bad(refusal)),
    }
}

/// The requests of a text, whose lines are numbered from 1.
///
/// `BadCount` exactly where there are over 10,000 requests, unless memory was refused; `Memory`
/// where it was.
pub fn read_requests(alloc: Global, text: &str) -> Result<Requests, RunRefusal>
    ensures entries { IfOk result (λ requests.
        AreRequestLines 1 (lines text.now) requests.entries.items requests.jobs.items) }
    ensures few { IfOk result (λ requests. length requests.jobs.items ≤ 10000) }
    ensures full { IfErr result (λ refusal. refusal ≡ BadCount → HasTooMany text.now) }
    ensures refused { IfErr result (λ refusal. refusal ≢ NoThread) }
{
    let mut entries = Vec::new(alloc);
    let mut jobs = Vec::new(alloc);
    'lines: for (at, line) in text.lines().enumerate() {
        entries.push(read_request_line(alloc, at as u64 + 1, line, &mut jobs)?)?;
    }
    Ok(Requests { entries, jobs })
}

//! Lines that tell what happens to a resolver.
use crate::fields::{Part, keep, moment, parts};
use crate::lookups::{key_of, push_line};
use crate::requests::{uri, via};
use crate::schedules::schedule_of;
use dns_answers::Moment;
use rand_chacha::ChaCha20Rng;
use rand_core::SeedableRng;
use row_fields::{Fault, number16, number64, octets, split_word};
use sip_resolver::{CountingIds, DnsTransport, Ids, Limits, RandomIds, Schedule};
use sip_selection::{Caps, Families, Request};
use srv_choice::{WORD_COUNT, Words};
use std::alloc::Global;

/// Ids of queries, of a kind that a line names.
#[derive(Drop)]
pub(crate) enum LineIds {
    /// Ids that count up.
    Counting(CountingIds),
    /// Ids of a key.
    Random(RandomIds<ChaCha20Rng>),
    /// These ids, and then 0.
    Listed(Vec<u16>, usize),
}

impl Ids for LineIds {
    ghost use Rattle.std.specs.Prelude.{⊤};

    ghost draws = { λ _ _ _. ⊤ };

    fn draw(&mut self) -> u16 {
        match self {
            LineIds::Counting(ids) => ids.draw(),
            LineIds::Random(ids) => ids.draw(),
            LineIds::Listed(ids, at) => {
                let id = ids.get(*at).copied().unwrap_or(0);
                *at = at.saturating_add(1);
                id
            }
        }
    }
}

/// What the first line says.
#[derive(Drop)]
pub(crate) struct Setting {
    /// How much the resolver takes.
    pub(crate) limits: Limits,
    /// How often it sends a question.
    pub(crate) schedule: Schedule,
    /// Where its ids come from.
    pub(crate) ids: LineIds,
}

/// A request that is submitted.
#[derive(Drop)]
pub(crate) struct Submitted {
    /// Its number.
    pub(crate) number: u64,
    /// The request.
    pub(crate) request: Request,
    /// What its sender can do.
    pub(crate) caps: Caps,
    /// Its random words.
    pub(crate) words: Words,
    /// The moment by which it ends, if it has one.
    pub(crate) until: Option<Moment>,
}

/// What happens to a resolver at one book, and then at another.
#[derive(Drop)]
pub(crate) struct Steps {
    /// At the first book.
    pub(crate) here: Vec<Step>,
    /// At the other one.
    pub(crate) there: Vec<Step>,
}

/// What happens to a resolver.
#[derive(Drop)]
pub(crate) enum Step {
    /// A request is submitted.
    Submit(Submitted),
    /// What is to be sent is polled once, at a time between two moments.
    Poll(Moment, Moment),
    /// The same, and the octets are shown.
    PollOctets(Moment, Moment),
    /// The same, and which send of its question it is is shown.
    PollSend(Moment, Moment),
    /// Octets come in.
    Hear(Moment, DnsTransport, Vec<u8>),
    /// Everything that is to be sent is answered by the zone.
    Serve(Moment),
    /// The request of a number is cancelled.
    Cancel(u64),
    /// No server takes the question of an id.
    Close(u16),
    /// The requests begin their choices anew.
    Restart,
    /// The resolver is asked which question the request of a number waits for.
    AwaitedId(u64),
    /// The resolver is asked whether a question is out under an id.
    IsOut(u16),
    /// An outcome is polled.
    PollOutcome,
    /// The resolver is asked when to come again.
    NextTimeout,
    /// The resolver is asked whether it has room for another request.
    HasRoom,
    /// The resolver is asked whether no request is inside.
    IsEmpty,
    /// The zone gets a line.
    Zone,
}

impl Part for u16 {
    /// An id.
    fn read(_alloc: Global, part: &str) -> Result<u16, Fault> {
        number16(part)
    }
}

/// Ids that count up from this one.
fn counting_from(first: u16) -> CountingIds {
    let mut ids = CountingIds::new();
    for _ in 0..first {
        ids.draw();
    }
    ids
}

/// The ids of a key.
fn random_of(alloc: Global, field: &str) -> Result<LineIds, Fault> {
    let stream = ChaCha20Rng::from_seed(key_of(alloc, field)?);
    Ok(LineIds::Random(RandomIds(stream)))
}

/// The ids of a field: `counting FIRST`, `random KEY` or `listed ID,ID..`
fn ids_of(alloc: Global, kind: &str, field: &str) -> Result<LineIds, Fault> {
    match kind {
        "counting" => Ok(LineIds::Counting(counting_from(number16(field)?))),
        "random" => random_of(alloc, field),
        "listed" => Ok(LineIds::Listed(parts(alloc, field, ",")?, 0)),
        _ => Err(Fault::Form),
    }
}

/// The limits of three fields.
fn limits_of(requests: &str, questions: &str, over: &str) -> Result<Limits, Fault> {
    Ok(Limits {
        requests: usize::from(number16(requests)?),
        questions: usize::from(number16(questions)?),
        streams: over_of(over)? == DnsTransport::Stream,
    })
}

/// What the first line says.
pub(crate) fn setting_of(alloc: Global, line: &str) -> Result<Setting, Fault> {
    let (requests, rest) = split_word(line);
    let (questions, rest) = split_word(rest);
    let (over, rest) = split_word(rest);
    let (kind, rest) = split_word(rest);
    let (ids, schedule) = split_word(rest);
    let limits = limits_of(requests, questions, over)?;
    let schedule = schedule_of(schedule)?;
    match ids_of(alloc, kind, ids) {
        Ok(ids) => Ok(Setting {
            limits,
            schedule,
            ids,
        }),
        Err(fault) => Err(fault),
    }
}

/// What octets go over.
fn over_of(word: &str) -> Result<DnsTransport, Fault> {
    match word {
        "datagram" => Ok(DnsTransport::Datagram),
        "stream" => Ok(DnsTransport::Stream),
        _ => Err(Fault::Form),
    }
}

/// The families of a word.
fn families_of(word: &str) -> Result<Families, Fault> {
    match word {
        "4" => Ok(Families::V4),
        "6" => Ok(Families::V6),
        "46" => Ok(Families::V4ThenV6),
        "64" => Ok(Families::V6ThenV4),
        _ => Err(Fault::Form),
    }
}

/// What a sender can do.
fn caps_of(alloc: Global, transports: &str, families: &str) -> Result<Caps, Fault> {
    let transports = parts(alloc, transports, ",")?;
    Caps::new(&transports, families_of(families)?).ok_or(Fault::Form)
}

/// The random words that begin with the numbers that a field has between commas. The others are 0.
fn words_of(field: &str) -> Result<Words, Fault> {
    let mut words = [0; WORD_COUNT];
    for (word, spelled) in words.iter_mut().zip(field.split(',')) {
        *word = number64(spelled)?;
    }
    Ok(Words(words))
}

/// The request of a text: a URI, or a Via behind `Via: `.
fn request_of(alloc: Global, text: &str) -> Result<Request, Fault> {
    match text.strip_prefix("Via: ") {
        Some(text) => via(alloc, text),
        None => uri(alloc, text),
    }
}

/// The request of a line: its number, its transports, its families, its words and its text.
fn submitted_of(alloc: Global, until: Option<Moment>, rest: &str) -> Result<Submitted, Fault> {
    let (number, rest) = split_word(rest);
    let (transports, rest) = split_word(rest);
    let (families, rest) = split_word(rest);
    let (words, text) = split_word(rest);
    let number = number64(number)?;
    let words = words_of(words)?;
    let caps = caps_of(alloc, transports, families)?;
    match request_of(alloc, text) {
        Ok(request) => Ok(Submitted {
            number,
            request,
            caps,
            words,
            until,
        }),
        Err(fault) => Err(fault),
    }
}

/// The step of a request that is submitted.
fn submit_step(alloc: Global, until: Option<Moment>, rest: &str) -> Result<Step, Fault> {
    match submitted_of(alloc, until, rest) {
        Ok(submitted) => Ok(Step::Submit(submitted)),
        Err(fault) => Err(fault),
    }
}

/// The step of a request that is submitted, behind the moment by which it ends.
fn submit_until_step(alloc: Global, rest: &str) -> Result<Step, Fault> {
    let (until, rest) = split_word(rest);
    let until = moment(until)?;
    submit_step(alloc, Some(until), rest)
}

/// The moments of a poll: the time rounded down, and rounded up where that is another moment.
fn moments_of(rest: &str) -> Result<(Moment, Moment), Fault> {
    let (now, asked) = split_word(rest);
    let now = moment(now)?;
    if asked.is_empty() {
        return Ok((now, now));
    }
    Ok((now, moment(asked)?))
}

/// The step of a poll, by its word.
fn poll_step(word: &str, rest: &str) -> Result<Step, Fault> {
    let (now, asked) = moments_of(rest)?;
    Ok(match word {
        "poll_octets" => Step::PollOctets(now, asked),
        "poll_send" => Step::PollSend(now, asked),
        _ => Step::Poll(now, asked),
    })
}

/// The step of octets that come in by a line: the moment, over what, and the octets.
fn hear_step(alloc: Global, rest: &str) -> Result<Step, Fault> {
    let (now, rest) = split_word(rest);
    let (over, field) = split_word(rest);
    let now = moment(now)?;
    let over = over_of(over)?;
    Ok(Step::Hear(now, over, octets(alloc, field)?))
}

/// The step of a word that stands alone.
fn plain_step(word: &str) -> Result<Step, Fault> {
    match word {
        "outcome" => Ok(Step::PollOutcome),
        "restart" => Ok(Step::Restart),
        "timeout" => Ok(Step::NextTimeout),
        "has_room" => Ok(Step::HasRoom),
        "is_empty" => Ok(Step::IsEmpty),
        "zone" => Ok(Step::Zone),
        _ => Err(Fault::Form),
    }
}

/// The step of a line.
fn step_of(alloc: Global, line: &str) -> Result<Step, Fault> {
    let (word, rest) = split_word(line);
    match word {
        "submit" => submit_step(alloc, None, rest),
        "submit_until" => submit_until_step(alloc, rest),
        "poll" | "poll_octets" | "poll_send" => poll_step(word, rest),
        "hear" => hear_step(alloc, rest),
        "serve" => Ok(Step::Serve(moment(rest)?)),
        "cancel" => Ok(Step::Cancel(number64(rest)?)),
        "close" => Ok(Step::Close(number16(rest)?)),
        "awaited_id" => Ok(Step::AwaitedId(number64(rest)?)),
        "is_out" => Ok(Step::IsOut(number16(rest)?)),
        _ => plain_step(word),
    }
}

/// Adds the step of a line.
fn push_step(alloc: Global, steps: &mut Vec<Step>, line: &str) -> Result<(), Fault> {
    keep(steps, step_of(alloc, line)?)
}

/// The steps of lines. Those behind a line `other_book` are at the other book.
pub(crate) fn steps_of(alloc: Global, lines: &str) -> Result<Steps, Fault> {
    let (mut here, mut there) = (Vec::new(alloc), Vec::new(alloc));
    let mut is_there = false;
    for line in lines.lines() {
        if line == "other_book" {
            is_there = true;
        } else if is_there {
            push_step(alloc, &mut there, line)?;
        } else {
            push_step(alloc, &mut here, line)?;
        }
    }
    Ok(Steps { here, there })
}

/// The lines of the zone in a text: those behind `zone `.
pub(crate) fn zone_text(alloc: Global, lines: &str) -> Result<String, Fault> {
    let mut text = String::new(alloc);
    for line in lines.lines() {
        if let Some(entry) = line.strip_prefix("zone ") {
            push_line(&mut text, entry)?;
        }
    }
    Ok(text)
}

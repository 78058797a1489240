//! How far a choice has come (RFC 3263 4.1, 4.2).
ghost use Rattle.std.specs.Prelude.{◌≡◌, ◌<◌, [], drop, IfOk};
ghost use Rattle.sip_selection.specs.Stages as spec;

use crate::boxed::Boxed;
use crate::caps::Caps;
use crate::known::{Answers, Known};
use crate::reason::Reason;
use crate::request_view::RequestView;
use crate::service::Service;
use crate::source::AnswerSource;
use crate::target::Target;
use dns_answers::Answer;
use dns_message::Question;
use dns_name::Name;
use sip_uri::Transport;
use srv_choice::{Indexes, RandomWords, SrvOutcome};
use std::alloc::{AllocError, Global};
use std::snapshot::Snapshot;
use std::sync::Arc;

/// What the choice for a domain goes by.
#[derive(Drop)]
pub(crate) struct Context<'a, 's, S: AnswerSource> {
    pub(crate) alloc: Global,
    pub(crate) request: &'a RequestView<'a>,
    /// For a SIPS URI.
    pub(crate) secure: bool,
    pub(crate) caps: &'a Caps,
    pub(crate) words: &'a RandomWords<'a>,
    /// The domain.
    pub(crate) name: &'a Name,
    /// Where answers come from that were not given.
    pub(crate) source: &'s S,
    /// The seat as it was at first, and the answers that were given then, as contracts see them.
    pub(crate) start: Snapshot<S::Seat>,
    pub(crate) given: Snapshot<Answers<'s>>,
}

/// What a choice has found so far.
#[derive(Drop)]
pub(crate) struct Walk<'s> {
    pub(crate) targets: Vec<Target>,
    /// The answers that were given, with those of the source.
    pub(crate) known: Answers<'s>,
}

impl<'s> Walk<'s> {
    /// Nothing found, after these answers.
    pub(crate) fn after(alloc: Global, given: &'s Known) -> Walk<'s>
        ensures targets { result.targets.items ≡ [] }
        ensures known { result.known ≡ given.now }
    {
        Walk {
            targets: Vec::new(alloc),
            known: Answers::given(alloc, given),
        }
    }

    /// The targets that were found, and the answers behind so many of them, to keep.
    pub(crate) fn behind(self, count: usize) -> Result<(Vec<Target>, Known), AllocError>
        ensures targets { IfOk result (λ found. found.0 ≡ self.entry.targets) }
        ensures known { IfOk result (λ found. found.1 ≡ drop count self.entry.known) }
    {
        let Walk { targets, known } = self;
        Ok((targets, known.behind(count)?))
    }
}

/// The services that are looked for.
#[derive(Drop)]
pub(crate) struct Candidates {
    /// One after the other.
    pub(crate) services: Vec<Service>,
    /// The transport of the domain itself, where all of them are absent.
    pub(crate) fallback: Result<Transport, Reason>,
}

/// How far services were looked for.
#[derive(Clone, Copy)]
pub(crate) struct Position {
    /// The index of the next service.
    pub(crate) service: usize,
    /// The index of the next random word.
    pub(crate) word: usize,
    /// One is listed at least.
    pub(crate) is_listed: bool,
    /// One is denied at least.
    pub(crate) is_denied: bool,
}

impl Position {
    /// Before the first service.
    pub(crate) fn start() -> Position
        ensures { result ≡ spec.start }
    {
        Position {
            service: 0,
            word: 0,
            is_listed: false,
            is_denied: false,
        }
    }

    /// After the next service, of which the SRV records say this.
    pub(crate) fn behind(self, outcome: &SrvOutcome) -> Position
        requires { self.service < 8 }
        ensures { result ≡ spec.behind self outcome.now }
    {
        let position = Position {
            service: self.service + 1,
            ..self
        };
        match outcome {
            SrvOutcome::Absent => position,
            SrvOutcome::Denied => Position {
                is_denied: true,
                ..position
            },
            SrvOutcome::Listed(_, next) => Position {
                word: *next,
                is_listed: true,
                ..position
            },
        }
    }
}

/// A service that is listed.
#[derive(Drop)]
pub(crate) struct Listing {
    pub(crate) transport: Transport,
    /// Its SRV records.
    pub(crate) answer: Arc<Answer>,
    /// Their order.
    pub(crate) indexes: Indexes,
}

/// How far the addresses of servers were looked for.
#[derive(Clone, Copy)]
pub(crate) struct Cursor {
    /// How many servers are done.
    pub(crate) server: usize,
    /// How many kinds of address of the next server are done.
    pub(crate) kind: usize,
}

/// Where a question comes up among services.
#[derive(Drop)]
pub(crate) enum ServiceStage {
    /// The SRV records of the next service.
    ServiceRecords(Position),
    /// The addresses of a server of a listed service; after the service, it goes on from
    /// there.
    Server(Arc<Listing>, Cursor, Position),
}

/// How far services were looked for.
#[derive(Drop)]
pub(crate) enum ServiceStep {
    /// It goes on from here.
    Position(Position),
    /// It stops here, where this question has no answer.
    Stop(Boxed<ServiceStage>, Boxed<Question>),
}

/// Where a question comes up in a choice.
#[derive(Drop)]
pub(crate) enum Stage {
    /// The NAPTR records of the domain.
    Rules,
    /// One of its services.
    Along(Arc<Candidates>, Boxed<ServiceStage>),
    /// The addresses of the domain, by a transport at a port; so many kinds are done.
    Domain(Transport, u16, usize),
}

/// What is next in a choice.
#[derive(Drop)]
pub(crate) enum Step {
    /// The answer to this question, at this stage.
    Ask(Boxed<Question>, Boxed<Stage>),
    /// The targets that were found are all.
    Found,
    /// There is no target.
    Refused(Reason),
}

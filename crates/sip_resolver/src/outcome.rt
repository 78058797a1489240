//! What becomes of a request.
ghost use Rattle.std.specs.Prelude.{◌≡◌, IfOk, OnErr};
ghost use Rattle.sip_resolver.specs.Outcomes.{Ended, HasParts, Sought};

use crate::queue::Numbered;
use crate::ready::Ready;
use dns_answers::ReplyRefusal;
use dns_message::Question;
use sip_selection::{Reason, Target};
use sip_uri::Host;
use std::alloc::{AllocError, Global};
use std::marker::Model;
use std::snapshot::Snapshot;

/// The targets of a request, in the order in which they are to be tried, and the host that the
/// certificate of their servers has to be of.
///
/// It is made from a `Vec` and gives it back, and takes no memory for either.
#[derive(Debug, Drop)]
pub struct TargetList {
    items: Vec<Target>,
    certificate_host: Host,
}

impl Model for TargetList {
    ghost use Rattle.sip_resolver.specs.TargetLists.{TargetListView};

    ghost Value = { TargetListView };

    ghost view = { λ list. record {
      targets = list.items.items;
      certificate_host = list.certificate_host;
    } };
}

impl TargetList {
    /// The list of these targets, of a request that asked for this host.
    #[must_use]
    pub fn new(items: Vec<Target>, certificate_host: Host) -> TargetList
        ensures { result ≡ record {
          targets = items.items;
          certificate_host = certificate_host;
        } }
    {
        TargetList {
            items,
            certificate_host,
        }
    }

    /// A copy of these targets, with a copy of this host.
    pub(crate) fn of(
        alloc: Global,
        targets: &[Target],
        certificate_host: &Host,
    ) -> Result<TargetList, AllocError>
        ensures { IfOk result (λ list. list ≡ record {
          targets = targets.now;
          certificate_host = certificate_host.now;
        }) }
    {
        let mut items = Vec::with_capacity(alloc, targets.len())?;
        items.extend_from_slice(targets)?;
        Ok(TargetList {
            items,
            certificate_host: certificate_host.try_clone()?,
        })
    }

    /// The targets, as a `Vec`, and the host that a certificate has to be of.
    #[must_use]
    pub fn into_parts(self) -> (Vec<Target>, Host)
        ensures targets { result.0.items ≡ self.targets }
        ensures host { result.1 ≡ self.certificate_host }
    {
        let TargetList {
            items,
            certificate_host,
        } = self;
        (items, certificate_host)
    }

    /// The targets, as a slice.
    #[must_use]
    pub fn as_slice(&self) -> &[Target]
        ensures { result.now ≡ self.now.targets }
    {
        self.items.as_slice()
    }

    /// The host that the certificate of a server has to be of, where a target is reached over TLS:
    /// the one that the request asked for, never the target of an SRV record (RFC 3263 4.1, RFC
    /// 3261 26.3.1). Of a URI it is `maddr` where that is there, and else the host; of a Via it is
    /// the host of sent-by (RFC 3261 26.2.2).
    #[must_use]
    pub fn certificate_host(&self) -> &Host
        ensures { result.now ≡ self.now.certificate_host }
    {
        &self.certificate_host
    }
}

/// What becomes of a request.
#[derive(Debug, Drop)]
pub enum Outcome {
    /// The request can be sent to these targets.
    Targets(TargetList),
    /// The request goes nowhere, for this reason.
    Refused(Reason),
    /// This question was sent as often as the schedule says, and has no answer.
    NoAnswer(Question),
    /// No server takes this question, as the caller said (`Resolver::close`).
    NoServer(Question),
    /// The reply to this question was cut (`Truncated`), or its RCODE is neither 0 nor 3
    /// (`ServerFault`).
    BadReply(Question, ReplyRefusal),
    /// Memory was refused, or the resolver has sent 2^64 - 1 questions.
    Memory,
}

impl Outcome {
    /// A copy of the outcome. Memory is needed for targets and for a question alone.
    pub fn try_clone(&self, alloc: Global) -> Result<Outcome, AllocError>
        ensures copy { IfOk result (λ copy. copy ≡ self.now) }
        ensures memory { OnErr result (HasParts self.now) }
    {
        Ok(match self {
            Outcome::Targets(list) => Outcome::Targets(TargetList::of(
                alloc,
                list.as_slice(),
                list.certificate_host(),
            )?),
            Outcome::Refused(reason) => Outcome::Refused(*reason),
            Outcome::NoAnswer(question) => Outcome::NoAnswer(question.try_clone()?),
            Outcome::NoServer(question) => Outcome::NoServer(question.try_clone()?),
            Outcome::BadReply(question, refusal) => {
                Outcome::BadReply(question.try_clone()?, *refusal)
            }
            Outcome::Memory => Outcome::Memory,
        })
    }
}

/// A request that ended, with what became of it.
#[derive(Drop)]
pub struct Resolved<B> {
    task: Snapshot<Ready<B>>,
    number: u64,
    outcome: Outcome,
}

impl<B> Model for Resolved<B> {
    ghost use Rattle.std.specs.Prelude.{◌≡◌};
    ghost use Rattle.sip_resolver.specs.Outcomes.{Ended};
    ghost use Rattle.sip_resolver.specs.Tasks.{sought_of};

    ghost Value = { Ended };

    ghost view = { λ it. record { sought = sought_of it.task.value; outcome = it.outcome } };

    ghost invariant = { λ it. it.number ≡ it.task.value.number };
}

impl<B> Resolved<B> {
    ghost use Rattle.sip_resolver.specs.Tasks.{sought_of};

    /// This became of a request of this number.
    pub(crate) fn new(task: Snapshot<Ready<B>>, number: u64, outcome: Outcome) -> Resolved<B>
        requires { number ≡ task.value.number }
        ensures { result ≡ record { sought = sought_of task.value; outcome = outcome } }
    {
        Resolved {
            task,
            number,
            outcome,
        }
    }

    /// The number of the request.
    #[must_use]
    pub fn number(&self) -> u64
        ensures { result ≡ self.now.sought.number }
    {
        self.number
    }

    /// What became of the request.
    #[must_use]
    pub fn outcome(&self) -> &Outcome
        ensures { result.now ≡ self.now.outcome }
    {
        &self.outcome
    }
}

impl<B> Numbered for Resolved<B> {
    ghost numbered = { λ it. it.sought.number };

    fn number(&self) -> u64 {
        self.number
    }
}

impl<B: Drop> Resolved<B> {
    /// What became of the request, without its number.
    #[must_use]
    pub fn into_outcome(self) -> Outcome
        ensures { result ≡ self.outcome }
    {
        let Resolved { outcome, .. } = self;
        outcome
    }
}

//! The answer to a question.
ghost use Rattle.std.specs.Prelude.{◌≡◌, ◌≤◌, ◌<◌, ◌^◌, ◌↔◌, IsSome, IfSome};
ghost use Rattle.dns_answers.specs.Records.{count_of, CanBeKept};

use crate::records::Records;
use std::marker::Model;

/// The most records of an answer.
pub(crate) const RECORD_LIMIT: usize = 32;

/// The longest life of an answer, in seconds (RFC 2181 8).
pub(crate) const LIFE_LIMIT: u32 = 0x7fff_ffff;

/// The answer to a question: at most 32 records, and for how many seconds they may be kept, fewer
/// than 2^31. Without records it says that there are none.
#[derive(Debug, Drop)]
pub struct Answer {
    records: Records,
    life: u32,
}

impl Model for Answer {
    ghost use Rattle.dns_answers.specs.Values.{AnswerValue};
    ghost use Rattle.dns_answers.specs.Records.{CanBeKept};

    ghost Value = { AnswerValue };

    ghost view = { λ answer. record { records = answer.records; life = answer.life } };

    ghost invariant = { λ answer. CanBeKept answer.records answer.life };
}

impl Answer {
    /// The answer with these records and this life, unless there are more than 32 records or the
    /// life is 2^31 seconds or more.
    pub fn new(records: Records, life: u32) -> Option<Answer>
        ensures made { IsSome result ↔ ((count_of records ≤ 32) × (life < 2 ^ 31)) }
        ensures is { IfSome result (λ answer. answer ≡ record { records = records; life = life }) }
    {
        if records.len() <= RECORD_LIMIT && life <= LIFE_LIMIT {
            Some(Answer { records, life })
        } else {
            None
        }
    }

    /// The answer with these records and this life.
    pub(crate) fn of(records: Records, life: u32) -> Answer
        requires { CanBeKept records life }
        ensures { result ≡ record { records = records; life = life } }
    {
        Answer { records, life }
    }

    /// The records of the answer.
    pub fn records(&self) -> &Records
        ensures records { result.now ≡ self.now.records }
        ensures few { count_of self.now.records ≤ 32 }
    {
        &self.records
    }

    /// For how many seconds the answer may be kept.
    pub fn life(&self) -> u32
        ensures life { result ≡ self.now.life }
        ensures short { self.now.life < 2 ^ 31 }
    {
        self.life
    }
}

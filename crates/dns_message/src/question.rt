//! Questions (RFC 1035 4.1.2).
ghost use Rattle.std.specs.Prelude.{◌≡◌, ◌↔◌, ℕ, length, IsTrue, IfOk, ◌+◌, ◌≤◌, ◌*◌, ◌++◌, OnOk, OnErr, ◌<◌};
ghost use Rattle.dns_message.specs.Questions.{QuestionAt, same_question};
ghost use Rattle.dns_message.specs.Written.{question_octets};
ghost use Rattle.dns_message.specs.Fits.{QuestionFits};
ghost use Rattle.std.specs.List.{flat_map, AllByRecursion};

use crate::datagram::{Datagram, TooLong};
use crate::entry::Entry;
use crate::kind::Kind;
use crate::name::push_name;
use crate::number::{push_u16, two_u16_at};
use crate::owner::AskedName;
use crate::refusal::EntryRefusal;
use dns_name::{
    Landings, Name, law_name_rests_before_its_end, law_one_name_at_an_offset, read_name_into_by,
};
use std::alloc::{AllocError, Global};
use std::hash::{Hash, Hasher};

/// A question to ask, in class IN.
#[derive(Debug, Drop)]
pub struct Question {
    /// QNAME: the name that is asked about.
    pub name: Name,
    /// QTYPE: the type of records that is asked for.
    pub kind: Kind,
}

impl Question {
    /// A copy of the question.
    pub fn try_clone(&self) -> Result<Question, AllocError>
        ensures { IfOk result (λ copy. copy ≡ self.now) }
    {
        Ok(Question {
            name: self.name.try_clone()?,
            kind: self.kind,
        })
    }
}

impl PartialEq for Question {
    ghost use Rattle.std.specs.Cmp.{and_equiv, on_equiv, nat_eq_equiv, partial_equiv_from_equiv};
    ghost use Rattle.std.specs.Cmp.Lexicographic.{lists_equiv};
    ghost use Rattle.dns_message.specs.Kinds.{type_of_kind};
    ghost use Rattle.dns_message.specs.declared.question.Question.{Question};

    ghost eq = { same_question };

    ghost laws = { partial_equiv_from_equiv (and_equiv
        (on_equiv (λ (question : Question). question.name) (lists_equiv (lists_equiv nat_eq_equiv)))
        (on_equiv (λ (question : Question). type_of_kind question.kind) nat_eq_equiv)) };

    /// Whether two questions ask for the same type of records of the same name.
    fn eq(&self, other: &Question) -> bool
        ensures value { result ≡ same_question self.now other.now }
        ensures same { IsTrue result ↔ (self.now ≡ other.now) }
    {
        self.name == other.name && self.kind == other.kind
    }
}

impl Eq for Question {
    ghost use Rattle.std.specs.Cmp.{and_equiv, on_equiv, nat_eq_equiv};
    ghost use Rattle.std.specs.Cmp.Lexicographic.{lists_equiv};
    ghost use Rattle.dns_message.specs.Kinds.{type_of_kind};
    ghost use Rattle.dns_message.specs.declared.question.Question.{Question};

    ghost laws = { and_equiv
        (on_equiv (λ (question : Question). question.name) (lists_equiv (lists_equiv nat_eq_equiv)))
        (on_equiv (λ (question : Question). type_of_kind question.kind) nat_eq_equiv) };
}

/// By its name, so that equal questions have one hash.
impl Hash for Question {
    ghost use Rattle.std.specs.Hash as fed;
    ghost use Rattle.std.specs.Cmp.Lexicographic.{pointwise_decides, bytes_decides};
    ghost use Rattle.std.specs.Prelude.{◌∷◌, [], nat_eq};
    ghost use Rattle.std.proofs.lemmas.Bool.{and_parts};
    ghost use Rattle.dns_name.specs.Labels.{wire_of, same_name};
    ghost use Rattle.dns_message.specs.Kinds.{type_of_kind};

    ghost hash_input = { λ question. wire_of question.name ∷ [] };

    ghost respects_eq = { λ it other same.
        (fed.same_Alike
        (λ name. wire_of name ∷ [])
        (pointwise_decides bytes_decides)).fed it.name other.name
        (and_parts (same_name it.name other.name)
        (nat_eq (type_of_kind it.kind) (type_of_kind other.kind)) same).0 };

    fn hash<H: Hasher>(&self, state: &mut H) {
        self.name.hash(state)
    }
}

/// A question as a message has it.
#[derive(Debug, PartialEq, Eq, Drop)]
pub struct Asked {
    /// QNAME: the name that is asked about.
    pub name: Name,
    /// QTYPE: the type of record that is asked for.
    pub type_number: u16,
    /// QCLASS: the class that is asked for, 1 for IN.
    pub class_number: u16,
}

impl Asked {
    /// A copy of the question.
    pub fn try_clone(&self) -> Result<Asked, AllocError>
        ensures { IfOk result (λ copy. copy ≡ self.now) }
    {
        Ok(Asked {
            name: self.name.try_clone()?,
            type_number: self.type_number,
            class_number: self.class_number,
        })
    }
}

impl Entry for Asked {
    ghost stands = { QuestionAt };

    ghost named = { λ message offset end asked there. (asked.name, there.after, there.name) };

    fn unread(alloc: Global) -> Asked {
        Asked {
            name: Name::root(alloc),
            type_number: 0,
            class_number: 0,
        }
    }

    fn read_over(
        &mut self,
        alloc: Global,
        bytes: &[u8],
        landings: &Landings,
        offset: usize,
        _asked: Option<&AskedName<'_>>,
    ) -> Result<usize, EntryRefusal> {
        law_name_rests_before_its_end();
        law_one_name_at_an_offset();
        let offset = read_name_into_by(alloc, bytes, landings, offset, &mut self.name)?;
        let (type_number, class_number) = two_u16_at(bytes, offset).ok_or(EntryRefusal::Malformed)?;
        self.type_number = type_number;
        self.class_number = class_number;
        Ok(offset + 4)
    }
}

/// Appends the question of a name, type and class.
#[tactic(auto, unfolding(crate::specs::Written::question_octets))]
pub(crate) fn push_question(
    name: &Name,
    type_number: u16,
    class_number: u16,
    out: &mut Datagram,
) -> Result<(), TooLong>
    ensures ok { OnOk result (out.new.items ≡ out.old.items
        ++ question_octets (record {
          name = name.now;
          type_number = type_number;
          class_number =
              class_number;
        })) }
    ensures fits { QuestionFits
        (record { name = name.now; type_number = type_number; class_number = class_number }) }
    ensures too_long { OnErr result (512 < length out.old.items + length
        (question_octets (record {
          name = name.now;
          type_number = type_number;
          class_number =
              class_number;
        }))) }
{
    push_name(name, out)?;
    push_u16(type_number, out)?;
    push_u16(class_number, out)
}

/// Appends questions.
pub(crate) fn push_questions(questions: &[Asked], out: &mut Datagram) -> Result<(), TooLong>
    ensures ok { OnOk result
        (out.new.items ≡ out.old.items ++ flat_map question_octets questions.now) }
    ensures fits { OnOk result (AllByRecursion QuestionFits questions.now) }
    ensures too_long { OnErr result
        (512 < length out.old.items + length (flat_map question_octets questions.now)) }
    // Each has at most 259 octets.
    ensures few { OnErr result (512 < length out.old.items + 259 * length questions.now) }
{
    for asked in questions {
        push_question(&asked.name, asked.type_number, asked.class_number, out)?;
    }
    Ok(())
}

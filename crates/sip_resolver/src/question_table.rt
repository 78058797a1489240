//! The ids under which questions are out.
ghost use Rattle.std.specs.Prelude.{◌≡◌, ◌<◌, None, Some, OnOk};
ghost use Rattle.std.specs.Map.{update};
ghost use Rattle.dns_message.specs.Questions.{same_question};
ghost use Rattle.dns_message.specs.declared.question.Question.{Question as asked};
ghost use Rattle.sip_resolver.specs.QuestionTables.{id_in};

use dns_message::Question;
use std::alloc::{AllocError, Global};
use std::collections::HashMap;
use std::marker::Model;

/// The id of each question that is out, found by the hash of the question.
///
/// It takes memory as more questions are out than before.
#[derive(Drop)]
pub(crate) struct QuestionTable {
    ids: HashMap<Question, u16>,
}

impl Model for QuestionTable {
    ghost use Rattle.std.specs.HashMap.{spare};
    ghost use Rattle.sip_resolver.specs.QuestionTables.{TableView};

    ghost Value = { TableView };

    ghost view = { λ it. record { entries = it.ids.entries; room = spare it.ids } };
}

impl QuestionTable {
    /// No questions.
    pub(crate) fn new(alloc: Global) -> QuestionTable
        ensures { (question : asked) → id_in result question ≡ None }
    {
        QuestionTable {
            ids: HashMap::new(alloc),
        }
    }

    /// The id of a question.
    pub(crate) fn get(&self, question: &Question) -> Option<u16>
        ensures { result ≡ id_in self.now question.now }
    {
        self.ids.get(question).copied()
    }

    /// Makes room for one question more.
    pub(crate) fn reserve(&mut self) -> Result<(), AllocError>
        ensures room { OnOk result (0 < self.new.room) }
        ensures same { (question : asked) → id_in self.new question ≡ id_in self.old question }
    {
        self.ids.reserve(1)
    }

    /// Gives a question an id, where there is room for it.
    pub(crate) fn insert(&mut self, question: Question, id: u16)
        requires { 0 < self.old.room }
        ensures { (other : asked) → id_in self.new other
            ≡ update same_question (id_in self.old) question (Some id) other }
    {
        match self.ids.insert(question, id) {
            Ok(_) => {}
            Err(_) => unreachable!(),
        }
    }

    /// Takes a question out.
    pub(crate) fn remove(&mut self, question: &Question)
        ensures { (other : asked) → id_in self.new other
            ≡ update same_question (id_in self.old) question.now None other }
    {
        self.ids.remove(question);
    }
}

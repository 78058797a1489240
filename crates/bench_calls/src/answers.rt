//! The answer that a message has for its question.
ghost use Rattle.std.specs.Prelude.{◌≡◌, ◌<◌, ◌≤◌, ℕ, length, take, IfSome};
ghost use Rattle.dns_answers.specs.Answers.{answer};
ghost use Rattle.dns_answers.specs.Records.{count_of};
ghost use Rattle.dns_message.specs.Messages.{Spells};
ghost use Rattle.dns_message.specs.declared.message.Message as message;
ghost use Rattle.dns_message.specs.declared.question.Question as question;

use dns_answers::answer_of;
use dns_message::{Kind, Message, Question, read_message};
use std::alloc::Global;

/// The kind of this number (RFC 1035 3.2.2, 3596 2.1, 2782, 3403 4.1).
fn kind_of(type_number: u16) -> Option<Kind> {
    [Kind::A, Kind::Aaaa, Kind::Srv, Kind::Naptr]
        .into_iter()
        .find(|kind| kind.type_number() == type_number)
}

/// The first question of a message.
fn first_question(message: &Message) -> Option<Question> {
    let asked = message.questions.as_slice().first()?;
    Some(Question {
        name: asked.name.try_clone().ok()?,
        kind: kind_of(asked.type_number)?,
    })
}

/// How many records the answer to a question has in a message.
fn count_in(alloc: Global, question: &Question, message: &Message) -> usize
    ensures { 0 < result → result ≡ count_of (answer question.now message.now).records }
{
    match answer_of(alloc, question, message) {
        Ok(answer) => answer.records().len(),
        Err(_) => 0,
    }
}

/// The same, looked for so many times.
fn count_of_rounds(alloc: Global, question: &Question, message: &Message, rounds: usize) -> usize
    ensures { 0 < result → result ≡ count_of (answer question.now message.now).records }
{
    let mut count = 0;
    for _ in 0..rounds {
        count = count_in(alloc, question, message);
    }
    count
}

/// How many records the answer to its first question has in the message in front of these octets.
/// The answer is looked for so many times.
#[unsafe(no_mangle)]
pub extern "C" fn bench_answer_of(alloc: Global, octets: &[u8], rounds: usize) -> usize
    ensures { 0 < result → (end : ℕ) × (message : message.Message) × (question : question.Question)
        × Spells (take end octets.now) message
        × (result ≡ count_of (answer question message).records) }
{
    let Ok(message) = read_message(alloc, octets) else {
        return 0;
    };
    let Some(question) = first_question(&message) else {
        return 0;
    };
    count_of_rounds(alloc, &question, &message, rounds)
}

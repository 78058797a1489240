//! The questions of a run, and their answers.
use answer_log::{LEAST_GROUPS, group};
use dns_answers::{Answer, Records, Section};
use dns_message::{Kind, Question};
use dns_name::Name;
use std::alloc::Global;
use std::sync::Arc;

/// A question for addresses, and its answer.
#[derive(Drop)]
pub struct Known {
    pub question: Question,
    pub answer: Arc<Answer>,
}

/// The question for the addresses of a name.
fn question_for(alloc: Global, text: &str) -> Option<Question> {
    match Name::from_text(alloc, text) {
        Ok(name) => Some(Question {
            name,
            kind: Kind::A,
        }),
        Err(_) => None,
    }
}

/// The question for the addresses of the host of this number.
fn question_of(alloc: Global, number: u64) -> Option<Question> {
    match format!(in alloc; "host{number}.example") {
        Ok(text) => question_for(alloc, text.as_str()),
        Err(_) => None,
    }
}

/// An answer of one address, which lives for an hour.
fn answer(alloc: Global) -> Option<Arc<Answer>> {
    let mut addresses = Vec::new(alloc);
    addresses.push([192, 0, 2, 1]).ok()?;
    let records = Records::V4(Section::from_vec(addresses));
    Arc::new(alloc, Answer::new(records, 3_600)?).ok()
}

/// Adds a question with its answer; none without memory for that.
fn push_known(alloc: Global, all: &mut Vec<Known>, question: Question) -> Option<()> {
    match answer(alloc) {
        Some(answer) => all.push(Known { question, answer }).ok(),
        None => None,
    }
}

/// Adds a question with its answer, unless so many are in its group; none without memory for that.
fn push_few(
    alloc: Global,
    all: &mut Vec<Known>,
    counts: &mut [usize; LEAST_GROUPS as usize],
    question: Question,
    in_group: usize,
) -> Option<()> {
    match counts.get_mut(usize::from(group(&question))) {
        Some(stands) if *stands < in_group => {
            *stands = stands.saturating_add(1);
            push_known(alloc, all, question)
        }
        Some(_) => Some(()),
        None => None,
    }
}

/// So many questions, by the numbers of their hosts, of which so many at most are in one group.
pub fn known_of(alloc: Global, count: usize, in_group: usize) -> Option<Vec<Known>> {
    let mut all = Vec::new(alloc);
    let mut counts = [0_usize; LEAST_GROUPS as usize];
    'hosts: for number in 0..1_000_000 {
        if all.len() == count {
            break;
        }
        let question = question_of(alloc, number)?;
        push_few(alloc, &mut all, &mut counts, question, in_group)?;
    }
    Some(all)
}

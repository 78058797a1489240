//! A source that is asked for answers to keep.
ghost use Rattle.std.specs.Prelude.{IfOk};
ghost use Rattle.std.specs.Arc.{arc_value};
ghost use Rattle.std.specs.Option.{option_map};
ghost use Rattle.resolution_paths.specs.Sources.{Said, Went};

use dns_answers::Answer;
use dns_message::{Kind, Question};
use dns_name::Name;
use sip_selection::AnswerSource;
use std::alloc::AllocError;
use std::sync::Arc;

/// The answer of a source to a question about a name, to keep, if the source has one.
pub(crate) fn answer_to<S: AnswerSource>(
    source: &S,
    seat: &mut S::Seat,
    name: &Name,
    kind: Kind,
) -> Result<Option<Arc<Answer>>, AllocError>
    requires { S.ready source.now seat.old }
    ensures ready { S.ready source.now seat.new }
    ensures went { (start : S.Seat) → Went S.goes start seat.old → Went S.goes start seat.new }
    ensures said { (start : S.Seat) → Went S.goes start seat.old
        → IfOk result (λ found. Said S.goes (S.says source.now) start
        (record { name = name.now; kind = kind }) (option_map arc_value found)) }
{
    let question = Question {
        name: name.try_clone()?,
        kind,
    };
    match source.answer(seat, &question)? {
        Some(found) => Ok(Some(found.into_arc()?)),
        None => Ok(None),
    }
}

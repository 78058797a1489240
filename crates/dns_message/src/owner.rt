//! The owners of records, most of which are the name of the question (RFC 1035 4.1.4).
ghost use Rattle.std.specs.Prelude.{◌≡◌, ◌+◌, ℕ, List, Err, IfOk, IfSome, IsTrue, MatchResult};
ghost use Rattle.dns_name.specs.Landings.{AreLandings};
ghost use Rattle.dns_name.specs.Offsets.{NameAt, OctetAt};
ghost use Rattle.dns_message.specs.Owners.{IsAskedName};
ghost use Rattle.dns_message.specs.Offsets.{AllAt, NamedAt};
ghost use Rattle.dns_message.specs.Questions.{QuestionAt};

use crate::question::Asked;
use dns_name::{
    Landings, Name, NameReadRefusal, law_name_rests_before_its_end, law_one_name_at_an_offset,
    read_name_into_by,
};
use std::alloc::Global;

/// The name of the first question, which stands behind the header, and an offset that it ends
/// before.
#[derive(Clone, Copy)]
pub(crate) struct AskedName<'a> {
    pub name: &'a Name,
    pub end: usize,
}

impl<'a> AskedName<'a> {
    /// That of the questions of a message, which end at an offset; none where nothing is asked.
    pub fn of(questions: &'a [Asked], end: usize) -> Option<AskedName<'a>>
        ensures { (message : List ℕ) → AllAt (QuestionAt message) 12 questions.now end
            → IfSome result (IsAskedName message) }
    {
        law_name_rests_before_its_end();
        match questions {
            [] => None,
            [first, ..] => Some(AskedName {
                name: &first.name,
                end,
            }),
        }
    }
}

/// Whether a pointer to the offset behind the header stands at an offset.
fn is_pointer_to_asked(bytes: &[u8], offset: usize) -> bool
    ensures { IsTrue result → OctetAt bytes.now offset 192 × OctetAt bytes.now (offset + 1) 12 }
{
    matches!(bytes.get(offset..), Some([0xC0, 12, ..]))
}

/// Reads the owner at an offset over another name, and gives the offset after it. Where it is a
/// pointer to the name of the question, that one is copied.
pub(crate) fn read_owner(
    alloc: Global,
    bytes: &[u8],
    landings: &Landings,
    offset: usize,
    asked: Option<&AskedName<'_>>,
    owner: &mut Name,
) -> Result<usize, NameReadRefusal>
    requires asked { IfSome asked (λ it. IsAskedName bytes.now it.now) }
    requires known { AreLandings bytes.now landings.now }
    ensures found { IfOk result (λ end. NameAt bytes.now offset offset owner.new end) }
    ensures read { (name : List (List ℕ)) (end : ℕ) → NameAt bytes.now offset offset name end
        → MatchResult result (λ found. (owner.new ≡ name) × (found ≡ end))
        (λ refusal. refusal ≡ NameReadRefusal.Memory) }
    ensures memory { result ≡ Err NameReadRefusal.Memory → NamedAt bytes.now offset }
{
    law_one_name_at_an_offset();
    law_name_rests_before_its_end();
    if let Some(asked) = asked
        && asked.end <= offset
        && is_pointer_to_asked(bytes, offset)
    {
        owner.copy_from(asked.name)?;
        return Ok(offset + 2);
    }
    read_name_into_by(alloc, bytes, landings, offset, owner)
}

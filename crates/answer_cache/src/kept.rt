//! What was found, to keep.
ghost use Rattle.std.specs.Prelude.{◌≡◌, ◌≢◌, IfOk, None, OnErr};
ghost use Rattle.std.specs.Arc.{arc_value};
ghost use Rattle.std.specs.Option.{option_map};
ghost use Rattle.dns_answers.specs.Found.{answer_in};

use dns_answers::{Answer, FoundAnswer};
use std::alloc::AllocError;
use std::sync::Arc;

/// What was found, to keep.
pub(crate) fn kept(found: Option<FoundAnswer<'_>>) -> Result<Option<Arc<Answer>>, AllocError>
    ensures same { IfOk result
        (λ kept. option_map arc_value kept ≡ option_map answer_in found.entry) }
    ensures wanted { OnErr result (found.entry ≢ None) }
{
    match found {
        Some(found) => Ok(Some(found.into_arc()?)),
        None => Ok(None),
    }
}

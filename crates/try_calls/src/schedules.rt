//! How often questions are sent, as text.
ghost use Rattle.std.specs.Prelude.{◌≤◌, IsTrue};

use dns_queries::Schedule;
use row_fields::{Fault, number16, split_word};

/// The number of a field, below 256.
fn number8(field: &str) -> Result<u8, Fault> {
    match u8::try_from(number16(field)?) {
        Ok(number) => Ok(number),
        Err(_) => Err(Fault::Form),
    }
}

/// The schedule of a text: how often a question is sent, and for how many seconds each send is
/// waited for. It is the usual one where the text is empty.
pub(crate) fn schedule_of(text: &str) -> Result<Schedule, Fault> {
    if text.is_empty() {
        return Ok(Schedule::USUAL);
    }
    let (sends, wait) = split_word(text);
    Ok(Schedule {
        sends: number8(sends)?,
        wait: number8(wait)?,
    })
}

/// Whether questions can be sent so.
pub(crate) fn is_in_range(schedule: Schedule) -> bool
    ensures sends { IsTrue result → (1 ≤ schedule.sends) × (schedule.sends ≤ 15) }
    ensures wait { IsTrue result → (1 ≤ schedule.wait) × (schedule.wait ≤ 60) }
{
    schedule.sends >= 1 && schedule.sends <= 15 && schedule.wait >= 1 && schedule.wait <= 60
}

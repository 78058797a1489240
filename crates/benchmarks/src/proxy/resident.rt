//! What memory the program has while each generation is the present one.
use crate::proxy::desk::Desk;
use std::fs;
use std::rt::Files;

/// How many kilobytes a page has.
const PAGE: u64 = 4;

/// The least and the most kilobytes that are resident while the first desk is at a generation.
#[derive(Clone, Copy)]
pub(crate) struct Resident {
    generation: u64,
    least: u64,
    most: u64,
}

/// How many kilobytes are resident, by the second number of the program's `statm`.
fn kilobytes<R: Files + AllocGlobal>(rt: &R) -> Option<u64> {
    let text = fs::read_to_string(rt, "/proc/self/statm").ok()?;
    let pages = text.as_str().split(' ').nth(1)?.parse::<u64>().ok()?;
    Some(pages.wrapping_mul(PAGE))
}

impl Resident {
    /// Nothing was seen of this generation.
    pub fn at(generation: u64) -> Resident {
        Resident {
            generation,
            least: u64::MAX,
            most: 0,
        }
    }

    /// The same, where so much is resident too.
    fn with(self, kilobytes: u64) -> Resident {
        Resident {
            generation: self.generation,
            least: self.least.min(kilobytes),
            most: self.most.max(kilobytes),
        }
    }

    /// Prints it in a line.
    pub fn print<R: Print>(self, rt: &R) -> Option<()> {
        let Resident {
            generation,
            least,
            most,
        } = self;
        println!(rt; "resident\t{generation}\t{least}\t{most}").ok()
    }

    /// The same after one more second. Where the first desk has gone over to another generation,
    /// it is printed, and that generation is the one that is looked at.
    pub fn after_second<R: Files + Print + AllocGlobal>(
        self,
        rt: &R,
        desks: &[Desk<'_>],
    ) -> Option<Resident> {
        let generation = desks.first()?.generation();
        if generation == self.generation {
            return Some(self.with(kilobytes(rt)?));
        }
        self.print(rt)?;
        Some(Resident::at(generation).with(kilobytes(rt)?))
    }
}

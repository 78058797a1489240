//! Moments.
ghost use Rattle.std.specs.Prelude.{◌≡◌, ◌<◌, ◌^◌, ◌↔◌, IsSome, IsTrue, IfSome};

use std::marker::Model;

/// The first number of seconds that is no moment.
const MOMENT_END: u64 = 1 << 48;

/// A moment, in whole seconds from a beginning that its user chooses: below 2^48, so that the end
/// of a life that begins at it is a number of 64 bits too.
#[derive(Clone, Copy, Debug, PartialEq, Eq, PartialOrd, Ord)]
pub struct Moment {
    seconds: u64,
}

impl Model for Moment {
    ghost use Rattle.std.specs.Prelude.{ℕ, ◌<◌, ◌^◌};

    ghost Value = { ℕ };

    ghost view = { λ moment. moment.seconds };

    ghost invariant = { λ moment. moment.seconds < 2 ^ 48 };

    ghost inverse = { λ seconds. record { seconds = seconds } };
}

impl Moment {
    /// The moment at this number of seconds, unless that is 2^48 or more.
    pub fn new(seconds: u64) -> Option<Moment>
        ensures made { IsSome result ↔ (seconds < 2 ^ 48) }
        ensures is { IfSome result (λ moment. moment ≡ seconds) }
    {
        if seconds < MOMENT_END {
            Some(Moment { seconds })
        } else {
            None
        }
    }

    /// The seconds of the moment.
    pub fn get(self) -> u64
        ensures seconds { result ≡ self }
        ensures below { self < 2 ^ 48 }
    {
        self.seconds
    }

    /// Whether the moment comes before another, which is what `<` says.
    pub fn is_before(self, other: Moment) -> bool
        ensures { IsTrue result ↔ (self < other) }
    {
        self < other
    }
}

//! What C is told of a call: that it is done, or why not.
ghost use Rattle.std.specs.Prelude.{◌≡◌, ◌≢◌, pos};
ghost use Rattle.wokhleas.specs.Statuses as spec;

use sip_resolver::SubmitRefusal;

/// The number in C of a call that is done.
pub(crate) const DONE: i32 = 0;

/// Why a call is not done. C gets its number, which `c/wokhleas.h` names.
#[derive(Clone, Copy, Debug, PartialEq, Eq)]
pub(crate) enum Status {
    /// There is nothing of what was asked for.
    Nothing,
    /// An argument is out of its range.
    Argument,
    /// The resolver is closed.
    Closed,
    /// The resolver is open already.
    Open,
    /// Memory was refused.
    Memory,
    /// The text is neither a URI nor a Via.
    Syntax,
    /// As many requests are inside as can be.
    Full,
    /// A request of this number is inside.
    Taken,
    /// The buffer is too small.
    Room,
}

impl Status {
    /// Its number in C.
    pub(crate) fn code(self) -> i32
        ensures number { result ≡ pos (spec.code_of self) }
        ensures fault { result ≢ pos 0 }
    {
        match self {
            Status::Nothing => 1,
            Status::Argument => 2,
            Status::Closed => 3,
            Status::Open => 4,
            Status::Memory => 5,
            Status::Syntax => 6,
            Status::Full => 7,
            Status::Taken => 8,
            Status::Room => 9,
        }
    }
}

impl From<SubmitRefusal> for Status {
    ghost use Rattle.std.specs.Prelude.{◌≡◌};
    ghost use Rattle.wokhleas.specs.Requests.{status_of};

    ghost from_gives = { λ refusal status. status ≡ status_of refusal };

    fn from(refusal: SubmitRefusal) -> Status {
        match refusal {
            SubmitRefusal::Full => Status::Full,
            SubmitRefusal::NumberTaken => Status::Taken,
            SubmitRefusal::Memory => Status::Memory,
        }
    }
}

//! The numbers of nodes.
ghost use Rattle.std.specs.Prelude.{◌≡◌, ◌<◌, ◌^◌, ℕ, IfNone, Some};
ghost use Rattle.answer_log.specs.Rules.{node_at};

/// How many seats a log can have.
pub const MOST_SEATS: u64 = 64;

/// The number of the node of a seat and of a place on its shelf. It is never 0.
#[must_use]
pub fn node_at(seat: u64, place: u64) -> u64
    requires { (seat < 64) × (place < 2 ^ 32) }
    ensures { result ≡ node_at seat place }
{
    1 + seat + MOST_SEATS * place
}

/// The seat and the place of the node of a number. 0 is the number of no node.
#[must_use]
pub fn seat_and_place(number: u64) -> Option<(u64, u64)>
    ensures none { IfNone result (number ≡ 0) }
    ensures law { (seat place : ℕ) → seat < 64 → number ≡ node_at seat place
        → result ≡ Some (seat, place) }
{
    let at = number.checked_sub(1)?;
    Some((at % MOST_SEATS, at / MOST_SEATS))
}

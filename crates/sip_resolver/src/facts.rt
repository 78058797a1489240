//! What may be known of what a resolver is handed.
ghost use Rattle.std.specs.Prelude.{ℕ, List};

/// What may be known of the octets that come in, and of the moments that a clock shows. The
/// contract of an outcome states it of the replies and of the moments that the outcome rests on.
pub trait Facts {
    // What octets may come in.
    ghost gives: { List ℕ → Type 0 };

    // What moments may be shown.
    ghost shows: { ℕ → Type 0 };
}

/// No facts: any octets may come in, and any moment may be shown.
#[derive(Clone, Copy, Debug)]
pub struct NoFacts;

impl Facts for NoFacts {
    ghost use Rattle.std.specs.Prelude.{⊤};

    ghost gives = { λ _. ⊤ };

    ghost shows = { λ _. ⊤ };
}

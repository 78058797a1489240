//! Laws of askers. A call of one does nothing; its contract states the law.
ghost use Rattle.std.specs.Prelude.{List};
ghost use Rattle.dns_queries.specs.Runs.{Event, Runs};
ghost use Rattle.dns_queries.specs.Tickets.{Asking, IsAsking};

/// Along any events the tickets are ordered by deadline, there is at most one of each id, each was
/// sent at least once and at most as often as the schedule says, and they are no more than the
/// limit.
pub fn law_asking_stays_in_order()
    ensures { (first last : Asking) (events : List Event) → IsAsking first → Runs first events last
        → IsAsking last }
{}

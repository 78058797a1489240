//! A law of rolling resolvers. A call of it does nothing; its contract states the law.
ghost use denote.Param.Send.{IsSend};
ghost use Rattle.rolling_resolver.specs.contracts.resolver.RollingResolver.{the_row};

/// A resolver may go to another thread (`Send`).
///
/// The prover does not find this by itself: who sends one to a thread answers that goal with the
/// lemma `rolling_send`.
pub fn law_may_change_threads()
    ensures { IsSend the_row }
{}

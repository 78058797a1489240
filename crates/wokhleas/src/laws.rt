//! A law of handles. A call of it does nothing; its contract states the law.
ghost use denote.Param.Send.{IsSend};
ghost use Rattle.wokhleas.specs.contracts.handle.Handle.{the_row};

/// C may hand a resolver to another thread (`Send`).
pub fn law_may_change_threads()
    ensures { IsSend the_row }
{}

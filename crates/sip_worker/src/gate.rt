//! What a run reports its work to.
ghost use Rattle.sip_worker.specs.Gates.{GateCall, begins, is_answered};

/// What a run reports its work to. Both calls come on the threads of the workers, and hold them up.
pub trait Gate {
    // What it was told. Only a call can say so of a gate of which nothing else is known.
    ghost told: { Self → GateCall → Type 0 } = { λ _ _. Unit {0} };

    /// The work on the request of this number begins.
    fn begun(&self, number: u64)
        ensures { told self.now (begins number) };

    /// The request of this number has its outcome.
    fn answered(&self, number: u64)
        ensures { told self.now (is_answered number) };
}

/// A gate that holds up no worker, for a caller that needs no report of the work.
#[derive(Clone, Copy, Debug)]
pub struct OpenGate;

impl Gate for OpenGate {
    fn begun(&self, _number: u64) {}

    fn answered(&self, _number: u64) {}
}

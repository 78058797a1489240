//! What C has of a resolver.
ghost use Rattle.std.specs.Prelude.{◌≡◌, Some, None, IfErr, IfOk, OnErr, is_some};

use crate::held::Held;
use crate::loose::Loose;
use crate::status::Status;
use rolling_resolver::RollingResolver;
use std::alloc::Global;

/// What C has of a resolver: one that is all zeros is closed.
#[repr(C)]
#[derive(Drop)]
pub struct Handle {
    pub held: Held,
    is_open: bool,
    ghost same: { is_some held.state ≡ is_open },
}

impl Handle {
    /// Whether the resolver is open.
    pub(crate) fn is_open(&self) -> bool
        ensures { result ≡ is_some self.now.held.state }
    {
        self.is_open
    }

    /// Takes the resolver out, if it is open. Then it is closed.
    pub(crate) fn take(&mut self, alloc: Global) -> Result<Box<RollingResolver>, Status>
        ensures closed { self.new.held.state ≡ None }
        ensures taken { IfOk result (λ resolver. self.old.held.state ≡ Some resolver.value) }
        ensures none { OnErr result (self.old.held.state ≡ None) }
        ensures told { IfErr result (λ status. status ≡ Status.Closed) }
    {
        if !self.is_open {
            return Err(Status::Closed);
        }
        let held = self.held.lift();
        self.is_open = false;
        Ok(held.into_box(alloc))
    }

    /// Puts a resolver in. Then it is open.
    pub(crate) fn put(&mut self, resolver: Box<RollingResolver>)
        ensures { self.new.held.state ≡ Some resolver.value }
    {
        self.held = Held::of(Loose::of(resolver));
        self.is_open = true;
    }
}

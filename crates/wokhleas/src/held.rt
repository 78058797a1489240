//! A resolver's box, as a pointer that C may hold.
ghost use Rattle.std.specs.Prelude.{◌≡◌, Option, Some, None, IsSome};
ghost use Rattle.rolling_resolver.specs.Rolling.{RollingView};

use crate::loose::Loose;
use rolling_resolver::RollingResolver;
use std::alloc::Global;
use std::marker::{Model, Send};

/// The box of a resolver, or none. The pointer's type is one that C knows.
#[repr(C)]
#[derive(Drop)]
pub struct Held {
    at: *mut u8,
    pub ghost state: { Option RollingView },
}

impl Model for Held {
    ghost use Rattle.wokhleas.specs.Handles.{boxed_as};
    ghost use Rattle.rolling_resolver.specs.contracts.resolver.RollingResolver.{the_row as resolver_row};

    ghost also_owns = { λ it. boxed_as resolver_row it.state it.at };
}

// The box goes with it.
unsafe impl Send for Held {}

impl Held {
    /// This box.
    pub(crate) fn of(loose: Loose<RollingResolver, Global>) -> Held
        ensures { result.state ≡ Some loose.value }
    {
        let Loose { at, alloc: _ } = loose;
        Held { at: at as *mut u8 }
    }

    /// What it has, moved into another one.
    pub(crate) fn lift(&mut self) -> Held
        ensures moved { result.state ≡ self.old.state }
        ensures left { self.new.state ≡ None }
    {
        Held { at: self.at }
    }

    /// The box that it is.
    pub(crate) fn into_box(self, alloc: Global) -> Box<RollingResolver>
        requires { IsSome self.state }
        ensures { self.state ≡ Some result.value }
    {
        let Held { at } = self;
        unsafe { Box::from_raw(alloc, at as *mut RollingResolver) }
    }
}

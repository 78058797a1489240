//! Values in memory of their own.
ghost use Rattle.std.specs.Prelude.{◌≡◌, IfErr, IfOk};

use std::alloc::Global;
use std::boxed::Box;
use std::marker::Model;

/// A value in memory of its own, so that what has it is moved at little cost. Contracts see the
/// value.
#[derive(Drop)]
pub(crate) struct Boxed<T> {
    value: Box<T>,
}

impl<T> Model for Boxed<T> {
    ghost use Rattle.std.specs.Box.{box_value};

    ghost Value = { T };

    ghost view = { λ it. box_value it.value };
}

impl<T: Drop> Boxed<T> {
    /// The value in memory of its own. Where memory is refused, the value is given back.
    pub(crate) fn new(alloc: Global, value: T) -> Result<Boxed<T>, T>
        ensures boxed { IfOk result (λ it. it ≡ value) }
        ensures refused { IfErr result (λ it. it ≡ value) }
    {
        match Box::new(alloc, value) {
            Ok(value) => Ok(Boxed { value }),
            Err(refused) => Err(refused.value),
        }
    }

    /// The value.
    pub(crate) fn as_ref(&self) -> &T
        ensures { result.now ≡ self.now }
    {
        &self.value
    }

    /// The value, out of its memory.
    pub(crate) fn into_inner(self) -> T
        ensures { result ≡ self }
    {
        Box::into_inner(self.value)
    }
}

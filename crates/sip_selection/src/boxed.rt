//! Values in memory of their own.
ghost use Rattle.std.specs.Prelude.{◌≡◌, IfOk};

use std::alloc::{AllocError, Global};
use std::boxed::Box;
use std::marker::Model;

/// A value in memory of its own, so that what has it takes little room. Contracts see the value.
#[derive(Drop)]
pub(crate) struct Boxed<T> {
    value: Box<T>,
}

impl<T> Model for Boxed<T> {
    ghost use Rattle.std.specs.Box.{box_value};

    ghost Value = { T };

    ghost view = { λ it. box_value it.value };
}

impl<T: Drop> Boxed<T> {
    /// The value in memory of its own.
    pub(crate) fn new(alloc: Global, value: T) -> Result<Boxed<T>, AllocError>
        ensures { IfOk result (λ it. it ≡ value) }
    {
        Ok(Boxed {
            value: Box::new(alloc, value)?,
        })
    }

    /// The value.
    pub(crate) fn as_ref(&self) -> &T
        ensures { result.now ≡ self.now }
    {
        &self.value
    }
}

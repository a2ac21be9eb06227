ghost use Rattle.std.specs.Prelude.{◌≡◌, IfOk};

use pd_types::NoMemory;
use std::alloc::Global;
use std::marker::Model;

/// A value in a block of its own, so that what holds it is no larger for it. Contracts see the value.
#[derive(Debug, Drop)]
pub struct Boxed<T> {
    block: Box<T>,
}

impl<T> Model for Boxed<T> {
    ghost Value = { T };

    ghost view = { λ b. b.block.value };
}

impl<T> Boxed<T> {
    /// The value in its block; want of memory drops it.
    pub fn new(alloc: Global, value: T) -> Result<Boxed<T>, NoMemory>
    where
        T: Drop,
        ensures value { IfOk result (λ boxed. boxed ≡ value) }
    {
        Ok(Boxed {
            block: Box::new(alloc, value)?,
        })
    }

    /// The value.
    pub fn value(&self) -> &T
        ensures value { result.now ≡ self.now }
    {
        &self.block
    }

    /// The value out of its block.
    pub fn into_value(self) -> T
        ensures value { result ≡ self }
    {
        Box::into_inner(self.block)
    }
}

impl<T: PartialEq> PartialEq for Boxed<T> {
    ghost eq = { T.eq };

    ghost laws = { T.laws };

    fn eq(&self, other: &Self) -> bool {
        self.value() == other.value()
    }
}

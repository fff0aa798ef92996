//! A value in a block of memory of its own.

ghost use Rattle.std.specs.Prelude.{◌≡◌, IfOk};
ghost use Rattle.std.specs.Borrow.{Lends, sem};

use mv_values::memory::NoMemory;
use std::alloc::Global;
use std::marker::Model;

/// A value in a block of memory of its own. Contracts see only the value.
#[derive(Drop)]
pub(crate) struct Block<T> {
    inner: Box<T>,
}

impl<T> Model for Block<T> {
    ghost Value = { T };

    ghost coded = { T.code };

    ghost view = { λ b. b.inner.value };
}

impl<T> Block<T> {
    ghost use Rattle.mv_core.specs.contracts.block.Block.{the_row};

    /// Borrows the value.
    pub(crate) fn get(&self) -> &T
        ensures { result.now ≡ self.now }
    {
        &self.inner
    }

    /// Borrows the value, to change it.
    pub(crate) fn get_mut(&mut self) -> &mut T
        ensures* lends { sem 𝓛 (Lends (the_row T.row) T.row self.entry result (λ w. w)) }
        ensures value { result.now ≡ self.old }
    {
        self.inner.as_mut()
    }
}

impl<T: Drop> Block<T> {
    /// Moves a value into a new block. Fails with `NoMemory` if memory runs out.
    pub(crate) fn new(alloc: Global, value: T) -> Result<Block<T>, NoMemory>
        ensures { IfOk result (λ block. block ≡ value) }
    {
        Ok(Block {
            inner: Box::new(alloc, value)?,
        })
    }
}

ghost use Rattle.std.specs.Prelude.{◌≡◌, IfOk};

use crate::{KnownCell, Meaning, Place};
use plain::{Exact, Memory};
use std::alloc::Global;

/// A value that stands in its place itself.
impl<T: Exact + Drop> Place<T> for T {
    ghost stands = { λ value. value };

    fn value(&self) -> &T {
        self
    }

    fn again(&mut self, alloc: Global) -> Result<T, Memory> {
        self.copy(alloc)
    }
}

/// A value that stands in a cell.
impl<'a, T, M: Meaning<T>> Place<T> for KnownCell<'a, T, M> {
    ghost stands = { λ known. known.value };

    fn value(&self) -> &T {
        KnownCell::value(self)
    }

    fn again(&mut self, _alloc: Global) -> Result<KnownCell<'a, T, M>, Memory> {
        Ok(KnownCell::again(self))
    }
}

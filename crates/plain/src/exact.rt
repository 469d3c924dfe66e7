ghost use Rattle.std.specs.Prelude.{◌≡◌, ◌↔◌, IsTrue, IfOk};

use crate::Memory;
use std::alloc::Global;

/// Values that are compared and copied exactly: `same` answers whether contracts can tell two values
/// apart, and a `copy` is a value that they can't tell from the first.
///
/// std's `Clone` and `PartialEq` say less of a type parameter: a clone is "a clone of each part", and
/// `==` an equivalence of the type's own.
pub trait Exact: Sized {
    /// Whether the two are the same value.
    fn same(&self, other: &Self) -> bool
        ensures { IsTrue result ↔ (self.now ≡ other.now) };

    /// An equal value of its own.
    fn copy(&self, alloc: Global) -> Result<Self, Memory>
        ensures { IfOk result (λ copied. copied ≡ self.now) };
}

impl Exact for bool {
    fn same(&self, other: &bool) -> bool {
        *self == *other
    }

    fn copy(&self, _alloc: Global) -> Result<bool, Memory> {
        Ok(*self)
    }
}

impl Exact for u8 {
    fn same(&self, other: &u8) -> bool {
        *self == *other
    }

    fn copy(&self, _alloc: Global) -> Result<u8, Memory> {
        Ok(*self)
    }
}

impl Exact for u16 {
    fn same(&self, other: &u16) -> bool {
        *self == *other
    }

    fn copy(&self, _alloc: Global) -> Result<u16, Memory> {
        Ok(*self)
    }
}

impl Exact for u32 {
    fn same(&self, other: &u32) -> bool {
        *self == *other
    }

    fn copy(&self, _alloc: Global) -> Result<u32, Memory> {
        Ok(*self)
    }
}

impl<T: Exact> Exact for Option<T> {
    fn same(&self, other: &Option<T>) -> bool {
        match (self, other) {
            (Some(this), Some(that)) => this.same(that),
            (None, None) => true,
            _ => false,
        }
    }

    fn copy(&self, alloc: Global) -> Result<Option<T>, Memory> {
        match self {
            Some(value) => Ok(Some(value.copy(alloc)?)),
            None => Ok(None),
        }
    }
}

impl<T: Exact, E: Exact> Exact for Result<T, E> {
    fn same(&self, other: &Result<T, E>) -> bool {
        match (self, other) {
            (Ok(this), Ok(that)) => this.same(that),
            (Err(this), Err(that)) => this.same(that),
            _ => false,
        }
    }

    fn copy(&self, alloc: Global) -> Result<Result<T, E>, Memory> {
        match self {
            Ok(value) => Ok(Ok(value.copy(alloc)?)),
            Err(error) => Ok(Err(error.copy(alloc)?)),
        }
    }
}
